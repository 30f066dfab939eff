//! The rows of a table, one after the other.

ghost use Rattle.std.specs.Prelude.{ℕ, ◌≡◌, ◌≢◌, ◌≤◌, List, Option, Some, None, Ok, IfOk, IfErr, IfSome, OnOk, length, false};
ghost use Rattle.csv.specs.Reading.{Ready};
ghost use Rattle.csv.specs.Records.{fields_of};
ghost use Rattle.cqf_report.specs.Records.{Fields, StillGives};
ghost use Rattle.cqf_report.specs.Table.{IsFaultOf, TakesHeader, TakesNext, has_header, is_header, rows_from, table_read};
ghost use Rattle.cqf_report.specs.declared.tables.TableFault.TheVariants as fault_kind;

use crate::records::{TakenRecord, take_record};
use crate::tables::{TableFault, open_table};
use cqf_units::Nanos;
use csv::{ByteRecord, Reader};
use std::alloc::Global;
use std::io::Read;

/// A kind of table: its header, and the meaning of its rows.
pub(crate) trait RowFormat {
    /// The value of a row.
    type RowValue: Drop;

    ghost header: { List (List ℕ) };

    ghost row_of: { Self → List (List ℕ) → Option Self.RowValue };

    ghost instant_of: { Self.RowValue → ℕ };

    /// Returns whether the record is the header.
    fn names_columns(fields: &ByteRecord) -> bool
        ensures { result ≡ is_header header (fields_of fields.now) };

    /// Returns what the record writes, or `None` if it doesn't have the form of a row.
    fn read_row(&self, fields: &ByteRecord) -> Option<Self::RowValue>
        ensures { result ≡ row_of self.now (fields_of fields.now) };

    /// Returns the row's instant. Rows are in order of instant.
    fn instant(row: &Self::RowValue) -> Nanos
        ensures { result.0 ≡ instant_of row.now };

    ghost no_row_of_others: { (format : Self) (fields : List (List ℕ)) → (length header ≡ length fields → ⊥) → row_of format fields ≡ None };
}

/// Takes the first record, which must be the header.
fn take_header<F: RowFormat, R: Read>(
    _format: &F,
    reader: &mut Reader<R>,
    fields: &mut ByteRecord,
) -> Result<(), TableFault>
    requires { Ready reader.old }
    ensures ready { OnOk result (Ready reader.new) }
    ensures ok { IfOk result (λ _. (rows : List Fields) → StillGives R.remaining None reader.old rows → TakesHeader R.remaining F.header rows reader.new) }
    ensures err { IfErr result (λ fault. (rows : List Fields) → StillGives R.remaining None reader.old rows → fault ≢ fault_kind.Memory
        → (fault ≡ fault_kind.BadHeader) × (has_header F.header rows ≡ false)) }
{
    match take_record(reader, fields)? {
        TakenRecord::Row => {
            if F::names_columns(fields) {
                Ok(())
            } else {
                Err(TableFault::BadHeader)
            }
        }
        TakenRecord::End => Err(TableFault::BadHeader),
        TakenRecord::Refused => Err(TableFault::BadHeader),
    }
}

/// Takes the row with this number, which may not be before the instant `before`. Returns `None` if there is no further row.
fn next_row<F: RowFormat, R: Read>(
    format: &F,
    reader: &mut Reader<R>,
    fields: &mut ByteRecord,
    most: u32,
    number: u32,
    before: Nanos,
) -> Result<Option<F::RowValue>, TableFault>
    requires few { number ≤ most }
    requires ready { Ready reader.old }
    ensures ready { IfOk result (λ row. IfSome row (λ _. Ready reader.new)) }
    ensures taken { (rows : List Fields) → StillGives R.remaining (Some (length F.header)) reader.old rows
        → TakesNext most (length F.header) (F.row_of format.now) F.instant_of R.remaining number before.0 rows reader.new result }
{
    match take_record(reader, fields)? {
        TakenRecord::End => Ok(None),
        TakenRecord::Refused => Err(TableFault::BadRow(number)),
        TakenRecord::Row => {
            let Some(row) = format.read_row(fields) else {
                return Err(TableFault::BadRow(number));
            };
            if F::instant(&row) < before {
                return Err(TableFault::OutOfOrder(number));
            }
            Ok(Some(row))
        }
    }
}

/// Returns the rows that the reader still returns, from row 1 on. There may be at most `most`.
fn read_rows<F: RowFormat, R: Read>(
    alloc: Global,
    format: &F,
    reader: &mut Reader<R>,
    fields: &mut ByteRecord,
    most: u32,
) -> Result<Vec<F::RowValue>, TableFault>
    requires { Ready reader.old }
    ensures ok { IfOk result (λ taken. (rows : List Fields) → StillGives R.remaining (Some (length F.header)) reader.old rows
        → rows_from most (F.row_of format.now) F.instant_of 1 0 rows ≡ Ok taken.items) }
    ensures err { IfErr result (λ fault. (rows : List Fields) → StillGives R.remaining (Some (length F.header)) reader.old rows
        → IsFaultOf (rows_from most (F.row_of format.now) F.instant_of 1 0 rows) fault) }
{
    let mut rows = Vec::new(alloc);
    let mut before = Nanos(0);
    for index in 0..most {
        let Some(row) = next_row(format, reader, fields, most, index + 1, before)? else {
            return Ok(rows);
        };
        before = F::instant(&row);
        rows.push(row)?;
    }
    match take_record(reader, fields)? {
        TakenRecord::End => Ok(rows),
        TakenRecord::Row => Err(TableFault::TooMany),
        TakenRecord::Refused => Err(TableFault::TooMany),
    }
}

/// Returns the rows of a text, at most `most`, or its first fault.
pub(crate) fn read_table<F: RowFormat>(
    alloc: Global,
    format: &F,
    most: u32,
    text: &[u8],
) -> Result<Vec<F::RowValue>, TableFault>
    ensures ok { IfOk result (λ rows. table_read most F.header (F.row_of format.now) F.instant_of text.now ≡ Ok rows.items) }
    ensures err { IfErr result (λ fault. IsFaultOf (table_read most F.header (F.row_of format.now) F.instant_of text.now) fault) }
{
    let mut reader = open_table(alloc, text);
    let mut fields = ByteRecord::new(alloc);
    take_header(format, &mut reader, &mut fields)?;
    read_rows(alloc, format, &mut reader, &mut fields, most)
}
