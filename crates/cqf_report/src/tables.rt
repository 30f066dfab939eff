//! What the tables that are read have in common: their header, their fields and their faults.

ghost use Rattle.std.specs.Prelude.{ℕ, ◌≡◌, ◌≤◌, ◌∷◌, [], List, IfSome, MatchOption, Some, None};
ghost use Rattle.cqf_text.specs.Decimal.{decimal_in};
ghost use Rattle.csv.specs.Reading.{Ready};
ghost use Rattle.csv.specs.Records.{fields_of};
ghost use Rattle.cqf_report.specs.Records.{StillGives, records_of};
ghost use Rattle.cqf_report.specs.Table.{five_of, four_of, is_header};
ghost use Rattle.cqf_report.specs.Faults.{table_fault_text};

use cqf_text::read_decimal;
use cqf_units::Memory;
use csv::{ByteRecord, Reader, ReaderBuilder};
use std::alloc::{AllocFailed, Global};
use std::fmt;
use std::io::Read;
use thiserror::Error;

/// Why a table is refused. Rows are the records after the header, counted from 1. A fault prints as its name, followed by its row if it has
/// one.
#[derive(Clone, Copy, Debug, PartialEq, Eq, Error)]
pub enum TableFault {
    /// The first record is not the header, or there is no record.
    BadHeader,
    /// There are more rows than the limits allow. If none are set, these are 1,000,000 rows.
    TooMany,
    /// A field of this row isn't as required, or the row has another number of fields.
    BadRow(u32),
    /// This row's instant is before that of the previous row.
    OutOfOrder(u32),
    /// An allocation failed.
    Memory,
}

/// Converts a failed allocation into a fault.
impl From<Memory> for TableFault {
    ghost use Rattle.cqf_report.specs.declared.tables.TableFault.TheVariants as variant;

    ghost from_gives = { λ _ fault. fault ≡ variant.Memory };

    fn from(_refused: Memory) -> TableFault {
        TableFault::Memory
    }
}

/// Converts a failed allocation of a value into a fault.
impl<T: Drop> From<AllocFailed<T>> for TableFault {
    ghost use Rattle.cqf_report.specs.declared.tables.TableFault.TheVariants as variant;

    ghost from_gives = { λ _ fault. fault ≡ variant.Memory };

    fn from(_refused: AllocFailed<T>) -> TableFault {
        TableFault::Memory
    }
}

impl fmt::Display for TableFault {
    ghost output = { λ fault. Some (table_fault_text fault) };

    fn fmt<W: fmt::Write>(&self, f: &mut fmt::Formatter<W>) -> fmt::Result {
        match self {
            TableFault::BadHeader => f.write_str("BadHeader"),
            TableFault::TooMany => f.write_str("TooMany"),
            TableFault::BadRow(row) => write!(f, "BadRow {row}"),
            TableFault::OutOfOrder(row) => write!(f, "OutOfOrder {row}"),
            TableFault::Memory => f.write_str("Memory"),
        }
    }
}

/// Why a table of offers is refused.
pub type OfferFault = TableFault;

/// Returns a record's four fields, if it has exactly four.
pub(crate) fn four_fields(row: &ByteRecord) -> Option<(&[u8], &[u8], &[u8], &[u8])>
    ensures { MatchOption result (four_of (fields_of row.now) ≡ None) (λ fields. four_of (fields_of row.now)
        ≡ Some (fields.0.now, fields.1.now, fields.2.now, fields.3.now)) }
{
    if row.len() != 4 {
        return None;
    }
    let Some(first) = row.get(0) else {
        return None;
    };
    let Some(second) = row.get(1) else {
        return None;
    };
    let Some(third) = row.get(2) else {
        return None;
    };
    let Some(fourth) = row.get(3) else {
        return None;
    };
    Some((first, second, third, fourth))
}

/// Returns a record's five fields, if it has exactly five.
pub(crate) fn five_fields(row: &ByteRecord) -> Option<(&[u8], &[u8], &[u8], &[u8], &[u8])>
    ensures { MatchOption result (five_of (fields_of row.now) ≡ None) (λ fields. five_of (fields_of row.now)
        ≡ Some (fields.0.now, fields.1.now, fields.2.now, fields.3.now, fields.4.now)) }
{
    if row.len() != 5 {
        return None;
    }
    let Some(first) = row.get(0) else {
        return None;
    };
    let Some(second) = row.get(1) else {
        return None;
    };
    let Some(third) = row.get(2) else {
        return None;
    };
    let Some(fourth) = row.get(3) else {
        return None;
    };
    let Some(fifth) = row.get(4) else {
        return None;
    };
    Some((first, second, third, fourth, fifth))
}

/// Returns whether the record has exactly these four fields.
pub(crate) fn is_header_of(row: &ByteRecord, names: (&[u8], &[u8], &[u8], &[u8])) -> bool
    ensures { result ≡ is_header (names.entry.0.now ∷ names.entry.1.now ∷ names.entry.2.now ∷ names.entry.3.now ∷ []) (fields_of row.now) }
{
    let Some((first, second, third, fourth)) = four_fields(row) else {
        return false;
    };
    names.0 == first && names.1 == second && names.2 == third && names.3 == fourth
}

/// Returns whether the record has exactly these five fields.
pub(crate) fn is_header_of_five(
    row: &ByteRecord,
    names: (&[u8], &[u8], &[u8], &[u8], &[u8]),
) -> bool
    ensures { result ≡ is_header (names.entry.0.now ∷ names.entry.1.now ∷ names.entry.2.now ∷ names.entry.3.now ∷ names.entry.4.now ∷ []) (fields_of row.now) }
{
    let Some((first, second, third, fourth, fifth)) = five_fields(row) else {
        return false;
    };
    names.0 == first
        && names.1 == second
        && names.2 == third
        && names.3 == fourth
        && names.4 == fifth
}

/// Returns the decimal number in a field, if it is within this range.
pub(crate) fn read_number(field: &[u8], least: u32, most: u32) -> Option<u32>
    ensures value { result ≡ decimal_in least most field.now }
    ensures most { IfSome result (λ number. number ≤ most) }
{
    let Some(number) = read_decimal(field, u64::from(least), u64::from(most)) else {
        return None;
    };
    Some(number as u32)
}

/// Returns a reader that returns each record of the text, including the header.
pub(crate) fn open_table<R: Read>(alloc: Global, text: R) -> Reader<R>
    ensures ready { Ready result }
    ensures gives { (bytes : List ℕ) → R.remaining text ≡ Some bytes → StillGives R.remaining None result (records_of bytes) }
{
    ReaderBuilder::new()
        .has_headers(false)
        .from_reader(alloc, text)
}
