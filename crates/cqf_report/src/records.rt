//! The records of a text, one at a time.

ghost use Rattle.std.specs.Prelude.{ℕ, List, Option, IfOk};
ghost use Rattle.csv.specs.Reading.{Ready};
ghost use Rattle.csv.specs.Records.{fields_of};
ghost use Rattle.cqf_report.specs.Records.{Fields, StaysReady, StillGives, Takes};

use cqf_units::Memory;
use csv::{ByteRecord, Error, ErrorKind, Reader};
use std::alloc::AllocError;
use std::io::Read;

/// The result of taking a record from a reader.
#[derive(Clone, Copy, Debug, PartialEq, Eq)]
pub(crate) enum TakenRecord {
    /// The next record.
    Row,
    /// There is no further record.
    End,
    /// A record with another number of fields than the first.
    Refused,
}

/// Takes the reader's next record into `row`. The underlying reader reads from memory and doesn't fail. The contract of the crate `csv`
/// doesn't say so, so such an error is reported as `Memory`. A record of bytes has no other error.
pub(crate) fn take_record<R: Read>(
    reader: &mut Reader<R>,
    row: &mut ByteRecord,
) -> Result<TakenRecord, Memory>
    requires { Ready reader.old }
    ensures ready { IfOk result (λ taken. StaysReady taken reader.new) }
    ensures taken { IfOk result (λ taken. (expected : Option ℕ) (rows : List Fields) → StillGives R.remaining expected reader.old rows
        → Takes R.remaining expected taken reader.new (fields_of row.new) rows) }
{
    match reader.read_byte_record(row) {
        Ok(true) => Ok(TakenRecord::Row),
        Ok(false) => Ok(TakenRecord::End),
        Err(error) => match error.kind() {
            ErrorKind::UnequalLengths { .. } => Ok(TakenRecord::Refused),
            ErrorKind::Io(_) => Err(AllocError),
            ErrorKind::OutOfMemory => Err(AllocError),
            ErrorKind::Utf8 { .. } => unreachable!(),
            ErrorKind::Serialize(_) => unreachable!(),
            ErrorKind::Deserialize { .. } => unreachable!(),
        },
    }
}
