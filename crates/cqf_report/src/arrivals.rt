//! The arrivals of a port, read from a text.

ghost use Rattle.std.specs.Prelude.{◌≡◌, ◌≤◌, IfOk, IfErr, Ok, length};
ghost use Rattle.cqf_report.specs.OtherColumns.{in_four-other};
ghost use Rattle.cqf_report.specs.Table.{IsFaultOf, in_four};
ghost use Rattle.cqf_report.specs.Arrivals.{arrival_header, arrival_instant, arrival_of, arrivals_of_table, AreArrivals};
ghost use Rattle.cqf_model.specs.Limits.{most_offers};

use crate::rows::{RowFormat, read_table};
use crate::tables::{TableFault, four_fields, is_header_of, read_number};
use cqf_model::{Arrival, LAST_UNTIL, Limits};
use cqf_text::read_decimal;
use cqf_units::Nanos;
use csv::ByteRecord;
use std::alloc::Global;

/// Returns the arrival that four fields write, or `None` if they write none.
fn read_arrival(at: &[u8], class: &[u8], octets: &[u8], frame: &[u8]) -> Option<Arrival>
    ensures { result ≡ arrival_of at.now class.now octets.now frame.now }
{
    let Some(at) = read_decimal(at, 0, LAST_UNTIL) else {
        return None;
    };
    let Some(class) = read_number(class, 0, 7) else {
        return None;
    };
    let Some(octets) = read_number(octets, 64, 1522) else {
        return None;
    };
    let Some(frame) = read_number(frame, 0, u32::MAX) else {
        return None;
    };
    Some(Arrival {
        at: Nanos(at),
        class: class as u8,
        octets,
        frame,
    })
}

/// The format of rows of arrivals.
struct ArrivalRows;

impl RowFormat for ArrivalRows {
    type RowValue = Arrival;

    ghost header = { arrival_header };

    ghost row_of = { λ _. in_four arrival_of };

    ghost instant_of = { arrival_instant };

    ghost no_row_of_others = { λ _. in_four-other arrival_of };

    fn names_columns(fields: &ByteRecord) -> bool {
        let names = (
            b"at".as_slice(),
            b"class".as_slice(),
            b"octets".as_slice(),
            b"frame".as_slice(),
        );
        is_header_of(fields, names)
    }

    fn read_row(&self, fields: &ByteRecord) -> Option<Arrival> {
        let Some((at, class, octets, frame)) = four_fields(fields) else {
            return None;
        };
        read_arrival(at, class, octets, frame)
    }

    fn instant(row: &Arrival) -> Nanos {
        row.at
    }
}

/// Returns the arrivals that the text writes, in order.
///
/// The header is `at,class,octets,frame`. An arrival's instant is at most 100,000,000 ns, its class 0 to 7, its size 64 to 1,522 octets
/// (IEEE 802.3), and its label any 32-bit number. No row's instant is before that of the previous row. The text may have all that the crate
/// `csv` accepts: quotes, CR LF, and a last row without its line end.
///
/// # Errors
/// `BadHeader` if the first record isn't the header or there is none. Then the first fault of the rows in their order: `TooMany` at row
/// 1,000,001, regardless of its fields, `BadRow`, or `OutOfOrder`. `Memory` if an allocation fails.
pub fn read_arrivals(alloc: Global, text: &[u8]) -> Result<Vec<Arrival>, TableFault>
    ensures ok { IfOk result (λ arrivals. arrivals_of_table text.now ≡ Ok arrivals.items) }
    ensures good { IfOk result (λ arrivals. AreArrivals arrivals.items) }
    ensures few { IfOk result (λ arrivals. length arrivals.items ≤ most_offers) }
    ensures err { IfErr result (λ fault. IsFaultOf (arrivals_of_table text.now) fault) }
{
    let most = Limits::of_profile().rows_within();
    read_table(alloc, &ArrivalRows, most, text)
}
