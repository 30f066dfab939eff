//! One line of a gate list's text.
ghost use Rattle.std.specs.Prelude.{◌≡◌, ◌<◌};
ghost use Rattle.std.specs.Char.{digit_value};
ghost use Rattle.std.specs.Option.{SomeIff};
ghost use Rattle.cqf_gates.specs.GateListText.{entry_of_line};

use cqf_text::read_decimal;

/// Returns the value of a hexadecimal digit of either case, or `None` for any other byte.
fn hex_value(byte: u8) -> Option<u8>
    ensures { SomeIff result (digit_value byte < 16) (digit_value byte) }
{
    match byte {
        b'0'..=b'9' => Some(byte - b'0'),
        b'A'..=b'F' => Some(byte - b'A' + 10),
        b'a'..=b'f' => Some(byte - b'a' + 10),
        _ => None,
    }
}

/// Returns the entry that the line denotes: its gate states as two hexadecimal digits of either case, one space, and
/// its interval as a decimal number up to 4,294,967,295. Returns `None` if the line has another form.
pub(crate) fn read_entry(line: &[u8]) -> Option<(u8, u32)>
    ensures { result ≡ entry_of_line line.now }
{
    let (form, digits) = line.split_first_chunk::<3>()?;
    let high = hex_value(form[0])?;
    let low = hex_value(form[1])?;
    if form[2] != b' ' {
        return None;
    }
    let interval = read_decimal(digits, 0, u64::from(u32::MAX))?;
    Some((16 * high + low, interval as u32))
}
