//! Decimal numbers in text.
ghost use Rattle.std.specs.Prelude.{◌≡◌, ◌+◌, ◌*◌, ◌^◌, ◌≤◌, ◌<◌, length, MatchOption};
ghost use Rattle.cqf_text.specs.Decimal.{decimal_in, in_range};

/// The largest number of digits of a number, including leading zeros.
const MOST_DIGITS: usize = 20;

/// The largest number of digits that always denote a number below 2^64.
const SAFE_DIGITS: usize = 19;

/// Returns the number with one more digit, or `None` if it doesn't fit 64 bits.
fn with_digit(number: u64, digit: u8) -> Option<u64>
    requires { digit < 10 }
    ensures { MatchOption result (2 ^ 64 ≤ number * 10 + digit) (λ more. more ≡ number * 10 + digit) }
{
    number.checked_mul(10)?.checked_add(u64::from(digit))
}

/// Returns the number if it is from `least` to `most`, otherwise `None`.
fn ranged(number: u64, least: u64, most: u64) -> Option<u64>
    ensures { result ≡ in_range least most number }
{
    if least <= number && number <= most {
        Some(number)
    } else {
        None
    }
}

/// Returns the number that the bytes denote, if it is in the range. There are 1 to 19 bytes, so no step overflows 64 bits.
fn read_short(bytes: &[u8], least: u64, most: u64) -> Option<u64>
    requires some { 0 < length bytes.now }
    requires few { length bytes.now ≤ 19 }
    ensures { result ≡ decimal_in least most bytes.now }
{
    let mut number: u64 = 0;
    for byte in bytes {
        if !byte.is_ascii_digit() {
            return None;
        }
        number = number * 10 + u64::from(*byte - b'0');
    }
    ranged(number, least, most)
}

/// Returns the number that the bytes denote, if it is in the range. There are 1 to 20 bytes, and each step is checked
/// to fit 64 bits.
fn read_long(bytes: &[u8], least: u64, most: u64) -> Option<u64>
    requires some { 0 < length bytes.now }
    requires few { length bytes.now ≤ 20 }
    ensures { result ≡ decimal_in least most bytes.now }
{
    let mut number = 0;
    for byte in bytes {
        if !byte.is_ascii_digit() {
            return None;
        }
        match with_digit(number, *byte - b'0') {
            Some(more) => number = more,
            None => return None,
        }
    }
    ranged(number, least, most)
}

/// Returns the decimal number that the bytes denote: one to twenty ASCII digits, leading zeros allowed, with a value
/// from `least` to `most`. Returns `None` for anything else.
pub fn read_decimal(bytes: &[u8], least: u64, most: u64) -> Option<u64>
    ensures { result ≡ decimal_in least most bytes.now }
{
    if bytes.is_empty() || bytes.len() > MOST_DIGITS {
        return None;
    }
    if bytes.len() <= SAFE_DIGITS {
        read_short(bytes, least, most)
    } else {
        read_long(bytes, least, most)
    }
}
