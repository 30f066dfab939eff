//! Line numbers of a file of calls, in the lines of its script's faults.
ghost use Rattle.std.specs.Prelude.{◌≡◌, IfOk, option_map, string_bytes};
ghost use Rattle.cqf_program_files.specs.Numbers.{following, number_in_file, number_written, renumbered, unended, written_by};

use cqf_text::read_decimal;
use cqf_units::Memory;
use std::alloc::Global;

/// Returns a text without the line feed at its end; `None` if it has no line feed there.
fn unended(text: &[u8]) -> Option<&[u8]>
    ensures { option_map (λ rest. rest.now) result ≡ unended text.now }
{
    if text.ends_with(b"\n") {
        Some(&text[..text.len() - 1])
    } else {
        None
    }
}

/// Returns the rest of a line, if the line begins so.
fn following<'l>(start: &str, line: &'l [u8]) -> Option<&'l [u8]>
    ensures { option_map (λ rest. rest.now) result ≡ following start.now line.now }
{
    if line.starts_with(start.as_bytes()) {
        unended(&line[start.len()..])
    } else {
        None
    }
}

/// Returns the number of the file's line for the script's line of a number, from 1.
fn number_in_file(numbers: &[u64], number: u64) -> Option<u64>
    ensures { result ≡ number_in_file numbers.now number }
{
    let position = number.saturating_sub(1) as usize;
    numbers.get(position).copied()
}

/// Returns the number for a fault's line that begins so and ends with the number of a script's line.
fn number_written(numbers: &[u64], start: &str, line: &[u8]) -> Option<u64>
    ensures { result ≡ number_written numbers.now start.now line.now }
{
    let Some(rest) = following(start, line) else {
        return None;
    };
    match read_decimal(rest, 1, u64::MAX) {
        Some(number) => number_in_file(numbers, number),
        None => None,
    }
}

/// Returns the fault's line with that number. Returns `Memory` if an allocation fails.
fn written_by(
    alloc: Global,
    numbers: &[u64],
    start: &str,
    line: &[u8],
) -> Result<Option<String>, Memory>
    ensures { IfOk result (λ reported. option_map string_bytes reported ≡ written_by numbers.now start.now line.now) }
{
    match number_written(numbers, start, line) {
        Some(number) => {
            let reported = format!(in alloc; "{start}{number}\n")?;
            Ok(Some(reported))
        }
        None => Ok(None),
    }
}

/// Returns the line of a script's fault with the number of the script's line replaced by that of the file's line. `numbers` has the latter
/// for each of the script's lines, as [`Front`](crate::Front) has. Any other line is returned unchanged.
///
/// # Errors
/// If an allocation fails.
pub fn renumbered(alloc: Global, numbers: &[u64], line: &[u8]) -> Result<Vec<u8>, Memory>
    ensures { IfOk result (λ reported. reported.items ≡ renumbered numbers.now line.now) }
{
    if let Some(reported) = written_by(alloc, numbers, "cqf: script: BadLine ", line)? {
        return Ok(reported.into_bytes());
    }
    if let Some(reported) = written_by(alloc, numbers, "cqf: script: UnknownStream ", line)? {
        return Ok(reported.into_bytes());
    }
    if let Some(reported) = written_by(alloc, numbers, "cqf: script: TooMany ", line)? {
        return Ok(reported.into_bytes());
    }
    Vec::from_slice(alloc, line)
}
