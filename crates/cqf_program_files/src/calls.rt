//! Files of calls.
ghost use Rattle.std.specs.Prelude.{◌≡◌, ◌+◌, ◌≤◌, ◌^◌, ◌∷◌, [], IfOk, OnOk, codes, replicate};
ghost use Rattle.cqf_program_files.specs.Calls.{HasPut, bare, cycle_written, is_silent, last_written, lines_called, lines_for, lines_written, numbered};
ghost use Rattle.cqf_program_files.specs.Calls.{numbers_of_script, reached_after, script_of_calls, seals_between, text_of_script, written_after};

use cqf_admission::{is_order, is_seal_line};
use cqf_text::{read_decimal, split_line};
use cqf_units::Memory;
use std::alloc::Global;

/// The script that is made from a file of calls, with the number of the file's line for each of its lines.
#[derive(Debug, Drop)]
pub struct CallsScript {
    pub(crate) text: Vec<u8>,
    pub(crate) numbers: Vec<u64>,
}

/// The last cycle that a line may state; cycles are counted up to it.
const LAST_WRITTEN: u64 = 4_294_967_295;

/// Returns a line without the carriage return before its line feed.
fn bare(line: &[u8]) -> &[u8]
    ensures { result.now ≡ bare line.now }
{
    if line.ends_with(b"\r") {
        &line[..line.len() - 1]
    } else {
        line
    }
}

/// Returns whether the line has no content: it is empty, or a comment.
fn is_silent(line: &[u8]) -> bool
    ensures { result ≡ is_silent line.now }
{
    match line {
        [] => true,
        [first, ..] => *first == b'#',
    }
}

/// Returns the cycle that a line `@N` states.
fn cycle_written(line: &[u8]) -> Option<u64>
    ensures { result ≡ cycle_written line.now }
{
    match line {
        [b'@', digits @ ..] => read_decimal(digits, 0, LAST_WRITTEN),
        _ => None,
    }
}

/// Returns how many Seals a run of `cycles` cycles has from a cycle on, up to another.
fn seals_between(cycles: u64, reached: u64, cycle: u64) -> u64
    ensures value { result ≡ seals_between cycles reached cycle }
    ensures few { result ≤ cycles }
{
    cycle.min(cycles).saturating_sub(reached)
}

/// Returns the cycle that is reached after a line.
fn reached_after(reached: u64, line: &[u8]) -> u64
    requires { reached ≤ last_written }
    ensures value { result ≡ reached_after reached line.now }
    ensures counted { result ≤ last_written }
{
    let following = if is_seal_line(line) {
        reached + 1
    } else {
        written_after(reached, cycle_written(line))
    };
    LAST_WRITTEN.min(following)
}

/// Returns the cycle that is reached after a line that states one, or none.
fn written_after(reached: u64, reported: Option<u64>) -> u64
    ensures { result ≡ written_after reached reported }
{
    match reported {
        None => reached,
        Some(cycle) => reached.max(cycle),
    }
}

impl CallsScript {
    /// Appends a line for the file's line of this number. Returns `Memory` if an allocation fails.
    fn put(&mut self, number: u64, line: &[u8]) -> Result<(), Memory>
        ensures { OnOk result (HasPut self.old self.new ((number, line.now) ∷ [])) }
    {
        self.text.extend_from_slice(line)?;
        self.text.push(b'\n')?;
        self.numbers.push(number)?;
        Ok(())
    }

    /// Appends `count` Seals. Returns `Memory` if an allocation fails.
    fn put_seals(&mut self, number: u64, count: u64) -> Result<(), Memory>
        ensures { OnOk result (HasPut self.old self.new (numbered number (replicate count (codes "seal")))) }
    {
        for _seal in 0..count {
            self.put(number, b"seal")?;
        }
        Ok(())
    }

    /// Appends the lines for a line that states a cycle. Returns `Memory` if an allocation fails.
    fn put_written(
        &mut self,
        position: CallsPosition,
        line: &[u8],
        cycle: u64,
    ) -> Result<(), Memory>
        ensures { OnOk result (HasPut self.old self.new (numbered position.number (lines_written position.cycles position.reached line.now cycle))) }
    {
        if cycle < position.reached {
            return self.put(position.number, line);
        }
        self.put_seals(
            position.number,
            seals_between(position.cycles, position.reached, cycle),
        )
    }

    /// Appends the lines for a line that is neither a Seal nor states a cycle. Returns `Memory` if an allocation fails.
    fn put_called(&mut self, position: CallsPosition, line: &[u8]) -> Result<(), Memory>
        ensures { OnOk result (HasPut self.old self.new (numbered position.number (lines_called position.cycles position.reached line.now))) }
    {
        if position.cycles <= position.reached && is_order(line) {
            return Ok(());
        }
        self.put(position.number, line)
    }

    /// Appends the lines for a line. Returns `Memory` if an allocation fails.
    fn put_for(&mut self, position: CallsPosition, line: &[u8]) -> Result<(), Memory>
        requires { position.reached ≤ last_written }
        ensures { OnOk result (HasPut self.old self.new (numbered position.number (lines_for position.cycles position.reached line.now))) }
    {
        if is_silent(line) {
            return Ok(());
        }
        if is_seal_line(line) {
            let count = seals_between(position.cycles, position.reached, position.reached + 1);
            return self.put_seals(position.number, count);
        }
        match cycle_written(line) {
            None => self.put_called(position, line),
            Some(cycle) => self.put_written(position, line, cycle),
        }
    }
}

/// The position of a line: its number, from 1, the cycle that is reached before it, and how many cycles are run.
#[derive(Clone, Copy, Debug)]
struct CallsPosition {
    cycles: u64,
    number: u64,
    reached: u64,
}

impl CallsPosition {
    /// Returns the position of the next line.
    fn following(self, line: &[u8]) -> CallsPosition
        requires number { self.number ≤ 2 ^ 63 }
        requires reached { self.reached ≤ last_written }
        ensures cycles { result.cycles ≡ self.cycles }
        ensures number { result.number ≡ self.number + 1 }
        ensures reached { result.reached ≡ reached_after self.reached line.now }
        ensures counted { result.reached ≤ last_written }
    {
        CallsPosition {
            cycles: self.cycles,
            number: self.number + 1,
            reached: reached_after(self.reached, line),
        }
    }
}

/// Returns the script that is made from a file of calls, for a run of `cycles` cycles.
///
/// Empty lines and those that begin with `#` are left out, and so is a carriage return before a line feed. `@N` alone on a line says that
/// the following calls are made in cycle N; it is replaced by as many Seals as that takes. Seals and calls of cycles that aren't run are
/// left out. Every other line is left unchanged, even one that no script may have, such as `@N` if N is before the cycle reached. Time and
/// memory grow with the text and the cycles.
///
/// # Errors
/// If an allocation fails.
pub fn script_of_calls(alloc: Global, cycles: u32, text: &[u8]) -> Result<CallsScript, Memory>
    ensures text { IfOk result (λ script. script.text.items ≡ text_of_script (script_of_calls cycles text.now)) }
    ensures numbers { IfOk result (λ script. script.numbers.items ≡ numbers_of_script (script_of_calls cycles text.now)) }
{
    let mut script = CallsScript {
        text: Vec::new(alloc),
        numbers: Vec::new(alloc),
    };
    let mut position = CallsPosition {
        cycles: u64::from(cycles),
        number: 1,
        reached: 0,
    };
    let mut left = text;
    while let Some((line, following)) = split_line(left) {
        let line = bare(line);
        script.put_for(position, line)?;
        position = position.following(line);
        left = following;
    }
    Ok(script)
}
