//! The bytes that the program reads.
ghost use Rattle.std.specs.Prelude.{◌≡◌, ◌≤◌, ◌<◌, ◌^◌, codes, false, IfErr, OnOk, length, map};
ghost use Rattle.cqf_output.specs.Stops.{EndsWith, line_of};
ghost use Rattle.std.specs.Io.KnownBytes.{IsAtEnd};
ghost use Rattle.cqf_program_engine.specs.Edge.{IsHeard, IsUnheard, reading};
ghost use Rattle.cqf_program_engine.specs.Run.{EndsInput, EndsRead, most_bytes};

use crate::filled::STEP;
use crate::heard::{Heard, ReadFailure};
use crate::sources::Source;
use cqf_output::{FAULT, REFUSED, Stop};
use cqf_program_words::ask_for_large;
use std::alloc::Global;

/// The most bytes that the program reads without `--large`.
pub const MOST_BYTES: usize = 67_108_864;

/// The most bytes that it reads with `--large`.
pub const MOST_BYTES_OF_LARGE: usize = 536_870_912;

/// Returns the most bytes that the program reads, for the given words.
pub fn most_bytes(words: &[&str]) -> usize
    ensures value { result ≡ most_bytes (map (λ word. word.now) words.now) }
    ensures small { result < 2 ^ 63 }
{
    if ask_for_large(words) {
        MOST_BYTES_OF_LARGE
    } else {
        MOST_BYTES
    }
}

/// Returns the stop of a read that failed.
pub(crate) fn stop_of(alloc: Global, cause: ReadFailure) -> Stop
    ensures { EndsRead cause result }
{
    match cause {
        ReadFailure::Memory => Stop::memory(alloc),
        ReadFailure::Fault => Stop::with_line(alloc, FAULT, "cqf: input fault\n"),
    }
}

/// Returns the stop of an input that is too long.
pub(crate) fn stop_of_length(alloc: Global) -> Stop
    ensures { EndsWith 1 (line_of (codes "cqf: input too long")) result }
{
    Stop::with_line(alloc, REFUSED, "cqf: input too long\n")
}

/// Reads all of the input. Afterwards `input` has the bytes that were read: at most one more than `most`.
///
/// # Errors
/// With status 4 if the reader fails, with status 1 if the input has more than `most` bytes, and with status 3 if an
/// allocation fails.
pub fn read_input<R: Source>(alloc: Global, most: usize, input: &mut Heard<R>) -> Result<(), Stop>
    requires small { most < 2 ^ 63 }
    requires unheard { IsUnheard input.old }
    ensures heard { IsHeard most (reading R.remaining input.old input.new) }
    ensures end { OnOk result (IsAtEnd (R.remaining input.new.reader)) }
    ensures short { OnOk result (length input.new.bytes ≤ most) }
    ensures sound { OnOk result (input.new.failed ≡ false) }
    ensures err { IfErr result (EndsInput most (reading R.remaining input.old input.new)) }
{
    while input.bytes().len() <= most {
        let step = STEP.min(most + 1 - input.bytes().len());
        match input.read(step, most + 1) {
            Ok(0) => return Ok(()),
            Ok(_) => {}
            Err(cause) => return Err(stop_of(alloc, cause)),
        }
    }
    Err(stop_of_length(alloc))
}
