//! The parts of an input.
ghost use Rattle.std.specs.Prelude.{◌≡◌, Ok, IfOk, IfErr};
ghost use Rattle.cqf_text.specs.Parts.{parts_of};
ghost use Rattle.cqf_output.specs.Stops.{EndsWith, IsRefused};
ghost use Rattle.cqf_program_scenario.specs.Parts.{one_part, parts_line, run_parts, two_parts};
ghost use Rattle.cqf_program_scenario.specs.RunParts.{texts_of};

use cqf_output::{REFUSED, Stop};
use cqf_text::parts;
use std::alloc::Global;

/// The parts of a run, each as it is in the input.
#[derive(Clone, Copy, Debug)]
pub struct RunParts<'i> {
    pub domain: &'i [u8],
    pub streams: &'i [u8],
    pub script: &'i [u8],
    pub offers: &'i [u8],
    /// The background frames, if the input has a fifth part.
    pub background: Option<&'i [u8]>,
}

/// Returns the end of a command whose input has the wrong number of parts.
fn parts_stop(alloc: Global) -> Stop
    ensures { EndsWith 1 parts_line result }
{
    Stop::with_line(alloc, REFUSED, "cqf: parts\n")
}

/// Returns the only part of the input. Ends with status 1 if the input has another number of parts, and with status 3 if an allocation
/// fails.
pub fn one_part(alloc: Global, input: &[u8]) -> Result<&[u8], Stop>
    ensures ok { IfOk result (λ part. one_part (parts_of input.now) ≡ Ok part.now) }
    ensures err { IfErr result (IsRefused (one_part (parts_of input.now))) }
{
    let Ok(found) = parts(alloc, input) else {
        return Err(Stop::memory(alloc));
    };
    match found.as_slice() {
        [part] => Ok(*part),
        _ => Err(parts_stop(alloc)),
    }
}

/// Returns the two parts of the input. Ends as [`one_part`] does.
pub fn two_parts(alloc: Global, input: &[u8]) -> Result<(&[u8], &[u8]), Stop>
    ensures ok { IfOk result (λ found. two_parts (parts_of input.now) ≡ Ok (found.0.now, found.1.now)) }
    ensures err { IfErr result (IsRefused (two_parts (parts_of input.now))) }
{
    let Ok(found) = parts(alloc, input) else {
        return Err(Stop::memory(alloc));
    };
    match found.as_slice() {
        [first, second] => Ok((*first, *second)),
        _ => Err(parts_stop(alloc)),
    }
}

/// Returns the four or five parts of the input of a run. Ends as [`one_part`] does.
pub fn run_parts(alloc: Global, input: &[u8]) -> Result<RunParts<'_>, Stop>
    ensures ok { IfOk result (λ found. run_parts (parts_of input.now) ≡ Ok (texts_of found)) }
    ensures err { IfErr result (IsRefused (run_parts (parts_of input.now))) }
{
    let Ok(found) = parts(alloc, input) else {
        return Err(Stop::memory(alloc));
    };
    match found.as_slice() {
        [domain, streams, script, offers] => Ok(RunParts {
            domain: *domain,
            streams: *streams,
            script: *script,
            offers: *offers,
            background: None,
        }),
        [domain, streams, script, offers, background] => Ok(RunParts {
            domain: *domain,
            streams: *streams,
            script: *script,
            offers: *offers,
            background: Some(*background),
        }),
        _ => Err(parts_stop(alloc)),
    }
}
