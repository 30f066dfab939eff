//! The input of `hops`: a scenario that has the requested stream and frame.
ghost use Rattle.std.specs.Prelude.{IfErr, IfOk};
ghost use Rattle.cqf_output.specs.Stops.{IsRefused};
ghost use Rattle.cqf_program_scenario.specs.RunParts.{texts_of};
ghost use Rattle.cqf_program_summary.specs.Hops.Gathered.{wanted_by};
ghost use Rattle.cqf_program_summary.specs.Hops.Known.{paced_scenario, paced_scenario_of, wanted_scenario};
ghost use Rattle.cqf_program_summary.specs.Hops.Reading.{IsPacedGiven, IsPacedIn, IsWantedGiven};

use crate::hops::known::know;
use crate::hops::wanting::FrameFilter;
use cqf_model::Limits;
use cqf_output::Stop;
use cqf_program_scenario::{RunInput, RunParts, domain_part, read_after, run_parts, streams_part};
use std::alloc::Global;

/// Reads the scenario of the parts within given limits, with the plan's streams.
fn read_parts(
    alloc: Global,
    limits: Limits,
    cycles: u32,
    parts: RunParts<'_>,
) -> Result<RunInput, Stop>
    ensures ok { IfOk result (IsPacedIn limits cycles (texts_of parts.entry)) }
    ensures err { IfErr result (IsRefused (paced_scenario_of limits cycles (texts_of parts.entry))) }
{
    let domain = domain_part(alloc, limits, parts.domain)?;
    let requests = streams_part(alloc, parts.streams)?;
    let given = read_after(alloc, cycles, domain, requests, parts)?;
    Ok(given)
}

/// Reads the same of an input.
fn read_paced(alloc: Global, limits: Limits, cycles: u32, input: &[u8]) -> Result<RunInput, Stop>
    ensures ok { IfOk result (IsPacedGiven limits cycles input.now) }
    ensures err { IfErr result (IsRefused (paced_scenario limits cycles input.now)) }
{
    let parts = run_parts(alloc, input)?;
    read_parts(alloc, limits, cycles, parts)
}

/// Reads the scenario of the input over `cycles` cycles within given limits, and checks that it has the requested
/// stream and frame.
///
/// # Errors
/// With status 1 and the line of the first fault of the input: of its parts, the domain, the streams, the script, the
/// offers, or the background frames. If there is none, with status 1 and a line about the requested stream, or else the
/// requested frame, that doesn't exist. With status 3 if an allocation fails.
pub(crate) fn read_wanted(
    alloc: Global,
    limits: Limits,
    cycles: u32,
    choice: FrameFilter<'_>,
    input: &[u8],
) -> Result<RunInput, Stop>
    ensures ok { IfOk result (IsWantedGiven limits cycles (wanted_by choice.entry) input.now) }
    ensures err { IfErr result (IsRefused (wanted_scenario limits cycles (wanted_by choice.entry) input.now)) }
{
    let given = read_paced(alloc, limits, cycles, input)?;
    match know(
        alloc,
        given.requests.as_slice(),
        given.offers.as_slice(),
        choice,
    ) {
        Ok(()) => Ok(given),
        Err(stop) => Err(stop),
    }
}
