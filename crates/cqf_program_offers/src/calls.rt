//! Calls that admit all streams before cycle 0.
ghost use Rattle.std.specs.Prelude.{◌≡◌, IfErr, IfOk, Ok, map, string_bytes};
ghost use Rattle.cqf_admission.specs.Asking.{asked_paced};
ghost use Rattle.cqf_program_offers.specs.Made.{call_of, made_calls, script_text};
ghost use Rattle.cqf_output.specs.Stops.{IsRefused};

use cqf_output::Stop;
use cqf_program_plans::rows_of_cycle_0;
use cqf_topology::{Domain, PacedRequest};
use cqf_units::Memory;
use std::alloc::Global;

/// Returns the line of a script that admits a stream.
fn call_of(alloc: Global, request: &PacedRequest) -> Result<String, Memory>
    ensures { IfOk result (λ line. string_bytes line ≡ call_of (asked_paced request.now)) }
{
    let name = request.name.as_str();
    let line = format!(in alloc; "0 admit {name}\n")?;
    Ok(line)
}

/// Returns the script that admits streams.
fn script_text(alloc: Global, requests: &[PacedRequest]) -> Result<Vec<u8>, Memory>
    ensures { IfOk result (λ text. text.items ≡ script_text (map asked_paced requests.now)) }
{
    let mut text = Vec::new(alloc);
    for request in requests {
        let line = call_of(alloc, request)?;
        text.extend_from_slice(line.as_bytes())?;
    }
    Ok(text)
}

/// Returns the script that admits streams before cycle 0, if all are admitted as by `compile`.
///
/// # Errors
/// With status 1 and the line of the first stream that isn't admitted; with status 3 if an allocation fails.
pub(crate) fn made_calls(
    alloc: Global,
    domain: &Domain,
    requests: &[PacedRequest],
) -> Result<Vec<u8>, Stop>
    ensures ok { IfOk result (λ text. made_calls domain.now (map asked_paced requests.now) ≡ Ok text.items) }
    ensures err { IfErr result (IsRefused (made_calls domain.now (map asked_paced requests.now))) }
{
    let _rows = rows_of_cycle_0(alloc, domain, requests)?;
    match script_text(alloc, requests) {
        Ok(text) => Ok(text),
        Err(_) => Err(Stop::memory(alloc)),
    }
}
