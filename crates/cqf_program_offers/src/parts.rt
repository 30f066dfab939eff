//! The parts from which missing parts are made.
ghost use Rattle.std.specs.Prelude.{◌≡◌, [], true, IfErr, IfOk, Ok, map};
ghost use Rattle.cqf_admission.specs.Asking.{asked_paced};
ghost use Rattle.cqf_program_offers.specs.Made.{asked_at_edges, asked_by_deadlines, asked_of_part};
ghost use Rattle.cqf_program_offers.specs.OffersOutput.{asked_in};
ghost use Rattle.cqf_output.specs.Stops.{EndsWith, IsRefused};
ghost use Rattle.cqf_program_plans.specs.Edges.{has_access};
ghost use Rattle.cqf_traffic.specs.FlowsText.{flow_text};

use crate::reading::flows_part;
use cqf_network::NetworkDomain;
use cqf_output::Stop;
use cqf_program_plans::parted;
use cqf_program_scenario::{planned_part, streams_part};
use cqf_topology::PacedRequest;
use cqf_traffic::Flow;
use cqf_units::Memory;
use std::alloc::Global;

/// Returns a copy of the streams' requests.
fn requests_of(alloc: Global, flows: &[Flow]) -> Result<Vec<PacedRequest>, Memory>
    ensures { IfOk result (λ requests. map asked_paced requests.items ≡ map asked_in (map flow_text flows.now)) }
{
    let mut requests = Vec::new(alloc);
    for flow in flows {
        requests.push(flow.planned.request.try_copy(alloc)?)?;
    }
    Ok(requests)
}

/// Returns a copy of the streams' requests. Returns `Err` with status 3 if an allocation fails.
pub(crate) fn copied_requests(alloc: Global, flows: &[Flow]) -> Result<Vec<PacedRequest>, Stop>
    ensures ok { IfOk result (λ requests. map asked_paced requests.items ≡ map asked_in (map flow_text flows.now)) }
    ensures err { IfErr result (EndsWith 3 []) }
{
    match requests_of(alloc, flows) {
        Ok(requests) => Ok(requests),
        Err(_) => Err(Stop::memory(alloc)),
    }
}

/// Returns the requests for the streams of a part, whose deadlines are read as the part has them.
fn requests_by_deadlines(alloc: Global, text: &[u8]) -> Result<Vec<PacedRequest>, Stop>
    ensures ok { IfOk result (λ requests. asked_by_deadlines text.now ≡ Ok (map asked_paced requests.items)) }
    ensures err { IfErr result (IsRefused (asked_by_deadlines text.now)) }
{
    let planned = planned_part(alloc, text)?;
    match parted(alloc, planned) {
        Ok((requests, _deadlines)) => Ok(requests),
        Err(_) => Err(Stop::memory(alloc)),
    }
}

/// Returns the requests for the streams of a part, as they are at their edge bridges.
fn requests_at_edges(
    alloc: Global,
    network: &NetworkDomain,
    text: &[u8],
) -> Result<Vec<PacedRequest>, Stop>
    ensures ok { IfOk result (λ requests. asked_at_edges network.now text.now ≡ Ok (map asked_paced requests.items)) }
    ensures err { IfErr result (IsRefused (asked_at_edges network.now text.now)) }
{
    let flows = flows_part(alloc, network, text)?;
    copied_requests(alloc, flows.as_slice())
}

/// Returns whether a station of a network has an access link.
fn has_access(network: &NetworkDomain) -> bool
    ensures { result ≡ has_access network.now }
{
    !network.talkers().is_empty()
}

/// Returns the requests for the streams of a part whose deadlines are read.
fn planned_requests(
    alloc: Global,
    network: &NetworkDomain,
    text: &[u8],
) -> Result<Vec<PacedRequest>, Stop>
    ensures ok { IfOk result (λ requests. asked_of_part network.now true text.now ≡ Ok (map asked_paced requests.items)) }
    ensures err { IfErr result (IsRefused (asked_of_part network.now true text.now)) }
{
    if has_access(network) {
        requests_at_edges(alloc, network, text)
    } else {
        requests_by_deadlines(alloc, text)
    }
}

/// Returns the requests for the streams of a part of a network, whose deadlines are read or not. Returns `Err` with status 1 and the line of
/// its first fault; if deadlines are read, also of the first stream whose talker or listeners don't fit, or of the first access
/// link that is full. Returns `Err` with status 3 if an allocation fails.
pub(crate) fn requests_part(
    alloc: Global,
    network: &NetworkDomain,
    planned: bool,
    text: &[u8],
) -> Result<Vec<PacedRequest>, Stop>
    ensures ok { IfOk result (λ requests. asked_of_part network.now planned text.now ≡ Ok (map asked_paced requests.items)) }
    ensures err { IfErr result (IsRefused (asked_of_part network.now planned text.now)) }
{
    if planned {
        return planned_requests(alloc, network, text);
    }
    match streams_part(alloc, text) {
        Ok(requests) => Ok(requests),
        Err(stop) => Err(stop),
    }
}
