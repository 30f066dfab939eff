//! The offers that are early enough for all of them to arrive.
ghost use Rattle.std.specs.Prelude.{◌≡◌, ◌-◌, ◌<◌, IfErr, IfOk, Ok, map, max};
ghost use Rattle.cqf_admission.specs.Branches.{branches_of};
ghost use Rattle.cqf_program_offers.specs.Made.{bridges_of, bridges_on, made_offers};
ghost use Rattle.cqf_output.specs.Stops.{IsRefused};
ghost use Rattle.cqf_traffic.specs.FlowsText.{flow_text};

use crate::offered_of;
use cqf_output::Stop;
use cqf_topology::Domain;
use cqf_traffic::{Flow, Until};
use cqf_units::Nanos;
use std::alloc::Global;

/// Returns the most bridges on a branch of a stream.
fn bridges_on(paths: &[Vec<String>]) -> usize
    ensures { result ≡ bridges_on (branches_of paths.now) }
{
    let mut most = 0;
    for path in paths {
        let bridges = path.as_slice().len().saturating_sub(1);
        most = most.max(bridges);
    }
    most
}

/// Returns the larger of two numbers.
fn larger(one: usize, other: usize) -> usize
    ensures { result ≡ max one other }
{
    one.max(other)
}

/// Returns the most bridges on a path of a stream.
fn bridges_of(flows: &[Flow]) -> usize
    ensures { result ≡ bridges_of (map flow_text flows.now) }
{
    let mut most = 0;
    for flow in flows {
        let bridges = bridges_on(flow.planned.request.paths.as_slice());
        most = larger(most, bridges);
    }
    most
}

/// Returns the offers of streams that are early enough for all of them to arrive within `cycles` cycles, as a text.
///
/// # Errors
/// As [`offered_of`].
pub(crate) fn made_offers(
    alloc: Global,
    domain: &Domain,
    cycles: u32,
    flows: &[Flow],
) -> Result<Vec<u8>, Stop>
    ensures ok { IfOk result (λ text. made_offers domain.now cycles (map flow_text flows.now) ≡ Ok text.items) }
    ensures err { IfErr result (IsRefused (made_offers domain.now cycles (map flow_text flows.now))) }
{
    let open = u64::from(cycles).saturating_sub(bridges_of(flows) as u64);
    let end = Nanos(open * domain.cycle_time().0);
    offered_of(alloc, domain, Until { end, seed: None }, flows)
}
