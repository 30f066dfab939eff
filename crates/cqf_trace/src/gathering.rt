//! Gathers the bridge traces of all bridges into the traces of all links.
ghost use Rattle.std.specs.Prelude.{◌≡◌, ◌<◌, ℕ, [], IfNone, IfOk, IfSome, length};
ghost use Rattle.cqf_trace.specs.BridgeTraces.{AreGatheredFrom, AreBridgeTracesOf, TakesLast, dropped_by, row_at, traces_of};

use crate::bridge_trace::BridgeTrace;
use crate::trace::Trace;
use crate::traces::Traces;
use cqf_model::Dropped;
use cqf_topology::Domain;
use cqf_units::Memory;
use std::alloc::Global;

/// Returns the traces of each bridge and the drops of each bridge.
fn taken_apart(
    alloc: Global,
    bridge_traces: Vec<BridgeTrace>,
) -> Result<(Vec<Vec<Trace>>, Vec<Vec<Dropped>>), Memory>
    ensures traces { IfOk result (λ parts. (bridge : ℕ) → row_at parts.0.items bridge ≡ traces_of bridge_traces.items bridge) }
    ensures drops { IfOk result (λ parts. (bridge : ℕ) → row_at parts.1.items bridge ≡ dropped_by bridge_traces.items bridge) }
    ensures many_traces { IfOk result (λ parts. length parts.0.items ≡ length bridge_traces.items) }
    ensures many_drops { IfOk result (λ parts. length parts.1.items ≡ length bridge_traces.items) }
{
    let mut traces = Vec::new(alloc);
    let mut drops = Vec::new(alloc);
    for bridge_trace in bridge_traces {
        let BridgeTrace {
            traces: own,
            drops: dropped,
        } = bridge_trace;
        traces.push(own)?;
        drops.push(dropped)?;
    }
    Ok((traces, drops))
}

/// Removes and returns the last trace of a bridge. Returns `None` if the bridge has no trace left.
fn take_last(traces: &mut [Vec<Trace>], bridge: u16) -> Option<Trace>
    requires { bridge < length traces.old }
    ensures some { IfSome result (TakesLast bridge traces.old traces.new) }
    ensures none { IfNone result (row_at traces.old bridge ≡ []) }
{
    traces[usize::from(bridge)].pop()
}

/// Returns the traces of all links of a domain by link number, and the drops of each bridge, from the bridge traces of its bridges by bridge number.
/// Each trace is moved; its marks are not read. Returns `Memory` if an allocation fails; the bridge traces are lost then.
pub fn gather(
    alloc: Global,
    domain: &Domain,
    bridge_traces: Vec<BridgeTrace>,
) -> Result<Traces, Memory>
    requires { AreBridgeTracesOf domain.now bridge_traces.items }
    ensures { IfOk result (AreGatheredFrom domain.now bridge_traces.items) }
{
    domain.know();
    let (mut left, drops) = taken_apart(alloc, bridge_traces)?;
    let mut links = Vec::new(alloc);
    let count = domain.links();
    // each bridge has the traces of its links by number, so its last trace is that of its greatest link
    for following in 0..count {
        let bridge = domain.link(count - 1 - following).from;
        match take_last(left.as_mut_slice(), bridge) {
            Some(trace) => links.push(trace)?,
            None => unreachable!(),
        }
    }
    links.reverse();
    Ok(Traces { links, drops })
}
