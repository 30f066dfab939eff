//! Streams of a network that has nothing open, at their edge bridges.
ghost use Rattle.std.specs.Prelude.{◌≡◌, All, IfOk, length, map, option_and_then};
ghost use Rattle.std.specs.Option.{ForSome};
ghost use Rattle.cqf_topology.specs.Fields.{Gives};
ghost use Rattle.cqf_traffic.specs.FlowsText.{flow_text};
ghost use Rattle.cqf_network.specs.NetworkFlows.{NetworkFlowText, network_flow_text};
ghost use Rattle.cqf_edge.specs.Edge.{IsPassage, times_by};
ghost use Rattle.cqf_edge.specs.EdgeFlows.{IsHandedOne, IsPassageOne, IsWrittenFlow, at_edges, edge_flows, edges_with, flow_at_edge, flows_at_edge};
ghost use Rattle.cqf_edge.specs.EdgeFlows.{handed_of, handed_of_all, handed_with, passage_of};
ghost use Rattle.cqf_edge.specs.EdgeValues.{edges_text};
ghost use Rattle.cqf_edge.specs.Uses.{IsShort};

use crate::edge::{AccessTimes, Passage};
use crate::entrances::{Entrance, agrees_with, entrance_of, listeners_agree};
use crate::faults::{EdgeFault, TalkerFault};
use crate::uses::{AccessBound, Handed, bounds_of, full_station};
use cqf_network::{NetworkDomain, NetworkFlow, Talker};
use cqf_topology::Planned;
use cqf_traffic::Flow;
use cqf_units::{Memory, Name};
use std::alloc::Global;

/// The streams of a network at their edge bridges: what each promises there, what is left there of its deadline, and, if its talker is a
/// station that promises something, the times of its frames from the hand-over to the edge bridge.
#[derive(Drop)]
pub struct EdgeFlows {
    pub flows: Vec<Flow>,
    /// The deadlines in the streams' text, from the hand-over if there are times, in nanoseconds, by the same indexes.
    pub deadlines: Vec<Option<u32>>,
    /// The times of their frames from the hand-over, by the same indexes.
    pub times: Vec<Option<AccessTimes>>,
    /// What each stream hands to its access link, by the same indexes.
    pub handed: Vec<Option<Handed>>,
    /// The name of the station of the first access link without a bound up to 10^9 ns.
    pub full: Option<Name>,
}

/// Returns what a stream of a talker hands to an access link, or why it doesn't enter as its text says.
fn handed_with(
    network: &NetworkDomain,
    found: &NetworkFlow,
    talker: &Talker,
) -> Result<Option<Handed>, TalkerFault>
    requires { IsWrittenFlow (network_flow_text found.now) }
    ensures value { result ≡ handed_with network.now (network_flow_text found.now) talker.now }
    ensures inside { IfOk result (IsHandedOne network.now) }
{
    let request = &found.flow.planned.request;
    let entrance = entrance_of(network, talker)?;
    agrees_with(network, request.paths.as_slice(), entrance)?;
    listeners_agree(request.paths.as_slice(), &found.listeners)?;
    match entrance {
        Entrance::AtBridge(_) => Ok(None),
        Entrance::ByAccess(index) => Ok(Some(Handed::over(
            network.overhead(),
            index,
            request.octets,
            found.shortest,
            found.flow.traffic,
        ))),
    }
}

/// Returns what a stream hands to an access link. A stream whose name isn't well-formed is never admitted, so it hands nothing over.
fn handed_of(network: &NetworkDomain, found: &NetworkFlow) -> Result<Option<Handed>, EdgeFault>
    requires { IsWrittenFlow (network_flow_text found.now) }
    ensures value { result ≡ handed_of network.now (network_flow_text found.now) }
    ensures inside { IfOk result (IsHandedOne network.now) }
{
    let Some(talker) = &found.talker else {
        return Ok(None);
    };
    let Some(name) = Name::new(found.flow.planned.request.name.as_bytes()) else {
        return Ok(None);
    };
    match handed_with(network, found, talker) {
        Ok(handed) => Ok(handed),
        Err(fault) => Err(EdgeFault::Talker(name, fault)),
    }
}

/// Returns what streams hand to access links.
fn handed_of_all(
    alloc: Global,
    network: &NetworkDomain,
    all: &[NetworkFlow],
) -> Result<Vec<Option<Handed>>, EdgeFault>
    requires { All IsWrittenFlow (map network_flow_text all.now) }
    ensures value { Gives EdgeFault.Memory (λ handed. handed.items) result (handed_of_all network.now (map network_flow_text all.now)) }
    ensures inside { IfOk result (λ handed. All (IsHandedOne network.now) handed.items) }
    ensures each { IfOk result (λ handed. length handed.items ≡ length all.now) }
{
    let mut handed = Vec::with_capacity(alloc, all.len())?;
    for found in all {
        let one = handed_of(network, found)?;
        handed.push(one)?;
    }
    Ok(handed)
}

/// Returns a stream's passage by the access link that it is handed to.
fn passage_of(
    network: &NetworkDomain,
    bounds: &[AccessBound],
    handed: &Option<Handed>,
) -> Option<Passage>
    requires inside { IsHandedOne network.now handed.now }
    requires each { length bounds.now ≡ length network.now.talkers }
    requires short { All IsShort bounds.now }
    ensures value { result ≡ passage_of network.now bounds.now handed.now }
    ensures ready { IsPassageOne result }
{
    match handed {
        Some(handed) => Some(Passage {
            link: network.talkers()[handed.index],
            handed: *handed,
            bound: bounds[handed.index],
        }),
        None => None,
    }
}

/// Returns the passages of streams by the access links that they are handed to.
pub(crate) fn passages_of(
    alloc: Global,
    network: &NetworkDomain,
    bounds: &[AccessBound],
    handed: &[Option<Handed>],
) -> Result<Vec<Option<Passage>>, Memory>
    requires inside { All (IsHandedOne network.now) handed.now }
    requires each { length bounds.now ≡ length network.now.talkers }
    requires short { All IsShort bounds.now }
    ensures value { IfOk result (λ passages. passages.items ≡ map (passage_of network.now bounds.now) handed.now) }
    ensures ready { IfOk result (λ passages. All IsPassageOne passages.items) }
{
    let mut passages = Vec::with_capacity(alloc, handed.len())?;
    for one in handed {
        passages.push(passage_of(network, bounds, one))?;
    }
    Ok(passages)
}

/// Returns the times of the frames of streams to their edge bridges.
pub(crate) fn times_of(
    alloc: Global,
    passages: &[Option<Passage>],
) -> Result<Vec<Option<AccessTimes>>, Memory>
    requires { All IsPassageOne passages.now }
    ensures { IfOk result (λ times. times.items ≡ map (option_and_then times_by) passages.now) }
{
    let mut times = Vec::with_capacity(alloc, passages.len())?;
    for passage in passages {
        let one = match passage {
            Some(passage) => passage.times(),
            None => None,
        };
        times.push(one)?;
    }
    Ok(times)
}

/// Returns a stream at its edge bridge.
fn flow_at_edge(passage: &Option<Passage>, flow: Flow) -> Flow
    requires { IsPassageOne passage.now }
    ensures { flow_text result ≡ flow_at_edge passage.now (flow_text flow) }
{
    let Some(passage) = passage else {
        return flow;
    };
    let Planned { request, deadline } = flow.planned;
    let deadline = passage.left_of(deadline);
    Flow {
        planned: Planned { request, deadline },
        traffic: passage.word(),
    }
}

/// Returns streams at their edge bridges.
fn flows_at_edge(
    alloc: Global,
    passages: &[Option<Passage>],
    all: Vec<NetworkFlow>,
) -> Result<Vec<Flow>, Memory>
    requires ready { All IsPassageOne passages.now }
    requires each { length passages.now ≡ length all.items }
    ensures { IfOk result (λ flows. map flow_text flows.items ≡ flows_at_edge passages.now (map network_flow_text all.items)) }
{
    let mut flows = Vec::with_capacity(alloc, all.len())?;
    for found in all {
        let index = flows.len();
        flows.push(flow_at_edge(&passages[index], found.flow))?;
    }
    Ok(flows)
}

/// Returns the deadlines in the text of streams.
fn deadlines_of(alloc: Global, all: &[NetworkFlow]) -> Result<Vec<Option<u32>>, Memory>
    ensures { IfOk result (λ deadlines. deadlines.items ≡ map (λ (found : NetworkFlowText). found.flow.0.1) (map network_flow_text all.now)) }
{
    let mut deadlines = Vec::with_capacity(alloc, all.len())?;
    for found in all {
        deadlines.push(found.flow.planned.deadline)?;
    }
    Ok(deadlines)
}

/// Returns the streams of a network at their edge bridges, given what they hand to access links.
fn edges_with(
    alloc: Global,
    network: &NetworkDomain,
    all: Vec<NetworkFlow>,
    handed: Vec<Option<Handed>>,
) -> Result<EdgeFlows, Memory>
    requires inside { All (IsHandedOne network.now) handed.items }
    requires each { length handed.items ≡ length all.items }
    ensures { IfOk result (λ edge. edges_text edge ≡ edges_with network.now (map network_flow_text all.items) handed.items) }
{
    let all_handed = handed.as_slice();
    let bounds = bounds_of(alloc, network, all_handed)?;
    let all_bounds = bounds.as_slice();
    let passages = passages_of(alloc, network, all_bounds, all_handed)?;
    let all_passages = passages.as_slice();
    let deadlines = deadlines_of(alloc, all.as_slice())?;
    let times = times_of(alloc, all_passages)?;
    let flows = flows_at_edge(alloc, all_passages, all)?;
    let full = full_station(network, all_bounds);
    Ok(EdgeFlows {
        flows,
        deadlines,
        times,
        handed,
        full,
    })
}

/// Returns the streams of a network that has nothing open, at their edge bridges. If an access link is full, the promises and deadlines of
/// its streams are as if no frame waited there. A caller that relies on them has to refuse such a network. The jitter and the offset of
/// each stream's traffic are at most 10^9 ns, as in a text.
///
/// # Errors
/// `Talker` with the first stream that can't enter the network as its keys say. `Memory` if an allocation fails.
pub fn edge_flows(
    alloc: Global,
    network: &NetworkDomain,
    all: Vec<NetworkFlow>,
) -> Result<EdgeFlows, EdgeFault>
    requires { All IsWrittenFlow (map network_flow_text all.items) }
    ensures { Gives EdgeFault.Memory edges_text result (edge_flows network.now (map network_flow_text all.items)) }
{
    let found = all.as_slice();
    let handed = handed_of_all(alloc, network, found)?;
    let edge = edges_with(alloc, network, all, handed)?;
    Ok(edge)
}

/// Returns the streams of a network without access links: each begins at its edge bridge.
///
/// # Errors
/// `Memory` if an allocation fails.
pub fn flows_at_edges(alloc: Global, all: Vec<Flow>) -> Result<EdgeFlows, Memory>
    ensures { IfOk result (λ edge. edges_text edge ≡ at_edges (map flow_text all.items)) }
{
    let mut deadlines = Vec::with_capacity(alloc, all.len())?;
    let mut times = Vec::with_capacity(alloc, all.len())?;
    let mut handed = Vec::with_capacity(alloc, all.len())?;
    for flow in &all {
        deadlines.push(flow.planned.deadline)?;
        times.push(None)?;
        handed.push(None)?;
    }
    Ok(EdgeFlows {
        flows: all,
        deadlines,
        times,
        handed,
        full: None,
    })
}
