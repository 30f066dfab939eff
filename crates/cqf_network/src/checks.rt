//! The checks of a network file's links. Each finds the first link that fails.
ghost use Rattle.std.specs.Prelude.{◌≡◌, ◌<◌, All, IfOk, Some, length, map};
ghost use Rattle.cqf_topology.specs.Fields.{Gives};
ghost use Rattle.cqf_network.specs.NetworkDomain.{EdgeInside, access_within, is_guard_too_long, is_too_many, network_with, with_edges};
ghost use Rattle.cqf_network.specs.Edges.{element_at, ends_of, first_long_delay, first_long_gap, first_long_guard, first_long_sync, first_misplaced, first_twice};
ghost use Rattle.cqf_network.specs.Edges.{has_long_delay, has_long_gap, has_long_guard, has_long_sync, pair_of, bridge_edge_count, reaches_each, talkers_of};

use crate::NetworkFault;
use crate::draft::NetworkDraft;
use crate::ends::JoinedEdge;
use crate::repeats::find_repeat;
use cqf_model::Limits;
use cqf_topology::{DomainFault, End};
use cqf_units::Memory;
use std::alloc::Global;

/// Returns both ends of each link.
fn ends_of_all(alloc: Global, edges: &[JoinedEdge]) -> Result<Vec<(End, End)>, Memory>
    ensures { IfOk result (λ pairs. map pair_of pairs.items ≡ map ends_of edges.now) }
{
    let mut pairs = Vec::with_capacity(alloc, edges.len())?;
    for edge in edges {
        pairs.push(edge.ends())?;
    }
    Ok(pairs)
}

/// Returns the index, in the text, of the element of the first link whose ends are those of an earlier link.
pub(crate) fn find_twice(alloc: Global, edges: &[JoinedEdge]) -> Result<Option<usize>, Memory>
    ensures { IfOk result (λ element. element ≡ first_twice edges.now) }
{
    let pairs = ends_of_all(alloc, edges)?;
    match find_repeat(alloc, pairs.as_slice())? {
        Some(index) => Ok(element_at(edges, index)),
        None => Ok(None),
    }
}

/// Returns the index, in the text, of the element of the link at an index.
fn element_at(edges: &[JoinedEdge], index: usize) -> Option<usize>
    requires { index < length edges.now }
    ensures { result ≡ Some (element_at edges.now index) }
{
    Some(edges[index].element())
}

/// Returns whether a guard band is at least as long as each candidate.
fn reaches_each(candidates: &[u32], guard: u32) -> bool
    ensures { result ≡ reaches_each candidates.now guard }
{
    candidates.iter().all(|cycle| *cycle <= guard)
}

/// Returns whether the link is one of the plan and its guard band is at least as long as each candidate.
fn has_long_guard(edge: JoinedEdge, candidates: &[u32], guard: u32) -> bool
    ensures { result ≡ has_long_guard candidates.now guard edge }
{
    if edge.is_talkers() {
        return false;
    }
    reaches_each(candidates, edge.times().guard_within(guard))
}

/// Returns whether the link is one of the plan, and its greatest delay plus how far clocks may differ isn't below its
/// guard band.
fn has_long_delay(edge: JoinedEdge, sync: u32, guard: u32) -> bool
    ensures { result ≡ has_long_delay sync guard edge }
{
    if edge.is_talkers() {
        return false;
    }
    edge.times().has_long_delay(sync, guard)
}

/// Returns whether the link is one of the plan and the gap after a frame takes longer than its guard band.
fn has_long_gap(edge: JoinedEdge, guard: u32) -> bool
    ensures { result ≡ has_long_gap guard edge }
{
    if edge.is_talkers() {
        return false;
    }
    edge.times().has_long_gap(guard)
}

/// Returns whether the link is one of the plan, and clocks may differ by more than a shortest frame and its least delay
/// take together.
fn has_long_sync(edge: JoinedEdge, sync: u32) -> bool
    ensures { result ≡ has_long_sync sync edge }
{
    if edge.is_talkers() {
        return false;
    }
    edge.times().has_long_sync(sync)
}

/// Returns the index of the element of the first link of the plan whose guard band is at least as long as each
/// candidate.
fn find_long_guard(edges: &[JoinedEdge], candidates: &[u32], guard: u32) -> Option<usize>
    ensures { result ≡ first_long_guard candidates.now guard edges.now }
{
    for edge in edges {
        if has_long_guard(*edge, candidates, guard) {
            return Some(edge.element());
        }
    }
    None
}

/// Returns the index of the element of the first link of the plan whose greatest delay plus how far clocks may differ
/// isn't below its guard band.
fn find_long_delay(edges: &[JoinedEdge], sync: u32, guard: u32) -> Option<usize>
    ensures { result ≡ first_long_delay sync guard edges.now }
{
    for edge in edges {
        if has_long_delay(*edge, sync, guard) {
            return Some(edge.element());
        }
    }
    None
}

/// Returns the index of the element of the first link of the plan on which the gap after a frame takes longer than its
/// guard band.
fn find_long_gap(edges: &[JoinedEdge], guard: u32) -> Option<usize>
    ensures { result ≡ first_long_gap guard edges.now }
{
    for edge in edges {
        if has_long_gap(*edge, guard) {
            return Some(edge.element());
        }
    }
    None
}

/// Returns the index of the element of the first link of the plan on which clocks may differ by more than a shortest
/// frame and its least delay take together.
fn find_long_sync(edges: &[JoinedEdge], sync: u32) -> Option<usize>
    ensures { result ≡ first_long_sync sync edges.now }
{
    for edge in edges {
        if has_long_sync(*edge, sync) {
            return Some(edge.element());
        }
    }
    None
}

/// Returns the index of the element of the first link that has frames of no stream and leaves no station.
fn find_misplaced(edges: &[JoinedEdge]) -> Option<usize>
    ensures { result ≡ first_misplaced edges.now }
{
    for edge in edges {
        if edge.is_misplaced() {
            return Some(edge.element());
        }
    }
    None
}

/// Returns the number of access links.
fn access_count(edges: &[JoinedEdge]) -> usize
    ensures { result ≡ length (talkers_of edges.now) }
{
    let mut count = 0;
    for edge in edges {
        if edge.is_talkers() {
            count += 1;
        }
    }
    count
}

/// Returns the number of access links that there may be: four for each station that there may be.
fn access_within(limits: Limits) -> usize
    ensures { result ≡ access_within limits }
{
    4 * limits.stations_within()
}

/// Returns the number of links of the plan.
pub(crate) fn bridge_edge_count(edges: &[JoinedEdge]) -> usize
    ensures { result ≡ bridge_edge_count edges.now }
{
    let mut count = 0;
    for edge in edges {
        if !edge.is_talkers() {
            count += 1;
        }
    }
    count
}

/// Returns whether the guard band is at least as long as each candidate.
fn is_guard_too_long(draft: &NetworkDraft) -> bool
    ensures { result ≡ is_guard_too_long draft.now }
{
    reaches_each(draft.candidates(), draft.guard())
}

/// Returns whether there are more bridges, stations, links that begin at a bridge or access links than there may be.
fn is_too_many(draft: &NetworkDraft, edges: &[JoinedEdge]) -> bool
    ensures { result ≡ is_too_many draft.now edges.now }
{
    let limits = draft.limits();
    draft.bridges().len() > limits.bridges_within()
        || draft.stations().len() > limits.stations_within()
        || bridge_edge_count(edges) > limits.links_within()
        || access_count(edges) > access_within(limits)
}

/// Makes the checks of a domain whose links are numbered, except those of its names and ends. Returns the first check
/// that fails.
pub(crate) fn check(
    alloc: Global,
    draft: &NetworkDraft,
    edges: &[JoinedEdge],
) -> Result<(), NetworkFault>
    requires { All (EdgeInside (length draft.now.bridges) (length draft.now.stations)) edges.now }
    ensures { Gives (NetworkFault.Domain DomainFault.Memory) (λ _. network_with draft.now edges.now) result (with_edges draft.now edges.now) }
{
    let guard = draft.guard();
    let sync = draft.sync();
    if let Some(element) = find_twice(alloc, edges)? {
        return Err(NetworkFault::Domain(DomainFault::LinkTwice(element)));
    }
    if is_guard_too_long(draft) {
        return Err(NetworkFault::Domain(DomainFault::GuardTooLong));
    }
    if let Some(element) = find_long_guard(edges, draft.candidates(), guard) {
        return Err(NetworkFault::Domain(DomainFault::LinkGuardTooLong(element)));
    }
    if let Some(element) = find_long_delay(edges, sync, guard) {
        return Err(NetworkFault::Domain(DomainFault::DelayTooLong(element)));
    }
    if let Some(element) = find_long_gap(edges, guard) {
        return Err(NetworkFault::Domain(DomainFault::GapTooLong(element)));
    }
    if is_too_many(draft, edges) {
        return Err(NetworkFault::Domain(DomainFault::TooMany));
    }
    if let Some(element) = find_long_sync(edges, sync) {
        return Err(NetworkFault::Domain(DomainFault::SyncTooLong(element)));
    }
    if let Some(element) = find_misplaced(edges) {
        return Err(NetworkFault::NoAccessLink(element));
    }
    Ok(())
}
