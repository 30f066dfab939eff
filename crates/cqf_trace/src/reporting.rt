//! Reads traces cycle by cycle.
ghost use Rattle.std.specs.Prelude.{◌≡◌, ◌+◌, ◌-◌, ◌≤◌, ◌<◌, ◌++◌, IfOk, OnOk, drop, filter, length, take};
ghost use Rattle.cqf_model.specs.Book.{contents_of};
ghost use Rattle.cqf_model.specs.Limits.{most_cycles};
ghost use Rattle.cqf_trace.specs.Traces.{AreDropsByCycle, IsDropsEndBefore, IsEndBefore, IsInOrder, MayBeReported, is_drop_in, is_in, started_in};
ghost use Rattle.cqf_trace.specs.Traces.{drops_at_bridges, drops_in_cycles, reported_from, reported_in_cycles, reported_on, reported_on_links};
ghost use Rattle.cqf_trace.specs.Reporting.{AreDropIndices, AreIndices};

use crate::trace::Mark;
use crate::traces::{Traces, TransmissionKind};
use cqf_model::{Book, Dropped, Started};
use cqf_topology::Domain;
use cqf_units::{Cycle, Memory};
use std::alloc::Global;

/// Returns the index where the marks of a cycle end on a trace. `from` is the index where the marks of the earlier cycles end. The marks
/// are in order of instant, and the cycle is below 100,000.
pub fn end_of(domain: &Domain, cycle: Cycle, marks: &[Mark], from: usize) -> usize
    requires early { cycle.0 < most_cycles }
    requires order { IsInOrder marks.now }
    requires before { IsEndBefore domain.now cycle.0 marks.now from }
    ensures following { IsEndBefore domain.now (cycle.0 + 1) marks.now result }
    ensures forward { from ≤ result }
    ensures of_cycle { filter (is_in domain.now cycle.0) marks.now ≡ take (result - from) (drop from marks.now) }
{
    let end = (u64::from(cycle.0) + 1) * domain.cycle_time().0;
    for index in from..marks.len() {
        if marks[index].start.0 >= end {
            return index;
        }
    }
    marks.len()
}

/// Returns the index where the drops of a cycle end. `from` is the index where the drops of the earlier cycles end. The drops are in order
/// of cycle.
pub fn drops_end_of(cycle: Cycle, drops: &[Dropped], from: usize) -> usize
    requires order { AreDropsByCycle drops.now }
    requires before { IsDropsEndBefore cycle.0 drops.now from }
    ensures following { IsDropsEndBefore (cycle.0 + 1) drops.now result }
    ensures forward { from ≤ result }
    ensures of_cycle { filter (is_drop_in cycle.0) drops.now ≡ take (result - from) (drop from drops.now) }
{
    for index in from..drops.len() {
        if drops[index].cycle.0 > cycle.0 {
            return index;
        }
    }
    drops.len()
}

/// Returns the book's entry for a mark of a cycle on a link's trace.
pub fn started_on(cycle: Cycle, link: u16, mark: Mark) -> Started
    ensures { result ≡ started_in cycle.0 link mark }
{
    Started {
        cycle,
        link,
        frame: mark.frame,
        octets: mark.octets,
        start: mark.start,
    }
}

/// Appends the entries of a link's marks in a cycle, and returns the index where these marks end.
fn add_on_link(
    domain: &Domain,
    cycle: Cycle,
    link: u16,
    marks: &[Mark],
    from: usize,
    reported: &mut Vec<Started>,
) -> Result<usize, Memory>
    requires early { cycle.0 < most_cycles }
    requires order { IsInOrder marks.now }
    requires before { IsEndBefore domain.now cycle.0 marks.now from }
    ensures following { IfOk result (IsEndBefore domain.now (cycle.0 + 1) marks.now) }
    ensures more { OnOk result (reported.new.items ≡ reported.old.items ++ reported_on domain.now cycle.0 link marks.now) }
{
    let end = end_of(domain, cycle, marks, from);
    let own = &marks[from..end];
    for mark in own {
        reported.push(started_on(cycle, link, *mark))?;
    }
    Ok(end)
}

/// Appends the entries of one kind in a cycle, link by link. `indices` are the indices where the marks of the earlier cycles end; they
/// become those where the marks of this cycle end.
fn add_cycle(
    domain: &Domain,
    traces: &Traces,
    kind: TransmissionKind,
    cycle: Cycle,
    indices: &mut [usize],
    reported: &mut Vec<Started>,
) -> Result<(), Memory>
    requires early { cycle.0 < most_cycles }
    requires traces { MayBeReported domain.now traces.now }
    requires before { AreIndices domain.now kind traces.now cycle.0 indices.old }
    ensures following { OnOk result (AreIndices domain.now kind traces.now (cycle.0 + 1) indices.new) }
    ensures more { OnOk result (reported.new.items ≡ reported.old.items ++ reported_on_links domain.now kind traces.now cycle.0 (length domain.now.links)) }
{
    for link in 0..domain.links() {
        let marks = traces.marks(kind, link);
        let index = usize::from(link);
        indices[index] = add_on_link(domain, cycle, link, marks, indices[index], reported)?;
    }
    Ok(())
}

/// Returns the transmissions of one kind, cycle by cycle, then link by link.
fn starts_of_kind(
    alloc: Global,
    domain: &Domain,
    traces: &Traces,
    kind: TransmissionKind,
    cycles: u32,
) -> Result<Vec<Started>, Memory>
    requires few { cycles ≤ most_cycles }
    requires traces { MayBeReported domain.now traces.now }
    ensures { IfOk result (λ starts. starts.items ≡ reported_in_cycles domain.now kind traces.now cycles) }
{
    let mut indices = vec![in alloc; 0usize; usize::from(domain.links())]?;
    let mut starts = Vec::new(alloc);
    for cycle in 0..cycles {
        add_cycle(
            domain,
            traces,
            kind,
            Cycle(cycle),
            indices.as_mut_slice(),
            &mut starts,
        )?;
    }
    Ok(starts)
}

/// Appends the drops of a cycle, bridge by bridge. `indices` are the indices where the drops of the earlier cycles end; they become those
/// where the drops of this cycle end.
fn add_drops(
    domain: &Domain,
    traces: &Traces,
    cycle: Cycle,
    indices: &mut [usize],
    reported: &mut Vec<Dropped>,
) -> Result<(), Memory>
    requires traces { MayBeReported domain.now traces.now }
    requires before { AreDropIndices domain.now traces.now cycle.0 indices.old }
    ensures following { OnOk result (AreDropIndices domain.now traces.now (cycle.0 + 1) indices.new) }
    ensures more { OnOk result (reported.new.items ≡ reported.old.items ++ drops_at_bridges traces.now cycle.0 (length domain.now.bridges)) }
{
    for bridge in 0..domain.bridges() {
        let drops = traces.drops(bridge);
        let index = usize::from(bridge);
        let from = indices[index];
        let end = drops_end_of(cycle, drops, from);
        reported.extend_from_slice(&drops[from..end])?;
        indices[index] = end;
    }
    Ok(())
}

/// Returns the drops, cycle by cycle, then bridge by bridge.
fn all_drops(
    alloc: Global,
    domain: &Domain,
    traces: &Traces,
    cycles: u32,
) -> Result<Vec<Dropped>, Memory>
    requires few { cycles ≤ most_cycles }
    requires traces { MayBeReported domain.now traces.now }
    ensures { IfOk result (λ drops. drops.items ≡ drops_in_cycles domain.now traces.now cycles) }
{
    let mut indices = vec![in alloc; 0usize; usize::from(domain.bridges())]?;
    let mut drops = Vec::new(alloc);
    for cycle in 0..cycles {
        add_drops(
            domain,
            traces,
            Cycle(cycle),
            indices.as_mut_slice(),
            &mut drops,
        )?;
    }
    Ok(drops)
}

/// Returns the book that traces report over the given number of cycles, at most 100,000. Its starts are ordered by cycle, then link, then
/// instant; its drops by cycle, then bridge, then position among the bridge's drops. Nothing is sorted: each link has its trace, by number,
/// in order of instant, and each bridge its drops, in order of cycle. Returns `Memory` if an allocation fails.
pub fn book_of(alloc: Global, domain: &Domain, traces: &Traces, cycles: u32) -> Result<Book, Memory>
    requires few { cycles ≤ most_cycles }
    requires traces { MayBeReported domain.now traces.now }
    ensures { IfOk result (λ book. contents_of book ≡ reported_from domain.now cycles traces.now) }
{
    Ok(Book {
        starts: starts_of_kind(alloc, domain, traces, TransmissionKind::Stream, cycles)?,
        background: starts_of_kind(alloc, domain, traces, TransmissionKind::Background, cycles)?,
        drops: all_drops(alloc, domain, traces, cycles)?,
    })
}
