//! Links with the numbers of their ends, before these are known to be small.
ghost use Rattle.std.specs.Prelude.{◌≡◌, ◌++◌, [], ◌∷◌, All, IfOk, OnOk, Ok, option_map, map, false};
ghost use Rattle.std.specs.List.{list_any};
ghost use Rattle.cqf_model.specs.Domain.{node_or};
ghost use Rattle.cqf_lists.specs.Results.{refuse};
ghost use Rattle.cqf_topology.specs.Fields.{Gives};
ghost use Rattle.cqf_topology.specs.DomainText.{is_among, first_taken, numbered_with, index_of, joined_link, joined};
ghost use Rattle.cqf_topology.specs.DomainText.{first_twice, first_long_delay, first_long_gap, first_long_guard, first_long_sync};
ghost use Rattle.cqf_topology.specs.LinkTimes.{has_long_delay, has_long_gap, has_long_guard, has_long_sync, times_of};
ghost use Rattle.cqf_topology.specs.JoinedLink.{node_of, ends_held, ends_of, are_same_ends, IsSmallNode, HasSmallEnds};

use crate::draft::DraftLink;
use crate::names::NameList;
use crate::{DomainFault, LinkTimes};
use cqf_model::{Link, Node};
use cqf_units::{Memory, Name};
use indexmap::IndexSet;
use std::alloc::Global;
use std::marker::Model;

/// A node by its number among the bridges or among the stations, of any size.
#[derive(Clone, Copy, PartialEq, Eq, Hash)]
pub enum End {
    Bridge(usize),
    Station(usize),
}

/// A link with the numbers of its ends.
#[derive(Clone, Copy)]
pub(crate) struct JoinedLink {
    from: usize,
    to: End,
    times: LinkTimes,
}

impl Model for JoinedLink {
    ghost use Rattle.cqf_model.specs.declared.topology.Link.{Link};
    ghost use Rattle.cqf_topology.specs.JoinedLink.{node_of, end_of_joined};
    ghost use Rattle.cqf_topology.specs.LinkTimes.{times_of};

    ghost Value = { Link };

    ghost view = { λ l. record {
      from = l.from;
      to = node_of l.to;
      rate = l.times.rate;
      delay = l.times.delay;
      least = l.times.least;
      guard = l.times.guard;
    } };

    ghost inverse = { λ link. record { from = link.from; to = end_of_joined link.to; times = times_of link } };
}

/// Returns whether the name is among `others` or among `names`.
fn is_taken(others: &NameList, names: &NameList, name: &Name) -> bool
    ensures { result ≡ is_among name.now (others.now.keys ++ names.now.keys) }
{
    others.contains(name) || names.contains(name)
}

/// Numbers the names after those that are already numbered. None of them is among these or among the others, and none occurs twice.
fn number_names(
    numbered: &mut NameList,
    names: &[Name],
    others: &NameList,
) -> Result<(), DomainFault>
    ensures { Gives DomainFault.Memory (λ _. numbered.new.keys) result (numbered_with others.now.keys numbered.old.keys names.now) }
{
    for name in names {
        if is_taken(others, numbered, name) {
            return Err(DomainFault::NameTaken(name.copied()));
        }
        numbered.add(name)?;
    }
    Ok(())
}

/// Returns the names, numbered from 0 in their order. None of them is among the others, and none occurs twice.
///
/// # Errors
/// `NameTaken` with the first name that occurred earlier or is among the others. `Memory` if an allocation fails.
pub fn numbered_names(
    alloc: Global,
    names: &[Name],
    others: &NameList,
) -> Result<NameList, DomainFault>
    ensures { Gives DomainFault.Memory (λ numbered. numbered.keys) result
        (refuse (first_taken others.now.keys names.now) DomainFault.NameTaken (Ok names.now)) }
{
    let mut numbered = NameList::new(alloc);
    number_names(&mut numbered, names, others)?;
    Ok(numbered)
}

/// Returns the node with this name, or `None` if neither a bridge nor a station has it.
pub fn end_of_name(bridges: &NameList, stations: &NameList, name: &Name) -> Option<End>
    ensures { option_map node_of result ≡ node_or (index_of name.now bridges.now.keys) (index_of name.now stations.now.keys) }
{
    if let Some(bridge) = bridges.number_of(name) {
        return Some(End::Bridge(bridge));
    }
    match stations.number_of(name) {
        Some(station) => Some(End::Station(station)),
        None => None,
    }
}

/// Returns a link with the numbers of its ends.
fn join_link(
    bridges: &NameList,
    stations: &NameList,
    link: &DraftLink,
) -> Result<JoinedLink, DomainFault>
    ensures { result ≡ joined_link bridges.now.keys stations.now.keys link.now }
{
    let from = match bridges.number_of(&link.from) {
        Some(from) => from,
        None => return Err(DomainFault::UnknownName(link.from.copied())),
    };
    let to = match end_of_name(bridges, stations, &link.to) {
        Some(to) => to,
        None => return Err(DomainFault::UnknownName(link.to.copied())),
    };
    if to == End::Bridge(from) {
        return Err(DomainFault::UnknownName(link.to.copied()));
    }
    Ok(JoinedLink {
        from,
        to,
        times: link.times,
    })
}

/// Returns the links with the numbers of their ends.
pub(crate) fn join_links(
    alloc: Global,
    bridges: &NameList,
    stations: &NameList,
    links: &[DraftLink],
) -> Result<Vec<JoinedLink>, DomainFault>
    ensures { Gives DomainFault.Memory (λ links. links.items) result (joined bridges.now.keys stations.now.keys links.now) }
{
    let mut joined = Vec::new(alloc);
    for link in links {
        let link = join_link(bridges, stations, link)?;
        joined.push(link)?;
    }
    Ok(joined)
}

/// Returns whether the link's guard band isn't shorter than the cycle.
fn has_long_guard(link: &JoinedLink, cycle_time: u32, guard: u32) -> bool
    ensures { result ≡ has_long_guard cycle_time guard (times_of link.now) }
{
    link.times.has_long_guard(cycle_time, guard)
}

/// Returns whether the link's greatest delay plus the distance of clocks isn't less than its guard band.
fn has_long_delay(link: &JoinedLink, sync: u32, guard: u32) -> bool
    ensures { result ≡ has_long_delay sync guard (times_of link.now) }
{
    link.times.has_long_delay(sync, guard)
}

/// Returns whether the gap after a frame takes longer than the link's guard band.
fn has_long_gap(link: &JoinedLink, guard: u32) -> bool
    ensures { result ≡ has_long_gap guard (times_of link.now) }
{
    link.times.has_long_gap(guard)
}

/// Returns whether clocks can be further apart than a shortest frame and the link's least delay take together.
fn has_long_sync(link: &JoinedLink, sync: u32) -> bool
    ensures { result ≡ has_long_sync sync (times_of link.now) }
{
    link.times.has_long_sync(sync)
}

/// Returns the first link whose guard band isn't shorter than the cycle.
pub(crate) fn find_long_guard(links: &[JoinedLink], cycle_time: u32, guard: u32) -> Option<usize>
    ensures { result ≡ first_long_guard cycle_time guard links.now }
{
    links
        .iter()
        .position(|link| has_long_guard(link, cycle_time, guard))
}

/// Returns the first link on which the greatest delay plus the distance of clocks isn't less than the guard band.
pub(crate) fn find_long_delay(links: &[JoinedLink], sync: u32, guard: u32) -> Option<usize>
    ensures { result ≡ first_long_delay sync guard links.now }
{
    links
        .iter()
        .position(|link| has_long_delay(link, sync, guard))
}

/// Returns the first link on which the gap after a frame takes longer than the guard band.
pub(crate) fn find_long_gap(links: &[JoinedLink], guard: u32) -> Option<usize>
    ensures { result ≡ first_long_gap guard links.now }
{
    links.iter().position(|link| has_long_gap(link, guard))
}

/// Returns the first link on which clocks can be further apart than a shortest frame and the least delay take together.
pub(crate) fn find_long_sync(links: &[JoinedLink], sync: u32) -> Option<usize>
    ensures { result ≡ first_long_sync sync links.now }
{
    links.iter().position(|link| has_long_sync(link, sync))
}

/// Returns the node of an end whose number is small.
pub(crate) fn node_of_end(end: End) -> Node
    requires { IsSmallNode (node_of end) }
    ensures { result ≡ node_of end }
{
    match end {
        End::Bridge(bridge) => Node::Bridge(bridge as u16),
        End::Station(station) => Node::Station(station as u16),
    }
}

/// Returns the link; the numbers of its ends are small.
fn link_of(link: &JoinedLink) -> Link
    requires { HasSmallEnds link.now }
    ensures { result ≡ link.now }
{
    Link {
        from: link.from as u16,
        to: node_of_end(link.to),
        rate: link.times.rate,
        delay: link.times.delay,
        least: link.times.least,
        guard: link.times.guard,
    }
}

/// Returns the links, or `Memory` if an allocation fails. The numbers of their ends are small.
pub(crate) fn links_of(alloc: Global, joined: &[JoinedLink]) -> Result<Vec<Link>, Memory>
    requires { All HasSmallEnds joined.now }
    ensures { IfOk result (λ links. links.items ≡ joined.now) }
{
    let mut links = Vec::new(alloc);
    for link in joined {
        links.push(link_of(link))?;
    }
    Ok(links)
}

/// Returns whether the set has the link's ends.
fn holds_ends(ends: &IndexSet<(usize, End)>, link: &JoinedLink) -> bool
    ensures { result ≡ list_any (are_same_ends (ends_of link.now)) (map ends_held ends.now.keys) }
{
    ends.contains(&(link.from, link.to))
}

/// Adds the link's ends to the set, which lacks them.
fn hold_ends(ends: &mut IndexSet<(usize, End)>, link: &JoinedLink) -> Result<(), Memory>
    requires { list_any (are_same_ends (ends_of link.now)) (map ends_held ends.old.keys) ≡ false }
    ensures { OnOk result (map ends_held ends.new.keys ≡ map ends_held ends.old.keys ++ ends_of link.now ∷ []) }
{
    ends.insert((link.from, link.to))?;
    Ok(())
}

/// Returns the first link with the same ends as an earlier link, or `Memory` if an allocation fails.
pub(crate) fn find_twice(alloc: Global, links: &[JoinedLink]) -> Result<Option<usize>, Memory>
    ensures { IfOk result (λ twice. twice ≡ first_twice [] links.now) }
{
    let mut ends = IndexSet::new(alloc);
    for (number, link) in links.iter().enumerate() {
        if holds_ends(&ends, link) {
            return Ok(Some(number));
        }
        hold_ends(&mut ends, link)?;
    }
    Ok(None)
}
