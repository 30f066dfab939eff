//! What becomes of the frames of a stream on the paths to its listeners.
ghost use Rattle.std.specs.Prelude.{ℕ, ◌≡◌, ◌+◌, ◌*◌, ◌≤◌, ◌<◌, ◌^◌, ◌++◌, ◌∷◌, [], Some, None, Contains, IfOk, OnOk, if◌then◌else◌, length, map, position, slice_get};
ghost use Rattle.cqf_admission.specs.Rows.{IsSummable};
ghost use Rattle.cqf_model.specs.Domain.{end_of};
ghost use Rattle.cqf_model.specs.Limits.{most_links};
ghost use Rattle.cqf_program_plans.specs.Latency.Text.{is_station};
ghost use Rattle.cqf_program_runs.specs.Deliveries.{fate_of};
ghost use Rattle.cqf_program_summary.specs.Summary.Counting.{AreApart, FareWithin, OthersWithin, PathsWithin};
ghost use Rattle.cqf_program_summary.specs.Summary.Counting.{fare_with, fare_with_each, fare_with_offer, index_by, leads_there, leads_to, others_with, path_with, paths_with};
ghost use Rattle.cqf_program_summary.specs.Summary.Listing.{AreBounded, IsOfStream, MayBeSummed, cost_beside, fare_from};
ghost use Rattle.cqf_program_summary.specs.Summary.{listener_to, path_to, paths_of};

use crate::summary::listing::ListedStream;
use crate::summary::tallies::{Tally, count_dropped, drops_of};
use cqf_admission::CycleSums;
use cqf_model::{Hop, Row};
use cqf_program_plans::{listener_at, most_to};
use cqf_program_runs::{Delivery, Fate, Journey, Passage};
use cqf_topology::Domain;
use cqf_units::{Memory, Name, Nanos};
use std::alloc::Global;
use std::marker::Model;

/// A listener of a stream.
#[derive(Debug, Drop)]
pub(crate) struct Listener {
    /// The name of its station.
    pub(crate) name: Name,
    /// The greatest latency of a frame of the stream to it, in nanoseconds, if calls admit only streams of the file.
    pub(crate) bound: u64,
}

/// The path of a stream to one of its listeners.
#[derive(Debug, Drop)]
pub(crate) struct ListenerPath {
    /// The listener; none is known for a stream whose octets, pace or path are refused.
    pub(crate) to: Option<Listener>,
    /// What becomes of the frames on it.
    pub(crate) tally: Tally,
}

/// What becomes of the frames that claim the name of a stream.
#[derive(Drop)]
pub(crate) struct Fares {
    pub(crate) name: Name,
    /// The greatest latency that a frame may have, in nanoseconds, if the stream has a deadline.
    pub(crate) deadline: Option<u32>,
    /// The number of offers in cycles that are run.
    pub(crate) offered: u32,
    /// The number of them that are dropped.
    pub(crate) dropped: u32,
    /// The paths to its listeners, in the order of its tree.
    pub(crate) paths: Vec<ListenerPath>,
}

impl Model for Fares {
    ghost use Rattle.cqf_program_summary.specs.Summary.Counting.{AreApart};
    ghost use Rattle.cqf_program_summary.specs.Summary.{Fare};

    ghost Value = { Fare };

    ghost view = { λ f. record { name = f.name; deadline = f.deadline; offered = f.offered; dropped = f.dropped; paths = f.paths.items } };

    ghost invariant = { λ f. AreApart f.paths.items };
}

/// Offers that claim the name of none of the streams.
#[derive(Clone, Copy, Debug, PartialEq, Eq)]
pub(crate) struct Others {
    /// The number of offers in cycles that are run.
    pub(crate) offered: u32,
    /// The number of them that are dropped.
    pub(crate) dropped: u32,
}

/// Returns the greatest cost, in octets, that streams have of a hop's link in a cycle in which the frames of the row
/// pass it.
fn cost_to(costs: &CycleSums, row: &Row, hop: &Hop) -> u64
    requires bounded { AreBounded costs.now }
    requires all { costs.now.links ≡ most_links }
    requires summable { IsSummable most_links row.now }
    requires of_tree { Contains row.now.tree.items hop.now }
    ensures cost { result ≡ cost_beside costs.now (Some row.now) hop.now.link }
    ensures bounded { result ≤ 2 ^ 29 * 2000000 }
{
    costs.most_at(hop, row.pace)
}

/// Returns the listener at the end of a hop of a row's tree, if there is one. A hop by a link that the domain lacks has
/// none.
fn listener_to(domain: &Domain, costs: &CycleSums, row: &Row, hop: &Hop) -> Option<Listener>
    requires bounded { AreBounded costs.now }
    requires all { costs.now.links ≡ most_links }
    requires summable { IsSummable most_links row.now }
    requires of_tree { Contains row.now.tree.items hop.now }
    ensures { result ≡ (if is_station (end_of domain.now hop.now.link) then Some (listener_to domain.now (cost_beside costs.now (Some row.now)) hop.now) else None) }
{
    // the domain is accepted: it has no more links than can be represented
    domain.know();
    if hop.link >= domain.links() {
        return None;
    }
    let name = listener_at(domain, hop.link)?;
    let cost = cost_to(costs, row, hop);
    Some(Listener {
        name,
        bound: most_to(domain, hop.link, hop.hop_number, cost),
    })
}

/// Appends a path that no frame has taken.
fn push_path(paths: &mut Vec<ListenerPath>, to: Option<Listener>) -> Result<(), Memory>
    ensures { OnOk result (paths.new.items ≡ paths.old.items ++ path_to [] to ∷ []) }
{
    paths.push(ListenerPath {
        to,
        tally: Tally::none(),
    })?;
    Ok(())
}

/// Appends the paths to the listeners of a row.
fn push_listeners(
    paths: &mut Vec<ListenerPath>,
    domain: &Domain,
    costs: &CycleSums,
    row: &Row,
) -> Result<(), Memory>
    requires bounded { AreBounded costs.now }
    requires all { costs.now.links ≡ most_links }
    requires summable { IsSummable most_links row.now }
    ensures { OnOk result (paths.new.items ≡ paths.old.items ++ paths_of domain.now (cost_beside costs.now (Some row.now)) [] (Some row.now)) }
{
    for hop in row.tree.as_slice() {
        if let Some(listener) = listener_to(domain, costs, row, hop) {
            push_path(paths, Some(listener))?;
        }
    }
    Ok(())
}

/// Returns the paths to the listeners of a stream with this row; without a row, one path without a listener.
fn paths_of(
    alloc: Global,
    domain: &Domain,
    costs: &CycleSums,
    row: &Option<Row>,
) -> Result<Vec<ListenerPath>, Memory>
    requires bounded { AreBounded costs.now }
    requires all { costs.now.links ≡ most_links }
    requires summable { MayBeSummed row.now }
    ensures { IfOk result (λ paths. paths.items ≡ paths_of domain.now (cost_beside costs.now row.now) [] row.now) }
{
    let mut paths = Vec::new(alloc);
    match row {
        Some(row) => push_listeners(&mut paths, domain, costs, row)?,
        None => push_path(&mut paths, None)?,
    }
    Ok(paths)
}

/// Returns whether a path leads to the listener with a name.
fn leads_to(to: &Option<Listener>, name: &Name) -> bool
    ensures { result ≡ leads_to name.now to.now }
{
    match to {
        Some(listener) => *name == listener.name,
        None => false,
    }
}

/// Returns whether there is a path at an index, and it leads to the listener with a name.
fn leads_there(paths: &[ListenerPath], index: usize, name: &Name) -> bool
    ensures { result ≡ leads_there name.now (slice_get paths.now index) }
{
    match paths.get(index) {
        Some(path) => leads_to(&path.to, name),
        None => false,
    }
}

/// Returns the index of the first path to the listener with a name.
fn first_to(paths: &[ListenerPath], name: &Name) -> Option<usize>
    ensures { result ≡ position (λ path. leads_to name.now path.to) paths.now }
{
    paths.iter().position(|path| leads_to(&path.to, name))
}

/// Returns the index of the path to the listener with a name: the expected one if it leads there, otherwise the first.
/// Deliveries are in the order of the paths, so the expected one is mostly right.
fn index_to(paths: &[ListenerPath], expected: usize, name: &Name) -> Option<usize>
    ensures { result ≡ index_by paths.now expected name.now }
{
    if leads_there(paths, expected, name) {
        return Some(expected);
    }
    first_to(paths, name)
}

/// Adds a frame on a journey to the path to its listener.
fn add_journey(
    paths: &mut [ListenerPath],
    expected: usize,
    ending: Fate,
    at: Nanos,
    journey: &Journey,
)
    requires apart { AreApart paths.old }
    requires few { PathsWithin 3372220214 paths.old }
    ensures paths { paths.new ≡ map (path_with ending at.0 journey.now) paths.old }
    ensures more { (many : ℕ) → PathsWithin many paths.old → PathsWithin (many + 1) paths.new }
{
    if let Some(index) = index_to(paths, expected, &journey.listener) {
        let path = &mut paths[index];
        path.tally = path.tally.with(ending, at, journey.whole);
    }
}

/// Adds a delivery to the path to its listener. A drop is added to none.
fn add_passage(paths: &mut [ListenerPath], expected: usize, delivery: &Delivery)
    requires apart { AreApart paths.old }
    requires few { PathsWithin 3372220214 paths.old }
    ensures paths { paths.new ≡ paths_with (fate_of delivery.now) delivery.now.at.0 delivery.now.passage paths.old }
    ensures more { (many : ℕ) → PathsWithin many paths.old → PathsWithin (many + 1) paths.new }
{
    if let Passage::Goes(journey) = &delivery.passage {
        add_journey(paths, expected, delivery.fate(), delivery.at, journey);
    }
}

impl Fares {
    /// Returns the counts of a stream with this name and row before anything is offered, if streams have these costs.
    pub(crate) fn new(
        alloc: Global,
        domain: &Domain,
        costs: &CycleSums,
        listed: &ListedStream,
        deadline: Option<u32>,
    ) -> Result<Fares, Memory>
        requires bounded { AreBounded costs.now }
        requires all { costs.now.links ≡ most_links }
        requires listed { IsOfStream domain.now listed.now }
        ensures { IfOk result (λ fares. fares ≡ fare_from domain.now (cost_beside costs.now listed.now.row) deadline listed.now) }
    {
        // names differ, and the domain is accepted; the paths need these facts
        domain.know();
        let paths = paths_of(alloc, domain, costs, &listed.row)?;
        Ok(Fares {
            name: listed.name.copied(),
            deadline,
            offered: 0,
            dropped: 0,
            paths,
        })
    }

    /// Adds a delivery of a frame, which is expected on the path at an index.
    fn add(&mut self, expected: usize, delivery: &Delivery)
        requires { FareWithin 3372220214 self.old }
        ensures fare { self.new ≡ fare_with self.old delivery.now }
        ensures more { (many : ℕ) → FareWithin many self.old → FareWithin (many + 1) self.new }
    {
        self.dropped += drops_of(delivery);
        add_passage(self.paths.as_mut_slice(), expected, delivery);
    }

    /// Adds the deliveries of an offer, at most 200.
    fn add_each(&mut self, here: &[Delivery])
        requires few { length here.now ≤ 200 }
        requires within { FareWithin 3372220015 self.old }
        ensures fare { self.new ≡ fare_with_each here.now self.old }
        ensures more { (many : ℕ) → FareWithin many self.old → FareWithin (many + 200) self.new }
    {
        for (index, delivery) in here.iter().enumerate() {
            self.add(index, delivery);
        }
    }

    /// Adds an offer that claims the stream's name, with its deliveries, at most 200.
    pub(crate) fn add_offer(&mut self, here: &[Delivery])
        requires few { length here.now ≤ 200 }
        requires within { FareWithin 3372220014 self.old }
        ensures fare { self.new ≡ fare_with_offer here.now self.old }
        ensures more { (many : ℕ) → FareWithin many self.old → FareWithin (many + 201) self.new }
    {
        self.offered += 1;
        self.add_each(here);
    }
}

impl Others {
    /// Adds an offer with its deliveries, at most 200.
    pub(crate) fn with(self, here: &[Delivery]) -> Others
        requires few { length here.now ≤ 200 }
        requires within { OthersWithin 3372220014 self }
        ensures others { result ≡ others_with here.now self }
        ensures more { (many : ℕ) → OthersWithin many self → OthersWithin (many + 201) result }
    {
        Others {
            offered: self.offered + 1,
            dropped: self.dropped + count_dropped(here) as u32,
        }
    }
}
