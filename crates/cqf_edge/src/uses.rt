//! What stations hand to their access links, and the bounds of these links.
ghost use Rattle.std.specs.Prelude.{◌≡◌, ◌<◌, ◌≤◌, ◌++◌, [], All, IfOk, IfSome, OnOk, length, map, option_map, position};
ghost use Rattle.std.specs.Option.{ForSome};
ghost use Rattle.cqf_traffic.specs.TrafficText.{promise_of};
ghost use Rattle.cqf_edge.specs.Uses.{AreUses, IsHandedTo, IsShort, bound_of, bounds_of, full_station, handed_over, is_full, larger, longest_frame, most_bound};
ghost use Rattle.cqf_edge.specs.Uses.{promise_in, shortest_frame, time_in, unpromised};

use cqf_access::access_bound;
use cqf_network::{NetworkDomain, TalkerLink};
use cqf_traffic::Traffic;
use cqf_units::{Memory, Name, Nanos, Octets};
use std::alloc::Global;

/// The longest bound of an access link, in nanoseconds.
const MOST_BOUND: u64 = 1_000_000_000;

/// The longest frame with a tag, in octets (IEEE 802.3).
const LONGEST_FRAME: u32 = 1_522;

/// The shortest frame, in octets.
const SHORTEST_FRAME: u32 = 64;

/// What a stream hands to an access link.
#[derive(Clone, Copy, Debug)]
pub struct Handed {
    /// The link's index among the network's access links.
    pub index: usize,
    /// The largest size of the stream's frames, in octets.
    pub octets: u32,
    /// The smallest size of the stream's frames, in octets.
    pub shortest: u32,
    /// What its talker promises at the hand-over.
    pub traffic: Option<Traffic>,
}

/// The bound of an access link: the longest time from the hand-over of a frame until a largest frame of its stream, sent in its place,
/// would be over, with its gap.
#[derive(Clone, Copy, Debug)]
pub enum AccessBound {
    /// Nothing is promised on the link, so no bound is needed.
    Idle,
    /// The least bound.
    Within(Nanos),
    /// There is no bound up to 10^9 ns.
    Full,
}

/// What is handed to an access link: the promises, in the order of the streams, and the largest size of a frame without a promise.
#[derive(Drop)]
pub(crate) struct AccessUse {
    promises: Vec<Traffic>,
    other: Option<u32>,
}

/// Returns the larger of the numbers that are given, or `None` if neither is given.
fn larger(one: Option<u32>, other: Option<u32>) -> Option<u32>
    ensures { result ≡ larger one other }
{
    match (one, other) {
        (Some(one), Some(other)) => Some(one.max(other)),
        (None, found) | (found, None) => found,
    }
}

/// Returns the largest size of a stream's frames, in octets, by the gate overhead, the stream's reservation and its traffic.
fn longest_frame(overhead: u32, octets: u32, traffic: &Option<Traffic>) -> u32
    ensures value { result ≡ longest_frame overhead octets traffic.now }
    ensures short { result ≤ 1522 }
{
    match traffic {
        Some(traffic) => traffic.size().0,
        None => octets.saturating_add(overhead).min(LONGEST_FRAME),
    }
}

/// Returns the smallest size of a stream's frames, in octets, by its text and its traffic.
fn shortest_frame(shortest: Option<u32>, traffic: &Option<Traffic>) -> u32
    ensures { result ≡ shortest_frame shortest traffic.now }
{
    match (shortest, traffic) {
        (Some(octets), _) => octets,
        (None, Some(traffic)) => traffic.size().0,
        (None, None) => SHORTEST_FRAME,
    }
}

impl AccessBound {
    /// Returns whether there is no bound up to 10^9 ns.
    fn is_full(self) -> bool
        ensures { result ≡ is_full self }
    {
        match self {
            AccessBound::Idle | AccessBound::Within(_) => false,
            AccessBound::Full => true,
        }
    }
}

impl Handed {
    /// Returns what a stream hands to the access link at an index, given the gate overhead, the stream's reservation, the smallest size of its
    /// frames in its text, and its traffic.
    pub(crate) fn over(
        overhead: u32,
        index: usize,
        octets: u32,
        shortest: Option<u32>,
        traffic: Option<Traffic>,
    ) -> Handed
        ensures value { result ≡ handed_over overhead index octets shortest traffic }
        ensures sizes { result.shortest ≤ result.octets }
        ensures longest { result.octets ≤ 1522 }
    {
        let longest = longest_frame(overhead, octets, &traffic);
        let shortest = shortest_frame(shortest, &traffic);
        Handed {
            index,
            octets: longest,
            shortest: shortest.min(longest),
            traffic,
        }
    }

    /// Returns the largest size of the stream's frames if its talker promises nothing, otherwise `None`.
    fn unpromised(&self) -> Option<u32>
        ensures { result ≡ unpromised self.now }
    {
        match self.traffic {
            Some(_) => None,
            None => Some(self.octets),
        }
    }
}

/// Returns a number of octets, if there is one.
fn octets_of(number: Option<u32>) -> Option<Octets>
    ensures { option_map (λ octets. octets.0) result ≡ number }
{
    match number {
        Some(octets) => Some(Octets(octets)),
        None => None,
    }
}

impl AccessUse {
    /// Adds what a stream hands over.
    fn put(&mut self, handed: &Handed) -> Result<(), Memory>
        ensures other { OnOk result (self.new.other ≡ larger self.old.other (unpromised handed.now)) }
        ensures promises { OnOk result (map promise_of self.new.promises.items ≡ map promise_of self.old.promises.items ++ promise_in handed.now) }
    {
        self.other = larger(self.other, handed.unpromised());
        if let Some(traffic) = handed.traffic {
            self.promises.push(traffic)?;
        }
        Ok(())
    }

    /// Returns the bound of a link with this use.
    fn bound(&self, link: &TalkerLink) -> AccessBound
        ensures value { result ≡ bound_of link.now self.now.other (map promise_of self.now.promises.items) }
        ensures short { IsShort result }
    {
        let promises = self.promises.as_slice();
        if promises.is_empty() {
            return AccessBound::Idle;
        }
        let other = octets_of(self.other);
        match access_bound(link.rate, other, promises, Nanos(MOST_BOUND)) {
            Some(time) => AccessBound::Within(time),
            None => AccessBound::Full,
        }
    }
}

/// Returns the uses of access links if nothing is handed to them. Their stations may still send frames of no stream.
fn unused(alloc: Global, links: &[TalkerLink]) -> Result<Vec<AccessUse>, Memory>
    ensures { IfOk result (λ uses. AreUses links.now [] uses.items) }
{
    let mut uses = Vec::with_capacity(alloc, links.len())?;
    for link in links {
        uses.push(AccessUse {
            promises: Vec::new(alloc),
            other: link.other,
        })?;
    }
    Ok(uses)
}

/// Returns the uses of access links, by their indexes, given what streams hand to them.
fn uses_of(
    alloc: Global,
    links: &[TalkerLink],
    all: &[Option<Handed>],
) -> Result<Vec<AccessUse>, Memory>
    requires { All (IsHandedTo (length links.now)) all.now }
    ensures { IfOk result (λ uses. AreUses links.now all.now uses.items) }
{
    let mut uses = unused(alloc, links)?;
    for one in all {
        if let Some(handed) = one {
            uses[handed.index].put(handed)?;
        }
    }
    Ok(uses)
}

/// Returns the bound of each access link of a network, given what streams hand to them.
///
/// # Errors
/// `Memory` if an allocation fails.
pub(crate) fn bounds_of(
    alloc: Global,
    network: &NetworkDomain,
    all: &[Option<Handed>],
) -> Result<Vec<AccessBound>, Memory>
    requires { All (IsHandedTo (length network.now.talkers)) all.now }
    ensures value { IfOk result (λ bounds. bounds.items ≡ bounds_of network.now all.now) }
    ensures short { IfOk result (λ bounds. All IsShort bounds.items) }
    ensures each { IfOk result (λ bounds. length bounds.items ≡ length network.now.talkers) }
{
    let links = network.talkers();
    let uses = uses_of(alloc, links, all)?;
    let mut bounds = Vec::with_capacity(alloc, links.len())?;
    for (index, link) in links.iter().enumerate() {
        bounds.push(uses[index].bound(link))?;
    }
    Ok(bounds)
}

/// Returns the index of the first link that is full.
fn first_full(bounds: &[AccessBound]) -> Option<usize>
    ensures index { result ≡ position is_full bounds.now }
    ensures within { IfSome result (λ index. index < length bounds.now) }
{
    bounds.iter().position(|bound| bound.is_full())
}

/// Returns the name of the station of the first access link that is full.
pub(crate) fn full_station(network: &NetworkDomain, bounds: &[AccessBound]) -> Option<Name>
    requires { length bounds.now ≡ length network.now.talkers }
    ensures { result ≡ full_station network.now bounds.now }
{
    let index = first_full(bounds)?;
    let station = network.talkers()[index].station;
    Some(network.stations().as_slice()[usize::from(station)].copied())
}
