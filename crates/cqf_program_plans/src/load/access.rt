//! The part of access links that the streams of a plan take.
ghost use Rattle.std.specs.Prelude.{ℕ, ◌≡◌, ◌+◌, ◌-◌, ◌<◌, ◌≤◌, ◌^◌, All, IfOk, None, length, map, option_copied, slice_index_or};
ghost use Rattle.cqf_model.specs.Limits.{longest_cycle, most_overhead};
ghost use Rattle.cqf_traffic.specs.FlowsText.{flow_text};
ghost use Rattle.cqf_program_plans.specs.Load.Access.{IsLoadedBy, TakesLittle, access_budget, access_loads, added_load, loaded_by, most_taken, promised_in};
ghost use Rattle.cqf_program_plans.specs.Load.Access.{reserved_in, taken_by, unloaded};
ghost use Rattle.cqf_units.specs.Timing.{cost_of};

use cqf_edge::{EdgeFlows, Handed};
use cqf_network::{NetworkDomain, TalkerLink};
use cqf_topology::PacedRequest;
use cqf_traffic::Traffic;
use cqf_units::{Memory, Name, Nanos, Rate, octet_ticks};
use std::alloc::Global;

/// The most octets of a cycle that a stream takes of an access link.
pub(crate) const MOST_TAKEN: u64 = 1 << 44;

/// What streams take of an access link, in octets of a cycle.
#[derive(Drop)]
pub struct AccessLoad {
    /// The name of the station that it leaves.
    pub from: Name,
    /// The name of the bridge in which it ends.
    pub to: Name,
    pub rate: Rate,
    /// The number of octets that it can send in a cycle.
    pub budget: u64,
    /// The number of octets that its streams take, with preambles and gaps.
    pub held: u128,
    /// The number of these streams.
    pub streams: u64,
}

impl AccessLoad {
    /// Adds the octets of a cycle that one more stream takes.
    fn add(&mut self, taken: u128)
        requires held { TakesLittle self.old }
        requires few { self.old.streams < 2 ^ 64 - 1 }
        requires little { taken ≤ most_taken }
        ensures { self.new ≡ loaded_by taken self.old }
    {
        self.held += taken;
        self.streams += 1;
    }
}

/// Returns the number of octets that a link can send in a cycle. The cycle time is in nanoseconds.
fn budget_in(cycle_time: Nanos, rate: Rate) -> u64
    requires { cycle_time.0 ≤ longest_cycle }
    ensures { result ≡ access_budget cycle_time.0 rate }
{
    25 * cycle_time.0 / octet_ticks(rate)
}

/// Returns the octets of a cycle that a talker takes of its access link by what it promises: the mean of many cycles, rounded up.
fn promised_in(cycle_time: Nanos, traffic: Traffic) -> u128
    requires { cycle_time.0 ≤ longest_cycle }
    ensures value { result ≡ promised_in cycle_time.0 traffic }
    ensures little { result ≤ most_taken }
{
    let frame = u128::from(traffic.size().0) + 20;
    let taken = u128::from(traffic.frames()) * frame * u128::from(cycle_time.0);
    taken.div_ceil(u128::from(traffic.interval().0))
}

/// Returns the cost of a reservation of this many octets on a link, in octets, given the gate overhead.
pub(crate) fn cost_in_octets(overhead: u32, octets: u32) -> u64
    requires { overhead ≤ most_overhead }
    ensures { result ≡ cost_of overhead octets }
{
    let less = u64::from(overhead);
    let reserved = u64::from(octets);
    let more = (less + 20) * (reserved / (64 - less));
    reserved + more
}

/// Returns the octets of a cycle that a talker that promises nothing takes of its access link: the mean per cycle, rounded up, of what its
/// reservation costs in one of `every` cycles. It takes the whole cost in the cycles in which it is offered, and nothing in the others.
fn reserved_in(overhead: u32, octets: u32, every: u32) -> u128
    requires { overhead ≤ most_overhead }
    ensures value { result ≡ reserved_in overhead octets every }
    ensures little { result ≤ most_taken }
{
    let cost = u128::from(cost_in_octets(overhead, octets));
    cost.div_ceil(u128::from(every.max(1)))
}

/// Returns the octets of a cycle that a stream takes of its access link, if it reserves this many octets in one of `every` cycles.
pub(crate) fn taken_by(
    overhead: u32,
    cycle_time: Nanos,
    handed: &Handed,
    octets: u32,
    every: u32,
) -> u128
    requires overhead { overhead ≤ most_overhead }
    requires short { cycle_time.0 ≤ longest_cycle }
    ensures value { result ≡ taken_by overhead cycle_time.0 handed.now octets every }
    ensures little { result ≤ most_taken }
{
    match handed.traffic {
        Some(traffic) => promised_in(cycle_time, traffic),
        None => reserved_in(overhead, octets, every),
    }
}

/// Returns an access link, before any stream takes a part of it.
fn unloaded(network: &NetworkDomain, cycle_time: Nanos, link: &TalkerLink) -> AccessLoad
    requires station { link.now.station < length network.now.stations }
    requires bridge { link.now.bridge < length network.now.bridges }
    requires short { cycle_time.0 ≤ longest_cycle }
    ensures { result ≡ unloaded network.now cycle_time.0 link.now }
{
    AccessLoad {
        from: network.stations().as_slice()[usize::from(link.station)].copied(),
        to: network.bridges().as_slice()[usize::from(link.bridge)].copied(),
        rate: link.rate,
        budget: budget_in(cycle_time, link.rate),
        held: 0,
        streams: 0,
    }
}

/// Returns the access links of a network, before any stream takes a part of them.
fn all_unloaded(
    alloc: Global,
    network: &NetworkDomain,
    cycle_time: Nanos,
) -> Result<Vec<AccessLoad>, Memory>
    requires { cycle_time.0 ≤ longest_cycle }
    ensures value { IfOk result (λ loads. loads.items ≡ map (unloaded network.now cycle_time.0) network.now.talkers) }
{
    let links = network.talkers();
    let mut loads = Vec::with_capacity(alloc, links.len())?;
    for link in links {
        loads.push(unloaded(network, cycle_time, link))?;
    }
    Ok(loads)
}

/// Adds what a stream takes to the access link that it is handed to.
fn add_load(
    loads: &mut Vec<AccessLoad>,
    overhead: u32,
    cycle_time: Nanos,
    handed: &Handed,
    request: &PacedRequest,
)
    requires overhead { overhead ≤ most_overhead }
    requires short { cycle_time.0 ≤ longest_cycle }
    requires few { (count : ℕ) × (count < 2 ^ 64 - 1) × All (IsLoadedBy count) loads.old.items }
    ensures value { loads.new.items ≡ added_load loads.old.items handed.now.index (taken_by overhead cycle_time.0 handed.now request.now.octets request.now.every) }
    ensures few { (count : ℕ) → All (IsLoadedBy count) loads.old.items → All (IsLoadedBy (count + 1)) loads.new.items }
{
    if handed.index < loads.len() {
        let taken = taken_by(overhead, cycle_time, handed, request.octets, request.every);
        loads[handed.index].add(taken);
    }
}

/// Returns what the stream at index `index` hands to an access link, if it hands its frames to one.
pub(crate) fn handed_at(all: &[Option<Handed>], index: usize) -> Option<&Handed>
    ensures { option_copied result ≡ slice_index_or all.now index None }
{
    match all.get(index) {
        Some(one) => one.as_ref(),
        None => None,
    }
}

/// Returns what the streams of a network take of its access links, in the links' order. The cycle time is in nanoseconds, at most
/// 10,000,000.
///
/// # Errors
/// `Memory` if an allocation fails.
pub fn access_loads(
    alloc: Global,
    network: &NetworkDomain,
    cycle_time: Nanos,
    edge: &EdgeFlows,
) -> Result<Vec<AccessLoad>, Memory>
    requires { cycle_time.0 ≤ longest_cycle }
    ensures value { IfOk result (λ loads. loads.items
        ≡ access_loads network.now cycle_time.0 edge.now.handed.items (map flow_text edge.now.flows.items)) }
    ensures little { IfOk result (λ loads. All TakesLittle loads.items) }
{
    let mut loads = all_unloaded(alloc, network, cycle_time)?;
    let (handed, flows) = (edge.handed.as_slice(), edge.flows.as_slice());
    let overhead = network.overhead();
    for index in 0..flows.len() {
        if let Some(one) = handed_at(handed, index) {
            let request = &flows[index].planned.request;
            add_load(&mut loads, overhead, cycle_time, one, request);
        }
    }
    Ok(loads)
}
