//! The latencies of the streams of a table to their listeners.
ghost use Rattle.std.specs.Prelude.{ℕ, ◌≡◌, ◌*◌, ◌<◌, ◌≤◌, ◌^◌, ◌++◌, Contains, IfOk, OnOk, Some, None, if◌then◌else◌, length, map};
ghost use Rattle.cqf_admission.specs.Rows.{IsCountable};
ghost use Rattle.cqf_admission.specs.ActiveCycles.{AreOfGoodPaces, IsOfGoodPace};
ghost use Rattle.cqf_laws_history.specs.StateLaws.{AreHeld};
ghost use Rattle.cqf_laws_timing.specs.Latency.{least_of, most_of, window_of};
ghost use Rattle.cqf_program_plans.specs.EndNames.{name_of_end};
ghost use Rattle.cqf_program_plans.specs.Latency.Text.{deadline_of, is_station, latencies_from, latencies_of, latencies_of_row, latency_from_talker, latency_to, times_of};
ghost use Rattle.cqf_model.specs.Domain.{end_of};
ghost use Rattle.cqf_model.specs.History.{most_beside};

use crate::latency::costs::Costs;
use crate::latency::latencies::Latency;
use cqf_edge::AccessTimes;
use cqf_model::{Hop, Node, Row};
use cqf_topology::Domain;
use cqf_units::{Memory, Name, octet_ticks, span, time_of};
use std::alloc::Global;

/// Returns the least time, in nanoseconds, that a frame takes to the end of a link at this hop number, for all clocks and link delays
/// within what the domain states.
fn least_to(domain: &Domain, link: u16, hop_number: u8) -> u64
    requires { link < length domain.now.links }
    ensures value { result ≡ least_of domain.now link hop_number }
    ensures range { result < 2 ^ 63 }
{
    let (cycle_time, ends) = (domain.cycle_time().0, domain.link(link));
    let waits = u64::from(hop_number.saturating_sub(1)) * cycle_time;
    let whole = waits + 1 + time_of(72, ends.rate) + u64::from(ends.least);
    whole.saturating_sub(domain.sync().0)
}

/// Returns the most time, in nanoseconds, that a frame takes to the end of a link at this hop number, if the streams cost `cost` octets of
/// the link. This holds for all clocks and link delays within what the domain states.
pub fn most_to(domain: &Domain, link: u16, hop_number: u8, cost: u64) -> u64
    requires link { link < length domain.now.links }
    requires cost { cost ≤ 2 ^ 29 * 2000000 }
    ensures value { result ≡ most_of domain.now link hop_number cost }
    ensures range { result < 2 ^ 63 }
{
    let (cycle_time, ends) = (domain.cycle_time().0, domain.link(link));
    let waits = u64::from(hop_number) * cycle_time;
    let gap = 12 * octet_ticks(ends.rate) / 25;
    let busy = span(cost, ends.rate).saturating_sub(gap);
    waits + busy + u64::from(ends.delay) + domain.sync().0
}

/// Returns how far apart, in nanoseconds, the arrivals of one cycle's frames at the end of a link can be, if the streams cost `cost` octets
/// of the link.
fn window_at(domain: &Domain, link: u16, cost: u32) -> u64
    requires { link < length domain.now.links }
    ensures { result ≡ window_of domain.now link cost }
{
    domain.know();
    let (ends, sync) = (domain.link(link), domain.sync().0);
    let (gap, shortest) = (12 * octet_ticks(ends.rate) / 25, time_of(72, ends.rate));
    let busy = span(u64::from(cost), ends.rate).saturating_sub(gap + shortest);
    busy + u64::from(ends.delay).saturating_sub(u64::from(ends.least)) + 2 * sync
}

/// Returns the name of the station in which a link of the domain ends, which is a listener, or `None` if the link ends in a bridge.
pub fn listener_at(domain: &Domain, link: u16) -> Option<Name>
    requires { link < length domain.now.links }
    ensures { result ≡ (if is_station (end_of domain.now link) then Some (name_of_end domain.now link) else None) }
{
    domain.know();
    match domain.link(link).to {
        Node::Station(station) => Some(domain.station_name(station).copied()),
        Node::Bridge(_) => None,
    }
}

/// Returns the latency to a listener at the end of a hop of a row's tree, if the streams cost `cost` octets of the hop's link.
fn latency_to(
    domain: &Domain,
    cost: u32,
    row: &Row,
    deadline: Option<u32>,
    hop: &Hop,
    listener: Name,
) -> Latency
    requires link { hop.now.link < length domain.now.links }
    requires named { listener ≡ name_of_end domain.now hop.now.link }
    ensures value { result ≡ latency_to domain.now cost row.now deadline hop.now }
    ensures least { result.least < 2 ^ 63 }
    ensures most { result.most < 2 ^ 63 }
{
    let (link, hop_number) = (hop.link, hop.hop_number);
    Latency {
        stream: row.name.copied(),
        listener,
        bridges: hop_number,
        least: least_to(domain, link, hop_number),
        most: most_to(domain, link, hop_number, u64::from(cost)),
        window: window_at(domain, link, cost),
        deadline,
    }
}

/// Returns a latency counted from the hand-over: to a latency from the edge bridge it adds the times that frames take from the hand-over to
/// there. Without such times it returns the latency as it is.
fn latency_from_talker(mut latency: Latency, times: Option<AccessTimes>) -> Latency
    requires least { latency.least < 2 ^ 63 }
    requires most { latency.most < 2 ^ 63 }
    ensures { result ≡ latency_from_talker times latency }
{
    match times {
        Some(times) => {
            latency.least += u64::from(times.least);
            latency.most += u64::from(times.most);
            latency
        }
        None => latency,
    }
}

/// A stream's deadline as written, and how long its frames take from the hand-over to its edge bridge, if these times are known.
#[derive(Clone, Copy)]
struct StreamEnds {
    deadline: Option<u32>,
    times: Option<AccessTimes>,
}

/// Returns the latency to the end of a hop of a row's tree, if there is a listener.
fn latency_at(costs: &Costs<'_>, row: &Row, ends: StreamEnds, hop: &Hop) -> Option<Latency>
    requires link { hop.now.link < length costs.now.domain.links }
    requires of_tree { Contains row.now.tree.items hop.now }
    requires countable { IsCountable (length costs.now.domain.links) row.now }
    requires good { IsOfGoodPace row.now }
    ensures { let cost = most_beside costs.now.rows row.now.tree.items row.now.pace hop.now.link in
        let reported = latency_from_talker ends.times (latency_to costs.now.domain cost row.now ends.deadline hop.now) in
        result ≡ (if is_station (end_of costs.now.domain hop.now.link) then Some reported else None) }
{
    let domain = costs.domain();
    match listener_at(domain, hop.link) {
        Some(listener) => {
            let cost = costs.at_hop(row, hop);
            let latency = latency_to(domain, cost, row, ends.deadline, hop, listener);
            Some(latency_from_talker(latency, ends.times))
        }
        None => None,
    }
}

/// Appends the latencies to the listeners of a row to those before.
fn push_listeners(
    latencies: &mut Vec<Latency>,
    costs: &Costs<'_>,
    row: &Row,
    ends: StreamEnds,
) -> Result<(), Memory>
    requires countable { IsCountable (length costs.now.domain.links) row.now }
    requires good { IsOfGoodPace row.now }
    ensures { let reported = latencies_of_row costs.now.domain costs.now.rows row.now ends.deadline in
        OnOk result (latencies.new.items ≡ latencies.old.items ++ map (latency_from_talker ends.times) reported) }
{
    for hop in row.tree.as_slice() {
        if let Some(latency) = latency_at(costs, row, ends, hop) {
            latencies.push(latency)?;
        }
    }
    Ok(())
}

/// Returns the deadline of the stream with this number, if it has one.
fn deadline_of(deadlines: &[Option<u32>], number: u32) -> Option<u32>
    ensures { result ≡ deadline_of deadlines.now number }
{
    match deadlines.get(number as usize) {
        Some(deadline) => *deadline,
        None => None,
    }
}

/// Returns how long the frames of the stream with this number take to its edge bridge, if these times are known.
fn times_of(times: &[Option<AccessTimes>], number: u32) -> Option<AccessTimes>
    ensures { result ≡ times_of times.now number }
{
    match times.get(number as usize) {
        Some(times) => *times,
        None => None,
    }
}

/// Returns the latencies of the streams of a table to each of their listeners. The deadlines, and how long frames take to their edge bridges,
/// are by stream number.
fn latencies_by_costs(
    alloc: Global,
    costs: &Costs<'_>,
    deadlines: &[Option<u32>],
    times: &[Option<AccessTimes>],
) -> Result<Vec<Latency>, Memory>
    ensures { IfOk result (λ latencies. latencies.items ≡ latencies_from costs.now.domain costs.now.rows deadlines.now times.now) }
{
    let mut latencies = Vec::new(alloc);
    for row in costs.rows() {
        let ends = StreamEnds {
            deadline: deadline_of(deadlines, row.no),
            times: times_of(times, row.no),
        };
        push_listeners(&mut latencies, costs, row, ends)?;
    }
    Ok(latencies)
}

/// Returns how long the frames of the streams of a table's rows take to each of their listeners, counted from the hand-over if their
/// talkers are stations, and else from their edge bridges. The order is that of the rows, and then of the listeners in each stream's tree.
/// The deadlines, in nanoseconds, and how long frames take to their edge bridges are by stream number. A stream whose number is beyond a
/// list's end has none.
///
/// # Errors
/// `Memory` if an allocation fails.
pub fn latencies_from_talkers(
    alloc: Global,
    domain: &Domain,
    rows: &[Row],
    deadlines: &[Option<u32>],
    times: &[Option<AccessTimes>],
) -> Result<Vec<Latency>, Memory>
    requires held { (next : ℕ) × AreHeld domain.now rows.now next 0 }
    requires good { AreOfGoodPaces rows.now }
    ensures { IfOk result (λ latencies. latencies.items ≡ latencies_from domain.now rows.now deadlines.now times.now) }
{
    let costs = Costs::new(alloc, domain, rows)?;
    let latencies = latencies_by_costs(alloc, &costs, deadlines, times)?;
    Ok(latencies)
}

/// Returns how long the frames of the streams of a table's rows take from their edge bridges to each of their listeners. The order is that of
/// the rows, and then of the listeners in each stream's tree. The deadlines, in nanoseconds, are by stream number. A stream whose number is
/// beyond the list's end has none.
///
/// # Errors
/// `Memory` if an allocation fails.
pub fn latencies_of_rows(
    alloc: Global,
    domain: &Domain,
    rows: &[Row],
    deadlines: &[Option<u32>],
) -> Result<Vec<Latency>, Memory>
    requires held { (next : ℕ) × AreHeld domain.now rows.now next 0 }
    requires good { AreOfGoodPaces rows.now }
    ensures { IfOk result (λ latencies. latencies.items ≡ latencies_of domain.now rows.now deadlines.now) }
{
    latencies_from_talkers(alloc, domain, rows, deadlines, &[])
}
