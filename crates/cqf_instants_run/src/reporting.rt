//! The background frames that ports start.
ghost use Rattle.std.specs.Prelude.{◌≡◌, ◌++◌, ◌^◌, ◌<◌, ◌≤◌, All, IfOk, OnOk, filter, length, map, slice_index_or, ℕ, []};
ghost use Rattle.cqf_units.specs.Timing.{cycle_at};
ghost use Rattle.cqf_model.specs.Network.{compiled_lists};
ghost use Rattle.cqf_port.specs.PortState.{AreTaken};
ghost use Rattle.cqf_lists.specs.ByNumber.{lists_of};
ghost use Rattle.cqf_instants_run.specs.Sending.{Hands, ReportsLink, ReportsLinks, is_low, reported};

use cqf_gates::{TxList, compiled_list};
use cqf_model::{Arrival, Start, Started};
use cqf_port::Port;
use cqf_topology::Domain;
use cqf_units::{Memory, Nanos, cycle_of};
use std::alloc::Global;

/// The least class of streams' frames.
const STREAMS: u8 = 6;

/// Returns whether a start is of a background frame.
pub(crate) fn is_low(start: &Start) -> bool
    ensures { result ≡ is_low start.now }
{
    start.class < STREAMS
}

/// Returns the book's entry for the start of a background frame.
fn reported(start: &Start, link: u16, cycle_time: Nanos) -> Started
    requires lasting { 0 < cycle_time.0 }
    requires fits { cycle_at cycle_time.0 start.now.start.0 < 2 ^ 32 }
    ensures { result ≡ reported cycle_time.0 link start.now }
{
    Started {
        cycle: cycle_of(start.start, cycle_time),
        link,
        frame: start.frame,
        octets: start.octets,
        start: start.start,
    }
}

/// Appends the book's entries for the starts of background frames.
fn report_starts(
    made: &[Start],
    link: u16,
    cycle_time: Nanos,
    starts: &mut Vec<Started>,
) -> Result<(), Memory>
    requires lasting { 0 < cycle_time.0 }
    requires fits { All (λ start. cycle_at cycle_time.0 start.start.0 < 2 ^ 32) made.now }
    ensures { OnOk result (starts.new.items ≡ starts.old.items ++ map (reported cycle_time.0 link) (filter is_low made.now)) }
{
    for start in made {
        if is_low(start) {
            starts.push(reported(start, link, cycle_time))?;
        }
    }
    Ok(())
}

/// Returns the gate list of a link's port, by the link's guard band.
fn port_list_of(domain: &Domain, link: u16) -> TxList
    requires { link < length domain.now.links }
    ensures { result ≡ compiled_lists domain.now link }
{
    let (cycle_time, guard) = (domain.cycle_time(), domain.guard());
    let own = domain.link(link).guard_by(guard.0 as u32);
    compiled_list(cycle_time, Nanos(u64::from(own)))
}

/// Returns the starts of a link's port up to `end`, if it is given these arrivals.
pub(crate) fn starts_of_port(
    alloc: Global,
    domain: &Domain,
    link: u16,
    end: Nanos,
    arrivals: Vec<Arrival>,
) -> Result<Vec<Start>, Memory>
    requires link { link < length domain.now.links }
    requires early { end.0 < 2 ^ 62 }
    requires taken { AreTaken arrivals.items }
    ensures { IfOk result (λ made. Hands domain.now end.0 link arrivals.items made.items) }
{
    let list = port_list_of(domain, link);
    let mut port = Port::with_arrivals(alloc, list, domain.link(link).rate, arrivals);
    let mut made = Vec::new(alloc);
    port.advance(end, &mut made)?;
    Ok(made)
}

/// Appends the entries of the background frames that a link's port starts.
fn report_link(
    alloc: Global,
    domain: &Domain,
    link: u16,
    end: Nanos,
    arrivals: Vec<Arrival>,
    starts: &mut Vec<Started>,
) -> Result<(), Memory>
    requires link { link < length domain.now.links }
    requires early { end.0 < 2 ^ 62 }
    requires fits { cycle_at domain.now.cycle_time end.0 < 2 ^ 32 }
    requires taken { AreTaken arrivals.items }
    ensures { OnOk result (ReportsLink domain.now end.0 link arrivals.items starts.old.items starts.new.items) }
{
    let made = starts_of_port(alloc, domain, link, end, arrivals)?;
    report_starts(made.as_slice(), link, domain.cycle_time(), starts)?;
    Ok(())
}

/// Returns the starts of background frames by the ports of all links up to `end`, by link, from the arrivals of each port. Each list is
/// freed after its port has run.
pub(crate) fn report_links(
    alloc: Global,
    domain: &Domain,
    end: Nanos,
    lists: Vec<Vec<Arrival>>,
) -> Result<Vec<Started>, Memory>
    requires one_each { length lists.items ≡ length domain.now.links }
    requires few { length lists.items ≤ 4096 }
    requires early { end.0 < 2 ^ 62 }
    requires fits { cycle_at domain.now.cycle_time end.0 < 2 ^ 32 }
    requires taken { (l : ℕ) → l < length lists.items → AreTaken (slice_index_or (lists_of lists.items) l []) }
    ensures { IfOk result (λ starts.
        ReportsLinks domain.now end.0 (λ l. slice_index_or (lists_of lists.items) l []) (length lists.items) starts.items) }
{
    let mut starts = Vec::new(alloc);
    let mut link = 0;
    for arrivals in lists {
        report_link(alloc, domain, link, end, arrivals, &mut starts)?;
        link += 1;
    }
    Ok(starts)
}
