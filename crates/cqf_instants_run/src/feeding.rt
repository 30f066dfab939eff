//! The frames that each link's port is given.
ghost use Rattle.std.specs.Prelude.{◌≡◌, ◌<◌, [], All, IfOk, OnOk, length};
ghost use Rattle.cqf_lists.specs.ByNumber.{AddsTo, lists_of};
ghost use Rattle.cqf_laws_cycle.specs.Compiled.{open_class};
ghost use Rattle.cqf_instants_run.specs.Feeding.{AddsStart, AreFed, arrival_of_frame, arrival_of_start};

use cqf_model::{Arrival, Backed, Started};
use cqf_units::Memory;
use std::alloc::Global;

/// The class of streams' frames that even cycles send.
const CLASS_OF_EVEN_CYCLES: u8 = 7;

/// The class of streams' frames that odd cycles send.
const CLASS_OF_ODD_CYCLES: u8 = 6;

/// Returns the class of streams' frames that a cycle sends.
pub(crate) fn class_of_cycle(cycle: u64) -> u8
    ensures { result ≡ open_class cycle }
{
    if cycle % 2 == 0 {
        CLASS_OF_EVEN_CYCLES
    } else {
        CLASS_OF_ODD_CYCLES
    }
}

/// Returns the arrival of a stream's frame at the instant at which it starts, with the class that its cycle sends.
fn arrival_of_start(start: &Started) -> Arrival
    ensures { result ≡ arrival_of_start start.now }
{
    Arrival {
        at: start.start,
        class: class_of_cycle(u64::from(start.cycle.0)),
        octets: start.octets,
        frame: start.frame,
    }
}

/// Returns the arrival of a background frame at its port.
pub(crate) fn arrival_of_frame(frame: &Backed) -> Arrival
    ensures { result ≡ arrival_of_frame frame.now }
{
    Arrival {
        at: frame.background.at,
        class: frame.background.class,
        octets: frame.background.octets,
        frame: frame.frame,
    }
}

/// Returns an empty list for each of the first `links` links.
fn no_arrivals(alloc: Global, links: u16) -> Result<Vec<Vec<Arrival>>, Memory>
    ensures { IfOk result (λ lists. AreFed [] [] links (lists_of lists.items)) }
{
    let mut lists = Vec::with_capacity(alloc, usize::from(links))?;
    for _link in 0..links {
        lists.push(Vec::new(alloc))?;
    }
    Ok(lists)
}

/// Appends an arrival to the list of a link.
fn put_arrival(lists: &mut Vec<Vec<Arrival>>, link: u16, arrival: Arrival) -> Result<(), Memory>
    requires { link < length lists.old.items }
    ensures { OnOk result (AddsTo (lists_of lists.old.items) (lists_of lists.new.items) link arrival) }
{
    lists[usize::from(link)].push(arrival)?;
    Ok(())
}

/// Returns the background frames of each link.
pub(crate) fn feed_frames(
    alloc: Global,
    links: u16,
    frames: &[Backed],
) -> Result<Vec<Vec<Arrival>>, Memory>
    requires { All (λ x. x.background.link < links) frames.now }
    ensures { IfOk result (λ lists. AreFed frames.now [] links (lists_of lists.items)) }
{
    let mut lists = no_arrivals(alloc, links)?;
    for frame in frames {
        put_arrival(&mut lists, frame.background.link, arrival_of_frame(frame))?;
    }
    Ok(lists)
}

/// Appends a stream's frame to the list of its link, unless that list is empty.
fn put_start(lists: &mut Vec<Vec<Arrival>>, start: &Started) -> Result<(), Memory>
    requires { start.now.link < length lists.old.items }
    ensures { OnOk result (AddsStart (lists_of lists.old.items) (lists_of lists.new.items) start.now) }
{
    if lists[usize::from(start.link)].as_slice().is_empty() {
        return Ok(());
    }
    put_arrival(lists, start.link, arrival_of_start(start))?;
    Ok(())
}

/// Returns what the port of each link is given: its background frames, then, if there are any, its streams' frames, each arriving at the
/// instant at which it starts.
pub(crate) fn feed_links(
    alloc: Global,
    links: u16,
    frames: &[Backed],
    starts: &[Started],
) -> Result<Vec<Vec<Arrival>>, Memory>
    requires frames { All (λ x. x.background.link < links) frames.now }
    requires starts { All (λ s. s.link < links) starts.now }
    ensures { IfOk result (λ lists. AreFed frames.now starts.now links (lists_of lists.items)) }
{
    let mut lists = feed_frames(alloc, links, frames)?;
    for start in starts {
        put_start(&mut lists, start)?;
    }
    Ok(lists)
}
