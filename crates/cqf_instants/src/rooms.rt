//! Room for all frames that can wait.
ghost use Rattle.std.specs.Prelude.{◌≡◌, ◌≤◌, ◌<◌, ◌^◌, IfOk, length, min};
ghost use Rattle.cqf_units.specs.Timing.{ticks_of_octet};
ghost use Rattle.cqf_instants.specs.Queues.{sum_below};
ghost use Rattle.cqf_model.specs.Domain.{guard_by};
ghost use Rattle.cqf_instants.specs.Reporting.{AreEmptyQueues, AreGuardsShort, frames_in, room_at};

use crate::queues::Waiting;
use cqf_model::Link;
use cqf_units::{Memory, Nanos, budget_octets};
use std::alloc::Global;

/// Returns the most frames that a link can send in a cycle: as many of the shortest size as its budget has room for, and at most as
/// many as there are offers.
fn frames_in(link: &Link, cycle_time: u32, guard: u32, offers: usize) -> usize
    requires { guard_by guard link.now ≤ cycle_time }
    ensures value { result ≡ min (frames_in cycle_time (guard_by guard link.now) (ticks_of_octet link.now.rate)) offers }
    ensures few { result < 2 ^ 32 }
{
    let own = link.guard_by(guard);
    let (cycle_time, guard) = (Nanos(u64::from(cycle_time)), Nanos(u64::from(own)));
    let octets = budget_octets(cycle_time, guard, link.rate);
    let frames = (octets / 84) as usize;
    frames.min(offers)
}

/// Returns the most frames that all links together can send in a cycle.
pub(crate) fn frames_in_all(links: &[Link], cycle_time: u32, guard: u32, offers: usize) -> usize
    requires forth { AreGuardsShort links.now cycle_time guard }
    requires few { length links.now ≤ 4096 }
    ensures { result ≡ sum_below (room_at links.now cycle_time guard offers) (length links.now) }
{
    let mut frames = 0;
    for index in 0..links.len() {
        frames += frames_in(&links[index], cycle_time, guard, offers);
    }
    frames
}

/// Returns an empty queue for each link, with room for all that it can hold if there are this many offers. Returns `Memory` if an
/// allocation fails.
pub(crate) fn empty_queues(
    alloc: Global,
    links: &[Link],
    cycle_time: u32,
    guard: u32,
    offers: usize,
) -> Result<Vec<Vec<Waiting>>, Memory>
    requires { AreGuardsShort links.now cycle_time guard }
    ensures { IfOk result (λ queues. AreEmptyQueues links.now cycle_time guard offers (length links.now) queues.items) }
{
    let mut queues = Vec::new(alloc);
    for index in 0..links.len() {
        let frames = frames_in(&links[index], cycle_time, guard, offers);
        queues.push(Vec::with_capacity(alloc, frames)?)?;
    }
    Ok(queues)
}
