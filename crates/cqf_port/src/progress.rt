//! What a port remembers of its progress, so that it needn't search its starts again.
ghost use Rattle.std.specs.Prelude.{◌≡◌, ◌+◌, ◌^◌, ◌<◌, length};
ghost use Rattle.cqf_units.specs.Timing.{ticks_of_octet, idle_after};
ghost use Rattle.cqf_model.specs.Port.{class_of};
ghost use Rattle.cqf_port.specs.Progress.{IsNextOf, IsAfterStart, IsAfterArrival};

use cqf_model::Arrival;
use cqf_units::{Nanos, Octets, Rate, idle_from};

/// What follows from the arrivals that a port has taken and the starts that it has made.
#[derive(Clone, Copy, Debug)]
pub(crate) struct Progress {
    /// The instant from which the port may start again.
    pub(crate) idle_from: Nanos,
    /// By class, the index of the first arrival that hasn't started.
    pub(crate) heads: [Option<usize>; 8],
}

/// Returns the index of the first arrival of the class from an index on.
fn next_of_class(arrivals: &[Arrival], first: usize, class: u8) -> Option<usize>
    ensures { IsNextOf arrivals.now first class result }
{
    for index in first..arrivals.len() {
        if arrivals[index].class == class {
            return Some(index);
        }
    }
    None
}

/// Returns the instant from which the port may start again after a frame of these octets.
fn idle_since(octets: u32, rate: Rate, start: Nanos) -> Nanos
    requires { start.0 < 2 ^ 62 }
    ensures value { result.0 ≡ idle_after start.0 octets (ticks_of_octet rate) }
    ensures soon { result.0 < 2 ^ 63 }
{
    idle_from(start, Octets(octets), rate)
}

/// Returns what the port knows after the arrival at the index has started.
pub(crate) fn after_start(
    arrivals: &[Arrival],
    rate: Rate,
    index: usize,
    t: Nanos,
    before: Progress,
) -> Progress
    requires inside { index < length arrivals.now }
    requires class { class_of arrivals.now index < 8 }
    requires early { t.0 < 2 ^ 62 }
    ensures { IsAfterStart (ticks_of_octet rate) arrivals.now index t.0 before result }
{
    let arrival = arrivals[index];
    let mut after = before;
    after.idle_from = idle_since(arrival.octets, rate, t);
    after.heads[usize::from(arrival.class)] = next_of_class(arrivals, index + 1, arrival.class);
    after
}

/// Returns what the port knows after an arrival of the class was appended at the index.
pub(crate) fn after_arrival(index: usize, class: u8, before: Progress) -> Progress
    requires { class < 8 }
    ensures { IsAfterArrival index class before result }
{
    let mut after = before;
    let head = usize::from(class);
    if after.heads[head].is_none() {
        after.heads[head] = Some(index);
    }
    after
}
