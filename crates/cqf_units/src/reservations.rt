//! Cycles, and the share of a link that a reservation takes.
ghost use Rattle.std.specs.Prelude.{◌≡◌, ◌-◌, ◌*◌, ◌/◌, ◌^◌, ◌<◌, ◌≤◌};
ghost use Rattle.cqf_units.specs.Timing.{ticks_of_octet, shortest_of, span_of, counted_of, cost_of, budget_of, cycle_at};

use crate::{Nanos, Octets, Rate, octet_ticks};

/// The number of a cycle, from 0.
#[derive(Clone, Copy, Debug, PartialEq, Eq, PartialOrd, Ord, Hash)]
pub struct Cycle(pub u32);

/// Returns the octets of a frame that a stream gate counts: all but the gate overhead.
pub fn counted(overhead: Octets, frame: Octets) -> Octets
    ensures { result.0 ≡ counted_of overhead.0 frame.0 }
{
    Octets(frame.0.saturating_sub(overhead.0))
}

/// Returns the cost of a reservation of this many octets per cycle, in octets per cycle. The stream takes it once of
/// each link of its tree. It is the reserved octets, which are those that gates count; and for each frame of the
/// shortest size (64 octets) that passes, the overhead that gates don't count, and 20 octets of preamble, start
/// delimiter and gap (IEEE 802.3). The overhead is less than 64 octets. The caller keeps the cost below 2^32.
pub fn cost(overhead: Octets, reserved: Octets) -> Octets
    requires less { overhead.0 < 64 }
    requires fits { cost_of overhead.0 reserved.0 < 2 ^ 32 }
    ensures { result.0 ≡ cost_of overhead.0 reserved.0 }
{
    Octets(reserved.0 + (overhead.0 + 20) * (reserved.0 / (64 - overhead.0)))
}

/// Returns an upper bound of the ticks that a frame of the shortest size takes on the wire (84 octets), rounded up to
/// whole nanoseconds. No larger frame takes more than 1/84 of it for each of its octets on the wire.
fn shortest(rate: Rate) -> u64
    ensures value { result ≡ shortest_of (ticks_of_octet rate) }
    ensures range { result ≤ 1680024 }
    ensures some { 192 ≤ result }
{
    let ticks = octet_ticks(rate);
    let rounding = if ticks % 25 == 0 {
        0
    } else if ticks % 5 == 0 {
        20
    } else {
        24
    };
    84 * ticks + rounding
}

/// Returns an upper bound of the time, in nanoseconds, that frames with this total cost in octets take to send,
/// regardless of their sizes. The cost is below 2^50; the result is at most 801 ns for each of its octets.
pub fn span(cost: u64, rate: Rate) -> u64
    requires { cost < 2 ^ 50 }
    ensures value { result ≡ span_of cost (ticks_of_octet rate) }
    ensures range { result ≤ 801 * cost }
{
    let ticks = u128::from(cost) * u128::from(shortest(rate));
    (ticks / 2100) as u64
}

/// Returns what reservations may cost on a link in a cycle, in octets, as [`budget`] does, but also if this is 2^32 or
/// more. The guard band is no longer than the cycle time, which is below 2^48 ns. The result is at most 11 octets for
/// each nanosecond of the cycle time less the guard band.
pub fn budget_octets(cycle_time: Nanos, guard: Nanos, rate: Rate) -> u64
    requires shorter { guard.0 ≤ cycle_time.0 }
    requires short { cycle_time.0 < 2 ^ 48 }
    ensures value { result ≡ budget_of cycle_time.0 guard.0 (ticks_of_octet rate) }
    ensures range { result ≤ 11 * (cycle_time.0 - guard.0) }
{
    let open = cycle_time.0 - guard.0;
    let shortest = shortest(rate);
    open * 2100 / shortest
}

/// Returns what reservations may cost on a link in a cycle, in octets: frames with this total cost can be sent in the
/// cycle time less the guard band. The guard band is no longer than the cycle time, which is below 2^28 ns.
pub fn budget(cycle_time: Nanos, guard: Nanos, rate: Rate) -> Octets
    requires shorter { guard.0 ≤ cycle_time.0 }
    requires short { cycle_time.0 < 2 ^ 28 }
    ensures { result.0 ≡ budget_of cycle_time.0 guard.0 (ticks_of_octet rate) }
{
    let octets = budget_octets(cycle_time, guard, rate);
    Octets(octets as u32)
}

/// Returns the cycle that contains the instant. Cycle 0 begins at instant 0, and a cycle contains its first instant.
/// The cycle time is positive, and the cycle's number is below 2^32.
pub fn cycle_of(t: Nanos, cycle_time: Nanos) -> Cycle
    requires positive { 0 < cycle_time.0 }
    requires fits { cycle_at cycle_time.0 t.0 < 2 ^ 32 }
    ensures { result.0 ≡ cycle_at cycle_time.0 t.0 }
{
    Cycle((t.0 / cycle_time.0) as u32)
}
