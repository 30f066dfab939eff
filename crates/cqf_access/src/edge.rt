//! The promise that a talker keeps at its edge bridge.
ghost use Rattle.std.specs.Prelude.{◌≡◌, ◌+◌, ◌≤◌, ◌^◌};
ghost use Rattle.cqf_traffic.specs.TrafficText.{promise_of};
ghost use Rattle.cqf_access.specs.Arriving.{at_edge, edge_offset, longest_wait, spread_of, travel_time};
ghost use Rattle.cqf_access.specs.Bounding.{link_of};
ghost use Rattle.cqf_access.specs.Closer.{closer_at_edge, closer_wait};

use crate::bounds::most_frames;
use cqf_traffic::Traffic;
use cqf_units::{Nanos, Octets, Rate, slot, time_of};

/// The least and the greatest delay of a link. Each frame can have another delay.
#[derive(Clone, Copy, Debug, PartialEq, Eq)]
pub struct Delays {
    pub least: Nanos,
    pub most: Nanos,
}

/// Returns the transit time of a frame with this number of octets and this delay, if it doesn't wait.
fn travel_time(rate: Rate, delay: Nanos, octets: Octets) -> Nanos
    requires short { delay.0 ≤ 2 ^ 32 }
    ensures value { result.0 ≡ travel_time (link_of rate None) delay.0 octets.0 }
    ensures short { result.0 ≤ 2 ^ 43 }
{
    Nanos(time_of(u64::from(octets.0) + 8, rate) + delay.0)
}

/// Returns the longest wait of a frame of a stream, given a bound.
fn longest_wait(rate: Rate, bound: Nanos, promise: Traffic) -> Nanos
    ensures value { result.0 ≡ longest_wait (link_of rate None) bound.0 (promise_of promise) }
    ensures short { result.0 ≤ bound.0 }
{
    Nanos(bound.0.saturating_sub(slot(promise.size(), rate)))
}

/// Returns by how much the wait of a frame of a stream can exceed that of another frame at the same position in its interval. The other
/// frame waits for the stream's own frames too; none of these is shorter than `shortest`.
fn closer_wait(rate: Rate, bound: Nanos, shortest: Octets, promise: Traffic) -> Nanos
    requires bounded { bound.0 ≤ 2 ^ 32 }
    ensures value { result.0 ≡ closer_wait (link_of rate None) bound.0 shortest.0 (promise_of promise) }
    ensures short { result.0 ≤ bound.0 }
{
    let longest = u128::from(longest_wait(rate, bound, promise).0);
    let own = most_frames(promise, bound).saturating_sub(1) * u128::from(slot(shortest, rate));
    Nanos(longest.saturating_sub(own) as u64)
}

/// Returns by how much the longest transit time of a largest frame exceeds the shortest transit time of a shortest frame.
fn spread_of(rate: Rate, delays: Delays, shortest: Octets, promise: Traffic) -> Nanos
    requires short { delays.least.0 ≤ 2 ^ 32 }
    requires brief { delays.most.0 ≤ 2 ^ 32 }
    ensures value { result.0 ≡ spread_of (link_of rate None) delays shortest.0 promise.size }
    ensures small { result.0 ≤ 2 ^ 43 }
{
    let longest = travel_time(rate, delays.most, promise.size()).0;
    let spread = longest.saturating_sub(travel_time(rate, delays.least, shortest).0);
    Nanos(spread)
}

/// Returns a stream's jitter at the edge bridge, if the waits of its frames differ by at most `wait`.
fn jitter_with(rate: Rate, delays: Delays, wait: Nanos, shortest: Octets, promise: Traffic) -> Nanos
    requires bounded { wait.0 ≤ 2 ^ 32 }
    requires short { delays.least.0 ≤ 2 ^ 32 }
    requires brief { delays.most.0 ≤ 2 ^ 32 }
    ensures { result.0 ≡ promise.jitter + (wait.0 + spread_of (link_of rate None) delays shortest.0 promise.size) }
{
    Nanos(promise.jitter().0 + wait.0 + spread_of(rate, delays, shortest, promise).0)
}

/// Returns the jitter of a talker's promise at the edge bridge, in nanoseconds. Its access link sends one frame after the other, no frame
/// waits longer than the bound allows ([`access_bound`]), and no frame of the stream is shorter than `shortest`. The bound and the delays
/// are at most 2^32 ns.
///
/// [`access_bound`]: crate::access_bound
pub fn edge_jitter(
    rate: Rate,
    delays: Delays,
    bound: Nanos,
    shortest: Octets,
    promise: Traffic,
) -> Nanos
    requires bounded { bound.0 ≤ 2 ^ 32 }
    requires short { delays.least.0 ≤ 2 ^ 32 }
    requires brief { delays.most.0 ≤ 2 ^ 32 }
    ensures { result.0 ≡ (closer_at_edge (link_of rate None) delays bound.0 shortest.0 (promise_of promise)).jitter }
{
    let wait = closer_wait(rate, bound, shortest, promise);
    jitter_with(rate, delays, wait, shortest, promise)
}

/// Returns how late a frame can be on its stream's grid at the edge bridge, in nanoseconds, under the conditions of [`edge_jitter`]. This
/// includes the frame's whole wait. The frames of a talker in step must stay in their cycles with this jitter.
pub fn grid_jitter(
    rate: Rate,
    delays: Delays,
    bound: Nanos,
    shortest: Octets,
    promise: Traffic,
) -> Nanos
    requires bounded { bound.0 ≤ 2 ^ 32 }
    requires short { delays.least.0 ≤ 2 ^ 32 }
    requires brief { delays.most.0 ≤ 2 ^ 32 }
    ensures { result.0 ≡ (at_edge (link_of rate None) delays bound.0 shortest.0 (promise_of promise)).jitter }
{
    let wait = longest_wait(rate, bound, promise);
    jitter_with(rate, delays, wait, shortest, promise)
}

/// Returns the offset of a stream's grid at the edge bridge, in nanoseconds. No frame of the stream is shorter than `shortest`, and the
/// least delay is at most 2^32 ns.
pub fn edge_offset(rate: Rate, delays: Delays, shortest: Octets, promise: Traffic) -> Nanos
    requires short { delays.least.0 ≤ 2 ^ 32 }
    ensures { result.0 ≡ edge_offset (link_of rate None) delays shortest.0 promise.offset }
{
    Nanos(promise.offset().0 + travel_time(rate, delays.least, shortest).0)
}
