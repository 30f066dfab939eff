//! The least bound of an access link's waits.
ghost use Rattle.std.specs.Prelude.{◌≡◌, ◌+◌, ◌*◌, ◌<◌, ◌≤◌, ◌^◌, min, All};
ghost use Rattle.cqf_laws_timing.specs.Traffic.{most_frames};
ghost use Rattle.cqf_traffic.specs.TrafficText.{IsTrafficText, promise_of};
ghost use Rattle.cqf_access.specs.Access.{demand, taken_within};
ghost use Rattle.cqf_access.specs.Bounding.{IsAccessBound, all_promises, link_of};

use cqf_traffic::Traffic;
use cqf_units::{Nanos, Octets, Rate, slot};

/// Returns the most frames of a stream that a talker hands over within a time.
pub(crate) fn most_frames(promise: Traffic, time: Nanos) -> u128
    requires short { time.0 ≤ 2 ^ 32 }
    ensures value { result ≡ most_frames time.0 (promise_of promise) }
    ensures bounded { result < 2 ^ 84 }
    ensures range { IsTrafficText promise }
{
    let interval = promise.interval().0;
    let reach = time.0 + promise.jitter().0 + interval - 1;
    u128::from(reach / interval) * u128::from(promise.frames())
}

/// Returns the most time that the frames of a stream that are handed over within a time take of a link, in nanoseconds.
fn taken_within(rate: Rate, promise: Traffic, time: Nanos) -> u128
    requires short { time.0 ≤ 2 ^ 32 }
    ensures value { result ≡ taken_within (link_of rate None) time.0 (promise_of promise) }
    ensures bounded { result < 2 ^ 126 }
    ensures range { IsTrafficText promise }
{
    most_frames(promise, time) * u128::from(slot(promise.size(), rate))
}

/// Returns the most time that all frames that a station's talkers hand over within a time take of its access link, with one frame of no
/// stream, or `most` plus 1 ns if it is more than `most`.
fn taken_by_all(
    rate: Rate,
    other: Option<Octets>,
    promises: &[Traffic],
    time: Nanos,
    most: Nanos,
) -> Nanos
    requires short { time.0 ≤ 2 ^ 32 }
    requires few { most.0 ≤ 2 ^ 32 }
    ensures value { result.0 ≡ min (demand (link_of rate other) (all_promises promises.now) time.0) (most.0 + 1) }
    ensures range { All IsTrafficText promises.now }
{
    let mut sum = match other {
        Some(octets) => slot(octets, rate).min(most.0 + 1),
        None => 0,
    };
    for promise in promises {
        let more = u128::from(sum) + taken_within(rate, *promise, time);
        sum = more.min(u128::from(most.0) + 1) as u64;
    }
    Nanos(sum)
}

/// Returns the least bound of a frame's wait plus the time of a largest frame of its stream, on the access link of a station whose streams
/// have these promises, and which may send one frame of no stream. Returns `None` if no bound is at most `most`, which is at most 2^32 ns.
///
/// The search starts at 1 ns. Each next time is what the link needs for all that is handed over within the previous time, until this no
/// longer grows. So no time is greater than any bound, and as each is longer than the previous one, the search ends.
pub fn access_bound(
    rate: Rate,
    other: Option<Octets>,
    promises: &[Traffic],
    most: Nanos,
) -> Option<Nanos>
    requires few { most.0 ≤ 2 ^ 32 }
    ensures { IsAccessBound (link_of rate other) (all_promises promises.now) most.0 result }
{
    let mut time = 1;
    while time <= most.0 {
        let taken = taken_by_all(rate, other, promises, Nanos(time), most).0;
        if taken <= time {
            return Some(Nanos(time));
        }
        time = taken;
    }
    None
}
