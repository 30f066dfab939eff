//! The number of frames on the grids of streams.
ghost use Rattle.std.specs.Prelude.{◌≡◌, ◌<◌, ◌^◌, nat_le};
ghost use Rattle.cqf_traffic.specs.Offering.{blocks_before, frames_before, frames_of};

use crate::{TalkerStream, Traffic};
use cqf_units::Nanos;

/// Returns the number of blocks on the grid before an instant.
pub(crate) fn blocks_before(end: Nanos, traffic: Traffic) -> u64
    ensures { result ≡ blocks_before end.0 traffic }
{
    let interval = traffic.interval().0;
    let open = u128::from(end.0.saturating_sub(traffic.offset().0));
    ((open + u128::from(interval) - 1) / u128::from(interval)) as u64
}

/// Returns the number of frames in these blocks.
fn frames_of(end: Nanos, traffic: Option<Traffic>) -> u128
    ensures value { result ≡ frames_of end.0 traffic }
    ensures bounded { result < 2 ^ 96 }
{
    match traffic {
        Some(traffic) => { u128::from(blocks_before(end, traffic)) * u128::from(traffic.frames()) }
        None => 0,
    }
}

/// Returns whether senders have at most `most` frames together before an instant, if none is late.
pub fn are_few(end: Nanos, senders: &[TalkerStream], most: u32) -> bool
    ensures { result ≡ nat_le (frames_before end.0 senders.now) most }
{
    let mut frames = 0;
    for sender in senders {
        let more = frames + frames_of(end, sender.traffic);
        frames = more.min(u128::from(most) + 1);
    }
    frames <= u128::from(most)
}
