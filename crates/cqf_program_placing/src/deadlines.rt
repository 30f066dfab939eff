//! Deadlines of streams, from their edge bridges on.
ghost use Rattle.std.specs.Prelude.{◌≡◌};
ghost use Rattle.cqf_program_placing.specs.Settled.{deadline_after, longest_of, taken_on};

use crate::PlanFault;
use cqf_network::TalkerLink;
use cqf_traffic::Traffic;
use cqf_units::time_of;

/// The octets of the longest frame with a tag (IEEE 802.3).
const LONGEST_FRAME: u32 = 1_522;

/// Returns how many octets a frame of a stream may have: the size in its traffic; without traffic its reservation, and at most 1,522.
pub(crate) fn longest_of(octets: Option<u32>, traffic: Option<Traffic>) -> u32
    ensures { result ≡ longest_of octets traffic }
{
    match traffic {
        Some(traffic) => traffic.size().0,
        None => octets.unwrap_or(0).min(LONGEST_FRAME),
    }
}

/// Returns how much of a deadline is over, in nanoseconds, when a frame of this many octets is whole at the edge bridge.
pub(crate) fn taken_on(talker: Option<TalkerLink>, octets: u32) -> u64
    ensures { result ≡ taken_on talker octets }
{
    match talker {
        Some(link) => time_of(u64::from(octets) + 8, link.rate) + u64::from(link.delay),
        None => 0,
    }
}

/// Returns the deadline from the edge bridge on, in nanoseconds, if `taken` nanoseconds of it are over there. Returns `TooSoon` if nothing
/// is left.
pub(crate) fn deadline_after(taken: u64, deadline: Option<u32>) -> Result<Option<u32>, PlanFault>
    ensures { result ≡ deadline_after taken deadline }
{
    match deadline {
        Some(deadline) => {
            let whole = u64::from(deadline);
            if taken < whole {
                Ok(Some((whole - taken) as u32))
            } else {
                Err(PlanFault::TooSoon)
            }
        }
        None => Ok(None),
    }
}
