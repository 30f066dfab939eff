//! What a stream reserves in a cycle.
ghost use Rattle.std.specs.Prelude.{◌≡◌, ◌≤◌, ◌<◌, ◌^◌, IfOk, IfSome, IsTrue, Some};
ghost use Rattle.cqf_model.specs.Limits.{most_reserved};
ghost use Rattle.cqf_program_placing.specs.Placing.{reserved_by, reserved_on};
ghost use Rattle.cqf_program_placing.specs.Settled.{are_reservable, settled_value};

use crate::active_cycles::can_step;
use crate::{PlanFault, Settled};
use cqf_admission::MOST_OCTETS;
use cqf_model::LEAST_OCTETS;
use cqf_topology::Domain;

/// Returns the reservation of a stream that needs `needed` octets in a cycle, and that requests `octets` if any are given. No stream may
/// reserve fewer than 64 octets.
fn reserved_for(octets: Option<u32>, needed: u128) -> Result<u32, PlanFault>
    requires { needed < 2 ^ 64 }
    ensures { result ≡ reserved_by octets (Some needed) }
{
    if needed > u128::from(MOST_OCTETS) {
        return Err(PlanFault::TooMuch(needed as u64));
    }
    let Some(asked) = octets else {
        return Ok((needed as u32).max(LEAST_OCTETS));
    };
    if u128::from(asked) < needed {
        return Err(PlanFault::TooLittle(needed as u64));
    }
    Ok(asked)
}

/// Returns the reservation of a stream on a domain, in octets per cycle: the octets that it requests, which have to be enough for its
/// traffic; if it requests none, what its traffic needs in a cycle, but at least the fewest octets that a stream may reserve.
///
/// # Errors
/// `BadInStep` if its talker has to be in step, but not all its frames of an interval arrive within one cycle, by its own clock and by the
/// edge bridge's; else `TooMuch` if its traffic needs more than a stream may reserve; else `TooLittle` if it requests fewer octets than its
/// traffic needs.
pub(crate) fn reservation(domain: &Domain, stream: &Settled) -> Result<u32, PlanFault>
    requires { IsTrue (are_reservable stream.now.octets) }
    ensures value { result ≡ reserved_on domain.now.overhead domain.now.cycle_time domain.now.sync (settled_value stream.now) }
    ensures few { IfOk result (λ octets. octets ≤ most_reserved) }
    ensures some { IfOk result (λ octets. IfSome stream.now.traffic (λ _. 1 ≤ octets)) }
{
    let cycle_time = domain.cycle_time();
    if !can_step(stream, cycle_time, domain.sync()) {
        return Err(PlanFault::BadInStep);
    }
    let Some(traffic) = stream.traffic else {
        return Ok(stream.octets.unwrap_or(0));
    };
    traffic.know();
    let needed = traffic.needed(domain.overhead(), cycle_time);
    reserved_for(stream.octets, needed)
}
