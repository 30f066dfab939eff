//! What links offer to streams.
ghost use Rattle.std.specs.Prelude.{◌≡◌, ◌<◌, length};
ghost use Rattle.cqf_model.specs.Domain.{budget, guard_of};

use cqf_topology::Domain;
use cqf_units::{Nanos, Octets, budget};

/// Returns the guard band of a link of the domain: its own if it has one, else the domain's. It is at least 1 ns and
/// shorter than the cycle time.
pub fn guard_on(domain: &Domain, link: u16) -> Nanos
    requires { link < length domain.now.links }
    ensures value { result.0 ≡ guard_of domain.now link }
    ensures some { 0 < result.0 }
    ensures within { result.0 < domain.now.cycle_time }
{
    domain.know();
    let (guard, ends) = (domain.guard(), domain.link(link));
    let own = ends.guard_by(guard.0 as u32);
    Nanos(u64::from(own))
}

/// Returns what reservations may cost on a link of the domain, in octets per cycle.
pub fn budget_on(domain: &Domain, link: u16) -> Octets
    requires { link < length domain.now.links }
    ensures { result.0 ≡ budget domain.now link }
{
    let rate = domain.link(link).rate;
    budget(domain.cycle_time(), guard_on(domain, link), rate)
}
