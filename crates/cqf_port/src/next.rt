//! When the next frame starts.
ghost use Rattle.std.specs.Prelude.{◌+◌, ◌^◌, ◌<◌, ◌≤◌, MatchOption};
ghost use Rattle.cqf_port.specs.PortState.{AreTaken, rules_of};
ghost use Rattle.cqf_port.specs.Progress.{AreInside};
ghost use Rattle.cqf_port.specs.NextStart.{HaveCome, IsNextReady, NeverReady};

use crate::choice::choose;
use crate::egress::Egress;
use crate::quiet::idle_until;
use cqf_laws_network::mask_is_in_force;
use cqf_model::Arrival;
use cqf_units::Nanos;

/// Returns an instant from `from` on by which each head has come.
fn all_come(arrivals: &[Arrival], heads: &[Option<usize>; 8], from: Nanos) -> Nanos
    requires early { from.0 < 2 ^ 63 }
    requires taken { AreTaken arrivals.now }
    requires inside { AreInside arrivals.now heads.now }
    ensures from { from.0 ≤ result.0 }
    ensures soon { result.0 < 2 ^ 63 }
    ensures come { HaveCome arrivals.now heads.now 8 result.0 }
{
    let mut latest = from.0;
    for class in 0..8 {
        if let Some(index) = heads[class] {
            latest = latest.max(arrivals[index].at.0);
        }
    }
    Nanos(latest)
}

/// Returns the first instant from `from` on at which a head is ready, if no frame starts before, or `None` if none ever
/// is. It looks no further than one round of the list after the instant by which all heads have come, since from then
/// on each round is the same.
pub(crate) fn next_ready(
    egress: &Egress<'_>,
    heads: &[Option<usize>; 8],
    from: Nanos,
) -> Option<Nanos>
    requires early { from.0 < 2 ^ 63 }
    requires taken { AreTaken egress.now.arrivals.now }
    requires inside { AreInside egress.now.arrivals.now heads.now }
    ensures { let rules = rules_of egress.now.schedule.now egress.now.rate in
        MatchOption result (NeverReady rules egress.now.arrivals.now heads.now from.0) (λ t. IsNextReady rules egress.now.arrivals.now heads.now from.0 t.0) }
{
    mask_is_in_force();
    let horizon = all_come(egress.arrivals, heads, from).0 + egress.schedule.round().0;
    let mut t = from.0;
    'events: while t < horizon {
        match choose(egress, heads, Nanos(t)) {
            Some(_) => return Some(Nanos(t)),
            None => t = idle_until(egress, heads, Nanos(t)).0.min(horizon),
        }
    }
    None
}
