//! The time for which nothing can start.
ghost use Rattle.std.specs.Prelude.{◌≡◌, ◌+◌, ◌-◌, ◌^◌, ◌<◌, ◌≤◌, ℕ, Some, length};
ghost use Rattle.cqf_model.specs.Port.{IsEligible, class_of, instant_of};
ghost use Rattle.cqf_port.specs.PortState.{rules_of};
ghost use Rattle.cqf_port.specs.Progress.{AreInside, NoneReady};
ghost use Rattle.cqf_port.specs.Quiet.{IsIdleOf, IsIdleUntil, OneTurns, Turns};
ghost use Rattle.cqf_port.specs.Spans.{IsAhead};

use crate::choice::need_of;
use crate::egress::Egress;
use crate::spans::Ahead;
use cqf_units::Nanos;

/// Returns the first instant after `t` at which the head of the class can start: the head comes, or it has come and its
/// gate stays open long enough from the beginning of an entry. A result of `last` or later says only that the head
/// can't start before it.
fn idle_of(
    egress: &Egress<'_>,
    head: Option<usize>,
    class: u8,
    t: Nanos,
    ahead: Ahead,
    last: u64,
) -> Nanos
    requires gate { class < 8 }
    requires early { t.0 < 2 ^ 63 + 2 ^ 62 }
    requires ahead { IsAhead egress.now.schedule.now t.0 ahead.index ahead.begins ahead.again }
    requires inside { (index : ℕ) → head ≡ Some index → index < length egress.now.arrivals.now }
    requires of_class { (index : ℕ) → head ≡ Some index → class_of egress.now.arrivals.now index ≡ class }
    requires waits { (index : ℕ) → head ≡ Some index → instant_of egress.now.arrivals.now index ≤ t.0 →
        ¬ IsEligible (rules_of egress.now.schedule.now egress.now.rate) egress.now.arrivals.now index t.0 }
    ensures later { t.0 < result.0 }
    ensures idle { IsIdleOf (rules_of egress.now.schedule.now egress.now.rate) egress.now.arrivals.now head t.0 result.0 }
    ensures turns { result.0 < last → Turns (rules_of egress.now.schedule.now egress.now.rate) egress.now.arrivals.now head result.0 }
{
    match head {
        None => Nanos(u64::MAX),
        Some(index) => {
            let arrival = egress.arrivals[index];
            if t < arrival.at {
                return arrival.at;
            }
            let need = need_of(arrival.octets, egress.rate);
            egress.schedule.next_fit(t, class, need, ahead, last)
        }
    }
}

/// Returns the first instant after `t` at which a head can be ready: a head comes, or a head that has come fits. At `t`
/// no head is ready.
pub(crate) fn idle_until(egress: &Egress<'_>, heads: &[Option<usize>; 8], t: Nanos) -> Nanos
    requires early { t.0 < 2 ^ 63 + 2 ^ 62 }
    requires inside { AreInside egress.now.arrivals.now heads.now }
    requires none { NoneReady (rules_of egress.now.schedule.now egress.now.rate) egress.now.arrivals.now heads.now t.0 0 }
    ensures later { t.0 < result.0 }
    ensures idle { IsIdleUntil (rules_of egress.now.schedule.now egress.now.rate) egress.now.arrivals.now heads.now t.0 result.0 }
    ensures turns { result.0 < 2 ^ 64 - 1 → OneTurns (rules_of egress.now.schedule.now egress.now.rate) egress.now.arrivals.now heads.now result.0 }
{
    let ahead = egress.schedule.ahead(t);
    let mut until = u64::MAX;
    for class in 0..8u8 {
        let head = heads[usize::from(class)];
        until = until.min(idle_of(egress, head, class, t, ahead, until).0);
    }
    Nanos(until)
}
