//! Whether a frame comes too late.
ghost use Rattle.std.specs.Prelude.{◌^◌, ◌<◌, ◌↔◌, IsTrue};
ghost use Rattle.cqf_port.specs.PortState.{WasOpen};

use crate::spans::Schedule;
use cqf_laws_network::mask_is_in_force;
use cqf_units::Nanos;

/// Returns whether the class was open at some instant from `first` up to but excluding `last`. Goes from entry to
/// entry, since no gate changes in between, and no further than one round, since rounds repeat.
pub(crate) fn was_open(schedule: &Schedule, class: u8, first: Nanos, last: Nanos) -> bool
    requires gate { class < 8 }
    requires come { first.0 < 2 ^ 62 }
    requires early { last.0 < 2 ^ 62 }
    ensures { IsTrue result ↔ WasOpen schedule.now class first.0 last.0 }
{
    mask_is_in_force();
    let end = last.0.min(first.0 + schedule.round().0);
    let mut t = first.0;
    while t < end {
        if schedule.is_open(Nanos(t), class) {
            return true;
        }
        t = schedule.next_boundary(Nanos(t)).0;
    }
    false
}
