//! The ports of a bridge while nothing starts.
ghost use Rattle.std.specs.Prelude.{◌≡◌, ◌^◌, ◌<◌, Contains, OnOk, map};
ghost use Rattle.cqf_bridge.specs.PortRecord.{PortRecord};
ghost use Rattle.cqf_bridge.specs.Quiet.{IsQuiet, rested};

use crate::outgoing::Outgoing;
use cqf_units::{Memory, Nanos};

/// Runs the ports to an instant before which none of them starts a frame.
pub(crate) fn rest_ports(ports: &mut Vec<Outgoing>, until: Nanos) -> Result<(), Memory>
    requires early { until.0 < 2 ^ 62 }
    requires later { (r : PortRecord) → Contains ports.old.items r → r.port.reached < until.0 }
    requires quiet { (r : PortRecord) → Contains ports.old.items r → IsQuiet until.0 r }
    ensures { OnOk result (ports.new.items ≡ map (rested until.0) ports.old.items) }
{
    for index in 0..ports.len() {
        ports[index].rest_to(until)?;
    }
    Ok(())
}
