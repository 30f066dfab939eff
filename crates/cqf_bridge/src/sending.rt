//! The transmit phase of a cycle: each port gets its background frames, and runs to the end of the cycle.
ghost use Rattle.std.specs.Prelude.{◌≡◌, ◌+◌, ◌*◌, ◌<◌, ◌≤◌, Contains, OnErr, OnOk, ℕ, length, take};
ghost use Rattle.cqf_bridge.specs.BridgeState.{AreBackedOf, IsInStep, end_of_cycle, port_with};
ghost use Rattle.cqf_bridge.specs.PortRecord.{PortRecord};
ghost use Rattle.cqf_bridge.specs.Sending.{CanTake, FirstSend, PortSends};
ghost use Rattle.cqf_model.specs.Limits.{end_of_starts, longest_cycle, most_cycles};

use crate::Batch;
use crate::outgoing::Outgoing;
use crate::phases::TransmitPhase;
use cqf_model::{Arrival, Backed, Started};
use cqf_topology::Domain;
use cqf_units::{Cycle, Memory, Nanos};
use std::alloc::Global;

/// Returns the arrival of a background frame at its port.
fn arrival_of(frame: &Backed) -> Arrival
    ensures { result ≡ record {
      at = frame.now.background.at;
      class = frame.now.background.class;
      octets = frame.now.background.octets;
      frame = frame.now.frame;
    } }
{
    Arrival {
        at: frame.background.at,
        class: frame.background.class,
        octets: frame.background.octets,
        frame: frame.frame,
    }
}

/// Records at a port those of the bridge's background frames of a cycle that use the port's link.
fn take_background(port: &mut Outgoing, background: &[Backed]) -> Result<(), Memory>
    requires { CanTake background.now port.old }
    ensures { OnOk result (port.new ≡ port_with background.now port.old) }
{
    let link = port.link();
    for frame in background {
        if frame.background.link == link {
            port.record(arrival_of(frame), None)?;
        }
    }
    Ok(())
}

/// Returns the end of a cycle.
pub(crate) fn end_of(domain: &Domain, cycle: Cycle) -> Nanos
    requires { cycle.0 < most_cycles }
    ensures value { result.0 ≡ end_of_cycle domain.now cycle.0 }
    ensures early { result.0 < end_of_starts }
    ensures lasting { 0 < domain.now.cycle_time }
    ensures short { domain.now.cycle_time ≤ longest_cycle }
{
    Nanos((u64::from(cycle.0) + 1) * domain.cycle_time().0)
}

/// Sends a cycle at a port: the port gets its background frames, and runs to the end of the cycle.
fn send_port(
    alloc: Global,
    phase: TransmitPhase<'_, '_>,
    port: &mut Outgoing,
    batches: &mut Vec<Batch>,
    started: &mut Vec<Started>,
) -> Result<(), Memory>
    requires early { phase.cycle.0 < most_cycles }
    requires frames { (bridge : ℕ) × AreBackedOf phase.domain.now bridge phase.cycle.0 phase.background.now }
    requires in_step { IsInStep phase.domain.now phase.cycle.0 phase.cycle.0 port.old }
    ensures given { OnErr result (batches.new.items ≡ batches.old.items) }
    ensures sends { OnOk result (PortSends phase.entry.domain.now phase.entry.cycle.0 phase.entry.background.now port.old port.new
        batches.old.items batches.new.items started.old.items started.new.items) }
{
    take_background(port, phase.background)?;
    let end = end_of(phase.domain, phase.cycle);
    let batch = port.run_to(alloc, phase.cycle, end, started)?;
    batches.push(batch)?;
    Ok(())
}

/// Sends a cycle at each port of a bridge.
pub(crate) fn send_ports(
    alloc: Global,
    phase: TransmitPhase<'_, '_>,
    ports: &mut Vec<Outgoing>,
    batches: &mut Vec<Batch>,
    started: &mut Vec<Started>,
) -> Result<(), Memory>
    requires early { phase.cycle.0 < most_cycles }
    requires frames { (bridge : ℕ) × AreBackedOf phase.domain.now bridge phase.cycle.0 phase.background.now }
    requires in_step { (r : PortRecord) → Contains ports.old.items r → IsInStep phase.domain.now phase.cycle.0 phase.cycle.0 r }
    ensures given { OnErr result (take (length batches.old.items) batches.new.items ≡ batches.old.items) }
    ensures sends { OnOk result (FirstSend phase.entry.domain.now phase.entry.cycle.0 phase.entry.background.now (length ports.old.items)
        ports.old.items ports.new.items batches.old.items batches.new.items started.old.items started.new.items) }
{
    for index in 0..ports.len() {
        send_port(alloc, phase, &mut ports[index], batches, started)?;
    }
    Ok(())
}
