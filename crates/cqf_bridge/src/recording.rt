//! Queues a frame to a bridge's ports, or drops it.
ghost use Rattle.std.specs.Prelude.{◌≡◌, ◌+◌, ◌^◌, ◌<◌, ◌++◌, ◌==◌, Contains, IfErr, OnOk, map, true};
ghost use Rattle.std.specs.List.{list_any};
ghost use Rattle.cqf_model.specs.Book.{drop_by};
ghost use Rattle.cqf_model.specs.Domain.{cycle_of};
ghost use Rattle.cqf_model.specs.Table.{goes_to};
ghost use Rattle.cqf_model.specs.Policing.{DroppedFor, Queued};
ghost use Rattle.cqf_bridge.specs.PortRecord.{PortRecord};
ghost use Rattle.cqf_bridge.specs.Taking.{AreWaiting, CanRecord, IsFaultByVerdict, MayBeTaken, TakesFrame};
ghost use Rattle.cqf_bridge.specs.Taking.{class_in, queue_on, received_as, verdict_taken, with_verdict};
ghost use Rattle.cqf_model.specs.Limits.{most_cycles};

use crate::gathering::Incoming;
use crate::outgoing::Outgoing;
use crate::phases::ReceivePhase;
use crate::policing::{FrameVerdict, police};
use crate::{BridgeFault, StreamGates};
use cqf_laws_cycle::{gate_gives_class, queued_frames_wait};
use cqf_model::{Arrival, Dropped, Reason, Row};
use cqf_topology::Domain;
use cqf_units::{Cycle, Memory};

/// Records an arrival at a port if its stream goes on by the port's link.
fn queue_one(
    port: &mut Outgoing,
    row: &Row,
    ingress: Option<u16>,
    arrival: Arrival,
) -> Result<(), Memory>
    requires gate { arrival.class < 8 }
    requires early { arrival.at.0 < 2 ^ 62 }
    requires taken { list_any (λ next. next == port.old.link) (goes_to row.now ingress) ≡ true → CanRecord port.old.port arrival }
    ensures { OnOk result (port.new ≡ queue_on row.now ingress arrival port.old) }
{
    if row.goes_on_by(ingress, port.link()) {
        port.record(arrival, Some(row.no))?;
    }
    Ok(())
}

/// Records an arrival at each port by whose link its stream goes on.
fn queue_all(
    ports: &mut Vec<Outgoing>,
    row: &Row,
    ingress: Option<u16>,
    arrival: Arrival,
) -> Result<(), Memory>
    requires gate { arrival.class < 8 }
    requires early { arrival.at.0 < 2 ^ 62 }
    requires taken { (r : PortRecord) → Contains ports.old.items r → list_any (λ next. next == r.link) (goes_to row.now ingress) ≡ true → CanRecord r.port arrival }
    ensures { OnOk result (ports.new.items ≡ map (queue_on row.now ingress arrival) ports.old.items) }
{
    for index in 0..ports.len() {
        queue_one(&mut ports[index], row, ingress, arrival)?;
    }
    Ok(())
}

/// Queues a frame in a class to the ports by whose links its stream goes on.
fn queue_frame(
    domain: &Domain,
    cycle: Cycle,
    row: &Row,
    class: u8,
    frame: &Incoming,
    ports: &mut Vec<Outgoing>,
) -> Result<(), Memory>
    requires early { cycle.0 < most_cycles }
    requires in_cycle { cycle_of domain.now frame.now.at.0 ≡ cycle.0 }
    requires class { class ≡ class_in domain.now (received_as frame.now) row.now }
    requires waiting { AreWaiting domain.now cycle.0 (frame.now.at.0 + 1) ports.old.items }
    ensures { OnOk result (ports.new.items ≡ map (with_verdict domain.now (received_as frame.now) (Queued row.now)) ports.old.items) }
{
    gate_gives_class();
    queued_frames_wait();
    domain.know();
    let arrival = Arrival {
        at: frame.at,
        class,
        octets: frame.octets,
        frame: frame.frame,
    };
    queue_all(ports, row, frame.came.link(), arrival)
}

/// Drops an offer.
fn drop_offer(
    number: u16,
    cycle: Cycle,
    frame: &Incoming,
    reason: Reason,
    drops: &mut Vec<Dropped>,
) -> Result<(), Memory>
    ensures { OnOk result (drops.new.items ≡ drops.old.items ++ drop_by cycle.0 number (received_as frame.now) (DroppedFor reason)) }
{
    drops.push(Dropped {
        cycle,
        bridge: number,
        frame: frame.frame,
        octets: frame.octets,
        reason,
    })?;
    Ok(())
}

/// Takes a frame, after the earlier frames of the cycle.
pub(crate) fn take_frame(
    phase: ReceivePhase<'_, '_>,
    frame: &Incoming,
    gates: &mut StreamGates,
    ports: &mut Vec<Outgoing>,
    drops: &mut Vec<Dropped>,
) -> Result<(), BridgeFault>
    requires early { phase.cycle.0 < most_cycles }
    requires may { MayBeTaken phase.domain.now phase.number phase.cycle.0 phase.table.now.rows (received_as frame.now) }
    requires waiting { AreWaiting phase.domain.now phase.cycle.0 (frame.now.at.0 + 1) ports.old.items }
    ensures takes { OnOk result (TakesFrame phase.entry.domain.now phase.entry.table.now.rows phase.entry.number phase.entry.cycle.0
        (received_as frame.now) gates.old gates.new ports.old.items ports.new.items drops.old.items drops.new.items) }
    ensures stops { IfErr result (λ fault. IsFaultByVerdict (verdict_taken phase.entry.domain.now phase.entry.table.now.rows phase.entry.number
        phase.entry.cycle.0 gates.old (received_as frame.now)) frame.now.frame fault) }
{
    let outcome = police(
        phase.domain,
        phase.number,
        phase.cycle,
        phase.table,
        frame,
        gates,
    )?;
    match outcome {
        FrameVerdict::GoesOn(row, class) => {
            queue_frame(phase.domain, phase.cycle, row, class, frame, ports)?;
            Ok(())
        }
        FrameVerdict::Dropped(reason) => {
            drop_offer(phase.number, phase.cycle, frame, reason, drops)?;
            Ok(())
        }
        // the batch was checked
        FrameVerdict::LacksRow => unreachable!(),
        FrameVerdict::ExceedsGate => Err(BridgeFault::OverOctets(frame.frame)),
    }
}
