//! The receive phase of a cycle: the frames that arrive are gathered, brought into order and taken, one by one.
ghost use Rattle.std.specs.Prelude.{◌+◌, ◌*◌, ◌<◌, Contains, IfErr, IfOk, OnOk, map};
ghost use Rattle.std.specs.List.Sorted.{IsNonDecreasingBy};
ghost use Rattle.cqf_model.specs.Run.{Run};
ghost use Rattle.cqf_model.specs.Policing.{Received};
ghost use Rattle.cqf_bridge.specs.Gates.{AreKept};
ghost use Rattle.cqf_bridge.specs.Receiving.{AreBatchesOf, IsRunOfBridge};
ghost use Rattle.cqf_bridge.specs.Taking.{AreWaiting, HasPoliced, IsFaultByPoliced, MayBeTaken, TakesCycle, policed_by, received_as, IsFaultInRun};
ghost use Rattle.cqf_model.specs.Limits.{most_cycles};

use crate::gathering::{Incoming, in_order};
use crate::outgoing::Outgoing;
use crate::phases::ReceivePhase;
use crate::recording::take_frame;
use crate::{Batch, BridgeFault, StreamGates};
use cqf_laws_cycle::{drops_are_of_the_cycle, frames_are_taken_in_order, gate_counts_cycles};
use cqf_model::{Dropped, Offered};
use std::alloc::Global;

/// Takes the frames of a cycle. They are in the order in which a bridge takes them.
fn take_all(
    phase: ReceivePhase<'_, '_>,
    frames: &[Incoming],
    gates: &mut StreamGates,
    ports: &mut Vec<Outgoing>,
    drops: &mut Vec<Dropped>,
) -> Result<(), BridgeFault>
    requires early { phase.cycle.0 < most_cycles }
    requires may { (x : Received) → Contains (map received_as frames.now) x →
        MayBeTaken phase.domain.now phase.number phase.cycle.0 phase.table.now.rows x }
    requires ordered { IsNonDecreasingBy (λ (x : Received). x.at) (map received_as frames.now) }
    requires waiting { AreWaiting phase.domain.now phase.cycle.0 (phase.cycle.0 * phase.domain.now.cycle_time) ports.old.items }
    requires before { AreKept phase.cycle.0 gates.old }
    ensures kept { OnOk result (AreKept (phase.entry.cycle.0 + 1) gates.new) }
    ensures takes { OnOk result (HasPoliced phase.entry.domain.now phase.entry.number phase.entry.cycle.0
        ports.old.items drops.old.items (policed_by phase.entry.domain.now phase.entry.table.now.rows phase.entry.number phase.entry.cycle.0
        (map received_as frames.now)) gates.new ports.new.items drops.new.items) }
    ensures stops { IfErr result (λ fault. IsFaultByPoliced (policed_by phase.entry.domain.now phase.entry.table.now.rows phase.entry.number
        phase.entry.cycle.0 (map received_as frames.now)) fault) }
{
    gate_counts_cycles();
    // a fact that `know` gives: the domain is accepted
    phase.domain.know();
    for frame in frames {
        match take_frame(phase, frame, gates, ports, drops) {
            Ok(()) => {}
            Err(fault) => return Err(fault),
        }
    }
    Ok(())
}

/// Receives a cycle at the ports of a bridge: the frames of the batches and the offers are taken in order. Returns the drops, by frame.
pub(crate) fn receive_frames(
    alloc: Global,
    phase: ReceivePhase<'_, '_>,
    batches: &[Batch],
    offers: &[Offered],
    gates: &mut StreamGates,
    ports: &mut Vec<Outgoing>,
) -> Result<Vec<Dropped>, BridgeFault>
    requires early { phase.cycle.0 < most_cycles }
    requires offers { (run : Run) × IsRunOfBridge phase.domain.now phase.number phase.cycle.0 phase.table.now.rows offers.now run }
    requires batches { AreBatchesOf phase.domain.now phase.number phase.cycle.0 phase.table.now.rows batches.now }
    requires waiting { AreWaiting phase.domain.now phase.cycle.0 (phase.cycle.0 * phase.domain.now.cycle_time) ports.old.items }
    requires before { AreKept phase.cycle.0 gates.old }
    ensures kept { OnOk result (AreKept (phase.entry.cycle.0 + 1) gates.new) }
    ensures takes { IfOk result (λ drops. (run : Run) →
        IsRunOfBridge phase.entry.domain.now phase.entry.number phase.entry.cycle.0 phase.entry.table.now.rows offers.now run →
        TakesCycle run phase.entry.number phase.entry.cycle.0 batches.now ports.old.items ports.new.items drops.items) }
    ensures stops { IfErr result (λ fault. (run : Run) →
        IsRunOfBridge phase.entry.domain.now phase.entry.number phase.entry.cycle.0 phase.entry.table.now.rows offers.now run →
        IsFaultInRun run phase.entry.number phase.entry.cycle.0 batches.now fault) }
{
    frames_are_taken_in_order();
    drops_are_of_the_cycle();
    phase.domain.know();
    let frames = in_order(alloc, phase.domain, batches, offers)?;
    let mut drops = Vec::new(alloc);
    match take_all(phase, frames.as_slice(), gates, ports, &mut drops) {
        Ok(()) => {}
        Err(fault) => return Err(fault),
    }
    drops.sort_by_key(|drop| drop.frame)?;
    Ok(drops)
}
