//! Finds the frame that is lost inside, if a bridge doesn't take what arrived at it.
ghost use Rattle.std.specs.Prelude.{◌≡◌, ◌++◌, ◌∷◌, ◌<◌, ℕ, [], Contains, List, IfOk, OnOk, false, map, true};
ghost use Rattle.cqf_model.specs.declared.topology.Row.{Row as ARow};
ghost use Rattle.cqf_model.specs.Domain.{cycle_of};
ghost use Rattle.cqf_model.specs.Network.{IsLoss, Network};
ghost use Rattle.cqf_model.specs.Run.{Run};
ghost use Rattle.cqf_model.specs.Table.{table_of};
ghost use Rattle.cqf_model.specs.Policing.{Policed, Received, police, police_all, sent_received};
ghost use Rattle.cqf_laws_cycle.specs.BridgeCycle.{policed_of};
ghost use Rattle.cqf_laws_cycle.specs.Gathered.{IsInOrderOf};
ghost use Rattle.cqf_bridge.specs.Batch.{LinkBatch};
ghost use Rattle.cqf_bridge.specs.Taking.{CanGather, gathered_by, received_as};
ghost use Rattle.cqf_bridge.specs.Gates.{HaveCounted};
ghost use Rattle.cqf_plain.specs.Driven.{HasCome, IsCycleOf, IsTableOf};
ghost use Rattle.cqf_plain.specs.Losing.{IsLossFound};
ghost use Rattle.cqf_model.specs.Limits.{most_cycles};

use crate::driven::RunBridge;
use cqf_admission::Table;
use cqf_bridge::{
    Batch, FrameVerdict, Incoming, StreamGates, bring_in_order, gather_offers, police,
    verdicts_are_the_runs,
};
use cqf_laws_cycle::{cycle_brings_its_batches, frames_are_taken_in_order};
use cqf_model::Offered;
use cqf_topology::Domain;
use cqf_units::Memory;
use std::alloc::Global;

/// Appends the frames of a batch, in order of start.
fn gather_batch(domain: &Domain, batch: &Batch, frames: &mut Vec<Incoming>) -> Result<(), Memory>
    requires { CanGather domain.now batch.now }
    ensures { OnOk result (map received_as frames.new.items
        ≡ map received_as frames.old.items ++ map (sent_received domain.now batch.now.link) batch.now.frames) }
{
    for index in 0..batch.len() {
        frames.push(Incoming::by_link(domain, batch.link(), batch.get(index)))?;
    }
    Ok(())
}

/// Returns the frames of batches and the offers, in the order in which a bridge takes them.
fn in_order(
    alloc: Global,
    domain: &Domain,
    batches: &[Batch],
    offers: &[Offered],
) -> Result<Vec<Incoming>, Memory>
    requires { (b : LinkBatch) → Contains batches.now b → CanGather domain.now b }
    ensures { IfOk result (λ frames. IsInOrderOf (λ (x : Received). x.at) (gathered_by domain.now batches.now offers.now) (map received_as frames.items)) }
{
    let mut frames = Vec::new(alloc);
    for batch in batches {
        gather_batch(domain, batch, &mut frames)?;
    }
    gather_offers(offers, &mut frames)?;
    bring_in_order(&mut frames)?;
    Ok(frames)
}

/// Returns whether a frame is lost, after the frames that the gates have counted.
fn is_lost(
    domain: &Domain,
    number: u16,
    table: &Table,
    frame: &Incoming,
    gates: &mut StreamGates,
) -> Result<bool, Memory>
    requires { cycle_of domain.now frame.now.at.0 ≡ table.now.cycle }
    ensures counted { OnOk result ((tables : List (List ARow)) (policed : List Policed) → table_of tables table.now.cycle ≡ table.now.rows →
        HaveCounted domain.now table.now.cycle policed gates.old →
        HaveCounted domain.now table.now.cycle
        (policed ++ police domain.now tables number policed (received_as frame.now) ∷ []) gates.new) }
    ensures yes { IfOk result (λ lost. (tables : List (List ARow)) (policed : List Policed) → table_of tables table.now.cycle ≡ table.now.rows →
        HaveCounted domain.now table.now.cycle policed gates.old →
        lost ≡ true → IsLoss (police domain.now tables number policed (received_as frame.now)).verdict) }
    ensures no { IfOk result (λ lost. (tables : List (List ARow)) (policed : List Policed) → table_of tables table.now.cycle ≡ table.now.rows →
        HaveCounted domain.now table.now.cycle policed gates.old →
        lost ≡ false → ¬ IsLoss (police domain.now tables number policed (received_as frame.now)).verdict) }
{
    match police(domain, number, table.cycle(), table, frame, gates)? {
        FrameVerdict::GoesOn(_, _) => Ok(false),
        FrameVerdict::Dropped(_) => Ok(false),
        FrameVerdict::LacksRow => Ok(true),
        FrameVerdict::ExceedsGate => Ok(true),
    }
}

/// Returns the number of the first lost frame among those of a cycle at a bridge. The frames are in the order in which the bridge takes
/// them.
fn lost_among(
    alloc: Global,
    domain: &Domain,
    number: u16,
    table: &Table,
    frames: &[Incoming],
) -> Result<Option<u32>, Memory>
    requires { (x : Received) → Contains (map received_as frames.now) x → cycle_of domain.now x.at ≡ table.now.cycle }
    ensures { IfOk result (λ found. (tables : List (List ARow)) → table_of tables table.now.cycle ≡ table.now.rows →
        IsLossFound (police_all domain.now tables number [] (map received_as frames.now)) found) }
{
    let mut gates = StreamGates::new(alloc);
    for frame in frames {
        if is_lost(domain, number, table, frame, &mut gates)? {
            return Ok(Some(frame.frame));
        }
    }
    Ok(None)
}

/// Returns the number of the first frame, in the order in which frames are taken, that is lost at a bridge in the cycle of a table, among
/// those that have arrived at it or are offered there. Returns `None` if all go on or are dropped.
pub(crate) fn first_lost(
    alloc: Global,
    driven: &RunBridge,
    table: &Table,
) -> Result<Option<u32>, Memory>
    requires early { table.now.cycle < most_cycles }
    requires part { (run : Run) × (net : Network) × (bridge : ℕ) × IsCycleOf run net table.now.cycle × IsTableOf run table.now
        × HasCome run net table.now.cycle bridge driven.now }
    ensures { IfOk result (λ found. (run : Run) (net : Network) (bridge : ℕ) → IsCycleOf run net table.now.cycle → IsTableOf run table.now →
        HasCome run net table.now.cycle bridge driven.now → IsLossFound (policed_of run net.carried bridge table.now.cycle) found) }
{
    verdicts_are_the_runs();
    cycle_brings_its_batches();
    frames_are_taken_in_order();
    let domain = driven.bridge.domain();
    domain.know();
    let offers = driven.agenda.offers(table.cycle());
    let frames = in_order(alloc, domain, driven.inbox.as_slice(), offers)?;
    let found = lost_among(
        alloc,
        domain,
        driven.bridge.number(),
        table,
        frames.as_slice(),
    )?;
    Ok(found)
}
