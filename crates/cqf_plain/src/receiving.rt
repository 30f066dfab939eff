//! The bridges receive a cycle.
ghost use Rattle.std.specs.Prelude.{◌≡◌, ◌+◌, ◌++◌, ◌<◌, ℕ, IfErr, IfOk, OnOk, length};
ghost use Rattle.cqf_model.specs.Network.{Network};
ghost use Rattle.cqf_model.specs.Run.{Run};
ghost use Rattle.cqf_bridge.specs.Verdicts.{LosesNothingIn};
ghost use Rattle.cqf_plain.specs.Driven.{AllStandBefore, AllStandHalfway, FirstLoseNothing, HasCome, IsCycleOf};
ghost use Rattle.cqf_plain.specs.Driven.{IsTableOf, ReceivesOne, StandsHalfway, all_of, drops_of_first};
ghost use Rattle.cqf_plain.specs.Losing.{IsFaultAtBridge, IsFaultInCycle};
ghost use Rattle.cqf_model.specs.Limits.{most_cycles};

use crate::RunFault;
use crate::driven::RunBridge;
use crate::losing::first_lost;
use cqf_admission::Table;
use cqf_bridge::{BridgeFault, new_bridge_follows, receiving_follows, verdicts_are_the_runs};
use cqf_model::Dropped;
use cqf_units::Memory;
use std::alloc::Global;

/// Returns the fault of a bridge that lost a frame among those that arrived at it in the cycle of a table: `Inside` with the first such
/// frame, or `Memory` if an allocation fails while it is sought.
fn why_lost(alloc: Global, driven: &RunBridge, table: &Table) -> RunFault
    requires early { table.now.cycle < most_cycles }
    requires part { (run : Run) × (net : Network) × (bridge : ℕ) × IsCycleOf run net table.now.cycle × IsTableOf run table.now
        × HasCome run net table.now.cycle bridge driven.now × (¬ LosesNothingIn run net bridge table.now.cycle) }
    ensures { (run : Run) (net : Network) (bridge : ℕ) → IsCycleOf run net table.now.cycle → IsTableOf run table.now →
        HasCome run net table.now.cycle bridge driven.now → IsFaultAtBridge run net table.now.cycle bridge result }
{
    match first_lost(alloc, driven, table) {
        Ok(Some(frame)) => RunFault::Inside(frame),
        Ok(None) => unreachable!(),
        Err(_) => RunFault::Memory,
    }
}

/// Receives the cycle of a table at a bridge, with what has arrived at it and is offered there. Returns the drops, by frame.
fn receive_one(
    alloc: Global,
    driven: &mut RunBridge,
    table: &Table,
) -> Result<Vec<Dropped>, RunFault>
    requires early { table.now.cycle < most_cycles }
    requires part { (run : Run) × (net : Network) × (bridge : ℕ) × IsCycleOf run net table.now.cycle × IsTableOf run table.now
        × StandsHalfway run net table.now.cycle (all_of run net table.now.cycle) bridge driven.old }
    ensures receives { IfOk result (λ drops. (run : Run) (net : Network) (bridge : ℕ) → IsCycleOf run net table.now.cycle → IsTableOf run table.now →
        StandsHalfway run net table.now.cycle (all_of run net table.now.cycle) bridge driven.old →
        ReceivesOne run net table.now.cycle bridge driven.new drops.items) }
    ensures stops { IfErr result (λ fault. (run : Run) (net : Network) (bridge : ℕ) → IsCycleOf run net table.now.cycle → IsTableOf run table.now →
        StandsHalfway run net table.now.cycle (all_of run net table.now.cycle) bridge driven.old → IsFaultAtBridge run net table.now.cycle bridge fault) }
{
    new_bridge_follows();
    receiving_follows();
    verdicts_are_the_runs();
    let cycle = table.cycle();
    let offers = driven.agenda.offers(cycle);
    match driven
        .bridge
        .receive(alloc, cycle, table, driven.inbox.as_slice(), offers)
    {
        Ok(drops) => {
            driven.inbox.clear();
            Ok(drops)
        }
        Err(fault) => match fault {
            BridgeFault::Memory => Err(RunFault::Memory),
            _ => Err(why_lost(alloc, driven, table)),
        },
    }
}

/// Receives the cycle of a table at all bridges, in order of number, each with what has arrived at it and is offered there. The drops are
/// appended.
pub(crate) fn receive_all(
    alloc: Global,
    bridges: &mut Vec<RunBridge>,
    table: &Table,
    drops: &mut Vec<Dropped>,
) -> Result<(), RunFault>
    requires early { table.now.cycle < most_cycles }
    requires part { (run : Run) × (net : Network) × IsCycleOf run net table.now.cycle × IsTableOf run table.now
        × AllStandHalfway run net table.now.cycle (all_of run net table.now.cycle) bridges.old.items }
    ensures before { OnOk result ((run : Run) (net : Network) → IsCycleOf run net table.now.cycle → IsTableOf run table.now →
        AllStandHalfway run net table.now.cycle (all_of run net table.now.cycle) bridges.old.items →
        AllStandBefore run net (table.now.cycle + 1) bridges.new.items) }
    ensures dropped { OnOk result ((run : Run) (net : Network) → IsCycleOf run net table.now.cycle → IsTableOf run table.now →
        AllStandHalfway run net table.now.cycle (all_of run net table.now.cycle) bridges.old.items →
        drops.new.items ≡ drops.old.items ++ drops_of_first run net table.now.cycle (length run.domain.bridges)) }
    ensures none_lost { OnOk result ((run : Run) (net : Network) → IsCycleOf run net table.now.cycle → IsTableOf run table.now →
        AllStandHalfway run net table.now.cycle (all_of run net table.now.cycle) bridges.old.items →
        FirstLoseNothing run net table.now.cycle (length run.domain.bridges)) }
    ensures stops { IfErr result (λ fault. (run : Run) (net : Network) → IsCycleOf run net table.now.cycle → IsTableOf run table.now →
        AllStandHalfway run net table.now.cycle (all_of run net table.now.cycle) bridges.old.items → IsFaultInCycle run net table.now.cycle fault) }
{
    for index in 0..bridges.len() {
        let dropped = match receive_one(alloc, &mut bridges[index], table) {
            Ok(dropped) => dropped,
            Err(fault) => return Err(fault),
        };
        drops.extend_from_slice(dropped.as_slice())?;
    }
    Ok(())
}
