//! The bridges send a cycle.
ghost use Rattle.std.specs.Prelude.{◌≡◌, ◌++◌, ◌<◌, ℕ, IfOk, OnOk};
ghost use Rattle.cqf_model.specs.Network.{Network};
ghost use Rattle.cqf_model.specs.Run.{Run};
ghost use Rattle.cqf_bridge.specs.Follows.{batches_from};
ghost use Rattle.cqf_plain.specs.Driven.{AllStandBefore, HaveAllSentCycle, IsCycleOf, StandsBeforeCycle, StandsHalfway, none_yet};
ghost use Rattle.cqf_model.specs.Limits.{most_cycles};

use crate::driven::RunBridge;
use cqf_bridge::{Batch, BridgeFault, new_bridge_follows, no_other_fault, sending_follows};
use cqf_units::{Cycle, Memory};
use std::alloc::{AllocError, Global};

/// Sends a cycle at a bridge. Its batches are appended to those of the bridges before it, by link number.
fn send_one(
    alloc: Global,
    driven: &mut RunBridge,
    cycle: Cycle,
    batches: &mut Vec<Batch>,
) -> Result<(), Memory>
    requires early { cycle.0 < most_cycles }
    requires part { (run : Run) × (net : Network) × (bridge : ℕ) × IsCycleOf run net cycle.0 × StandsBeforeCycle run net cycle.0 bridge driven.old }
    ensures halfway { OnOk result ((run : Run) (net : Network) (bridge : ℕ) → IsCycleOf run net cycle.0 →
        StandsBeforeCycle run net cycle.0 bridge driven.old → StandsHalfway run net cycle.0 none_yet bridge driven.new) }
    ensures sends { OnOk result ((run : Run) (net : Network) (bridge : ℕ) → IsCycleOf run net cycle.0 →
        StandsBeforeCycle run net cycle.0 bridge driven.old →
        batches.new.items ≡ batches.old.items ++ batches_from run.domain net.carried bridge cycle.0) }
{
    new_bridge_follows();
    sending_follows();
    no_other_fault();
    let background = driven.agenda.background(cycle);
    match driven.bridge.send(alloc, cycle, background, batches) {
        Ok(()) => Ok(()),
        Err(BridgeFault::Memory) => Err(AllocError),
        // each bridge is at the cycle
        Err(_) => unreachable!(),
    }
}

/// Sends a cycle at all bridges. Returns their batches, bridge by bridge, each bridge's by link number.
pub(crate) fn send_all(
    alloc: Global,
    bridges: &mut Vec<RunBridge>,
    cycle: Cycle,
) -> Result<Vec<Batch>, Memory>
    requires early { cycle.0 < most_cycles }
    requires part { (run : Run) × (net : Network) × IsCycleOf run net cycle.0 × AllStandBefore run net cycle.0 bridges.old.items }
    ensures { IfOk result (λ batches. (run : Run) (net : Network) → IsCycleOf run net cycle.0 → AllStandBefore run net cycle.0 bridges.old.items →
        HaveAllSentCycle run net cycle.0 bridges.new.items batches.items) }
{
    let mut batches = Vec::new(alloc);
    for index in 0..bridges.len() {
        send_one(alloc, &mut bridges[index], cycle, &mut batches)?;
    }
    Ok(batches)
}
