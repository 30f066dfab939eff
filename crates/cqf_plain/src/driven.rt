//! A bridge that is driven through a run.
ghost use Rattle.std.specs.Prelude.{◌^◌, ◌<◌, IfOk, length};
ghost use Rattle.cqf_plain.specs.Driven.{IsNewlyDriven};
ghost use Rattle.cqf_plain.specs.Turns.{EachIs};

use cqf_agenda::Agenda;
use cqf_bridge::{Batch, Bridge};
use cqf_compile::Plan;
use cqf_model::{Background, Offer};
use cqf_units::Memory;
use std::alloc::Global;

/// A bridge, with the run's input for it and the batches that have arrived at it.
#[derive(Debug, Drop)]
pub(crate) struct RunBridge {
    pub(crate) bridge: Bridge,
    pub(crate) agenda: Agenda,
    /// The batches of its cycle that have arrived by the links that end in it, by link number.
    pub(crate) inbox: Vec<Batch>,
}

/// Returns a bridge of the plan that has done nothing.
fn new_driven(
    alloc: Global,
    plan: &Plan,
    offers: &[Offer],
    background: &[Background],
    bridge: u16,
) -> Result<RunBridge, Memory>
    requires inside { bridge < length plan.now.bridges }
    requires few_offers { length offers.now < 2 ^ 32 }
    requires few_background { length background.now < 2 ^ 32 }
    ensures { IfOk result (IsNewlyDriven plan.now offers.now background.now bridge) }
{
    Ok(RunBridge {
        bridge: Bridge::new(alloc, plan, bridge)?,
        agenda: Agenda::new(alloc, plan.domain(), offers, background, bridge)?,
        inbox: Vec::new(alloc),
    })
}

/// Returns the bridges of the plan, which have done nothing, by number.
pub(crate) fn new_bridges(
    alloc: Global,
    plan: &Plan,
    offers: &[Offer],
    background: &[Background],
) -> Result<Vec<RunBridge>, Memory>
    requires few_offers { length offers.now < 2 ^ 32 }
    requires few_background { length background.now < 2 ^ 32 }
    ensures { IfOk result (λ bridges.
        EachIs (IsNewlyDriven plan.now offers.now background.now) (length plan.now.bridges) bridges.items) }
{
    let mut bridges = Vec::new(alloc);
    for bridge in 0..plan.domain().bridges() {
        bridges.push(new_driven(alloc, plan, offers, background, bridge)?)?;
    }
    Ok(bridges)
}
