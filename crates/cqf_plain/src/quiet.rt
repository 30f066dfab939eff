//! The bridges pass over a cycle in which nothing happens.
ghost use Rattle.std.specs.Prelude.{◌≡◌, Contains, OnOk, map, true};
ghost use Rattle.cqf_bridge.specs.Quiet.{MayPass};
ghost use Rattle.cqf_plain.specs.declared.driven.RunBridge.{RunBridge as ARunBridge};
ghost use Rattle.cqf_plain.specs.Due.{HasNothing, NothingComes, driven_past};

use crate::driven::RunBridge;
use cqf_units::{Cycle, Memory};

/// Returns whether the run has neither offers nor background frames for a bridge in a cycle.
fn has_nothing(driven: &RunBridge, cycle: Cycle) -> bool
    ensures { result ≡ true → HasNothing cycle.0 driven.now }
{
    let offers = driven.agenda.offers(cycle);
    let background = driven.agenda.background(cycle);
    if !offers.is_empty() {
        return false;
    }
    background.is_empty()
}

/// Returns whether the run has neither offers nor background frames for any bridge in a cycle.
pub(crate) fn nothing_comes(bridges: &[RunBridge], cycle: Cycle) -> bool
    ensures { result ≡ true → NothingComes cycle.0 bridges.now }
{
    for index in 0..bridges.len() {
        if !has_nothing(&bridges[index], cycle) {
            return false;
        }
    }
    true
}

/// Passes over a cycle at a bridge.
fn pass_one(driven: &mut RunBridge, cycle: Cycle) -> Result<(), Memory>
    requires { MayPass driven.old.bridge cycle.0 }
    ensures { OnOk result (driven.new ≡ driven_past cycle.0 driven.old) }
{
    driven.bridge.pass(cycle)?;
    Ok(())
}

/// Passes over a cycle at all bridges.
pub(crate) fn pass_all(bridges: &mut Vec<RunBridge>, cycle: Cycle) -> Result<(), Memory>
    requires { (s : ARunBridge) → Contains bridges.old.items s → MayPass s.bridge cycle.0 }
    ensures { OnOk result (bridges.new.items ≡ map (driven_past cycle.0) bridges.old.items) }
{
    for index in 0..bridges.len() {
        pass_one(&mut bridges[index], cycle)?;
    }
    Ok(())
}
