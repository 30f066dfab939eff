//! The next starts of the bridges' ports, in order.
ghost use Rattle.std.specs.Prelude.{◌≡◌, ◌++◌, ◌∷◌, [], IfOk, List, OnOk, true};
ghost use Rattle.cqf_bridge.specs.PortRecord.{PortRecord};
ghost use Rattle.cqf_bridge.specs.Quiet.{IsNextStartOf};
ghost use Rattle.cqf_plain.specs.Due.{AreNextStarts, NoneBefore, ports_of};

use crate::driven::RunBridge;
use cqf_bridge::Bridge;
use cqf_units::{Memory, Nanos};
use std::alloc::Global;
use std::collections::BTreeMap;

/// Records a next start, if there is one, with the number of its bridge.
fn note(
    next: Option<(Nanos, u16)>,
    bridge: u16,
    due: &mut BTreeMap<(Nanos, u16), u16>,
) -> Result<(), Memory>
    ensures { OnOk result ((ports : List PortRecord) (r : PortRecord) → AreNextStarts due.old.entries ports → IsNextStartOf r next →
        AreNextStarts due.new.entries (ports ++ r ∷ [])) }
{
    match next {
        Some(moment) => {
            due.insert(moment, bridge)?;
            Ok(())
        }
        None => Ok(()),
    }
}

/// Records the next start of each port of a bridge: by instant, then link, with the bridge's number.
fn note_starts(bridge: &Bridge, due: &mut BTreeMap<(Nanos, u16), u16>) -> Result<(), Memory>
    ensures { OnOk result ((ports : List PortRecord) → AreNextStarts due.old.entries ports → AreNextStarts due.new.entries (ports ++ bridge.now.ports)) }
{
    for index in 0..bridge.links() {
        note(bridge.next_start(index), bridge.number(), due)?;
    }
    Ok(())
}

/// Returns the next start of each port of the bridges, if nothing more arrives at it: by instant, then link, with the bridge's number.
pub(crate) fn next_starts(
    alloc: Global,
    bridges: &[RunBridge],
) -> Result<BTreeMap<(Nanos, u16), u16>, Memory>
    ensures { IfOk result (λ due. AreNextStarts due.entries (ports_of bridges.now)) }
{
    let mut due = BTreeMap::new(alloc);
    for index in 0..bridges.len() {
        note_starts(&bridges[index].bridge, &mut due)?;
    }
    Ok(due)
}

/// Returns whether no port starts a frame before an instant: the least of the next starts isn't before it.
pub(crate) fn none_before(due: &BTreeMap<(Nanos, u16), u16>, end: Nanos) -> bool
    ensures { result ≡ true → NoneBefore end.0 due.now.entries }
{
    match due.first_key_value() {
        Some((first, _)) => {
            let (instant, _) = *first;
            end.0 <= instant.0
        }
        None => true,
    }
}
