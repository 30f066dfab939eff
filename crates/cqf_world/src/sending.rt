//! A bridge sends its cycle, and its batches are put on the links.
ghost use Rattle.std.specs.Prelude.{◌≡◌, ◌<◌, IfOk, OnErr, OnOk, false, length, map};
ghost use Rattle.cqf_bridge.specs.BridgeState.{AreBackedOf, IsNextToSend};
ghost use Rattle.cqf_agenda.specs.Agenda.{background_at};
ghost use Rattle.cqf_world.specs.Parts.{AreComing, SendsItsCycle, SendsOut, taken_of};
ghost use Rattle.cqf_model.specs.Limits.{most_cycles};

use crate::inbox::bridge_at_end;
use crate::parts::{Line, WorldBridge};
use cqf_bridge::{Batch, BridgeFault, starts_of};
use cqf_topology::Domain;
use cqf_units::{Cycle, Memory};
use std::alloc::{AllocError, Global};

/// Sends the cycle of a bridge and returns the batches. The bridge keeps the starts of streams' frames on its links for its page.
pub(crate) fn send_cycle(
    alloc: Global,
    bridge_driven: &mut WorldBridge,
) -> Result<Vec<Batch>, Memory>
    requires early { bridge_driven.old.posted < most_cycles }
    requires next { IsNextToSend bridge_driven.old.bridge bridge_driven.old.posted }
    requires goes_on { bridge_driven.old.bridge.spent ≡ false }
    requires backed { AreBackedOf bridge_driven.old.bridge.domain bridge_driven.old.bridge.number bridge_driven.old.posted
        (background_at bridge_driven.old.agenda bridge_driven.old.posted) }
    ensures ok { IfOk result (λ batches. SendsItsCycle bridge_driven.old bridge_driven.new batches.items) }
    ensures given { bridge_driven.new.given ≡ bridge_driven.old.given }
    ensures sent { bridge_driven.new.sent ≡ bridge_driven.old.sent }
    ensures posted { bridge_driven.new.posted ≡ bridge_driven.old.posted }
{
    let cycle = Cycle(bridge_driven.posted);
    let mut batches = Vec::new(alloc);
    let background = bridge_driven.agenda.background(cycle);
    match bridge_driven
        .bridge
        .send(alloc, cycle, background, &mut batches)
    {
        Ok(()) => {}
        Err(BridgeFault::Memory) => return Err(AllocError),
        Err(_) => unreachable!(),
    }
    bridge_driven.starts = starts_of(alloc, batches.as_slice())?;
    Ok(batches)
}

/// Puts each batch on its link after those under way, if the link ends in a bridge.
pub(crate) fn put_all(
    domain: &Domain,
    lines: &mut Vec<Line>,
    batches: Vec<Batch>,
) -> Result<(), Memory>
    requires { length lines.old.items ≡ length domain.now.links }
    ensures coming { OnOk result (AreComing domain.now batches.items lines.old.items lines.new.items) }
    ensures counts { map taken_of lines.new.items ≡ map taken_of lines.old.items }
{
    for batch in batches {
        let link = batch.link();
        if let Some(_bridge) = bridge_at_end(domain, link) {
            lines[usize::from(link)].waiting.push_back(batch)?;
        }
    }
    Ok(())
}

/// Sends the cycle of a bridge, and puts its batches on their links.
pub(crate) fn send_all(
    alloc: Global,
    domain: &Domain,
    bridge_driven: &mut WorldBridge,
    lines: &mut Vec<Line>,
) -> Result<(), Memory>
    requires as_many { length lines.old.items ≡ length domain.now.links }
    requires early { bridge_driven.old.posted < most_cycles }
    requires next { IsNextToSend bridge_driven.old.bridge bridge_driven.old.posted }
    requires goes_on { bridge_driven.old.bridge.spent ≡ false }
    requires backed { AreBackedOf bridge_driven.old.bridge.domain bridge_driven.old.bridge.number bridge_driven.old.posted
        (background_at bridge_driven.old.agenda bridge_driven.old.posted) }
    ensures ok { OnOk result (SendsOut domain.now bridge_driven.old bridge_driven.new lines.old.items lines.new.items) }
    ensures err_driven { OnErr result (bridge_driven.new.given ≡ bridge_driven.old.given) }
    ensures err_sent { OnErr result (bridge_driven.new.sent ≡ bridge_driven.old.sent) }
    ensures err_lines { OnErr result (map taken_of lines.new.items ≡ map taken_of lines.old.items) }
{
    let batches = send_cycle(alloc, bridge_driven)?;
    put_all(domain, lines, batches)?;
    bridge_driven.sent = bridge_driven.posted + 1;
    Ok(())
}
