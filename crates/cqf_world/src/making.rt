//! The initial content of a world.
ghost use Rattle.std.specs.Prelude.{◌^◌, ◌<◌, IfOk, length};
ghost use Rattle.cqf_world.specs.Beginning.{AreNewLines, AreNewDriven, IsNewDriven};

use crate::parts::{Line, WorldBridge};
use cqf_agenda::Agenda;
use cqf_bridge::{Bridge, incoming_links};
use cqf_compile::Plan;
use cqf_model::{Background, Offer};
use cqf_topology::Domain;
use cqf_units::Memory;
use std::alloc::Global;
use std::collections::VecDeque;

/// Returns a bridge of the plan that has done nothing.
fn new_driven(
    alloc: Global,
    plan: &Plan,
    offers: &[Offer],
    background: &[Background],
    bridge: u16,
) -> Result<WorldBridge, Memory>
    requires inside { bridge < length plan.now.bridges }
    requires few_offers { length offers.now < 2 ^ 32 }
    requires few_background { length background.now < 2 ^ 32 }
    ensures { IfOk result (IsNewDriven plan.now offers.now background.now bridge) }
{
    let domain = plan.domain();
    Ok(WorldBridge {
        bridge: Bridge::new(alloc, plan, bridge)?,
        agenda: Agenda::new(alloc, domain, offers, background, bridge)?,
        incoming: incoming_links(domain, bridge).len(),
        given: 0,
        sent: 0,
        posted: 0,
        starts: Vec::new(alloc),
        taken: Vec::new(alloc),
    })
}

/// Returns the bridges of the plan, by number, which have done nothing.
pub(crate) fn new_driven_bridges(
    alloc: Global,
    plan: &Plan,
    offers: &[Offer],
    background: &[Background],
) -> Result<Vec<WorldBridge>, Memory>
    requires few_offers { length offers.now < 2 ^ 32 }
    requires few_background { length background.now < 2 ^ 32 }
    ensures { IfOk result (λ driven.
        AreNewDriven plan.now offers.now background.now (length plan.now.bridges) driven.items) }
{
    let mut driven = Vec::new(alloc);
    for bridge in 0..plan.domain().bridges() {
        driven.push(new_driven(alloc, plan, offers, background, bridge)?)?;
    }
    Ok(driven)
}

/// Returns the links of a domain, by number, with no batch under way.
pub(crate) fn new_lines(alloc: Global, domain: &Domain) -> Result<Vec<Line>, Memory>
    ensures { IfOk result (λ lines. AreNewLines (length domain.now.links) lines.items) }
{
    let mut lines = Vec::new(alloc);
    for _link in 0..domain.links() {
        lines.push(Line {
            taken: 0,
            waiting: VecDeque::new(alloc),
        })?;
    }
    Ok(lines)
}
