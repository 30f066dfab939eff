//! What the bridges have sent goes into the book, and along the links.
ghost use Rattle.std.specs.Prelude.{◌≡◌, ◌<◌, ℕ, IfNone, IfSome, OnOk, false, length, true};
ghost use Rattle.cqf_model.specs.declared.frames.Started.{Started as AStarted};
ghost use Rattle.cqf_model.specs.Book.{contents_of};
ghost use Rattle.cqf_model.specs.Domain.{enters};
ghost use Rattle.cqf_model.specs.Network.{Network};
ghost use Rattle.cqf_model.specs.Run.{Run};
ghost use Rattle.cqf_laws_cycle.specs.Gathered.{IsInOrderOf};
ghost use Rattle.cqf_bridge.specs.Batch.{LinkBatch};
ghost use Rattle.cqf_plain.specs.SoFar.{ListsCycle};
ghost use Rattle.cqf_plain.specs.Driven.{AllStandHalfway, AreHandedOut, HaveAllSentCycle, IsCycleOf, ListsBackground, all_of};

use crate::driven::RunBridge;
use cqf_bridge::{Batch, starts_of};
use cqf_model::{Book, Node, Started};
use cqf_topology::Domain;
use cqf_units::Memory;
use std::alloc::Global;

/// Returns the bridge in which a link ends, if the domain has the link and it ends in one.
fn bridge_at_end(domain: &Domain, link: u16) -> Option<u16>
    ensures some { IfSome result (λ bridge. (enters domain.now link bridge ≡ true) × (bridge < length domain.now.bridges)) }
    ensures only { IfSome result (λ bridge. (other : ℕ) → enters domain.now link other ≡ true → other ≡ bridge) }
    ensures none { IfNone result ((bridge : ℕ) → enters domain.now link bridge ≡ false) }
{
    domain.know();
    if link >= domain.links() {
        return None;
    }
    match domain.link(link).to {
        Node::Bridge(bridge) => Some(bridge),
        Node::Station(_) => None,
    }
}

/// Hands out batches: each is appended to those at the bridge in which its link ends, if it ends in one.
fn hand_out(
    domain: &Domain,
    batches: Vec<Batch>,
    bridges: &mut Vec<RunBridge>,
) -> Result<(), Memory>
    requires { length bridges.old.items ≡ length domain.now.bridges }
    ensures { OnOk result (AreHandedOut domain.now batches.items bridges.old.items bridges.new.items) }
{
    for batch in batches {
        if let Some(bridge) = bridge_at_end(domain, batch.link()) {
            bridges[usize::from(bridge)].inbox.push(batch)?;
        }
    }
    Ok(())
}

/// Sorts batches by link, keeping the order of those of one link.
fn sort_batches(batches: &mut Vec<Batch>) -> Result<(), Memory>
    ensures { OnOk result (IsInOrderOf (λ (x : LinkBatch). x.link) batches.old.items batches.new.items) }
{
    batches.sort_by_key(|batch| batch.link())?;
    Ok(())
}

/// Sorts starts by link, keeping the order of those of one link.
fn sort_by_link(starts: &mut Vec<Started>) -> Result<(), Memory>
    ensures { OnOk result (IsInOrderOf (λ (x : AStarted). x.link) starts.old.items starts.new.items) }
{
    starts.sort_by_key(|start| start.link)?;
    Ok(())
}

/// Appends the background frames that the bridges started in the cycle that they sent last, by link.
fn list_background(
    alloc: Global,
    bridges: &[RunBridge],
    background: &mut Vec<Started>,
) -> Result<(), Memory>
    ensures { OnOk result (ListsBackground bridges.now background.old.items background.new.items) }
{
    let mut here = Vec::new(alloc);
    for driven in bridges {
        here.extend_from_slice(driven.bridge.background_starts())?;
    }
    sort_by_link(&mut here)?;
    background.extend_from_slice(here.as_slice())?;
    Ok(())
}

/// Puts what the bridges have sent in a cycle, bridge by bridge, into the book, by link, and hands it along each link to the bridge in
/// which the link ends.
pub(crate) fn pass_on(
    alloc: Global,
    domain: &Domain,
    sent: Vec<Batch>,
    bridges: &mut Vec<RunBridge>,
    book: &mut Book,
) -> Result<(), Memory>
    requires part { (run : Run) × (net : Network) × (cycle : ℕ) × (run.domain ≡ domain.now) × IsCycleOf run net cycle
        × HaveAllSentCycle run net cycle bridges.old.items sent.items }
    ensures handed { OnOk result ((run : Run) (net : Network) (cycle : ℕ) → run.domain ≡ domain.now → IsCycleOf run net cycle →
        HaveAllSentCycle run net cycle bridges.old.items sent.items → AllStandHalfway run net cycle (all_of run net cycle) bridges.new.items) }
    ensures listed { OnOk result ((run : Run) (net : Network) (cycle : ℕ) → run.domain ≡ domain.now → IsCycleOf run net cycle →
        HaveAllSentCycle run net cycle bridges.old.items sent.items → ListsCycle run net cycle (contents_of book.old) (contents_of book.new)) }
{
    let mut batches = sent;
    sort_batches(&mut batches)?;
    let starts = starts_of(alloc, batches.as_slice())?;
    book.starts.extend_from_slice(starts.as_slice())?;
    list_background(alloc, bridges.as_slice(), &mut book.background)?;
    hand_out(domain, batches, bridges)?;
    Ok(())
}
