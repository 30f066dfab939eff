//! The batches that a bridge has taken, and the bridge in which a link ends.
ghost use Rattle.std.specs.Prelude.{◌≡◌, ◌<◌, ◌≤◌, IfNone, IfSome, OnErr, OnOk, ℕ, false, filter, length, nat_lt, true};
ghost use Rattle.std.specs.List.{insert};
ghost use Rattle.cqf_model.specs.Domain.{enters};
ghost use Rattle.cqf_bridge.specs.Batch.{LinkBatch};
ghost use Rattle.cqf_world.specs.Parts.{Moves};
ghost use Rattle.cqf_model.specs.Limits.{most_cycles};

use crate::parts::{Line, WorldBridge};
use cqf_bridge::Batch;
use cqf_model::Node;
use cqf_topology::Domain;
use cqf_units::Memory;

/// Returns the bridge in which a link ends, if the domain has the link and it ends in a bridge.
pub(crate) fn bridge_at_end(domain: &Domain, link: u16) -> Option<u16>
    ensures some { IfSome result (λ bridge. (enters domain.now link bridge ≡ true) × (bridge < length domain.now.bridges)) }
    ensures none { IfNone result ((bridge : ℕ) → enters domain.now link bridge ≡ false) }
{
    domain.know();
    if link >= domain.links() {
        return None;
    }
    match domain.link(link).to {
        Node::Bridge(bridge) => Some(bridge),
        Node::Station(_) => None,
    }
}

/// Returns how many of the batches are of links with a lower number than `link`.
fn index_of(taken: &[Batch], link: u16) -> usize
    ensures value { result ≡ length (filter (λ (x : LinkBatch). nat_lt x.link link) taken.now) }
    ensures within { result ≤ length taken.now }
{
    let mut index = 0;
    for other in taken {
        if other.link() < link {
            index += 1;
        }
    }
    index
}

/// Inserts a batch among those that were taken, by link number.
pub(crate) fn put_in(taken: &mut Vec<Batch>, batch: Batch) -> Result<(), Memory>
    ensures { OnOk result (taken.new.items
        ≡ insert taken.old.items (length (filter (λ (x : LinkBatch). nat_lt x.link batch.link) taken.old.items)) batch) }
{
    let index = index_of(taken.as_slice(), batch.link());
    taken.insert(index, batch)?;
    Ok(())
}

/// Returns whether no batch is under way on a link.
pub(crate) fn is_quiet(line: &Line) -> bool
    ensures yes { result ≡ true → length line.now.waiting.items ≡ 0 }
    ensures no { result ≡ false → 0 < length line.now.waiting.items }
{
    line.waiting.is_empty()
}

/// Moves the oldest batch under way on a link to the bridge in which the link ends. There is at least one.
pub(crate) fn move_batch(line: &mut Line, bridge_driven: &mut WorldBridge) -> Result<(), Memory>
    requires some { 0 < length line.old.waiting.items }
    requires few { line.old.taken < most_cycles }
    ensures ok { OnOk result (Moves line.old line.new bridge_driven.old bridge_driven.new) }
    ensures err_line { OnErr result (line.new.taken ≡ line.old.taken) }
    ensures err_driven { OnErr result (bridge_driven.new ≡ record bridge_driven.old { taken = bridge_driven.new.taken }) }
{
    let Some(batch) = line.waiting.pop_front() else {
        unreachable!()
    };
    put_in(&mut bridge_driven.taken, batch)?;
    line.taken += 1;
    Ok(())
}
