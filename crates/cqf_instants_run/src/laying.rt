//! The trees of streams, one after the other.
ghost use Rattle.std.specs.Prelude.{◌≡◌, ◌+◌, ◌<◌, ◌≤◌, ◌^◌, ◌&&◌, All, IfOk, length};
ghost use Rattle.cqf_instants_run.specs.Laid.{AreLaid, HaveLowLinks, LaysStream, is_live_below};
ghost use Rattle.cqf_model.specs.Limits.{most_calls};

use cqf_instants::{Group, LaidHop, lay_tree};
use cqf_model::Row;
use cqf_units::Memory;
use std::alloc::Global;

/// Returns whether a stream is live in one of the first `cycles` cycles.
fn is_live_below(row: &Row, cycles: u32) -> bool
    ensures { result ≡ is_live_below cycles row.now }
{
    row.admitted.0 < cycles && row.live(row.admitted)
}

/// Returns an empty group for each of 4,096 links, as working memory for one tree.
fn no_groups(alloc: Global) -> Result<Vec<Group>, Memory>
    ensures { IfOk result (λ groups. length groups.items ≡ 4096) }
{
    Ok(vec![in alloc; Group { first: 0, many: 0 }; 4096]?)
}

/// Lays a stream's tree after the branches if the stream is live in one of the first `cycles` cycles. `groups` is working memory.
fn lay_stream(
    row: &Row,
    cycles: u32,
    groups: &mut Vec<Group>,
    branches: &mut Vec<LaidHop>,
) -> Result<Group, Memory>
    requires links { All (λ hop. hop.link < 4096) row.now.tree.items }
    requires indices { length groups.old.items ≡ 4096 }
    requires room { length branches.old.items + 40400 < 2 ^ 32 }
    ensures indices { IfOk result (λ _. length groups.new.items ≡ 4096) }
    ensures lays { IfOk result (λ group. LaysStream cycles row.now branches.old.items branches.new.items group) }
{
    if is_live_below(row, cycles) {
        lay_tree(row.tree.as_slice(), groups, branches)
    } else {
        Ok(Group { first: 0, many: 0 })
    }
}

/// Lays the trees of the streams that are live in one of the first `cycles` cycles, one after the other. No frame takes the tree of another
/// stream. Returns the hops and, for each stream by index, the group of its hops from the edge bridge. There are at most 100,000 streams,
/// and their links have numbers below 4,096. The time grows with the hops.
///
/// # Errors
/// Returns `Memory` if an allocation fails.
pub fn lay_streams(
    alloc: Global,
    cycles: u32,
    rows: &[Row],
) -> Result<(Vec<LaidHop>, Vec<Group>), Memory>
    requires few { length rows.now ≤ most_calls }
    requires links { HaveLowLinks rows.now }
    ensures { IfOk result (λ laid. AreLaid cycles rows.now (length rows.now) laid.0.items laid.1.items) }
{
    let mut following = no_groups(alloc)?;
    let mut branches = Vec::new(alloc);
    let mut groups = Vec::with_capacity(alloc, rows.len())?;
    for row in rows {
        let group = lay_stream(row, cycles, &mut following, &mut branches)?;
        groups.push(group)?;
    }
    Ok((branches, groups))
}
