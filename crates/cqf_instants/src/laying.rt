//! A tree's hops, laid out group by group.
ghost use Rattle.std.specs.Prelude.{◌≡◌, ◌+◌, ◌<◌, ◌≤◌, ◌^◌, All, IfOk, length};
ghost use Rattle.cqf_instants.specs.LaidTrees.{AreAfter, AreTied, HaveLinks, IsLaidBranch};

use crate::{LaidHop, lay_group};
use cqf_model::Hop;
use cqf_units::Memory;

/// The index of the first of the hops that follow one link, or that begin at the edge, and their number. The hops are contiguous.
#[derive(Clone, Copy, Debug, PartialEq, Eq)]
pub struct Group {
    pub first: u32,
    pub many: u32,
}

/// Appends, for each hop of a tree, the hops that follow it, and notes their group by link.
fn lay_groups(
    tree: &[Hop],
    groups: &mut Vec<Group>,
    branches: &mut Vec<LaidHop>,
) -> Result<(), Memory>
    requires few { length tree.now ≤ 200 }
    requires links { All (λ hop. hop.link < 4096) tree.now }
    requires indices { length groups.old.items ≡ 4096 }
    requires room { length branches.old.items + 40200 < 2 ^ 32 }
    ensures { IfOk result (λ _. AreAfter tree.now branches.old.items branches.new.items (length tree.now) groups.new.items) }
{
    for hop in tree {
        let first = branches.len() as u32;
        let many = lay_group(tree, Some(hop.link), branches)?;
        groups[usize::from(hop.link)] = Group { first, many };
    }
    Ok(())
}

/// Makes each branch from an index on refer to the group of its link.
fn tie(branches: &mut Vec<LaidHop>, from: usize, groups: &[Group])
    requires within { from ≤ length branches.old.items }
    requires links { HaveLinks branches.old.items from }
    requires few { length groups.now ≡ 4096 }
    ensures { AreTied branches.old.items branches.new.items from (length branches.old.items) groups.now }
{
    for index in from..branches.len() {
        let link = branches[index].link;
        let Group { first, many } = groups[usize::from(link)];
        branches[index] = LaidHop {
            link,
            next: first,
            many,
        };
    }
}

/// Appends a tree to the branches: first the hops from the edge, whose group it returns, then for each hop of the tree the hops
/// that follow it. Each appended branch refers to the group of the hops that follow its link.
///
/// Link numbers are below 4096, a tree has at most 200 hops, and there are fewer than 2^32 - 40,400 branches. `groups` has 4096 entries,
/// one for each link number, and is scratch space: its contents before the call don't matter, and it can be reused for the next tree.
///
/// # Errors
///
/// Returns `Memory` if an allocation fails; some branches may then have been appended.
pub fn lay_tree(
    tree: &[Hop],
    groups: &mut Vec<Group>,
    branches: &mut Vec<LaidHop>,
) -> Result<Group, Memory>
    requires few { length tree.now ≤ 200 }
    requires links { All (λ hop. hop.link < 4096) tree.now }
    requires indices { length groups.old.items ≡ 4096 }
    requires room { length branches.old.items + 40400 < 2 ^ 32 }
    ensures indices { IfOk result (λ _. length groups.new.items ≡ 4096) }
    ensures laid { IfOk result (λ group. IsLaidBranch tree.now branches.old.items branches.new.items group) }
{
    let from = branches.len();
    let first = from as u32;
    let many = lay_group(tree, None, branches)?;
    lay_groups(tree, groups, branches)?;
    tie(branches, from, groups.as_slice());
    Ok(Group { first, many })
}
