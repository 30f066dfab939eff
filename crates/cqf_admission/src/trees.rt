//! The tree of a request's branches.
ghost use Rattle.std.specs.Prelude.{◌≡◌, ◌<◌, ◌≤◌, ◌==◌, ◌^◌, All, List, fold, is_none, length, position};
ghost use Rattle.cqf_model.specs.declared.topology.Hop.{Hop as HopValue};
ghost use Rattle.std.specs.List.{flat_map, list_any};
ghost use Rattle.cqf_model.specs.Domain.{node_named};
ghost use Rattle.cqf_model.specs.History.{broken_index, first_index, hops_along, is_loop_at, tree_of};
ghost use Rattle.cqf_admission.specs.Branches.{AreAsFarAsRoom, AreNodes, FindsTree, branch_of, branches_of, indices_of, keep_link};

use crate::branches::{Check, first_fault_of, link_after, nodes_after, nodes_of, stray_branch};
use arrayvec::ArrayVec;
use cqf_model::{Hop, MOST_HOPS, Node, Refused};
use cqf_topology::Domain;

/// Returns whether one of the hops uses the link.
fn has_link(tree: &[Hop], link: u16) -> bool
    ensures { result ≡ list_any (λ hop. hop.link == link) tree.now }
{
    tree.iter().any(|hop| hop.link == link)
}

/// Appends a hop to a tree, if no hop of the tree uses its link and there is room.
fn add_hop(tree: &mut ArrayVec<Hop, 201>, hop: Hop)
    ensures { (whole : List HopValue) → AreAsFarAsRoom tree.old.items whole → AreAsFarAsRoom tree.new.items (keep_link whole hop) }
{
    if tree.len() > MOST_HOPS {
        return;
    }
    if has_link(tree.as_slice(), hop.link) {
        return;
    }
    tree.push(hop);
}

/// Adds the hops of a branch of at most 65 nodes to a tree, as far as there is room.
fn add_branch(
    domain: &Domain,
    nodes: &[Option<Node>],
    tree: &mut ArrayVec<Hop, 201>,
    branch: &[String],
)
    requires nodes { AreNodes domain.now (branch_of branch.now) nodes.now }
    requires few_nodes { length branch.now ≤ 65 }
    ensures { (whole : List HopValue) → AreAsFarAsRoom tree.old.items whole →
        AreAsFarAsRoom tree.new.items (fold keep_link whole (hops_along domain.now (branch_of branch.now))) }
{
    let mut before = None;
    for index in 0..branch.len().saturating_sub(1) {
        let link = link_after(domain, nodes, branch, index);
        if let Some(link) = link {
            let hop = Hop {
                link,
                hop_number: index as u8 + 1,
                from: before,
            };
            add_hop(tree, hop);
        }
        before = link;
    }
}

/// Returns the tree of branches of at most 65 nodes each: their hops, each link once, in the order of first occurrence, as far as there is
/// room.
fn tree_along(domain: &Domain, nodes: &[Option<Node>], paths: &[Vec<String>]) -> ArrayVec<Hop, 201>
    requires few { All (λ branch. length branch ≤ 65) (branches_of paths.now) }
    requires nodes { AreNodes domain.now (flat_map (λ branch. branch) (branches_of paths.now)) nodes.now }
    ensures { AreAsFarAsRoom result.items (tree_of domain.now (branches_of paths.now)) }
{
    let mut tree = ArrayVec::new();
    let mut rest = nodes;
    for branch in paths {
        add_branch(domain, rest, &mut tree, branch.as_slice());
        rest = nodes_after(rest, branch.len());
    }
    tree
}

/// Returns the hops of a tree that has at most 200 of them.
pub(crate) fn fitted(hops: &[Hop]) -> ArrayVec<Hop, 200>
    requires { length hops.now ≤ 200 }
    ensures { result.items ≡ hops.now }
{
    let mut tree = ArrayVec::new();
    tree.try_extend_from_slice(hops).unwrap();
    tree
}

/// Returns the first index of the branches whose node the domain lacks.
fn unknown_index_of(domain: &Domain, nodes: &[Option<Node>], paths: &[Vec<String>]) -> Option<usize>
    requires few { indices_of (branches_of paths.now) < 2 ^ 64 }
    requires nodes { AreNodes domain.now (flat_map (λ branch. branch) (branches_of paths.now)) nodes.now }
    ensures { result ≡ position (λ name. is_none (node_named domain.now name)) (flat_map (λ branch. branch) (branches_of paths.now)) }
{
    first_fault_of(domain, Check::Known, nodes, paths)
}

/// Returns the first index at which the branches are broken, or 0 if there is no branch.
fn broken_index_of(domain: &Domain, nodes: &[Option<Node>], paths: &[Vec<String>]) -> Option<usize>
    requires few { indices_of (branches_of paths.now) < 2 ^ 64 }
    requires nodes { AreNodes domain.now (flat_map (λ branch. branch) (branches_of paths.now)) nodes.now }
    ensures { result ≡ broken_index domain.now (branches_of paths.now) }
{
    if paths.len() == 0 {
        return Some(0);
    }
    first_fault_of(domain, Check::Whole, nodes, paths)
}

/// Returns the first index of the branches whose node occurred earlier in its branch.
fn looping_index_of(domain: &Domain, nodes: &[Option<Node>], paths: &[Vec<String>]) -> Option<usize>
    requires few { indices_of (branches_of paths.now) < 2 ^ 64 }
    requires nodes { AreNodes domain.now (flat_map (λ branch. branch) (branches_of paths.now)) nodes.now }
    ensures { result ≡ first_index (is_loop_at domain.now) (branches_of paths.now) }
{
    first_fault_of(domain, Check::Simple, nodes, paths)
}

/// Returns the tree of branches: their hops, each link once, in the order of first occurrence. The branches have fewer than 2^64 names
/// together, as [`count_indices`](crate::count_places) finds.
///
/// # Errors
/// The first reason why they are no tree. Each is checked over all branches before the next. Indexes count from 0 through all branches.
/// - `UnknownNode` with the first index whose node the domain lacks.
/// - `BrokenPath` with the first index at which a branch is broken: no link leads there from the node before, the branch doesn't begin with
///   a bridge or ends with one, or as many nodes as a branch may have come before it. It is 0 if there is no branch.
/// - `LoopingPath` with the first index whose node occurred earlier in its branch.
/// - `NotATree` with the number, from 0, of the first branch that begins elsewhere than an earlier branch, or doesn't part from it for
///   good.
/// - `TooManyHops` if the tree has more hops than the domain's limits allow.
pub fn find_tree(domain: &Domain, paths: &[Vec<String>]) -> Result<ArrayVec<Hop, 200>, Refused>
    requires { indices_of (branches_of paths.now) < 2 ^ 64 }
    ensures { FindsTree domain.now (branches_of paths.now) result }
{
    let nodes = nodes_of(domain, paths);
    if let Some(index) = unknown_index_of(domain, nodes.as_slice(), paths) {
        return Err(Refused::UnknownNode(index));
    }
    if let Some(index) = broken_index_of(domain, nodes.as_slice(), paths) {
        return Err(Refused::BrokenPath(index));
    }
    if let Some(index) = looping_index_of(domain, nodes.as_slice(), paths) {
        return Err(Refused::LoopingPath(index));
    }
    if let Some(branch) = stray_branch(paths) {
        return Err(Refused::NotATree(branch));
    }
    let tree = tree_along(domain, nodes.as_slice(), paths);
    if tree.len() > domain.limits().hops_within() {
        return Err(Refused::TooManyHops);
    }
    Ok(fitted(tree.as_slice()))
}
