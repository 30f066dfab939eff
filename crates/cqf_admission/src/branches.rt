//! The nodes of a request's branches, and whether they are a tree.
ghost use Rattle.std.specs.Prelude.{◌≡◌, ◌<◌, ◌≤◌, ◌+◌, ◌^◌, drop, fold, length, min, position, is_none, string_bytes, not, MatchOption, None};
ghost use Rattle.std.specs.List.{flat_map, list_any};
ghost use Rattle.cqf_model.specs.Domain.{is_text, node_named};
ghost use Rattle.cqf_lists.specs.Lists.{least};
ghost use Rattle.cqf_model.specs.History.{node_at, link_at, link_from, are_apart, is_bridge, is_broken_at, is_loop_at, is_stray, make_a_tree, part};
ghost use Rattle.cqf_admission.specs.Branches.{AreNodes, branch_of, branches_of, fault_in, first_fault, indices_of, with_node};

use arrayvec::ArrayVec;
use cqf_model::Node;
use cqf_topology::Domain;

/// A check of each branch. Branches are checked in order.
#[derive(Clone, Copy, Debug)]
pub(crate) enum Check {
    /// The domain has each node.
    Known,
    /// A link leads from each node to the next, from a bridge to a station.
    Whole,
    /// No node occurs twice.
    Simple,
}

/// Returns the number of names in all branches, or `None` if a `usize` can't hold it.
pub fn count_indices(paths: &[Vec<String>]) -> Option<usize>
    ensures { MatchOption result (2 ^ 64 ≤ indices_of (branches_of paths.now)) (λ count. count ≡ indices_of (branches_of paths.now)) }
{
    let mut count = 0usize;
    for branch in paths {
        count = count.checked_add(branch.len())?;
    }
    Some(count)
}

/// Appends the nodes of the names of a branch to the nodes of others, as far as there is room.
fn add_nodes(domain: &Domain, nodes: &mut ArrayVec<Option<Node>, 256>, branch: &[String])
    ensures { nodes.new.items ≡ fold (with_node domain.now) nodes.old.items (branch_of branch.now) }
{
    for name in branch {
        add_node(domain, nodes, name);
    }
}

/// Appends the node of a name to the nodes of others, if there is room.
fn add_node(domain: &Domain, nodes: &mut ArrayVec<Option<Node>, 256>, name: &String)
    ensures { nodes.new.items ≡ with_node domain.now nodes.old.items (string_bytes name.now) }
{
    if nodes.len() < 256 {
        nodes.push(domain.find(name.as_str()));
    }
}

/// Returns the nodes of the first 256 names of the branches, each looked up once.
pub(crate) fn nodes_of(domain: &Domain, paths: &[Vec<String>]) -> ArrayVec<Option<Node>, 256>
    ensures { AreNodes domain.now (flat_map (λ branch. branch) (branches_of paths.now)) result.items }
{
    let mut nodes = ArrayVec::new();
    for branch in paths {
        add_nodes(domain, &mut nodes, branch.as_slice());
    }
    nodes
}

/// Returns the nodes after those of a branch of `count` names.
pub(crate) fn nodes_after(nodes: &[Option<Node>], count: usize) -> &[Option<Node>]
    ensures { result.now ≡ drop (min count (length nodes.now)) nodes.now }
{
    nodes.split_at(count.min(nodes.len())).1
}

/// Returns the node at an index of a branch, or `None` if there is none. The nodes of its first names are given.
fn node_of(domain: &Domain, nodes: &[Option<Node>], branch: &[String], index: usize) -> Option<Node>
    requires { AreNodes domain.now (branch_of branch.now) nodes.now }
    ensures { result ≡ node_at domain.now (branch_of branch.now) index }
{
    if index >= branch.len() {
        return None;
    }
    if index < nodes.len() {
        return nodes[index];
    }
    domain.find(branch[index].as_str())
}

/// Returns the first index of a branch whose node the domain lacks.
fn unknown_index(domain: &Domain, nodes: &[Option<Node>], branch: &[String]) -> Option<usize>
    requires { AreNodes domain.now (branch_of branch.now) nodes.now }
    ensures { result ≡ position (λ name. is_none (node_named domain.now name)) (branch_of branch.now) }
{
    for index in 0..branch.len() {
        if node_of(domain, nodes, branch, index).is_none() {
            return Some(index);
        }
    }
    None
}

/// Returns the link between two nodes, or `None` if a node or the link doesn't exist.
fn link_of(domain: &Domain, from: Option<Node>, to: Option<Node>) -> Option<u16>
    ensures { result ≡ link_from domain.now from to }
{
    match from {
        Some(Node::Bridge(bridge)) => match to {
            Some(node) => domain.find_link(bridge, node),
            None => None,
        },
        Some(Node::Station(_)) => None,
        None => None,
    }
}

/// Returns the link from the node at an index of a branch to the next one, or `None` if a node or the link doesn't exist.
pub(crate) fn link_after(
    domain: &Domain,
    nodes: &[Option<Node>],
    branch: &[String],
    index: usize,
) -> Option<u16>
    requires inside { index < length branch.now }
    requires nodes { AreNodes domain.now (branch_of branch.now) nodes.now }
    ensures { result ≡ link_at domain.now (branch_of branch.now) index }
{
    link_of(
        domain,
        node_of(domain, nodes, branch, index),
        node_of(domain, nodes, branch, index + 1),
    )
}

/// Returns whether a node exists and is a bridge.
fn is_bridge_node(node: Option<Node>) -> bool
    ensures { result ≡ is_bridge node }
{
    matches!(node, Some(Node::Bridge(_)))
}

/// Returns whether a branch is broken at an index: the branch is empty or doesn't begin with a bridge; no link leads from the node before
/// to this one; its last node is a bridge; or there are already as many nodes before this index as a branch may have.
fn is_branch_broken_at(
    domain: &Domain,
    nodes: &[Option<Node>],
    branch: &[String],
    index: usize,
) -> bool
    requires inside { index ≤ length branch.now }
    requires nodes { AreNodes domain.now (branch_of branch.now) nodes.now }
    ensures { result ≡ is_broken_at domain.now (branch_of branch.now) index }
{
    let count = branch.len();
    let begins_ill = index == 0 && !is_bridge_node(node_of(domain, nodes, branch, 0));
    let unlinked = 1 <= index
        && index < count
        && link_after(domain, nodes, branch, index - 1).is_none();
    let ends_in_bridge = index + 1 == count
        && is_bridge_node(node_of(domain, nodes, branch, index));
    let too_long = index == domain.limits().nodes_within() && index < count;
    begins_ill || unlinked || ends_in_bridge || too_long
}

/// Returns the first index at which a branch is broken.
fn broken_index(domain: &Domain, nodes: &[Option<Node>], branch: &[String]) -> Option<usize>
    requires { AreNodes domain.now (branch_of branch.now) nodes.now }
    ensures { result ≡ least (is_broken_at domain.now (branch_of branch.now)) (length branch.now + 1) }
{
    for index in 0..branch.len() + 1 {
        if is_branch_broken_at(domain, nodes, branch, index) {
            return Some(index);
        }
    }
    None
}

/// Returns whether the node at an index of a branch occurred earlier. A node has one name, so it is enough to compare the names before it.
fn is_branch_looping_at(
    domain: &Domain,
    nodes: &[Option<Node>],
    branch: &[String],
    index: usize,
) -> bool
    requires inside { index ≤ length branch.now }
    requires nodes { AreNodes domain.now (branch_of branch.now) nodes.now }
    ensures { result ≡ is_loop_at domain.now (branch_of branch.now) index }
{
    if index >= branch.len() {
        return false;
    }
    if node_of(domain, nodes, branch, index).is_none() {
        return false;
    }
    let name = &branch[index];
    has_name(&branch[..index], name)
}

/// Returns the first index of a branch whose node occurred earlier.
fn looping_index(domain: &Domain, nodes: &[Option<Node>], branch: &[String]) -> Option<usize>
    requires { AreNodes domain.now (branch_of branch.now) nodes.now }
    ensures { result ≡ least (is_loop_at domain.now (branch_of branch.now)) (length branch.now + 1) }
{
    for index in 0..branch.len() + 1 {
        if is_branch_looping_at(domain, nodes, branch, index) {
            return Some(index);
        }
    }
    None
}

/// Returns the first index at which a branch fails a check.
fn fault_of(
    domain: &Domain,
    check: Check,
    nodes: &[Option<Node>],
    branch: &[String],
) -> Option<usize>
    requires { AreNodes domain.now (branch_of branch.now) nodes.now }
    ensures { result ≡ fault_in domain.now check (branch_of branch.now) }
{
    match check {
        Check::Known => unknown_index(domain, nodes, branch),
        Check::Whole => broken_index(domain, nodes, branch),
        Check::Simple => looping_index(domain, nodes, branch),
    }
}

/// Returns the first index at which any branch fails a check. Indexes count through the branches as one list.
pub(crate) fn first_fault_of(
    domain: &Domain,
    check: Check,
    nodes: &[Option<Node>],
    paths: &[Vec<String>],
) -> Option<usize>
    requires few { indices_of (branches_of paths.now) < 2 ^ 64 }
    requires nodes { AreNodes domain.now (flat_map (λ branch. branch) (branches_of paths.now)) nodes.now }
    ensures { result ≡ first_fault domain.now check (branches_of paths.now) }
{
    let mut before = 0;
    let mut rest = nodes;
    for branch in paths {
        if let Some(index) = fault_of(domain, check, rest, branch.as_slice()) {
            return Some(before + index);
        }
        before += branch.len();
        rest = nodes_after(rest, branch.len());
    }
    None
}

/// Returns whether two names are the same.
fn is_same_name(name: &String, other: &String) -> bool
    ensures { result ≡ is_text (string_bytes name.now) (string_bytes other.now) }
{
    name.as_str() == other.as_str()
}

/// Returns whether a name is in a list of names.
fn has_name(names: &[String], name: &String) -> bool
    ensures { result ≡ list_any (λ other. is_text (string_bytes name.now) (string_bytes other)) names.now }
{
    names.iter().any(|other| is_same_name(name, other))
}

/// Returns whether any of the names is in the list of others.
fn have_common(names: &[String], others: &[String]) -> bool
    ensures { result ≡ list_any (λ name. list_any (λ other. is_text (string_bytes name) (string_bytes other)) others.now) names.now }
{
    names.iter().any(|name| has_name(others, name))
}

/// Returns whether no node of one part of a branch is in a part of another branch.
fn are_parts_apart(names: &[String], others: &[String]) -> bool
    ensures { result ≡ are_apart (branch_of names.now) (branch_of others.now) }
{
    !have_common(names, others)
}

/// Returns whether two branches part for good: after their common beginning both continue, and the remainders have no node in common.
fn do_part(names: &[String], others: &[String]) -> bool
    ensures { result ≡ part (branch_of names.now) (branch_of others.now) }
{
    let mut index = 0;
    while index < names.len() && index < others.len() {
        if !is_same_name(&names[index], &others[index]) {
            return are_parts_apart(&names[index..], &others[index..]);
        }
        index += 1;
    }
    false
}

/// Returns whether two branches make one tree: they begin at the same bridge, and part for good.
fn do_make_a_tree(names: &[String], others: &[String]) -> bool
    ensures { result ≡ make_a_tree (branch_of names.now) (branch_of others.now) }
{
    if names.len() == 0 || others.len() == 0 {
        return false;
    }
    is_same_name(&names[0], &others[0]) && do_part(names, others)
}

/// Returns whether there is an earlier branch with which a branch doesn't make a tree.
fn is_stray_after(before: &[Vec<String>], branch: &[String]) -> bool
    ensures { result ≡ list_any (λ other. not (make_a_tree (branch_of other.items) (branch_of branch.now))) before.now }
{
    before
        .iter()
        .any(|other| !do_make_a_tree(other.as_slice(), branch))
}

/// Returns whether the branch with a number doesn't make a tree with some branch before it.
fn is_branch_stray(paths: &[Vec<String>], number: usize) -> bool
    requires { number < length paths.now }
    ensures { result ≡ is_stray (branches_of paths.now) number }
{
    let branch = &paths[number];
    is_stray_after(&paths[..number], branch.as_slice())
}

/// Returns the number of the first branch that doesn't make a tree with some branch before it.
pub(crate) fn stray_branch(paths: &[Vec<String>]) -> Option<usize>
    ensures { result ≡ least (is_stray (branches_of paths.now)) (length paths.now) }
{
    for number in 0..paths.len() {
        if is_branch_stray(paths, number) {
            return Some(number);
        }
    }
    None
}
