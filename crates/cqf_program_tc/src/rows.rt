//! Which streams leave a bridge.
ghost use Rattle.std.specs.Prelude.{◌≡◌, ◌<◌, ◌+◌, IfOk, List, OnOk, length};
ghost use Rattle.cqf_model.specs.declared.topology.Row.{Row as ARow};
ghost use Rattle.cqf_lists.specs.ByNumber.{AddsTo};
ghost use Rattle.cqf_program_tc.specs.Rows.{AreBelow, AreByBridge, IsNoted, IsNotedBy, indices_in, is_last};

use cqf_model::Row;
use cqf_topology::Domain;
use cqf_units::Memory;
use std::alloc::Global;

/// Returns one empty list per bridge.
fn no_indices(alloc: Global, domain: &Domain) -> Result<Vec<Vec<usize>>, Memory>
    ensures { IfOk result (λ lists. (rows : List ARow) → AreBelow domain.now rows 0 (indices_in lists.items)) }
{
    let mut lists = Vec::new(alloc);
    for _bridge in 0..domain.bridges() {
        lists.push(Vec::new(alloc))?;
    }
    Ok(lists)
}

/// Returns whether this index is the last of a list.
fn ends_in(indices: &[usize], index: usize) -> bool
    ensures { result ≡ is_last index indices.now }
{
    match indices.last() {
        Some(last) => *last == index,
        None => false,
    }
}

/// Appends an index to those at a bridge.
fn put_index(lists: &mut Vec<Vec<usize>>, bridge: u16, index: usize) -> Result<(), Memory>
    requires { bridge < length lists.old.items }
    ensures { OnOk result (AddsTo (indices_in lists.old.items) (indices_in lists.new.items) bridge index) }
{
    lists[usize::from(bridge)].push(index)?;
    Ok(())
}

/// Notes an index at a bridge, after those that are noted there, unless it is the last of them.
fn note(lists: &mut Vec<Vec<usize>>, bridge: u16, index: usize) -> Result<(), Memory>
    requires { bridge < length lists.old.items }
    ensures { OnOk result (IsNoted (indices_in lists.old.items) (indices_in lists.new.items) bridge index) }
{
    if ends_in(lists[usize::from(bridge)].as_slice(), index) {
        return Ok(());
    }
    put_index(lists, bridge, index)?;
    Ok(())
}

/// Notes an index at the bridge that a link leaves; nowhere if the domain lacks the link.
fn note_link(
    domain: &Domain,
    lists: &mut Vec<Vec<usize>>,
    link: u16,
    index: usize,
) -> Result<(), Memory>
    requires { length lists.old.items ≡ length domain.now.bridges }
    ensures { OnOk result (IsNotedBy domain.now link index (indices_in lists.old.items) (indices_in lists.new.items)) }
{
    if link < domain.links() {
        // a fact of the domain: each link leaves a bridge of it
        domain.know();
        let from = domain.link(link).from;
        note(lists, from, index)?;
    }
    Ok(())
}

/// Notes the row at this index, after those before it, at each bridge that its stream leaves.
fn note_row(
    domain: &Domain,
    rows: &[Row],
    lists: &mut Vec<Vec<usize>>,
    index: usize,
) -> Result<(), Memory>
    requires inside { index < length rows.now }
    requires below { AreBelow domain.now rows.now index (indices_in lists.old.items) }
    ensures { OnOk result (AreBelow domain.now rows.now (index + 1) (indices_in lists.new.items)) }
{
    let row = &rows[index];
    let hops = row.tree.as_slice();
    for hop in hops {
        note_link(domain, lists, hop.link, index)?;
    }
    Ok(())
}

/// Returns, for each bridge of a domain by number, the indices of the rows whose streams leave it, in order. The time grows with the hops
/// of all rows. Returns `Memory` if an allocation fails.
pub fn indices_by_bridge(
    alloc: Global,
    domain: &Domain,
    rows: &[Row],
) -> Result<Vec<Vec<usize>>, Memory>
    ensures { IfOk result (λ lists. AreByBridge domain.now rows.now (indices_in lists.items)) }
{
    let mut lists = no_indices(alloc, domain)?;
    for index in 0..rows.len() {
        note_row(domain, rows, &mut lists, index)?;
    }
    Ok(lists)
}
