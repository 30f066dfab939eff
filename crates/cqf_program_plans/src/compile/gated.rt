//! The streams of a configuration with stream gates only at edge bridges.
ghost use Rattle.std.specs.Prelude.{◌≡◌, IfOk, map};
ghost use Rattle.cqf_program_plans.specs.Compile.Gated.{EdgeGatesAreAtTheEdge, edge_hops, edge_row, gated_rows};

use cqf_model::{Hop, Row, Tree};
use cqf_units::Memory;
use std::alloc::Global;

/// Returns the hops that follow no other: those by which frames leave their edge bridge.
fn edge_hops(alloc: Global, hops: &[Hop]) -> Result<Vec<Hop>, Memory>
    ensures { IfOk result (λ kept. kept.items ≡ edge_hops hops.now) }
{
    let mut kept = Vec::new(alloc);
    for hop in hops {
        if hop.from.is_none() {
            kept.push(*hop)?;
        }
    }
    Ok(kept)
}

/// Returns a tree with only its hops that follow no other.
fn edge_tree(alloc: Global, tree: &Tree) -> Result<Tree, Memory>
    ensures { IfOk result (λ edge. edge.items ≡ edge_hops tree.now.items) }
{
    let hops = edge_hops(alloc, tree.as_slice())?;
    let edge = Tree::new(alloc, hops.as_slice())?;
    Ok(edge)
}

/// Returns a stream's row with only the hops by which frames leave the edge bridge.
fn edge_row(alloc: Global, row: &Row) -> Result<Row, Memory>
    ensures { IfOk result (λ edge. edge ≡ edge_row row.now) }
{
    let tree = edge_tree(alloc, &row.tree)?;
    Ok(Row {
        no: row.no,
        name: row.name.copied(),
        octets: row.octets,
        overhead: row.overhead,
        pace: row.pace,
        tree,
        admitted: row.admitted,
        withdrawn: row.withdrawn,
    })
}

/// Returns all rows, each with only the hops by which frames leave the edge bridge.
fn edge_rows(alloc: Global, rows: &[Row]) -> Result<Vec<Row>, Memory>
    ensures { IfOk result (λ edge. edge.items ≡ map edge_row rows.now) }
{
    let mut edge = Vec::new(alloc);
    for row in rows {
        let one = edge_row(alloc, row)?;
        edge.push(one)?;
    }
    Ok(edge)
}

/// Returns the rows whose stream gates are written: these rows or, with `edge_gates`, each with only the hops by which frames leave the
/// edge bridge, so that each stream has a gate only at its edge bridge.
pub fn gated_rows(alloc: Global, edge_gates: bool, rows: Vec<Row>) -> Result<Vec<Row>, Memory>
    ensures { IfOk result (λ gated. gated.items ≡ gated_rows edge_gates rows.items) }
{
    if edge_gates {
        let edge = edge_rows(alloc, rows.as_slice())?;
        Ok(edge)
    } else {
        Ok(rows)
    }
}

/// Proves that, with edge gates, a configuration has a gate of a stream at the bridge at which the stream begins, and at no other. The gate
/// is the one that the stream has there without edge gates. That the network does the same is proved by `cqf_laws_gates`.
pub fn edge_gates_are_at_the_edge()
    ensures { EdgeGatesAreAtTheEdge }
{
    cqf_compile::written_gates_are_the_networks();
    cqf_laws_history::trees_say_where_streams_go();
}
