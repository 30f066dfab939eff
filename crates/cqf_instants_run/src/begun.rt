//! The rows that have begun, and the last of each name among them.
ghost use Rattle.std.specs.Prelude.{◌≤◌, IfOk, length};
ghost use Rattle.std.specs.BTreeMap.{get};
ghost use Rattle.std.specs.Cmp.Lexicographic.{slice_cmp};
ghost use Rattle.std.specs.Ordering.{nat_cmp};
ghost use Rattle.cqf_instants_run.specs.Begun.{HasBegun, IsInForce, LeadsToLast};

use cqf_model::Row;
use cqf_units::{Cycle, Memory, Name};
use std::collections::BTreeMap;

/// The rows of a run, and which of them have begun.
#[derive(Clone, Copy)]
pub(crate) struct RowsBegun<'r> {
    /// All rows, in order of number.
    pub(crate) rows: &'r [Row],
    /// The number of rows that have begun. These are the first rows.
    pub(crate) count: usize,
    /// For each name, the index of its last row that has begun.
    pub(crate) last: &'r BTreeMap<Name, usize>,
}

/// Records each row from index `from` on that has begun by a cycle as the last of its name. Returns the index of the first row that hasn't
/// begun.
pub(crate) fn begin(
    rows: &[Row],
    from: usize,
    last: &mut BTreeMap<Name, usize>,
    cycle: Cycle,
) -> Result<usize, Memory>
    requires within { from ≤ length rows.now }
    requires leads { LeadsToLast rows.now from (λ name. get (slice_cmp nat_cmp) last.old name) }
    ensures { IfOk result (λ to. HasBegun rows.now from to cycle.0 (λ name. get (slice_cmp nat_cmp) last.new name)) }
{
    for index in from..rows.len() {
        let row = &rows[index];
        if row.admitted.0 > cycle.0 {
            return Ok(index);
        }
        last.insert(row.name.copied(), index)?;
    }
    Ok(rows.len())
}

/// Returns the index of the row of a name that is in force in a cycle, from the last row of each name among those that have begun.
pub(crate) fn find_in_force(begun: &RowsBegun<'_>, name: &Name, cycle: Cycle) -> Option<usize>
    requires within { begun.now.count ≤ length begun.now.rows.now }
    requires leads { LeadsToLast begun.now.rows.now begun.now.count (λ name. get (slice_cmp nat_cmp) begun.now.last.now name) }
    ensures { IsInForce begun.now.rows.now begun.now.count name.now cycle.0 result }
{
    let rows = begun.rows;
    let index = *begun.last.get(name)?;
    prove!(index < rows.len());
    if rows[index].is_held(cycle) {
        Some(index)
    } else {
        None
    }
}
