//! Checks whether tables are those of a run.
ghost use Rattle.std.specs.Prelude.{◌≡◌, false, true};
ghost use Rattle.cqf_plain.specs.Run.{AreTablesNumbered};

use cqf_admission::Table;

/// Returns whether there is exactly one table for each cycle, numbered from 0.
pub(crate) fn are_numbered(tables: &[Table], cycles: u32) -> bool
    ensures yes { result ≡ true → AreTablesNumbered cycles tables.now }
    ensures no { result ≡ false → ¬ AreTablesNumbered cycles tables.now }
{
    if tables.len() != cycles as usize {
        return false;
    }
    for index in 0..tables.len() {
        if tables[index].cycle().0 as usize != index {
            return false;
        }
    }
    true
}
