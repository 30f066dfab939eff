//! The cost of a row's stream, in sums by link and cycle.
ghost use Rattle.cqf_admission.specs.Rows.{IsCountable};
ghost use Rattle.cqf_admission.specs.ActiveCycles.{AreMoreIn, HasRoomFor, IsOfGoodPace};
ghost use Rattle.cqf_units.specs.Timing.{cost_of};

use cqf_admission::CycleSums;
use cqf_model::Row;
use cqf_units::{Octets, cost};

/// Adds the cost of a row's stream to the sums of its links, in the cycles in which its frames use them. Its links are
/// among those of the sums, and each sum stays below 2^64.
pub fn add_cost(sums: &mut CycleSums, row: &Row)
    requires countable { IsCountable sums.old.links row.now }
    requires good { IsOfGoodPace row.now }
    requires room { HasRoomFor sums.old row.now.tree.items row.now.pace (cost_of row.now.overhead row.now.octets) }
    ensures { AreMoreIn sums.old row.now.tree.items row.now.pace (cost_of row.now.overhead row.now.octets) sums.new }
{
    sums.add(
        row.tree.as_slice(),
        row.pace,
        cost(Octets(row.overhead), Octets(row.octets)).0,
    );
}
