//! The table of a cycle.
ghost use Rattle.std.specs.Arc.{arc_value};
ghost use Rattle.std.specs.Prelude.{◌≡◌, IfOk, map, option_copied};
ghost use Rattle.cqf_model.specs.Table.{row_named, row_of};
ghost use Rattle.cqf_admission.specs.ActiveCycles.{AreOfGoodPaces};
ghost use Rattle.cqf_admission.specs.Tables.{AreInOrder, IsRowNamed, IsRowOf};

use crate::listed::ListedRows;
use cqf_model::Row;
use cqf_units::{Cycle, Memory, Name};
use std::alloc::Global;
use std::marker::Model;
use std::sync::Arc;

/// The table of a cycle that is closed to changes: the streams that are held in it, by number. No two have the same number or name, and
/// each has a good pace.
#[derive(Debug, Drop)]
pub struct Table {
    cycle: Cycle,
    /// Tables of cycles between which nothing changes share their rows.
    listed: Arc<ListedRows>,
}

impl Model for Table {
    ghost use Rattle.std.specs.Arc.{arc_value};
    ghost use Rattle.cqf_admission.specs.ActiveCycles.{AreOfGoodPaces};
    ghost use Rattle.cqf_admission.specs.Tables.{AreInOrder, CycleTable};

    ghost Value = { CycleTable };

    ghost view = { λ t. record { cycle = t.cycle.0; rows = arc_value t.listed } };

    ghost invariant = { λ t. AreInOrder (arc_value t.listed) × AreOfGoodPaces (arc_value t.listed) };
}

impl Table {
    /// Returns the table of a cycle with these rows.
    pub(crate) fn new(cycle: Cycle, listed: Arc<ListedRows>) -> Table
        requires order { AreInOrder (arc_value listed) }
        requires good { AreOfGoodPaces (arc_value listed) }
        ensures cycle { result.cycle ≡ cycle.0 }
        ensures rows { result.rows ≡ arc_value listed }
    {
        Table { cycle, listed }
    }

    /// Returns the cycle of the table.
    pub fn cycle(&self) -> Cycle
        ensures { result.0 ≡ self.now.cycle }
    {
        self.cycle
    }

    /// Returns the streams that are held in the cycle, by number. Tables share the rows that they have in common.
    pub fn rows(&self) -> &[Arc<Row>]
        ensures rows { map (λ row. arc_value row) result.now ≡ self.now.rows }
        ensures order { AreInOrder self.now.rows }
        ensures good { AreOfGoodPaces self.now.rows }
    {
        self.listed.rows()
    }

    /// Returns the row of the held stream with the name, or `None` if no held stream has it.
    pub fn row_named(&self, name: &Name) -> Option<&Row>
        ensures found { option_copied result ≡ row_named self.now.rows name.now }
        ensures the_row { IsRowNamed self.now.rows name.now (option_copied result) }
    {
        self.listed.row_named(name)
    }

    /// Returns the row of the held stream with this number, or `None` if no held stream has it.
    pub fn row_of(&self, no: u32) -> Option<&Row>
        ensures found { option_copied result ≡ row_of self.now.rows no }
        ensures the_row { IsRowOf self.now.rows no (option_copied result) }
    {
        self.listed.row_of(no)
    }

    /// Returns a copy of the table, or `Memory` if an allocation fails. The two share their rows.
    pub fn try_copy(&self, _alloc: Global) -> Result<Table, Memory>
        ensures { IfOk result (λ copy. copy ≡ self.now) }
    {
        Ok(Table {
            cycle: self.cycle,
            listed: Arc::try_clone(&self.listed)?,
        })
    }
}
