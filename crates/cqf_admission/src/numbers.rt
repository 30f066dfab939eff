//! The numbers of streams by their names, shared by tables.
ghost use Rattle.std.specs.Arc.{arc_value};
ghost use Rattle.std.specs.Prelude.{◌≡◌, ◌≢◌, AllPairs, IfOk, length, map};
ghost use Rattle.cqf_model.specs.declared.topology.Row.{Row as ARow};
ghost use Rattle.cqf_admission.specs.Numbers.{AreNumbered, number_in};

use cqf_model::Row;
use cqf_units::{Memory, Name};
use std::alloc::Global;
use std::collections::BTreeMap;
use std::marker::Model;
use std::sync::Arc;

/// The numbers of streams by their names, as they were when they were listed.
#[derive(Debug, Drop)]
pub(crate) struct Numbers {
    numbers: BTreeMap<Name, u32>,
}

impl Model for Numbers {
    ghost use Rattle.std.specs.Prelude.{ℕ, List};

    ghost Value = { List (List ℕ × ℕ) };

    ghost view = { λ n. n.numbers.entries };
}

impl Numbers {
    /// Returns an empty list of numbers. Requests no memory.
    pub(crate) fn none(alloc: Global) -> Numbers {
        Numbers {
            numbers: BTreeMap::new(alloc),
        }
    }

    /// Returns the numbers of rows by their names, or `Memory` if an allocation fails. No two rows have the same name.
    pub(crate) fn new(alloc: Global, rows: &[Arc<Row>]) -> Result<Numbers, Memory>
        requires { AllPairs (λ (a b : ARow). a.name ≢ b.name) (map (λ row. arc_value row) rows.now) }
        ensures { IfOk result (λ list. AreNumbered list (length rows.now) (map (λ row. arc_value row) rows.now)) }
    {
        let mut numbers = BTreeMap::new(alloc);
        for row in rows {
            numbers.insert(row.name.copied(), row.no)?;
        }
        Ok(Numbers { numbers })
    }

    /// Returns the number of the stream with a name, if the name is listed.
    pub(crate) fn number_of(&self, name: &Name) -> Option<u32>
        ensures { result ≡ number_in self.now name.now }
    {
        self.numbers.get(name).copied()
    }
}
