//! The rows of held streams, shared by tables.
ghost use Rattle.std.specs.Arc.{arc_value};
ghost use Rattle.std.specs.Prelude.{◌≡◌, ◌≢◌, [], AllPairs, IfOk, List, count_by, map, nat_lt};
ghost use Rattle.cqf_model.specs.declared.topology.Row.{Row as ARow};
ghost use Rattle.cqf_model.specs.Domain.{Domain};
ghost use Rattle.cqf_model.specs.History.{Recorded, held_in, next_number, seals};
ghost use Rattle.cqf_admission.specs.State.{IsStateOf};
ghost use Rattle.cqf_admission.specs.Tabling.{AreTablesOf, IsNoted, SomeTables};

use crate::listed::ListedRows;
use crate::numbers::Numbers;
use crate::state::State;
use cqf_laws_history::state_follows_history;
use cqf_model::Row;
use cqf_units::Memory;
use std::alloc::Global;
use std::marker::Model;
use std::sync::Arc;

/// How many rows there may be after those that tables find by the numbers of their names. These are searched one by one.
const MOST_AFTER: usize = 32;

/// The data from which tables are made. A row that several tables have is stored once, and tables between which nothing changes share one
/// list.
#[derive(Debug, Drop)]
pub(crate) struct Tabling {
    /// The rows of the last table, and whether these are still the held rows.
    listed: Arc<ListedRows>,
    is_current: bool,
    /// The numbers by which tables find the streams with numbers below `below`.
    numbers: Arc<Numbers>,
    below: u32,
}

impl Model for Tabling {
    ghost use Rattle.std.specs.Arc.{arc_value};
    ghost use Rattle.cqf_admission.specs.Tabling.{Tables};

    ghost Value = { Tables };

    ghost view = { λ t. record {
      listed = arc_value t.listed;
      is_current = t.is_current;
      numbers = arc_value t.numbers;
      below = t.below;
    } };
}

/// Returns how many of the rows have numbers below `below`.
fn count_below(rows: &[Arc<Row>], below: u32) -> usize
    ensures { result ≡ count_by (λ (row : ARow). nat_lt row.no below) (map (λ row. arc_value row) rows.now) }
{
    rows.iter().filter(|row| row.no < below).count()
}

impl Tabling {
    /// Returns the data for tables without streams, or `Memory` if an allocation fails.
    pub(crate) fn new(alloc: Global) -> Result<Tabling, Memory>
        ensures { IfOk result (λ tabling. (d : Domain) → AreTablesOf d [] tabling) }
    {
        let numbers = Arc::new(alloc, Numbers::none(alloc))?;
        let listed = ListedRows::new(Vec::new(alloc), Arc::try_clone(&numbers)?, 0);
        Ok(Tabling {
            listed: Arc::new(alloc, listed)?,
            is_current: true,
            numbers,
            below: 0,
        })
    }

    /// Records whether the held rows have changed.
    pub(crate) fn note(&mut self, changed: bool)
        ensures { IsNoted self.old self.new changed }
    {
        self.is_current = self.is_current && !changed;
    }

    /// Numbers the names of the held rows again if there are too many after those that are found by their numbers. Returns `Memory` if an
    /// allocation fails.
    fn renumber(&mut self, alloc: Global, rows: &[Arc<Row>], accepted: u32) -> Result<(), Memory>
        requires names { AllPairs (λ (a b : ARow). a.name ≢ b.name) (map (λ row. arc_value row) rows.now) }
        ensures same { (d : Domain) (entries : List Recorded) → held_in d entries (seals entries) ≡ map (λ row. arc_value row) rows.now →
            next_number d entries ≡ accepted → AreTablesOf d entries self.old → AreTablesOf d entries self.new }
        ensures listed { self.new.listed ≡ self.old.listed }
        ensures current { self.new.is_current ≡ self.old.is_current }
    {
        if rows.len() - count_below(rows, self.below) > MOST_AFTER {
            let numbers = Numbers::new(alloc, rows)?;
            self.numbers = Arc::new(alloc, numbers)?;
            self.below = accepted;
        }
        Ok(())
    }

    /// Returns the rows for a table of what is held, or `Memory` if an allocation fails. If nothing has changed since the last table, this
    /// is that table's list.
    pub(crate) fn share(&mut self, alloc: Global, state: &State) -> Result<Arc<ListedRows>, Memory>
        requires { SomeTables state.now self.old }
        ensures same { (d : Domain) (entries : List Recorded) → IsStateOf d entries state.now → AreTablesOf d entries self.old → AreTablesOf d entries self.new }
        ensures rows { IfOk result (λ listed. (d : Domain) (entries : List Recorded) → IsStateOf d entries state.now → AreTablesOf d entries self.old →
            arc_value listed ≡ held_in d entries (seals entries)) }
    {
        state_follows_history();
        if self.is_current {
            return Arc::try_clone(&self.listed);
        }
        let rows = state.held_rows(alloc)?;
        self.renumber(alloc, rows.as_slice(), state.accepted())?;
        let numbered = count_below(rows.as_slice(), self.below);
        let listed = ListedRows::new(rows, Arc::try_clone(&self.numbers)?, numbered);
        let shared = Arc::new(alloc, listed)?;
        self.listed = Arc::try_clone(&shared)?;
        self.is_current = true;
        Ok(shared)
    }

    /// Returns a copy that shares the lists, or `Memory` if an allocation fails.
    pub(crate) fn try_copy(&self) -> Result<Tabling, Memory>
        ensures { IfOk result (λ copy. copy ≡ self.now) }
    {
        Ok(Tabling {
            listed: Arc::try_clone(&self.listed)?,
            is_current: self.is_current,
            numbers: Arc::try_clone(&self.numbers)?,
            below: self.below,
        })
    }
}
