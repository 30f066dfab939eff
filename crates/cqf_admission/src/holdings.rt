//! Accepted streams by number, held or not.
ghost use Rattle.std.specs.Arc.{arc_value};
ghost use Rattle.std.specs.Prelude.{◌≡◌, ◌+◌, ◌-◌, ◌<◌, ◌^◌, ◌==◌, ℕ, [], ◌∷◌, ◌++◌, AllPairs, Contains, IfOk, MatchOption, OnErr, OnOk};
ghost use Rattle.std.specs.Prelude.{filter, length, map, not, slice_index_or, slice_set, vec_len, vec_capacity};
ghost use Rattle.cqf_model.specs.Table.{cost_on};
ghost use Rattle.cqf_admission.specs.ActiveCycles.{IsGoodPace};
ghost use Rattle.cqf_admission.specs.Rows.{IsSummable};
ghost use Rattle.cqf_admission.specs.Holdings.{IsEnded, IsFree, IsHeldAt, IsHolder, Standing, held_by, held_cost, held_count, held_most, held_most_at};
ghost use Rattle.cqf_admission.specs.Holdings.{released, standing_of, with_row};

use crate::CycleSums;
use cqf_model::{Hop, Pace, Row};
use cqf_units::{Memory, Name, Octets, cost};
use std::alloc::Global;
use std::collections::BTreeMap;
use std::marker::Model;
use std::sync::Arc;

/// An accepted stream: its row, and whether it is held. Tables share the row, so a change replaces it.
#[derive(Debug, Drop)]
pub(crate) struct Stand {
    row: Arc<Row>,
    held: bool,
}

/// The accepted streams by number, never removed, with the figures of the held ones that admission needs.
#[derive(Debug, Drop)]
pub(crate) struct Holdings {
    rows: Vec<Stand>,
    /// The number of the stream held under each name.
    by_name: BTreeMap<Name, u32>,
    /// The numbers of the held streams, in order.
    held: Vec<u32>,
    /// By link and cycle, the sum of the costs of the held streams whose frames use the link in that cycle.
    sums: CycleSums,
}

impl Model for Holdings {
    ghost use Rattle.std.specs.Prelude.{◌-◌, map, min, vec_len, vec_capacity};
    ghost use Rattle.cqf_admission.specs.Holdings.{HaveFigures, Stands, held_under, standing_of};

    ghost Value = { Stands };

    ghost view = { λ h. record {
      rows = map standing_of h.rows.items;
      room = min (vec_capacity h.rows - vec_len h.rows) (vec_capacity h.held - vec_len h.held);
      links = h.sums.links;
    } };

    ghost invariant = { λ h. HaveFigures (map standing_of h.rows.items) (held_under h.by_name) h.held.items h.sums };
}

/// Returns the row as an owned value, or `Memory` if an allocation fails.
fn own_row(alloc: Global, shared: Arc<Row>) -> Result<Row, Memory>
    ensures { IfOk result (λ row. row ≡ arc_value shared) }
{
    match Arc::try_unwrap(shared) {
        Ok(row) => Ok(row),
        Err(shared) => shared.try_copy(alloc),
    }
}

/// Returns a copy of the streams, with their rows shared, or `Memory` if an allocation fails.
fn copied_stands(alloc: Global, stands: &[Stand]) -> Result<Vec<Stand>, Memory>
    ensures { IfOk result (λ copies. map standing_of copies.items ≡ map standing_of stands.now) }
{
    let mut copies = Vec::with_capacity(alloc, stands.len())?;
    for stand in stands {
        let row = Arc::try_clone(&stand.row)?;
        copies.push(Stand {
            row,
            held: stand.held,
        })?;
    }
    Ok(copies)
}

/// Makes room for one more element in each list. Returns `Memory` if an allocation fails.
fn reserve_each(rows: &mut Vec<Stand>, held: &mut Vec<u32>) -> Result<(), Memory>
    ensures rows { rows.new.items ≡ rows.old.items }
    ensures held { held.new.items ≡ held.old.items }
    ensures room { OnOk result (0 < vec_capacity rows.new - vec_len rows.new × 0 < vec_capacity held.new - vec_len held.new) }
{
    rows.reserve(1)?;
    held.reserve(1)?;
    Ok(())
}

/// Removes a number from an ascending list.
fn take_out(held: &mut Vec<u32>, number: u32)
    requires order { AllPairs (λ (a b : ℕ). a < b) held.old.items }
    requires there { Contains held.old.items number }
    ensures { held.new.items ≡ filter (λ other. not (other == number)) held.old.items }
{
    if let Ok(index) = held.binary_search(&number) {
        let _ = held.remove(index);
    }
}

impl Holdings {
    /// Returns an empty list of streams, for this number of links, or `Memory` if an allocation fails.
    pub(crate) fn new(alloc: Global, links: u16) -> Result<Holdings, Memory>
        ensures rows { IfOk result (λ holdings. holdings.rows ≡ []) }
        ensures links { IfOk result (λ holdings. holdings.links ≡ links) }
    {
        let sums = CycleSums::new(alloc, links)?;
        Ok(Holdings {
            rows: Vec::new(alloc),
            by_name: BTreeMap::new(alloc),
            held: Vec::new(alloc),
            sums,
        })
    }

    /// Returns the number of the stream held under a name, or `None` if the name is free.
    pub(crate) fn holder(&self, name: &Name) -> Option<u32>
        ensures { MatchOption result (IsFree self.now.rows name.now) (IsHolder self.now.rows name.now) }
    {
        let rows = &self.rows;
        self.by_name.get(name).copied()
    }

    /// Returns the number of streams, held or not.
    pub(crate) fn len(&self) -> u32
        ensures { result ≡ length self.now.rows }
    {
        self.rows.len() as u32
    }

    /// Returns the row of the stream with a number.
    pub(crate) fn row(&self, number: u32) -> &Row
        requires { number < length self.now.rows }
        ensures { (d : Standing) → (slice_index_or self.now.rows number d).row ≡ result.now }
    {
        &self.rows[number as usize].row
    }

    /// Returns the number of held streams.
    pub(crate) fn count(&self) -> usize
        ensures { result ≡ held_count self.now.rows }
    {
        let rows = &self.rows;
        self.held.len()
    }

    /// Returns the most that the held streams cost on a link in any cycle.
    pub(crate) fn most_of(&self, link: u16) -> u64
        requires { link < self.now.links }
        ensures { result ≡ held_most self.now.rows link }
    {
        let rows = &self.rows;
        self.sums.most_of(link)
    }

    /// Returns the most that the held streams cost on a hop's link in a cycle in which frames of this pace use the hop.
    pub(crate) fn most_at(&self, hop: &Hop, pace: Pace) -> u64
        requires inside { hop.now.link < self.now.links }
        requires good { IsGoodPace pace }
        ensures { result ≡ held_most_at self.now.rows hop.now.link pace hop.now.hop_number }
    {
        let rows = &self.rows;
        self.sums.most_at(hop, pace)
    }

    /// Makes room for one more stream. Returns `Memory` if an allocation fails.
    pub(crate) fn reserve(&mut self) -> Result<(), Memory>
        ensures rows { self.new.rows ≡ self.old.rows }
        ensures links { self.new.links ≡ self.old.links }
        ensures room { OnOk result (0 < self.new.room) }
    {
        let (rows, held) = (&mut self.rows, &mut self.held);
        reserve_each(rows, held)
    }

    /// Appends a held stream whose name is free and for which there is room. Returns `Memory` if an allocation fails.
    pub(crate) fn push(&mut self, alloc: Global, row: Row) -> Result<(), Memory>
        requires room { 0 < self.old.room }
        requires few { length self.old.rows + 1 < 2 ^ 32 }
        requires free { IsFree self.old.rows row.name }
        requires summable { IsSummable self.old.links row }
        requires fits { (l cycle : ℕ) → l < self.old.links → held_cost self.old.rows l cycle + cost_on row l cycle < 2 ^ 64 }
        ensures rows { OnOk result (self.new.rows ≡ self.old.rows ++ held_by row ∷ []) }
        ensures links { self.new.links ≡ self.old.links }
        ensures same { OnErr result (self.new ≡ self.old) }
    {
        let number = self.rows.len() as u32;
        let name = row.name.copied();
        let row = Arc::new(alloc, row)?;
        self.by_name.insert(name, number)?;
        let cost = cost(Octets(row.overhead), Octets(row.octets)).0;
        self.sums.add(row.tree.as_slice(), row.pace, cost);
        self.held.push(number).unwrap();
        self.rows.push(Stand { row, held: true }).unwrap();
        Ok(())
    }

    /// Replaces the row of a stream by that of the withdrawn stream. It is still held.
    pub(crate) fn end(&mut self, number: u32, row: Arc<Row>)
        requires inside { number < length self.old.rows }
        requires ended { (d : Standing) → IsEnded (slice_index_or self.old.rows number d).row (arc_value row) }
        ensures rows { (d : Standing) → self.new.rows ≡ slice_set self.old.rows number (with_row (slice_index_or self.old.rows number d) (arc_value row)) }
        ensures links { self.new.links ≡ self.old.links }
    {
        self.rows[number as usize].row = row;
    }

    /// Releases a held stream.
    pub(crate) fn let_go(&mut self, number: u32)
        requires { IsHeldAt self.old.rows number }
        ensures rows { (d : Standing) → self.new.rows ≡ slice_set self.old.rows number (released (slice_index_or self.old.rows number d)) }
        ensures links { self.new.links ≡ self.old.links }
    {
        let index = number as usize;
        let row = &self.rows[index].row;
        let cost = cost(Octets(row.overhead), Octets(row.octets)).0;
        self.sums.take(row.tree.as_slice(), row.pace, cost);
        let _ = self.by_name.remove(&row.name);
        take_out(&mut self.held, number);
        self.rows[index].held = false;
    }

    /// Returns the rows of the held streams, by number, each shared, or `Memory` if an allocation fails.
    pub(crate) fn held_rows(&self, alloc: Global) -> Result<Vec<Arc<Row>>, Memory>
        ensures { IfOk result (λ rows. map (λ row. arc_value row) rows.items ≡ map (λ (stand : Standing). stand.row) (filter (λ (stand : Standing). stand.held) self.now.rows)) }
    {
        let stands = &self.rows;
        let mut rows = Vec::with_capacity(alloc, self.held.len())?;
        for number in &self.held {
            rows.push(Arc::try_clone(&stands[*number as usize].row)?)?;
        }
        Ok(rows)
    }

    /// Returns a copy of the streams, or `Memory` if an allocation fails. The two share their rows.
    pub(crate) fn try_copy(&self, alloc: Global) -> Result<Holdings, Memory>
        ensures rows { IfOk result (λ copy. copy.rows ≡ self.now.rows) }
        ensures links { IfOk result (λ copy. copy.links ≡ self.now.links) }
    {
        Ok(Holdings {
            rows: copied_stands(alloc, self.rows.as_slice())?,
            by_name: self.by_name.clone()?,
            held: Vec::from_slice(alloc, self.held.as_slice())?,
            sums: self.sums.try_copy(alloc)?,
        })
    }

    /// Returns the rows of the streams, by number, or `Memory` if an allocation fails.
    pub(crate) fn into_rows(self, alloc: Global) -> Result<Vec<Row>, Memory>
        ensures { IfOk result (λ rows. rows.items ≡ map (λ (stand : Standing). stand.row) self.rows) }
    {
        let mut rows = Vec::with_capacity(alloc, self.rows.len())?;
        for stand in self.rows {
            rows.push(own_row(alloc, stand.row)?)?;
        }
        Ok(rows)
    }
}
