//! Streams that are listed together, no matter what room links have.
ghost use Rattle.std.specs.Prelude.{ℕ, ◌≡◌, ◌≤◌, ◌<◌, ◌^◌, [], ◌∷◌, ◌++◌, IfOk, false, length, replicate, slice_index_or};
ghost use Rattle.std.specs.List.{list_any};
ghost use Rattle.cqf_model.specs.Domain.{is_text};
ghost use Rattle.cqf_admission.specs.Branches.{branches_of, indices_of};
ghost use Rattle.cqf_admission.specs.Asking.{asked_paced};
ghost use Rattle.cqf_program_plans.specs.Load.Listing.{Lists, Weighs};
ghost use Rattle.cqf_program_plans.specs.Load.Fitting.{streams_on};
ghost use Rattle.cqf_program_plans.specs.Adding.{AddsWhere};
ghost use Rattle.cqf_admission.specs.Costs.{most_cost};
ghost use Rattle.cqf_admission.specs.Rows.{IsCountable};
ghost use Rattle.cqf_model.specs.Limits.{most_links, most_streams};
ghost use Rattle.cqf_admission.specs.ActiveCycles.{IsOfGoodPace};

use crate::row_costs::add_cost;
use cqf_admission::{CycleSums, JudgedRequest, add_on, judge_paced};
use cqf_model::{MOST_LINKS, Refused, Row};
use cqf_topology::{Domain, NameList, PacedRequest};
use cqf_units::{Cycle, Memory, Name};
use std::alloc::Global;
use std::marker::Model;

/// The rows of streams by number, with what they cost of each link in each cycle, and how many of them use the link.
#[derive(Drop)]
pub(crate) struct LoadListing {
    names: NameList,
    rows: Vec<Row>,
    held: CycleSums,
    crossing: Vec<u64>,
}

impl Model for LoadListing {
    ghost use Rattle.std.specs.Prelude.{List};
    ghost use Rattle.cqf_model.specs.declared.topology.Row.{Row as ARow};
    ghost use Rattle.cqf_program_plans.specs.Load.Listing.{IsListing};

    ghost Value = { List ARow };

    ghost view = { λ l. l.rows.items };

    ghost invariant = { λ l. IsListing l.names.keys l.rows.items l.held l.crossing.items };
}

/// Returns `count` sums, each of them 0.
fn no_sums(alloc: Global, count: usize) -> Result<Vec<u64>, Memory>
    ensures { IfOk result (λ sums. sums.items ≡ replicate count 0) }
{
    Ok(vec![in alloc; 0; count]?)
}

/// Adds a number to the sum of each link that a row's stream uses.
fn add_where(by_link: &mut Vec<u64>, row: &Row, number: u32)
    requires all { length by_link.old.items ≡ most_links }
    requires countable { IsCountable most_links row.now }
    requires low { (l : ℕ) → l < most_links → slice_index_or by_link.old.items l 0 < 2 ^ 32 }
    ensures { AddsWhere by_link.old.items row.now number by_link.new.items }
{
    add_on(by_link, row.tree.as_slice(), number);
}

impl LoadListing {
    /// Returns a listing of no streams.
    pub(crate) fn new(alloc: Global) -> Result<LoadListing, Memory>
        ensures { IfOk result (λ listing. listing ≡ []) }
    {
        let held = CycleSums::new(alloc, MOST_LINKS as u16)?;
        let crossing = no_sums(alloc, MOST_LINKS)?;
        Ok(LoadListing {
            names: NameList::new(alloc),
            rows: Vec::new(alloc),
            held,
            crossing,
        })
    }

    /// Returns the rows of the listed streams.
    pub(crate) fn into_rows(self) -> Vec<Row>
        ensures { result.items ≡ self }
    {
        let LoadListing { rows, .. } = self;
        rows
    }

    /// Returns the number of streams listed.
    pub(crate) fn len(&self) -> usize
        ensures { result ≡ length self.now }
    {
        self.rows.len()
    }

    /// Returns whether a listed stream has the name.
    pub(crate) fn has_name(&self, name: &Name) -> bool
        ensures { result ≡ list_any (λ row. is_text row.name name.now) self.now }
    {
        self.names.contains(name)
    }

    /// Returns what the streams cost of a link at most in a cycle, in octets: at most 32,768,000,000.
    pub(crate) fn cost_on(&self, link: u16) -> u64
        requires { link < most_links }
        ensures cost { result ≡ most_cost self.now link }
        ensures bounded { result ≤ 32768000000 }
    {
        self.held.most_of(link)
    }

    /// Returns how many of the streams use the link.
    pub(crate) fn streams_on(&self, link: u16) -> u64
        requires { link < most_links }
        ensures { result ≡ streams_on self.now link }
    {
        let rows = &self.rows;
        self.crossing[usize::from(link)]
    }

    /// Judges a request whose branches have fewer than 2^64 names together. Returns the first reason against it other than a link without
    /// room, or else the judged request.
    fn weigh(&self, domain: &Domain, request: &PacedRequest) -> Result<JudgedRequest, Refused>
        requires { indices_of (branches_of request.now.paths.items) < 2 ^ 64 }
        ensures { Weighs domain.now self.now (asked_paced request.now) result }
    {
        // the domain is accepted: its gates leave few octets uncounted
        domain.know();
        let judged = judge_paced(domain, request)?;
        if self.has_name(&judged.name) {
            return Err(Refused::NameHeld);
        }
        if self.len() >= domain.limits().streams_within() {
            return Err(Refused::TooManyStreams);
        }
        Ok(judged)
    }

    /// Returns the row of a request after the others, or the first reason against it other than a link without room. The branches of the
    /// request have fewer than 2^64 names together. Returns `Memory` if there is no such reason and an allocation fails.
    pub(crate) fn look_over(
        &self,
        alloc: Global,
        domain: &Domain,
        request: &PacedRequest,
    ) -> Result<Result<Row, Refused>, Memory>
        requires { indices_of (branches_of request.now.paths.items) < 2 ^ 64 }
        ensures { IfOk result (λ looked. Lists domain.now self.now (asked_paced request.now) looked) }
    {
        match self.weigh(domain, request) {
            Ok(judged) => {
                let row = judged.into_row(alloc, request.octets, self.len() as u32, Cycle(0))?;
                Ok(Ok(row))
            }
            Err(refused) => Ok(Err(refused)),
        }
    }

    /// Returns the listing with one more row at the end, of a name that isn't listed yet. Returns `Memory` if an allocation fails.
    pub(crate) fn with(self, row: Row) -> Result<LoadListing, Memory>
        requires few { length self < most_streams }
        requires countable { IsCountable most_links row }
        requires good { IsOfGoodPace row }
        requires free { list_any (λ other. is_text other.name row.name) self ≡ false }
        ensures { IfOk result (λ listing. listing ≡ self ++ row ∷ []) }
    {
        let LoadListing {
            names,
            rows,
            held,
            crossing,
        } = self;
        let (mut names, mut rows, mut held, mut crossing) = (names, rows, held, crossing);
        add_cost(&mut held, &row);
        add_where(&mut crossing, &row, 1);
        names.add(&row.name)?;
        rows.push(row)?;
        Ok(LoadListing {
            names,
            rows,
            held,
            crossing,
        })
    }
}
