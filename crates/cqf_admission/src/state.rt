//! The state that an administration keeps in place of its history: the accepted streams, what the held ones cost, and which of them end in
//! which cycle. No call looks through the streams.
ghost use Rattle.std.specs.Arc.{arc_value};
ghost use Rattle.std.specs.Prelude.{◌≡◌, ◌≢◌, ◌-◌, ◌<◌, ◌≤◌, ℕ, [], false, All, AllPairs, IfOk, List, OnErr, length, map, nat_le};
ghost use Rattle.cqf_units.specs.Timing.{cost_of};
ghost use Rattle.cqf_model.specs.Domain.{Domain as ADomain, budget};
ghost use Rattle.cqf_model.specs.History.{Recorded, held_in, seals, streams_of};
ghost use Rattle.cqf_model.specs.Limits.{most_calls, most_cycles, most_hops, most_reserved};
ghost use Rattle.cqf_model.specs.Table.{links_in};
ghost use Rattle.cqf_admission.specs.Costs.{left_in_active_cycles, most_cost};
ghost use Rattle.cqf_admission.specs.Holdings.{held_cost};
ghost use Rattle.cqf_admission.specs.ActiveCycles.{IsGoodPace};
ghost use Rattle.cqf_admission.specs.Rows.{ended};
ghost use Rattle.cqf_admission.specs.State.{AdmitsForm, ClosesNext, IsStateOf, SomeDomain, SomeHistory, SomeRequest, StaysSo, WithdrawsName};
ghost use Rattle.cqf_admission.specs.Weighing.{FindsOpen, left_at, row_by, stand_refusal, stand_short};

use crate::budgets::budget_on;
use crate::holdings::Holdings;
use crate::judged::JudgedRequest;
use crate::slots::{Slots, slot_of};
use cqf_laws_history::{state_follows_history, streams_follow_history};
use cqf_model::{Hop, MOST_CALLS, Pace, Receipt, Refused, Row, Tree};
use cqf_topology::Domain;
use cqf_units::{Cycle, Memory, Name, Octets, cost};
use std::alloc::Global;
use std::marker::Model;
use std::sync::Arc;

/// A request of good form, borrowed: its name, the octets that its stream reserves in each cycle of its own, 64 to 1,000,000, the octets of a
/// frame that its gates don't count, its pace, and its tree.
#[derive(Clone, Copy)]
pub(crate) struct GoodForm<'f> {
    pub name: &'f Name,
    pub octets: u32,
    pub overhead: u32,
    pub pace: Pace,
    pub tree: &'f [Hop],
}

impl<'f> GoodForm<'f> {
    /// Returns the request of good form that has this row, regardless of the row's number and cycles.
    pub(crate) fn of_row(row: &'f Row) -> GoodForm<'f>
        ensures name { result.name.now ≡ row.now.name }
        ensures octets { result.octets ≡ row.now.octets }
        ensures overhead { result.overhead ≡ row.now.overhead }
        ensures pace { result.pace ≡ row.now.pace }
        ensures tree { result.tree.now ≡ row.now.tree.items }
    {
        GoodForm {
            name: &row.name,
            octets: row.octets,
            overhead: row.overhead,
            pace: row.pace,
            tree: row.tree.as_slice(),
        }
    }

    /// Returns the judged request with this number of octets.
    pub(crate) fn of_judged(judged: &'f JudgedRequest, octets: u32) -> GoodForm<'f>
        ensures name { result.name.now ≡ judged.now.name }
        ensures octets { result.octets ≡ octets }
        ensures overhead { result.overhead ≡ judged.now.overhead }
        ensures pace { result.pace ≡ judged.now.pace }
        ensures tree { result.tree.now ≡ judged.now.tree.items }
    {
        GoodForm {
            name: &judged.name,
            octets,
            overhead: judged.overhead,
            pace: judged.pace,
            tree: judged.tree.as_slice(),
        }
    }
}

/// The state of an administration.
#[derive(Debug, Drop)]
pub(crate) struct State {
    holdings: Holdings,
    slots: Slots,
    /// The number of cycles that are closed to changes.
    sealed: u32,
}

impl Model for State {
    ghost use Rattle.cqf_admission.specs.State.{Figures};

    ghost Value = { Figures };

    ghost view = { λ s. record {
      stands = s.holdings.rows;
      room = s.holdings.room;
      links = s.holdings.links;
      slots = s.slots;
      sealed = s.sealed;
    } };
}

/// Returns what a hop's link has left of its budget besides the held streams, in octets, for frames of this pace: the least over the cycles
/// in which they use the hop.
fn left_of(domain: &Domain, holdings: &Holdings, hop: &Hop, pace: Pace) -> u32
    requires inside { hop.now.link < length domain.now.links }
    requires columns { holdings.now.links ≡ length domain.now.links }
    requires within { (l cycle : ℕ) → l < length domain.now.links → held_cost holdings.now.rows l cycle ≤ budget domain.now l }
    requires good { IsGoodPace pace }
    ensures { result ≡ left_at domain.now holdings.now.rows pace hop.now }
{
    let most = budget_on(domain, hop.link);
    let taken = holdings.most_at(hop, pace);
    prove!(taken <= u64::from(most.0));
    most.0 - taken as u32
}

/// Returns `BudgetShort` for the first link of a tree that has less left than the cost in one of the stream's cycles, besides the held
/// streams. Returns `None` if no link is short.
fn short_of(
    domain: &Domain,
    holdings: &Holdings,
    cost: u32,
    pace: Pace,
    tree: &[Hop],
) -> Option<Refused>
    requires inside { All (λ hop. hop.link < length domain.now.links) tree.now }
    requires apart { AllPairs (λ (a b : ℕ). a ≢ b) (links_in tree.now) }
    requires columns { holdings.now.links ≡ length domain.now.links }
    requires within { (l cycle : ℕ) → l < length domain.now.links → held_cost holdings.now.rows l cycle ≤ budget domain.now l }
    requires good { IsGoodPace pace }
    ensures { result ≡ stand_short domain.now holdings.now.rows cost pace tree.now }
{
    for hop in tree {
        let link = hop.link;
        let left = left_of(domain, holdings, hop, pace);
        if left < cost {
            return Some(Refused::BudgetShort { link, left });
        }
    }
    None
}

/// Returns the first reason against a stream because of what is held.
fn refusal_of(domain: &Domain, holdings: &Holdings, form: GoodForm<'_>) -> Option<Refused>
    requires inside { All (λ hop. hop.link < length domain.now.links) form.tree.now }
    requires apart { AllPairs (λ (a b : ℕ). a ≢ b) (links_in form.tree.now) }
    requires octets { form.octets ≤ most_reserved }
    requires columns { holdings.now.links ≡ length domain.now.links }
    requires within { (l cycle : ℕ) → l < length domain.now.links → held_cost holdings.now.rows l cycle ≤ budget domain.now l }
    requires good { IsGoodPace form.pace }
    ensures { result ≡ stand_refusal domain.now holdings.now.rows form.entry.name.now (cost_of domain.now.overhead form.entry.octets) form.entry.pace form.entry.tree.now }
{
    if holdings.holder(form.name).is_some() {
        return Some(Refused::NameHeld);
    }
    if holdings.count() >= domain.limits().streams_within() {
        return Some(Refused::TooManyStreams);
    }
    let cost = cost(Octets(domain.overhead()), Octets(form.octets)).0;
    short_of(domain, holdings, cost, form.pace, form.tree)
}

/// Returns the row of a request of good form, with a number and the cycle from which it is live, or `Memory` if an allocation fails.
fn row_by(alloc: Global, form: GoodForm<'_>, no: u32, admitted: Cycle) -> Result<Row, Memory>
    requires { length form.tree.now ≤ most_hops }
    ensures { IfOk result (λ row. row ≡ row_by form.entry no admitted) }
{
    Ok(Row {
        no,
        name: form.name.copied(),
        octets: form.octets,
        overhead: form.overhead,
        pace: form.pace,
        tree: Tree::new(alloc, form.tree)?,
        admitted,
        withdrawn: None,
    })
}

/// Returns a row whose stream is withdrawn from a cycle on, to be shared, or `Memory` if an allocation fails.
fn ended_row(alloc: Global, row: &Row, cycle: Cycle) -> Result<Arc<Row>, Memory>
    ensures { IfOk result (λ shared. arc_value shared ≡ ended row.now cycle) }
{
    let mut row = row.try_copy(alloc)?;
    row.withdrawn = Some(cycle);
    let shared = Arc::new(alloc, row)?;
    Ok(shared)
}

/// Returns the number of the stream with a name that is held and not withdrawn, or why there is none.
fn find_open(holdings: &Holdings, word: &str) -> Result<u32, Refused>
    ensures { FindsOpen holdings.now.rows word.now result }
{
    let Some(name) = Name::new(word.as_bytes()) else {
        return Err(Refused::NotHeld);
    };
    let Some(number) = holdings.holder(&name) else {
        return Err(Refused::NotHeld);
    };
    if holdings.row(number).withdrawn.is_some() {
        return Err(Refused::AlreadyWithdrawn);
    }
    Ok(number)
}

impl State {
    /// Returns the state without calls, for this number of links, or `Memory` if an allocation fails.
    pub(crate) fn new(alloc: Global, links: u16) -> Result<State, Memory>
        ensures { IfOk result (λ state. (d : ADomain) → length d.links ≡ links → IsStateOf d [] state) }
    {
        Ok(State {
            holdings: Holdings::new(alloc, links)?,
            slots: Slots::new(alloc)?,
            sealed: 0,
        })
    }

    /// Returns the next cycle to be closed to changes.
    pub(crate) fn next_cycle(&self) -> Cycle
        ensures { result.0 ≡ self.now.sealed }
    {
        Cycle(self.sealed)
    }

    /// Returns whether a history with this number of entries has no room for a call: 100,000 of them aren't Seals.
    pub(crate) fn is_full(&self, entries: usize) -> bool
        requires { self.now.sealed ≤ entries }
        ensures { result ≡ nat_le most_calls (entries - self.now.sealed) }
    {
        entries - self.sealed as usize >= MOST_CALLS
    }

    /// Returns the number of accepted streams.
    pub(crate) fn accepted(&self) -> u32
        ensures { result ≡ length self.now.stands }
    {
        self.holdings.len()
    }

    /// Grants the stream of a request of good form. Its number is the next one, and it is live from the next cycle to be closed. If
    /// something that is held is against it, returns the first reason: `NameHeld`, `TooManyStreams`, `BudgetShort`.
    ///
    /// # Errors
    /// `Memory` if an allocation fails. Then nothing is changed.
    pub(crate) fn admit(
        &mut self,
        alloc: Global,
        domain: &Domain,
        form: GoodForm<'_>,
    ) -> Result<Result<Receipt, Refused>, Memory>
        requires history { SomeHistory domain.now self.old }
        requires request { SomeRequest domain.now form }
        ensures admits { IfOk result (AdmitsForm domain.now form.entry self.old self.new) }
        ensures same { OnErr result (StaysSo self.old self.new) }
    {
        state_follows_history();
        streams_follow_history();
        domain.know();
        if let Some(refused) = refusal_of(domain, &self.holdings, form) {
            return Ok(Err(refused));
        }
        self.holdings.reserve()?;
        let no = self.holdings.len();
        let effect = Cycle(self.sealed);
        let row = row_by(alloc, form, no, effect)?;
        self.holdings.push(alloc, row)?;
        Ok(Ok(Receipt { no, effect }))
    }

    /// Withdraws the held stream with a name from the next cycle to be closed, and lists it among those that end when its last frame has
    /// left. If this isn't possible, returns the reason: `NotHeld`, `AlreadyWithdrawn`.
    ///
    /// # Errors
    /// `Memory` if an allocation fails. Then nothing is changed.
    pub(crate) fn withdraw(
        &mut self,
        alloc: Global,
        word: &str,
    ) -> Result<Result<Receipt, Refused>, Memory>
        requires { SomeDomain self.old }
        ensures withdraws { IfOk result (WithdrawsName word.now self.old self.new) }
        ensures same { OnErr result (StaysSo self.old self.new) }
    {
        state_follows_history();
        streams_follow_history();
        match find_open(&self.holdings, word) {
            Ok(no) => {
                let effect = Cycle(self.sealed);
                let slot = slot_of(self.sealed, self.holdings.row(no).residence());
                let ended = ended_row(alloc, self.holdings.row(no), effect)?;
                self.slots.put(slot, no)?;
                self.holdings.end(no, ended);
                Ok(Ok(Receipt { no, effect }))
            }
            Err(refused) => Ok(Err(refused)),
        }
    }

    /// Closes the next cycle to changes, and releases the streams whose last frame has left by the cycle after it. Returns `false` only if
    /// there were none.
    pub(crate) fn seal(&mut self) -> bool
        requires history { SomeDomain self.old }
        requires some { self.old.sealed < most_cycles }
        ensures closes { ClosesNext self.old self.new }
        ensures stays { result ≡ false → self.new.stands ≡ self.old.stands }
    {
        state_follows_history();
        let slot = ((self.sealed + 1) % 128) as usize;
        let ends = self.slots.has(slot);
        self.slots.empty(slot, &mut self.holdings);
        self.sealed += 1;
        ends
    }

    /// Returns the most that the held streams take of a link's budget in any cycle, in octets.
    pub(crate) fn taken_of(&self, domain: &Domain, link: u16) -> Octets
        requires inside { link < length domain.now.links }
        requires history { SomeHistory domain.now self.now }
        ensures held { (entries : List Recorded) → IsStateOf domain.now entries self.now → result.0 ≡ most_cost (held_in domain.now entries (seals entries)) link }
        ensures within { result.0 ≤ budget domain.now link }
    {
        state_follows_history();
        let most = budget_on(domain, link);
        let taken = self.holdings.most_of(link);
        prove!(taken <= u64::from(most.0));
        Octets(taken as u32)
    }

    /// Returns what a hop's link has left of its budget besides the held streams, in octets: the least over the cycles in which frames of
    /// the pace use the hop.
    pub(crate) fn left_at(&self, domain: &Domain, hop: &Hop, pace: Pace) -> Octets
        requires inside { hop.now.link < length domain.now.links }
        requires good { IsGoodPace pace }
        requires history { SomeHistory domain.now self.now }
        ensures { (entries : List Recorded) → IsStateOf domain.now entries self.now →
            result.0 ≡ left_in_active_cycles domain.now (held_in domain.now entries (seals entries)) pace hop.now }
    {
        state_follows_history();
        Octets(left_of(domain, &self.holdings, hop, pace))
    }

    /// Returns the rows of the held streams, by number, each shared, or `Memory` if an allocation fails.
    pub(crate) fn held_rows(&self, alloc: Global) -> Result<Vec<Arc<Row>>, Memory>
        ensures { IfOk result (λ rows. (d : ADomain) (entries : List Recorded) → IsStateOf d entries self.now →
            map (λ row. arc_value row) rows.items ≡ held_in d entries (seals entries)) }
    {
        self.holdings.held_rows(alloc)
    }

    /// Returns the rows of all streams that were ever granted, by number, or `Memory` if an allocation fails.
    pub(crate) fn into_rows(self, alloc: Global) -> Result<Vec<Row>, Memory>
        ensures { IfOk result (λ rows. (d : ADomain) (entries : List Recorded) → IsStateOf d entries self → rows.items ≡ streams_of d entries) }
    {
        self.holdings.into_rows(alloc)
    }

    /// Returns a copy of the state, or `Memory` if an allocation fails. The two share their rows.
    pub(crate) fn try_copy(&self, alloc: Global) -> Result<State, Memory>
        ensures { IfOk result (StaysSo self.now) }
    {
        Ok(State {
            holdings: self.holdings.try_copy(alloc)?,
            slots: self.slots.try_copy(alloc)?,
            sealed: self.sealed,
        })
    }
}
