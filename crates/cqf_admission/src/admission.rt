//! The admission of streams.
ghost use Rattle.std.specs.Arc.{arc_value};
ghost use Rattle.std.specs.Prelude.{◌≡◌, ◌≤◌, ◌<◌, [], map, length, IfOk};
ghost use Rattle.cqf_model.specs.Domain.{budget};
ghost use Rattle.cqf_model.specs.History.{Admits, Asked, Withdraws, IsLegalHistory, held_in, seals, streams_of};
ghost use Rattle.cqf_admission.specs.Asking.{asked_of, asked_paced};
ghost use Rattle.cqf_admission.specs.Calling.{IsJudgedCall};
ghost use Rattle.cqf_model.specs.Limits.{most_calls};
ghost use Rattle.cqf_admission.specs.Admission.{Answers, Closes, act_of, calls, EndsOne, HoldsOneMore, LetsGo, recorded_of};
ghost use Rattle.cqf_admission.specs.Costs.{left_in_active_cycles, most_cost};
ghost use Rattle.cqf_admission.specs.ActiveCycles.{IsGoodPace};

use crate::count_indices;
use crate::entries::{Call, Entry, SealFault, copied_entries, enter, reply_of};
use crate::judged::{JudgedRequest, judge};
use crate::shared::{SharedRequest, shared_request};
use crate::state::{GoodForm, State};
use crate::table::Table;
use crate::tabling::Tabling;
use cqf_laws_history::state_follows_history;
use cqf_model::{Hop, MOST_SEALS, Pace, Receipt, Refused, Reply, Row};
use cqf_topology::{Domain, PacedRequest, Request};
use cqf_units::{Cycle, Memory, Octets};
use std::alloc::Global;
use std::marker::Model;
use std::sync::Arc;

/// An admission controller for a domain, with its history of calls.
#[derive(Debug, Drop)]
pub struct Admission {
    alloc: Global,
    domain: Domain,
    history: Vec<Entry>,
    state: State,
    tabling: Tabling,
}

impl Model for Admission {
    ghost use Rattle.std.specs.Prelude.{map};
    ghost use Rattle.cqf_admission.specs.Admission.{Administration, recorded_of};
    ghost use Rattle.cqf_admission.specs.State.{IsStateOf};
    ghost use Rattle.cqf_admission.specs.Tabling.{AreTablesOf};

    ghost Value = { Administration };

    ghost view = { λ a. record { domain = a.domain; entries = map recorded_of a.history.items } };

    ghost invariant = { λ a. IsStateOf a.domain (map recorded_of a.history.items) a.state × AreTablesOf a.domain (map recorded_of a.history.items) a.tabling };
}

impl Admission {
    /// Returns an admission controller for a domain, with an empty history, or `Memory` if an allocation fails.
    pub fn new(alloc: Global, domain: &Domain) -> Result<Admission, Memory>
        ensures domain { IfOk result (λ a. a.domain ≡ domain.now) }
        ensures begins { IfOk result (λ a. a.entries ≡ []) }
    {
        Ok(Admission {
            alloc,
            domain: domain.try_copy(alloc)?,
            history: Vec::new(alloc),
            state: State::new(alloc, domain.links())?,
            tabling: Tabling::new(alloc)?,
        })
    }

    /// Returns the domain whose links the streams share.
    pub fn domain(&self) -> &Domain
        ensures { result.now ≡ self.now.domain }
    {
        &self.domain
    }

    /// Does nothing. It makes a fact that each call preserves known to a proof: the history is legal.
    pub fn know(&self)
        ensures legal { IsLegalHistory self.now.domain self.now.entries }
    {
        // the use of a field makes the invariant known
        let _ = &self.history;
    }

    /// Returns all entries, in order.
    pub fn history(&self) -> &[Entry]
        ensures entries { map recorded_of result.now ≡ self.now.entries }
        ensures legal { IsLegalHistory self.now.domain self.now.entries }
    {
        self.history.as_slice()
    }

    /// Returns all entries, in order, of an admission controller that is no longer used. Requests no memory.
    pub fn into_history(self) -> Vec<Entry>
        ensures entries { map recorded_of result.items ≡ self.entries }
        ensures legal { IsLegalHistory self.domain self.entries }
    {
        self.history
    }

    /// Returns all entries, in order, and the rows of all streams that were ever granted, by number, of an admission controller that is no
    /// longer used.
    ///
    /// # Errors
    /// `Memory` if an allocation fails.
    pub fn into_parts(self) -> Result<(Vec<Entry>, Vec<Row>), Memory>
        ensures entries { IfOk result (λ parts. map recorded_of parts.0.items ≡ self.entries) }
        ensures legal { IsLegalHistory self.domain self.entries }
        ensures rows { IfOk result (λ parts. parts.1.items ≡ streams_of self.domain self.entries) }
    {
        let rows = self.state.into_rows(self.alloc)?;
        Ok((self.history, rows))
    }

    /// Returns the next cycle to be closed to changes, which is the number of Seals so far. A call takes effect from this cycle on.
    pub fn next_cycle(&self) -> Cycle
        ensures { result.0 ≡ seals self.now.entries }
    {
        self.state.next_cycle()
    }

    /// Requests a stream. If it is granted, the receipt has its number and the cycle from which it is live. From then on it is held, with
    /// its costs and its name.
    ///
    /// # Errors
    /// `HistoryFull`, before all else, if 100,000 entries aren't Seals. `Memory` if an allocation fails. Then the first reason that is due,
    /// in this order: `BadName`, `BadOctets`, `UnknownNode`, `BrokenPath`, `LoopingPath`, `NotATree`, each over all branches before the
    /// next, `TooManyHops`, `NameHeld`, `TooManyStreams` (as many streams are held as the domain may have), `BudgetShort`. If none is due,
    /// `Memory` if the allocation of the stream's row fails. `HistoryFull` and `Memory` change nothing. Each other call enters the history
    /// with its answer.
    pub fn admit(&mut self, seat: u16, request: &Request) -> Result<Receipt, Refused>
        ensures answers { Answers self.old self.new seat (Admits (asked_of request.now)) result }
        ensures held { HoldsOneMore self.old self.new (asked_of request.now) result }
    {
        if self.state.is_full(self.history.len()) {
            return Err(Refused::HistoryFull);
        }
        let asked = request.try_copy(self.alloc)?;
        if count_indices(request.paths.as_slice()).is_none() {
            return Err(Refused::Memory);
        }
        let judged = judge(&self.domain, request);
        self.admit_judged(seat, Call::Admit(asked), request.octets, judged)
    }

    /// Requests a stream that is offered in some cycles, as [`Admission::admit`] does for one that is offered in each cycle.
    ///
    /// # Errors
    /// As for [`Admission::admit`]. After `BadOctets` comes `BadPace`, if `every` doesn't divide 80 or `phase` isn't below `every`.
    pub fn admit_paced(&mut self, seat: u16, request: &PacedRequest) -> Result<Receipt, Refused>
        ensures answers { Answers self.old self.new seat (Admits (asked_paced request.now)) result }
        ensures held { HoldsOneMore self.old self.new (asked_paced request.now) result }
    {
        if self.state.is_full(self.history.len()) {
            return Err(Refused::HistoryFull);
        }
        let asked = shared_request(self.alloc, request)?;
        self.admit_shared(seat, &asked)
    }

    /// Requests a stream like [`Admission::admit_paced`], with a request that the history shares with the caller. The request isn't copied,
    /// and it isn't checked again if it was already checked for this domain.
    pub fn admit_shared(
        &mut self,
        seat: u16,
        request: &Arc<SharedRequest>,
    ) -> Result<Receipt, Refused>
        ensures answers { Answers self.old self.new seat (Admits (asked_paced (arc_value request.now))) result }
        ensures held { HoldsOneMore self.old self.new (asked_paced (arc_value request.now)) result }
    {
        if self.state.is_full(self.history.len()) {
            return Err(Refused::HistoryFull);
        }
        let asked = Arc::try_clone(request)?;
        let wanted = request.request();
        if count_indices(wanted.paths.as_slice()).is_none() {
            return Err(Refused::Memory);
        }
        let judged = request.judge(&self.domain);
        self.admit_judged(seat, Call::AdmitPaced(asked), wanted.octets, judged)
    }

    /// Answers a call for a stream with this number of octets, whose request was judged by itself, and enters the call. The history isn't
    /// full.
    fn admit_judged(
        &mut self,
        seat: u16,
        call: Call,
        octets: u32,
        judged: Result<JudgedRequest, Refused>,
    ) -> Result<Receipt, Refused>
        requires room { calls self.old.entries < most_calls }
        requires judged { IsJudgedCall self.old.domain call octets judged }
        ensures answers { Answers self.old self.new seat (act_of call) result }
        ensures held { (asked : Asked) → act_of call ≡ Admits asked → HoldsOneMore self.old self.new asked result }
    {
        self.history.reserve(1)?;
        state_follows_history();
        let answer = match judged {
            Ok(judged) => {
                let form = GoodForm::of_judged(&judged, octets);
                self.state.admit(self.alloc, &self.domain, form)?
            }
            Err(refused) => Err(refused),
        };
        self.tabling.note(answer.is_ok());
        enter(&mut self.history, seat, call, reply_of(answer));
        answer
    }

    /// Withdraws the stream with a name. The receipt has its number and the first cycle in which it is no longer live. It is held for as
    /// many more cycles as the greatest hop number of its tree.
    ///
    /// # Errors
    /// `HistoryFull` and `Memory` as for [`Admission::admit`]. Then `NotHeld` if no held stream has the name, or `AlreadyWithdrawn`. If
    /// neither is due, `Memory` if the allocation of the withdrawn stream's row fails.
    pub fn withdraw(&mut self, seat: u16, name: &str) -> Result<Receipt, Refused>
        ensures answers { Answers self.old self.new seat (Withdraws name.now) result }
        ensures held { EndsOne self.old self.new result }
    {
        if self.state.is_full(self.history.len()) {
            return Err(Refused::HistoryFull);
        }
        let asked = String::from_str(self.alloc, name)?;
        self.history.reserve(1)?;
        state_follows_history();
        let answer = self.state.withdraw(self.alloc, name)?;
        self.tabling.note(answer.is_ok());
        let withdraw = Call::Withdraw(asked);
        enter(&mut self.history, seat, withdraw, reply_of(answer));
        answer
    }

    /// Closes the next cycle to changes and returns its table: the streams that are held in it, by number.
    ///
    /// # Errors
    /// `CyclesSpent` after 100,000 Seals. `Memory` if an allocation fails. Neither changes anything.
    pub fn seal(&mut self, seat: u16) -> Result<Table, SealFault>
        ensures closes { Closes self.old self.new seat result }
        ensures lets_go { IfOk result (λ table. LetsGo self.old self.new table) }
    {
        let cycle = self.state.next_cycle();
        if cycle.0 >= MOST_SEALS {
            return Err(SealFault::CyclesSpent);
        }
        let listed = self.tabling.share(self.alloc, &self.state)?;
        self.history.reserve(1)?;
        state_follows_history();
        let ends = self.state.seal();
        self.tabling.note(ends);
        enter(&mut self.history, seat, Call::Seal, Reply::Sealed);
        Ok(Table::new(cycle, listed))
    }

    /// Returns the most that the streams held in the next cycle cost on a link of the domain in any cycle, in octets: never more than the
    /// link's budget.
    pub fn held_on(&self, link: u16) -> Octets
        requires { link < length self.now.domain.links }
        ensures held { result.0 ≡ most_cost (held_in self.now.domain self.now.entries (seals self.now.entries)) link }
        ensures within { result.0 ≤ budget self.now.domain link }
    {
        state_follows_history();
        self.state.taken_of(&self.domain, link)
    }

    /// Returns what the link of a hop, one of the domain's, has left besides the streams held in the next cycle, in octets: the least over
    /// the cycles in which frames of the pace use the hop. The number of cycles of the pace divides 80.
    pub fn left_at(&self, hop: &Hop, pace: Pace) -> Octets
        requires inside { hop.now.link < length self.now.domain.links }
        requires good { IsGoodPace pace }
        ensures { result.0 ≡ left_in_active_cycles self.now.domain (held_in self.now.domain self.now.entries (seals self.now.entries)) pace hop.now }
    {
        state_follows_history();
        self.state.left_at(&self.domain, hop, pace)
    }

    /// Returns a copy of the admission controller, or `Memory` if an allocation fails.
    pub fn try_copy(&self, alloc: Global) -> Result<Admission, Memory>
        ensures { IfOk result (λ copy. copy ≡ self.now) }
    {
        Ok(Admission {
            alloc,
            domain: self.domain.try_copy(alloc)?,
            history: copied_entries(alloc, self.history.as_slice())?,
            state: self.state.try_copy(alloc)?,
            tabling: self.tabling.try_copy()?,
        })
    }
}
