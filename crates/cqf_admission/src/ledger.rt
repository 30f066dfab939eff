//! The admission of streams, with references to requests and a script that the caller keeps. None of these is copied.
ghost use Rattle.std.specs.Prelude.{◌≡◌, ◌≤◌, ◌<◌, [], map, length, IfOk};
ghost use Rattle.cqf_model.specs.Domain.{budget};
ghost use Rattle.cqf_model.specs.History.{Admits, IsLegalHistory, Withdraws, seals, streams_of};
ghost use Rattle.cqf_admission.specs.declared.orders.What.TheVariants.{Withdraw};
ghost use Rattle.cqf_admission.specs.Orders.{StandsIn, request_at, word_at};
ghost use Rattle.cqf_admission.specs.Asking.{asked_paced};
ghost use Rattle.cqf_admission.specs.Admission.{Answers, EndsOne, HoldsOneMore, held_of};
ghost use Rattle.cqf_admission.specs.Costs.{most_cost};
ghost use Rattle.cqf_admission.specs.Forms.{IsRowOfGoodForm};
ghost use Rattle.cqf_admission.specs.Ledger.{ClosesCycle, recorded_in};
ghost use Rattle.cqf_admission.specs.Running.{AreThere};

use crate::entries::{SealFault, reply_of};
use crate::forms::{RequestForm, see, unseen};
use crate::logs::{Logged, enter};
use crate::state::{GoodForm, State};
use crate::{What, word_of};
use cqf_laws_history::state_follows_history;
use cqf_model::{MOST_SEALS, Receipt, Refused, Reply, Row};
use cqf_topology::{Domain, PacedRequest};
use cqf_units::{Cycle, Memory, Octets};
use std::alloc::Global;
use std::marker::Model;

/// An admission controller for a domain, with its log of calls. It answers as [`Admission`](crate::Admission) does, but copies no request
/// and makes no table. The time of a call grows with its own request's tree, and the time of a Seal with the number of streams that end in
/// it.
#[derive(Drop)]
pub struct Ledger<'s> {
    alloc: Global,
    domain: &'s Domain,
    requests: &'s [PacedRequest],
    script: &'s [u8],
    /// What is known of each request's form, by index.
    forms: Vec<RequestForm>,
    state: State,
    log: Vec<Logged>,
}

impl<'s> Model for Ledger<'s> {
    ghost use Rattle.std.specs.Prelude.{map};
    ghost use Rattle.cqf_admission.specs.Asking.{asked_paced};
    ghost use Rattle.cqf_admission.specs.Ledger.{Kept, recorded_in};
    ghost use Rattle.cqf_admission.specs.Running.{AreForms, AreThere};
    ghost use Rattle.cqf_admission.specs.State.{IsStateOf};

    ghost Value = { Kept };

    ghost view = { λ l. record {
      administration = record {
        domain = l.domain.now;
        entries = map (recorded_in (map asked_paced l.requests.now) l.script.now) l.log.items;
      };
      requests = map asked_paced l.requests.now;
      script = l.script.now;
    } };

    ghost invariant = { λ l. IsStateOf l.domain.now (map (recorded_in (map asked_paced l.requests.now) l.script.now) l.log.items) l.state
        × AreForms l.domain.now l.requests.now l.forms.items
        × AreThere (map asked_paced l.requests.now) l.script.now l.log.items };
}

impl<'s> Ledger<'s> {
    /// Returns a ledger for a domain, these requests and a script's text, with an empty log.
    ///
    /// # Errors
    /// `Memory` if an allocation fails.
    pub fn new(
        alloc: Global,
        domain: &'s Domain,
        requests: &'s [PacedRequest],
        script: &'s [u8],
    ) -> Result<Ledger<'s>, Memory>
        ensures domain { IfOk result (λ l. l.administration.domain ≡ domain.now) }
        ensures begins { IfOk result (λ l. l.administration.entries ≡ []) }
        ensures requests { IfOk result (λ l. l.requests ≡ map asked_paced requests.now) }
        ensures script { IfOk result (λ l. l.script ≡ script.now) }
    {
        let forms = unseen(alloc, requests.len())?;
        let state = State::new(alloc, domain.links())?;
        Ok(Ledger {
            alloc,
            domain,
            requests,
            script,
            forms,
            state,
            log: Vec::new(alloc),
        })
    }

    /// Does nothing. It makes a fact that each call preserves known to a proof: the history is legal.
    pub fn know(&self)
        ensures legal { IsLegalHistory self.now.administration.domain self.now.administration.entries }
    {
        // the use of a field makes the invariant known
        let _ = &self.log;
    }

    /// Returns all entries, in order.
    pub fn log(&self) -> &[Logged]
        ensures entries { map (recorded_in self.now.requests self.now.script) result.now ≡ self.now.administration.entries }
        ensures legal { IsLegalHistory self.now.administration.domain self.now.administration.entries }
        ensures there { AreThere self.now.requests self.now.script result.now }
    {
        self.log.as_slice()
    }

    /// Returns all entries, in order, and the rows of all streams that were ever granted, by number, of a ledger that is no longer used.
    ///
    /// # Errors
    /// `Memory` if an allocation fails.
    pub fn into_parts(self) -> Result<(Vec<Logged>, Vec<Row>), Memory>
        ensures entries { IfOk result (λ parts. map (recorded_in self.entry.requests self.entry.script) parts.0.items ≡ self.entry.administration.entries) }
        ensures legal { IsLegalHistory self.entry.administration.domain self.entry.administration.entries }
        ensures there { IfOk result (λ parts. AreThere self.entry.requests self.entry.script parts.0.items) }
        ensures rows { IfOk result (λ parts. parts.1.items ≡ streams_of self.entry.administration.domain self.entry.administration.entries) }
    {
        let rows = self.state.into_rows(self.alloc)?;
        Ok((self.log, rows))
    }

    /// Returns the next cycle to be closed to changes, which is the number of Seals so far. A call takes effect from this cycle on.
    pub fn next_cycle(&self) -> Cycle
        ensures { result.0 ≡ seals self.now.administration.entries }
    {
        self.state.next_cycle()
    }

    /// Requests the stream of the request at index `index`. If it is granted, the receipt has its number and the cycle from which it is
    /// live. From then on it is held, with its costs and its name.
    ///
    /// # Errors
    /// `HistoryFull`, before all else, if 100,000 entries aren't Seals. `Memory` if an allocation fails. Then the first reason that is due,
    /// in this order: `BadName`, `BadOctets`, `BadPace`, `UnknownNode`, `BrokenPath`, `LoopingPath`, `NotATree`, each over all branches
    /// before the next, `TooManyHops`, `NameHeld`, `TooManyStreams` (as many streams are held as the domain may have), `BudgetShort`. If
    /// none is due, `Memory` if the allocation of the stream's row fails. `HistoryFull` and `Memory` change nothing. Each other call enters
    /// the log with its answer.
    pub fn admit(&mut self, seat: u16, index: usize) -> Result<Receipt, Refused>
        requires { index < length self.old.requests }
        ensures requests { self.new.requests ≡ self.old.requests }
        ensures script { self.new.script ≡ self.old.script }
        ensures answers { Answers self.old.administration self.new.administration seat (Admits (request_at self.old.requests index)) result }
        ensures held { HoldsOneMore self.old.administration self.new.administration (request_at self.old.requests index) result }
    {
        if self.state.is_full(self.log.len()) {
            return Err(Refused::HistoryFull);
        }
        self.log.reserve(1)?;
        let request = &self.requests[index];
        let form = &mut self.forms[index];
        see(self.alloc, self.domain, request, form)?;
        state_follows_history();
        let answer = match &self.forms[index] {
            RequestForm::Unseen => unreachable!(),
            RequestForm::Bad(refused) => Err(*refused),
            RequestForm::Good(row) => self
                .state
                .admit(self.alloc, self.domain, GoodForm::of_row(row))?,
        };
        enter(&mut self.log, seat, What::Admit(index), reply_of(answer));
        answer
    }

    /// Takes over the row of the request at index `index`, which is of good form, so that no call checks the request again.
    ///
    /// # Errors
    /// `Memory` if an allocation fails.
    pub fn learn(&mut self, index: usize, row: &Row) -> Result<(), Memory>
        requires there { index < length self.old.requests }
        requires row { IsRowOfGoodForm self.old.administration.domain (request_at self.old.requests index) row.now }
        ensures { self.new ≡ self.old }
    {
        self.forms[index] = RequestForm::Good(row.try_copy(self.alloc)?);
        Ok(())
    }

    /// Withdraws the stream whose name is in the script, from index `from` on and with this number of octets, which are within the script
    /// and UTF-8. The receipt has its number and the first cycle in which it is no longer live. It is held for as many more cycles as the
    /// greatest hop number of its tree.
    ///
    /// # Errors
    /// `HistoryFull` and `Memory` as for [`Ledger::admit`]. Then `NotHeld` if no held stream has the name, or `AlreadyWithdrawn`. If
    /// neither is due, `Memory` if the allocation of the withdrawn stream's row fails.
    pub fn withdraw(&mut self, seat: u16, from: usize, octets: u8) -> Result<Receipt, Refused>
        requires { StandsIn self.old.requests self.old.script (Withdraw from octets) }
        ensures requests { self.new.requests ≡ self.old.requests }
        ensures script { self.new.script ≡ self.old.script }
        ensures answers { Answers self.old.administration self.new.administration seat (Withdraws (word_at self.old.script from octets)) result }
        ensures held { EndsOne self.old.administration self.new.administration result }
    {
        if self.state.is_full(self.log.len()) {
            return Err(Refused::HistoryFull);
        }
        self.log.reserve(1)?;
        let word = word_of(self.script, from, octets);
        let answer = self.state.withdraw(self.alloc, word)?;
        let what = What::Withdraw { from, octets };
        enter(&mut self.log, seat, what, reply_of(answer));
        answer
    }

    /// Closes the next cycle to changes and returns its number.
    ///
    /// # Errors
    /// `CyclesSpent` after 100,000 Seals. `Memory` if an allocation fails. Neither changes anything.
    pub fn seal(&mut self, seat: u16) -> Result<Cycle, SealFault>
        ensures requests { self.new.requests ≡ self.old.requests }
        ensures script { self.new.script ≡ self.old.script }
        ensures closes { ClosesCycle self.old.administration self.new.administration seat result }
    {
        let cycle = self.state.next_cycle();
        if cycle.0 >= MOST_SEALS {
            return Err(SealFault::CyclesSpent);
        }
        self.log.reserve(1)?;
        state_follows_history();
        self.state.seal();
        enter(&mut self.log, seat, What::Seal, Reply::Sealed);
        Ok(cycle)
    }

    /// Returns the most that the streams held in the next cycle cost on a link of the domain in any cycle, in octets: never more than the
    /// link's budget.
    pub fn held_on(&self, link: u16) -> Octets
        requires { link < length self.now.administration.domain.links }
        ensures held { result.0 ≡ most_cost (held_of self.now.administration) link }
        ensures within { result.0 ≤ budget self.now.administration.domain link }
    {
        state_follows_history();
        self.state.taken_of(self.domain, link)
    }
}
