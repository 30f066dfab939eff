//! The seats of a desk.
ghost use Rattle.std.specs.Arc.{arc_value};
ghost use Rattle.std.specs.Prelude.{◌≡◌, ◌↔◌, ◌-◌, ◌≤◌, ◌<◌, ◌++◌, [], ◌∷◌, true, false, length, map, option_copied};
ghost use Rattle.std.specs.Prelude.{slice_get, string_bytes, vec_len, vec_capacity, Err};
ghost use Rattle.cqf_model.specs.History.{Admits, IsLegalHistory, Withdraws};
ghost use Rattle.cqf_admission.specs.Admission.{Closes, calls, is_entered, recorded_of, reply_of};
ghost use Rattle.cqf_admission.specs.Asking.{asked_of, asked_paced};
ghost use Rattle.cqf_desk.specs.Closing.{tables_by};
ghost use Rattle.cqf_desk.specs.Desk.{IsAnswered, IsSealed, Keeps};
ghost use Rattle.cqf_model.specs.Limits.{most_calls};

use crate::following::{Follower, catch_up, close_own, kept};
use cqf_admission::{
    Admission, Call, Entry, MOST_CALLS, MOST_SEALS, Receipt, Refused, Reply, SealFault,
    SharedRequest, Table,
};
use cqf_topology::Request;
use std::alloc::Global;
use std::marker::Model;
use std::sync::Arc;

/// A seat of a desk: a number, the calls that were made with it, in order, with their answers, and the tables of its Seals. A seat that
/// seals follows the history: at each Seal all calls up to it have been made again on a copy of the admission with which the desk was made,
/// unless one was answered otherwise.
#[derive(Debug, Drop)]
pub struct Seat {
    number: u16,
    calls: Vec<Entry>,
    tables: Vec<Table>,
    /// The follower of the history, at most one. Its tables are those of the seat. It is in a `Vec`, so that a seat and its follower are
    /// dropped in one step.
    follower: Vec<Follower>,
    /// Whether a follower is to be made at the next Seal: there was none yet, or the last one was ahead by a Seal for which an allocation
    /// failed.
    joins: bool,
}

impl Model for Seat {
    ghost use Rattle.std.specs.Prelude.{map};
    ghost use Rattle.cqf_admission.specs.Admission.{recorded_of};
    ghost use Rattle.cqf_desk.specs.Desk.{Sitting};
    ghost use Rattle.cqf_desk.specs.Following.{AreFollowed};

    ghost Value = { Sitting };

    ghost view = { λ s. record { number = s.number; calls = map recorded_of s.calls.items; tables = s.tables.items } };

    ghost invariant = { λ s. AreFollowed s.follower.items s.number s.tables.items };
}

impl Seat {
    /// Returns a seat before any call.
    pub(crate) fn new(alloc: Global, number: u16) -> Seat
        ensures { result ≡ record { number = number; calls = []; tables = [] } }
    {
        Seat {
            number,
            calls: Vec::new(alloc),
            tables: Vec::new(alloc),
            follower: Vec::new(alloc),
            joins: true,
        }
    }

    /// Returns the seat's number, from 0. Entries of the history have this number.
    pub fn number(&self) -> u16
        ensures { result ≡ self.now.number }
    {
        self.number
    }

    /// Returns the table of the seat's newest Seal, or `None` if the seat hasn't sealed a cycle. Requests no memory.
    pub fn last_table(&self) -> Option<&Table>
        ensures { option_copied result ≡ slice_get self.now.tables (length self.now.tables - 1) }
    {
        self.tables.last()
    }

    /// Returns the calls that were made with the seat.
    pub(crate) fn calls(&self) -> &[Entry]
        ensures { map recorded_of result.now ≡ self.now.calls }
    {
        self.calls.as_slice()
    }

    pub(crate) fn tables(&self) -> &[Table]
        ensures { result.now ≡ self.now.tables }
    {
        self.tables.as_slice()
    }

    /// Returns whether the seat's follower shows that the seat's tables are those that its Seals close in the history with these calls
    /// after its opening part.
    pub(crate) fn has_followed(&self, opening: &Admission, rest: &[Entry]) -> bool
        ensures { result ≡ true →
            self.now.tables ≡ tables_by opening.now.domain (opening.now.entries ++ map recorded_of rest.now) (length opening.now.entries) self.now.number }
    {
        match self.follower.first() {
            Some(follower) => follower.has_followed(opening, rest, self.number),
            None => false,
        }
    }

    /// Makes a request to an admission, and keeps it with its answer. `asked` is a copy of the request.
    pub(crate) fn admit(
        &mut self,
        admission: &mut Admission,
        asked: Request,
        request: &Request,
    ) -> Result<Receipt, Refused>
        requires { asked_of asked ≡ asked_of request.now }
        ensures legal { IsLegalHistory admission.old.domain admission.old.entries }
        ensures answered { IsAnswered admission.old admission.new self.old.number (Admits (asked_of request.now)) result }
        ensures keeps { Keeps self.old self.new (Admits (asked_of request.now)) result }
    {
        admission.know();
        if self.calls.reserve(1).is_err() {
            return unasked(admission);
        }
        let answer = admission.admit(self.number, request);
        keep(&mut self.calls, self.number, Call::Admit(asked), answer);
        answer
    }

    /// Makes a request with a pace to an admission, and keeps it with its answer. `asked` shares the request.
    pub(crate) fn admit_shared(
        &mut self,
        admission: &mut Admission,
        asked: Arc<SharedRequest>,
        request: &Arc<SharedRequest>,
    ) -> Result<Receipt, Refused>
        requires { arc_value asked ≡ arc_value request.now }
        ensures legal { IsLegalHistory admission.old.domain admission.old.entries }
        ensures answered { IsAnswered admission.old admission.new self.old.number (Admits (asked_paced (arc_value request.now))) result }
        ensures keeps { Keeps self.old self.new (Admits (asked_paced (arc_value request.now))) result }
    {
        admission.know();
        if self.calls.reserve(1).is_err() {
            return unasked(admission);
        }
        let answer = admission.admit_shared(self.number, request);
        keep(
            &mut self.calls,
            self.number,
            Call::AdmitPaced(asked),
            answer,
        );
        answer
    }

    /// Makes a withdrawal to an admission, and keeps it with its answer. `asked` is a copy of the name.
    pub(crate) fn withdraw(
        &mut self,
        admission: &mut Admission,
        asked: String,
        name: &str,
    ) -> Result<Receipt, Refused>
        requires { string_bytes asked ≡ name.now }
        ensures legal { IsLegalHistory admission.old.domain admission.old.entries }
        ensures answered { IsAnswered admission.old admission.new self.old.number (Withdraws name.now) result }
        ensures keeps { Keeps self.old self.new (Withdraws name.now) result }
    {
        admission.know();
        if self.calls.reserve(1).is_err() {
            return unasked(admission);
        }
        let answer = admission.withdraw(self.number, name);
        keep(&mut self.calls, self.number, Call::Withdraw(asked), answer);
        answer
    }

    /// Closes the next cycle of an admission to changes, and keeps the Seal and its table. The first Seal makes a follower from the
    /// admission with which the desk was made. If any allocation fails, including those of the follower, the Seal is refused.
    pub(crate) fn seal(
        &mut self,
        alloc: Global,
        opening: &Admission,
        admission: &mut Admission,
    ) -> Result<(), SealFault>
        ensures legal { IsLegalHistory admission.old.domain admission.old.entries }
        ensures sealed { IsSealed admission.old admission.new self.old self.new result }
    {
        admission.know();
        if admission.next_cycle().0 >= MOST_SEALS {
            return Err(unsealed(admission));
        }
        if self.calls.reserve(1).is_err() {
            return Err(unsealed(admission));
        }
        if self.tables.reserve(1).is_err() {
            return Err(unsealed(admission));
        }
        let (history, tables) = (admission.history(), self.tables.as_slice());
        let start = if self.joins { Some(opening) } else { None };
        if catch_up(
            &mut self.follower,
            alloc,
            start,
            history,
            self.number,
            tables,
        )
        .is_err()
        {
            return Err(unsealed(admission));
        }
        self.joins = false;
        let Ok(own) = close_own(&mut self.follower, self.number) else {
            return Err(unsealed(admission));
        };
        match admission.seal(self.number) {
            Ok(table) => {
                let own = kept(&mut self.follower, own, table);
                self.tables.push(own).unwrap();
                enter(&mut self.calls, self.number, Call::Seal, Reply::Sealed);
                Ok(())
            }
            Err(fault) => {
                // the follower has made a Seal that isn't in the history: the next Seal makes a new follower
                self.follower.clear();
                self.joins = true;
                Err(fault)
            }
        }
    }
}

/// Returns the answer to a request or a withdrawal for which an allocation failed.
pub(crate) fn unasked(admission: &Admission) -> Result<Receipt, Refused>
    ensures legal { IsLegalHistory admission.now.domain admission.now.entries }
    ensures full { (result ≡ Err Refused.HistoryFull) ↔ (most_calls ≤ calls admission.now.entries) }
    ensures left { is_entered result ≡ false }
{
    if admission.history().len() >= MOST_CALLS + admission.next_cycle().0 as usize {
        return Err(Refused::HistoryFull);
    }
    Err(Refused::Memory)
}

/// Returns why a cycle isn't closed if an allocation for its Seal failed.
fn unsealed(admission: &Admission) -> SealFault
    ensures { Closes admission.now admission.now 0 (Err result) }
{
    if admission.next_cycle().0 >= MOST_SEALS {
        return SealFault::CyclesSpent;
    }
    SealFault::Memory
}

/// Returns whether a call with this answer enters the history.
pub(crate) fn enters(answer: &Result<Receipt, Refused>) -> bool
    ensures { result ≡ is_entered answer.now }
{
    match answer {
        Ok(_) => true,
        Err(refused) => match refused {
            Refused::HistoryFull | Refused::Memory => false,
            _ => true,
        },
    }
}

/// Returns the answer as the history has it.
pub(crate) fn reply_of(answer: Result<Receipt, Refused>) -> Reply
    ensures { result ≡ reply_of answer }
{
    match answer {
        Ok(receipt) => Reply::Accepted(receipt),
        Err(refused) => Reply::Refused(refused),
    }
}

/// Appends a call to a seat's calls, which have room for it.
fn enter(calls: &mut Vec<Entry>, seat: u16, call: Call, reply: Reply)
    requires { vec_len calls.old < vec_capacity calls.old }
    ensures { calls.new.items ≡ calls.old.items ++ record { seat = seat; call = call; reply = reply } ∷ [] }
{
    calls.push(Entry { seat, call, reply }).unwrap();
}

/// Appends a call with its answer to a seat's calls, which have room for it, if the call has entered the history.
fn keep(calls: &mut Vec<Entry>, seat: u16, call: Call, answer: Result<Receipt, Refused>)
    requires { vec_len calls.old < vec_capacity calls.old }
    ensures entered { is_entered answer ≡ true → calls.new.items ≡ calls.old.items ++ record { seat = seat; call = call; reply = reply_of answer } ∷ [] }
    ensures unchanged { is_entered answer ≡ false → calls.new.items ≡ calls.old.items }
{
    if enters(&answer) {
        enter(calls, seat, call, reply_of(answer));
    }
}
