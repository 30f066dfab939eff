//! The calls of a history, made again.
ghost use Rattle.std.specs.Prelude.{◌≡◌, ◌≢◌, ◌↔◌, ◌++◌, true, false, Some, length, map, slice_get, IfOk};
ghost use Rattle.cqf_model.specs.History.{IsLegalHistory};
ghost use Rattle.cqf_admission.specs.Admission.{recorded_of};
ghost use Rattle.cqf_desk.specs.Again.{ComesTo, FollowerComesTo, FollowerHasGone, IsAnsweredSo, IsClosedSo};
ghost use Rattle.cqf_desk.specs.Closing.{tables_by};

use crate::same::is_same_table;
use crate::seats::{enters, reply_of};
use cqf_admission::{Admission, Call, Entry, Receipt, Refused, Reply, SealFault, Table};
use cqf_laws_history::{closed_tables_stay, state_follows_history};
use cqf_units::Memory;
use std::alloc::AllocError;

/// The result of making a call again.
#[derive(Drop)]
pub(crate) enum Made {
    /// The call enters with the same answer.
    Answered,
    /// The call is a Seal, and closes this table.
    Closed(Table),
    /// The answer differs.
    Otherwise,
    /// An allocation failed.
    Memory,
}

/// Returns the result for a request or a withdrawal with this answer, given the reply that it got before.
fn answered(answer: Result<Receipt, Refused>, reply: Reply) -> Made
    ensures { IsAnsweredSo answer reply result }
{
    if answer == Err(Refused::Memory) {
        return Made::Memory;
    }
    if !enters(&answer) {
        return Made::Otherwise;
    }
    if reply_of(answer) != reply {
        return Made::Otherwise;
    }
    Made::Answered
}

/// Returns the result for a Seal with this answer, given the reply that it got before.
fn closed(answer: Result<Table, SealFault>, reply: Reply) -> Made
    ensures { IsClosedSo answer reply result }
{
    if reply != Reply::Sealed {
        return Made::Otherwise;
    }
    match answer {
        Ok(table) => Made::Closed(table),
        Err(SealFault::CyclesSpent) => Made::Otherwise,
        Err(SealFault::Memory) => Made::Memory,
    }
}

/// Makes a call again.
pub(crate) fn make(admission: &mut Admission, entry: &Entry) -> Made
    ensures { ComesTo admission.old admission.new (recorded_of entry.now) result }
{
    state_follows_history();
    match &entry.call {
        Call::Admit(request) => answered(admission.admit(entry.seat, request), entry.reply),
        Call::AdmitPaced(request) => answered(
            admission.admit_shared(entry.seat, request),
            entry.reply,
        ),
        Call::Withdraw(name) => answered(
            admission.withdraw(entry.seat, name.as_str()),
            entry.reply,
        ),
        Call::Seal => closed(admission.seal(entry.seat), entry.reply),
    }
}

/// Returns whether the table at an index is this one.
fn is_at(tables: &[Table], index: usize, table: &Table) -> bool
    ensures { (result ≡ true) ↔ (slice_get tables.now index ≡ Some table.now) }
{
    match tables.get(index) {
        Some(kept) => is_same_table(kept, table),
        None => false,
    }
}

/// Makes a call again. If the seat closes a table by it, looks for this table at index `next` of the seat's tables. Returns the index of
/// the next table, or `None` if the answer or the table differs.
fn step(
    again: &mut Admission,
    entry: &Entry,
    number: u16,
    tables: &[Table],
    next: usize,
) -> Result<Option<usize>, Memory>
    ensures { IfOk result (FollowerComesTo again.old again.new (recorded_of entry.now) number tables.now next) }
{
    match make(again, entry) {
        Made::Answered => Ok(Some(next)),
        Made::Closed(table) => {
            if entry.seat != number {
                return Ok(Some(next));
            }
            if next >= tables.len() {
                return Ok(None);
            }
            if !is_at(tables, next, &table) {
                return Ok(None);
            }
            Ok(Some(next + 1))
        }
        Made::Otherwise => Ok(None),
        Made::Memory => Err(AllocError),
    }
}

/// Returns whether these are the tables that a seat's Seals close when an admission continues with these calls, or `Memory` if an allocation
/// fails.
pub(crate) fn has_tables(
    again: &mut Admission,
    rest: &[Entry],
    number: u16,
    tables: &[Table],
) -> Result<bool, Memory>
    ensures closes { IfOk result (λ same. same ≡ true →
        tables.now ≡ tables_by again.old.domain (again.old.entries ++ map recorded_of rest.now) (length again.old.entries) number) }
    ensures differs { IfOk result (λ same. same ≡ false → IsLegalHistory again.old.domain (again.old.entries ++ map recorded_of rest.now) →
        tables.now ≢ tables_by again.old.domain (again.old.entries ++ map recorded_of rest.now) (length again.old.entries) number) }
    ensures goes { IfOk result (λ same. same ≡ true → FollowerHasGone again.old again.new (map recorded_of rest.now)) }
{
    closed_tables_stay();
    state_follows_history();
    let mut next = 0;
    for entry in rest {
        match step(again, entry, number, tables, next) {
            Ok(Some(after)) => next = after,
            Ok(None) => return Ok(false),
            Err(fault) => return Err(fault),
        }
    }
    Ok(next == tables.len())
}
