//! The follower of a desk's history, for a seat that seals.
ghost use Rattle.std.specs.Prelude.{ℕ, ◌≡◌, ◌++◌, List, [], ◌∷◌, Ok, true, false, drop, length, map, IfOk, IfSome, MatchOption};
ghost use Rattle.std.specs.List.{list_any};
ghost use Rattle.cqf_admission.specs.Admission.{recorded_of};
ghost use Rattle.cqf_desk.specs.Again.{FollowerHasGone};
ghost use Rattle.cqf_desk.specs.Closing.{HasOpening, is_seal_by};
ghost use Rattle.cqf_admission.specs.Tables.{CycleTable};
ghost use Rattle.cqf_desk.specs.Following.{AreFollowed, AreFollowedWith, ClosesOwn, FollowsSeat, HasFollowed, HasTables, IsUpToSeal, StayFollowed};

use crate::again::{Made, has_tables, make};
use crate::same::are_same_entries;
use cqf_admission::{Admission, Call, Entry, Reply, Table};
use cqf_laws_history::{closed_tables_stay, state_follows_history};
use cqf_units::Memory;
use std::alloc::{AllocError, Global};

/// A copy of the admission with which a desk was made. All calls up to a seat's last Seal were made again on it.
#[derive(Debug, Drop)]
pub(crate) struct Follower {
    /// The number of entries of the opening part.
    first: usize,
    admission: Admission,
}

/// How far a follower got with some calls.
pub(crate) enum Followed {
    /// It made all of them.
    All,
    /// One is a Seal of its seat, or is answered otherwise.
    Otherwise,
    /// An allocation failed. The follower has made the calls before, and can continue from there.
    Memory,
}

/// Returns whether an entry is a Seal of the seat.
fn is_seal_of(entry: &Entry, number: u16) -> bool
    ensures { result ≡ is_seal_by number (recorded_of entry.now) }
{
    entry.seat == number && matches!(entry.call, Call::Seal)
}

/// Returns whether one of the calls is a Seal of the seat.
pub(crate) fn has_seal(rest: &[Entry], number: u16) -> bool
    ensures { result ≡ list_any (λ e. is_seal_by number (recorded_of e)) rest.now }
{
    rest.iter().any(|entry| is_seal_of(entry, number))
}

/// Returns whether the followed calls are the first of these, and no Seal of the seat comes after them.
fn are_up_to_seal(followed: &[Entry], rest: &[Entry], number: u16) -> bool
    ensures { result ≡ true → IsUpToSeal (map recorded_of followed.now) (map recorded_of rest.now) number }
{
    if rest.len() < followed.len() {
        return false;
    }
    let (front, following) = rest.split_at(followed.len());
    if has_seal(following, number) {
        return false;
    }
    are_same_entries(followed, front)
}

/// Returns the entries of an admission after an opening part, or `None` if the admission doesn't have this part in the same domain.
pub(crate) fn entries_after<'a>(opening: &Admission, held: &'a Admission) -> Option<&'a [Entry]>
    ensures { MatchOption result (HasOpening opening.now held.now → ⊥) (λ rest. FollowerHasGone opening.now held.now (map recorded_of rest.now)) }
{
    if !held.domain().is_same(opening.domain()) {
        return None;
    }
    let history = held.history();
    let start = opening.history();
    if history.len() < start.len() {
        return None;
    }
    let (first, rest) = history.split_at(start.len());
    if !are_same_entries(first, start) {
        return None;
    }
    Some(rest)
}

impl Follower {
    /// Makes a call again that isn't a Seal of the seat.
    fn passes(&mut self, entry: &Entry, number: u16) -> Followed
        ensures { FollowsSeat self.old self.new number (recorded_of entry.now ∷ []) result }
    {
        closed_tables_stay();
        state_follows_history();
        if is_seal_of(entry, number) {
            return Followed::Otherwise;
        }
        match make(&mut self.admission, entry) {
            Made::Answered => Followed::All,
            Made::Closed(_table) => Followed::All,
            Made::Otherwise => Followed::Otherwise,
            Made::Memory => Followed::Memory,
        }
    }

    /// Makes all of these calls again. None of them may be a Seal of the seat.
    fn passes_all(&mut self, others: &[Entry], number: u16) -> Followed
        ensures { FollowsSeat self.old self.new number (map recorded_of others.now) result }
    {
        for entry in others {
            match self.passes(entry, number) {
                Followed::All => {}
                Followed::Otherwise => return Followed::Otherwise,
                Followed::Memory => return Followed::Memory,
            }
        }
        Followed::All
    }

    /// Follows a history. None of its calls after those already made may be a Seal of the seat.
    fn follow(&mut self, history: &[Entry], number: u16) -> Followed
        ensures { FollowsSeat self.old self.new number (drop (length self.old.admission.entries) (map recorded_of history.now)) result }
    {
        let done = self.admission.history().len();
        if history.len() < done {
            return Followed::Otherwise;
        }
        self.passes_all(history.split_at(done).1, number)
    }

    /// Makes a Seal of the seat, and returns its table.
    fn closes(&mut self, number: u16) -> Made
        ensures { ClosesOwn self.old self.new number result }
    {
        closed_tables_stay();
        state_follows_history();
        let own = Entry {
            seat: number,
            call: Call::Seal,
            reply: Reply::Sealed,
        };
        if !is_seal_of(&own, number) {
            return Made::Otherwise;
        }
        match make(&mut self.admission, &own) {
            Made::Closed(table) => Made::Closed(table),
            Made::Answered => Made::Otherwise,
            Made::Otherwise => Made::Otherwise,
            Made::Memory => Made::Memory,
        }
    }

    /// Returns whether the follower has followed the history with these calls after its opening part, up to the seat's last Seal in it.
    pub(crate) fn has_followed(&self, opening: &Admission, rest: &[Entry], number: u16) -> bool
        ensures { result ≡ true → HasFollowed self.now opening.now (map recorded_of rest.now) number }
    {
        closed_tables_stay();
        state_follows_history();
        if self.first != opening.history().len() {
            return false;
        }
        match entries_after(opening, &self.admission) {
            Some(followed) => are_up_to_seal(followed, rest, number),
            None => false,
        }
    }
}

/// Returns a follower of a history for a seat with these tables: a copy of the admission with which the desk was made, on which all calls
/// of the history were made again. Returns `None` if a call is answered otherwise, or if a Seal of the seat closes another table.
fn joined(
    alloc: Global,
    opening: &Admission,
    history: &[Entry],
    number: u16,
    tables: &[Table],
) -> Result<Option<Follower>, Memory>
    ensures { IfOk result (λ found. IfSome found (λ f. HasTables f number tables.now)) }
{
    let start = opening.history();
    if history.len() < start.len() {
        return Ok(None);
    }
    let mut again = opening.try_copy(alloc)?;
    match has_tables(&mut again, history.split_at(start.len()).1, number, tables) {
        Ok(true) => Ok(Some(Follower {
            first: start.len(),
            admission: again,
        })),
        Ok(false) => Ok(None),
        Err(fault) => Err(fault),
    }
}

/// Makes a follower of the history for a seat with these tables, if the history can be followed. Returns `Memory` if an allocation fails.
fn join(
    follower: &mut Vec<Follower>,
    alloc: Global,
    opening: &Admission,
    history: &[Entry],
    number: u16,
    tables: &[Table],
) -> Result<(), Memory>
    ensures { AreFollowed follower.new.items number tables.now }
{
    follower.clear();
    if follower.reserve(1).is_err() {
        return Err(AllocError);
    }
    match joined(alloc, opening, history, number, tables) {
        Ok(Some(joined)) => {
            follower.push(joined).unwrap();
            Ok(())
        }
        Ok(None) => Ok(()),
        Err(fault) => Err(fault),
    }
}

/// Makes the follower, if there is one, continue with the calls that it hasn't made. None of these is a Seal of the seat. A follower that
/// can't continue is dropped. Returns `Memory` if an allocation fails; the follower can then continue from there.
fn go_on(follower: &mut Vec<Follower>, history: &[Entry], number: u16) -> Result<(), Memory>
    ensures { StayFollowed follower.old.items follower.new.items number }
{
    let Some(following) = follower.first_mut() else {
        return Ok(());
    };
    match following.follow(history, number) {
        Followed::All => return Ok(()),
        Followed::Memory => return Err(AllocError),
        Followed::Otherwise => {}
    }
    follower.clear();
    Ok(())
}

/// Brings a seat's follower up to the end of the history. If an opening part is given, the follower is made anew from it; otherwise the
/// present one continues. Returns `Memory` if an allocation fails.
pub(crate) fn catch_up(
    follower: &mut Vec<Follower>,
    alloc: Global,
    opening: Option<&Admission>,
    history: &[Entry],
    number: u16,
    tables: &[Table],
) -> Result<(), Memory>
    ensures { AreFollowed follower.old.items number tables.now → AreFollowed follower.new.items number tables.now }
{
    match opening {
        Some(opening) => join(follower, alloc, opening, history, number, tables),
        None => go_on(follower, history, number),
    }
}

/// Makes a Seal of the seat on its follower. Returns the Seal's table, or `None` if there is no follower. Returns `Memory` if an allocation
/// fails; then the follower hasn't made the Seal.
pub(crate) fn close_own(follower: &mut Vec<Follower>, number: u16) -> Result<Option<Table>, Memory>
    ensures { (tables : List CycleTable) → AreFollowed follower.old.items number tables → AreFollowedWith follower.new.items number tables result }
{
    let Some(following) = follower.first_mut() else {
        return Ok(None);
    };
    match following.closes(number) {
        Made::Closed(table) => return Ok(Some(table)),
        Made::Memory => return Err(AllocError),
        Made::Otherwise => {}
        Made::Answered => {}
    }
    follower.clear();
    Ok(None)
}

/// Returns the table that a seat keeps of a Seal that returned `table`: the follower's own. If there is none, or it is of another cycle,
/// the follower is dropped, and `table` is returned.
pub(crate) fn kept(follower: &mut Vec<Follower>, own: Option<Table>, table: Table) -> Table
    ensures followed { (number : ℕ) → (tables : List CycleTable) → AreFollowedWith follower.old.items number tables (Ok own) →
        AreFollowed follower.new.items number (tables ++ result ∷ []) }
    ensures cycle { result.cycle ≡ table.cycle }
{
    if let Some(own) = own {
        if own.cycle() == table.cycle() {
            return own;
        }
    }
    follower.clear();
    table
}
