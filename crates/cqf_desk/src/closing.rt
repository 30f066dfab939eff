//! The comparisons that are made when a desk is closed.
ghost use Rattle.std.specs.Prelude.{ℕ, ◌≡◌, ◌↔◌, ◌++◌, ◌==◌, ◌<◌, true, false, None, Some, length, map, min, All, Err, IfErr, IfOk, IsErrOf};
ghost use Rattle.std.specs.List.{list_any};
ghost use Rattle.std.specs.Option.{option_map_or};
ghost use Rattle.cqf_model.specs.History.{IsLegalHistory};
ghost use Rattle.cqf_model.specs.Calls.{calls_by};
ghost use Rattle.cqf_admission.specs.Admission.{recorded_of};
ghost use Rattle.cqf_desk.specs.Closing.{AreItsSeats, ComesToLeast, IsBorneOut, IsClosed, IsOneOrCount, Settles, tables_by};

use crate::again::has_tables;
use crate::faults::CloseFault;
use crate::following::{entries_after, has_seal};
use crate::history::History;
use crate::same::is_same_entry;
use crate::seats::Seat;
use cqf_admission::{Admission, Entry, Table};
use cqf_units::Memory;
use std::alloc::Global;

/// Returns whether one of the seats has the number.
fn is_there(seats: &[Seat], number: u16) -> bool
    ensures { result ≡ list_any (λ s. s.number == number) seats.now }
{
    seats.iter().any(|seat| seat.number() == number)
}

/// Returns whether these are the seats of a desk with `count` seats: that many, one for each number.
pub(crate) fn are_its_seats(count: u16, seats: &[Seat]) -> bool
    ensures { (result ≡ true) ↔ AreItsSeats count seats.now }
{
    if seats.len() != usize::from(count) {
        return false;
    }
    for number in 0..count {
        if !is_there(seats, number) {
            return false;
        }
    }
    true
}

/// Returns whether each of the calls has a seat below `count`.
fn are_known(rest: &[Entry], count: u16) -> bool
    ensures { (result ≡ true) ↔ All (λ e. e.seat < count) rest.now }
{
    rest.iter().all(|entry| entry.seat < count)
}

/// Returns whether these are the calls of the seat among all calls.
fn has_calls(calls: &[Entry], rest: &[Entry], number: u16) -> bool
    ensures { (result ≡ true) ↔ (map recorded_of calls.now ≡ calls_by number (map recorded_of rest.now)) }
{
    let mut next = 0;
    for entry in rest {
        if entry.seat == number {
            if next >= calls.len() {
                return false;
            }
            if !is_same_entry(&calls[next], entry) {
                return false;
            }
            next += 1;
        }
    }
    next == calls.len()
}

/// Returns whether these are the tables that a seat's Seals close after an opening part.
fn closes_tables(
    alloc: Global,
    opening: &Admission,
    rest: &[Entry],
    number: u16,
    tables: &[Table],
) -> Result<bool, Memory>
    requires { IsLegalHistory opening.now.domain (opening.now.entries ++ map recorded_of rest.now) }
    ensures { IfOk result (λ so. (so ≡ true) ↔
        (tables.now ≡ tables_by opening.now.domain (opening.now.entries ++ map recorded_of rest.now) (length opening.now.entries) number)) }
{
    let mut again = opening.try_copy(alloc)?;
    let so = has_tables(&mut again, rest, number, tables)?;
    Ok(so)
}

/// Returns whether the seat's tables are those that its Seals close. The calls are made again only if the seat has sealed and its follower
/// hasn't followed this history.
fn has_its_tables(
    alloc: Global,
    opening: &Admission,
    rest: &[Entry],
    seat: &Seat,
) -> Result<bool, Memory>
    requires { IsLegalHistory opening.now.domain (opening.now.entries ++ map recorded_of rest.now) }
    ensures { IfOk result (λ so. (so ≡ true) ↔
        (seat.now.tables ≡ tables_by opening.now.domain (opening.now.entries ++ map recorded_of rest.now) (length opening.now.entries) seat.now.number)) }
{
    let tables = seat.tables();
    let number = seat.number();
    if tables.len() == 0 && !has_seal(rest, number) {
        return Ok(true);
    }
    if seat.has_followed(opening, rest) {
        return Ok(true);
    }
    closes_tables(alloc, opening, rest, number, tables)
}

/// Returns whether the seat's calls and tables are those of the history with these calls after its opening part.
fn bears_out(
    alloc: Global,
    opening: &Admission,
    rest: &[Entry],
    seat: &Seat,
) -> Result<bool, Memory>
    requires { IsLegalHistory opening.now.domain (opening.now.entries ++ map recorded_of rest.now) }
    ensures { IfOk result (λ so. (so ≡ true) ↔
        IsBorneOut opening.now.domain (opening.now.entries ++ map recorded_of rest.now) (length opening.now.entries) seat.now) }
{
    if !has_calls(seat.calls(), rest, seat.number()) {
        return Ok(false);
    }
    has_its_tables(alloc, opening, rest, seat)
}

/// Returns the least number of a seat that the history doesn't bear out, or `None` if it bears all of them out.
fn first_against(
    alloc: Global,
    opening: &Admission,
    rest: &[Entry],
    seats: &[Seat],
) -> Result<Option<u16>, Memory>
    requires { IsLegalHistory opening.now.domain (opening.now.entries ++ map recorded_of rest.now) }
    ensures { IfOk result (ComesToLeast opening.now.domain (opening.now.entries ++ map recorded_of rest.now) (length opening.now.entries) seats.now) }
{
    let mut least = None;
    for seat in seats {
        let is_borne = bears_out(alloc, opening, rest, seat)?;
        least = least_with(least, is_borne, seat.number());
    }
    Ok(least)
}

/// Returns the least number so far, given one more seat and whether it is borne out.
fn least_with(least: Option<u16>, is_borne: bool, number: u16) -> Option<u16>
    ensures borne { is_borne ≡ true → result ≡ least }
    ensures against { is_borne ≡ false → result ≡ Some (option_map_or (λ n. min n number) least number) }
{
    if is_borne {
        return least;
    }
    Some(lesser(least, number))
}

/// Returns the smaller of two numbers. The first may be missing.
fn lesser(least: Option<u16>, number: u16) -> u16
    ensures { result ≡ option_map_or (λ n. min n number) least number }
{
    match least {
        Some(before) => before.min(number),
        None => number,
    }
}

/// Compares the history of an admission with what the seats kept.
fn check(
    alloc: Global,
    opening: &Admission,
    count: u16,
    held: &Admission,
    seats: &[Seat],
) -> Result<(), CloseFault>
    ensures { Settles opening.now count held.now seats.now result }
{
    held.know();
    let Some(rest) = entries_after(opening, held) else {
        return Err(CloseFault::SeatsDisagree(count));
    };
    if let Some(seat) = first_against(alloc, opening, rest, seats)? {
        return Err(CloseFault::SeatsDisagree(seat));
    }
    if !are_known(rest, count) {
        return Err(CloseFault::SeatsDisagree(count));
    }
    Ok(())
}

/// Returns the history of a desk, given its own seats, if it is what they kept.
pub(crate) fn settle(
    alloc: Global,
    opening: &Admission,
    count: u16,
    held: Admission,
    seats: &[Seat],
) -> Result<History, CloseFault>
    requires { AreItsSeats count seats.now }
    ensures missing { IsErrOf result CloseFault.SeatMissing → ⊥ }
    ensures named { (number : ℕ) → IsErrOf result (CloseFault.SeatsDisagree number) → IsOneOrCount count seats.now number }
    ensures closed { IfOk result (λ history. IsClosed (record { opening = opening.now; seats = count }) seats.now history) }
    ensures legal { IsLegalHistory held.domain held.entries }
    ensures fault { IfErr result (λ fault. Settles opening.now count held seats.now (Err fault)) }
{
    held.know();
    match check(alloc, opening, count, &held, seats) {
        Ok(()) => Ok(History {
            opening: opening.history().len(),
            entries: held.into_history(),
        }),
        Err(fault) => Err(fault),
    }
}
