//! Seals at a desk with two seats, made by the second, and closing the desk.
use crate::desks::{DeskAndSeats, closed_with, desk_with, is_history};
use cqf_admission::{SealFault, Table};
use cqf_desk::{CloseFault, Desk, Seat};
use cqf_refused_values::{Reported, X, looked_at, mark, once, trial, twice};
use cqf_units::Cycle;
use std::alloc::Global;
use std::sync::Wait;

/// The state of a seat: the cycle of its newest table and the number of its rows, if it has one.
type Standing = Option<(u32, usize)>;

/// Whether a table is of the cycle, and has this number of rows, the first being that of `x`.
fn is_table(table: &Table, cycle: u32, rows: usize) -> bool {
    let is_x = match table.row_of(0) {
        Some(row) => row.name.as_str() == "x" && row.octets == 1500,
        None => rows == 0,
    };
    is_x && table.cycle() == Cycle(cycle) && table.rows().len() == rows
}

/// Whether a seat is in this state.
fn stands(seat: &Seat, standing: Standing) -> bool {
    match (seat.last_table(), standing) {
        (None, None) => true,
        (Some(table), Some((cycle, rows))) => is_table(table, cycle, rows),
        _ => false,
    }
}

/// The states of a seat before and after a Seal.
type Sealing = (Standing, Standing);

/// Closes a cycle, and repeats that if memory was lacking. The history isn't checked here.
fn sealed<R: Wait>(
    rt: &R,
    alloc: Global,
    desk: &Desk,
    seat: &mut Seat,
    sealing: Sealing,
) -> Reported {
    let (before, following) = sealing;
    trial!(
        alloc,
        desk.seal(rt, seat),
        Err(SealFault::Memory),
        stands(seat, before),
        |answer| answer == Ok(()) && stands(seat, following)
    )
}

pub(crate) fn seal_reported<R: Wait>(rt: &R, alloc: Global) -> Option<Reported> {
    let sealing = (None, Some((0, 1)));
    let text = "0 admit x accepted 0 0\n1 seal\n";
    let (desk, mut seats) = desk_with(alloc, &[X])?;
    let reported = sealed(rt, alloc, &desk, seats.get_mut(1)?, sealing);
    Some(closed_with(alloc, (desk, seats), reported, 1, text))
}

/// Whether the second seat can seal a cycle, the first one withdraw `x`, and the second one seal another cycle, and then
/// another withdrawal of `x` is refused.
fn goes_on<R: Wait>(rt: &R, desk: &Desk, seats: &mut [Seat]) -> bool {
    match seats {
        [asking, sealing] => {
            desk.seal(rt, sealing).is_ok()
                && desk.withdraw(rt, asking, "x").is_ok()
                && desk.seal(rt, sealing).is_ok()
                && desk.withdraw(rt, asking, "x").is_err()
        }
        _ => false,
    }
}

/// Returns a desk at which they did.
fn worked<R: Wait>(rt: &R, alloc: Global) -> Option<DeskAndSeats> {
    let (desk, mut seats) = desk_with(alloc, &[X])?;
    if goes_on(rt, &desk, seats.as_mut_slice()) {
        Some((desk, seats))
    } else {
        None
    }
}

/// The history after that; `LATER` has one Seal more.
const WORKED: &str = "0 admit x accepted 0 0\n1 seal\n0 withdraw x accepted 0 1\n1 seal\n\
    0 withdraw x refused AlreadyWithdrawn\n";

const LATER: &str = "0 admit x accepted 0 0\n1 seal\n0 withdraw x accepted 0 1\n1 seal\n\
    0 withdraw x refused AlreadyWithdrawn\n1 seal\n";

pub(crate) fn later_reported<R: Wait>(rt: &R, alloc: Global) -> Option<Reported> {
    let sealing = (Some((1, 1)), Some((2, 1)));
    let (desk, mut seats) = worked(rt, alloc)?;
    let reported = sealed(rt, alloc, &desk, seats.get_mut(1)?, sealing);
    Some(closed_with(alloc, (desk, seats), reported, 1, LATER))
}

/// Closes a desk whose second seat followed the history, which allocates no memory.
pub(crate) fn followed_reported<R: Wait>(rt: &R, alloc: Global) -> Option<Reported> {
    let (desk, seats) = worked(rt, alloc)?;
    mark(alloc);
    let closed = desk.close(seats);
    mark(alloc);
    Some(once(is_history(alloc, &closed, 1, WORKED)))
}

/// Whether the first seat requests a withdrawal in vain, and the second one seals a cycle.
fn refused_and_sealed<R: Wait>(rt: &R, desk: &Desk, seats: &mut [Seat]) -> bool {
    match seats {
        [asking, sealing] => {
            desk.withdraw(rt, asking, "y").is_err() && desk.seal(rt, sealing).is_ok()
        }
        _ => false,
    }
}

/// Returns the second seat of a desk at which only a cycle was sealed.
fn sealed_alone<R: Wait>(rt: &R, alloc: Global) -> Option<Seat> {
    let (desk, mut seats) = desk_with(alloc, &[X])?;
    let mut seat = seats.pop()?;
    if desk.seal(rt, &mut seat).is_ok() {
        Some(seat)
    } else {
        None
    }
}

/// Returns a desk with such a seat of another desk in place of its own second one. That seat followed another history,
/// so its table, which is the same, is compared when the desk is closed.
fn with_strange_seat<R: Wait>(rt: &R, alloc: Global) -> Option<DeskAndSeats> {
    let (desk, mut seats) = desk_with(alloc, &[X])?;
    if !refused_and_sealed(rt, &desk, seats.as_mut_slice()) {
        return None;
    }
    let strange = sealed_alone(rt, alloc)?;
    let _own = seats.pop()?;
    match seats.push(strange) {
        Ok(()) => Some((desk, seats)),
        Err(_) => None,
    }
}

/// The history after that.
const IN_VAIN: &str = "0 admit x accepted 0 0\n0 withdraw y refused NotHeld\n1 seal\n";

/// Tries to close a desk; if that fails, closes its twin.
fn closed(alloc: Global, made: DeskAndSeats, twin: DeskAndSeats) -> Reported {
    let (desk, seats) = made;
    let (other, others) = twin;
    mark(alloc);
    let first = desk.close(seats);
    mark(alloc);
    match first {
        Err(CloseFault::Memory) => {
            twice(true, is_history(alloc, &other.close(others), 1, IN_VAIN))
        }
        ended => {
            drop(other);
            drop(others);
            once(is_history(alloc, &ended, 1, IN_VAIN))
        }
    }
}

pub(crate) fn close_reported<R: Wait>(rt: &R, alloc: Global) -> Option<Reported> {
    let made = with_strange_seat(rt, alloc)?;
    let twin = with_strange_seat(rt, alloc)?;
    Some(closed(alloc, made, twin))
}

/// Whether a seat's newest table is that of cycle 0.
fn has_table(seat: &Seat) -> bool {
    match seat.last_table() {
        Some(table) => table.cycle() == Cycle(0) && table.rows().len() == 1,
        None => false,
    }
}

/// Seals by a seat, and then observes it, which allocates no memory.
fn seat_seen<R: Wait>(rt: &R, alloc: Global, desk: &Desk, seats: &mut [Seat]) -> Option<Reported> {
    let seat = seats.get_mut(1)?;
    if desk.seal(rt, seat).is_err() {
        return None;
    }
    Some(looked_at!(alloc, has_table(seat) && seat.number() == 1))
}

pub(crate) fn seat_reported<R: Wait>(rt: &R, alloc: Global) -> Option<Reported> {
    let (desk, mut seats) = desk_with(alloc, &[X])?;
    seat_seen(rt, alloc, &desk, seats.as_mut_slice())
}
