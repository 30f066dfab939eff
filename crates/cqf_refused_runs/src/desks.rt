//! Desks over the line with two seats, and the calls of administrators.
use cqf_admission::{Admission, Refused};
use cqf_desk::{CloseFault, Desk, History, Seat};
use cqf_refused_values::{
    PATH, Reported, SEVEN, X, granted, line_with, mark, once, trial, twice, writes,
};
use cqf_test_fixtures::{Asked, request};
use cqf_topology::Request;
use cqf_units::Memory;
use std::alloc::Global;
use std::sync::Wait;

/// A desk with its seats.
pub(crate) type DeskAndSeats = (Desk, Vec<Seat>);

/// Returns a desk with two seats over the line, with these streams held.
pub(crate) fn desk_with(alloc: Global, streams: &[Asked]) -> Option<DeskAndSeats> {
    Desk::new(alloc, line_with(alloc, streams)?, 2).ok()
}

/// Whether a history is this text, with this number of calls before the desk was opened.
pub(crate) fn is_history(
    alloc: Global,
    closed: &Result<History, CloseFault>,
    opening: usize,
    text: &str,
) -> bool {
    match closed {
        Ok(history) => {
            history.opening == opening && writes(alloc, history.entries.as_slice(), text)
        }
        Err(_) => false,
    }
}

/// Whether a desk with two seats was made that closes to this history.
fn is_new(alloc: Global, made: Result<DeskAndSeats, Memory>) -> bool {
    match made {
        Ok((desk, seats)) => {
            let is_so = seats.len() == 2 && seats.iter().all(|seat| seat.last_table().is_none());
            is_so & is_history(alloc, &desk.close(seats), 1, "0 admit x accepted 0 0\n")
        }
        Err(_) => false,
    }
}

/// Tries to make a desk over an admission; if that fails, makes it over its twin.
fn made(alloc: Global, admission: Admission, twin: Admission) -> Reported {
    mark(alloc);
    let first = Desk::new(alloc, admission, 2);
    mark(alloc);
    if first.is_ok() {
        drop(twin);
        return once(is_new(alloc, first));
    }
    drop(first);
    twice(true, is_new(alloc, Desk::new(alloc, twin, 2)))
}

pub(crate) fn new_reported(alloc: Global) -> Option<Reported> {
    let admission = line_with(alloc, &[X])?;
    let twin = line_with(alloc, &[X])?;
    Some(made(alloc, admission, twin))
}

/// A stream for which there is room in addition to seven.
const Y: Asked = ("y", 980, PATH);

/// The history of all eight.
const OF_EIGHT: &str = "0 admit n0 accepted 0 0\n0 admit n1 accepted 1 0\n0 admit n2 accepted 2 0\n\
    0 admit n3 accepted 3 0\n0 admit n4 accepted 4 0\n0 admit n5 accepted 5 0\n\
    0 admit n6 accepted 6 0\n0 admit y accepted 7 0\n";

/// Closes the desk with its seats after a call, and returns the result of the call if the history is this one, with
/// this number of calls before the desk was opened. Then a call that was refused for lack of memory has left nothing.
pub(crate) fn closed_with(
    alloc: Global,
    made: DeskAndSeats,
    reported: Reported,
    opening: usize,
    text: &str,
) -> Reported {
    let (desk, seats) = made;
    let is_closed = is_history(alloc, &desk.close(seats), opening, text);
    match reported {
        Reported::Row => once(is_closed),
        Reported::Memory => twice(is_closed, true),
        other => other,
    }
}

/// Tries to admit a stream by a seat.
fn admitted<R: Wait>(
    rt: &R,
    alloc: Global,
    desk: &Desk,
    seat: &mut Seat,
    wanted: &Request,
) -> Reported {
    trial!(
        alloc,
        desk.admit(rt, seat, wanted),
        Err(Refused::Memory),
        true,
        |answer| answer == granted(7, 0)
    )
}

pub(crate) fn admit_reported<R: Wait>(rt: &R, alloc: Global) -> Option<Reported> {
    let wanted = request(alloc, &Y).ok()?;
    let (desk, mut seats) = desk_with(alloc, SEVEN)?;
    let reported = admitted(rt, alloc, &desk, seats.first_mut()?, &wanted);
    Some(closed_with(alloc, (desk, seats), reported, 7, OF_EIGHT))
}

/// Tries to withdraw a stream by a seat.
fn withdrawn<R: Wait>(rt: &R, alloc: Global, desk: &Desk, seat: &mut Seat) -> Reported {
    trial!(
        alloc,
        desk.withdraw(rt, seat, "x"),
        Err(Refused::Memory),
        true,
        |answer| answer == granted(0, 0)
    )
}

pub(crate) fn withdraw_reported<R: Wait>(rt: &R, alloc: Global) -> Option<Reported> {
    let text = "0 admit x accepted 0 0\n0 withdraw x accepted 0 0\n";
    let (desk, mut seats) = desk_with(alloc, &[X])?;
    let reported = withdrawn(rt, alloc, &desk, seats.first_mut()?);
    Some(closed_with(alloc, (desk, seats), reported, 1, text))
}
