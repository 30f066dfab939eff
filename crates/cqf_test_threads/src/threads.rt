//! Two threads at one desk.
use crate::words::{SEVEN, Y, Z, is_admit, line_with};
use cqf_admission::{Entry, Receipt, Refused, Reply};
use cqf_desk::{Desk, History, Seat};
use cqf_test_fixtures::request;
use cqf_topology::Request;
use cqf_units::Cycle;
use std::alloc::Global;
use std::sync::Wait;
use std::thread::{Threads, join};

/// The answer to the seat that comes first.
const FIRST: Result<Receipt, Refused> = Ok(RECEIPT);

const RECEIPT: Receipt = Receipt {
    no: 7,
    effect: Cycle(0),
};

/// The answer to the other seat.
const SECOND: Result<Receipt, Refused> = Err(SHORT);

const SHORT: Refused = Refused::BudgetShort { link: 0, left: 0 };

/// Two seats request one stream each at the same time. Returns whether the first seat came first, if their answers are the two expected
/// ones.
fn is_first<R: Threads + Wait + Sync>(
    rt: &R,
    desk: &Desk,
    zero: &mut Seat,
    one: &mut Seat,
    y: &Request,
    z: &Request,
) -> Option<bool> {
    let answers = join(rt, || desk.admit(rt, zero, y), || desk.admit(rt, one, z));
    if answers == (FIRST, SECOND) {
        return Some(true);
    }
    if answers == (SECOND, FIRST) {
        return Some(false);
    }
    None
}

/// The same for the streams y and z.
fn is_first_for_y<R: Threads + Wait + Sync>(
    rt: &R,
    alloc: Global,
    desk: &Desk,
    zero: &mut Seat,
    one: &mut Seat,
) -> Option<bool> {
    let Ok(y) = request(alloc, &Y) else {
        return None;
    };
    match request(alloc, &Z) {
        Ok(z) => is_first(rt, desk, zero, one, &y, &z),
        Err(_) => None,
    }
}

/// The same for a desk's two seats.
fn is_zero_first<R: Threads + Wait + Sync>(
    rt: &R,
    alloc: Global,
    desk: &Desk,
    seats: &mut [Seat],
) -> Option<bool> {
    match seats {
        [zero, one] => is_first_for_y(rt, alloc, desk, zero, one),
        _ => None,
    }
}

/// Returns whether an entry is the request for the one of the seven streams that got this number.
fn is_one_of_seven(number: u32, entry: &Entry) -> bool {
    let receipt = Receipt {
        no: number,
        effect: Cycle(0),
    };
    match SEVEN.get(number as usize) {
        Some(asked) => is_admit(entry, 9, asked, Reply::Accepted(receipt)),
        None => false,
    }
}

/// Returns whether entries are those of the seven, in order.
fn are_the_seven(entries: &[Entry]) -> bool {
    let mut number = 0;
    for entry in entries {
        if number >= 7 || !is_one_of_seven(number, entry) {
            return false;
        }
        number += 1;
    }
    number == 7
}

/// Returns whether seven of nine entries are the opening ones, and the last two are those of seats 0 and 1, in the order that their answers
/// imply.
fn is_in_order(history: &History, zero_came_first: bool) -> bool {
    let entries = history.entries.as_slice();
    if history.opening != 7 || entries.len() != 9 {
        return false;
    }
    let (first, second) = (&entries[7], &entries[8]);
    let (accepted, short) = (Reply::Accepted(RECEIPT), Reply::Refused(SHORT));
    let are_last = if zero_came_first {
        is_admit(first, 0, &Y, accepted) && is_admit(second, 1, &Z, short)
    } else {
        is_admit(first, 1, &Z, accepted) && is_admit(second, 0, &Y, short)
    };
    are_last && are_the_seven(&entries[..7])
}

/// Returns whether a desk that is closed has such a history.
fn closes_in_order(desk: Desk, seats: Vec<Seat>, zero_came_first: Option<bool>) -> bool {
    match desk.close(seats) {
        Ok(history) => match zero_came_first {
            Some(zero) => is_in_order(&history, zero),
            None => false,
        },
        Err(_) => false,
    }
}

/// Returns whether one of two threads gets the last octets of the line with seven streams.
fn one_gets_them<R: Threads + Wait + Sync>(rt: &R, alloc: Global) -> bool {
    let Some(line) = line_with(alloc, SEVEN) else {
        return false;
    };
    match Desk::new(alloc, line, 2) {
        Ok((desk, mut seats)) => {
            let first = is_zero_first(rt, alloc, &desk, seats.as_mut_slice());
            closes_in_order(desk, seats, first)
        }
        Err(_) => false,
    }
}

#[test]
fn one_of_two_threads_gets_the_last_octets(rt: HostRuntime) {
    assert!(rt; one_gets_them(&rt, rt.alloc()));
}
