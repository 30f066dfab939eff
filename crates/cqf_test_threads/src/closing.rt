//! A desk that is closed with its own seats, and with others.
use crate::words::{NONE, SEVEN, X, is_admit, line_with};
use cqf_admission::{Admission, Call, Entry, Receipt, Reply, Table};
use cqf_desk::{CloseFault, Desk, History, Seat};
use cqf_test_fixtures::{Asked, request};
use cqf_topology::Request;
use cqf_units::Cycle;
use std::alloc::Global;
use std::sync::Wait;

/// The calls of two seats: seat 0 requests x and its withdrawal, seat 1 makes Seals. Each Seal is given with the number of rows of its
/// table: x uses three links, so it is held for three cycles from its withdrawal on.
#[derive(Clone, Copy)]
enum Step {
    Admit,
    Withdraw,
    Seal(usize),
}

const STEPS: &[Step] = &[
    Step::Admit,
    Step::Seal(1),
    Step::Withdraw,
    Step::Seal(1),
    Step::Seal(1),
    Step::Seal(1),
    Step::Seal(0),
    Step::Seal(0),
];

/// Returns whether two tables agree about x, which has this many rows in both.
fn is_same(ours: &Table, theirs: &Table, rows: usize) -> bool {
    if ours.cycle() != theirs.cycle() || ours.rows().len() != rows || theirs.rows().len() != rows {
        return false;
    }
    match (ours.row_of(0), theirs.row_of(0)) {
        (Some(our), Some(their)) => {
            our.no == their.no
                && our.name == their.name
                && our.admitted == their.admitted
                && our.octets == 1500
                && their.octets == 1500
                && our.withdrawn == their.withdrawn
                && our.tree.as_slice() == their.tree.as_slice()
        }
        (None, None) => rows == 0,
        _ => false,
    }
}

/// Returns whether a Seal of the seat leaves the seat the table that a Seal of the admission gives.
fn seals_alike<R: Wait>(
    rt: &R,
    desk: &Desk,
    seat: &mut Seat,
    alone: &mut Admission,
    rows: usize,
) -> bool {
    if desk.seal(rt, seat).is_err() {
        return false;
    }
    match (seat.last_table(), alone.seal(1)) {
        (Some(ours), Ok(theirs)) => is_same(ours, &theirs, rows),
        _ => false,
    }
}

/// Returns whether a step is answered at the desk as by the admission.
fn steps_alike<R: Wait>(
    rt: &R,
    desk: &Desk,
    seats: &mut [Seat],
    alone: &mut Admission,
    x: &Request,
    step: Step,
) -> bool {
    let [asking, sealing] = seats else {
        return false;
    };
    match step {
        Step::Admit => desk.admit(rt, asking, x) == alone.admit(0, x),
        Step::Withdraw => desk.withdraw(rt, asking, "x") == alone.withdraw(0, "x"),
        Step::Seal(rows) => seals_alike(rt, desk, sealing, alone, rows),
    }
}

/// Returns whether all steps are.
fn all_alike<R: Wait>(
    rt: &R,
    desk: &Desk,
    seats: &mut [Seat],
    alone: &mut Admission,
    x: &Request,
) -> bool {
    for step in STEPS {
        if !steps_alike(rt, desk, seats, alone, x, *step) {
            return false;
        }
    }
    true
}

/// Returns whether they are, with an admission made for comparison.
fn all_alike_beside<R: Wait>(
    rt: &R,
    alloc: Global,
    desk: &Desk,
    seats: &mut [Seat],
    x: &Request,
) -> bool {
    match line_with(alloc, NONE) {
        Some(mut alone) => all_alike(rt, desk, seats, &mut alone, x),
        None => false,
    }
}

/// Makes all steps at a desk over the line, and returns whether they are answered as by an admission.
fn works<R: Wait>(rt: &R, alloc: Global, desk: &Desk, seats: &mut [Seat]) -> bool {
    match request(alloc, &X) {
        Ok(x) => all_alike_beside(rt, alloc, desk, seats, &x),
        Err(_) => false,
    }
}

/// Returns whether an entry is the withdrawal of x by a seat, with that reply.
fn is_withdrawal(entry: &Entry, seat: u16, reply: Reply) -> bool {
    match &entry.call {
        Call::Withdraw(name) => {
            entry.seat == seat && name.as_str() == "x" && entry.reply == reply
        }
        _ => false,
    }
}

/// Returns whether an entry is a Seal of the second seat.
fn is_seal(entry: &Entry) -> bool {
    entry.seat == 1 && matches!(entry.call, Call::Seal) && entry.reply == Reply::Sealed
}

/// Returns the answer to a call for x with effect from this cycle on.
fn accepted(effect: u32) -> Reply {
    Reply::Accepted(Receipt {
        no: 0,
        effect: Cycle(effect),
    })
}

/// Returns whether the history is the one that the steps make: x, as it was requested, is accepted with number 0 and effect 0, and
/// withdrawn with effect 1.
fn is_of_steps(history: &History) -> bool {
    let entries = history.entries.as_slice();
    if history.opening != 0 || entries.len() != 8 {
        return false;
    }
    is_admit(&entries[0], 0, &X, accepted(0))
        && is_seal(&entries[1])
        && is_withdrawal(&entries[2], 0, accepted(1))
        && entries[3..].iter().all(|entry| is_seal(entry))
}

/// Returns whether a desk that is closed with these seats has the history of the steps, or is refused with this fault.
fn closes(desk: Desk, seats: Vec<Seat>, fault: Option<CloseFault>) -> bool {
    match desk.close(seats) {
        Ok(history) => fault.is_none() && is_of_steps(&history),
        Err(cause) => fault == Some(cause),
    }
}

/// A change to the seats of a desk at which all steps were made, before the desk is closed with them.
#[derive(Clone, Copy)]
enum Change {
    /// The first seat is dropped.
    Missing,
    /// At the first index is the seat at the second index of a desk at which nobody called.
    Unused(usize, usize),
    /// Both are those of a desk at which each sealed a cycle, in order or reversed.
    Both(bool),
    /// They stay, and the third seat of another desk seals a cycle here.
    Stranger,
}

/// Drops a desk's first seat.
fn forget_first(seats: &mut Vec<Seat>) -> bool {
    seats.as_mut_slice().reverse();
    seats.pop().is_some()
}

/// Replaces a seat by another desk's seat.
fn exchange(own: &mut [Seat], others: &mut [Seat], index: usize, other: usize) -> bool {
    match (own.get_mut(index), others.get_mut(other)) {
        (Some(ours), Some(theirs)) => {
            std::mem::swap(ours, theirs);
            true
        }
        _ => false,
    }
}

/// Returns whether each of a desk's seats seals a cycle.
fn each_seals<R: Wait>(rt: &R, desk: &Desk, seats: &mut [Seat]) -> bool {
    for seat in seats {
        if desk.seal(rt, seat).is_err() {
            return false;
        }
    }
    true
}

/// Replaces two seats by the two seats of a desk at which each seals a cycle, in order or reversed.
fn exchange_both<R: Wait>(
    rt: &R,
    other: &Desk,
    own: &mut [Seat],
    others: &mut [Seat],
    turned: bool,
) -> bool {
    if !each_seals(rt, other, others) {
        return false;
    }
    if turned {
        others.reverse();
    }
    exchange(own, others, 0, 0) && exchange(own, others, 1, 1)
}

/// Returns whether the third seat of another desk seals a cycle at this desk.
fn seals_as_a_stranger<R: Wait>(rt: &R, desk: &Desk, others: &mut [Seat]) -> bool {
    match others.last_mut() {
        Some(stranger) => stranger.number() == 2 && desk.seal(rt, stranger).is_ok(),
        None => false,
    }
}

/// Makes a change with another desk and its seats.
fn change_by<R: Wait>(
    rt: &R,
    desk: &Desk,
    seats: &mut Vec<Seat>,
    other: &Desk,
    others: &mut [Seat],
    change: Change,
) -> bool {
    match change {
        Change::Missing => forget_first(seats),
        Change::Unused(index, other) => exchange(seats.as_mut_slice(), others, index, other),
        Change::Both(turned) => exchange_both(rt, other, seats.as_mut_slice(), others, turned),
        Change::Stranger => seals_as_a_stranger(rt, desk, others),
    }
}

/// Returns a desk over the line with these streams and this number of seats.
fn desk_with(alloc: Global, streams: &[Asked], seats: u16) -> Option<(Desk, Vec<Seat>)> {
    match Desk::new(alloc, line_with(alloc, streams)?, seats) {
        Ok(made) => Some(made),
        Err(_) => None,
    }
}

/// Returns how many seats the other desk of a change has.
fn seats_of(change: Change) -> u16 {
    match change {
        Change::Stranger => 3,
        _ => 2,
    }
}

/// Makes a change, with another desk made for it.
fn is_changed<R: Wait>(
    rt: &R,
    alloc: Global,
    desk: &Desk,
    seats: &mut Vec<Seat>,
    change: Change,
) -> bool {
    match desk_with(alloc, NONE, seats_of(change)) {
        Some((other, mut others)) => {
            change_by(rt, desk, seats, &other, others.as_mut_slice(), change)
        }
        None => false,
    }
}

/// Makes all steps at a desk, and then the changes.
fn works_and_is_changed<R: Wait>(
    rt: &R,
    alloc: Global,
    desk: &Desk,
    seats: &mut Vec<Seat>,
    changes: &[Change],
) -> bool {
    if !works(rt, alloc, desk, seats.as_mut_slice()) {
        return false;
    }
    for change in changes {
        if !is_changed(rt, alloc, desk, seats, *change) {
            return false;
        }
    }
    true
}

/// Changes, and why the desk is refused after them.
const CASES: &[(&[Change], Option<CloseFault>)] = &[
    // calls at a desk are those of an admission
    (&[], None),
    // a desk knows its seats
    (&[Change::Missing], Some(CloseFault::SeatMissing)),
    (&[Change::Unused(0, 0)], Some(CloseFault::SeatsDisagree(0))),
    (&[Change::Unused(1, 1)], Some(CloseFault::SeatsDisagree(1))),
    (&[Change::Unused(0, 1)], Some(CloseFault::SeatMissing)),
    (&[Change::Unused(1, 0)], Some(CloseFault::SeatMissing)),
    // a call of no seat is noticed
    (&[Change::Stranger], Some(CloseFault::SeatsDisagree(2))),
    // of two seats that disagree the one with the lower number is named
    (&[Change::Both(false)], Some(CloseFault::SeatsDisagree(0))),
    (&[Change::Both(true)], Some(CloseFault::SeatsDisagree(0))),
    // a seat is named before a stranger
    (
        &[Change::Unused(0, 0), Change::Stranger],
        Some(CloseFault::SeatsDisagree(0)),
    ),
    (
        &[Change::Unused(1, 1), Change::Stranger],
        Some(CloseFault::SeatsDisagree(1)),
    ),
];

/// Returns whether a desk over the line closes as expected after these changes.
fn closes_after<R: Wait>(
    rt: &R,
    alloc: Global,
    changes: &[Change],
    fault: Option<CloseFault>,
) -> bool {
    match desk_with(alloc, NONE, 2) {
        Some((desk, mut seats)) => {
            let changed = works_and_is_changed(rt, alloc, &desk, &mut seats, changes);
            changed & closes(desk, seats, fault)
        }
        None => false,
    }
}

#[test]
fn a_desk_closes_with_its_own_seats_alone(rt: HostRuntime) {
    for (index, (changes, fault)) in CASES.iter().enumerate() {
        assert!(rt;
            closes_after(&rt, rt.alloc(), changes, *fault),
            "case {index}"
        );
    }
}

/// Returns whether a desk is refused with another desk's seats, if each seat of both desks sealed a cycle.
fn is_refused_with<R: Wait>(
    rt: &R,
    desk: Desk,
    own: &mut [Seat],
    other: &Desk,
    mut seats: Vec<Seat>,
) -> bool {
    let sealed = each_seals(rt, &desk, own) && each_seals(rt, other, seats.as_mut_slice());
    sealed & closes(desk, seats, Some(CloseFault::SeatsDisagree(0)))
}

/// Returns whether a desk distinguishes its seat from that of another desk, which made the same call on a line that holds seven more
/// streams.
fn other_tables_are_noticed<R: Wait>(rt: &R, alloc: Global) -> bool {
    let Some((desk, mut own)) = desk_with(alloc, NONE, 1) else {
        return false;
    };
    match desk_with(alloc, SEVEN, 1) {
        Some((other, seats)) => is_refused_with(rt, desk, own.as_mut_slice(), &other, seats),
        None => false,
    }
}

#[test]
fn a_seat_with_other_tables_is_noticed(rt: HostRuntime) {
    assert!(rt; other_tables_are_noticed(&rt, rt.alloc()));
}
