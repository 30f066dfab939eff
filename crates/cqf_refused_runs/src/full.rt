//! Desks whose history has no more room. A refusal for that reason comes before one for lack of memory.
use cqf_admission::{Admission, Refused, SealFault};
use cqf_desk::{Desk, Seat};
use cqf_refused_values::{MOST_ENTRIES, Reported, domain_of, fills, looked_at};
use cqf_test_fixtures::{admission_of, one_link};
use std::alloc::Global;
use std::sync::Wait;

/// Returns an admission over one link.
fn new_admission(alloc: Global) -> Option<Admission> {
    admission_of(alloc, &domain_of(alloc, one_link())?, &[])
}

/// Whether this number of cycles can be closed.
fn spends(admission: &mut Admission) -> bool {
    for _cycle in 0..MOST_ENTRIES {
        if admission.seal(0).is_err() {
            return false;
        }
    }
    true
}

/// Makes one call more at a desk.
fn called<R: Wait>(rt: &R, alloc: Global, desk: &Desk, seats: &mut [Seat]) -> Option<Reported> {
    let seat = seats.first_mut()?;
    Some(looked_at!(
        alloc,
        desk.withdraw(rt, seat, "q") == Err(Refused::HistoryFull)
    ))
}

pub(crate) fn full_reported<R: Wait>(rt: &R, alloc: Global) -> Option<Reported> {
    let mut admission = new_admission(alloc)?;
    if !fills(&mut admission) {
        return None;
    }
    let (desk, mut seats) = Desk::new(alloc, admission, 1).ok()?;
    called(rt, alloc, &desk, seats.as_mut_slice())
}

/// Makes one Seal more at a desk.
fn sealed<R: Wait>(rt: &R, alloc: Global, desk: &Desk, seats: &mut [Seat]) -> Option<Reported> {
    let seat = seats.first_mut()?;
    Some(looked_at!(
        alloc,
        desk.seal(rt, seat) == Err(SealFault::CyclesSpent) && seat.last_table().is_none()
    ))
}

pub(crate) fn spent_reported<R: Wait>(rt: &R, alloc: Global) -> Option<Reported> {
    let mut admission = new_admission(alloc)?;
    if !spends(&mut admission) {
        return None;
    }
    let (desk, mut seats) = Desk::new(alloc, admission, 1).ok()?;
    sealed(rt, alloc, &desk, seats.as_mut_slice())
}
