//! Calls of admissions over the line.
use crate::{Reported, SEVEN, X, domain_of, granted, line_with, trial, writes};
use cqf_admission::{Admission, Receipt, Refused, SealFault, Table};
use cqf_test_fixtures::{Asked, line, request};
use cqf_topology::{Domain, Request};
use cqf_units::{Cycle, Memory};
use std::alloc::Global;

/// What can be observed of an admission over the line: its history, its next cycle, and what is held on each link.
#[derive(Clone, Copy)]
pub(crate) struct Standing {
    pub(crate) history: &'static str,
    pub(crate) cycle: u32,
    pub(crate) held: u32,
}

/// Whether each link of a domain has this number of octets held.
fn holds(admission: &Admission, octets: u32) -> bool {
    for link in 0..admission.domain().links() {
        if admission.held_on(link).0 != octets {
            return false;
        }
    }
    true
}

/// Whether an admission is in this state.
pub(crate) fn stands(alloc: Global, admission: &Admission, standing: &Standing) -> bool {
    writes(alloc, admission.history(), standing.history)
        && admission.next_cycle() == Cycle(standing.cycle)
        && holds(admission, standing.held)
}

/// The state with the six streams.
const OF_SIX: Standing = Standing {
    history: "0 admit n0 accepted 0 0\n0 admit n1 accepted 1 0\n0 admit n2 accepted 2 0\n\
        0 admit n3 accepted 3 0\n0 admit n4 accepted 4 0\n0 admit n5 accepted 5 0\n",
    cycle: 0,
    held: 11_760,
};

/// The state with all seven.
const OF_SEVEN: Standing = Standing {
    history: "0 admit n0 accepted 0 0\n0 admit n1 accepted 1 0\n0 admit n2 accepted 2 0\n\
        0 admit n3 accepted 3 0\n0 admit n4 accepted 4 0\n0 admit n5 accepted 5 0\n\
        0 admit n6 accepted 6 0\n",
    cycle: 0,
    held: 13_720,
};

/// The state with an eighth one, which was refused for lack of room.
const WITH_SHORT: Standing = Standing {
    history: "0 admit n0 accepted 0 0\n0 admit n1 accepted 1 0\n0 admit n2 accepted 2 0\n\
        0 admit n3 accepted 3 0\n0 admit n4 accepted 4 0\n0 admit n5 accepted 5 0\n\
        0 admit n6 accepted 6 0\n0 admit x refused BudgetShort 0 1280\n",
    cycle: 0,
    held: 13_720,
};

/// Whether a new admission was made.
fn is_new(alloc: Global, made: &Result<Admission, Memory>) -> bool {
    let none = Standing {
        history: "",
        cycle: 0,
        held: 0,
    };
    match made {
        Ok(admission) => stands(alloc, admission, &none),
        Err(_) => false,
    }
}

/// Tries to make an admission for a domain.
fn made(alloc: Global, domain: &Domain) -> Reported {
    trial!(
        alloc,
        Admission::new(alloc, domain),
        Err(_),
        domain.links() == 3,
        |answer| is_new(alloc, &answer)
    )
}

pub(crate) fn new_reported(alloc: Global) -> Option<Reported> {
    let domain = domain_of(alloc, line())?;
    Some(made(alloc, &domain))
}

/// The expected answer, and the states of the admission before and after the call.
#[derive(Clone, Copy)]
struct Call {
    answer: Result<Receipt, Refused>,
    before: &'static Standing,
    following: &'static Standing,
}

/// Whether an answer is the expected one, and the admission is in the state after the call.
fn is_answered(
    alloc: Global,
    admission: &Admission,
    answer: Result<Receipt, Refused>,
    call: &Call,
) -> bool {
    answer == call.answer && stands(alloc, admission, call.following)
}

/// Tries to admit a stream.
fn admitted(alloc: Global, admission: &mut Admission, wanted: &Request, call: &Call) -> Reported {
    trial!(
        alloc,
        admission.admit(0, wanted),
        Err(Refused::Memory),
        stands(alloc, admission, call.before),
        |answer| is_answered(alloc, admission, answer, call)
    )
}

/// Tries to admit a stream while others are held.
fn asked_for(alloc: Global, streams: &[Asked], asked: &Asked, call: &Call) -> Option<Reported> {
    let wanted = request(alloc, asked).ok()?;
    let mut admission = line_with(alloc, streams)?;
    Some(admitted(alloc, &mut admission, &wanted, call))
}

pub(crate) fn admit_reported(alloc: Global) -> Option<Reported> {
    let (seventh, six) = SEVEN.split_last()?;
    let call = Call {
        answer: granted(6, 0),
        before: &OF_SIX,
        following: &OF_SEVEN,
    };
    asked_for(alloc, six, seventh, &call)
}

pub(crate) fn short_reported(alloc: Global) -> Option<Reported> {
    let call = Call {
        answer: Err(Refused::BudgetShort {
            link: 0,
            left: 1280,
        }),
        before: &OF_SEVEN,
        following: &WITH_SHORT,
    };
    asked_for(alloc, SEVEN, &X, &call)
}

/// One stream, held in cycle 0 and withdrawn.
const OF_X: Standing = Standing {
    history: "0 admit x accepted 0 0\n",
    cycle: 0,
    held: 1960,
};

const WITHOUT_X: Standing = Standing {
    history: "0 admit x accepted 0 0\n0 withdraw x accepted 0 0\n",
    cycle: 0,
    held: 1960,
};

/// Tries to withdraw a stream.
fn withdrawn(alloc: Global, admission: &mut Admission, call: &Call) -> Reported {
    trial!(
        alloc,
        admission.withdraw(0, "x"),
        Err(Refused::Memory),
        stands(alloc, admission, call.before),
        |answer| is_answered(alloc, admission, answer, call)
    )
}

pub(crate) fn withdraw_reported(alloc: Global) -> Option<Reported> {
    let call = Call {
        answer: granted(0, 0),
        before: &OF_X,
        following: &WITHOUT_X,
    };
    let mut admission = line_with(alloc, &[X])?;
    Some(withdrawn(alloc, &mut admission, &call))
}

/// The state with one stream, after a Seal.
const SEALED: Standing = Standing {
    history: "0 admit x accepted 0 0\n1 seal\n",
    cycle: 1,
    held: 1960,
};

/// Whether a table is that of cycle 0 with the one stream.
fn is_table(table: &Table) -> bool {
    let found = match table.row_of(0) {
        Some(row) => row.name.as_str() == "x" && row.octets == 1500 && row.withdrawn == None,
        None => false,
    };
    found && table.cycle() == Cycle(0) && table.rows().len() == 1
}

/// Whether a Seal returned that table.
fn is_sealed(alloc: Global, admission: &Admission, given: &Result<Table, SealFault>) -> bool {
    match given {
        Ok(table) => is_table(table) && stands(alloc, admission, &SEALED),
        Err(_) => false,
    }
}

/// Tries to close a cycle.
fn sealed(alloc: Global, admission: &mut Admission) -> Reported {
    trial!(
        alloc,
        admission.seal(1),
        Err(SealFault::Memory),
        stands(alloc, admission, &OF_X),
        |answer| is_sealed(alloc, admission, &answer)
    )
}

pub(crate) fn seal_reported(alloc: Global) -> Option<Reported> {
    let mut admission = line_with(alloc, &[X])?;
    Some(sealed(alloc, &mut admission))
}
