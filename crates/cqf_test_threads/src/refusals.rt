//! Runs that give no account: with more administrators than a desk has seats for, and with one call more than a history holds.
use crate::asking::{Ask, all_commands};
use crate::running::{Given, outcome_of};
use cqf_admission::{Call, Command, Entry};
use cqf_model::{Refused, Reply};
use cqf_test_fixtures::one_link;
use cqf_topology::Domain;
use cqf_worker::{ConductFault, Free};
use std::alloc::Global;
use std::sync::Wait;
use std::thread::Threads;

/// How many entries the history of a run has, or why the run gives none.
type Ending = Result<usize, ConductFault>;

/// Returns whether an entry is the withdrawal of a stream that nobody requested, or a Seal.
fn is_in_vain(entry: &Entry) -> bool {
    match &entry.call {
        Call::Admit(_) | Call::AdmitPaced(_) => false,
        Call::Withdraw(_) => entry.reply == Reply::Refused(Refused::NotHeld),
        Call::Seal => entry.reply == Reply::Sealed,
    }
}

/// Returns whether a history has the expected number of entries, all of them such.
fn is_all_in_vain(entries: &[Entry], wanted: Ending) -> bool {
    wanted == Ok(entries.len()) && entries.iter().all(|entry| is_in_vain(entry))
}

/// Returns whether a run of one cycle over a domain, without offers and with these commands of administrators, ends as expected.
fn ends_over<R: Threads + Wait + Sync>(
    rt: &R,
    alloc: Global,
    domain: &Domain,
    admins: Vec<Vec<Command>>,
    wanted: Ending,
) -> bool {
    let given = Given {
        domain,
        streams: &[],
        offers: &[],
        cycles: 1,
    };
    match outcome_of(rt, alloc, given, admins, &Free) {
        Some(Ok(account)) => is_all_in_vain(account.history.entries.as_slice(), wanted),
        Some(Err(fault)) => wanted == Err(fault),
        None => false,
    }
}

/// Returns whether it does over one link.
fn ends<R: Threads + Wait + Sync>(
    rt: &R,
    alloc: Global,
    admins: Vec<Vec<Command>>,
    wanted: Ending,
) -> bool {
    match Domain::read(alloc, one_link().as_bytes()) {
        Ok(domain) => ends_over(rt, alloc, &domain, admins, wanted),
        Err(_) => false,
    }
}

/// Appends `count` administrators without commands.
fn add_idle(alloc: Global, count: u32, admins: &mut Vec<Vec<Command>>) -> bool {
    for _admin in 0..count {
        if admins.push(Vec::new(alloc)).is_err() {
            return false;
        }
    }
    true
}

/// Returns whether a run with `count` of them ends as expected.
fn ends_with_idle<R: Threads + Wait + Sync>(
    rt: &R,
    alloc: Global,
    count: u32,
    wanted: Ending,
) -> bool {
    let mut admins = Vec::new(alloc);
    add_idle(alloc, count, &mut admins) && ends(rt, alloc, admins, wanted)
}

#[test]
fn more_administrators_than_seats_are_refused(rt: HostRuntime) {
    assert!(rt; ends_with_idle(&rt, rt.alloc(), 65_535, Err(ConductFault::Spawn)));
    assert!(rt; ends_with_idle(&rt, rt.alloc(), 65_536, Err(ConductFault::Spawn)));
}

/// An administrator who withdraws a stream that nobody requested: the call is refused, and enters the history.
const IN_VAIN: &[&[Ask]] = &[&[Ask::Withdraw("x")]];

/// Returns whether a run in which the administrator does so `calls` times ends as expected.
fn ends_with_calls<R: Threads + Wait + Sync>(
    rt: &R,
    alloc: Global,
    calls: u32,
    wanted: Ending,
) -> bool {
    match all_commands(alloc, IN_VAIN, calls) {
        Ok(admins) => ends(rt, alloc, admins, wanted),
        Err(_) => false,
    }
}

#[test]
fn a_history_holds_a_hundred_thousand_calls_and_no_more(rt: HostRuntime) {
    assert!(rt; ends_with_calls(&rt, rt.alloc(), 100_000, Ok(100_001)));
    let disagrees = Err(ConductFault::DeskDisagrees);
    assert!(rt; ends_with_calls(&rt, rt.alloc(), 100_001, disagrees));
}
