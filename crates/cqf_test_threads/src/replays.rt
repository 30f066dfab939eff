//! A run's history, replayed: a fresh admission gives its calls the same answers, and one thread gives the same book.
use crate::asking::Ask;
use crate::running::{Scenario, account_of};
use cqf_admission::{Admission, Call, Entry, Table};
use cqf_compile::{Plan, compile};
use cqf_model::{Book, Offer, Receipt, Refused, Reply};
use cqf_plain::run;
use cqf_test_fixtures::{are_offers, line};
use cqf_topology::Domain;
use cqf_units::{Name, Nanos};
use cqf_worker::{Account, Free};
use std::alloc::Global;
use std::sync::Wait;
use std::thread::Threads;

/// How many cycles are run.
const CYCLES: u32 = 20;

/// Each of two administrators admits and withdraws a stream of its own, ten times.
const TWO_STREAMS: Scenario = Scenario {
    streams: &[],
    admins: &[
        &[
            Ask::Admit(("x", 980, &[&["a", "b", "c", "s"]])),
            Ask::Withdraw("x"),
        ],
        &[
            Ask::Admit(("y", 980, &[&["a", "b", "c", "s"]])),
            Ask::Withdraw("y"),
        ],
    ],
    times: 10,
    cycles: CYCLES,
};

/// Adds an offer of 64 octets for a stream at the first instant of a cycle.
fn add_offer(offers: &mut Vec<Offer>, cycle: u32, name: &str) -> bool {
    match Name::new(name.as_bytes()) {
        Some(stream) => {
            let offer = Offer {
                at: Nanos(u64::from(cycle) * 125_000),
                bridge: 0,
                stream,
                octets: 64,
            };
            offers.push(offer).is_ok()
        }
        None => false,
    }
}

/// Adds an offer of each stream at the first instant of each cycle.
fn add_offers(offers: &mut Vec<Offer>) -> bool {
    for cycle in 0..CYCLES {
        if !add_offer(offers, cycle, "x") || !add_offer(offers, cycle, "y") {
            return false;
        }
    }
    true
}

/// Returns whether a call got this reply.
fn is_answered(answer: Result<Receipt, Refused>, reply: Reply) -> bool {
    match answer {
        Ok(receipt) => reply == Reply::Accepted(receipt),
        Err(refused) => reply == Reply::Refused(refused),
    }
}

/// Returns whether a cycle is closed again. Its table is kept.
fn closes_again(admission: &mut Admission, tables: &mut Vec<Table>, entry: &Entry) -> bool {
    let cycle = admission.next_cycle();
    match admission.seal(entry.seat) {
        Ok(table) => {
            let is_next = table.cycle() == cycle;
            entry.reply == Reply::Sealed && is_next && tables.push(table).is_ok()
        }
        Err(_) => false,
    }
}

/// Returns whether an entry's call gets the entry's reply again.
fn is_made_again(admission: &mut Admission, tables: &mut Vec<Table>, entry: &Entry) -> bool {
    match &entry.call {
        Call::Admit(request) => is_answered(admission.admit(entry.seat, request), entry.reply),
        Call::AdmitPaced(request) => {
            is_answered(admission.admit_shared(entry.seat, request), entry.reply)
        }
        Call::Withdraw(name) => is_answered(
            admission.withdraw(entry.seat, name.as_str()),
            entry.reply,
        ),
        Call::Seal => closes_again(admission, tables, entry),
    }
}

/// Returns the tables of the cycles that a fresh admission closes by the calls of a history, if it gives each call the same answer.
fn tables_again(alloc: Global, admission: &mut Admission, entries: &[Entry]) -> Option<Vec<Table>> {
    let mut tables = Vec::new(alloc);
    for entry in entries {
        if !is_made_again(admission, &mut tables, entry) {
            return None;
        }
    }
    Some(tables)
}

/// Returns the same for an admission made for this.
fn tables_of(alloc: Global, domain: &Domain, entries: &[Entry]) -> Option<Vec<Table>> {
    match Admission::new(alloc, domain) {
        Ok(mut admission) => tables_again(alloc, &mut admission, entries),
        Err(_) => None,
    }
}

/// Returns whether two books are equal, start by start and drop by drop.
fn are_alike(one: &Book, other: &Book) -> bool {
    one.starts.as_slice() == other.starts.as_slice()
        && one.background.as_slice() == other.background.as_slice()
        && one.drops.as_slice() == other.drops.as_slice()
}

/// Returns whether one thread gives the same book by these tables.
fn gives_again(
    alloc: Global,
    plan: &Plan,
    tables: &[Table],
    offers: &[Offer],
    book: &Book,
) -> bool {
    if offers.len() > 1_000_000 || !are_offers(plan.domain(), offers) {
        return false;
    }
    match run(alloc, plan, tables, offers, &[], CYCLES) {
        Ok(again) => are_alike(&again, book),
        Err(_) => false,
    }
}

/// Returns how many entries are of a seat.
fn calls_of(entries: &[Entry], seat: u16) -> usize {
    entries.iter().filter(|entry| entry.seat == seat).count()
}

/// Returns whether a history has twenty calls of each of three seats, and no others.
fn is_of_three(entries: &[Entry]) -> bool {
    let each = calls_of(entries, 0) == 20
        && calls_of(entries, 1) == 20
        && calls_of(entries, 2) == 20;
    each && entries.len() == 60
}

/// Returns whether an account is the same when replayed.
fn says_it_again(alloc: Global, plan: &Plan, offers: &[Offer], account: &Account) -> bool {
    let entries = account.history.entries.as_slice();
    match tables_of(alloc, plan.domain(), entries) {
        Some(tables) => {
            let again = gives_again(alloc, plan, tables.as_slice(), offers, &account.book);
            again && is_of_three(entries) && account.history.opening == 0
        }
        None => false,
    }
}

/// Returns whether the account of a run is.
fn agrees<R: Threads + Wait + Sync>(rt: &R, alloc: Global, plan: &Plan, offers: &[Offer]) -> bool {
    match account_of(rt, alloc, plan.domain(), &TWO_STREAMS, offers, &Free) {
        Some(account) => says_it_again(alloc, plan, offers, &account),
        None => false,
    }
}

/// Returns whether the accounts of fifty runs are.
fn fifty_agree<R: Threads + Wait + Sync>(
    rt: &R,
    alloc: Global,
    plan: &Plan,
    offers: &[Offer],
) -> bool {
    for _run in 0..50 {
        if !agrees(rt, alloc, plan, offers) {
            return false;
        }
    }
    true
}

/// Returns whether they are over a domain.
fn all_agree<R: Threads + Wait + Sync>(rt: &R, alloc: Global, domain: &Domain) -> bool {
    let mut offers = Vec::new(alloc);
    match compile(alloc, domain) {
        Ok(plan) => add_offers(&mut offers) && fifty_agree(rt, alloc, &plan, offers.as_slice()),
        Err(_) => false,
    }
}

/// Returns whether they are on the line of the fixtures.
fn runs_agree<R: Threads + Wait + Sync>(rt: &R, alloc: Global) -> bool {
    match Domain::read(alloc, line().as_bytes()) {
        Ok(domain) => all_agree(rt, alloc, &domain),
        Err(_) => false,
    }
}

#[test]
fn replay_agrees(rt: HostRuntime) {
    assert!(rt; runs_agree(&rt, rt.alloc()));
}
