//! A run on threads over the line: the stream `x` is held from the beginning, and an administrator tries in vain to
//! withdraw another one.
use cqf_admission::{Call, Command, Entry};
use cqf_model::{Book, Offer};
use cqf_refused_values::{Reported, X, domain_of, mark, once, twice, writes};
use cqf_test_fixtures::{Begun, admission_of, are_begun, are_offers, line, offers_of};
use cqf_topology::Domain;
use cqf_units::Memory;
use cqf_worker::{Account, ConductFault, Free, conduct};
use std::alloc::Global;
use std::sync::Wait;
use std::thread::Threads;

/// The commands of the administrator.
fn commands(alloc: Global) -> Result<Vec<Vec<Command>>, Memory> {
    let mut all = Vec::new(alloc);
    let mut own = Vec::new(alloc);
    own.push(Command::Withdraw(String::from_str(alloc, "q")?))?;
    all.push(own)?;
    Ok(all)
}

/// A frame goes along the line.
const STARTS: &[Begun] = &[
    (1, 0, 1, 64, 125_000),
    (2, 1, 1, 64, 250_000),
    (3, 2, 1, 64, 375_000),
];

/// Whether a book has these starts, and nothing else.
fn is_book(book: &Book) -> bool {
    are_begun(book.starts.as_slice(), STARTS) && book.background.is_empty() && book.drops.is_empty()
}

/// Whether a history begins with the opening entry.
fn begins(alloc: Global, entries: &[Entry]) -> bool {
    match entries.get(..1) {
        Some(front) => writes(alloc, front, "0 admit x accepted 0 0\n"),
        None => false,
    }
}

/// Whether an account has the opening entry, the call and five Seals, and that book.
fn is_account(alloc: Global, account: &Account) -> bool {
    let history = &account.history;
    let seals = history
        .entries
        .iter()
        .filter(|entry| matches!(entry.call, Call::Seal))
        .count();
    history.opening == 1
        && begins(alloc, history.entries.as_slice())
        && history.entries.len() == 7
        && seals == 5
        && is_book(&account.book)
}

/// Whether an account was returned.
fn is_given(alloc: Global, outcome: &Result<Account, ConductFault>) -> bool {
    match outcome {
        Ok(account) => is_account(alloc, account),
        Err(_) => false,
    }
}

/// Whether a run can fail with this fault if an allocation is refused: a thread for which there is no memory isn't
/// started.
fn is_wanting(fault: ConductFault) -> bool {
    matches!(fault, ConductFault::Memory | ConductFault::Spawn)
}

/// Makes the run with these commands.
fn outcome<R: Threads + Wait + Sync>(
    rt: &R,
    alloc: Global,
    domain: &Domain,
    offers: &[Offer],
    commands: Vec<Vec<Command>>,
) -> Option<Result<Account, ConductFault>> {
    if offers.len() > 1_000_000 || !are_offers(domain, offers) {
        return None;
    }
    let admission = admission_of(alloc, domain, &[X])?;
    mark(alloc);
    let outcome = conduct(
        rt,
        alloc,
        domain,
        admission,
        offers,
        &[],
        5,
        commands,
        &Free,
    );
    mark(alloc);
    Some(outcome)
}

/// Repeats the run.
fn is_given_again<R: Threads + Wait + Sync>(
    rt: &R,
    alloc: Global,
    domain: &Domain,
    offers: &[Offer],
) -> bool {
    if offers.len() > 1_000_000 || !are_offers(domain, offers) {
        return false;
    }
    match (admission_of(alloc, domain, &[X]), commands(alloc)) {
        (Some(admission), Ok(commands)) => {
            let again = conduct(
                rt,
                alloc,
                domain,
                admission,
                offers,
                &[],
                5,
                commands,
                &Free,
            );
            is_given(alloc, &again)
        },
        _ => false,
    }
}

/// Makes the run, and repeats it if it fails.
fn conducted<R: Threads + Wait + Sync>(
    rt: &R,
    alloc: Global,
    domain: &Domain,
    offers: &[Offer],
) -> Option<Reported> {
    match outcome(rt, alloc, domain, offers, commands(alloc).ok()?)? {
        Err(fault) => {
            let again = is_given_again(rt, alloc, domain, offers);
            Some(twice(is_wanting(fault), again))
        }
        given => Some(once(is_given(alloc, &given))),
    }
}

pub(crate) fn conduct_reported<R: Threads + Wait + Sync>(
    rt: &R,
    alloc: Global,
) -> Option<Reported> {
    let offers = offers_of(alloc, &[(0, 0, "x", 64)]).ok()?;
    let domain = domain_of(alloc, line())?;
    conducted(rt, alloc, &domain, offers.as_slice())
}
