//! Test runs on threads, without background frames.
use crate::asking::{Ask, all_commands};
use cqf_admission::Command;
use cqf_model::Offer;
use cqf_test_fixtures::{Asked, admission_of, are_offers};
use cqf_topology::Domain;
use cqf_worker::{Account, ConductFault, Pace, conduct};
use std::alloc::Global;
use std::sync::Wait;
use std::thread::Threads;

/// The inputs of a run besides its offers.
#[derive(Clone, Copy)]
pub(crate) struct Scenario {
    /// The streams that are admitted before the run.
    pub(crate) streams: &'static [Asked],
    /// The calls of each administrator.
    pub(crate) admins: &'static [&'static [Ask]],
    /// How often each administrator makes its calls.
    pub(crate) times: u32,
    pub(crate) cycles: u32,
}

/// The inputs of a run besides its administrators: a domain, the streams that are admitted before the run, its offers, and its number of
/// cycles.
#[derive(Clone, Copy)]
pub(crate) struct Given<'d, 's, 'o> {
    pub(crate) domain: &'d Domain,
    pub(crate) streams: &'s [Asked],
    pub(crate) offers: &'o [Offer],
    pub(crate) cycles: u32,
}

/// Returns the outcome of a run with these inputs and these commands of administrators, if it may be run.
pub(crate) fn outcome_of<R: Threads + Wait + Sync, P: Pace>(
    rt: &R,
    alloc: Global,
    given: Given<'_, '_, '_>,
    admins: Vec<Vec<Command>>,
    pace: &P,
) -> Option<Result<Account, ConductFault>> {
    let Given {
        domain,
        streams,
        offers,
        cycles,
    } = given;
    if cycles > 100_000 || offers.len() > 1_000_000 || !are_offers(domain, offers) {
        return None;
    }
    let admission = admission_of(alloc, domain, streams)?;
    let outcome = conduct(
        rt,
        alloc,
        domain,
        admission,
        offers,
        &[],
        cycles,
        admins,
        pace,
    );
    Some(outcome)
}

/// Returns the account of a scenario over a domain, with these offers, if it may be run.
pub(crate) fn account_of<R: Threads + Wait + Sync, P: Pace>(
    rt: &R,
    alloc: Global,
    domain: &Domain,
    scenario: &Scenario,
    offers: &[Offer],
    pace: &P,
) -> Option<Account> {
    let Ok(admins) = all_commands(alloc, scenario.admins, scenario.times) else {
        return None;
    };
    let given = Given {
        domain,
        streams: scenario.streams,
        offers,
        cycles: scenario.cycles,
    };
    match outcome_of(rt, alloc, given, admins, pace) {
        Some(Ok(account)) => Some(account),
        _ => None,
    }
}

/// Returns the account of a scenario over a domain's text, without offers, if it may be run.
pub(crate) fn account_over<R: Threads + Wait + Sync, P: Pace>(
    rt: &R,
    alloc: Global,
    text: &str,
    scenario: &Scenario,
    pace: &P,
) -> Option<Account> {
    match Domain::read(alloc, text.as_bytes()) {
        Ok(domain) => account_of(rt, alloc, &domain, scenario, &[], pace),
        Err(_) => None,
    }
}
