//! Which candidate for the cycle time is taken.
ghost use Rattle.std.specs.Prelude.{◌≡◌, IfOk, Some, false, map, true};
ghost use Rattle.cqf_program_placing.specs.Settled.{settled_value};
ghost use Rattle.cqf_network.specs.NetworkDomain.{IsCycleTime};
ghost use Rattle.cqf_program_planning.specs.Choosing.{is_better, nearer, nearer_of, time_left};
ghost use Rattle.cqf_program_planning.specs.Steps.{AreSettled};
ghost use Rattle.cqf_program_planning.specs.Trying.{ComesOf, ComesOfAll, preferred};

use crate::candidates::Candidate;
use crate::trying::{Tried, try_cycle};
use cqf_network::NetworkDomain;
use cqf_program_placing::Settled;
use cqf_units::Memory;
use std::alloc::Global;

/// How `plan` searches.
#[derive(Clone, Copy, Debug)]
pub struct Search {
    /// The most other orders of placing that are tried for a cycle time.
    pub tries: u32,
    /// Whether the best of all good cycle times is taken, not the first.
    pub best: bool,
}

/// The choice after one candidate for the cycle time, or after some.
#[derive(Drop)]
pub(crate) enum Choice {
    /// It is good, and taken.
    Planned(Tried),
    /// None is good. This is the nearest.
    Unplanned(Candidate),
}

/// Returns the first of two candidates that aren't good, unless the second misses less: streams that aren't placed, and listeners of streams that
/// may be late.
fn nearer_of(first: Candidate, second: Candidate) -> Candidate
    ensures { result ≡ nearer_of first second }
{
    let by_second = second.late as u128 + first.placed as u128;
    let by_first = first.late as u128 + second.placed as u128;
    if by_second < by_first { second } else { first }
}

/// Returns the nearer one of two candidates that aren't good; the second if there is no first.
fn nearer(first: Option<Candidate>, second: Candidate) -> Candidate
    ensures { Some result ≡ nearer first second }
{
    match first {
        Some(first) => nearer_of(first, second),
        None => second,
    }
}

/// Returns what remains of a candidate's tightest deadline, in nanoseconds; 0 if there is no deadline.
fn time_left(candidate: &Candidate) -> u64
    ensures { result ≡ time_left candidate.now.tightest }
{
    match &candidate.tightest {
        Some(slack) => u64::from(slack.deadline).saturating_sub(slack.most),
        None => 0,
    }
}

/// Returns whether a good candidate is better than another good one: more remains of its tightest deadline; or as much, and its fullest link
/// holds a smaller share of its budget.
fn is_better(candidate: &Candidate, other: &Candidate) -> bool
    ensures { result ≡ is_better candidate.now other.now }
{
    let (own, others) = (time_left(candidate), time_left(other));
    let (share, share_of_other) = (candidate.used.unwrap_or(0), other.used.unwrap_or(0));
    others < own || own == others && share < share_of_other
}

/// Returns the better one of two choices: of two good cycle times the first, unless the second is better; a good one rather than one that isn't;
/// or the nearer one.
fn preferred(choice: Option<Choice>, next: Choice) -> Choice
    ensures { result ≡ preferred choice next }
{
    match choice {
        None => next,
        Some(Choice::Planned(first)) => match next {
            Choice::Planned(second) => {
                if is_better(&second.candidate, &first.candidate) {
                    Choice::Planned(second)
                } else {
                    Choice::Planned(first)
                }
            }
            Choice::Unplanned(_) => Choice::Planned(first),
        },
        Some(Choice::Unplanned(first)) => match next {
            Choice::Planned(second) => Choice::Planned(second),
            Choice::Unplanned(second) => Choice::Unplanned(nearer_of(first, second)),
        },
    }
}

/// Returns the choice for settled streams of a network file on a cycle time.
fn choice_at(
    alloc: Global,
    network: &NetworkDomain,
    streams: &[Settled],
    tries: u32,
    cycle_time: u32,
) -> Result<Choice, Memory>
    requires range { IsCycleTime cycle_time }
    requires settled { AreSettled network.now (map settled_value streams.now) }
    ensures { IfOk result (ComesOf network.now (map settled_value streams.now) tries cycle_time) }
{
    if cycle_time <= network.longest_guard() {
        return Ok(Choice::Unplanned(Candidate::shut(cycle_time)));
    }
    let tried = try_cycle(alloc, network, streams, tries, cycle_time)?;
    if tried.candidate.fault.is_none() {
        Ok(Choice::Planned(tried))
    } else {
        Ok(Choice::Unplanned(tried.candidate))
    }
}

/// Returns the first candidate of a network file that is good for its settled streams; if none is, the nearest.
fn choose_first(
    alloc: Global,
    network: &NetworkDomain,
    streams: &[Settled],
    search: Search,
) -> Result<Choice, Memory>
    requires settled { AreSettled network.now (map settled_value streams.now) }
    requires first { search.best ≡ false }
    ensures { IfOk result (ComesOfAll network.now (map settled_value streams.now) search) }
{
    let mut nearest = None;
    for cycle_time in network.candidates() {
        match choice_at(alloc, network, streams, search.tries, *cycle_time)? {
            Choice::Planned(tried) => return Ok(Choice::Planned(tried)),
            Choice::Unplanned(candidate) => nearest = Some(nearer(nearest, candidate)),
        }
    }
    match nearest {
        Some(nearest) => Ok(Choice::Unplanned(nearest)),
        None => unreachable!(),
    }
}

/// Returns the best candidate of a network file that is good for its settled streams; if none is, the nearest.
fn choose_best(
    alloc: Global,
    network: &NetworkDomain,
    streams: &[Settled],
    search: Search,
) -> Result<Choice, Memory>
    requires settled { AreSettled network.now (map settled_value streams.now) }
    requires best { search.best ≡ true }
    ensures { IfOk result (ComesOfAll network.now (map settled_value streams.now) search) }
{
    let mut choice = None;
    for cycle_time in network.candidates() {
        let next = choice_at(alloc, network, streams, search.tries, *cycle_time)?;
        choice = Some(preferred(choice, next));
    }
    match choice {
        Some(choice) => Ok(choice),
        None => unreachable!(),
    }
}

/// Returns the first candidate of a network file that is good for its settled streams, or the best one; if none is good, the nearest.
pub(crate) fn choose(
    alloc: Global,
    network: &NetworkDomain,
    streams: &[Settled],
    search: Search,
) -> Result<Choice, Memory>
    requires { AreSettled network.now (map settled_value streams.now) }
    ensures { IfOk result (ComesOfAll network.now (map settled_value streams.now) search) }
{
    if search.best {
        choose_best(alloc, network, streams, search)
    } else {
        choose_first(alloc, network, streams, search)
    }
}
