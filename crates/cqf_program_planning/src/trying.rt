//! Cycle times that are tried: the streams are placed on them, and the result is judged.
ghost use Rattle.std.specs.Prelude.{IfOk, map};
ghost use Rattle.cqf_program_placing.specs.Placing.{ArePlaced};
ghost use Rattle.cqf_program_placing.specs.Settled.{settled_value};
ghost use Rattle.cqf_program_planning.specs.Orders.{AreJudgedBy, IsJudgedBy};
ghost use Rattle.cqf_program_planning.specs.Steps.{AreSettled};
ghost use Rattle.cqf_program_planning.specs.Trying.{IsTried, IsTriedBy};
ghost use Rattle.cqf_network.specs.NetworkDomain.{IsCycleTime, IsOpenCycle};

use crate::candidates::Candidate;
use crate::judging::candidate_of;
use crate::searching::search;
use cqf_network::NetworkDomain;
use cqf_program_placing::{Placing, PlacingOutcome, Settled, place};
use cqf_topology::Domain;
use cqf_units::Memory;
use std::alloc::Global;

/// A cycle time on which streams were placed: the verdict on it, the plan's domain, and the outcome for each stream.
#[derive(Drop)]
pub(crate) struct Tried {
    pub(crate) candidate: Candidate,
    pub(crate) domain: Domain,
    pub(crate) outcomes: Vec<PlacingOutcome>,
}

/// Returns the verdict on streams that are placed.
fn tried_of(alloc: Global, streams: &[Settled], placing: Placing) -> Result<Tried, Memory>
    requires { ArePlaced (map settled_value streams.now) placing }
    ensures { IfOk result (IsTriedBy (map settled_value streams.now) placing) }
{
    let (domain, rows, outcomes) = placing.into_parts(alloc)?;
    let candidate = candidate_of(
        alloc,
        streams,
        &domain,
        rows.as_slice(),
        outcomes.as_slice(),
    )?;
    Ok(Tried {
        candidate,
        domain,
        outcomes,
    })
}

/// Places settled streams of a network file on an open cycle time, in the order of the file. If one finds no room so, tries at most `tries` other
/// orders, and takes the first in which all are placed and none may be late.
pub(crate) fn try_cycle(
    alloc: Global,
    network: &NetworkDomain,
    streams: &[Settled],
    tries: u32,
    cycle_time: u32,
) -> Result<Tried, Memory>
    requires open { IsOpenCycle network.now cycle_time }
    requires settled { AreSettled network.now (map settled_value streams.now) }
    ensures { IfOk result (IsTried network.now (map settled_value streams.now) tries cycle_time) }
{
    let placing = place(alloc, network, cycle_time, streams)?;
    let first = tried_of(alloc, streams, placing)?;
    let outcomes = first.outcomes.as_slice();
    let found = search(alloc, network, streams, cycle_time, tries, outcomes)?;
    match found {
        Some(tried) => Ok(tried),
        None => Ok(first),
    }
}

/// Returns the verdict on a cycle time, in nanoseconds, for settled streams of a network file. If the cycle time isn't longer than every
/// guard band, nothing is placed. Else at most `tries` other orders of placing are tried if a stream finds no room in the order of the file. The
/// verdict says how many streams are placed, how much of the links' budgets is held, how tight deadlines are, and, if it isn't good, why.
///
/// # Errors
/// `Memory` if an allocation fails.
pub fn judge(
    alloc: Global,
    network: &NetworkDomain,
    streams: &[Settled],
    tries: u32,
    cycle_time: u32,
) -> Result<Candidate, Memory>
    requires range { IsCycleTime cycle_time }
    requires settled { AreSettled network.now (map settled_value streams.now) }
    ensures { IfOk result (IsJudgedBy network.now (map settled_value streams.now) tries cycle_time) }
{
    if cycle_time <= network.longest_guard() {
        return Ok(Candidate::shut(cycle_time));
    }
    let tried = try_cycle(alloc, network, streams, tries, cycle_time)?;
    Ok(tried.candidate)
}

/// Returns the verdict on each candidate of a network file, in the order of preference.
pub(crate) fn judge_all(
    alloc: Global,
    network: &NetworkDomain,
    streams: &[Settled],
    tries: u32,
) -> Result<Vec<Candidate>, Memory>
    requires { AreSettled network.now (map settled_value streams.now) }
    ensures { IfOk result (λ reported. AreJudgedBy network.now (map settled_value streams.now) tries network.now.candidates reported.items) }
{
    let mut reported = Vec::new(alloc);
    for cycle_time in network.candidates() {
        let candidate = judge(alloc, network, streams, tries, *cycle_time)?;
        reported.push(candidate)?;
    }
    Ok(reported)
}
