//! The search for an order in which all streams are placed on a cycle time.
ghost use Rattle.std.specs.Prelude.{◌≡◌, ◌<◌, All, IfOk, OnOk, length, map, option_and_then, option_map};
ghost use Rattle.cqf_admission.specs.Asking.{asked_paced};
ghost use Rattle.cqf_network.specs.NetworkDomain.{IsOpenCycle, domain_at};
ghost use Rattle.cqf_program_placing.specs.Placing.{Placed, outcome_value};
ghost use Rattle.cqf_program_placing.specs.Settled.{settled_value};
ghost use Rattle.cqf_program_planning.specs.Orders.{all_placed, good_in, if_good, order_after};
ghost use Rattle.cqf_program_planning.specs.Searching.{AreRowsOf, ComesOfRun, IsFoundTried, IsSearchedTried};
ghost use Rattle.cqf_program_planning.specs.Steps.{AreSettled};

use crate::judging::candidate_of;
use crate::orders::{first_order, next_order, requests_in};
use crate::trying::Tried;
use cqf_laws_history::state_follows_history;
use cqf_model::Row;
use cqf_network::NetworkDomain;
use cqf_output::{REFUSED, Stop};
use cqf_program_placing::{PlacingOutcome, Settled, place_in_order};
use cqf_program_plans::rows_of_cycle_0;
use cqf_topology::{Domain, PacedRequest};
use cqf_units::Memory;
use std::alloc::{AllocError, Global};

/// Returns the outcomes for streams that are all placed, with these requests.
fn all_placed(alloc: Global, requests: &[PacedRequest]) -> Result<Vec<PlacingOutcome>, Memory>
    ensures { IfOk result (λ outcomes. map outcome_value outcomes.items ≡ map Placed (map asked_paced requests.now)) }
{
    let mut outcomes = Vec::with_capacity(alloc, requests.len())?;
    for request in requests {
        let copy = request.try_copy(alloc)?;
        outcomes.push(PlacingOutcome::Placed(copy))?;
    }
    Ok(outcomes)
}

/// Returns nothing at an end with a refusal; `Memory` at another end.
fn check_refused(stop: &Stop) -> Result<(), Memory>
    ensures { OnOk result (stop.now.status ≡ 1) }
{
    if stop.status == REFUSED {
        Ok(())
    } else {
        Err(AllocError)
    }
}

/// Returns the rows of streams that are all admitted before cycle 0; `None` if one is refused.
fn rows_of(
    alloc: Global,
    domain: &Domain,
    requests: &[PacedRequest],
) -> Result<Option<Vec<Row>>, Memory>
    ensures { IfOk result (λ found. AreRowsOf domain.now (map asked_paced requests.now) (option_map (λ rows. rows.items) found)) }
{
    match rows_of_cycle_0(alloc, domain, requests) {
        Ok(rows) => Ok(Some(rows)),
        Err(stop) => {
            check_refused(&stop)?;
            Ok(None)
        }
    }
}

/// Returns the verdict on streams with these requests, one for each in the order of the network file, if all can be admitted and none may be
/// late.
fn tried_with(
    alloc: Global,
    streams: &[Settled],
    domain: Domain,
    requests: &[PacedRequest],
) -> Result<Option<Tried>, Memory>
    requires { length requests.now ≡ length streams.now }
    ensures { IfOk result (IsFoundTried (map settled_value streams.now)
        (option_and_then (if_good (map settled_value streams.now)) (all_placed domain (map asked_paced requests.now)))) }
{
    state_follows_history();
    let held = rows_of(alloc, &domain, requests)?;
    let Some(rows) = held else {
        return Ok(None);
    };
    let outcomes = all_placed(alloc, requests)?;
    let candidate = candidate_of(
        alloc,
        streams,
        &domain,
        rows.as_slice(),
        outcomes.as_slice(),
    )?;
    if candidate.fault.is_some() {
        return Ok(None);
    }
    Ok(Some(Tried {
        candidate,
        domain,
        outcomes,
    }))
}

/// Returns the verdict on streams with these outcomes in an order, if all are placed, all can be admitted so in the order of the network file,
/// and none may be late.
fn tried_in(
    alloc: Global,
    network: &NetworkDomain,
    streams: &[Settled],
    cycle_time: u32,
    order: &[usize],
    outcomes: &[PlacingOutcome],
) -> Result<Option<Tried>, Memory>
    requires open { IsOpenCycle network.now cycle_time }
    requires each { length outcomes.now ≡ length order.now }
    ensures { IfOk result (IsFoundTried (map settled_value streams.now)
        (good_in (domain_at network.now cycle_time) (map settled_value streams.now) order.now (map outcome_value outcomes.now))) }
{
    let asked = requests_in(alloc, streams.len(), order, outcomes)?;
    let Some(requests) = asked else {
        return Ok(None);
    };
    let domain = network.at(alloc, cycle_time)?;
    let found = tried_with(alloc, streams, domain, requests.as_slice())?;
    Ok(found)
}

/// Places streams on a cycle time in an order of their indices. Returns the verdict on them, if they are good in this order as [`tried_in`]
/// says; and the order after it, if there is one.
fn try_order(
    alloc: Global,
    network: &NetworkDomain,
    streams: &[Settled],
    cycle_time: u32,
    order: &[usize],
) -> Result<(Option<Tried>, Option<Vec<usize>>), Memory>
    requires open { IsOpenCycle network.now cycle_time }
    requires settled { AreSettled network.now (map settled_value streams.now) }
    requires inside { All (λ index. index < length streams.now) order.now }
    requires many { length order.now ≡ length streams.now }
    ensures { IfOk result (λ came. ComesOfRun network.now (map settled_value streams.now) cycle_time order.now came.0
        (option_map (λ next. next.items) came.1)) }
{
    let run = place_in_order(alloc, network, cycle_time, streams, order)?;
    let found = tried_in(alloc, network, streams, cycle_time, order, run.outcomes())?;
    let next = next_order(alloc, streams, order, run.outcomes())?;
    Ok((found, next))
}

/// Returns the order after that of the network file, in which streams have these outcomes.
fn order_after(
    alloc: Global,
    streams: &[Settled],
    outcomes: &[PlacingOutcome],
) -> Result<Option<Vec<usize>>, Memory>
    requires { length outcomes.now ≡ length streams.now }
    ensures { IfOk result (λ next. option_map (λ order. order.items) next ≡ order_after (map settled_value streams.now) (map outcome_value outcomes.now)) }
{
    let order = first_order(alloc, streams.len())?;
    let next = next_order(alloc, streams, order.as_slice(), outcomes)?;
    Ok(next)
}

/// Returns the verdict on the first of at most `tries` orders after that of the network file in which all streams are placed on a cycle time and
/// none may be late, by the outcomes in the order of the file; `None` if there is no such order.
///
/// # Errors
/// `Memory` if an allocation fails.
pub(crate) fn search(
    alloc: Global,
    network: &NetworkDomain,
    streams: &[Settled],
    cycle_time: u32,
    tries: u32,
    outcomes: &[PlacingOutcome],
) -> Result<Option<Tried>, Memory>
    requires open { IsOpenCycle network.now cycle_time }
    requires settled { AreSettled network.now (map settled_value streams.now) }
    requires each { length outcomes.now ≡ length streams.now }
    ensures { IfOk result (IsSearchedTried network.now (map settled_value streams.now) cycle_time tries
        (order_after (map settled_value streams.now) (map outcome_value outcomes.now))) }
{
    let mut next = order_after(alloc, streams, outcomes)?;
    for _attempt in 0..tries {
        let Some(order) = next else {
            return Ok(None);
        };
        let (found, later) = try_order(alloc, network, streams, cycle_time, order.as_slice())?;
        if found.is_some() {
            return Ok(found);
        }
        next = later;
    }
    Ok(None)
}
