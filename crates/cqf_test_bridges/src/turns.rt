//! Cycles in turn: what a bridge refuses, and its state afterwards.
ghost use Rattle.std.specs.Prelude.{◌≡◌, ◌<◌, length};

use crate::calls::receive;
use crate::tables::{Call, ONE_BRANCH, add_tables, plan_of};
use cqf_admission::Table;
use cqf_bridge::{Batch, Bridge, BridgeFault, Offer};
use cqf_compile::Plan;
use cqf_test_fixtures::{line, offers_of};
use cqf_units::Cycle;
use std::alloc::Global;

/// Returns whether a bridge sends a cycle with exactly one batch, of this link and without frames.
fn sends_an_empty_batch(alloc: Global, bridge: &mut Bridge, cycle: Cycle, link: u16) -> bool
    requires { cycle.0 < 100000 }
{
    let mut batches = Vec::new(alloc);
    if bridge.send(alloc, cycle, &[], &mut batches).is_err() || batches.len() != 1 {
        return false;
    }
    let batch = &batches.as_slice()[0];
    batch.link() == link && batch.cycle() == cycle && batch.len() == 0 && batch.octets() == 0
}

/// Returns whether a bridge refuses to send a cycle with this fault, and returns no batch.
fn refuses_to_send(alloc: Global, bridge: &mut Bridge, cycle: Cycle, fault: BridgeFault) -> bool
    requires { cycle.0 < 100000 }
{
    let mut batches = Vec::new(alloc);
    bridge.send(alloc, cycle, &[], &mut batches) == Err(fault) && batches.is_empty()
}

/// Returns whether a bridge receives the cycle of a table, and drops nothing.
fn receives(
    alloc: Global,
    bridge: &mut Bridge,
    table: &Table,
    batches: &[Batch],
    offers: &[Offer],
) -> bool {
    let cycle = table.cycle();
    if cycle.0 >= 100_000 {
        return false;
    }
    match receive(alloc, bridge, cycle, table, batches, offers) {
        Ok(dropped) => dropped.is_empty(),
        Err(_) => false,
    }
}

/// Returns whether a bridge refuses to receive the cycle of a table with this fault.
fn refuses(
    alloc: Global,
    bridge: &mut Bridge,
    table: &Table,
    batches: &[Batch],
    fault: BridgeFault,
) -> bool {
    let cycle = table.cycle();
    if cycle.0 >= 100_000 {
        return false;
    }
    match receive(alloc, bridge, cycle, table, batches, &[]) {
        Ok(_) => false,
        Err(cause) => cause == fault,
    }
}

/// Returns whether a bridge takes turns: it sends cycle 0, and no other cycle before it, or after it until it has received it.
fn takes_turns(alloc: Global, bridge: &mut Bridge) -> bool {
    let wrong = BridgeFault::WrongCycle;
    refuses_to_send(alloc, bridge, Cycle(1), wrong)
        && sends_an_empty_batch(alloc, bridge, Cycle(0), 1)
        && refuses_to_send(alloc, bridge, Cycle(0), wrong)
        && refuses_to_send(alloc, bridge, Cycle(1), wrong)
}

/// Returns whether a bridge that has sent cycle 0 needs a batch of link 0 to receive it, and then receives it.
fn wants_its_batch(alloc: Global, first: &mut Bridge, bridge: &mut Bridge, table: &Table) -> bool {
    let mut batches = Vec::new(alloc);
    first.send(alloc, Cycle(0), &[], &mut batches).is_ok()
        && refuses(alloc, bridge, table, &[], BridgeFault::StrangeBatch)
        && receives(alloc, bridge, table, batches.as_slice(), &[])
        && sends_an_empty_batch(alloc, bridge, Cycle(1), 1)
}

/// Admissions of two cycles each: one holds 1,500 octets for `x`, one holds 64, and one holds no stream.
const ADMISSIONS: &[&[Call]] = &[
    &[Call::Admit(1500, ONE_BRANCH), Call::Seal, Call::Seal],
    &[Call::Admit(64, ONE_BRANCH), Call::Seal, Call::Seal],
    &[Call::Seal, Call::Seal],
];

/// Returns whether a bridge goes through cycle 0 with these offers; appends what it sends in it and in the next one.
fn sends_twice(
    alloc: Global,
    first: &mut Bridge,
    table: &Table,
    offers: &[Offer],
    empty: &mut Vec<Batch>,
    full: &mut Vec<Batch>,
) -> bool {
    first.send(alloc, Cycle(0), &[], empty).is_ok()
        && receives(alloc, first, table, &[], offers)
        && first.send(alloc, Cycle(1), &[], full).is_ok()
}

/// Returns whether a bridge refuses the batch of cycle 1 if the table has no row for its frame, and is spent by it if the frame exceeds its
/// gate.
fn is_spent_by(
    alloc: Global,
    bridge: &mut Bridge,
    tables: &[Table],
    empty: &[Batch],
    full: &[Batch],
) -> bool
    requires { length tables.now ≡ 6 }
{
    sends_an_empty_batch(alloc, bridge, Cycle(0), 1)
        && receives(alloc, bridge, &tables[2], empty, &[])
        && sends_an_empty_batch(alloc, bridge, Cycle(1), 1)
        && refuses(alloc, bridge, &tables[5], full, BridgeFault::StrangeBatch)
        && refuses(alloc, bridge, &tables[3], full, BridgeFault::OverOctets(1))
        && refuses_to_send(alloc, bridge, Cycle(2), BridgeFault::Spent)
}

/// Returns whether the second bridge, with the second admission, is spent by what the first one sends with the first admission.
fn spends_the_next(
    alloc: Global,
    first: &mut Bridge,
    bridge: &mut Bridge,
    tables: &[Table],
    offers: &[Offer],
) -> bool
    requires { length tables.now ≡ 6 }
{
    let mut empty = Vec::new(alloc);
    let mut full = Vec::new(alloc);
    sends_twice(alloc, first, &tables[0], offers, &mut empty, &mut full)
        && is_spent_by(alloc, bridge, tables, empty.as_slice(), full.as_slice())
}

/// A trial with the first two bridges of the line.
#[derive(Clone, Copy)]
enum Trial {
    /// The second bridge goes in turn, and no stream is held.
    InTurn,
    /// The second bridge is spent by what the first one sends.
    Spent,
}

/// Returns whether a trial with the two bridges succeeds.
fn goes_so(
    alloc: Global,
    first: &mut Bridge,
    bridge: &mut Bridge,
    tables: &[Table],
    offers: &[Offer],
    trial: Trial,
) -> bool
    requires { length tables.now ≡ 6 }
{
    match trial {
        Trial::InTurn => {
            takes_turns(alloc, bridge) && wants_its_batch(alloc, first, bridge, &tables[4])
        }
        Trial::Spent => spends_the_next(alloc, first, bridge, tables, offers),
    }
}

/// Returns whether it does on a plan, with two new bridges.
fn goes_so_on(
    alloc: Global,
    plan: &Plan,
    tables: &[Table],
    offers: &[Offer],
    trial: Trial,
) -> bool {
    if plan.domain().bridges() != 3 || tables.len() != 6 {
        return false;
    }
    let Ok(mut first) = Bridge::new(alloc, plan, 0) else {
        return false;
    };
    match Bridge::new(alloc, plan, 1) {
        Ok(mut bridge) => goes_so(alloc, &mut first, &mut bridge, tables, offers, trial),
        Err(_) => false,
    }
}

/// Appends the tables of each of the admissions.
fn add_each(alloc: Global, plan: &Plan, tables: &mut Vec<Table>) -> bool {
    for calls in ADMISSIONS {
        if !add_tables(alloc, plan, calls, tables) {
            return false;
        }
    }
    true
}

/// Returns whether it does on a plan with the tables of the admissions, if 1,500 octets are offered.
fn goes_so_by(alloc: Global, plan: &Plan, trial: Trial) -> bool {
    let mut tables = Vec::new(alloc);
    if !add_each(alloc, plan, &mut tables) {
        return false;
    }
    match offers_of(alloc, &[(0, 0, "x", 1500)]) {
        Ok(offers) => goes_so_on(alloc, plan, tables.as_slice(), offers.as_slice(), trial),
        Err(_) => false,
    }
}

/// Returns whether it does on the line.
fn line_goes_so(alloc: Global, trial: Trial) -> bool {
    match plan_of(alloc, line()) {
        Some(plan) => goes_so_by(alloc, &plan, trial),
        None => false,
    }
}

#[test]
fn cycles_are_sent_and_received_in_turn(rt: HostRuntime) {
    assert!(rt; line_goes_so(rt.alloc(), Trial::InTurn));
}

#[test]
fn a_frame_that_exceeds_its_gate_inside_spends_the_bridge(rt: HostRuntime) {
    assert!(rt; line_goes_so(rt.alloc(), Trial::Spent));
}
