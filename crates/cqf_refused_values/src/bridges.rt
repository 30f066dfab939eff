//! Calls of bridges of the line.
ghost use Rattle.std.specs.Prelude.{◌≡◌, ◌<◌, IfSome, length};
ghost use Rattle.cqf_model.specs.Run.{AreOffers};
ghost use Rattle.cqf_laws_cycle.specs.Gathered.{offered_for};

use crate::domains::is_line;
use crate::{Reported, X, mark, once, plan_of, tables_with, trial, twice};
use cqf_admission::Table;
use cqf_agenda::offers_of;
use cqf_bridge::{Batch, Bridge, BridgeFault};
use cqf_compile::Plan;
use cqf_model::{Dropped, Offer, Offered, Reason, Sent};
use cqf_test_fixtures::{
    Asked, Fell, Offering, are_dropped, are_offers, line, offers_of as offers_with,
};
use cqf_units::{Cycle, Memory, Nanos};
use std::alloc::Global;

/// Whether a bridge was made that sends one empty batch on link 1 in its first cycle.
fn is_new(alloc: Global, made: Result<Bridge, Memory>) -> bool {
    match made {
        Ok(mut bridge) => {
            bridge.number() == 1
                && is_line(bridge.domain())
                && bridge.background_starts().is_empty()
                && sends(alloc, &mut bridge, Cycle(0), 1, &[])
        }
        Err(_) => false,
    }
}

/// Whether a batch is of this cycle and link, and has these frames.
pub(crate) fn is_batch(batch: &Batch, cycle: Cycle, link: u16, frames: &[Sent]) -> bool {
    if batch.cycle() != cycle || batch.link() != link || batch.len() != frames.len() {
        return false;
    }
    for index in 0..frames.len() {
        if batch.get(index) != frames[index] {
            return false;
        }
    }
    true
}

/// Whether one batch of this cycle and link was sent, with these frames.
fn is_sent(batches: &[Batch], cycle: Cycle, link: u16, frames: &[Sent]) -> bool {
    match batches {
        [batch] => is_batch(batch, cycle, link, frames),
        _ => false,
    }
}

/// Whether a bridge sends, for this cycle, one batch of this link with these frames.
pub(crate) fn sends(
    alloc: Global,
    bridge: &mut Bridge,
    cycle: Cycle,
    link: u16,
    frames: &[Sent],
) -> bool
    requires { cycle.0 < 100000 }
{
    let mut batches = Vec::new(alloc);
    bridge.send(alloc, cycle, &[], &mut batches).is_ok()
        && is_sent(batches.as_slice(), cycle, link, frames)
}

/// Tries to make the second bridge of a plan.
fn made(alloc: Global, plan: &Plan) -> Reported
    requires { 1 < length plan.now.bridges }
{
    trial!(
        alloc,
        Bridge::new(alloc, plan, 1),
        Err(_),
        is_line(plan.domain()),
        |answer| is_new(alloc, answer)
    )
}

/// Tries the same if there is a second bridge.
fn made_of(alloc: Global, plan: &Plan) -> Option<Reported> {
    if plan.domain().bridges() == 3 {
        Some(made(alloc, plan))
    } else {
        None
    }
}

pub(crate) fn new_reported(alloc: Global) -> Option<Reported> {
    let plan = plan_of(alloc, line())?;
    made_of(alloc, &plan)
}

/// Returns the bridge's own of the offers in a cycle.
fn own_of(alloc: Global, bridge: &Bridge, cycle: Cycle, offers: &[Offer]) -> Option<Vec<Offered>>
    ensures offers { IfSome result (λ own. AreOffers bridge.now.domain offers.now) }
    ensures own { IfSome result (λ own. own.items ≡ offered_for bridge.now.domain offers.now bridge.now.number cycle.0) }
{
    if !are_offers(bridge.domain(), offers) || offers.len() > 1000 {
        return None;
    }
    match offers_of(alloc, bridge.domain(), offers, bridge.number(), cycle) {
        Ok(own) => Some(own),
        Err(_) => None,
    }
}

/// Lets a bridge receive a cycle with its own of these offers.
pub(crate) fn receive(
    alloc: Global,
    bridge: &mut Bridge,
    table: &Table,
    batches: &[Batch],
    offers: &[Offer],
) -> Result<Vec<Dropped>, BridgeFault> {
    let cycle = table.cycle();
    if cycle.0 >= 100_000 {
        return Err(BridgeFault::Memory);
    }
    match own_of(alloc, bridge, cycle, offers) {
        Some(own) => bridge.receive(alloc, cycle, table, batches, own.as_slice()),
        None => Err(BridgeFault::Memory),
    }
}

/// Whether a bridge goes through the cycle of a table without a batch.
pub(crate) fn goes_through(
    alloc: Global,
    bridge: &mut Bridge,
    table: &Table,
    offers: &[Offer],
    link: u16,
) -> bool {
    let cycle = table.cycle();
    cycle.0 < 100_000
        && sends(alloc, bridge, cycle, link, &[])
        && receive(alloc, bridge, table, &[], offers).is_ok()
}

/// What is prepared for a domain: its plan, the tables of two cycles that hold streams, and the offers.
#[derive(Drop)]
pub(crate) struct Ready {
    pub(crate) plan: Plan,
    pub(crate) tables: Vec<Table>,
    pub(crate) offers: Vec<Offer>,
}

/// Prepares all of it for the line; there are three bridges and two tables.
pub(crate) fn make_ready(alloc: Global, streams: &[Asked], offering: &[Offering]) -> Option<Ready> {
    let plan = plan_of(alloc, line())?;
    let tables = tables_with(alloc, &plan, streams, 2)?;
    match offers_with(alloc, offering) {
        Ok(offers) => Some(Ready {
            plan,
            tables,
            offers,
        }),
        Err(_) => None,
    }
}

/// Returns a new bridge of what was prepared, if there is one with this number.
fn bridge_of(alloc: Global, ready: &Ready, number: u16) -> Option<Bridge> {
    if number >= ready.plan.domain().bridges() {
        return None;
    }
    match Bridge::new(alloc, &ready.plan, number) {
        Ok(bridge) => Some(bridge),
        Err(_) => None,
    }
}

/// Returns the first bridge after cycle 0.
pub(crate) fn first_after(alloc: Global, ready: &Ready) -> Option<Bridge> {
    let mut bridge = bridge_of(alloc, ready, 0)?;
    if goes_through(
        alloc,
        &mut bridge,
        ready.tables.first()?,
        ready.offers.as_slice(),
        0,
    ) {
        Some(bridge)
    } else {
        None
    }
}

/// A frame of 64 octets of stream 0, at the beginning of cycle 1.
pub(crate) const FRAME: Sent = Sent {
    start: Nanos(125_000),
    frame: 1,
    stream: 0,
    octets: 64,
};

/// Whether a bridge no longer sends anything.
fn is_spent(alloc: Global, bridge: &mut Bridge) -> bool {
    let mut batches = Vec::new(alloc);
    bridge.send(alloc, Cycle(1), &[], &mut batches) == Err(BridgeFault::Spent) && batches.is_empty()
}

/// Tries to let the first bridge send cycle 1. If that fails the bridge is spent, and its twin sends it.
fn sent(alloc: Global, bridge: &mut Bridge, twin: &mut Bridge) -> Reported {
    let mut batches = Vec::new(alloc);
    mark(alloc);
    let first = bridge.send(alloc, Cycle(1), &[], &mut batches);
    mark(alloc);
    if first != Err(BridgeFault::Memory) {
        return once(first == Ok(()) && is_sent(batches.as_slice(), Cycle(1), 0, &[FRAME]));
    }
    let stands = batches.is_empty() && is_spent(alloc, bridge);
    twice(stands, sends(alloc, twin, Cycle(1), 0, &[FRAME]))
}

/// A frame that is offered in cycle 0 at the first bridge.
pub(crate) const ONE: &[Offering] = &[(0, 0, "x", 64)];

/// Returns two bridges that have gone through cycle 0.
fn two_after(alloc: Global, ready: &Ready) -> Option<(Bridge, Bridge)> {
    Some((first_after(alloc, ready)?, first_after(alloc, ready)?))
}

pub(crate) fn send_reported(alloc: Global) -> Option<Reported> {
    let ready = make_ready(alloc, &[X], ONE)?;
    let (mut bridge, mut twin) = two_after(alloc, &ready)?;
    Some(sent(alloc, &mut bridge, &mut twin))
}

/// Returns what the first bridge sends in its first cycle.
fn empty_batches(alloc: Global, ready: &Ready) -> Option<Vec<Batch>> {
    let mut bridge = bridge_of(alloc, ready, 0)?;
    let mut batches = Vec::new(alloc);
    match bridge.send(alloc, Cycle(0), &[], &mut batches) {
        Ok(()) => Some(batches),
        Err(_) => None,
    }
}

/// Returns the second bridge after it has sent cycle 1.
pub(crate) fn second_after(alloc: Global, ready: &Ready) -> Option<Bridge> {
    let mut bridge = bridge_of(alloc, ready, 1)?;
    let batches = empty_batches(alloc, ready)?;
    let goes = sends(alloc, &mut bridge, Cycle(0), 1, &[])
        && receive(
            alloc,
            &mut bridge,
            ready.tables.first()?,
            batches.as_slice(),
            &[],
        )
        .is_ok()
        && sends(alloc, &mut bridge, Cycle(1), 1, &[]);
    if goes { Some(bridge) } else { None }
}

/// Returns what the first bridge sends in cycle 1.
pub(crate) fn full_batches(alloc: Global, ready: &Ready) -> Option<Vec<Batch>> {
    let mut bridge = first_after(alloc, ready)?;
    let mut batches = Vec::new(alloc);
    match bridge.send(alloc, Cycle(1), &[], &mut batches) {
        Ok(()) => Some(batches),
        Err(_) => None,
    }
}

/// The first frame that leaves the second bridge in cycle 2.
const LATER: Sent = Sent {
    start: Nanos(250_000),
    frame: 1,
    stream: 0,
    octets: 64,
};

/// Returns the frame of the next stream, which leaves it after another one: 84 octets on the wire take 672 ns.
fn following(sent: &Sent) -> Sent {
    Sent {
        start: Nanos(sent.start.0.saturating_add(672)),
        frame: sent.frame.saturating_add(1),
        stream: sent.stream.saturating_add(1),
        octets: 64,
    }
}

/// Whether a batch of cycle 2 and link 1 has this number of frames, one after the other.
fn is_later(batch: &Batch, count: usize) -> bool {
    if batch.cycle() != Cycle(2) || batch.link() != 1 || batch.len() != count {
        return false;
    }
    let mut sent = LATER;
    for index in 0..count {
        if batch.get(index) != sent {
            return false;
        }
        sent = following(&sent);
    }
    true
}

/// Whether the second bridge sends that.
fn sends_later(alloc: Global, bridge: &mut Bridge, count: usize) -> bool {
    let mut batches = Vec::new(alloc);
    let is_ok = bridge.send(alloc, Cycle(2), &[], &mut batches).is_ok();
    match batches.as_slice() {
        [batch] => is_ok && is_later(batch, count),
        _ => false,
    }
}

/// What the second bridge receives in cycle 1, what it drops then, and how many frames go on.
#[derive(Clone, Copy)]
struct Handed<'a> {
    table: &'a Table,
    batches: &'a [Batch],
    offers: &'a [Offer],
    drops: &'a [Fell],
    later: usize,
}

/// Whether a cycle was received with these drops, and this number of frames goes on.
fn is_received(
    alloc: Global,
    bridge: &mut Bridge,
    received: &Result<Vec<Dropped>, BridgeFault>,
    handed: &Handed<'_>,
) -> bool {
    match received {
        Ok(dropped) => {
            are_dropped(dropped.as_slice(), handed.drops)
                && sends_later(alloc, bridge, handed.later)
        }
        Err(_) => false,
    }
}

/// Tries to let it receive the cycle. If that fails the bridge is spent, and its twin receives it.
fn received(
    alloc: Global,
    bridge: &mut Bridge,
    twin: &mut Bridge,
    handed: &Handed<'_>,
) -> Option<Reported> {
    let Some(own) = own_of(alloc, bridge, Cycle(1), handed.offers) else {
        return None;
    };
    mark(alloc);
    let first = bridge.receive(
        alloc,
        Cycle(1),
        handed.table,
        handed.batches,
        own.as_slice(),
    );
    mark(alloc);
    match first {
        Err(BridgeFault::Memory) => {
            let stands = is_spent(alloc, bridge);
            let again = receive(alloc, twin, handed.table, handed.batches, handed.offers);
            Some(twice(stands, is_received(alloc, twin, &again, handed)))
        }
        other => Some(once(is_received(alloc, bridge, &other, handed))),
    }
}

/// Returns two second bridges.
fn two_seconds(alloc: Global, ready: &Ready) -> Option<(Bridge, Bridge)> {
    Some((second_after(alloc, ready)?, second_after(alloc, ready)?))
}

/// Tries to let the second bridge of what was prepared receive cycle 1.
fn received_of(alloc: Global, ready: &Ready, drops: &[Fell], later: usize) -> Option<Reported> {
    let (mut bridge, mut twin) = two_seconds(alloc, ready)?;
    let batches = full_batches(alloc, ready)?;
    let handed = Handed {
        table: ready.tables.get(1)?,
        batches: batches.as_slice(),
        offers: ready.offers.as_slice(),
        drops,
        later,
    };
    received(alloc, &mut bridge, &mut twin, &handed)
}

/// Tries the same while these streams are held and these frames are offered, with these drops and this number of frames
/// that go on.
pub(crate) fn received_with(
    alloc: Global,
    streams: &[Asked],
    offering: &[Offering],
    drops: &[Fell],
    later: usize,
) -> Option<Reported> {
    let ready = make_ready(alloc, streams, offering)?;
    received_of(alloc, &ready, drops, later)
}

pub(crate) fn receive_reported(alloc: Global) -> Option<Reported> {
    let offering = [(0, 0, "x", 64), (125_000, 1, "x", 64)];
    let drops = [(1, 1, 2, 64, Reason::OtherBridge)];
    received_with(alloc, &[X], &offering, &drops, 1)
}
