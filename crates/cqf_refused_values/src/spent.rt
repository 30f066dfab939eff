//! Uses of a bridge that allocate no memory: reading what it sends, and calls after it is spent.
use crate::bridges::{
    FRAME, ONE, Ready, first_after, full_batches, is_batch, make_ready, receive, second_after,
};
use crate::domains::is_line;
use crate::{PATH, Reported, X, looked_at, mark, once};
use cqf_admission::Table;
use cqf_bridge::{Batch, Bridge, BridgeFault};
use cqf_test_fixtures::{Asked, Offering};
use cqf_units::Cycle;
use std::alloc::Global;

/// Observes the first bridge and its batch of cycle 1.
fn batch_seen(alloc: Global, bridge: &Bridge, batch: &Batch) -> Reported {
    looked_at!(
        alloc,
        is_batch(batch, Cycle(1), 0, &[FRAME])
            && batch.octets() == 64
            && bridge.number() == 0
            && is_line(bridge.domain())
            && bridge.background_starts().is_empty()
    )
}

/// Observes them if the bridge sends one batch.
fn batch_sent(alloc: Global, bridge: &mut Bridge) -> Option<Reported> {
    let mut batches = Vec::new(alloc);
    bridge.send(alloc, Cycle(1), &[], &mut batches).ok()?;
    match batches.as_slice() {
        [batch] => Some(batch_seen(alloc, bridge, batch)),
        _ => None,
    }
}

pub(crate) fn batch_reported(alloc: Global) -> Option<Reported> {
    let ready = make_ready(alloc, &[X], ONE)?;
    let mut bridge = first_after(alloc, &ready)?;
    batch_sent(alloc, &mut bridge)
}

/// Calls a spent bridge to receive and to send.
fn asked(alloc: Global, bridge: &mut Bridge, table: &Table, batches: &[Batch]) -> Reported {
    let mut sent = Vec::new(alloc);
    mark(alloc);
    let received = receive(alloc, bridge, table, batches, &[]);
    let sending = bridge.send(alloc, Cycle(1), &[], &mut sent);
    mark(alloc);
    let is_spent = matches!(received, Err(BridgeFault::Spent));
    once(is_spent && sending == Err(BridgeFault::Spent) && sent.is_empty())
}

/// Spends the second bridge by a frame that the first one lets pass, and then calls it.
fn asked_after(
    alloc: Global,
    bridge: &mut Bridge,
    table: &Table,
    batches: &[Batch],
) -> Option<Reported> {
    match receive(alloc, bridge, table, batches, &[]) {
        Err(BridgeFault::OverOctets(1)) => Some(asked(alloc, bridge, table, batches)),
        _ => None,
    }
}

/// The same, with what the first bridge of another domain sends.
fn asked_of(alloc: Global, ready: &Ready, other: &Ready) -> Option<Reported> {
    let mut bridge = second_after(alloc, ready)?;
    let batches = full_batches(alloc, other)?;
    asked_after(alloc, &mut bridge, ready.tables.get(1)?, batches.as_slice())
}

/// The stream `x` with fewer octets, and a frame that exceeds them.
const LESS: Asked = ("x", 64, PATH);

const LONGER: &[Offering] = &[(0, 0, "x", 600)];

pub(crate) fn spent_reported(alloc: Global) -> Option<Reported> {
    let ready = make_ready(alloc, &[LESS], &[])?;
    let other = make_ready(alloc, &[X], LONGER)?;
    asked_of(alloc, &ready, &other)
}
