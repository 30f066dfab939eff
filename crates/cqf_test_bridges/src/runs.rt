//! Bridges side by side, cycle by cycle: the books of runs, worked out by hand, and each batch's octets compared with the book's.
ghost use Rattle.std.specs.Prelude.{◌<◌};

use crate::calls::{receive, send};
use crate::tables::{Call, ONE_BRANCH, add_tables, plan_of};
use cqf_admission::Table;
use cqf_bridge::{Batch, Bridge, Dropped, Offer, Reason};
use cqf_compile::Plan;
use cqf_model::Background;
use cqf_test_fixtures::{Offering, fork, line, offers_of, one_link};
use cqf_units::{Cycle, Memory, Nanos};
use std::alloc::Global;

/// A start: its cycle, link, frame, octets and instant.
pub(crate) type Start = (u32, u16, u32, u32, u64);

/// A drop: its cycle, bridge, frame, octets and reason.
pub(crate) type Drop = (u32, u16, u32, u32, Reason);

/// The calls, the offers and at most one background frame of a run.
struct Run {
    calls: &'static [Call],
    offers: &'static [Offering],
    background: Option<Background>,
}

/// The traffic of a run: offers, and at most one background frame.
#[derive(Clone, Copy)]
pub(crate) struct Traffic<'a> {
    pub(crate) offers: &'a [Offer],
    pub(crate) background: Option<Background>,
}

/// The expected book of a run: starts of streams' frames and of background frames by cycle, then bridge, then link, and drops.
struct Reported {
    starts: &'static [Start],
    others: &'static [Start],
    drops: &'static [Drop],
}

/// A book that is being written.
#[derive(Drop)]
pub(crate) struct Written {
    pub(crate) starts: Vec<Start>,
    pub(crate) others: Vec<Start>,
    pub(crate) drops: Vec<Drop>,
}

impl Written {
    /// Returns a book in which nothing is written.
    pub(crate) fn new(alloc: Global) -> Written {
        Written {
            starts: Vec::new(alloc),
            others: Vec::new(alloc),
            drops: Vec::new(alloc),
        }
    }
}

/// Returns the octets that start on a batch's link in its cycle, in a book.
fn octets_reported(starts: &[Start], batch: &Batch) -> u64 {
    let mut sum: u64 = 0;
    for start in starts {
        if start.0 == batch.cycle().0 && start.1 == batch.link() {
            sum = sum.saturating_add(u64::from(start.3));
        }
    }
    sum
}

/// Writes the frames of a batch.
fn write_batch(batch: &Batch, starts: &mut Vec<Start>) -> Result<(), Memory> {
    for index in 0..batch.len() {
        let sent = batch.get(index);
        starts.push((
            batch.cycle().0,
            batch.link(),
            sent.frame,
            sent.octets,
            sent.start.0,
        ))?;
    }
    Ok(())
}

/// Writes the frames of the batches of a cycle. Returns whether each batch has the octets of the expected book.
fn write_batches(batches: &[Batch], reported: &[Start], starts: &mut Vec<Start>) -> bool {
    for batch in batches {
        if batch.octets() != octets_reported(reported, batch)
            || write_batch(batch, starts).is_err()
        {
            return false;
        }
    }
    true
}

/// Writes the background frames that a bridge started in the cycle last sent.
fn write_others(bridge: &Bridge, others: &mut Vec<Start>) -> Result<(), Memory> {
    for x in bridge.background_starts() {
        others.push((x.cycle.0, x.link, x.frame, x.octets, x.start.0))?;
    }
    Ok(())
}

/// Sends a cycle at each bridge.
fn send_all(
    alloc: Global,
    bridges: &mut Vec<Bridge>,
    cycle: Cycle,
    background: Option<Background>,
    batches: &mut Vec<Batch>,
    others: &mut Vec<Start>,
) -> bool
    requires { cycle.0 < 100000 }
{
    for bridge in bridges.iter_mut() {
        if send(alloc, bridge, cycle, background, batches).is_err()
            || write_others(bridge, others).is_err()
        {
            return false;
        }
    }
    true
}

/// Returns the batches for a bridge. The bridges are in a row, and each sends first on the link to the next one.
fn batches_for(batches: &[Batch], number: u16) -> &[Batch] {
    let end = usize::from(number);
    if end == 0 || end > batches.len() {
        return &[];
    }
    &batches[end - 1..end]
}

/// Writes drops.
fn write_drops(dropped: &[Dropped], drops: &mut Vec<Drop>) -> Result<(), Memory> {
    for x in dropped {
        drops.push((x.cycle.0, x.bridge, x.frame, x.octets, x.reason))?;
    }
    Ok(())
}

/// Receives a cycle at a bridge, and writes what it drops.
fn receive_one(
    alloc: Global,
    bridge: &mut Bridge,
    table: &Table,
    batches: &[Batch],
    offers: &[Offer],
    drops: &mut Vec<Drop>,
) -> bool
    requires { table.now.cycle < 100000 }
{
    let own = batches_for(batches, bridge.number());
    match receive(alloc, bridge, table.cycle(), table, own, offers) {
        Ok(dropped) => write_drops(dropped.as_slice(), drops).is_ok(),
        Err(_) => false,
    }
}

/// Receives a cycle at each bridge.
fn receive_all(
    alloc: Global,
    bridges: &mut Vec<Bridge>,
    table: &Table,
    batches: &[Batch],
    offers: &[Offer],
    drops: &mut Vec<Drop>,
) -> bool
    requires { table.now.cycle < 100000 }
{
    for bridge in bridges.iter_mut() {
        if !receive_one(alloc, bridge, table, batches, offers, drops) {
            return false;
        }
    }
    true
}

/// Goes through a cycle with all bridges.
pub(crate) fn go_through(
    alloc: Global,
    bridges: &mut Vec<Bridge>,
    table: &Table,
    traffic: &Traffic<'_>,
    reported: &[Start],
    written: &mut Written,
) -> bool {
    let cycle = table.cycle();
    if cycle.0 >= 100_000 {
        return false;
    }
    let mut batches = Vec::new(alloc);
    send_all(
        alloc,
        bridges,
        cycle,
        traffic.background,
        &mut batches,
        &mut written.others,
    ) && write_batches(batches.as_slice(), reported, &mut written.starts)
        && receive_all(
            alloc,
            bridges,
            table,
            batches.as_slice(),
            traffic.offers,
            &mut written.drops,
        )
}

/// Goes through the cycles of these tables.
fn go_through_all(
    alloc: Global,
    bridges: &mut Vec<Bridge>,
    tables: &[Table],
    traffic: &Traffic<'_>,
    reported: &[Start],
    written: &mut Written,
) -> bool {
    for table in tables {
        if !go_through(alloc, bridges, table, traffic, reported, written) {
            return false;
        }
    }
    true
}

/// Returns the bridges of a plan.
pub(crate) fn bridges_of(alloc: Global, plan: &Plan) -> Result<Vec<Bridge>, Memory> {
    let mut bridges = Vec::new(alloc);
    for number in 0..plan.domain().bridges() {
        bridges.push(Bridge::new(alloc, plan, number)?)?;
    }
    Ok(bridges)
}

/// Returns whether a run with these tables and this traffic has the expected book.
fn has_book(
    alloc: Global,
    bridges: &mut Vec<Bridge>,
    tables: &[Table],
    traffic: &Traffic<'_>,
    reported: &Reported,
) -> bool {
    let mut written = Written::new(alloc);
    go_through_all(
        alloc,
        bridges,
        tables,
        traffic,
        reported.starts,
        &mut written,
    ) && written.starts.as_slice() == reported.starts
        && written.others.as_slice() == reported.others
        && written.drops.as_slice() == reported.drops
}

/// Returns whether a run of a plan has the expected book.
fn gives_on(alloc: Global, plan: &Plan, run: &Run, reported: &Reported) -> bool {
    let mut tables = Vec::new(alloc);
    if !add_tables(alloc, plan, run.calls, &mut tables) {
        return false;
    }
    let Ok(offers) = offers_of(alloc, run.offers) else {
        return false;
    };
    let traffic = Traffic {
        offers: offers.as_slice(),
        background: run.background,
    };
    match bridges_of(alloc, plan) {
        Ok(mut bridges) => has_book(alloc, &mut bridges, tables.as_slice(), &traffic, reported),
        Err(_) => false,
    }
}

/// Returns whether a run of a domain's text has the expected book.
fn gives(alloc: Global, text: &str, run: &Run, reported: &Reported) -> bool {
    match plan_of(alloc, text) {
        Some(plan) => gives_on(alloc, &plan, run, reported),
        None => false,
    }
}

/// The stream `x` is admitted before cycle 0 and withdrawn in cycle 1, and six cycles are run.
const WITHDRAWN: Run = Run {
    calls: &[
        Call::Admit(1500, ONE_BRANCH),
        Call::Seal,
        Call::Withdraw,
        Call::Seal,
        Call::Seal,
        Call::Seal,
        Call::Seal,
        Call::Seal,
    ],
    offers: &[
        (0, 0, "x", 64),
        (0, 1, "x", 64),
        (125_000, 0, "x", 64),
        (500_000, 0, "x", 64),
    ],
    background: None,
};

/// One more link each cycle, and a drop for each reason but `Octets`.
const WITHDRAWN_BOOK: Reported = Reported {
    starts: &[
        (1, 0, 1, 64, 125_000),
        (2, 1, 1, 64, 250_000),
        (3, 2, 1, 64, 375_000),
    ],
    others: &[],
    drops: &[
        (0, 1, 2, 64, Reason::OtherBridge),
        (1, 0, 3, 64, Reason::Withdrawn),
        (4, 0, 4, 64, Reason::Unknown),
    ],
};

#[test]
fn batch_sums(rt: HostRuntime) {
    assert!(rt; gives(rt.alloc(), line(), &WITHDRAWN, &WITHDRAWN_BOOK));
}

/// The stream `x` goes to both stations of the fork. A background frame waits for the second bridge's second link.
const BRANCHING: Run = Run {
    calls: &[
        Call::Admit(1500, &[&["a", "b", "c", "s"], &["a", "b", "t"]]),
        Call::Seal,
        Call::Seal,
        Call::Seal,
        Call::Seal,
        Call::Seal,
    ],
    offers: &[(0, 0, "x", 64)],
    background: Some(Background {
        at: Nanos(0),
        link: 3,
        class: 0,
        octets: 64,
    }),
};

/// The frame leaves the second bridge on both of its links at once, and the background frame leaves on one only.
const BRANCHING_BOOK: Reported = Reported {
    starts: &[
        (1, 1, 1, 64, 125_000),
        (2, 2, 1, 64, 250_000),
        (2, 3, 1, 64, 250_000),
        (3, 0, 1, 64, 375_000),
    ],
    others: &[(0, 3, 1, 64, 0)],
    drops: &[],
};

#[test]
fn a_frame_of_a_tree_leaves_on_two_links(rt: HostRuntime) {
    assert!(rt; gives(rt.alloc(), fork(), &BRANCHING, &BRANCHING_BOOK));
}

/// 1,500 octets are reserved. A background frame arrives within the guard band.
const SPARING: Run = Run {
    calls: &[Call::Admit(1500, &[&["a", "s"]]), Call::Seal, Call::Seal],
    offers: &[(0, 0, "x", 1000), (10, 0, "x", 600), (20, 0, "x", 500)],
    background: Some(Background {
        at: Nanos(120_000),
        link: 0,
        class: 5,
        octets: 1522,
    }),
};

/// 1,020 octets with their gap take 8,160 ns, and 520 take 4,160: the background frame waits for both frames.
const SPARING_BOOK: Reported = Reported {
    starts: &[(1, 0, 1, 1000, 125_000), (1, 0, 3, 500, 133_160)],
    others: &[(1, 0, 1, 1522, 137_320)],
    drops: &[(0, 0, 2, 600, Reason::Octets)],
};

#[test]
fn a_smaller_frame_passes_and_a_background_frame_waits_for_both(rt: HostRuntime) {
    assert!(rt; gives(rt.alloc(), one_link(), &SPARING, &SPARING_BOOK));
}
