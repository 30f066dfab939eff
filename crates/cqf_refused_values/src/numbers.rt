//! Quantities and lanes, whose calls allocate no memory.
use crate::{Reported, looked_at};
use cqf_lanes::{
    eligible, eligible_plain, highest, highest_plain, octet_sum, octet_sum_plain, open_run,
    open_run_plain,
};
use cqf_units::{
    Cycle, Name, Nanos, Octets, Rate, budget, cost, cycle_of, end_of, idle_from, octet_ticks, wire,
};
use std::alloc::Global;

/// Whether a name answers as expected.
fn is_name() -> bool {
    match Name::new(b"x") {
        Some(name) => name.copied().as_str() == "x" && name.as_bytes() == b"x".as_slice(),
        None => false,
    }
}

/// Whether costs, budgets and cycles are those of a cycle of 125,000 ns.
fn are_reserved() -> bool {
    cost(Octets(0), Octets(1500)) == Octets(1960)
        && budget(Nanos(125_000), Nanos(5_000), Rate::Mb1000) == Octets(15_000)
        && cycle_of(Nanos(250_000), Nanos(125_000)) == Cycle(2)
}

/// Whether a frame of 64 octets takes the expected time.
fn are_timed() -> bool {
    let frame = Octets(64);
    octet_ticks(Rate::Mb10) == 20_000
        && wire(frame) == Octets(84)
        && end_of(Nanos(0), frame, Rate::Mb1000) == Nanos(576)
        && idle_from(Nanos(0), frame, Rate::Mb1000) == Nanos(672)
}

pub(crate) fn units_reported(alloc: Global) -> Option<Reported> {
    Some(looked_at!(alloc, is_name() && are_reserved() && are_timed()))
}

/// Whether sums and runs of twenty are as expected.
fn are_summed() -> bool {
    let (octets, states) = ([64u32; 20], [0x80u8; 20]);
    octet_sum(&octets) == 1280
        && octet_sum_plain(&octets) == 1280
        && open_run(&states, 7) == 20
        && open_run_plain(&states, 6) == 0
}

/// Whether, of two open classes, the one that has room for what it needs is chosen.
fn are_chosen() -> bool {
    let (need, left) = ([84u32; 8], [0, 0, 0, 0, 0, 0, 84, 83]);
    eligible(0xc0, &need, &left) == 0x40
        && eligible_plain(0xc0, &need, &left) == 0x40
        && highest(0x41) == Some(6)
        && highest_plain(0x41) == Some(6)
}

pub(crate) fn lanes_reported(alloc: Global) -> Option<Reported> {
    Some(looked_at!(alloc, are_summed() && are_chosen()))
}
