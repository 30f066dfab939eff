//! The gates of a stream that pauses, at each bridge of its tree.
ghost use Rattle.std.specs.Prelude.{IfSome};
ghost use Rattle.cqf_admission.specs.ActiveCycles.{IsGoodPace};

use crate::tables::plan_of;
use cqf_compile::{Plan, gate_of};
use cqf_model::{Hop, Pace, Row, StreamEntry, Tree};
use cqf_test_fixtures::line;
use cqf_units::{Cycle, Name};
use std::alloc::Global;

/// An own cycle that is even, and one that is odd.
const EVEN: StreamEntry = StreamEntry {
    ipv: 6,
    interval: 125_000,
    octet_max: Some(1500),
};

const ODD: StreamEntry = StreamEntry {
    ipv: 7,
    interval: 125_000,
    octet_max: Some(1500),
};

/// One, two and three cycles in which nothing passes.
const ONE_SHUT: StreamEntry = StreamEntry {
    ipv: 6,
    interval: 125_000,
    octet_max: Some(0),
};

const TWO_SHUT: StreamEntry = StreamEntry {
    ipv: 6,
    interval: 250_000,
    octet_max: Some(0),
};

const THREE_SHUT: StreamEntry = StreamEntry {
    ipv: 6,
    interval: 375_000,
    octet_max: Some(0),
};

/// The hops of the line.
const HOPS: &[Hop] = &[
    Hop {
        link: 0,
        hop_number: 1,
        from: None,
    },
    Hop {
        link: 1,
        hop_number: 2,
        from: Some(0),
    },
    Hop {
        link: 2,
        hop_number: 3,
        from: Some(1),
    },
];

/// Returns a stream of 1,500 octets along the line, which is offered in one cycle of four, first in cycle 1.
fn quarter(alloc: Global) -> Option<Row>
    ensures { IfSome result (λ row. IsGoodPace row.pace) }
{
    let name = Name::new(b"x")?;
    let Ok(tree) = Tree::new(alloc, HOPS) else {
        return None;
    };
    Some(Row {
        no: 0,
        name,
        octets: 1500,
        overhead: 0,
        pace: Pace { pause: 3, phase: 1 },
        tree,
        admitted: Cycle(0),
        withdrawn: None,
    })
}

/// Returns whether the stream's gates at the three bridges are these.
fn are_gates(
    plan: &Plan,
    row: &Row,
    first: &[StreamEntry],
    second: &[StreamEntry],
    third: &[StreamEntry],
) -> bool
    requires { IsGoodPace row.now.pace }
{
    let domain = plan.domain();
    gate_of(domain, row, 0).entries() == first
        && gate_of(domain, row, 1).entries() == second
        && gate_of(domain, row, 2).entries() == third
}

#[test]
fn each_gate_is_a_cycle_later_than_the_one_before(rt: HostRuntime) {
    let alloc = rt.alloc();
    let are = match (plan_of(alloc, line()), quarter(alloc)) {
        (Some(plan), Some(row)) => are_gates(
            &plan,
            &row,
            &[ONE_SHUT, ODD, TWO_SHUT],
            &[TWO_SHUT, EVEN, ONE_SHUT],
            &[THREE_SHUT, ODD],
        ),
        _ => false,
    };
    assert!(rt; are);
}
