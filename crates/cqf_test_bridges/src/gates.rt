//! The frames that gates pass, with values worked out by hand.
use cqf_bridge::StreamGates;
use cqf_gates::Passed;
use cqf_model::{Hop, Pace, Row, Tree};
use cqf_test_fixtures::line;
use cqf_topology::Domain;
use cqf_units::{Cycle, Name, Nanos, Octets};
use std::alloc::Global;

/// A frame that arrives at the gates: the link by which it arrived, `None` at the edge; the cycle in which it arrives; its octets; and the
/// class that it gets, `None` if it doesn't pass.
type Frame = (Option<u16>, u64, u32, Option<u8>);

/// The stream is offered in each cycle.
const EACH: Pace = Pace { pause: 0, phase: 0 };

/// The stream is offered in cycles 1, 5, 9 and so on.
const SECOND_OF_FOUR: Pace = Pace { pause: 3, phase: 1 };

/// The stream is offered in cycles 4, 9, 14 and so on.
const LAST_OF_FIVE: Pace = Pace { pause: 4, phase: 4 };

/// Returns the row of a stream with 1,500 octets that goes by links 0, 1 and 2.
fn row_of(alloc: Global, no: u32, pace: Pace) -> Option<Row> {
    let hops = [
        Hop {
            link: 0,
            hop_number: 1,
            from: None,
        },
        Hop {
            link: 1,
            hop_number: 2,
            from: Some(0),
        },
        Hop {
            link: 2,
            hop_number: 3,
            from: Some(1),
        },
    ];
    let Some(name) = Name::new(b"x") else {
        return None;
    };
    match Tree::new(alloc, &hops) {
        Ok(tree) => Some(Row {
            no,
            name,
            octets: 1500,
            overhead: 0,
            pace,
            tree,
            admitted: Cycle(0),
            withdrawn: None,
        }),
        Err(_) => None,
    }
}

/// Returns whether the gates give the expected class to a frame of a row's stream that arrives in the middle of its cycle.
fn passes_so(domain: &Domain, row: &Row, gates: &mut StreamGates, frame: Frame) -> bool {
    let at = Nanos(frame.1.saturating_mul(125_000).saturating_add(60_000));
    let wanted = match frame.3 {
        Some(class) => Passed::Class(class),
        None => Passed::OverOctets,
    };
    gates.pass(domain, row, frame.0, at, Octets(frame.2)) == Ok(wanted)
}

/// Returns whether new gates give the expected classes to the frames of a stream of a pace, one after the other.
fn all_pass_so(alloc: Global, pace: Pace, frames: &[Frame]) -> bool {
    let Ok(domain) = Domain::read(alloc, line().as_bytes()) else {
        return false;
    };
    let Some(row) = row_of(alloc, 0, pace) else {
        return false;
    };
    let mut gates = StreamGates::new(alloc);
    for frame in frames {
        if !passes_so(&domain, &row, &mut gates, *frame) {
            return false;
        }
    }
    true
}

/// Returns whether new gates give the expected classes to frames of a stream's number, by rows of two paces, one after the other.
fn both_pass_so(alloc: Global, first: (Pace, &[Frame]), then: (Pace, &[Frame])) -> bool {
    let Ok(domain) = Domain::read(alloc, line().as_bytes()) else {
        return false;
    };
    let (Some(early), Some(late)) = (row_of(alloc, 0, first.0), row_of(alloc, 0, then.0)) else {
        return false;
    };
    let mut gates = StreamGates::new(alloc);
    for frame in first.1 {
        if !passes_so(&domain, &early, &mut gates, *frame) {
            return false;
        }
    }
    for frame in then.1 {
        if !passes_so(&domain, &late, &mut gates, *frame) {
            return false;
        }
    }
    true
}

/// At the edge, in each of ten cycles: cycles 1, 5 and 9 are odd.
const AT_EDGE: &[Frame] = &[
    (None, 0, 1500, None),
    (None, 1, 1500, Some(7)),
    (None, 2, 1500, None),
    (None, 3, 1500, None),
    (None, 4, 1500, None),
    (None, 5, 1500, Some(7)),
    (None, 6, 1500, None),
    (None, 7, 1500, None),
    (None, 8, 1500, None),
    (None, 9, 1500, Some(7)),
];

#[test]
fn a_stream_passes_at_the_edge_in_its_own_cycles_alone(rt: HostRuntime) {
    assert!(rt; all_pass_so(rt.alloc(), SECOND_OF_FOUR, AT_EDGE));
}

/// After link 0, of hop number 1.
const AFTER_THE_FIRST: &[Frame] = &[
    (Some(0), 1, 1500, None),
    (Some(0), 2, 1500, Some(6)),
    (Some(0), 3, 1500, None),
    (Some(0), 4, 1500, None),
    (Some(0), 5, 1500, None),
    (Some(0), 6, 1500, Some(6)),
    (Some(0), 7, 1500, None),
];

/// After link 1, of hop number 2.
const AFTER_THE_SECOND: &[Frame] = &[
    (Some(1), 2, 1500, None),
    (Some(1), 3, 1500, Some(7)),
    (Some(1), 4, 1500, None),
    (Some(1), 6, 1500, None),
    (Some(1), 7, 1500, Some(7)),
];

#[test]
fn after_links_it_passes_as_many_cycles_later_as_they_are_deep(rt: HostRuntime) {
    assert!(rt; all_pass_so(rt.alloc(), SECOND_OF_FOUR, AFTER_THE_FIRST));
    assert!(rt; all_pass_so(rt.alloc(), SECOND_OF_FOUR, AFTER_THE_SECOND));
}

/// Phase and hop number together are a whole period, so after link 0 the own cycles are 0, 5 and 10.
const ROUND_A_PERIOD: &[Frame] = &[
    (Some(0), 0, 1500, Some(6)),
    (Some(0), 4, 1500, None),
    (Some(0), 5, 1500, Some(7)),
    (Some(0), 6, 1500, None),
    (Some(0), 9, 1500, None),
    (Some(0), 10, 1500, Some(6)),
];

#[test]
fn classes_take_turns_where_a_period_is_odd(rt: HostRuntime) {
    assert!(rt; all_pass_so(rt.alloc(), LAST_OF_FIVE, ROUND_A_PERIOD));
}

/// 600 and 900 octets are all of the 1,500, and a frame that exceeds the rest uses no octets.
const IN_ONE_CYCLE: &[Frame] = &[
    (None, 1, 600, Some(7)),
    (None, 1, 901, None),
    (None, 1, 900, Some(7)),
    (None, 1, 64, None),
    (None, 2, 64, None),
    (None, 5, 1500, Some(7)),
    (None, 5, 64, None),
];

#[test]
fn each_of_its_cycles_is_counted_anew(rt: HostRuntime) {
    assert!(rt; all_pass_so(rt.alloc(), SECOND_OF_FOUR, IN_ONE_CYCLE));
}

#[test]
fn a_stream_of_each_cycle_passes_in_each_however_deep(rt: HostRuntime) {
    let frames: &[Frame] = &[
        (None, 0, 1500, Some(6)),
        (None, 1, 1500, Some(7)),
        (None, 1, 64, None),
        (Some(0), 2, 1500, Some(6)),
        (Some(1), 3, 1500, Some(7)),
        (Some(2), 4, 1500, Some(6)),
    ];
    assert!(rt; all_pass_so(rt.alloc(), EACH, frames));
}

/// What passed by one row counts for another row of the number in the same cycle; the next cycle is counted anew.
#[test]
fn another_pace_after_one_counts_on_in_the_cycle_and_begins_anew_in_the_next(rt: HostRuntime) {
    let first: &[Frame] = &[(None, 1, 1000, Some(7))];
    let then: &[Frame] = &[
        (None, 1, 501, None),
        (None, 1, 500, Some(7)),
        (None, 2, 1500, Some(6)),
    ];
    assert!(rt; both_pass_so(rt.alloc(), (SECOND_OF_FOUR, first), (EACH, then)));
    let late: &[Frame] = &[
        (None, 2, 64, None),
        (None, 4, 1500, Some(6)),
        (None, 5, 64, None),
        (None, 9, 1500, Some(7)),
    ];
    assert!(rt; both_pass_so(rt.alloc(), (SECOND_OF_FOUR, first), (LAST_OF_FIVE, late)));
}
