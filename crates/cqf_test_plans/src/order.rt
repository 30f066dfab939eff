//! Drops in the order of a book, with values by hand.
use cqf_book::sort_drops;
use cqf_model::{Dropped, Reason};
use cqf_test_fixtures::{Fell, are_dropped};
use cqf_units::Cycle;
use std::alloc::Global;

/// Why all are dropped.
const OCTETS: Reason = Reason::Octets;

/// Drops in the order in which they occur.
const COME: &[Fell] = &[
    (1, 0, 4, 64, OCTETS),
    (0, 2, 3, 64, OCTETS),
    (0, 1, 5, 64, OCTETS),
    (1, 0, 1, 64, OCTETS),
    (0, 1, 2, 64, OCTETS),
];

/// The same in the order of a book.
const STAND: &[Fell] = &[
    (0, 1, 2, 64, OCTETS),
    (0, 1, 5, 64, OCTETS),
    (0, 2, 3, 64, OCTETS),
    (1, 0, 1, 64, OCTETS),
    (1, 0, 4, 64, OCTETS),
];

/// Appends drops. Returns whether that succeeds.
fn add_drops(rows: &[Fell], drops: &mut Vec<Dropped>) -> bool {
    for (cycle, bridge, frame, octets, reason) in rows {
        let dropped = Dropped {
            cycle: Cycle(*cycle),
            bridge: *bridge,
            frame: *frame,
            octets: *octets,
            reason: *reason,
        };
        if drops.push(dropped).is_err() {
            return false;
        }
    }
    true
}

/// Returns whether drops in this order are sorted into that one.
fn are_sorted(alloc: Global, come: &[Fell], stand: &[Fell]) -> bool {
    let mut drops = Vec::new(alloc);
    add_drops(come, &mut drops)
        && sort_drops(&mut drops).is_ok()
        && are_dropped(drops.as_slice(), stand)
}

#[test]
fn drops_stand_by_cycle_bridge_and_frame(rt: HostRuntime) {
    assert!(rt; are_sorted(rt.alloc(), COME, STAND));
}
