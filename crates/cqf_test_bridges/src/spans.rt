//! The written gates of reservations.
ghost use Rattle.std.specs.Prelude.{◌+◌, ◌*◌, ◌^◌, ◌<◌};

use cqf_gates::{Pace, gate_of_reservation, write_stream};
use cqf_units::{Nanos, Octets};
use std::alloc::Global;

/// A quarter of the cycles, cycle 1 the first.
const QUARTER: Pace = Pace { pause: 3, phase: 1 };

/// A fifth of the cycles, cycle 3 the first.
const FIFTH: Pace = Pace { pause: 4, phase: 3 };

/// The last of 80 cycles.
const LAST: Pace = Pace {
    pause: 79,
    phase: 79,
};

/// Returns whether the gate of 1,500 octets, with this cycle time in nanoseconds, is written as `wanted`.
fn is_written(alloc: Global, cycle_time: u64, pace: Pace, hop_number: u8, wanted: &[u8]) -> bool
    requires some { 0 < cycle_time }
    requires short { (pace.pause + 1) * cycle_time < 2 ^ 32 }
{
    let gate = gate_of_reservation(Nanos(cycle_time), Octets(1500), pace, hop_number);
    matches!(write_stream(alloc, &gate), Ok(text) if text.as_slice() == wanted)
}

#[test]
fn a_stream_of_each_cycle_has_two_open_entries(rt: HostRuntime) {
    let each = Pace { pause: 0, phase: 0 };
    let wanted = b"open 6 125000 1500\nopen 7 125000 1500\n";
    assert!(rt; is_written(rt.alloc(), 125_000, each, 0, wanted));
    assert!(rt; is_written(rt.alloc(), 125_000, each, 63, wanted));
}

#[test]
fn one_own_cycle_stands_between_closed_spans(rt: HostRuntime) {
    let first = b"closed 125000\nopen 7 125000 1500\nclosed 250000\n";
    assert!(rt; is_written(rt.alloc(), 125_000, QUARTER, 0, first));
    // a cycle later after one link
    let second = b"closed 250000\nopen 6 125000 1500\nclosed 125000\n";
    assert!(rt; is_written(rt.alloc(), 125_000, QUARTER, 1, second));
}

#[test]
fn an_own_cycle_may_be_the_last_or_the_first(rt: HostRuntime) {
    let last = b"closed 375000\nopen 7 125000 1500\n";
    assert!(rt; is_written(rt.alloc(), 125_000, QUARTER, 2, last));
    let first = b"open 6 125000 1500\nclosed 375000\n";
    assert!(rt; is_written(rt.alloc(), 125_000, QUARTER, 3, first));
}

#[test]
fn an_odd_period_is_written_twice(rt: HostRuntime) {
    // cycles 3 and 8 of ten
    let middle =
        b"closed 375000\nopen 7 125000 1500\nclosed 500000\nopen 6 125000 1500\nclosed 125000\n";
    assert!(rt; is_written(rt.alloc(), 125_000, FIFTH, 0, middle));
    // cycles 4 and 9
    let last = b"closed 500000\nopen 6 125000 1500\nclosed 500000\nopen 7 125000 1500\n";
    assert!(rt; is_written(rt.alloc(), 125_000, FIFTH, 1, last));
    // cycles 0 and 5
    let first = b"open 6 125000 1500\nclosed 500000\nopen 7 125000 1500\nclosed 500000\n";
    assert!(rt; is_written(rt.alloc(), 125_000, FIFTH, 2, first));
}

#[test]
fn the_longest_span_fits_an_interval(rt: HostRuntime) {
    let wanted = b"closed 790000000\nopen 7 10000000 1500\n";
    assert!(rt; is_written(rt.alloc(), 10_000_000, LAST, 0, wanted));
}
