//! Stream gates.
ghost use Rattle.std.specs.Prelude.{◌≤◌};

use cqf_gates::{ListFault, Passed, StreamEntry, StreamGate, StreamList};
use cqf_units::{Nanos, Octets};

/// Class 6, 125 microseconds, and at most 1,500 octets.
const SIX: StreamEntry = StreamEntry {
    ipv: 6,
    interval: 125_000,
    octet_max: Some(1500),
};

/// The same with class 7, and with class 5, which isn't a class of CQF.
const SEVEN: StreamEntry = StreamEntry { ipv: 7, ..SIX };

const FIVE: StreamEntry = StreamEntry { ipv: 5, ..SIX };

/// An entry that lasts no time.
const NO_TIME: StreamEntry = StreamEntry { interval: 0, ..SIX };

const SEVENTEEN: [StreamEntry; 17] = [SIX; 17];

/// Entries that make no list, and the fault.
const FAULTS: &[(&[StreamEntry], ListFault)] = &[
    (&[], ListFault::Empty),
    (&SEVENTEEN, ListFault::TooMany),
    (&[FIVE, NO_TIME], ListFault::ZeroInterval),
    (&[SIX, FIVE], ListFault::BadIpv),
    (&[FIVE], ListFault::BadIpv),
];

/// Returns whether the entries are refused with this fault.
fn is_refused(entries: &[StreamEntry], fault: ListFault) -> bool {
    StreamList::new(entries).err() == Some(fault)
}

#[test]
fn each_fault_is_reported(rt: HostRuntime) {
    for (entries, fault) in FAULTS {
        assert!(rt; is_refused(entries, *fault));
    }
}

/// Returns whether a gate passes a smaller frame after one that is over.
fn passes_smaller(gate: &mut StreamGate) -> bool
    requires { gate.old.last ≤ 0 }
{
    gate.pass(Nanos(0), Octets(1000)) == Passed::Class(6)
        && gate.pass(Nanos(10), Octets(600)) == Passed::OverOctets
        && gate.pass(Nanos(20), Octets(500)) == Passed::Class(6)
        && gate.pass(Nanos(125_000), Octets(1500)) == Passed::Class(7)
}

/// Returns whether a list keeps the two entries, and its gate passes a smaller frame after one that is over.
fn keeps_and_passes(entries: &[StreamEntry]) -> bool {
    match StreamList::new(entries) {
        Ok(list) => list.entries() == entries && passes_smaller(&mut StreamGate::new(list)),
        Err(_) => false,
    }
}

#[test]
fn a_smaller_frame_passes_after_one_that_is_over(rt: HostRuntime) {
    assert!(rt; keeps_and_passes(&[SIX, SEVEN]));
}
