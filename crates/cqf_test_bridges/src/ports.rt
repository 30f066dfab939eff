//! Ports, called step by step.
use cqf_gates::TxList;
use cqf_port::{Arrival, Port, PortFault, Start};
use cqf_units::{Nanos, Rate};
use std::alloc::Global;

/// A frame: the instant at which it arrives or starts, its class, and its octets. Its number is its class.
type Frame = (u64, u8, u32);

/// A call of a port, and its expected result.
enum Step {
    /// A frame arrives, and is taken or refused.
    Offer(Frame, Option<PortFault>),
    /// The port advances to an instant, and returns the starts up to it.
    Advance(u64, &'static [Frame]),
    NextStart(Option<u64>),
    Waiting(u8, usize),
    Now(u64),
}

const ALTERNATING: &[(u8, u32)] = &[(0x80, 120_000), (0x00, 5000), (0x40, 120_000), (0x00, 5000)];

/// What a case shows, its gate list, and its steps.
type Case = (&'static str, &'static [(u8, u32)], &'static [Step]);

const CASES: &[Case] = &[
    (
        "a frame waits until its class opens",
        ALTERNATING,
        &[
            Step::Now(0),
            Step::Offer((10, 6, 64), None),
            Step::Waiting(6, 1),
            Step::Advance(125_000, &[]),
            Step::Advance(125_001, &[(125_000, 6, 64)]),
            Step::Waiting(6, 0),
            Step::Now(125_001),
        ],
    ),
    (
        "a frame starts where it just fits its gate",
        ALTERNATING,
        &[
            Step::Offer((107_760, 7, 1522), None),
            Step::Advance(250_001, &[(107_760, 7, 1522)]),
        ],
    ),
    (
        "a frame that fits nowhere waits, however long",
        &[(0x00, 1)],
        &[
            Step::Offer((0, 7, 64), None),
            Step::Advance(100_000_000, &[]),
            Step::Waiting(7, 1),
            Step::NextStart(None),
        ],
    ),
    (
        "a frame that comes a nanosecond later waits for the next round",
        ALTERNATING,
        &[
            Step::Offer((107_761, 7, 1522), None),
            Step::Advance(250_001, &[(250_000, 7, 1522)]),
        ],
    ),
    (
        "the next start is returned",
        ALTERNATING,
        &[
            Step::NextStart(None),
            Step::Offer((107_761, 7, 1522), None),
            Step::NextStart(Some(250_000)),
            Step::Offer((107_762, 7, 64), None),
            Step::Advance(250_001, &[(250_000, 7, 1522)]),
            Step::NextStart(Some(262_336)),
            Step::Offer((1_000_000, 7, 64), None),
            Step::Advance(300_000, &[(262_336, 7, 64)]),
            Step::NextStart(Some(1_000_000)),
        ],
    ),
    (
        "a frame that never fits never starts",
        ALTERNATING,
        &[
            Step::Offer((10, 7, 15_000), None),
            Step::Offer((10, 5, 64), None),
            Step::NextStart(None),
        ],
    ),
    (
        "the higher class goes first",
        &[(0xC0, 1000), (0x80, 1000)],
        &[
            Step::Offer((425, 6, 64), None),
            Step::Offer((900, 7, 64), None),
            Step::Waiting(6, 1),
            Step::Advance(3000, &[(900, 7, 64), (2000, 6, 64)]),
        ],
    ),
    (
        "only a frame whose class was open is late",
        &[(0x80, 1000), (0x40, 1000)],
        &[
            Step::Advance(500, &[]),
            Step::Offer((100, 7, 64), Some(PortFault::Late)),
            Step::Offer((100, 6, 64), None),
            Step::Offer((100, 6, 64), None),
            Step::Offer((50, 6, 64), Some(PortFault::OutOfOrder)),
            Step::Advance(1500, &[(1000, 6, 64)]),
            Step::Offer((1200, 6, 64), Some(PortFault::Late)),
            Step::Offer((0, 6, 64), Some(PortFault::Late)),
        ],
    ),
];

/// An instant later than all in these cases.
const LATEST: u64 = 100_000_000;

/// Returns whether an arriving frame is taken, or refused with this fault.
fn is_taken(port: &mut Port, frame: Frame, fault: Option<PortFault>) -> bool {
    let (at, class, octets) = frame;
    if class > 7 || at > LATEST {
        return false;
    }
    let arrival = Arrival {
        at: Nanos(at),
        class,
        octets,
        frame: u32::from(class),
    };
    port.offer(arrival).err() == fault
}

/// Returns whether the starts are these.
fn are_starts(starts: &[Start], frames: &[Frame]) -> bool {
    starts.len() == frames.len()
        && starts.iter().zip(frames).all(|(start, frame)| {
            (start.start.0, start.class, start.octets) == *frame
                && start.frame == u32::from(start.class)
        })
}

/// Returns whether the port advances to an instant and returns these starts.
fn is_advanced(alloc: Global, port: &mut Port, until: u64, frames: &[Frame]) -> bool {
    if until > LATEST {
        return false;
    }
    let mut given = Vec::new(alloc);
    port.advance(Nanos(until), &mut given).is_ok() && are_starts(given.as_slice(), frames)
}

/// Returns whether the port gives the expected result of a step.
fn answers(alloc: Global, port: &mut Port, step: &Step) -> bool {
    match *step {
        Step::Offer(frame, fault) => is_taken(port, frame, fault),
        Step::Advance(until, frames) => is_advanced(alloc, port, until, frames),
        Step::NextStart(wanted) => port.next_start().map(|at| at.0) == wanted,
        Step::Waiting(class, count) => class < 8 && port.waiting(class) == count,
        Step::Now(wanted) => port.now().0 == wanted,
    }
}

/// Returns whether the port gives the expected result of each step.
fn answers_all(alloc: Global, port: &mut Port, steps: &[Step]) -> bool {
    for step in steps {
        if !answers(alloc, port, step) {
            return false;
        }
    }
    true
}

/// Returns whether a port with this gate list at 1,000 Mb/s gives the expected results.
fn goes_so(alloc: Global, list: &[(u8, u32)], steps: &[Step]) -> bool {
    match TxList::new(list) {
        Ok(list) => answers_all(alloc, &mut Port::new(alloc, list, Rate::Mb1000), steps),
        Err(_) => false,
    }
}

#[test]
fn ports_start_what_fits_its_gate(rt: HostRuntime) {
    for (what, list, steps) in CASES {
        assert!(rt; goes_so(rt.alloc(), list, steps), "{what}");
    }
}
