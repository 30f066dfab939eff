//! A port with two entries: the first opens class 7 and the second class 6, for 1,000 ns each.
ghost use Rattle.std.specs.Prelude.{◌<◌};

use crate::{Reported, trial};
use cqf_gates::TxList;
use cqf_port::{Arrival, Port, PortFault, Start};
use cqf_units::{Nanos, Rate};
use std::alloc::Global;

/// A frame that arrived while its class was closed.
const FRAME: Arrival = Arrival {
    at: Nanos(100),
    class: 6,
    octets: 64,
    frame: 1,
};

/// It starts as soon as its class opens.
const START: Start = Start {
    start: Nanos(1000),
    class: 6,
    octets: 64,
    frame: 1,
};

/// Returns a port that has reached 500 ns.
fn port_at_500(alloc: Global) -> Option<Port> {
    let Ok(list) = TxList::new(&[(0x80, 1000), (0x40, 1000)]) else {
        return None;
    };
    let mut port = Port::new(alloc, list, Rate::Mb1000);
    if port.run_to(Nanos(500)).is_ok() {
        Some(port)
    } else {
        None
    }
}

/// Returns a port at which this number of copies of the frame waits.
fn port_with(alloc: Global, frames: u32) -> Option<Port> {
    let mut port = port_at_500(alloc)?;
    for _frame in 0..frames {
        if port.offer(FRAME).is_err() {
            return None;
        }
    }
    Some(port)
}

/// Whether a port has reached 500 ns, and this number of frames waits.
fn has_waiting(port: &Port, frames: usize) -> bool {
    port.now() == Nanos(500)
        && port.arrivals().len() == frames
        && port.waiting(6) == frames
        && port.waiting(7) == 0
        && port.starts().is_empty()
}

/// Tries to offer the frame to a port at which this number already waits.
fn offered(alloc: Global, port: &mut Port, before: usize) -> Reported
    requires { before < 5 }
{
    trial!(
        alloc,
        port.offer(FRAME),
        Err(PortFault::Memory),
        has_waiting(port, before),
        |answer| answer == Ok(()) && has_waiting(port, before + 1)
    )
}

pub(crate) fn offer_reported(alloc: Global) -> Option<Reported> {
    let mut port = port_at_500(alloc)?;
    Some(offered(alloc, &mut port, 0))
}

/// The fifth frame needs room that four don't.
pub(crate) fn offer_after_reported(alloc: Global) -> Option<Reported> {
    let mut port = port_with(alloc, 4)?;
    Some(offered(alloc, &mut port, 4))
}

/// Whether a port has advanced to 1,500 ns with the one start.
fn has_started(port: &Port, starts: &[Start]) -> bool {
    port.now() == Nanos(1500) && port.waiting(6) == 0 && starts == [START].as_slice()
}

/// Tries to advance a port at which the frame waits.
fn advanced(alloc: Global, port: &mut Port) -> Reported {
    let mut starts = Vec::new(alloc);
    trial!(
        alloc,
        port.advance(Nanos(1500), &mut starts),
        Err(_),
        has_waiting(port, 1) && starts.is_empty(),
        |answer| answer.is_ok() && has_started(port, starts.as_slice())
    )
}

pub(crate) fn advance_reported(alloc: Global) -> Option<Reported> {
    let mut port = port_with(alloc, 1)?;
    Some(advanced(alloc, &mut port))
}
