//! The gate lists that a cycle and a reservation are compiled to (IEEE 802.1Q, Annex T). The guard band, the classes
//! and the octet maximum are this project's own.
ghost use Rattle.std.specs.Prelude.{◌≡◌, ◌+◌, ◌*◌, ◌^◌, ◌<◌};
ghost use Rattle.cqf_model.specs.GateList.{port_list};
ghost use Rattle.cqf_gates.specs.ReservedSpans.{reserved_spans};
ghost use Rattle.cqf_gates.specs.SpanLaws.{SpansPassTheSame};

use crate::spans::Spans;
use crate::{Pace, StreamList, TxList};
use cqf_units::{Nanos, Octets};

/// The gate states of a port in even cycles, before the guard band.
const EVEN_CYCLE: u8 = 0xBF;

/// The gate states of a port in odd cycles, before the guard band.
const ODD_CYCLE: u8 = 0x7F;

/// The gate states of a port in the guard band, which ends each cycle.
const GUARD_BAND: u8 = 0x00;

/// Returns the gate list of each port, for a cycle time and the guard band that ends each cycle, in nanoseconds: class
/// 7 is open in even cycles, class 6 in odd ones, classes 0 to 5 in both, and no class in the guard band (IEEE 802.1Q,
/// Annex T). The guard band is positive and shorter than the cycle time, which is below 2^32 ns.
pub fn compiled_list(cycle_time: Nanos, guard: Nanos) -> TxList
    requires short { cycle_time.0 < 2 ^ 32 }
    requires some { 0 < guard.0 }
    requires within { guard.0 < cycle_time.0 }
    ensures { result ≡ port_list cycle_time.0 guard.0 }
{
    let open_time = (cycle_time.0 - guard.0) as u32;
    let guard_band = guard.0 as u32;
    let entries = [
        (EVEN_CYCLE, open_time),
        (GUARD_BAND, guard_band),
        (ODD_CYCLE, open_time),
        (GUARD_BAND, guard_band),
    ];
    match TxList::new(&entries) {
        Ok(list) => list,
        Err(_) => unreachable!(),
    }
}

/// Returns the written gate of a stream for its frames at this hop number, given the cycle time in nanoseconds and the
/// reservation in octets for each of the stream's own cycles. In these cycles the reserved octets pass, with class 6 in
/// even cycles and class 7 in odd ones; in the others nothing passes. Consecutive cycles in which nothing passes are
/// one entry, so there are two to five entries; if every cycle is the stream's own there are two, both open (IEEE
/// 802.1Q, Annex T). By [`spans_pass_the_same`] this is the gate that the network demands. The cycle time is positive,
/// and a period of the pace is below 2^32 ns.
pub fn gate_of_reservation(
    cycle_time: Nanos,
    reserved: Octets,
    pace: Pace,
    hop_number: u8,
) -> StreamList
    requires short { (pace.pause + 1) * cycle_time.0 < 2 ^ 32 }
    requires some { 0 < cycle_time.0 }
    ensures { result ≡ reserved_spans cycle_time.0 reserved.0 pace hop_number }
{
    let pause = u16::from(pace.pause);
    let active_cycle = (u16::from(pace.phase) + u16::from(hop_number)) % (pause + 1);
    let mut spans = Spans::new();
    spans.close(cycle_time, active_cycle);
    spans.open(cycle_time, reserved, active_cycle);
    spans.open_again(cycle_time, reserved, pace, active_cycle);
    spans.close(cycle_time, pause - active_cycle);
    match StreamList::new(spans.entries()) {
        Ok(list) => list,
        Err(_) => unreachable!(),
    }
}

/// Proves that the written gate of a reservation passes the same frames of at least one octet, with the same class, as
/// its list of one entry per cycle. This holds at each pace, hop number and instant, regardless of what passed before.
pub fn spans_pass_the_same()
    ensures { SpansPassTheSame }
{}
