//! The state of a stream's gate, which counts octets by the cycle.
ghost use Rattle.std.specs.Prelude.{◌≡◌, Some, if◌then◌else◌, ◌==◌};
ghost use Rattle.cqf_gates.specs.StreamGate.{verdict_on};
ghost use Rattle.cqf_laws_cycle.specs.Compiled.{given_class};
ghost use Rattle.cqf_model.specs.Policing.{gate_list_after};
ghost use Rattle.cqf_bridge.specs.Gates.{gate_or, kept_after};

use cqf_gates::Passed;
use cqf_laws_cycle::{gate_counts_cycles, gate_gives_class};
use cqf_model::Row;
use cqf_topology::Domain;
use cqf_units::{Nanos, Octets};

/// The class that a gate gives in even cycles.
const CLASS_OF_EVEN_CYCLE: u8 = 6;

/// The class that a gate gives in odd cycles.
const CLASS_OF_ODD_CYCLE: u8 = 7;

/// The state of a stream's gate. The stream gate that executes the gate list of the stream's row, as compiled for frames that arrive by the
/// same link, counts each cycle separately and passes what is reserved in the cycle. So no list is needed, only the octets of the stream
/// that passed in the cycle, by any link.
#[derive(Clone, Copy, Debug)]
pub(crate) struct KeptGate {
    /// The stream's number.
    pub(crate) number: u32,
    /// The cycle of the last call.
    pub(crate) cycle: u64,
    /// The octets of the frames that passed in that cycle.
    pub(crate) taken: u32,
}

/// Returns the class that a gate gives in a cycle.
fn class_of(cycle: u64) -> u8
    ensures { result ≡ given_class cycle }
{
    if cycle % 2 == 0 {
        CLASS_OF_EVEN_CYCLE
    } else {
        CLASS_OF_ODD_CYCLE
    }
}

/// Returns the octets that passed in a cycle, if `taken` passed in the cycle `last` of the last call.
fn taken_in(cycle: u64, last: u64, taken: u32) -> u32
    ensures { result ≡ (if last == cycle then taken else 0) }
{
    if last == cycle { taken } else { 0 }
}

impl KeptGate {
    /// Returns a gate of the stream of this number that has seen no frame.
    pub(crate) fn new(number: u32) -> KeptGate
        ensures { result ≡ record { number = number; cycle = 0; taken = 0 } }
    {
        KeptGate {
            number,
            cycle: 0,
            taken: 0,
        }
    }

    /// Returns whether a frame of a row's stream passes at an instant, and with which traffic class. `octets` are the octets of the frame that
    /// gates count. They are added to those that passed before in the same cycle. The result is `Class` if and only if the sum is within what
    /// the row reserves in the cycle for frames that arrived by the link `ingress`, or at the edge. A frame that doesn't pass uses no octets, so a
    /// smaller frame may pass after it.
    pub(crate) fn pass(
        &mut self,
        domain: &Domain,
        row: &Row,
        ingress: Option<u16>,
        at: Nanos,
        octets: Octets,
    ) -> Passed
        ensures verdict { result ≡ verdict_on (gate_or domain.now.cycle_time (gate_list_after domain.now row.now ingress) (Some self.old)) at.0 octets.0 }
        ensures after { self.new ≡ kept_after domain.now.cycle_time self.old.number
            (gate_or domain.now.cycle_time (gate_list_after domain.now row.now ingress) (Some self.old)) at.0 octets.0 }
    {
        gate_counts_cycles();
        gate_gives_class();
        let cycle = at.0 / domain.cycle_time().0;
        let taken = taken_in(cycle, self.cycle, self.taken);
        self.cycle = cycle;
        let sum = u64::from(taken) + u64::from(octets.0);
        if sum > u64::from(row.reserved_after(ingress, cycle)) {
            self.taken = taken;
            return Passed::OverOctets;
        }
        self.taken = sum as u32;
        Passed::Class(class_of(cycle))
    }
}
