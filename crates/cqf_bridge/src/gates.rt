//! The gates, looked up by the numbers of their streams.
ghost use Rattle.std.specs.Prelude.{◌≡◌, ◌==◌, ◌++◌, ◌∷◌, [], IfOk, None, OnErr, OnOk, position};
ghost use Rattle.cqf_gates.specs.StreamGate.{verdict_on};
ghost use Rattle.cqf_bridge.specs.Gates.{gate_in, kept_after, with_gate};
ghost use Rattle.cqf_bridge.specs.declared.cycle_gate.KeptGate.{KeptGate as Kept};

use crate::cycle_gate::KeptGate;
use cqf_gates::Passed;
use cqf_model::Row;
use cqf_topology::Domain;
use cqf_units::{Memory, Nanos, Octets};
use indexmap::IndexSet;
use std::alloc::Global;
use std::marker::Model;

/// This many gates are searched one by one. If there are no more, as in most cycles, no number is hashed.
const FEW: usize = 16;

/// The gates of the streams whose frames a bridge has seen, one for each stream number (IEEE 802.1Q, 8.6.5.1; counting octets by the cycle
/// is this project's rule).
#[derive(Debug, Drop)]
pub struct StreamGates {
    kept: Vec<KeptGate>,
    /// The numbers of the gates after the first `FEW`.
    numbers: IndexSet<u32>,
}

impl Model for StreamGates {
    ghost use Rattle.std.specs.Prelude.{◌≡◌, List, drop, map};
    ghost use Rattle.cqf_bridge.specs.declared.gates.TheConstants.{FEW};
    ghost use Rattle.cqf_bridge.specs.declared.cycle_gate.KeptGate.{KeptGate as Kept};

    ghost Value = { List Kept };

    ghost view = { λ g. g.kept.items };

    ghost invariant = { λ g. g.numbers.keys ≡ drop FEW (map (λ (k : Kept). k.number) g.kept.items) };
}

/// Returns the index of the gate of a number among some gates.
fn index_among(gates: &[KeptGate], number: u32) -> Option<usize>
    ensures { result ≡ position (λ (k : Kept). k.number == number) gates.now }
{
    gates.iter().position(|kept| kept.number == number)
}

impl StreamGates {
    /// Returns an empty list of gates, for a bridge that has seen no frame. Requests no memory.
    pub fn new(alloc: Global) -> StreamGates
        ensures { result ≡ [] }
    {
        StreamGates {
            kept: Vec::new(alloc),
            numbers: IndexSet::new(alloc),
        }
    }

    /// Returns the index of the gate of a number.
    fn index_of(&self, number: u32) -> Option<usize>
        ensures { result ≡ position (λ (k : Kept). k.number == number) self.now }
    {
        if self.kept.len() <= FEW {
            return index_among(self.kept.as_slice(), number);
        }
        if let Some(index) = index_among(&self.kept[..FEW], number) {
            return Some(index);
        }
        match self.numbers.get_index_of(&number) {
            Some(index) => Some(FEW + index),
            None => None,
        }
    }

    /// Appends a gate of a number that has none.
    fn keep(&mut self, gate: KeptGate) -> Result<(), Memory>
        requires { position (λ (k : Kept). k.number == gate.number) self.old ≡ None }
        ensures added { OnOk result (self.new ≡ self.old ++ gate ∷ []) }
        ensures refused { OnErr result (self.new ≡ self.old) }
    {
        self.kept.reserve(1)?;
        if self.kept.len() >= FEW {
            self.numbers.reserve(1)?;
            self.numbers.insert(gate.number).unwrap();
        }
        self.kept.push(gate).unwrap();
        Ok(())
    }

    /// Passes a frame of a row's stream to the stream's gate, and returns the gate's verdict. `octets` are the octets of the frame that gates
    /// count. The frame arrived by the link `ingress`, or at the edge, and is whole at the instant `at`, in nanoseconds. If no gate is kept
    /// for the stream's number, one that has seen no frame is used, and kept from then on.
    ///
    /// The octets are added to those of the stream that passed before in the same cycle. The result is `Class` if and only if the sum is
    /// within what the row reserves in the cycle for frames that arrived by the same link, or at the edge. The class is 6 in even cycles
    /// and 7 in odd ones. Else the result is `OverOctets`, and the frame uses no octets.
    ///
    /// # Errors
    /// Returns `Memory` if there is no room to keep a gate; nothing changes then.
    pub fn pass(
        &mut self,
        domain: &Domain,
        row: &Row,
        ingress: Option<u16>,
        at: Nanos,
        octets: Octets,
    ) -> Result<Passed, Memory>
        ensures verdict { IfOk result (λ passed. passed ≡ verdict_on (gate_in domain.now self.old row.now ingress) at.0 octets.0) }
        ensures after { OnOk result (self.new ≡ with_gate self.old
            (kept_after domain.now.cycle_time row.now.no (gate_in domain.now self.old row.now ingress) at.0 octets.0)) }
        ensures refused { OnErr result (self.new ≡ self.old) }
    {
        match self.index_of(row.no) {
            Some(index) => Ok(self.kept[index].pass(domain, row, ingress, at, octets)),
            None => {
                let mut gate = KeptGate::new(row.no);
                let passed = gate.pass(domain, row, ingress, at, octets);
                self.keep(gate)?;
                Ok(passed)
            }
        }
    }
}
