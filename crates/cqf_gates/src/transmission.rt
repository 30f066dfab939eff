//! Transmission gate control lists (IEEE 802.1Q, 8.6.8.4).
ghost use Rattle.std.specs.Prelude.{◌≡◌, ◌==◌, ◌+◌, ◌-◌, ◌^◌, ◌<◌, ◌≤◌, ◌++◌, ℕ, map, take, drop, length, slice_index_or};
ghost use Rattle.std.specs.List.{list_any};
ghost use Rattle.cqf_model.specs.GateList.{Entry, InForce, IsOpen, IsOpenFor, round_of, states_at};
ghost use Rattle.cqf_model.specs.declared.gates.OpenFor.TheVariants.{Always};
ghost use Rattle.cqf_gates.specs.TxList.{AreSteady, IsTxList, tx_list_of};

use crate::{ListFault, OpenFor};
use arrayvec::ArrayVec;
use cqf_lanes::open_run;
use cqf_units::Nanos;
use std::marker::Model;

/// A transmission gate control list: 1 to 16 entries of eight gate states and an interval in nanoseconds. Rounds of the
/// list follow one another without end, from instant 0 (IEEE 802.1Q, 8.6.8.4). The base time and the limits are this
/// project's own.
#[derive(Debug, Drop)]
pub struct TxList {
    entries: ArrayVec<(u8, u32), 16>,
}

impl Model for TxList {
    ghost use Rattle.std.specs.Prelude.{ℕ, List};
    ghost use Rattle.cqf_gates.specs.TxList.{IsTxList};

    ghost Value = { List (ℕ × ℕ) };

    ghost view = { λ list. list.entries.items };

    ghost invariant = { λ list. IsTxList list.entries.items };

    ghost inverse = { λ entries. record { entries = record { items = entries } } };
}

/// Returns whether the entry would be in force for no time.
fn is_zero(entry: &(u8, u32)) -> bool
    ensures { result ≡ (entry.now.1 == 0) }
{
    entry.1 == 0
}

/// Returns whether one of the entries would be in force for no time.
fn has_zero(entries: &[(u8, u32)]) -> bool
    ensures { result ≡ list_any (λ (entry : Entry). entry.1 == 0) entries.now }
{
    entries.iter().any(|entry| is_zero(entry))
}

/// Returns the total of the intervals, in nanoseconds.
fn length_of(entries: &[(u8, u32)]) -> u64
    requires { length entries.now ≤ 16 }
    ensures value { result ≡ round_of entries.now }
    ensures short { result < 2 ^ 36 + 1 }
{
    let mut nanos: u64 = 0;
    for entry in entries {
        nanos += u64::from(entry.1);
    }
    nanos
}

/// Returns the gate states of the entries.
fn states_of(entries: &[(u8, u32)]) -> ArrayVec<u8, 16>
    requires { length entries.now ≤ 16 }
    ensures { result.items ≡ map (λ (entry : Entry). entry.0) entries.now }
{
    let mut states = ArrayVec::new();
    for entry in entries {
        states.push(entry.0);
    }
    states
}

/// Returns the entries rotated to begin at an index.
fn turned(entries: &[(u8, u32)], index: usize) -> ArrayVec<(u8, u32), 16>
    requires few { length entries.now ≤ 16 }
    requires inside { index ≤ length entries.now }
    ensures { result.items ≡ drop index entries.now ++ take index entries.now }
{
    let Ok(mut turned) = ArrayVec::try_from(&entries[index..]) else {
        unreachable!()
    };
    match turned.try_extend_from_slice(&entries[..index]) {
        Ok(()) => turned,
        Err(_) => unreachable!(),
    }
}

impl TxList {
    /// Returns the list of these entries, each with the states of eight gates, class 7 in the highest bit and 1 for
    /// open, and its interval in nanoseconds. Returns the first of these faults that applies: `Empty` for no entries,
    /// `TooMany` for more than 16, and `ZeroInterval` for an interval of 0.
    pub fn new(entries: &[(u8, u32)]) -> Result<TxList, ListFault>
        ensures { result ≡ tx_list_of entries.now }
    {
        if entries.is_empty() {
            return Err(ListFault::Empty);
        }
        let Ok(kept) = ArrayVec::try_from(entries) else {
            return Err(ListFault::TooMany);
        };
        if has_zero(entries) {
            return Err(ListFault::ZeroInterval);
        }
        Ok(TxList { entries: kept })
    }

    /// Returns a copy of the list. A list needs no allocation, so this can't fail.
    pub fn copied(&self) -> TxList
        ensures { result ≡ self.now }
    {
        match ArrayVec::try_from(self.entries()) {
            Ok(entries) => TxList { entries },
            Err(_) => unreachable!(),
        }
    }

    /// Returns the entries.
    pub fn entries(&self) -> &[(u8, u32)]
        ensures value { result.now ≡ self.now }
        ensures facts { IsTxList self.now }
    {
        self.entries.as_slice()
    }

    /// Returns the time after which the list repeats, in nanoseconds, at most 2^36: the standard's cycle time of a gate
    /// control list (8.6.8.4).
    pub fn round(&self) -> Nanos
        ensures value { result.0 ≡ round_of self.now }
        ensures some { 0 < result.0 }
        ensures short { result.0 < 2 ^ 36 + 1 }
    {
        Nanos(length_of(self.entries()))
    }

    /// Returns the index of the entry in force at the instant, and how many nanoseconds it has been in force.
    pub fn entry_at(&self, t: Nanos) -> (usize, u32)
        ensures in_force { InForce self.now t.0 result.0 result.1 }
        ensures steady { let entry = slice_index_or self.now result.0 (0, 0) in
            AreSteady self.now entry.0 t.0 (t.0 + entry.1 - result.1) }
    {
        let entries = self.entries();
        let mut offset = t.0 % length_of(entries);
        for (index, entry) in entries.iter().enumerate() {
            let interval = u64::from(entry.1);
            if offset < interval {
                return (index, offset as u32);
            }
            offset -= interval;
        }
        unreachable!()
    }

    /// Returns the states of the eight gates at the instant, class 7 in the highest bit and 1 for open.
    pub fn mask_at(&self, t: Nanos) -> u8
        ensures { result ≡ states_at self.now t.0 }
    {
        let (index, _) = self.entry_at(t);
        self.entries()[index].0
    }

    /// Returns how long the class, 0 to 7, stays open from the instant on, which is below 2^62 ns: `Closed` if it is
    /// closed at the instant, `Always` if every entry opens it, and otherwise the first later instant at which it is
    /// closed. A boundary between two entries that both open the class doesn't close its gate.
    pub fn open_for(&self, t: Nanos, class: u8) -> OpenFor
        requires gate { class < 8 }
        requires early { t.0 < 2 ^ 62 }
        ensures span { IsOpenFor self.now class t.0 result }
        ensures always { result ≡ Always → (s : ℕ) → IsOpen self.now class s }
    {
        let (index, offset) = self.entry_at(t);
        let turned = turned(self.entries(), index);
        let run = open_run(states_of(turned.as_slice()).as_slice(), class);
        if run == turned.len() {
            return OpenFor::Always;
        }
        if run == 0 {
            return OpenFor::Closed;
        }
        let begun = t.0 - u64::from(offset);
        OpenFor::Until(Nanos(begun + length_of(&turned.as_slice()[..run])))
    }
}
