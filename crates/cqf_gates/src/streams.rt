//! Stream gates and their control lists (IEEE 802.1Q, 8.6.5.1). The rules about octets and classes are this project's own.
ghost use Rattle.std.specs.Prelude.{List, [], ◌≡◌, ◌==◌, ◌+◌, ◌/◌, ◌<◌, ◌≤◌, length, take};
ghost use Rattle.std.specs.List.{list_any};
ghost use Rattle.std.specs.Option.{SomeIff};
ghost use Rattle.cqf_model.specs.declared.gates.StreamEntry.{StreamEntry as Entry};
ghost use Rattle.cqf_model.specs.StreamGate.{gate_round, index_at, round_at};
ghost use Rattle.cqf_gates.specs.StreamGate.{Counts, DecidesByCalls, IsStreamList, entry_at, fresh, gate_after};
ghost use Rattle.cqf_gates.specs.StreamGate.{is_bad_ipv, stream_list_of, taken_at, verdict_on};

use crate::faults::MOST_ENTRIES;
use crate::{ListFault, StreamEntry};
use cqf_units::{Nanos, Octets};
use std::marker::Model;

/// The value at an index that isn't used.
pub(crate) const BLANK: StreamEntry = StreamEntry {
    ipv: 6,
    interval: 1,
    octet_max: None,
};

/// A stream gate control list: 1 to 16 entries. Rounds of the list follow one another without end, from instant 0.
#[derive(Debug, Drop)]
pub struct StreamList {
    /// The entries, followed by blanks.
    indices: [StreamEntry; 16],
    used: usize,
}

impl Model for StreamList {
    ghost use Rattle.std.specs.Prelude.{List, ◌≤◌, take};
    ghost use Rattle.cqf_model.specs.declared.gates.StreamEntry.{StreamEntry as Entry};
    ghost use Rattle.cqf_gates.specs.StreamGate.{IsStreamList};

    ghost Value = { List Entry };

    ghost view = { λ list. take list.used list.indices };

    ghost invariant = { λ list. (list.used ≤ 16) × IsStreamList (take list.used list.indices) };
}

/// What a stream gate decides about a frame.
#[derive(Clone, Copy, Debug, PartialEq, Eq)]
pub enum Passed {
    /// The frame passes, with this traffic class, 6 or 7.
    Class(u8),
    /// The frame is larger than what is left of the octet maximum, and is dropped.
    OverOctets,
}

/// Returns whether the entry would be in force for no time.
fn is_zero(entry: &StreamEntry) -> bool
    ensures { result ≡ (entry.now.interval == 0) }
{
    entry.interval == 0
}

/// Returns whether one of the entries would be in force for no time.
fn has_zero(entries: &[StreamEntry]) -> bool
    ensures { result ≡ list_any (λ (entry : Entry). entry.interval == 0) entries.now }
{
    entries.iter().any(|entry| is_zero(entry))
}

/// Returns whether the entry's internal priority value is neither 6 nor 7.
fn has_bad_value(entry: &StreamEntry) -> bool
    ensures { result ≡ is_bad_ipv entry.now }
{
    entry.ipv != 6 && entry.ipv != 7
}

/// Returns whether one of the internal priority values is neither 6 nor 7.
fn has_bad_ipv(entries: &[StreamEntry]) -> bool
    ensures { result ≡ list_any is_bad_ipv entries.now }
{
    entries.iter().any(|entry| has_bad_value(entry))
}

/// Returns the entries followed by blanks.
fn placed(entries: &[StreamEntry]) -> [StreamEntry; 16]
    requires { length entries.now ≤ 16 }
    ensures { take (length entries.now) result ≡ entries.now }
{
    let mut indices = [BLANK; 16];
    for (index, entry) in entries.iter().enumerate() {
        indices[index] = *entry;
    }
    indices
}

/// Returns the total of the intervals, in nanoseconds.
fn length_of(entries: &[StreamEntry]) -> u64
    requires { length entries.now ≤ 16 }
    ensures { result ≡ gate_round entries.now }
{
    let mut nanos: u64 = 0;
    for entry in entries {
        nanos += u64::from(entry.interval);
    }
    nanos
}

impl StreamList {
    /// Returns the list of these entries. Returns the first of these faults that applies: `Empty` for no entries,
    /// `TooMany` for more than 16, `ZeroInterval` for an interval of 0, and `BadIpv` for an internal priority value
    /// other than 6 and 7.
    pub fn new(entries: &[StreamEntry]) -> Result<StreamList, ListFault>
        ensures { result ≡ stream_list_of entries.now }
    {
        if entries.is_empty() {
            return Err(ListFault::Empty);
        }
        if entries.len() > MOST_ENTRIES {
            return Err(ListFault::TooMany);
        }
        if has_zero(entries) {
            return Err(ListFault::ZeroInterval);
        }
        if has_bad_ipv(entries) {
            return Err(ListFault::BadIpv);
        }
        Ok(StreamList {
            indices: placed(entries),
            used: entries.len(),
        })
    }

    /// Returns the entries.
    pub fn entries(&self) -> &[StreamEntry]
        ensures value { result.now ≡ self.now }
        ensures facts { IsStreamList self.now }
    {
        &self.indices[..self.used]
    }

    /// Returns the number of the round at the instant, and the index of the entry in force.
    fn interval_at(&self, t: Nanos) -> (u64, usize)
        ensures round { result.0 ≡ round_at self.now t.0 }
        ensures index { result.1 ≡ index_at self.now t.0 }
        ensures inside { result.1 < length self.now }
    {
        let entries = self.entries();
        let length = length_of(entries);
        let mut offset = t.0 % length;
        for (index, entry) in entries.iter().enumerate() {
            let interval = u64::from(entry.interval);
            if offset < interval {
                return (t.0 / length, index);
            }
            offset -= interval;
        }
        unreachable!()
    }

    /// Returns the entry in force at the instant.
    fn in_force(&self, t: Nanos) -> StreamEntry
        ensures { entry_at self.now t.0 ≡ Some result }
    {
        let (_, index) = self.interval_at(t);
        self.entries()[index]
    }
}

/// A stream gate. Each frame that passes gets the internal priority value of the entry in force, and in each interval
/// as many octets pass as that entry's octet maximum allows (IEEE 802.1Q, 8.6.5.1).
#[derive(Debug, Drop)]
pub struct StreamGate {
    list: StreamList,
    /// The instant of the last call.
    last: Nanos,
    /// What the frames that passed in the interval of the last call took of its octet maximum; 0 if it has none.
    taken: u32,
}

impl Model for StreamGate {
    ghost use Rattle.cqf_gates.specs.StreamGate.{Gate};

    ghost Value = { Gate };

    ghost view = { λ gate. record { entries = gate.list; last = gate.last.0; taken = gate.taken } };
}

/// Returns what is taken with these octets too, if that is within the octet maximum.
fn taken_with(taken: u32, octets: u32, most: u32) -> Option<u32>
    ensures { SomeIff result (taken + octets ≤ most) (taken + octets) }
{
    let sum = taken.checked_add(octets)?;
    if sum <= most { Some(sum) } else { None }
}

impl StreamGate {
    /// Returns a gate that has met no frame.
    pub fn new(list: StreamList) -> StreamGate
        ensures { result ≡ fresh list }
    {
        StreamGate {
            list,
            last: Nanos(0),
            taken: 0,
        }
    }

    /// Returns what has been taken of the octet maximum in the interval of the instant.
    fn taken_at(&self, t: Nanos) -> u32
        ensures { result ≡ taken_at self.now t.0 }
    {
        let before = self.list.interval_at(self.last);
        let at = self.list.interval_at(t);
        if before.0 == at.0 && before.1 == at.1 {
            self.taken
        } else {
            0
        }
    }

    /// Returns whether a frame of these octets, from the destination address to the FCS, passes at the instant, and
    /// with which traffic class. The result is `Class` if and only if the entry in force has no octet maximum, or the
    /// octets together with those that passed before in the same interval are within it. A frame that doesn't pass
    /// takes nothing, so a smaller one may pass after it. Calls come in the order of their instants.
    pub fn pass(&mut self, t: Nanos, octets: Octets) -> Passed
        requires { self.old.last ≤ t.0 }
        ensures verdict { result ≡ verdict_on self.old t.0 octets.0 }
        ensures after { self.new ≡ gate_after self.old t.0 octets.0 }
    {
        let taken = self.taken_at(t);
        let entry = self.list.in_force(t);
        self.last = t;
        let Some(most) = entry.octet_max else {
            self.taken = 0;
            return Passed::Class(entry.ipv);
        };
        let Some(sum) = taken_with(taken, octets.0, most) else {
            self.taken = taken;
            return Passed::OverOctets;
        };
        self.taken = sum;
        Passed::Class(entry.ipv)
    }
}

/// Proves that a gate that has counted what a list of calls passed decides as that list does and continues to count,
/// and that a gate that has met no frame has counted none.
pub fn gate_counts_calls()
    ensures decides { DecidesByCalls }
    ensures begins { (entries : List Entry) → Counts (fresh entries) [] }
{}
