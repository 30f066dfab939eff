//! The times for which the classes of a gate list stay open.
ghost use Rattle.std.specs.Prelude.{◌≡◌, ◌+◌, ◌^◌, ◌<◌, ◌≤◌, ◌↔◌, ◌-◌, IsTrue, ℕ, slice_index_or};
ghost use Rattle.cqf_port.specs.Spans.{AreLess, AreSpans, AreSpansAt, IsAhead, IsSpan};
ghost use Rattle.cqf_port.specs.Quiet.{FitsNowhere};
ghost use Rattle.cqf_model.specs.GateList.{InForce, IsOpen, IsOpenThrough, round_of, states_at};

use cqf_gates::{OpenFor, TxList};
use cqf_laws_network::mask_is_in_force;
use cqf_units::Nanos;
use std::marker::Model;

/// A gate list, and for each of its entries the time for which each class stays open from the entry's first instant on.
/// To its users it is the list.
#[derive(Debug, Drop)]
pub(crate) struct Schedule {
    list: TxList,
    /// By entry and class, in nanoseconds: 0 if the class is closed, and 2^64 - 1 if it never closes.
    spans: [[u64; 8]; 16],
}

/// What comes after the entry in force at an instant.
#[derive(Clone, Copy, Debug)]
pub(crate) struct Ahead {
    /// The index of the next entry.
    index: usize,
    /// The instant at which that entry begins, in nanoseconds.
    begins: u64,
    /// The instant one round later, from which everything repeats.
    again: u64,
}

impl Model for Schedule {
    ghost use Rattle.std.specs.Prelude.{ℕ, List};
    ghost use Rattle.cqf_port.specs.Spans.{AreSpans};

    ghost Value = { List (ℕ × ℕ) };

    ghost view = { λ schedule. schedule.list };

    ghost invariant = { λ schedule. AreSpans schedule.list schedule.spans };
}

/// Returns the time for which the class stays open from the instant on.
fn span_at(list: &TxList, t: u64, class: u8) -> u64
    requires gate { class < 8 }
    requires early { t < 2 ^ 62 }
    ensures { IsSpan list.now class t (2 ^ 63) result }
{
    match list.open_for(Nanos(t), class) {
        OpenFor::Closed => 0,
        OpenFor::Always => u64::MAX,
        OpenFor::Until(closed) => closed.0 - t,
    }
}

/// Returns the time for which each class stays open from the instant on.
fn row_at(list: &TxList, t: u64) -> [u64; 8]
    requires { t < 2 ^ 62 }
    ensures { AreSpansAt list.now t (2 ^ 63) result }
{
    let mut row = [0; 8];
    for class in 0..8u8 {
        row[usize::from(class)] = span_at(list, t, class);
    }
    row
}

/// Returns the number as one of 64 bits.
fn widened(nanoseconds: u32) -> u64
    ensures value { result ≡ nanoseconds }
    ensures short { result < 2 ^ 32 }
{
    u64::from(nanoseconds)
}

/// Returns the time for which each class stays open from the beginning of each entry on.
fn spans_of(list: &TxList) -> [[u64; 8]; 16]
    ensures { AreSpans list.now result }
{
    let entries = list.entries();
    let mut spans = [[0; 8]; 16];
    let mut begun: u64 = 0;
    for (index, entry) in entries.iter().enumerate() {
        spans[index] = row_at(list, begun);
        begun += widened(entry.1);
    }
    spans
}

/// Returns the instant this many nanoseconds later.
fn later_by(t: Nanos, nanoseconds: u32) -> Nanos
    requires { t.0 < 2 ^ 63 + 2 ^ 62 }
    ensures { result.0 ≡ t.0 + nanoseconds }
{
    Nanos(t.0 + u64::from(nanoseconds))
}

/// Returns what is left of each of the times after this many nanoseconds.
fn less(row: [u64; 8], nanoseconds: u32) -> [u64; 8]
    ensures left { AreLess row nanoseconds result }
    ensures short { nanoseconds < 2 ^ 32 }
{
    let mut left = row;
    for class in 0..8 {
        left[class] = row[class].saturating_sub(widened(nanoseconds));
    }
    left
}

/// Returns the entry after the one in force, and the instant at which it begins.
fn entry_after(list: &TxList, t: u64, index: usize, offset: u32) -> (usize, u64)
    requires force { InForce list.now t index offset }
    requires early { t < 2 ^ 63 + 2 ^ 62 + 2 ^ 38 }
    ensures force { InForce list.now result.1 result.0 0 }
    ensures later { t < result.1 }
    ensures value { result.1 ≡ t + ((slice_index_or list.now index (0, 0)).1 - offset) }
    ensures short { (slice_index_or list.now index (0, 0)).1 < 2 ^ 32 }
{
    let entries = list.entries();
    let after = if index + 1 == entries.len() {
        0
    } else {
        index + 1
    };
    (after, t + widened(entries[index].1 - offset))
}

/// Returns the first beginning of an entry, from the one ahead on, from which the class stays open for `need`
/// nanoseconds, or, if there is none before `end`, the first beginning from `end` on.
fn fit_from(
    list: &TxList,
    spans: &[[u64; 8]; 16],
    class: u8,
    need: u64,
    ahead: Ahead,
    end: u64,
) -> u64
    requires gate { class < 8 }
    requires some { 0 < need }
    requires short { need < 2 ^ 62 }
    requires early { end < 2 ^ 63 + 2 ^ 62 + 2 ^ 38 }
    requires spans { AreSpans list.now spans.now }
    requires force { InForce list.now ahead.begins ahead.index 0 }
    ensures later { ahead.begins ≤ result }
    ensures nowhere { FitsNowhere list.now class need ahead.begins result }
    ensures fits { result < end → IsOpenThrough list.now class result (result + need) }
{
    mask_is_in_force();
    let mut index = ahead.index;
    let mut t = ahead.begins;
    while t < end {
        if spans[index][usize::from(class)] >= need {
            return t;
        }
        (index, t) = entry_after(list, t, index, 0);
    }
    t
}

impl Schedule {
    /// Returns the schedule of the list.
    pub(crate) fn new(list: TxList) -> Schedule
        ensures { result ≡ list }
    {
        let spans = spans_of(&list);
        Schedule { list, spans }
    }

    /// Returns whether the class is open at the instant.
    pub(crate) fn is_open(&self, t: Nanos, class: u8) -> bool
        requires { class < 8 }
        ensures { IsTrue result ↔ IsOpen self.now class t.0 }
    {
        self.list.mask_at(t) & (1 << class) != 0
    }

    /// Returns the time after which the list repeats.
    pub(crate) fn round(&self) -> Nanos
        ensures value { result.0 ≡ round_of self.now }
        ensures some { 0 < result.0 }
        ensures short { result.0 < 2 ^ 36 + 1 }
    {
        self.list.round()
    }

    /// Returns the time for which each class stays open from the instant on.
    pub(crate) fn left_at(&self, t: Nanos) -> [u64; 8]
        ensures { AreSpansAt self.now t.0 (2 ^ 62) result }
    {
        mask_is_in_force();
        let (index, offset) = self.list.entry_at(t);
        less(self.spans[index], offset)
    }

    /// Returns the instant at which the entry in force ends.
    pub(crate) fn next_boundary(&self, t: Nanos) -> Nanos
        requires { t.0 < 2 ^ 63 + 2 ^ 62 }
        ensures later { t.0 < result.0 }
        ensures steady { (s : ℕ) → t.0 ≤ s → s < result.0 → states_at self.now s ≡ states_at self.now t.0 }
    {
        let (index, offset) = self.list.entry_at(t);
        later_by(t, self.list.entries()[index].1 - offset)
    }

    /// Returns what comes after the entry in force at the instant.
    pub(crate) fn ahead(&self, t: Nanos) -> Ahead
        requires { t.0 < 2 ^ 63 + 2 ^ 62 }
        ensures { IsAhead self.now t.0 result.index result.begins result.again }
    {
        let (index, offset) = self.list.entry_at(t);
        let (next, begins) = entry_after(&self.list, t.0, index, offset);
        Ahead {
            index: next,
            begins,
            again: t.0 + self.list.round().0,
        }
    }

    /// Returns the first instant after `t` from which the class stays open for `need` nanoseconds, which is the
    /// beginning of an entry. From `t` on it doesn't stay open for so long. The search goes no further than one round,
    /// since what doesn't fit in a round never does, and no further than `last`. If there is no such instant up to
    /// that, the result is an instant after all that was examined.
    pub(crate) fn next_fit(&self, t: Nanos, class: u8, need: u64, ahead: Ahead, last: u64) -> Nanos
        requires gate { class < 8 }
        requires early { t.0 < 2 ^ 63 + 2 ^ 62 }
        requires some { 0 < need }
        requires short { need < 2 ^ 62 }
        requires ahead { IsAhead self.now t.0 ahead.index ahead.begins ahead.again }
        requires waits { ¬ IsOpenThrough self.now class t.0 (t.0 + need) }
        ensures later { t.0 < result.0 }
        ensures nowhere { FitsNowhere self.now class need t.0 result.0 }
        ensures fits { result.0 < last → IsOpenThrough self.now class result.0 (result.0 + need) }
    {
        mask_is_in_force();
        let end = ahead.again.min(last);
        let fit = fit_from(&self.list, &self.spans, class, need, ahead, end);
        if fit < ahead.again {
            Nanos(fit)
        } else {
            Nanos(u64::MAX)
        }
    }
}
