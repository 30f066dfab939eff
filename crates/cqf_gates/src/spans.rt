//! The entries of a reservation's gate, put together one after the other.
ghost use Rattle.std.specs.Prelude.{[], ◌≡◌, ◌+◌, ◌*◌, ◌%◌, ◌^◌, ◌<◌, ◌∷◌, ◌++◌, length};
ghost use Rattle.cqf_model.specs.declared.gates.StreamEntry.{StreamEntry as Entry};
ghost use Rattle.cqf_gates.specs.ReservedSpans.{closed_for, open_in, second_active_cycle};

use crate::streams::BLANK;
use crate::{Pace, StreamEntry};
use cqf_units::{Nanos, Octets};
use std::marker::Model;

/// The class that a stream's frames get in even cycles, as internal priority value.
const CLASS_OF_EVEN_CYCLE: u8 = 6;

/// The class that a stream's frames get in odd cycles, as internal priority value.
const CLASS_OF_ODD_CYCLE: u8 = 7;

/// The entries so far, at most five: those of two of the stream's own cycles, and the closed ones before, between and
/// after them.
#[derive(Drop)]
pub(crate) struct Spans {
    /// The entries, followed by blanks.
    indices: [StreamEntry; 5],
    used: usize,
}

impl Model for Spans {
    ghost use Rattle.std.specs.Prelude.{List, ◌≤◌, take};
    ghost use Rattle.cqf_model.specs.declared.gates.StreamEntry.{StreamEntry as Entry};

    ghost Value = { List Entry };

    ghost view = { λ spans. take spans.used spans.indices };

    ghost invariant = { λ spans. spans.used ≤ 5 };
}

/// Returns the class that frames get in a cycle.
fn class_of(cycle: u16) -> u8
    ensures { result ≡ 6 + cycle % 2 }
{
    if cycle % 2 == 0 {
        CLASS_OF_EVEN_CYCLE
    } else {
        CLASS_OF_ODD_CYCLE
    }
}

impl Spans {
    /// Returns an empty list.
    pub(crate) fn new() -> Spans
        ensures { result ≡ [] }
    {
        Spans {
            indices: [BLANK; 5],
            used: 0,
        }
    }

    /// Returns the entries so far.
    pub(crate) fn entries(&self) -> &[StreamEntry]
        ensures { result.now ≡ self.now }
    {
        &self.indices[..self.used]
    }

    /// Appends an entry.
    fn push(&mut self, entry: StreamEntry)
        requires { length self.old < 5 }
        ensures { self.new ≡ self.old ++ entry ∷ [] }
    {
        self.indices[self.used] = entry;
        self.used += 1;
    }

    /// Appends the entry for this many cycles in which nothing passes, unless the number is 0.
    pub(crate) fn close(&mut self, cycle_time: Nanos, cycles: u16)
        requires room { length self.old < 5 }
        requires short { cycles * cycle_time.0 < 2 ^ 32 }
        ensures { self.new ≡ self.old ++ closed_for cycle_time.0 cycles }
    {
        if cycles > 0 {
            let interval = u64::from(cycles) * cycle_time.0;
            self.push(StreamEntry {
                ipv: CLASS_OF_EVEN_CYCLE,
                interval: interval as u32,
                octet_max: Some(0),
            });
        }
    }

    /// Appends the entry for one cycle in which the reserved octets pass.
    pub(crate) fn open(&mut self, cycle_time: Nanos, reserved: Octets, cycle: u16)
        requires room { length self.old < 5 }
        requires short { cycle_time.0 < 2 ^ 32 }
        ensures { self.new ≡ self.old ++ open_in cycle_time.0 reserved.0 cycle ∷ [] }
    {
        self.push(StreamEntry {
            ipv: class_of(cycle),
            interval: cycle_time.0 as u32,
            octet_max: Some(reserved.0),
        });
    }

    /// If a period has an odd number of cycles, appends the entries from the stream's first own cycle to the second:
    /// the closed cycles, and the own one.
    pub(crate) fn open_again(
        &mut self,
        cycle_time: Nanos,
        reserved: Octets,
        pace: Pace,
        active_cycle: u16,
    )
        requires room { length self.old < 4 }
        requires short { (pace.pause + 1) * cycle_time.0 < 2 ^ 32 }
        requires within { active_cycle < 256 }
        ensures { self.new ≡ self.old ++ second_active_cycle cycle_time.0 reserved.0 pace active_cycle }
    {
        let pause = u16::from(pace.pause);
        if (pause + 1) % 2 != 0 {
            self.close(cycle_time, pause);
            self.open(cycle_time, reserved, active_cycle + (pause + 1));
        }
    }
}
