//! The frames that one source has brought to the bridge.
ghost use Rattle.std.specs.Prelude.{◌≡◌, ◌++◌, [], ◌∷◌, OnOk, filter};
ghost use Rattle.cqf_relay.specs.Logs.{ByCycle, KeepsFrom, is_in};

use cqf_units::Memory;
use std::alloc::Global;

/// A frame that arrived at the bridge.
#[derive(Clone, Copy, Debug, PartialEq, Eq)]
pub(crate) struct ArrivedFrame {
    /// The cycle in which it arrived.
    pub(crate) cycle: u32,
    /// The instant at which it is whole, in nanoseconds from the cycle's beginning.
    pub(crate) at: u32,
    pub(crate) frame: u32,
    /// The number of its stream.
    pub(crate) row: u32,
    pub(crate) octets: u32,
}

/// The frames that one source brought, by cycle, then instant. Those of early cycles may have been removed.
#[derive(Debug, Drop)]
pub(crate) struct SourceLog {
    frames: Vec<ArrivedFrame>,
}

impl SourceLog {
    /// Returns an empty log. Requests no memory.
    pub(crate) fn new(alloc: Global) -> SourceLog
        ensures { result.frames.items ≡ [] }
    {
        SourceLog {
            frames: Vec::new(alloc),
        }
    }

    /// Appends a frame. Returns `Memory` if an allocation fails.
    pub(crate) fn keep(&mut self, came: ArrivedFrame) -> Result<(), Memory>
        ensures { OnOk result (self.new.frames.items ≡ self.old.frames.items ++ came ∷ []) }
    {
        self.frames.push(came)?;
        Ok(())
    }

    /// Returns the frames of a cycle. The frames of the log must be in order of cycle.
    pub(crate) fn of_cycle(&self, cycle: u32) -> &[ArrivedFrame]
        ensures { ByCycle self.now.frames.items → result.now ≡ filter (is_in cycle) self.now.frames.items }
    {
        let all = self.frames.as_slice();
        let from = all.partition_point(|it| it.cycle < cycle);
        let rest = &all[from..];
        let count = rest.partition_point(|it| it.cycle <= cycle);
        &rest[..count]
    }

    /// Removes the frames of cycles before `before`, if they are at least half of all frames.
    pub(crate) fn let_go(&mut self, before: u32)
        ensures { KeepsFrom before self.old.frames.items self.new.frames.items }
    {
        let gone = self
            .frames
            .as_slice()
            .partition_point(|it| it.cycle < before);
        if gone >= self.frames.len() - gone {
            self.frames.retain(|it| it.cycle >= before);
        }
    }
}
