//! A link that ends in the bridge.
ghost use Rattle.std.specs.Prelude.{◌≡◌, ◌++◌, [], OnOk, map};
ghost use Rattle.cqf_relay.specs.Logs.{came_by_segment};

use crate::log::{ArrivedFrame, SourceLog};
use crate::moving::{Moving, Segment};
use cqf_units::Memory;
use std::alloc::Global;

/// A link that ends in the bridge: the cycle up to which its frames have arrived, exclusive, and these frames.
#[derive(Debug, Drop)]
pub(crate) struct Inlet {
    pub(crate) link: u16,
    pub(crate) upto: u32,
    pub(crate) log: SourceLog,
}

/// Returns the arrival of a frame of a segment whose first frame is of cycle `from`.
fn came(from: u32, moving: Moving) -> ArrivedFrame
    ensures { result ≡ came_by_segment from moving }
{
    ArrivedFrame {
        cycle: from.saturating_add(u32::from(moving.after)),
        at: moving.at,
        frame: moving.frame,
        row: moving.row,
        octets: u32::from(moving.octets),
    }
}

impl Inlet {
    /// Returns a link that has brought nothing. Requests no memory.
    pub(crate) fn new(alloc: Global, link: u16) -> Inlet
        ensures link { result.link ≡ link }
        ensures upto { result.upto ≡ 0 }
        ensures log { result.log.frames.items ≡ [] }
    {
        Inlet {
            link,
            upto: 0,
            log: SourceLog::new(alloc),
        }
    }

    /// Takes the next segment that the link sent: its frames are appended to those that arrived before. Returns
    /// `Memory` if an allocation fails.
    pub(crate) fn take(&mut self, segment: &Segment) -> Result<(), Memory>
        ensures link { self.new.link ≡ self.old.link }
        ensures upto { OnOk result (self.new.upto ≡ segment.now.upto) }
        ensures log { OnOk result (self.new.log.frames.items ≡
            self.old.log.frames.items ++ map (came_by_segment segment.now.from) segment.now.frames.items) }
    {
        for moving in segment.frames.as_slice() {
            self.log.keep(came(segment.from, *moving))?;
        }
        self.upto = segment.upto;
        Ok(())
    }
}
