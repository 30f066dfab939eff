//! The frames that a link has sent and not yet handed on.
ghost use Rattle.std.specs.Prelude.{◌≡◌, [], OnOk};
ghost use Rattle.cqf_relay.specs.Sending.{Hands};

use crate::moving::Moving;
use cqf_units::Memory;
use std::alloc::Global;

/// The frames that a link has sent and not yet handed on, and the cycle of the first of them.
#[derive(Debug, Drop)]
pub(crate) struct Pending {
    pub(crate) base: u32,
    pub(crate) frames: Vec<Moving>,
}

impl Pending {
    /// Returns no frames. Requests no memory.
    pub(crate) fn new(alloc: Global) -> Pending
        ensures { result.frames.items ≡ [] }
    {
        Pending {
            base: 0,
            frames: Vec::new(alloc),
        }
    }

    /// Appends a frame of a cycle. Its cycle is counted from that of the first frame. Returns `Memory` if an allocation fails.
    pub(crate) fn hand(&mut self, cycle: u32, moving: Moving) -> Result<(), Memory>
        ensures { OnOk result (Hands cycle moving self.old self.new) }
    {
        if self.frames.is_empty() {
            self.base = cycle;
        }
        let after = u16::try_from(cycle.saturating_sub(self.base)).unwrap_or(u16::MAX);
        self.frames.push(Moving { after, ..moving })?;
        Ok(())
    }
}
