//! The transmissions of one link.
ghost use Rattle.std.specs.Prelude.{◌≡◌, ◌++◌, [], ◌∷◌, OnOk};

use cqf_units::{Memory, Nanos};
use std::alloc::Global;

/// A transmission as stored on its link's trace.
#[derive(Clone, Copy, Debug, PartialEq, Eq)]
pub struct Mark {
    pub start: Nanos,
    /// The position of the frame's offer among the offers, or of the background frame among the background frames, from 1.
    pub frame: u32,
    pub octets: u32,
}

/// The transmissions of a link, in order of instant.
#[derive(Debug, Drop)]
pub struct Trace {
    /// The link's number in the domain, from 0.
    pub link: u16,
    /// The transmissions of streams' frames.
    pub starts: Vec<Mark>,
    /// The transmissions of background frames.
    pub background: Vec<Mark>,
}

impl Trace {
    /// Returns an empty trace for a link. Requests no memory.
    pub fn new(alloc: Global, link: u16) -> Trace
        ensures link { result.link ≡ link }
        ensures starts { result.starts.items ≡ [] }
        ensures background { result.background.items ≡ [] }
    {
        Trace {
            link,
            starts: Vec::new(alloc),
            background: Vec::new(alloc),
        }
    }

    /// Appends the transmission of a stream's frame. Returns `Memory` if an allocation fails.
    pub fn keep(&mut self, mark: Mark) -> Result<(), Memory>
        ensures link { self.new.link ≡ self.old.link }
        ensures starts { OnOk result (self.new.starts.items ≡ self.old.starts.items ++ mark ∷ []) }
        ensures background { self.new.background.items ≡ self.old.background.items }
    {
        self.starts.push(mark)?;
        Ok(())
    }
}
