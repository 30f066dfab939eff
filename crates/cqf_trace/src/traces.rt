//! The transmissions of all links of a run.
ghost use Rattle.std.specs.Prelude.{◌≡◌, ◌<◌, length};
ghost use Rattle.cqf_trace.specs.Traces.{StandByNumber, drops_at, marks_at};

use crate::trace::{Mark, Trace};
use cqf_model::Dropped;

/// The two kinds of transmissions on a trace.
#[derive(Clone, Copy, Debug, PartialEq, Eq)]
pub enum TransmissionKind {
    /// Transmissions of streams' frames.
    Stream,
    /// Transmissions of background frames.
    Background,
}

/// The traces of all links of a domain, by link number, and the drops of each bridge, by cycle, then frame. They hold everything that a run
/// did, each transmission once.
#[derive(Debug, Drop)]
pub struct Traces {
    pub links: Vec<Trace>,
    /// The drops of each bridge, by bridge number.
    pub drops: Vec<Vec<Dropped>>,
}

impl Traces {
    /// Returns the transmissions of one kind on a link, as its trace has them. The traces must be in order of their links' numbers, and the
    /// link must be one of them.
    pub fn marks(&self, kind: TransmissionKind, link: u16) -> &[Mark]
        requires inside { link < length self.now.links.items }
        requires by_number { StandByNumber self.now }
        ensures { result.now ≡ marks_at kind self.now link }
    {
        let trace = &self.links.as_slice()[usize::from(link)];
        match kind {
            TransmissionKind::Stream => trace.starts.as_slice(),
            TransmissionKind::Background => trace.background.as_slice(),
        }
    }

    /// Returns the drops of a bridge, as they are kept. Returns an empty slice if there is no such bridge.
    pub fn drops(&self, bridge: u16) -> &[Dropped]
        ensures { result.now ≡ drops_at self.now bridge }
    {
        match self.drops.get(usize::from(bridge)) {
            Some(drops) => drops.as_slice(),
            None => &[],
        }
    }
}
