//! Frames: as they are offered, as they are sent, and as a book records them.

use cqf_units::{Cycle, Name, Nanos};

/// A frame that is offered at the edge.
#[derive(Debug, Drop)]
pub struct Offer {
    pub at: Nanos,
    /// The number of the bridge at which it is offered.
    pub bridge: u16,
    /// The name of the stream that it claims.
    pub stream: Name,
    /// Its size from the destination address to the FCS.
    pub octets: u32,
}

/// An offer with its number among all offers.
#[derive(Debug, Drop)]
pub struct Offered {
    /// The offer's index among the offers, from 1.
    pub frame: u32,
    pub offer: Offer,
}

/// A frame of a class that no stream has, for one hop: no stream gate polices it, it is never dropped, and it ends at
/// the far end of its link.
#[derive(Clone, Copy, Debug, PartialEq, Eq)]
pub struct Background {
    /// The instant from which it waits.
    pub at: Nanos,
    /// The number of its link.
    pub link: u16,
    /// Its traffic class, 0 to 5.
    pub class: u8,
    /// Its size from the destination address to the FCS, 64 to 1,522.
    pub octets: u32,
}

/// A background frame with its number among all background frames.
#[derive(Clone, Copy, Debug, PartialEq, Eq)]
pub struct Backed {
    /// Its index among the background frames, from 1.
    pub frame: u32,
    pub background: Background,
}

/// A stream's frame that a link carries.
#[derive(Clone, Copy, Debug, PartialEq, Eq)]
pub struct Sent {
    pub start: Nanos,
    pub frame: u32,
    /// The number of its stream.
    pub stream: u32,
    pub octets: u32,
}

/// A transmission, as a book records it.
#[derive(Clone, Copy, Debug, PartialEq, Eq)]
pub struct Started {
    /// The cycle of the start.
    pub cycle: Cycle,
    pub link: u16,
    pub frame: u32,
    pub octets: u32,
    pub start: Nanos,
}

/// Why an offer is dropped at its edge.
#[derive(Clone, Copy, Debug, PartialEq, Eq)]
pub enum Reason {
    /// No held stream has the name.
    Unknown,
    /// The stream is held, but not live.
    Withdrawn,
    /// The bridge is not the first of the stream's tree.
    OtherBridge,
    /// The stream's gate has fewer octets left than the frame has.
    Octets,
}

/// An offer that was dropped at its edge, as a book records it.
#[derive(Clone, Copy, Debug, PartialEq, Eq)]
pub struct Dropped {
    /// The offer's cycle.
    pub cycle: Cycle,
    pub bridge: u16,
    pub frame: u32,
    pub octets: u32,
    pub reason: Reason,
}

/// What one bridge sent and dropped in one cycle.
#[derive(Debug, Drop)]
pub struct Page {
    pub bridge: u16,
    pub cycle: Cycle,
    /// The starts of streams' frames, by link, then start instant.
    pub starts: Vec<Started>,
    /// The starts of background frames, in the same order.
    pub background: Vec<Started>,
    /// The drops, by frame.
    pub drops: Vec<Dropped>,
}

/// All that a network sent and dropped in the cycles of a run.
#[derive(Debug, Drop)]
pub struct Book {
    /// The starts of streams' frames, by cycle, then link, then start instant.
    pub starts: Vec<Started>,
    /// The starts of background frames, in the same order.
    pub background: Vec<Started>,
    /// The drops, by cycle, then bridge, then frame.
    pub drops: Vec<Dropped>,
}
