//! Frames on their way.

/// A frame on its way to the next bridge.
#[derive(Clone, Copy, Debug, PartialEq, Eq)]
pub struct Moving {
    /// The instant at which it is whole there, in nanoseconds from the beginning of its cycle.
    pub at: u32,
    pub frame: u32,
    /// The number of its stream.
    pub row: u32,
    pub octets: u16,
    /// Its cycle, counted from the `from` of its segment.
    pub after: u16,
}

/// What a link sends in some cycles, after what it sent before: its frames in order of start.
#[derive(Debug, Drop)]
pub struct Segment {
    /// The cycle from which the frames' cycles are counted: that of the first frame, if there is one.
    pub from: u32,
    /// The cycle up to which the link has sent, exclusive.
    pub upto: u32,
    pub frames: Vec<Moving>,
}
