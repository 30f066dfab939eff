//! What arrives at an output port, and what it sends.

use cqf_units::Nanos;

/// A frame that arrives at a port's queues.
#[derive(Clone, Copy, Debug, PartialEq, Eq)]
pub struct Arrival {
    /// The instant from which it waits.
    pub at: Nanos,
    /// Its traffic class, 0 to 7 (IEEE 802.1Q, 8.6.6).
    pub class: u8,
    /// Its size from the destination address to the FCS.
    pub octets: u32,
    /// The caller's label.
    pub frame: u32,
}

/// A frame that a port starts to transmit.
#[derive(Clone, Copy, Debug, PartialEq, Eq)]
pub struct Start {
    /// The instant at which its preamble starts.
    pub start: Nanos,
    /// Its traffic class, 0 to 7.
    pub class: u8,
    /// Its size from the destination address to the FCS.
    pub octets: u32,
    /// The label with which it arrived.
    pub frame: u32,
}
