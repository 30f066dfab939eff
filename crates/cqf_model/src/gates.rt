//! The states and entries of gates.

use cqf_units::Nanos;

/// How long a class stays open from an instant on (IEEE 802.1Q, 8.6.8.4).
#[derive(Clone, Copy, Debug, PartialEq, Eq)]
pub enum OpenFor {
    /// The class is closed at the instant.
    Closed,
    /// Every entry of the list opens the class.
    Always,
    /// The first later instant at which the class is closed.
    Until(Nanos),
}

/// An operation of a stream gate control list (IEEE 802.1Q, 8.6.5.1). The gate is always open.
#[derive(Clone, Copy, Debug, PartialEq, Eq)]
pub struct StreamEntry {
    /// The internal priority value that a frame gets, 6 or 7.
    pub ipv: u8,
    /// How long the entry is in force, in nanoseconds.
    pub interval: u32,
    /// The number of octets that may pass in one interval, or no limit.
    pub octet_max: Option<u32>,
}
