//! Streams as their talkers see them.

use crate::Traffic;
use cqf_units::{Name, Nanos};

/// A stream as its talker sees it.
#[derive(Debug, Drop)]
pub struct TalkerStream {
    pub name: Name,
    /// The number of its edge bridge.
    pub bridge: u16,
    /// What its talker promises. Without a promise nothing is offered.
    pub traffic: Option<Traffic>,
}

/// The end of the offers, and how late blocks are.
#[derive(Clone, Copy, Debug)]
pub struct Until {
    /// Nothing is offered at this instant or later.
    pub end: Nanos,
    /// The seed of the chance by which blocks are late. Without a seed each block comes on the grid.
    pub seed: Option<u32>,
}
