//! What a world holds for its bridges and its links.

use cqf_agenda::Agenda;
use cqf_bridge::{Batch, Bridge};
use cqf_model::Started;
use std::collections::VecDeque;

/// A bridge, with what it was given and what it has taken.
#[derive(Debug, Drop)]
pub(crate) struct WorldBridge {
    pub(crate) bridge: Bridge,
    pub(crate) agenda: Agenda,
    /// The number of links that end in the bridge.
    pub(crate) incoming: usize,
    /// The number of tables that it was given.
    pub(crate) given: u32,
    /// The number of cycles that it has sent.
    pub(crate) sent: u32,
    /// The number of pages that it has posted.
    pub(crate) posted: u32,
    /// The starts of streams' frames in the cycle that it sent last.
    pub(crate) starts: Vec<Started>,
    /// The batches of its cycle that it has taken, by link number.
    pub(crate) taken: Vec<Batch>,
}

/// A link, with the batches under way on it.
#[derive(Debug, Drop)]
pub(crate) struct Line {
    /// The number of batches taken from it.
    pub(crate) taken: u32,
    /// The batches not yet taken, the oldest first.
    pub(crate) waiting: VecDeque<Batch>,
}
