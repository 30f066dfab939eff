//! The events of a world.

use cqf_admission::Command;

/// One event, with the number of its bridge, link or seat.
#[derive(Debug, Drop)]
pub enum Event {
    /// An administrator makes a call with a seat.
    Call(u16, Command),
    /// The next cycle is closed to changes with a seat.
    Seal(u16),
    /// A bridge is given the table of its cycle.
    Give(u16),
    /// A bridge sends its cycle.
    Step(u16),
    /// The bridge in which a link ends takes the oldest batch under way on it.
    Take(u16),
    /// A bridge receives its cycle, and posts its page.
    Post(u16),
}

/// The outcome of an event.
#[derive(Clone, Copy, Debug, PartialEq, Eq)]
pub enum Applied {
    Done,
    /// The event can't happen now. Nothing is changed.
    NotEnabled,
}
