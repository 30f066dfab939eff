//! Links, and the streams that a table holds.
ghost use Rattle.std.specs.Prelude.{◌≡◌};
ghost use Rattle.cqf_model.specs.Domain.{guard_by};

use crate::trees::Tree;
use cqf_units::{Cycle, Name, Rate};

/// A node of a domain, by its number among the bridges or among the stations.
#[derive(Clone, Copy, Debug, PartialEq, Eq, Hash)]
pub enum Node {
    Bridge(u16),
    Station(u16),
}

/// A directed link.
#[derive(Clone, Copy, Debug, PartialEq, Eq)]
pub struct Link {
    /// The number of the bridge that it leaves.
    pub from: u16,
    /// The node that it ends in.
    pub to: Node,
    pub rate: Rate,
    /// The greatest delay of a frame, in nanoseconds: propagation and bridge processing together.
    pub delay: u32,
    /// The least delay of a frame, in nanoseconds, at most the greatest.
    pub least: u32,
    /// Its own guard band, in nanoseconds; `None` if it has the domain's.
    pub guard: Option<u32>,
}

impl Link {
    /// Returns the link's guard band, in nanoseconds: its own if it has one, otherwise the domain's, `guard`.
    pub fn guard_by(&self, guard: u32) -> u32
        ensures { result ≡ guard_by guard self.now }
    {
        self.guard.unwrap_or(guard)
    }
}

/// A link of a stream's tree.
#[derive(Clone, Copy, Debug, Default, PartialEq, Eq)]
pub struct Hop {
    /// The link's number.
    pub link: u16,
    /// The hop number, from 1: the number of links from the stream's first bridge to the link's end.
    pub hop_number: u8,
    /// The link before it, by which frames arrive at the bridge that this one leaves; `None` for hop number 1.
    pub from: Option<u16>,
}

/// The cycles in which a stream's frames are offered: one, and then none for as many as the pause says.
#[derive(Clone, Copy, Debug, Default, PartialEq, Eq)]
pub struct Pace {
    /// The number of cycles between two of its own; 0 if each is its own.
    pub pause: u8,
    /// The first of its own cycles, at most the pause.
    pub phase: u8,
}

/// The pace of a stream that is offered in each cycle.
pub const EACH_CYCLE: Pace = Pace { pause: 0, phase: 0 };

/// A stream that is held in a cycle.
#[derive(Debug, Drop)]
pub struct Row {
    /// The stream's number, from 0, in the order of accepted admissions.
    pub no: u32,
    pub name: Name,
    /// The reservation, in octets in each of the stream's own cycles, as its gates count them.
    pub octets: u32,
    /// How many octets of each frame the gates of its domain don't count. The stream's cost includes them.
    pub overhead: u32,
    pub pace: Pace,
    /// The hops of its tree, in the order in which their links first occur in the branches.
    pub tree: Tree,
    /// The first cycle in which the stream is live.
    pub admitted: Cycle,
    /// The first cycle in which it is no longer live, if it was withdrawn.
    pub withdrawn: Option<Cycle>,
}
