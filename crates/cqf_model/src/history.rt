//! The answers of an admission controller.
ghost use Rattle.std.specs.Prelude.{◌≡◌};

use cqf_units::{Cycle, Memory};
use thiserror::Error;

/// An accepted call: the stream's number, from 0 in the order of accepted admissions, and the cycle from which the call
/// has effect.
#[derive(Clone, Copy, Debug, PartialEq, Eq)]
pub struct Receipt {
    pub no: u32,
    pub effect: Cycle,
}

/// Why a call is refused. Positions are those of the nodes, from 0, counted through the branches as one list.
#[derive(Clone, Copy, Debug, PartialEq, Eq, Error)]
pub enum Refused {
    /// The name doesn't have the form of a name.
    BadName,
    /// The reservation isn't 64 to 1,000,000 octets.
    BadOctets,
    /// The period of the stream doesn't divide 80, or the phase isn't less than the period.
    BadPace,
    /// The domain has no node with the name at this position.
    UnknownNode(usize),
    /// At this position the nodes of a branch aren't a path: the branch is empty or begins with a station, there is no
    /// link from the node before, the last node is a bridge, or there is a node too many. A request without a branch is
    /// broken at 0.
    BrokenPath(usize),
    /// The node at this position occurred earlier in its branch.
    LoopingPath(usize),
    /// The branch of this number, from 0, doesn't form a tree with one before it: it begins at another bridge, is the
    /// same as an earlier branch, or has a node of an earlier branch, but after other nodes.
    NotATree(usize),
    /// The tree has more hops than the limits allow.
    TooManyHops,
    /// A held stream has the name.
    NameHeld,
    /// As many streams are held as the limits allow.
    TooManyStreams,
    /// The first link of the tree, in its order, whose budget has fewer octets left than the stream costs, and the octets left.
    /// What a link has left is the least over the cycles in which the stream uses it.
    BudgetShort { link: u16, left: u32 },
    /// No held stream has the name.
    NotHeld,
    /// The stream with the name was withdrawn before.
    AlreadyWithdrawn,
    /// The history has the most calls that it may have. The call isn't entered.
    HistoryFull,
    /// An allocation failed. The call isn't entered.
    Memory,
}

impl From<Memory> for Refused {
    ghost use Rattle.cqf_model.specs.declared.history.Refused.TheVariants as variant;

    ghost from_gives = { λ _ fault. fault ≡ variant.Memory };

    fn from(_refused: Memory) -> Refused {
        Refused::Memory
    }
}

/// The answer to a call in a history.
#[derive(Clone, Copy, Debug, PartialEq, Eq)]
pub enum Reply {
    Accepted(Receipt),
    Refused(Refused),
    /// A cycle was closed to changes.
    Sealed,
}
