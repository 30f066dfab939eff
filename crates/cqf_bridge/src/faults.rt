//! Why a bridge refuses a call.
ghost use Rattle.std.specs.Prelude.{◌≡◌, Some};
ghost use Rattle.cqf_bridge.specs.Faults.{text_of_fault};

use cqf_units::Memory;
use std::fmt;
use thiserror::Error;

/// Why a bridge refuses a call: the first of these that applies, in this order. But `Memory` may also be returned before a frame over its
/// octets is reached. A fault prints as its name, followed by the frame's number if it has one.
#[derive(Clone, Copy, Debug, PartialEq, Eq, Drop, Error)]
pub enum BridgeFault {
    /// An earlier call ended with `OverOctets` or `Memory`. Nothing is changed.
    Spent,
    /// The cycle isn't the one to be sent next, or to be received next, or the table is of another cycle. Nothing is changed.
    WrongCycle,
    /// The batches aren't exactly one of the cycle for each incoming link, by number, or they have a frame that the table and the link
    /// exclude, or that isn't whole here within the cycle. Nothing is changed.
    StrangeBatch,
    /// The frame of this number arrived by a link and exceeds the octets that its stream's gate has left. It is the first such frame in the
    /// order in which frames are taken. The bridge is spent.
    OverOctets(u32),
    /// An allocation failed. The bridge is spent.
    Memory,
}

impl fmt::Display for BridgeFault {
    ghost output = { λ fault. Some (text_of_fault fault) };

    fn fmt<W: fmt::Write>(&self, f: &mut fmt::Formatter<W>) -> fmt::Result {
        match self {
            BridgeFault::Spent => f.write_str("Spent"),
            BridgeFault::WrongCycle => f.write_str("WrongCycle"),
            BridgeFault::StrangeBatch => f.write_str("StrangeBatch"),
            BridgeFault::OverOctets(frame) => write!(f, "OverOctets {frame}"),
            BridgeFault::Memory => f.write_str("Memory"),
        }
    }
}

/// Converts a failed allocation into a fault.
impl From<Memory> for BridgeFault {
    ghost use Rattle.cqf_bridge.specs.declared.faults.BridgeFault.TheVariants as variant;

    ghost from_gives = { λ _ fault. fault ≡ variant.Memory };

    fn from(_refused: Memory) -> BridgeFault {
        BridgeFault::Memory
    }
}
