//! Why a run returns no book.
ghost use Rattle.std.specs.Prelude.{◌≡◌, Some};
ghost use Rattle.cqf_plain.specs.Faults.{text_of_run_fault};

use cqf_units::Memory;
use std::fmt;
use thiserror::Error;

/// Why a run returns no book: the first of these that applies, in this order. But `Memory` may also be returned before a lost frame is
/// reached. A fault prints as its name, followed by the frame's number if it has one.
#[derive(Clone, Copy, Debug, PartialEq, Eq, Drop, Error)]
pub enum RunFault {
    /// There isn't exactly one table for each cycle, numbered from 0.
    WrongTables,
    /// The frame of this number arrived at a bridge by a link, and its stream has no row there by which it goes on, or its stream's gate
    /// has fewer octets left. It is the first such frame of the run: by cycle, then by bridge, then in the order in which the bridge takes
    /// frames. This never happens with the tables of one history.
    Inside(u32),
    /// An allocation failed.
    Memory,
}

impl fmt::Display for RunFault {
    ghost output = { λ fault. Some (text_of_run_fault fault) };

    fn fmt<W: fmt::Write>(&self, f: &mut fmt::Formatter<W>) -> fmt::Result {
        match self {
            RunFault::WrongTables => f.write_str("WrongTables"),
            RunFault::Inside(frame) => write!(f, "Inside {frame}"),
            RunFault::Memory => f.write_str("Memory"),
        }
    }
}

/// Converts a failed allocation into a fault.
impl From<Memory> for RunFault {
    ghost use Rattle.cqf_plain.specs.declared.faults.RunFault.TheVariants as variant;

    ghost from_gives = { λ _ fault. fault ≡ variant.Memory };

    fn from(_refused: Memory) -> RunFault {
        RunFault::Memory
    }
}
