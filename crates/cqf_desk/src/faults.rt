//! Why a desk isn't closed.
ghost use Rattle.std.specs.Prelude.{◌≡◌, Some};
ghost use Rattle.cqf_desk.specs.Faults.{close_fault_text};

use cqf_units::Memory;
use std::fmt;
use thiserror::Error;

/// Why closing a desk returns no history. `SeatMissing` comes before the others. `Memory` is possible even if a seat already disagreed. A
/// fault prints as its name, followed by its value if it has one.
#[derive(Clone, Copy, Debug, PartialEq, Eq, Drop, Error)]
pub enum CloseFault {
    /// The seats aren't those of the desk, one for each number.
    SeatMissing,
    /// The least number of a seat whose calls or tables aren't those of the history; or the number of seats, if the history isn't the
    /// opening part followed by calls of the desk's seats.
    SeatsDisagree(u16),
    /// An allocation failed.
    Memory,
}

impl fmt::Display for CloseFault {
    ghost output = { λ fault. Some (close_fault_text fault) };

    fn fmt<W: fmt::Write>(&self, f: &mut fmt::Formatter<W>) -> fmt::Result {
        match self {
            CloseFault::SeatMissing => f.write_str("SeatMissing"),
            CloseFault::SeatsDisagree(seat) => write!(f, "SeatsDisagree {seat}"),
            CloseFault::Memory => f.write_str("Memory"),
        }
    }
}

/// Converts a failed allocation into a fault.
impl From<Memory> for CloseFault {
    ghost use Rattle.cqf_desk.specs.declared.faults.CloseFault.TheVariants as variant;

    ghost from_gives = { λ _ fault. fault ≡ variant.Memory };

    fn from(_refused: Memory) -> CloseFault {
        CloseFault::Memory
    }
}
