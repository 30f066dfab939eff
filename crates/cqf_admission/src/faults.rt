//! Why a script is refused.
ghost use Rattle.std.specs.Prelude.{◌≡◌, Some};
ghost use Rattle.cqf_admission.specs.Faults.{script_fault_text};

use cqf_units::Memory;
use std::alloc::AllocFailed;
use std::fmt;
use thiserror::Error;

/// Why a script is refused: the fault of its first line with a fault, with the number of the line, which counts from 1. If a line has
/// several faults, the first in the order of the variants is reported. A fault prints as its name, followed by its line if it has one.
#[derive(Clone, Copy, Debug, PartialEq, Eq, Error)]
pub enum ScriptFault {
    /// The line has none of the forms of a line.
    BadLine(u64),
    /// The line admits a stream that isn't among the requests.
    UnknownStream(u64),
    /// The line is a `seal` after as many `seal` lines as cycles, or call 100,001 among the other calls.
    TooMany(u64),
    /// An allocation failed.
    Memory,
}

impl fmt::Display for ScriptFault {
    ghost output = { λ fault. Some (script_fault_text fault) };

    fn fmt<W: fmt::Write>(&self, f: &mut fmt::Formatter<W>) -> fmt::Result {
        match self {
            ScriptFault::BadLine(line) => write!(f, "BadLine {line}"),
            ScriptFault::UnknownStream(line) => write!(f, "UnknownStream {line}"),
            ScriptFault::TooMany(line) => write!(f, "TooMany {line}"),
            ScriptFault::Memory => f.write_str("Memory"),
        }
    }
}

/// Converts a failed allocation into a fault.
impl From<Memory> for ScriptFault {
    ghost use Rattle.cqf_admission.specs.declared.faults.ScriptFault.TheVariants as variant;

    ghost from_gives = { λ _ fault. fault ≡ variant.Memory };

    fn from(_refused: Memory) -> ScriptFault {
        ScriptFault::Memory
    }
}

/// Converts a failed allocation of a value into a fault.
impl<T: Drop> From<AllocFailed<T>> for ScriptFault {
    ghost use Rattle.cqf_admission.specs.declared.faults.ScriptFault.TheVariants as variant;

    ghost from_gives = { λ _ fault. fault ≡ variant.Memory };

    fn from(_refused: AllocFailed<T>) -> ScriptFault {
        ScriptFault::Memory
    }
}
