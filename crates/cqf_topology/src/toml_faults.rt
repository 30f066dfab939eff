//! Why a text is refused.
ghost use Rattle.std.specs.Prelude.{◌≡◌, Some};
ghost use Rattle.cqf_topology.specs.TomlFaults.{toml_fault_text};

use crate::Key;
use cqf_units::Memory;
use std::alloc::AllocFailed;
use std::fmt;
use thiserror::Error;

/// Why a TOML text is refused. The checks are made in the order of the variants, each over the whole text before the next. Nothing is kept
/// of a refused text. A fault prints as its name, followed by its key if it has one.
#[derive(Clone, Copy, Debug, PartialEq, Eq, Error)]
pub enum TomlFault {
    /// The text isn't TOML, isn't UTF-8, or nests deeper than the 80 levels that the `toml` crate reads.
    NotToml,
    /// The first key in reading order that is absent.
    Missing(Key),
    /// The first key in reading order whose value doesn't have the required form.
    BadValue(Key),
    /// An allocation failed.
    Memory,
}

impl fmt::Display for TomlFault {
    ghost output = { λ fault. Some (toml_fault_text fault) };

    fn fmt<W: fmt::Write>(&self, f: &mut fmt::Formatter<W>) -> fmt::Result {
        match self {
            TomlFault::NotToml => f.write_str("NotToml"),
            TomlFault::Missing(key) => write!(f, "Missing {key}"),
            TomlFault::BadValue(key) => write!(f, "BadValue {key}"),
            TomlFault::Memory => f.write_str("Memory"),
        }
    }
}

/// Converts a failed allocation into a fault.
impl From<Memory> for TomlFault {
    ghost use Rattle.cqf_topology.specs.declared.toml_faults.TomlFault.TheVariants as variant;

    ghost from_gives = { λ _ fault. fault ≡ variant.Memory };

    fn from(_refused: Memory) -> TomlFault {
        TomlFault::Memory
    }
}

/// Converts a failed allocation of a value into a fault.
impl<T: Drop> From<AllocFailed<T>> for TomlFault {
    ghost use Rattle.cqf_topology.specs.declared.toml_faults.TomlFault.TheVariants as variant;

    ghost from_gives = { λ _ fault. fault ≡ variant.Memory };

    fn from(_refused: AllocFailed<T>) -> TomlFault {
        TomlFault::Memory
    }
}
