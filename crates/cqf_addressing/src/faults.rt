//! Why a text is refused for its keys of addressing.
ghost use Rattle.std.specs.Prelude.{◌≡◌, Some};
ghost use Rattle.cqf_addressing.specs.Faults.{addressing_fault_text};

use crate::AddressKey;
use cqf_topology::TomlFault;
use cqf_units::Memory;
use std::alloc::AllocFailed;
use std::fmt;
use thiserror::Error;

/// Why a domain text or a streams text is refused for its keys of addressing. The checks are made in the order of the variants, each over
/// the whole text before the next. A fault prints as its name, followed by its values.
#[derive(Clone, Copy, Debug, PartialEq, Eq, Error)]
pub enum AddressingFault {
    /// A fault that doesn't concern these keys, including a failed allocation.
    Text(TomlFault),
    /// The first key of addressing, in reading order, whose value doesn't have the required form.
    BadValue(AddressKey),
    /// The first stream whose gate has the same index as the gate of an earlier stream: its position, from 1, and the index.
    GateTwice(usize, usize),
}

impl fmt::Display for AddressingFault {
    ghost output = { λ fault. Some (addressing_fault_text fault) };

    fn fmt<W: fmt::Write>(&self, f: &mut fmt::Formatter<W>) -> fmt::Result {
        match self {
            AddressingFault::Text(fault) => write!(f, "{fault}"),
            AddressingFault::BadValue(key) => write!(f, "BadValue {key}"),
            AddressingFault::GateTwice(stream, gate) => write!(f, "GateTwice {stream} {gate}"),
        }
    }
}

/// Converts a failed allocation into a fault.
impl From<Memory> for AddressingFault {
    ghost use Rattle.cqf_topology.specs.declared.toml_faults.TomlFault.TheVariants as toml;
    ghost use Rattle.cqf_addressing.specs.declared.faults.AddressingFault.TheVariants as variant;

    ghost from_gives = { λ _ fault. fault ≡ variant.Text toml.Memory };

    fn from(_refused: Memory) -> AddressingFault {
        AddressingFault::Text(TomlFault::Memory)
    }
}

/// Converts a failed allocation of a value into a fault.
impl<T: Drop> From<AllocFailed<T>> for AddressingFault {
    ghost use Rattle.cqf_topology.specs.declared.toml_faults.TomlFault.TheVariants as toml;
    ghost use Rattle.cqf_addressing.specs.declared.faults.AddressingFault.TheVariants as variant;

    ghost from_gives = { λ _ fault. fault ≡ variant.Text toml.Memory };

    fn from(_refused: AllocFailed<T>) -> AddressingFault {
        AddressingFault::Text(TomlFault::Memory)
    }
}

/// Converts a fault that doesn't concern the keys of addressing.
impl From<TomlFault> for AddressingFault {
    ghost use Rattle.cqf_addressing.specs.declared.faults.AddressingFault.TheVariants as variant;

    ghost from_gives = { λ fault given. given ≡ variant.Text fault };

    fn from(fault: TomlFault) -> AddressingFault {
        AddressingFault::Text(fault)
    }
}
