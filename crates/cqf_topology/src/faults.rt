//! Why a domain text is refused.
ghost use Rattle.std.specs.Prelude.{◌≡◌, Some};
ghost use Rattle.cqf_topology.specs.Faults.{domain_fault_text};
ghost use Rattle.cqf_topology.specs.DomainText.{domain_fault};

use crate::{Key, TomlFault};
use cqf_units::{Memory, Name as NodeName};
use std::alloc::AllocFailed;
use std::fmt;
use thiserror::Error;

/// Why a domain text is refused. The checks are made in the order of the variants, each over the whole text before the next. Links are
/// numbered from 0. Nothing is kept of a refused text. A fault prints as its name, followed by its value if it has one.
#[derive(Debug, PartialEq, Eq, Drop, Error)]
pub enum DomainFault {
    /// The text isn't TOML, isn't UTF-8, or nests deeper than the 80 levels that the `toml` crate reads.
    NotToml,
    /// The first key in reading order that is absent.
    Missing(Key),
    /// The first key in reading order whose value doesn't have the required form.
    BadValue(Key),
    /// The first name, bridges before stations, that occurred earlier.
    NameTaken(NodeName),
    /// The first `from` that names no bridge, or `to` that names no node other than the link's `from`.
    UnknownName(NodeName),
    /// The first link with the same ends as an earlier link.
    LinkTwice(usize),
    /// The guard band isn't shorter than the cycle.
    GuardTooLong,
    /// The first link whose own guard band isn't shorter than the cycle.
    LinkGuardTooLong(usize),
    /// The first link on which the greatest delay plus the distance of clocks isn't less than the guard band.
    DelayTooLong(usize),
    /// The first link on which the gap of 12 octets after a frame takes longer than the guard band.
    GapTooLong(usize),
    /// More bridges, stations or links than the limits allow. If none are set, these are 32 bridges, 64 stations and 64 links.
    TooMany,
    /// The first link on which clocks can be further apart than a shortest frame, with its preamble, and the least delay take together.
    SyncTooLong(usize),
    /// An allocation failed.
    Memory,
}

impl fmt::Display for DomainFault {
    ghost output = { λ fault. Some (domain_fault_text fault) };

    fn fmt<W: fmt::Write>(&self, f: &mut fmt::Formatter<W>) -> fmt::Result {
        match self {
            DomainFault::NotToml => f.write_str("NotToml"),
            DomainFault::Missing(key) => write!(f, "Missing {key}"),
            DomainFault::BadValue(key) => write!(f, "BadValue {key}"),
            DomainFault::NameTaken(name) => write!(f, "NameTaken {name}"),
            DomainFault::UnknownName(name) => write!(f, "UnknownName {name}"),
            DomainFault::LinkTwice(link) => write!(f, "LinkTwice {link}"),
            DomainFault::GuardTooLong => f.write_str("GuardTooLong"),
            DomainFault::LinkGuardTooLong(link) => write!(f, "LinkGuardTooLong {link}"),
            DomainFault::DelayTooLong(link) => write!(f, "DelayTooLong {link}"),
            DomainFault::GapTooLong(link) => write!(f, "GapTooLong {link}"),
            DomainFault::TooMany => f.write_str("TooMany"),
            DomainFault::SyncTooLong(link) => write!(f, "SyncTooLong {link}"),
            DomainFault::Memory => f.write_str("Memory"),
        }
    }
}

/// Converts a fault of reading into a fault of a domain text.
impl From<TomlFault> for DomainFault {
    ghost from_gives = { λ early fault. fault ≡ domain_fault early };

    fn from(early: TomlFault) -> DomainFault {
        match early {
            TomlFault::NotToml => DomainFault::NotToml,
            TomlFault::Missing(key) => DomainFault::Missing(key),
            TomlFault::BadValue(key) => DomainFault::BadValue(key),
            TomlFault::Memory => DomainFault::Memory,
        }
    }
}

/// Converts a failed allocation into a fault.
impl From<Memory> for DomainFault {
    ghost use Rattle.cqf_topology.specs.declared.faults.DomainFault.TheVariants as variant;

    ghost from_gives = { λ _ fault. fault ≡ variant.Memory };

    fn from(_refused: Memory) -> DomainFault {
        DomainFault::Memory
    }
}

/// Converts a failed allocation of a value into a fault.
impl<T: Drop> From<AllocFailed<T>> for DomainFault {
    ghost use Rattle.cqf_topology.specs.declared.faults.DomainFault.TheVariants as variant;

    ghost from_gives = { λ _ fault. fault ≡ variant.Memory };

    fn from(_refused: AllocFailed<T>) -> DomainFault {
        DomainFault::Memory
    }
}
