//! Why the domain of a network file is refused.
ghost use Rattle.std.specs.Prelude.{◌≡◌, Some};
ghost use Rattle.cqf_network.specs.Faults.{network_fault, network_fault_text};

use cqf_topology::{DomainFault, TomlFault};
use cqf_units::Memory;
use std::alloc::AllocFailed;
use std::fmt;
use thiserror::Error;

/// Why the domain of a network file is refused: for a reason that can also apply to a plan's domain, or for one that
/// only a network file has. A fault prints as its name, followed by its value.
#[derive(Debug, PartialEq, Eq, Drop, Error)]
pub enum NetworkFault {
    /// A fault that a plan's domain can have too, among them `Memory`. A link is named by the index of its element
    /// among the links, from 0.
    Domain(DomainFault),
    /// The value at `duplex` of a link isn't a boolean.
    BadDuplex,
    /// The value at `other` of a link isn't an integer from 64 to 1,522.
    BadOther,
    /// The first link that has `other` and leaves no station in any of its directions, by the index of its element in
    /// `links`, from 0.
    NoAccessLink(usize),
}

impl fmt::Display for NetworkFault {
    ghost output = { λ fault. Some (network_fault_text fault) };

    fn fmt<W: fmt::Write>(&self, f: &mut fmt::Formatter<W>) -> fmt::Result {
        match self {
            NetworkFault::Domain(fault) => write!(f, "{fault}"),
            NetworkFault::BadDuplex => f.write_str("BadValue duplex"),
            NetworkFault::BadOther => f.write_str("BadValue other"),
            NetworkFault::NoAccessLink(element) => write!(f, "NoAccessLink {element}"),
        }
    }
}

/// Converts a fault of reading into a fault of a network file.
impl From<TomlFault> for NetworkFault {
    ghost from_gives = { λ early fault. fault ≡ network_fault early };

    fn from(early: TomlFault) -> NetworkFault {
        NetworkFault::Domain(DomainFault::from(early))
    }
}

/// Converts a fault of a plan's domain into a fault of a network file.
impl From<DomainFault> for NetworkFault {
    ghost use Rattle.cqf_network.specs.declared.faults.NetworkFault.TheVariants as variant;

    ghost from_gives = { λ found fault. fault ≡ variant.Domain found };

    fn from(found: DomainFault) -> NetworkFault {
        NetworkFault::Domain(found)
    }
}

/// Converts a failed allocation into a fault.
impl From<Memory> for NetworkFault {
    ghost use Rattle.cqf_topology.specs.declared.faults.DomainFault.TheVariants as domain;
    ghost use Rattle.cqf_network.specs.declared.faults.NetworkFault.TheVariants as variant;

    ghost from_gives = { λ _ fault. fault ≡ variant.Domain domain.Memory };

    fn from(_refused: Memory) -> NetworkFault {
        NetworkFault::Domain(DomainFault::Memory)
    }
}

/// Converts a failed allocation of a value into a fault.
impl<T: Drop> From<AllocFailed<T>> for NetworkFault {
    ghost use Rattle.cqf_topology.specs.declared.faults.DomainFault.TheVariants as domain;
    ghost use Rattle.cqf_network.specs.declared.faults.NetworkFault.TheVariants as variant;

    ghost from_gives = { λ _ fault. fault ≡ variant.Domain domain.Memory };

    fn from(_refused: AllocFailed<T>) -> NetworkFault {
        NetworkFault::Domain(DomainFault::Memory)
    }
}
