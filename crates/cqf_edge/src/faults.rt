//! Faults of streams and access links.
ghost use Rattle.std.specs.Prelude.{◌≡◌, ◌++◌, Some, codes};
ghost use Rattle.cqf_edge.specs.Faults.{edge_fault_text, talker_fault_text};

use cqf_units::{Memory, Name};
use std::alloc::AllocFailed;
use std::fmt;
use thiserror::Error;

/// Why a stream doesn't enter the network as its text says.
#[derive(Clone, Copy, Debug, PartialEq, Eq, Error)]
pub enum TalkerFault {
    /// Its talker is neither a bridge, without another bridge in the text, nor a station with such an access link.
    NoTalker,
    /// Its talker is a station with several access links, and its text names none of them.
    TwoAccessLinks,
    /// A branch doesn't begin at the bridge where its talker's streams enter.
    OtherEdge,
    /// The branches don't end at its listeners, in the same order.
    OtherListeners,
}

/// The first fault of a network's streams and access links.
#[derive(Debug, PartialEq, Eq, Drop, Error)]
pub enum EdgeFault {
    /// The name of the first stream that can't enter the network as its keys say, and why.
    Talker(Name, TalkerFault),
    /// The station of the first access link without a bound up to 10^9 ns.
    AccessFull(Name),
    /// An allocation failed.
    Memory,
}

impl fmt::Display for TalkerFault {
    ghost output = { λ fault. Some (talker_fault_text fault) };

    fn fmt<W: fmt::Write>(&self, f: &mut fmt::Formatter<W>) -> fmt::Result {
        match self {
            TalkerFault::NoTalker => f.write_str("NoTalker"),
            TalkerFault::TwoAccessLinks => f.write_str("TwoAccessLinks"),
            TalkerFault::OtherEdge => f.write_str("OtherEdge"),
            TalkerFault::OtherListeners => f.write_str("OtherListeners"),
        }
    }
}

impl fmt::Display for EdgeFault {
    ghost output = { λ fault. Some (edge_fault_text fault) };

    fn fmt<W: fmt::Write>(&self, f: &mut fmt::Formatter<W>) -> fmt::Result {
        match self {
            EdgeFault::Talker(name, fault) => write!(f, "{fault} {name}"),
            EdgeFault::AccessFull(station) => write!(f, "AccessFull {station}"),
            EdgeFault::Memory => f.write_str("Memory"),
        }
    }
}

/// Converts a failed allocation into a fault.
impl From<Memory> for EdgeFault {
    ghost use Rattle.cqf_edge.specs.declared.faults.EdgeFault.TheVariants as variant;

    ghost from_gives = { λ _ fault. fault ≡ variant.Memory };

    fn from(_refused: Memory) -> EdgeFault {
        EdgeFault::Memory
    }
}

/// Converts a failed allocation of a value into a fault.
impl<T: Drop> From<AllocFailed<T>> for EdgeFault {
    ghost use Rattle.cqf_edge.specs.declared.faults.EdgeFault.TheVariants as variant;

    ghost from_gives = { λ _ fault. fault ≡ variant.Memory };

    fn from(_refused: AllocFailed<T>) -> EdgeFault {
        EdgeFault::Memory
    }
}
