//! Why a text of streams with traffic is refused.
ghost use Rattle.std.specs.Prelude.{◌≡◌, Some};
ghost use Rattle.cqf_traffic.specs.FlowsText.{flows_fault_text};

use crate::TrafficKey;
use cqf_topology::StreamsFault;
use cqf_units::Memory;
use std::alloc::AllocFailed;
use std::fmt;
use thiserror::Error;

/// Why a text of streams with traffic is refused: for the reasons of a text of streams, or for a key of traffic. A missing key is reported
/// before any bad value. A fault prints as its name, followed by its key if it has one.
#[derive(Clone, Copy, Debug, PartialEq, Eq, Error)]
pub enum FlowsFault {
    /// A fault that doesn't concern traffic, including a failed allocation.
    Streams(StreamsFault),
    /// The first key that a stream's traffic must have and that is absent.
    Missing(TrafficKey),
    /// The first key of a stream's traffic whose value doesn't have the required form.
    BadValue(TrafficKey),
    /// The value at `in-step` of a stream in a network file isn't a boolean.
    BadInStep,
    /// The value at `least-size` of a stream is no size of a frame, or is above the greatest that its traffic has.
    BadLeastSize,
}

impl fmt::Display for FlowsFault {
    ghost output = { λ fault. Some (flows_fault_text fault) };

    fn fmt<W: fmt::Write>(&self, f: &mut fmt::Formatter<W>) -> fmt::Result {
        match self {
            FlowsFault::Streams(fault) => write!(f, "{fault}"),
            FlowsFault::Missing(key) => write!(f, "Missing {key}"),
            FlowsFault::BadValue(key) => write!(f, "BadValue {key}"),
            FlowsFault::BadInStep => f.write_str("BadValue in-step"),
            FlowsFault::BadLeastSize => f.write_str("BadValue least-size"),
        }
    }
}

/// Converts a failed allocation into a fault.
impl From<Memory> for FlowsFault {
    ghost use Rattle.cqf_topology.specs.declared.toml_faults.TomlFault.TheVariants as toml;
    ghost use Rattle.cqf_traffic.specs.declared.faults.FlowsFault.TheVariants as variant;

    ghost from_gives = { λ _ fault. fault ≡ variant.Streams toml.Memory };

    fn from(_refused: Memory) -> FlowsFault {
        FlowsFault::Streams(StreamsFault::Memory)
    }
}

/// Converts a failed allocation of a value into a fault.
impl<T: Drop> From<AllocFailed<T>> for FlowsFault {
    ghost use Rattle.cqf_topology.specs.declared.toml_faults.TomlFault.TheVariants as toml;
    ghost use Rattle.cqf_traffic.specs.declared.faults.FlowsFault.TheVariants as variant;

    ghost from_gives = { λ _ fault. fault ≡ variant.Streams toml.Memory };

    fn from(_refused: AllocFailed<T>) -> FlowsFault {
        FlowsFault::Streams(StreamsFault::Memory)
    }
}

/// Converts a fault that doesn't concern traffic.
impl From<StreamsFault> for FlowsFault {
    ghost use Rattle.cqf_traffic.specs.declared.faults.FlowsFault.TheVariants as variant;

    ghost from_gives = { λ fault given. given ≡ variant.Streams fault };

    fn from(fault: StreamsFault) -> FlowsFault {
        FlowsFault::Streams(fault)
    }
}
