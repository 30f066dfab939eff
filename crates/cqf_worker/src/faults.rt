//! Why a run on threads gives no account.
ghost use Rattle.std.specs.Prelude.{◌≡◌, IfNone, Some, true};
ghost use Rattle.cqf_worker.specs.Faults.{IsClean, conduct_fault_text, first_noted, is_before, is_noted, rank};

use cqf_units::Memory;
use std::alloc::AllocFailed;
use std::fmt;
use thiserror::Error;

/// Why a run on threads gives no account. If several causes were noted by its threads, or arise when the run is closed, the fault is the
/// first in the order Spawn, Memory, ChannelLost, DeskDisagrees. A run that can't begin, or whose threads failed, is not closed. A fault
/// prints as its name.
#[derive(Clone, Copy, Debug, PartialEq, Eq, Drop, Error)]
pub enum ConductFault {
    /// An allocation failed.
    Memory,
    /// The desk's history isn't that of its seats, or had no room for a call or a Seal.
    DeskDisagrees,
    /// An end of a pipe was gone, though no thread has failed.
    ChannelLost,
    /// A thread couldn't be started, or there are more administrators than a desk has seats for.
    Spawn,
}

impl fmt::Display for ConductFault {
    ghost output = { λ fault. Some (conduct_fault_text fault) };

    fn fmt<W: fmt::Write>(&self, f: &mut fmt::Formatter<W>) -> fmt::Result {
        match self {
            ConductFault::Memory => f.write_str("Memory"),
            ConductFault::DeskDisagrees => f.write_str("DeskDisagrees"),
            ConductFault::ChannelLost => f.write_str("ChannelLost"),
            ConductFault::Spawn => f.write_str("Spawn"),
        }
    }
}

/// Converts a failed allocation into a fault.
impl From<Memory> for ConductFault {
    ghost use Rattle.cqf_worker.specs.declared.faults.ConductFault.TheVariants as variant;

    ghost from_gives = { λ _ fault. fault ≡ variant.Memory };

    fn from(_refused: Memory) -> ConductFault {
        ConductFault::Memory
    }
}

/// Converts a failed allocation of a value into a fault.
impl<T: Drop> From<AllocFailed<T>> for ConductFault {
    ghost use Rattle.cqf_worker.specs.declared.faults.ConductFault.TheVariants as variant;

    ghost from_gives = { λ _ fault. fault ≡ variant.Memory };

    fn from(_refused: AllocFailed<T>) -> ConductFault {
        ConductFault::Memory
    }
}

/// Returns a fault's rank in the order in which faults are reported.
fn index_of(fault: ConductFault) -> u8
    ensures { result ≡ rank fault }
{
    match fault {
        ConductFault::Spawn => 0,
        ConductFault::Memory => 1,
        ConductFault::ChannelLost => 2,
        ConductFault::DeskDisagrees => 3,
    }
}

/// Returns whether a fault is reported before another one.
fn comes_before(one: ConductFault, other: ConductFault) -> bool
    ensures { result ≡ is_before one other }
{
    index_of(one) < index_of(other)
}

/// What has gone wrong in a run so far.
#[derive(Clone, Copy, Debug, Drop)]
pub struct Faults {
    /// The fault to report.
    pub first: Option<ConductFault>,
    /// Whether a thread ended early for no cause of its own.
    pub is_stopped: bool,
}

impl Faults {
    /// Returns the state in which nothing has gone wrong.
    pub fn none() -> Faults
        ensures { IsClean result }
    {
        Faults {
            first: None,
            is_stopped: false,
        }
    }

    /// Notes a fault. Of this fault and the one noted before, keeps the one that comes first in the order of [`ConductFault`], and the
    /// earlier one if they have the same rank.
    pub fn note(&mut self, fault: ConductFault)
        ensures first { self.new.first ≡ Some (first_noted self.old.first fault) }
        ensures stopped { self.new.is_stopped ≡ self.old.is_stopped }
    {
        self.first = match self.first {
            Some(first) if !comes_before(fault, first) => Some(first),
            _ => Some(fault),
        };
    }

    /// Notes that a thread ended early for no cause of its own.
    pub fn note_stop(&mut self)
        ensures { self.new ≡ record self.old { is_stopped = true } }
    {
        self.is_stopped = true;
    }

    /// Returns the fault to report, if anything has gone wrong. If no thread failed but one ended early, this is `ChannelLost`.
    pub fn reported(self) -> Option<ConductFault>
        ensures reported { result ≡ is_noted self }
        ensures clean { IfNone result (IsClean self) }
    {
        match self.first {
            Some(first) => Some(first),
            None if self.is_stopped => Some(ConductFault::ChannelLost),
            None => None,
        }
    }
}
