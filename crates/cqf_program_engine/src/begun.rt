//! The result of a run before it waits for a thread.

use crate::prepared::PreparedOutput;
use cqf_model::Limits;

/// A run on threads that isn't made yet: over `cycles` cycles, for an input that is read within `limits`.
#[derive(Clone, Copy, Debug, Drop, PartialEq, Eq)]
pub struct ThreadedRun {
    pub limits: Limits,
    pub cycles: u32,
}

/// The result of a run before it waits for a thread.
#[derive(Drop)]
pub(crate) enum Begun {
    /// Its output, ready to be written.
    Ready(PreparedOutput),
    /// A run on threads, which is left to be made.
    Threads(ThreadedRun),
}
