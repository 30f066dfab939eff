//! What the threads of a run do between their steps.
use cqf_units::Cycle;

/// Called by administrators' threads before each call and by bridges' threads before each step. A caller implements it to observe the
/// threads or to delay them. Several threads call it at once, and none of them holds a lock then. Administrators and bridges are numbered
/// from 0.
pub trait Pace: Sync {
    /// Called before an administrator makes its command at the index `index`, from 0.
    fn before_call(&self, admin: usize, index: usize);

    /// Called when a bridge has received the table of this cycle and is about to take it.
    fn before_step(&self, bridge: usize, cycle: Cycle);
}

/// The pace at which each thread goes on at once.
#[derive(Clone, Copy, Debug)]
pub struct Free;

impl Pace for Free {
    fn before_call(&self, _admin: usize, _index: usize) {}

    fn before_step(&self, _bridge: usize, _cycle: Cycle) {}
}
