//! What the starts of a run are computed from.

use crate::offers::Entering;
use crate::queues::LaidHop;
use cqf_model::Link;

/// What the starts of a run are computed from.
#[derive(Debug, Drop)]
pub struct Basis {
    /// The links of the domain, by number.
    pub links: Vec<Link>,
    /// The length of a cycle, in nanoseconds.
    pub cycle_time: u32,
    /// How long a link is kept idle before a cycle ends, in nanoseconds, if it has no guard band of its own.
    pub guard: u32,
    /// The number of cycles of the run.
    pub cycles: u32,
    /// The hops of the streams' trees.
    pub branches: Vec<LaidHop>,
    /// The offers in order of instant, each with the hops by which it enters.
    pub offers: Vec<Entering>,
}
