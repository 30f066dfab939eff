//! The rules of an output port, and the arrivals that it has taken.

use crate::spans::Schedule;
use cqf_model::Arrival;
use cqf_units::Rate;

/// The rules of an output port, and the arrivals that it has taken. What may start depends only on these and on what
/// has started.
#[derive(Clone, Copy)]
pub(crate) struct Egress<'p> {
    /// The gate control list.
    pub(crate) schedule: &'p Schedule,
    /// The rate of the link.
    pub(crate) rate: Rate,
    /// The frames that have arrived at the port, in order.
    pub(crate) arrivals: &'p [Arrival],
}
