//! Quantities of cyclic queuing and forwarding: instants, octets, rates, cycles and names, and the time that a frame
//! takes on a link.
//!
//! - [`Nanos`], [`Octets`], [`Rate`] and [`Cycle`] are plain quantities, each with its unit.
//! - [`octet_ticks`], [`time_of`], [`wire`], [`slot`], [`end_of`] and [`idle_from`] time a frame on an IEEE 802.3 link.
//! - [`counted`], [`cost`], [`span`], [`budget`] and [`cycle_of`] are the arithmetic of reservations and cycles.
//! - [`Name`] is the name of a bridge, a station or a stream.
//!
//! ```text
//! end_of(Nanos(10), Octets(64), Rate::Mb1000)    is Nanos(586): (64 + 8) octets of 8 ns after 10
//! idle_from(Nanos(10), Octets(64), Rate::Mb1000) is Nanos(682): the gap of 12 octets is over too
//! idle_from(Nanos(10), Octets(64), Rate::Mb10000) is Nanos(78): 84 octets of 0.8 ns are 67.2 ns, and the port starts at whole ones
//! ```
#![tactic(auto)]

mod names;
mod reservations;
mod timing;

pub use names::Name;
pub use reservations::{Cycle, budget, budget_octets, cost, counted, cycle_of, span};
use std::alloc::AllocError;
pub use timing::{
    Nanos, Octets, Rate, end_of, idle_from, octet_ticks, slot, time_in_ticks, time_of, wire,
};

/// The error of a failed allocation, throughout. A call that returns it has restored what it changed, unless its documentation says
/// otherwise.
pub type Memory = AllocError;
