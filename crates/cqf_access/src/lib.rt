//! A talker's access link: the link by which a station hands frames of its streams over to the network.
//!
//! It sends them one after the other, in any order, and is never idle while one waits. One frame that belongs to no stream may be under way
//! when a frame of a stream is handed over.
//!
//! - **How long a frame waits.** [`access_bound`] computes the least bound from the promises of the station's talkers, if it is small
//!   enough.
//! - **The promise at the edge bridge.** There a stream has more jitter ([`edge_jitter`]): the differences in wait and transit time between
//!   its frames are added. Its grid begins later ([`edge_offset`]), and the jitter on this grid includes the whole wait of a frame
//!   ([`grid_jitter`]). [`Delays`] are those of the link.
//! - **Laws**, functions that do nothing. No frame waits longer than a bound allows ([`access_link_bounds_queueing`]), and one can wait as
//!   long as the least bound allows if that is short ([`least_bound_is_reached`]). A talker that keeps its promise at the hand-over keeps
//!   one at the edge bridge, with more jitter ([`edge_conforms`]). Less jitter is enough, since frames that come together wait for each
//!   other in each interval ([`edge_conforms_closer`]). If the jitter on the grid is small enough, all frames come there in their cycles
//!   ([`edge_keeps_step`]). A talker that keeps to a regular grid keeps its promise ([`grids_conform`]).
//!
//! Three streams have one frame of 180 octets each in 125,000 ns, with no jitter, on a link of 100 Mb/s. A frame takes 16,000 ns with
//! preamble and gap. So the bound is 48,000 ns, and a frame starts at most 32,000 ns after its hand-over. It is whole after 15,040 ns and
//! the link's delay. With a delay of 400 to 600 ns this is 15,440 to 47,640 ns after its hand-over, so its jitter at the edge bridge is
//! 32,200 ns. If all three frames were of one stream, its jitter there would be 200 ns. With a cycle time of 125,000 ns, a talker that
//! hands frames over at the beginning of a cycle is in step if clocks differ by at most 15,440 ns.
#![tactic(auto)]

mod bounds;
mod edge;
mod laws;

pub use bounds::access_bound;
pub use edge::{Delays, edge_jitter, edge_offset, grid_jitter};
pub use laws::{
    access_link_bounds_queueing, edge_conforms, edge_conforms_closer, edge_keeps_step,
    grids_conform, least_bound_is_reached,
};
