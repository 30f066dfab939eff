//! Streams at their edge bridges: what they promise there, by their talkers' promises at the hand-over and by their stations' access links.
//!
//! - **Entrances.** A stream's talker is a bridge, or a station with an access link: [`Entrance`].
//! - **Access links.** [`Handed`] is what a stream hands to a link. The link's bound, an [`AccessBound`], is found from all that is handed to it.
//!   Link, stream and bound make a [`Passage`].
//! - **At the edge.** [`AccessTimes`] has the times from the hand-over of a frame until it is whole at its edge bridge. [`edge_flows`] returns the
//!   streams of a network that has nothing open, [`edge_streams`] those of a network that is to be planned: with their promises at their edge
//!   bridges, and with what is left there of their deadlines. An [`EdgeFault`] is the first fault.
//! - **Laws**, functions that do nothing: the streams that are read from a text have what these functions require
//!   ([`read_streams_are_written`]), and the promises at edge bridges are those that `cqf_access` proves ([`streams_come_by_links`]).
//!
//! ```text
//! plc has an access link to s1 of 100 Mb/s with a delay of 900 ns, and hands three streams to it, each a frame of 180 octets in 125,000 ns
//! a frame takes 16,000 ns of the link with its gap, so 48,000 ns is the bound, and each waits 32,000 ns at most
//! it is whole at s1 from 15,940 ns to 47,940 ns after its hand-over
//! there its stream has a jitter of 32,000 ns, and begins 15,940 ns later
//! ```
#![tactic(auto)]

mod edge;
mod entrances;
mod faults;
mod flows;
mod laws;
mod streams;
mod uses;

pub use edge::{AccessTimes, Passage};
pub use entrances::Entrance;
pub use faults::{EdgeFault, TalkerFault};
pub use flows::{EdgeFlows, edge_flows, flows_at_edges};
pub use laws::{read_streams_are_written, streams_come_by_links};
pub use streams::{EdgeStreams, edge_streams};
pub use uses::{AccessBound, Handed};
