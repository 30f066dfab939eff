//! The compiler: the configuration of a domain and its streams.
//!
//! - [`compile`] makes a [`Plan`] of a domain: the gate list of the port of each link (Qbv).
//! - [`gate_of`] returns the gate of a stream at a bridge of its tree (Qci, PSFP). A stream that is offered in each
//!   cycle has the same gate at each bridge; the gate of a stream that pauses is later by as many cycles as the hop
//!   number there says. [`port_list_of`] returns the gate list of the port of a link.
//! - [`write_config`] returns both as one text, and [`put_config`] puts it on a writer; [`put_gates`] puts an entry of a
//!   gate list. `bridges_of` returns the bridges at which a stream has a gate, in the order of its tree. [`leaves`]
//!   returns whether a link leaves a bridge, and [`first_hop`] the hop by which a stream first does so.
//! - [`written_gates_are_the_networks`] is a law, a function that does nothing: the gate that is written for a stream
//!   at a bridge passes what the network's gate there passes.
//!
//! In even cycles a stream's gate gives its frames class 6 while the ports send class 7, and in odd cycles the other
//! way round: so each frame waits for the cycle after the one in which it came (IEEE 802.1Q, Annex T).
//!
//! The configuration of one link, and of a stream of 1,500 octets in each cycle over it:
//!
//! ```text
//! link a>s
//! BF 120000
//! 00 5000
//! 7F 120000
//! 00 5000
//! stream 0 x bridge a
//! open 6 125000 1500
//! open 7 125000 1500
//! ```
//!
//! If it is offered in one cycle of four, first in cycle 1, consecutive cycles in which nothing passes are one entry:
//!
//! ```text
//! stream 0 x bridge a
//! closed 125000
//! open 7 125000 1500
//! closed 250000
//! ```
#![tactic(auto)]

mod config;
mod fronts;
mod gates;
mod leaving;
mod plan;
mod written_gates;

pub use config::{put_config, put_gates, write_config};
pub use gates::{gate_of, port_list_of};
pub use leaving::{first_hop, leaves};
pub use plan::{Plan, compile};
pub use written_gates::written_gates_are_the_networks;
