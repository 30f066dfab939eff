//! The definitions that this repository is proved against, and the plain data that they are about.
//!
//! `specs/` has one module per subject. It defines what a gate list opens, which starts of a port are legal, and what a
//! stream gate lets pass. It defines what a domain and a history of admissions are, and what the network of a domain
//! does. Definitions that follow IEEE Std 802.1Q-2018 or IEEE Std 802.3 name the clause; the others are this project's
//! own. `src/` has the data, with public fields. It also has the functions about the life and the tree of a [`Row`]'s
//! stream, so that no other code needs to read a [`Hop`]. The crate that works with a type re-exports it.
//!
//! Read `specs/Headline.antt` first: it says what everything is for, and in which order to read the other modules of
//! `specs/`. The text form of a value is defined in the crate that reads or writes it.
#![tactic(auto)]

mod frames;
mod gates;
mod history;
mod limits;
mod pacing;
mod ports;
mod refusals;
mod rows;
mod topology;
mod trees;

pub use frames::{Backed, Background, Book, Dropped, Offer, Offered, Page, Reason, Sent, Started};
pub use gates::{OpenFor, StreamEntry};
pub use history::{Receipt, Refused, Reply};
pub use limits::{
    LARGE, LAST_UNTIL, LEAST_OCTETS, LONGEST_CYCLE, Limits, MOST_BRIDGES, MOST_CALLS, MOST_CYCLES,
    MOST_EVERY, MOST_HOPS, MOST_LINKS, MOST_NODES, MOST_OCTETS, MOST_OVERHEAD, MOST_ROWS,
    MOST_SEALS, MOST_STATIONS, MOST_STREAMS, PROFILE,
};
pub use ports::{Arrival, Start};
pub use topology::{EACH_CYCLE, Hop, Link, Node, Pace, Row};
pub use trees::Tree;
