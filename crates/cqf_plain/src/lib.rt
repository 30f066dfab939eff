//! A run of the network on one thread, from cycle 0 on: its bridges are driven one after the other.
//!
//! Each cycle has two phases (IEEE 802.1Q, Annex T). First every [`cqf_bridge::Bridge`] sends the cycle (`sending`). What the links have
//! sent goes into the book, and along each link to the bridge in which it ends (`handing`). Then every bridge receives the cycle, with the
//! offers there (`receiving`). If a frame is lost inside, which never happens with the tables of one history, it is found among the frames
//! that arrived (`losing`). The next starts of the ports are in an ordered map, by instant, then link (`due`). If the least of them isn't
//! in the cycle, and there are no offers and no background frames in it, the bridges pass over it (`quiet`). Between the phases and between
//! the cycles, a `RunSoFar` has the bridges and the book so far.
//!
//! The network is nothing but its bridges and the batches that they exchange. So [`run`] returns the book that the definitions allow.
#![tactic(auto)]

mod driven;
mod due;
mod faults;
mod handing;
mod losing;
mod quiet;
mod receiving;
mod running;
mod sending;
mod so_far;
mod tables;

pub use faults::RunFault;
pub use running::run;
