//! A core without threads. Everything that happens in a network under administration is a single event, and events happen in any order:
//! administrators make calls and Seals, and bridges are given tables, send cycles, take batches and post pages.
//!
//! A [`World`] begins with an admission that has no Seal, and with no page ([`World::new`]). Its content always follows the network of the
//! history so far. So each page that was posted is the same page of the single-threaded book of that history ([`World::pages`]).
//! [`World::apply`] applies an [`Event`] if it can happen now, and returns whether it could ([`Applied`]):
//!
//! ```text
//! Call(seat, command)   if the history has fewer than 100,000 calls: enters the call, with its answer
//! Seal(seat)            if fewer cycles are closed than the world runs for: closes the next one, and makes its table
//! Give(bridge)          if the table of the bridge's cycle is made, and the bridge lacks it: gives the table to the bridge
//! Step(bridge)          if the bridge has the table, and hasn't sent the cycle: sends it, and puts its batches on the links to bridges
//! Take(link)            if the link ends in a bridge that has sent its cycle and hasn't taken the link's batch of it, and a batch
//!                       is under way: moves the oldest batch to the bridge
//! Post(bridge)          if the bridge has sent its cycle, and taken the cycle's batch of each link that ends in it: receives the cycle
//!                       and posts its page
//! ```
//!
//! A bridge's cycle is the number of pages that it has posted.
#![tactic(auto)]

mod calling;
mod events;
mod inbox;
mod making;
mod parts;
mod receiving;
mod sending;
mod world;

pub use events::{Applied, Event};
pub use world::World;
