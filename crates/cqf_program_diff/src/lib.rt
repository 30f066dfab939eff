//! The command `diff`: what differs between two plans, by name.
//!
//! [`diff_output`] returns the output: up to three tables, each with a header, and with an empty line before it if it isn't the first. A table
//! without lines is left out, so the output is empty if and only if nothing differs.
//!
//! - The plans themselves: the network's times, its bridges and stations, its links with their rates, delays and guard bands, and its streams
//!   with their paths, reservations, cycles, deadlines and traffic.
//! - How long frames may take to each listener.
//! - What each link holds.
//!
//! Elements are matched by their names, so their order doesn't count. Addresses and interfaces aren't compared.
//!
//! `specs/Description` defines a plan as it is compared, `specs/Changes` what differs between two lists of elements,
//! `specs/Output` the output of an input, and `specs/Alike` when nothing differs: [`nothing_differs_if_alike`] is that law.
//!
//! For two plans that differ in the reservation of a stream `x` from a bridge `a` to a station `s`, 64 octets in the first and 128 in the
//! second, with a cycle of 125,000 ns and 1000 Mb/s:
//!
//! ```text
//! kind,name,what,before,after
//! stream,x,octets,64,128
//!
//! stream,listener,most-before,most-after,slack-after
//! x,s,126076,126748,123252
//!
//! link,held-before,held-after,left-after
//! a>s,84,168,14832
//! ```
#![tactic(auto)]

mod changes;
mod command;
mod description;
mod element;
mod figures;
mod forms;
mod kinds;
mod laws;
mod network;
mod streams;
mod texts;

pub use command::diff_output;
pub use laws::nothing_differs_if_alike;
