//! `plan --without FROM>TO`: plans a network file as if some of its links weren't there.
//!
//! [`plan_without`] plans the file's tables without these links. An element of the array of links that has both directions,
//! one of them taken out, is the other direction alone. A stream whose path uses a link that is out loses its paths, and keeps its talker and its
//! listeners. All other streams keep their paths. If a stream entered by an access link that is out and its talker is in step, its cycles are
//! chosen again.
//!
//! ```text
//! [[streams]]
//! name = "mic"
//! octets = 704
//! path = ["a", "b", "mixer"]
//! ```
//!
//! is, without the link `a>b`,
//!
//! ```text
//! [[streams]]
//! name = "mic"
//! from = "a"
//! to = "mixer"
//! octets = 704
//! ```
#![tactic(auto)]

mod command;
mod laws;
mod links;
mod reading;
mod streams;
mod tables;

pub use command::plan_without;
pub use laws::{links_are_out, networks_lack_links, plans_use_no_link_that_is_out};
