//! A bridge whose links go on separately, by exact instants: each link sends as many cycles at once as the tables and the frames that it
//! needs have arrived for. A link needs another link if a row leads from that link to it.
//!
//! - A [`Segment`] has what a link sends in consecutive cycles: a `Moving` of 16 octets for each frame.
//! - A [`Relay`] is the forwarding part of a bridge (its MAC relay entity, IEEE 802.1Q, 8.5). It has `Outlet`s, the links that leave the bridge,
//!   and inlets, the links that end in it. It takes tables and segments as they arrive, judges the offers of each cycle at the edge, and sends
//!   as far as it may.
//!
//! What arrives in a cycle starts in the next one, from its beginning, back to back, in order of instant, then source, with the offers
//! last. No gate and no port is used. `cqf_laws_relay` states that such links send what the gates require.
//!
//! ```text
//! relay.take_table(&table, offers)      the frames that are offered in cycle 0
//! relay.send()                          each link sends cycle 0, nothing, and cycle 1, what was offered
//! ```
#![tactic(auto)]

mod edge;
mod inlet;
mod leads;
mod log;
mod moving;
mod outlet;
mod pending;
mod queue;
mod relay;
mod wire;

pub use moving::Segment;
pub use relay::Relay;
