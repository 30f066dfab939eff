//! What a bridge has of a run from the beginning: its offers and the background frames of its links, by cycle.
//!
//! An [`Agenda`] is made once from all offers and background frames of a run, and finds those of a cycle by search. So the caller can drive
//! bridges in any order and never looks at a frame of another bridge. [`Agenda::background`] is the input of sending a cycle, and
//! [`Agenda::offers`] the input of receiving it. [`offers_of`] selects the offers of one cycle from all offers. An [`Offer`] is a frame that
//! is offered at the edge; an [`Offered`] is an offer with its number.
//!
//! In `specs/` the links that end in a bridge are `links_into`, and those that leave it are `links_from`.
//!
//! ```text
//! agenda = Agenda::new(domain, offers, background, bridge 1)
//! agenda.offers(cycle 2)         the offers at bridge 1 in cycle 2, by instant, then index
//! agenda.background(cycle 2)     the background frames of the links that leave bridge 1, in the same order
//! ```
#![tactic(auto)]

mod agenda;
mod offers;
mod picking;

pub use agenda::Agenda;
pub use cqf_model::{Offer, Offered};
pub(crate) use offers::numbered_offer;
pub use offers::offers_of;
