//! Laws about gate control lists, about what an output port may send, and about the legal network of a run and its
//! book.
//!
//! Each law is a function that does nothing. Its contract is a statement of `specs/` about the definitions of
//! `cqf_model`, and its proof shows that the statement holds for each gate list, port and run. A proof elsewhere uses
//! the law by calling the function.
//!
//! - About a gate list: the states at an instant are those of the one entry in force, and a frame is eligible if and
//!   only if its class stays open long enough ([`mask_is_in_force`], [`eligible_by_open_for`]).
//! - About a port: it can always continue ([`legal_starts_exist`]). What it sends is determined
//!   ([`legal_starts_are_unique`]), and only by what came before ([`only_the_past_counts`]). An earlier end changes
//!   nothing before it ([`legal_part_is_legal`]). An arrival that is reported late changes nothing if its class has
//!   been closed since it came ([`late_arrival_changes_nothing`]).
//! - There is a legal network ([`legal_network_exists`]), and no other ([`legal_network_is_unique`]), so what a domain
//!   does is determined. So is what its book says ([`book_exists`], [`book_is_unique`]).
//! - Only the past matters: what arrives at a bridge or a port, and what a port sends of either kind, depends on what
//!   was sent before ([`the_past_alone_matters`]).
//! - A run of fewer cycles is the beginning of a longer one, and its book is the beginning of the longer one's
//!   ([`shorter_run_is_the_beginning`], [`shorter_book_is_the_beginning`]): nothing depends on what is offered,
//!   admitted or withdrawn later.
//!
//! ```
//! // from here on, a proof knows that two legal networks of the same run and gate lists are equal
//! cqf_laws_network::legal_network_is_unique();
//! ```
#![tactic(auto)]

mod gated_ports;
mod legal_networks;

pub use gated_ports::{
    eligible_by_open_for, late_arrival_changes_nothing, legal_part_is_legal,
    legal_starts_are_unique, legal_starts_exist, mask_is_in_force, only_the_past_counts,
};
pub use legal_networks::{
    book_exists, book_is_unique, legal_network_exists, legal_network_is_unique,
    shorter_book_is_the_beginning, shorter_run_is_the_beginning, the_past_alone_matters,
};
