//! Laws of one port with the compiled gate lists: what arrives at it in a cycle leaves it in the next. Also laws about a book and
//! its pages, and about a run that goes on cycle by cycle.
//!
//! Each law is a function that does nothing. Its contract is a statement of `specs/` about the definitions of `cqf_model`, and its
//! proof shows that the statement holds for each domain. To use a law, another proof calls the function.
//!
//! - **The lists.** In each cycle a port has one class of streams open, and the classes of background frames as well, all until the
//!   guard band begins ([`port_list_is_open`]). It sends a frame of these classes exactly if the frame ends by then
//!   ([`port_list_sends`]). The stream gates give what arrives in a cycle the other class ([`gate_gives_class`]), which is the one
//!   that the next cycle sends ([`classes_alternate`]), and count octets by the cycle ([`gate_counts_cycles`]).
//! - **One port.** If the streams' frames that arrive in each cycle are within the link's budget, they leave in the next cycle, in
//!   their order, and the gap after the last frame is over when the guard band begins ([`port_is_one_cycle_late`]). The same holds
//!   if each start lags by up to a bound ([`late_port_is_one_cycle_late`]). Background frames may arrive at any instant, with any
//!   octets. They start after the streams' frames of earlier cycles, and end before the guard band ([`background_yields`]).
//! - **Beside background frames.** So background frames change nothing for streams: the starts of the streams' frames are legal for
//!   those frames alone ([`streams_start_as_alone`]), and what a link carries of them is what it may carry if they arrive alone
//!   ([`streams_are_sent_as_alone`]).
//! - **A port from cycle to cycle.** What its bridge queues to it in a cycle waits ([`queued_frames_wait`], [`port_goes_on`],
//!   [`closed_arrivals_change_nothing`]). So what the port sends in a cycle depends on what arrived at it before and on the
//!   background frames of the cycle ([`port_sends_what_came_before`]), which it gets in order ([`background_comes_in_order`]).
//! - **A bridge.** It takes a cycle's frames after those of the earlier cycles ([`bridge_goes_on`]). These frames are what its
//!   incoming links send in the cycle and what is offered in it ([`cycle_brings_its_batches`]), in order of instant
//!   ([`frames_are_taken_in_order`]). The frames of a link keep their order ([`frames_keep_their_order`]), and the drops of a cycle
//!   are among its frames ([`drops_are_of_the_cycle`]).
//! - **Arrivals.** What arrives at a bridge and at a port is exactly the offers, background frames and links' frames that are due
//!   there, each once, at its instant and in order ([`arrivals_are_exact`]).
//! - **A run.** It goes on from legal to legal ([`run_goes_on`]) and is the sequence of its cycles ([`run_is_its_cycles`]). A
//!   longer run, or one with another last table, changes nothing in its cycles ([`longer_run_keeps_its_cycles`],
//!   [`last_table_waits`]).
//! - **A book.** Each page is about its bridge alone, and the pages together are the book ([`page_is_of_its_bridge`],
//!   [`book_is_its_pages`]).
//!
//! ```
//! // from here on, a proof knows that books of one domain with the same pages are equal
//! cqf_laws_cycle::book_is_its_pages();
//! ```
#![tactic(auto)]

mod arrivals;
mod beside;
mod bridges;
mod compiled;
mod pages;
mod port;
mod ports;
mod runs;

pub use arrivals::arrivals_are_exact;
pub use beside::{streams_are_sent_as_alone, streams_start_as_alone};
pub use bridges::{
    background_comes_in_order, bridge_goes_on, cycle_brings_its_batches, drops_are_of_the_cycle,
    frames_are_taken_in_order, frames_keep_their_order,
};
pub use compiled::{
    classes_alternate, gate_counts_cycles, gate_gives_class, port_list_is_open, port_list_sends,
};
pub use pages::{book_is_its_pages, page_is_of_its_bridge};
pub use port::{background_yields, late_port_is_one_cycle_late, port_is_one_cycle_late};
pub use ports::{
    closed_arrivals_change_nothing, port_goes_on, port_sends_what_came_before, queued_frames_wait,
};
pub use runs::{last_table_waits, longer_run_keeps_its_cycles, run_goes_on, run_is_its_cycles};
