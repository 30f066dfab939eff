//! A bridge, cycle by cycle (IEEE 802.1Q, Annex T): the frames that it sends, the verdicts on the frames that arrive, and laws about
//! bridges that follow the legal network of a run.
//!
//! - **The bridge.** A [`Bridge`] has one port for each link that leaves it. [`Bridge::receive`] takes the frames that arrive in a cycle.
//!   [`Bridge::send`] runs the ports to the end of a cycle. It appends one [`Batch`] a link, with the streams' frames that the link carries
//!   ([`Sent`]), for the bridge or station at the link's end; [`Bridge::background_starts`] returns the background frames that started. In
//!   `specs/` a bridge is its `BridgeState`: its domain and number, its cycle, and all that was recorded at its ports. A [`BridgeFault`] is the
//!   reason for which it refuses a call.
//! - **Input of a run.** An `Agenda` of `cqf_agenda` has the offers of a bridge and the background frames of its links, by cycle. An [`Offer`]
//!   is a frame that is offered at the edge; an [`Offered`] is an offer with its number.
//! - **Verdicts**, for callers with ports of their own: each [`Incoming`] frame of a cycle has a `Came`, by one of the [`incoming_links`] or at
//!   the edge ([`gather_offers`]). [`bring_in_order`] brings the frames into order, and [`police`] returns the [`FrameVerdict`] of each.
//!   `leads_by` returns whether a frame goes on by a hop.
//! - **Stream gates** (Qci, PSFP; 8.6.5.1; the rules for octets and classes are this project's). [`StreamGates`] has a gate for each stream
//!   whose frames the bridge has seen. It counts octets by the cycle. Its verdicts and counts are exactly those of the stream gate that
//!   executes the row's gate list for frames that arrived by the same link. A stream that isn't offered in each cycle has octets only in
//!   its own cycles, and after a link as many cycles later as the link's hop number.
//! - **The bridge's page of the book.** The caller has a bridge's batches until they are passed on: [`starts_of`] lists the frames in them
//!   before. When the bridge has received the cycle too, [`page_with`] makes the page from these starts ([`Started`]), the drops ([`Dropped`],
//!   each with its [`Reason`]), and the background frames that the bridge started. A [`Book`] has all pages of a run.
//!
//! An example of gates at the edge, with a cycle time of 125,000 ns and a row of stream 0 with 1,000 octets in each cycle:
//!
//! ```text
//! pass(stream 0, at 0, 600 octets)          class 6
//! pass(stream 0, at 1,000, 600 octets)      over its octets: 400 are left
//! pass(stream 0, at 2,000, 400 octets)      class 6
//! pass(stream 0, at 125,000, 600 octets)    class 7: a new cycle
//! ```
//!
//! Stream 1 has 1,000 octets in one cycle of four, the second of them:
//!
//! ```text
//! pass(stream 1, at 0, 600 octets)          over its octets: it has none in cycle 0
//! pass(stream 1, at 125,000, 600 octets)    class 7: its own cycle at the edge
//! pass(stream 1, at 250,000, 600 octets)    class 6 after a link of hop number 1; over its octets at the edge
//! ```
//!
//! Each **law** is a function that does nothing. Its contract is a statement of `specs/` about the contracts of these calls, and its proof
//! shows that the statement holds for each run. A caller may drive bridges in any order and on any number of threads. It has to maintain
//! one fact from cycle to cycle: each bridge follows the network (`FollowsTheNetwork` of `specs/Follows.antt`). If each bridge goes on at
//! its own pace, with batches under way between them and further tables not yet closed, there are lists of what each bridge took, put and
//! posted (`Course` of `specs/Courses.antt`), and one fact to maintain (`AreUnderWay`): each bridge did its part, the tables that it took
//! are those of one history, and what was taken from a link is the beginning of what was put on it.
//!
//! - A new bridge follows the network ([`new_bridge_follows`]). When it sends a cycle, it returns the network's batches of its links
//!   ([`sending_follows`]). When it receives the cycle with the network's batches of the links that end in it, it drops what the network drops
//!   there, and still follows the network ([`receiving_follows`]). Its output is its page of the book ([`page_follows`]).
//! - So bridges that exchange nothing but their batches give the book of the run ([`driven_bridges_give_the_book`]). Under the tables of a
//!   history this book says the shift ([`driven_bridges_say_the_shift`]).
//! - A run may become longer meanwhile, as further tables are closed ([`longer_run_is_followed`]).
//! - Under the tables of a history nothing is lost inside ([`history_loses_nothing`]). Then the only fault is that an allocation fails
//!   ([`no_other_fault`], [`driven_bridges_want_memory_alone`]).
//! - A bridge that is given the network's batches judges a cycle's frames as in the run, even if other bridges lose frames
//!   ([`verdicts_are_the_runs`]).
//! - Each page that bridges under way have posted is that page of the one-thread book of the history ([`pages_are_of_the_book`]). Each
//!   bridge is in the cycle that its lists say, and refuses its next cycle only if an allocation fails ([`bridges_go_on`]).
//!
//! ```
//! // from here on, a proof knows that the pages of bridges under way are those of the one-thread book
//! cqf_bridge::pages_are_of_the_book();
//! ```
#![tactic(auto)]

mod batch;
mod bridge;
mod checking;
mod cycle_gate;
mod cycles;
mod driving;
mod faults;
mod gates;
mod gathering;
mod longer_runs;
mod no_faults;
mod outgoing;
mod paces;
mod paging;
mod phases;
mod policing;
mod quiet;
mod receiving;
mod recording;
mod sending;
mod verdicts;

pub use batch::Batch;
pub use bridge::Bridge;
pub use checking::incoming_links;
pub use cqf_model::{Book, Dropped, Offer, Offered, Reason, Sent, Started};
pub use cycles::{new_bridge_follows, page_follows, receiving_follows, sending_follows};
pub use driving::{
    driven_bridges_give_the_book, driven_bridges_say_the_shift, driven_bridges_want_memory_alone,
};
pub use faults::BridgeFault;
pub use gates::StreamGates;
pub use gathering::{Incoming, bring_in_order, gather_offers};
pub use longer_runs::longer_run_is_followed;
pub use no_faults::{history_loses_nothing, no_other_fault};
pub use paces::{bridges_go_on, pages_are_of_the_book};
pub use paging::{page_with, starts_of};
pub use policing::{FrameVerdict, police};
pub use verdicts::verdicts_are_the_runs;
