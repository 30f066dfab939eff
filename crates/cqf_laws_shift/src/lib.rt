//! Laws about a domain with the compiled gate lists, and the law that they lead to: the gates mean the shift.
//!
//! Cyclic queuing and forwarding (IEEE Std 802.1Q-2018, Annex T) makes a network simple to plan. What arrives at a bridge in one
//! cycle leaves it in the next, so a frame leaves on a link of hop number n in its stream's tree n cycles after its offer. This is
//! the shift of `cqf_model/specs/Shift.antt`, which has no gate, queue or instant in it. What the ports do is defined by gate
//! lists, strict priority and instants, in `cqf_model/specs/Network.antt`. The laws here join the two.
//!
//! Each law is a function that ends at once. Its contract is a statement of `specs/` about the definitions of `cqf_model`, and its
//! proof shows that the statement holds. To use a law, another proof calls the function.
//!
//! - **The costs.** Frames within a reservation take no more of the wire than its cost ([`wire_within_cost`]).
//! - **The edge.** A gate lets pass what the reservation has left ([`gate_is_reservation`]), so it decides on offers what the
//!   definitions say of them ([`edge_is_covered`]). The number by which "covered" is defined is what the covered offers take
//!   ([`taken_is_covered`]).
//! - **Background frames.** They change nothing for streams: for the streams' frames, a legal run beside any background frames is a
//!   legal run of them alone ([`run_beside_is_run_alone`]). So runs that differ only in background frames send the same streams'
//!   frames ([`background_changes_no_start`], [`background_changes_one_list`]).
//! - **The network.** The covered frames leave as the shift says, each once on each link of its tree, none is lost inside, and
//!   loads, instants and latencies are as promised ([`gates_mean_the_shift`]). So the book says the shift, and all of this holds
//!   for the network whose book it is ([`book_says_the_shift`]). The same holds for the book of a legal history
//!   ([`book_of_history_says_the_shift`]), which is the law that a planner relies on.
//!
//! ```
//! // from here on, a proof knows that each book of a legal history says the shift
//! cqf_laws_shift::book_of_history_says_the_shift();
//! ```
#![tactic(auto)]

mod beside;
mod books;
mod cost;
mod edge;
mod histories;
mod main_law;

pub use beside::{background_changes_no_start, run_beside_is_run_alone};
pub use books::{background_changes_one_list, book_says_the_shift};
pub use cost::wire_within_cost;
pub use edge::{edge_is_covered, gate_is_reservation, taken_is_covered};
pub use histories::book_of_history_says_the_shift;
pub use main_law::gates_mean_the_shift;
