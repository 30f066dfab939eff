//! Laws about how long frames take, about conforming talkers, and about what is reported for a plan's streams.
//!
//! Each law is a function that ends at once. Its contract is a statement of `specs/` about the definitions of `cqf_model`, and its
//! proof shows that the statement holds. To use a law, another proof calls the function.
//!
//! - Each frame arrives fully within bounds that the cost of its link's streams gives ([`frames_are_timely`]), and so within what is
//!   reported for a list of streams ([`lists_bound_costs`], [`lists_bound_latencies`]), in loose networks too
//!   ([`loose_history_is_timely`]). A branch ends at its listener ([`branches_end_at_listeners`]).
//! - What a conforming talker sends is covered, and in time ([`conforming_offers_fit_a_cycle`], [`conforming_stream_is_covered`],
//!   [`conforming_stream_is_in_time`]), in loose networks too ([`conforming_stream_is_heard_in_time`]).
//! - What is reported for a plan's streams holds for the frames of each stream ([`histories_admit_only`],
//!   [`reported_bounds_hold`]).
//!
//! ```
//! // from here on, a proof knows that a conforming talker loses nothing
//! cqf_laws_timing::conforming_stream_is_in_time();
//! ```
#![tactic(auto)]

mod latencies;
mod reported_plans;
mod talkers;

pub use latencies::{
    branches_end_at_listeners, frames_are_timely, lists_bound_costs, lists_bound_latencies,
    loose_history_is_timely,
};
pub use reported_plans::{histories_admit_only, reported_bounds_hold};
pub use talkers::{
    conforming_offers_fit_a_cycle, conforming_stream_is_covered,
    conforming_stream_is_heard_in_time, conforming_stream_is_in_time,
};
