//! Laws about a history of admissions and its tables, and about what the most-read definitions of `cqf_model` mean.
//!
//! Each law is a function that does nothing. Its contract is a statement of `specs/` about the definitions of `cqf_model`, and its
//! proof shows that the statement holds for each domain and legal history. To use a law, another proof calls the function.
//!
//! - **Histories.** [`tables_are_orderly`]: what the laws of the network need of the tables of a legal history.
//!   [`granted_is_a_tree`]: what holds for a request that isn't refused. [`branches_make_a_tree_by_pairs`]: which branch makes a
//!   request refused as no tree. [`state_follows_history`]: how the held streams change with each entry, so that an administration
//!   needn't look through its history. [`streams_follow_history`]: how the list of all streams that were ever granted changes with
//!   each entry. [`seal_empties_a_slot`]: which streams a Seal lets go, and that one slot of a ring of 128 slots has exactly these.
//! - **Frames at a bridge**, in a planner's words: [`verdicts_have_their_reason`], [`queued_frames_leave_their_bridge`],
//!   [`frames_go_to_each_port`], [`relayed_frames_are_queued_or_lost`].
//! - **Streams and tables**: [`trees_say_where_streams_go`], [`streams_let_go_in_time`], [`closed_tables_stay`].
//! - **Background frames**: [`background_is_reported`].
//! - **Times**: [`delay_counts`].
//! - **Paces and limits by an example**: [`second_stream_is_judged`].
//!
//! ```
//! // from here on, a proof knows that the tables of a legal history are orderly: no link is over its budget in them
//! cqf_laws_history::tables_are_orderly();
//! ```
#![tactic(auto)]

mod definitions;
mod histories;
mod seals;

pub use definitions::{
    background_is_reported, closed_tables_stay, delay_counts, frames_go_to_each_port,
    queued_frames_leave_their_bridge, relayed_frames_are_queued_or_lost, second_stream_is_judged,
    streams_let_go_in_time, trees_say_where_streams_go, verdicts_have_their_reason,
};
pub use histories::{
    branches_make_a_tree_by_pairs, granted_is_a_tree, state_follows_history,
    streams_follow_history, tables_are_orderly,
};
pub use seals::seal_empties_a_slot;
