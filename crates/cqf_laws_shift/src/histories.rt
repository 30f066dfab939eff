//! The law that a planner relies on: for an accepted domain, a legal history of admissions and any offers, beside any background
//! frames, the book of the history says the shift and keeps all else that is promised.
//!
//! A frame that its reservation covers leaves its path's k-th bridge on each branch k cycles after its own cycle, once. Every other
//! offered frame is dropped at its edge, once, with its reason. In the network whose book it is, nothing is lost inside, and loads,
//! instants and latencies are as promised ([`book_of_history_says_the_shift`]). The law joins that of a run (`cqf_laws_shift`) with
//! that of histories (`cqf_laws_history`).
//!
//! ```
//! // from here on, a proof knows that each book of a legal history says the shift
//! cqf_laws_shift::book_of_history_says_the_shift();
//! ```

ghost use Rattle.cqf_laws_shift.specs.BookOfHistory.{BookOfHistorySaysTheShift};

/// Proves that a book of a legal history says the shift, and keeps all else that is promised of it and of its network
/// (`KeepsThePromise` of `cqf_model/specs/Headline.antt`), for every accepted domain and any offers, beside any background frames.
pub fn book_of_history_says_the_shift()
    ensures { BookOfHistorySaysTheShift }
{
    crate::book_says_the_shift();
    cqf_laws_history::tables_are_orderly();
}
