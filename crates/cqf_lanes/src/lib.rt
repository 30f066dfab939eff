//! Sums and masks by lanes (`std::simd`), for the budgets of links and for a port's choice of class.
//!
//! - [`octet_sum`] and [`masked_sum`] add octets and costs, eight lanes of 64 bits at a time.
//! - [`open_run`] tests the gate states of sixteen entries at a time, and [`eligible`] the eight classes of a port at
//!   once. [`highest`] returns the class that strict priority selects.
//!
//! Each has a plain form with the same contract, such as [`octet_sum_plain`]. The results are defined in `specs/`
//! without lanes, and the contracts hold for every length, including one that isn't a multiple of the lanes.
//!
//! ```text
//! octet_sum([1522; 17]) = 25874
//! masked_sum([1, 2, 3], [1, 2, 1], 0) = 4
//! open_run([0x80, 0xC0, 0x40], 7) = 2
//! ```
#![tactic(auto)]

mod choice;
mod runs;
mod sums;

pub use choice::{eligible, eligible_plain, highest, highest_plain};
pub use runs::{open_run, open_run_plain};
pub use sums::{masked_sum, masked_sum_plain, octet_sum, octet_sum_plain};
