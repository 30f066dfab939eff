//! Runs a network under administration, with one thread for each bridge, one for each administrator, and the conductor's own thread.
//!
//! - **The run.** [`conduct`] runs the network and returns an [`Account`], which is the history of all calls and the book of every transmission
//!   and drop, or else a [`ConductFault`]. [`conduct_traces`] returns a [`TracedAccount`], which has the traces of the links in place of the book:
//!   the book can be read off them without sorting. [`Faults`] is what has gone wrong so far.
//! - **Its pipes.** [`lay`] returns a [`Laid`]: the workers of all bridges, with a pipe on each link between two of them and one for each worker's
//!   tables. [`close_pipes`] closes these pipes after the threads have ended. What was taken from each pipe is then a prefix of what was put
//!   there. On failure it returns a [`ClosingFault`].
//! - **Its threads.** [`run_threads`] starts the threads with a [`ReadyRun`], waits for all of them, and returns what they have in the end, or else
//!   the fault to report. [`start_workers`] and [`join_workers`] are its part for the bridges. A `Working` is a worker's thread, and `OfWorker` is
//!   the promise that its thread keeps.
//! - **Re-exported** from `cqf_worker_loops`: [`pipe`] with its ends [`PipeIn`] and [`PipeOut`], and [`Pace`], which administrators' and bridges'
//!   threads call before each call and step; [`Free`] lets them go on at once. A pipe of a run carries `Carried` items, and a worker that gives
//!   up returns a `GaveUp`.
//!
//! ```text
//! conduct(rt, alloc, &domain, admission, &offers, &[], 5, admins, &Free)
//! an Account: what the compiled gate lists demand for its history
//! ```
#![tactic(auto)]

mod account;
mod closing;
mod conducting;
mod faults;
mod laying;
mod threads;

pub use account::{Account, TracedAccount};
pub use closing::{ClosingFault, close_pipes};
pub use conducting::{conduct, conduct_traces};
pub use cqf_worker_loops::{Free, Pace, PipeIn, PipeOut, pipe};
pub use faults::{ConductFault, Faults};
pub use laying::{Laid, lay};
pub use threads::{join_workers, start_workers};
pub(crate) use threads::{Administrator, EndedRun, ReadyRun, run_threads};
