//! The loop of each thread of a run, and the pipes between two threads. A pipe loses no item, duplicates none and keeps their order.
//!
//! - **Loops.** [`work`] goes through all cycles with a [`Worker`], which is a bridge with all that it needs on a thread of its own.
//!   [`make_calls`] makes an administrator's commands with its seat. [`seal_all`] closes the cycles with the conductor's seat and passes their
//!   tables on; it returns a [`Sealed`]. A [`Pace`] is called by administrators' threads before each call and by bridges' threads before each
//!   step; [`Free`] lets them go on at once.
//! - **Giving up.** A loop that gives up returns a [`GaveUp`], an [`Unmade`] or an `Unsealed`: the reason, as a [`WorkerFault`], [`CallFault`] or
//!   [`SealingFault`], and what other threads need to see of it. [`stop_each`] and [`stop_tables`] notify other threads that no more items follow.
//! - **Pipes.** [`pipe`] returns the two ends of a pipe. Items are put at [`PipeIn`], one by one or several at once, and are taken at [`PipeOut`]
//!   one by one, in the same order. Both ends together give the number of items still under way. In a run a pipe's items are of type [`Carried`]:
//!   an item such as a [`Segment`], or a notice that no more items follow. [`LinkEnd`] is an end of a link's pipe.
//! - **Notifiers.** A thread that takes from several pipes waits at its [`Notifier`], which other threads ring by a `Ringer`. [`pipe_to`] and
//!   [`pipe_between`] return pipes that ring it. The thread looks at each pipe until none has an item left, and then waits. A thread that puts
//!   into several pipes doesn't wait for room in one of them: it tries ([`PipeIn::try_put`]), and its notifier is rung when there is room again.
//!
//! ```text
//! let (mut into, mut out) = pipe(alloc)?;
//! into.put(rt, 1), into.put(rt, 2), into.put(rt, 3)      Ok, each time
//! out.take(rt), out.take(rt)                             Some(1), Some(2)
//! into.close(out)                                        1: the item 3 is under way
//! ```
#![tactic(auto)]

mod calling;
mod carried;
mod link_ends;
mod notifiers;
mod pace;
mod pipe_ends;
mod pipe_rule;
mod rounds;
mod rows;
mod sealing;
mod worker;

pub use calling::{CallFault, Unmade, make_calls};
pub use carried::Carried;
pub use link_ends::LinkEnd;
pub use notifiers::Notifier;
pub use pace::{Free, Pace};
pub use pipe_ends::{PipeIn, PipeOut, pipe, pipe_between, pipe_to};
pub(crate) use pipe_ends::{FoundItem, NotPut};
pub use rows::stop_each;
pub use sealing::{Sealed, SealingFault, seal_all, stop_tables};
pub use worker::{GaveUp, Worker, WorkerFault, work};
