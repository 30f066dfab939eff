//! An admission that several threads share. Administrators make calls to a desk, each with a seat of their own.
//!
//! - [`Desk`] answers requests, withdrawals and Seals as its [`Admission`](cqf_admission::Admission) does, one after the other, from any
//!   thread.
//! - [`Seat`] keeps the calls that were made with it, each with its answer, and the tables of its Seals.
//! - [`Desk::close`] returns the [`History`]: it is legal, and has each seat's calls in that seat's order, and no others. What the seats
//!   kept is compared with the history there. A [`CloseFault`] says where they differ.
//!
//! ```text
//! Desk::new(alloc, admission, 2)          the desk and seats 0 and 1
//! admit(seat 0, x)                        Ok: number 0, effect 0       in one thread
//! seal(seat 1), seat 1's last_table()     the table of cycle 0         in another
//! close([seat 0, seat 1])                 0 admit x accepted, 1 seal   or the other way round: then x's effect is 1
//! ```
#![tactic(auto)]

mod again;
mod closing;
mod desk;
mod faults;
mod following;
mod history;
mod same;
mod seats;

pub use desk::Desk;
pub use faults::CloseFault;
pub use history::History;
pub use seats::Seat;
