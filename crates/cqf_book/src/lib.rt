//! Pages on which each bridge writes what it sent and dropped in a cycle, and the order of a book.
//!
//! - [`Pages`] takes each bridge's [`Page`]s in order of cycle, each once, and refuses the others with a [`PageFault`].
//!   [`Totals`] are the numbers of streams' frames and octets that they have on a link.
//! - [`CycleBook`] is pages under a lock, which bridges write from threads of their own, each through its [`Share`].
//!   Closing it returns the book of all pages, or these pages, or a [`BookClose`] that says why it can't be closed.
//! - [`book_of`] returns the book of pages: starts by cycle, link and instant, and drops by cycle, bridge and frame.
//!   [`sort_drops`] sorts drops into that order.
//!
//! ```text
//! Pages::new(alloc, 3, 5)      three bridges, five cycles, no page
//! post(bridge 1, cycle 0)      Ok
//! post(bridge 1, cycle 0)      DoublePage
//! post(bridge 0, cycle 1)      CycleSkipped: the page of cycle 0 is missing
//! whole_cycles()               0, until bridges 0 and 2 have posted cycle 0 too
//! ```
#![tactic(auto)]

mod bridge_pages;
mod closing;
mod cycle_book;
mod drops;
mod faults;
mod pages;
mod same_pages;
mod starts;
mod totals;

pub use closing::book_of;
pub use cqf_model::Page;
pub use cycle_book::{CycleBook, Share};
pub use drops::sort_drops;
pub use faults::{BookClose, PageFault};
pub use pages::Pages;
pub(crate) use starts::sort_starts;
pub use totals::Totals;
