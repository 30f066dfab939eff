//! Tables as comma-separated values. Offers, background frames and arrivals are read, by the crate `csv`. Starts, books and histories are
//! written to a writer, line by line, or returned as one list of bytes.
//!
//! - [`read_offers`] reads the offers of a run, [`read_background`] its background frames, and [`read_arrivals`] the arrivals of a port.
//! - [`TableFault`] is why a table is refused, and at which row.
//! - `put_book` writes the text of a book, with a drop's reason as [`reason_name`] returns it. [`put_history`] writes that of a history,
//!   and [`put_log`] that of the history of a ledger's log. These request no memory.
//! - [`put_book_header`], [`put_starts`] and [`put_drops`] write the parts of a book's text if there is no book as a whole.
//!   [`put_port_header`] and [`put_port_start`] write those of the text of a port's starts.
//! - [`write_book`] returns the text of a run's book, [`write_links`] that of its sums by link, as [`write_columns`] does from what its
//!   links carry, [`write_history`] that of its history, and [`write_starts`] that of the starts of a port.
//!
//! `specs/` defines what a text holds (`Records`, by what `csv` reads), what its rows mean (`Table`, `Offers`, `BackgroundFrames`,
//! `Arrivals`), how a fault prints (`Faults`), and which text is written (`Written`, `Starts`, `Books`, `HistoryText`, `LinkSums`).
//!
//! ```text
//! read_arrivals(alloc, b"at,class,octets,frame\n10,6,64,1\n")
//!     is Ok of one arrival: class 6, 64 octets, frame 1, at instant 10
//! read_arrivals(alloc, b"at,class,octets,frame\n10,8,64,1\n")
//!     is Err(TableFault::BadRow(1)), since there is no class 8
//! put_history(&mut writer, admission.history());
//!     writes "0 admit x accepted 0 0\n1 seal\n"
//! ```
#![tactic(auto)]

mod arrivals;
mod background;
mod books;
mod columns;
mod history;
mod laws;
mod links;
mod offers;
mod records;
mod rows;
mod starts;
mod tables;
mod written_logs;

pub use arrivals::read_arrivals;
pub use background::read_background;
pub use books::{put_book_header, put_drops, put_starts, reason_name, write_book};
pub use columns::write_columns;
pub use history::{put_history, write_history};
pub use laws::{
    books_are_in_order, first_fault_is_written, offers_are_read_in_order, report_is_written,
};
pub use links::write_links;
pub use offers::read_offers;
pub use starts::{put_port_header, put_port_start, write_starts};
pub use tables::{OfferFault, TableFault};
pub use written_logs::put_log;
