//! The transmissions of a run's links and the drops of its bridges, each stored once.
//!
//! - A [`Trace`] belongs to one link. It has a [`Mark`] of 16 octets for each transmission, in order of instant. The link is stored once, on
//!   the trace, and the instant determines the cycle.
//! - A [`BridgeTrace`] belongs to one bridge while a run goes on. It has the traces of the links that leave the bridge, and the bridge's drops.
//! - [`Traces`] are the traces of all links by number, and the drops of each bridge. [`gather`] makes them from the bridge traces of all bridges.
//! - [`end_of`] finds where the transmissions of a cycle end on a trace. So a book can be written cycle by cycle and link by link, and nothing
//!   has to be sorted. [`book_of`] makes the book in this way.
//!
//! `specs/Traces.antt` defines which traces belong to a book (`AreTracesOf`), and which book traces report (`reported_from`).
//!
//! ```text
//! gather(alloc, &domain, bridge traces)           the trace of a>s, by its number, from the bridge trace of bridge a
//! book_of(alloc, &domain, 2, &traces)      start,1,a>s,1,64,125000 if the trace of a>s has the mark (125000, 1, 64)
//! ```
#![tactic(auto)]

mod bridge_trace;
mod gathering;
mod reporting;
mod trace;
mod traces;

pub use bridge_trace::BridgeTrace;
pub use gathering::gather;
pub use reporting::{book_of, drops_end_of, end_of, started_on};
pub use trace::{Mark, Trace};
pub use traces::{Traces, TransmissionKind};
