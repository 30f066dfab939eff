//! Gate lists: which traffic classes a port may send (Qbv, the time-aware shaper; IEEE 802.1Q, 8.6.8.4), and which
//! frames of a stream pass, with which internal priority value (Qci, PSFP and its IPV; 8.6.5.1).
//!
//! - [`TxList`] is the list of a port. [`TxList::mask_at`] returns the states of its gates at an instant, and
//!   [`TxList::open_for`] how long a class stays open from then on.
//! - [`StreamList`] is the list of a stream gate, and [`StreamGate`] is the gate, which counts octets against the list.
//! - [`compiled_list`] and [`gate_of_reservation`] return the lists that a cycle and a reservation are compiled to.
//! - [`read_tx`], [`write_tx`], [`write_stream`] and [`put_stream`] read and write lists as text, with gate states in
//!   the digits of [`hex_digit_of`].
//!
//! ```text
//! TxList::new(&[(0x80, 120_000), (0x00, 5000), (0x40, 120_000), (0x00, 5000)]) is Ok(list)
//! list.open_for(Nanos(0), 7)       is OpenFor::Until(Nanos(120_000))
//! list.open_for(Nanos(130_000), 6) is OpenFor::Until(Nanos(245_000))
//! ```
#![tactic(auto)]

mod compiled;
mod entries;
mod faults;
mod spans;
mod stream_text;
mod streams;
mod text;
mod transmission;

pub use compiled::{compiled_list, gate_of_reservation, spans_pass_the_same};
pub use cqf_model::{OpenFor, Pace, StreamEntry};
pub use faults::{ListFault, TextFault};
pub use stream_text::{is_shut, put_stream, write_stream};
pub use streams::{Passed, StreamGate, StreamList, gate_counts_calls};
pub use text::{hex_digit_of, read_tx, write_tx};
pub use transmission::TxList;
