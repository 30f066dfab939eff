//! One output port: gates that open and close eight queues (Qbv, the time-aware shaper), and the frames that it starts
//! (IEEE Std 802.1Q-2018, 8.6.6, 8.6.8.1 and 8.6.8.4).
//!
//! - A [`Port`] follows a gate control list on a link of a rate. It takes arrivals with [`Port::offer`] and runs to an
//!   instant with [`Port::advance`], which returns the starts on the way; [`Port::next_start`] returns the instant of
//!   the next one. In `specs/` a port is a `PortState`: its rules, the instant that it has reached, the arrivals that
//!   it has taken, and the starts that it has made.
//! - An [`Arrival`] is a frame that waits from an instant on; a [`Start`] is one that the port transmits.
//! - A [`PortFault`] says why an arrival isn't taken.
//!
//! For any order of calls, the starts are legal up to the port's current instant for the arrivals taken. A frame starts
//! when the port is idle, the frame is the first of its class, and its gate stays open until it is sent; of several
//! such frames the one of the highest class starts. Whenever a frame may start, one does. There is only one list of
//! such starts.
//!
//! ```text
//! list 80 120000, 00 5000, 40 120000, 00 5000 at 1,000 Mb/s
//! offer(class 6 at 10, 64 octets), then advance(1,000,000)    starts it at 125,000, when class 6 opens
//! ```
#![tactic(auto)]

mod choice;
mod egress;
mod late;
mod next;
mod port;
mod progress;
mod quiet;
mod run;
mod spans;

pub use cqf_model::{Arrival, Start};
pub use port::{Port, PortFault};
