//! What the streams of a plan offer, as a text: by the command `offers`, and for the parts that a run isn't given.
//!
//! - [`offers_output`] returns the command's output for an input, or the end of the run with the line of the input's first fault.
//! - [`made_input`] completes an input, so that the engine reads all parts of a run. Calls that admit all streams before cycle 0, and the
//!   offers of their talkers, are made as texts, as if they had been read.
//! - `senders_of` judges each stream as `load` does and returns it as its talker sees it; `offered_by` returns what senders offer as a
//!   text.
//!
//! `specs/` defines which text an input has (`OffersOutput`, and `Made` for made parts), and how offers are written (`OffersText`).
//!
//! ```text
//! offers_output(alloc, 1, None, b"..\n%%\n[[streams]]\nname = \"x\"\n.. interval = 125000\nsize = 64\n")
//!     is Ok(b"at,bridge,stream,octets\n0,a,x,64\n") over a cycle of 125,000 ns
//! a plan alone whose one stream x has traffic
//!     gets the script "0 admit x\n" and the offers of x
//! ```
#![tactic(auto)]

mod calls;
mod command;
mod completing;
mod judging;
mod offers;
mod parts;
mod reading;
mod sending;
mod text;

pub(crate) use command::offered_of;
pub use command::offers_output;
pub use completing::made_input;
