//! Buffered output that requests no memory while it writes, and how a run ends before its work is done.
//!
//! - **Writers.** A [`Sink`] is a writer whose possible kinds of error are known. A [`CheckedSink`] is a sink that remembers
//!   whether it refused anything. [`write_out`] writes a text to it and flushes it, `write_on` writes a text after what
//!   was written before, and `flush_out` flushes it.
//! - **Buffers.** A [`Buffer`] has all the memory that a text of any length needs on its way to the writer; only its
//!   creation requests memory. A [`Writer`] gathers text on a buffer, piece by piece, and writes each full buffer to
//!   the writer. After a refusal it writes nothing more. [`written_text`] returns the text that was written to a list;
//!   there, only the list itself requests memory.
//! - **Ends.** A [`Stop`] is an end with an exit status ([`DONE`], [`REFUSED`], [`USAGE`], [`NO_MEMORY`] or [`FAULT`])
//!   and a text that says why. [`Stop::with_line`] has the given line, [`Stop::refused`] the line of a fault in one
//!   part of the input, and [`Stop::memory`] no text, since there may be no memory for it.
//!
//! In `specs/`:
//!
//! - `Kinds.antt` is about kinds of error.
//! - `Edge.antt` defines the effect of writes on a writer (`Writing`, `IsWritten`).
//! - `Writer.antt` defines what a writer was given (`HasWritten`, `Puts`).
//! - `Stops.antt` defines ends (`EndsWith`), the line of a fault (`fault_line`) and the refusal of an input
//!   (`IsRefused`).
//!
//! ```text
//! let mut writer = Writer::new(&mut checked, Buffer::new(alloc)?);
//! writer.put(b"start,");
//! writer.put_number(7);
//! writer.put_byte(b'\n');
//! let _written = writer.close();
//!     tells "start,7\n", in one write
//! Stop::refused(alloc, "domain", &DomainFault::LinkTwice(1))
//!     ends with status 1 and the line "cqf: domain: LinkTwice 1"
//! ```
#![tactic(auto)]

mod buffer;
mod checked;
mod outputs;
mod retries;
mod sinks;
mod stops;
mod texts;
mod writer;

pub use buffer::Buffer;
pub use checked::CheckedSink;
pub use outputs::write_out;
pub use sinks::Sink;
pub use stops::{DONE, FAULT, NO_MEMORY, REFUSED, Stop, USAGE};
pub use texts::written_text;
pub use writer::Writer;
