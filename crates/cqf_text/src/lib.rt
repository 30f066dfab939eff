//! Basic forms of text: decimal numbers, lines, and the parts of an input.
//!
//! - [`read_decimal`] reads a number in a range.
//! - [`split_line`] returns a text's first line and the text after it.
//! - [`parts`] divides an input at the lines that are `%%`.
//!
//! ```text
//! read_decimal(b"007", 0, 7)      is Some(7)
//! split_line(b"80 1000\n40 1000") is Some((b"80 1000", b"40 1000"))
//! parts(alloc, b"a\n%%\nb")       is Ok([b"a\n", b"b"])
//! ```
//!
//! To read lines, loop with `while let Some((line, rest)) = split_line(text)` and continue with `text = rest`.
#![tactic(auto)]

mod decimals;
mod inputs;
mod lines;

pub use decimals::read_decimal;
pub use inputs::parts;
pub use lines::split_line;
