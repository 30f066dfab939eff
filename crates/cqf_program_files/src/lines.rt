//! Lines that are too long to be parsed.
ghost use Rattle.std.specs.Prelude.{◌≡◌, ◌<◌, ◌+◌, ◌^◌, length};
ghost use Rattle.cqf_program_files.specs.Lines.{ends_key, first_long_line, is_divider, is_quote, is_too_long, seen_of, with_octet, with_divider, with_open, with_dot, with_quoted};

use cqf_text::split_line;

/// The most octets of a line.
pub const MOST_OCTETS: usize = 4096;

/// The most parts of a key, which dots divide.
pub const MOST_PARTS: u8 = 4;

/// The most dots between two dividers: a key with that many has one part more.
const MOST_DOTS: u8 = MOST_PARTS - 1;

/// What was read of a line so far.
#[derive(Clone, Copy, Debug, PartialEq, Eq)]
pub struct Seen {
    /// The quote that is open.
    quote: Option<u8>,
    /// Whether a comment has begun.
    comment: bool,
    /// The dots since the last divider, at most one more than [`MOST_DOTS`].
    dots: u8,
    /// Whether a key had too many.
    long: bool,
}

/// Returns whether the octet is a quote.
fn is_quote(octet: u8) -> bool
    ensures { result ≡ is_quote octet }
{
    octet == b'"' || octet == b'\''
}

/// Returns whether the octet divides keys and values.
fn is_divider(octet: u8) -> bool
    ensures { result ≡ is_divider octet }
{
    octet == b'='
        || octet == b','
        || octet == b'{'
        || octet == b'}'
        || octet == b'['
        || octet == b']'
}

/// Returns whether the octet ends a key.
fn ends_key(octet: u8) -> bool
    ensures { result ≡ ends_key octet }
{
    octet == b'=' || octet == b']'
}

impl Seen {
    /// Returns the state after one more dot.
    fn with_dot(self) -> Seen
        ensures { result ≡ with_dot self }
    {
        if self.dots <= MOST_DOTS {
            Seen {
                dots: self.dots + 1,
                ..self
            }
        } else {
            self
        }
    }

    /// Returns the state after a divider.
    fn with_divider(self, octet: u8) -> Seen
        ensures { result ≡ with_divider self octet }
    {
        if ends_key(octet) && MOST_DOTS < self.dots {
            Seen { long: true, ..self }
        } else {
            Seen { dots: 0, ..self }
        }
    }

    /// Returns the state after one more octet, if no quote is open and no comment has begun.
    fn with_open(self, octet: u8) -> Seen
        ensures { result ≡ with_open self octet }
    {
        if is_quote(octet) {
            return Seen {
                quote: Some(octet),
                ..self
            };
        }
        if octet == b'#' {
            return Seen {
                comment: true,
                ..self
            };
        }
        if octet == b'.' {
            return self.with_dot();
        }
        if is_divider(octet) {
            return self.with_divider(octet);
        }
        self
    }

    /// Returns the state after one more octet within a quote.
    fn with_quoted(self, quote: u8, octet: u8) -> Seen
        ensures { result ≡ with_quoted self quote octet }
    {
        if quote == octet {
            Seen {
                quote: None,
                ..self
            }
        } else {
            self
        }
    }

    /// Returns the state after one more octet.
    fn with(self, octet: u8) -> Seen
        ensures { result ≡ with_octet self octet }
    {
        if self.comment {
            return self;
        }
        match self.quote {
            None => self.with_open(octet),
            Some(quote) => self.with_quoted(quote, octet),
        }
    }
}

/// Returns the state after a line.
fn seen_of(line: &[u8]) -> Seen
    ensures { result ≡ seen_of line.now }
{
    let mut seen = Seen {
        quote: None,
        comment: false,
        dots: 0,
        long: false,
    };
    for octet in line {
        seen = seen.with(*octet);
    }
    seen
}

/// Returns whether the line has a key of more parts than are parsed, or, if octets count, too many octets.
fn is_too_long(counts: bool, line: &[u8]) -> bool
    ensures { result ≡ is_too_long counts line.now }
{
    if counts && line.len() > MOST_OCTETS {
        return true;
    }
    seen_of(line).long
}

/// Returns the number, from 1, of the text's first line that has a key of more than 4 parts, or, if octets count, more than 4,096 octets.
/// Time grows with the text, and no memory is allocated.
pub fn first_long_line(counts: bool, text: &[u8]) -> Option<u64>
    requires { length text.now < 2 ^ 63 }
    ensures { result ≡ first_long_line counts text.now }
{
    let mut number: u64 = 1;
    let mut left = text;
    while let Some((line, following)) = split_line(left) {
        if is_too_long(counts, line) {
            return Some(number);
        }
        number += 1;
        left = following;
    }
    None
}
