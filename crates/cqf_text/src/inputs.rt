//! The parts of an input.
ghost use Rattle.std.specs.Prelude.{◌≡◌, ◌+◌, ◌<◌, [], ◌∷◌, length, map, take, drop, ⊤, IfOk, IsTrue, MatchOption};
ghost use Rattle.std.specs.List.{position_or_len};
ghost use Rattle.cqf_text.specs.Lines.{is_line_feed};
ghost use Rattle.cqf_text.specs.Parts.{is_divider, parts_of};

use crate::lines::line_end;
use cqf_units::Memory;
use memchr::memchr;
use std::alloc::Global;

/// Returns whether the line is a divider: `%%`, with or without a line feed.
fn divides(line: &[u8]) -> bool
    ensures { result ≡ is_divider line.now }
{
    matches!(line, [b'%', b'%'] | [b'%', b'%', b'\n'])
}

/// Returns whether the text has no percent sign. If so, it is a single part, and its lines needn't be examined.
fn has_no_sign(text: &[u8]) -> bool
    ensures { IsTrue result → parts_of text.now ≡ text.now ∷ [] }
{
    memchr(b'%', text).is_none()
}

/// Returns the first line with its line feed, and the text after it.
fn split_whole_line(text: &[u8]) -> (&[u8], &[u8])
    ensures line { result.0.now ≡ take (position_or_len is_line_feed text.now + 1) text.now }
    ensures rest { result.1.now ≡ drop (position_or_len is_line_feed text.now + 1) text.now }
    ensures lengths { length result.0.now + length result.1.now ≡ length text.now }
    ensures some { 0 < length text.now → 0 < length result.0.now }
{
    let end = line_end(text);
    if end < text.len() {
        text.split_at(end + 1)
    } else {
        text.split_at(end)
    }
}

/// Returns the first part of the input, and the text after the divider that ends it, or `None` for that text if the part is
/// the last one.
fn split_part(input: &[u8]) -> (&[u8], Option<&[u8]>)
    ensures parts { MatchOption result.1 (parts_of input.now ≡ result.0.now ∷ []) (λ rest. parts_of input.now ≡ result.0.now ∷ parts_of rest.now) }
    ensures shorter { MatchOption result.1 ⊤ (λ rest. length rest.now < length input.now) }
{
    if has_no_sign(input) {
        return (input, None);
    }
    let mut rest = input;
    while !rest.is_empty() {
        let (line, following) = split_whole_line(rest);
        if divides(line) {
            return (&input[..input.len() - rest.len()], Some(following));
        }
        rest = following;
    }
    (input, None)
}

/// Returns the parts of an input: the text before the first line that is exactly `%%`, between two such lines, and
/// after the last one. The last `%%` may lack its line feed, and is then followed by an empty part. An empty input is
/// one empty part. The line feed before a divider belongs to the part before it. Returns `Memory` if an allocation
/// fails.
pub fn parts(alloc: Global, input: &[u8]) -> Result<Vec<&[u8]>, Memory>
    ensures { IfOk result (λ parts. map (λ part. part.now) parts.items ≡ parts_of input.now) }
{
    let mut parts = Vec::new(alloc);
    let mut rest = Some(input);
    while let Some(text) = rest {
        let (part, following) = split_part(text);
        parts.push(part)?;
        rest = following;
    }
    Ok(parts)
}
