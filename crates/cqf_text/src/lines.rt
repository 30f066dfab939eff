//! The lines of a text.
ghost use Rattle.std.specs.Prelude.{◌≡◌, ◌<◌, ◌≤◌, ◌↔◌, [], ◌∷◌, length, IsSome, IfSome, MatchOption};
ghost use Rattle.std.specs.List.{position_or_len, before_first, after_first};
ghost use Rattle.cqf_text.specs.Lines.{is_line_feed, lines_of};

use memchr::memchr;

/// Returns the index at which the first line ends: that of its line feed, or the length of the text.
pub(crate) fn line_end(text: &[u8]) -> usize
    ensures end { result ≡ position_or_len is_line_feed text.now }
    ensures inside { result ≤ length text.now }
{
    match memchr(b'\n', text) {
        Some(end) => end,
        None => text.len(),
    }
}

/// Returns the first line of the text, and the text after its line feed. Returns `None` if and only if the text is
/// empty. The last line may lack its line feed, and an empty piece after the last line feed is not a line.
pub fn split_line(text: &[u8]) -> Option<(&[u8], &[u8])>
    ensures any { IsSome result ↔ (0 < length text.now) }
    ensures line { IfSome result (λ p. p.0.now ≡ before_first is_line_feed text.now) }
    ensures rest { IfSome result (λ p. p.1.now ≡ after_first is_line_feed text.now) }
    ensures lines { MatchOption result (lines_of text.now ≡ []) (λ p. lines_of text.now ≡ p.0.now ∷ lines_of p.1.now) }
    ensures shorter { IfSome result (λ p. length p.1.now < length text.now) }
{
    if text.is_empty() {
        return None;
    }
    let end = line_end(text);
    let rest = if end < text.len() { end + 1 } else { end };
    Some((&text[..end], &text[rest..]))
}
