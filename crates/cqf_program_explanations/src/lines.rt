//! Lines of a text with their numbers.
ghost use Rattle.std.specs.Prelude.{length};
ghost use Rattle.std.specs.Iterator.{at_most};

use cqf_text::split_line;

/// The remaining lines of a text, and how many lines are before them.
#[derive(Clone, Copy, Debug)]
pub(crate) struct Lines<'a> {
    rest: &'a [u8],
    before: u64,
}

impl<'a> Lines<'a> {
    /// Returns all lines of a text that follows `before` lines.
    pub(crate) fn of(text: &'a [u8], before: u64) -> Lines<'a> {
        Lines { rest: text, before }
    }
}

impl<'a> Iterator for Lines<'a> {
    type Item = (u64, &'a [u8]);

    ghost remaining = { λ s. at_most (length s.rest.now) };

    fn next(&mut self) -> Option<(u64, &'a [u8])> {
        let (line, rest) = split_line(self.rest)?;
        self.rest = rest;
        self.before = self.before.saturating_add(1);
        Some((self.before, line))
    }
}
