//! A writer that remembers whether it refused anything.
ghost use Rattle.std.specs.Prelude.{◌≡◌, ◌<◌, true, false, IfOk, OnOk, OnErr, length};
ghost use Rattle.std.specs.Io.{WritesAtMost};
ghost use Rattle.std.specs.Io.KnownBytes.{Keeps, WriteAppends};
ghost use Rattle.cqf_output.specs.Kinds.{SomeKind};

use crate::retries::{flush_again, write_again};
use crate::sinks::Sink;
use std::io;
use std::io::Write;

/// A writer, and whether it refused a write or a flush. Only writes and flushes through this value set that, and only
/// if there is a kind of error for which the writer may refuse. An interruption by a signal isn't a refusal: the
/// operation is repeated.
#[derive(Drop)]
pub struct CheckedSink<W: Sink> {
    writer: W,
    refused: bool,
    pub ghost may_refuse: { refused ≡ true → SomeKind W.refuses },
}

impl<W: Sink> CheckedSink<W> {
    /// Returns the writer with no refusal recorded.
    pub fn new(writer: W) -> CheckedSink<W>
        ensures writer { result.writer ≡ writer }
        ensures refused { result.refused ≡ false }
    {
        CheckedSink {
            writer,
            refused: false,
        }
    }

    /// Returns the writer itself.
    pub fn writer(&self) -> &W
        ensures { result.now ≡ self.now.writer }
    {
        &self.writer
    }

    /// Returns the writer itself, by value.
    pub fn into_writer(self) -> W
        ensures { result ≡ self.writer }
    {
        self.writer
    }

    /// Returns whether the writer refused a write or a flush.
    pub fn is_refused(&self) -> bool
        ensures { result ≡ self.now.refused }
    {
        self.refused
    }
}

impl<W: Sink> Write for CheckedSink<W> {
    ghost contents = { λ checked. W.contents checked.writer };

    /// Writes some of the bytes, and returns how many. An error is recorded as a refusal, and so is a write that takes
    /// none of at least one byte.
    fn write(&mut self, buf: &[u8]) -> io::Result<usize>
        ensures bound { WritesAtMost result buf.now }
        ensures bytes { WriteAppends (W.contents self.old.writer) (W.contents self.new.writer) result buf.now }
        ensures some { IfOk result (λ count. 0 < count → self.new.refused ≡ self.old.refused) }
        ensures none { IfOk result (λ count. count ≡ 0 → 0 < length buf.now → self.new.refused ≡ true) }
        ensures err { OnErr result (self.new.refused ≡ true) }
    {
        match write_again(&mut self.writer, buf) {
            Ok(count) => {
                if count == 0 && !buf.is_empty() {
                    self.refused = true;
                }
                Ok(count)
            }
            Err(error) => {
                self.refused = true;
                Err(error)
            }
        }
    }

    fn flush(&mut self) -> io::Result<()>
        ensures bytes { Keeps (W.contents self.old.writer) (W.contents self.new.writer) }
        ensures ok { OnOk result (self.new.refused ≡ self.old.refused) }
        ensures err { OnErr result (self.new.refused ≡ true) }
    {
        match flush_again(&mut self.writer) {
            Ok(()) => Ok(()),
            Err(error) => {
                self.refused = true;
                Err(error)
            }
        }
    }
}
