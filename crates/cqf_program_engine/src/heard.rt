//! A reader that remembers what was read.
ghost use Rattle.std.specs.Prelude.{◌≡◌, ◌≤◌, ◌<◌, ◌+◌, [], true, false, IfOk, IfErr, OnOk, length};
ghost use Rattle.std.specs.Io.KnownBytes.{IsAtEnd};
ghost use Rattle.cqf_output.specs.Kinds.{SomeKind};

use crate::filled::Filled;
use crate::sources::Source;
use cqf_units::Memory;
use std::alloc::Global;

/// Why a read returned nothing.
#[derive(Clone, Copy, Debug, PartialEq, Eq)]
pub(crate) enum ReadFailure {
    /// There was no memory for the bytes.
    Memory,
    /// The reader failed.
    Fault,
}

/// Makes a failed allocation the cause of a failed read.
impl From<Memory> for ReadFailure {
    ghost use Rattle.cqf_program_engine.specs.declared.heard.ReadFailure.TheVariants as variant;

    ghost from_gives = { λ _ cause. cause ≡ variant.Memory };

    fn from(_refused: Memory) -> ReadFailure {
        ReadFailure::Memory
    }
}

/// A reader with all the bytes that were read, and whether a read failed. Only its own reads change these. The last is
/// set only for a kind of error with which the reader may fail. A read that a signal interrupts hasn't failed: it is
/// made again.
#[derive(Drop)]
pub struct Heard<R: Source> {
    reader: R,
    bytes: Filled,
    failed: bool,
    pub ghost may_fail: { failed ≡ true → SomeKind R.fails },
}

impl<R: Source> Heard<R> {
    ghost use Rattle.cqf_program_engine.specs.Edge.{HasRead, Marks, MayBreak};

    /// Makes a reader that wasn't read yet.
    pub fn new(alloc: Global, reader: R) -> Heard<R>
        ensures reader { result.reader ≡ reader }
        ensures bytes { result.bytes ≡ [] }
        ensures failed { result.failed ≡ false }
    {
        Heard {
            reader,
            bytes: Filled::new(alloc),
            failed: false,
        }
    }

    /// Returns all bytes that were read.
    pub fn bytes(&self) -> &[u8]
        ensures { result.now ≡ self.now.bytes }
    {
        self.bytes.as_slice()
    }

    /// Makes one read of at most `most` bytes. There is never room for more than `room` bytes in all. Returns how many
    /// were read; none only at the end of the input.
    ///
    /// # Errors
    /// `Fault` if the reader fails. `Memory` if an allocation fails; then the reader wasn't called.
    pub(crate) fn read(&mut self, most: usize, room: usize) -> Result<usize, ReadFailure>
        requires some { 0 < most }
        requires few { length self.old.bytes + most ≤ room }
        ensures read { HasRead (R.remaining self.old.reader) (R.remaining self.new.reader) self.old.bytes self.new.bytes
            (length self.old.bytes + most) }
        ensures count { IfOk result (λ count. length self.new.bytes ≡ length self.old.bytes + count) }
        ensures end { IfOk result (λ count. count ≡ 0 → IsAtEnd (R.remaining self.new.reader)) }
        ensures ok { OnOk result (self.new.failed ≡ self.old.failed) }
        ensures err { IfErr result (Marks self.old.failed self.new.failed) }
        ensures may { IfErr result (MayBreak R.fails) }
    {
        let read = self.bytes.fill(&mut self.reader, most, room);
        if let Err(ReadFailure::Fault) = read {
            self.failed = true;
        }
        read
    }
}
