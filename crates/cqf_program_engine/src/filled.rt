//! Bytes that a reader fills, with room after them.
ghost use Rattle.std.specs.Prelude.{ℕ, ◌≡◌, ◌≤◌, ◌<◌, ◌+◌, List, [], IfOk, IfErr, OnOk, OnErr, length, take, drop};
ghost use Rattle.std.specs.Io.KnownBytes.{Consumes, IsAtEnd, Keeps};
ghost use Rattle.cqf_program_engine.specs.Edge.{HasRead, MayBreak};
ghost use Rattle.cqf_output.specs.Kinds.{SomeKind};

use crate::heard::ReadFailure;
use crate::retries::read_again;
use crate::sources::Source;
use cqf_units::Memory;
use std::alloc::Global;
use std::io;
use std::marker::Model;

/// The number of bytes that are read at a time, and by which the room grows.
pub(crate) const STEP: usize = 1_048_576;

/// The bytes that were filled, and room after them. The room is cleared only once, before it is first lent to a reader.
#[derive(Drop)]
pub(crate) struct Filled {
    bytes: Vec<u8>,
    count: usize,
}

impl Model for Filled {
    ghost use Rattle.std.specs.Prelude.{ℕ, ◌≤◌, List, length, take};

    ghost Value = { List ℕ };

    ghost view = { λ filled. take filled.count filled.bytes.items };

    ghost invariant = { λ filled. filled.count ≤ length filled.bytes.items };
}

/// Reserves room for at least `more` more bytes. After the first step it reserves room for all bytes that there may
/// ever be, so that nothing is copied again; if that allocation fails, it reserves room for `more` only.
fn reserve(bytes: &mut Vec<u8>, more: usize, room: usize) -> Result<(), Memory>
    requires { length bytes.old.items ≤ room }
    ensures { bytes.new.items ≡ bytes.old.items }
{
    let long = bytes.len();
    if long > 0 && bytes.reserve_exact(room - long).is_ok() {
        return Ok(());
    }
    bytes.reserve(more)
}

/// Makes the bytes longer by a step, but not longer than `room`, the most that there may ever be.
fn lengthen(bytes: &mut Vec<u8>, room: usize) -> Result<(), Memory>
    requires { length bytes.old.items < room }
    ensures longer { OnOk result (length bytes.old.items < length bytes.new.items) }
    ensures front { take (length bytes.old.items) bytes.new.items ≡ bytes.old.items }
    ensures err { OnErr result (bytes.new.items ≡ bytes.old.items) }
{
    let long = bytes.len();
    let more = STEP.min(room - long);
    reserve(bytes, more, room)?;
    bytes.resize(long + more, 0)
}

/// Makes the bytes longer than their filled part, if they aren't. There are never more than `room`.
fn make_room(bytes: &mut Vec<u8>, filled: usize, room: usize) -> Result<(), Memory>
    requires inside { filled ≤ length bytes.old.items }
    requires few { filled < room }
    ensures room { OnOk result (filled < length bytes.new.items) }
    ensures front { take filled bytes.new.items ≡ take filled bytes.old.items }
    ensures inside { filled ≤ length bytes.new.items }
{
    if filled < bytes.len() {
        return Ok(());
    }
    lengthen(bytes, room)
}

/// Makes one read of at most `most` bytes into the buffer, from index `at` on.
fn read_at<R: Source>(
    reader: &mut R,
    buffer: &mut [u8],
    at: usize,
    most: usize,
) -> io::Result<usize>
    requires inside { at < length buffer.old }
    requires some { 0 < most }
    ensures front { take at buffer.new ≡ take at buffer.old }
    ensures fits { IfOk result (λ count. at + count ≤ length buffer.new) }
    ensures few { IfOk result (λ count. count ≤ most) }
    ensures ok { IfOk result (λ count. Consumes (R.remaining reader.old) (R.remaining reader.new) (take count (drop at buffer.new))) }
    ensures end { IfOk result (λ count. count ≡ 0 → IsAtEnd (R.remaining reader.new)) }
    ensures err { OnErr result (Keeps (R.remaining reader.old) (R.remaining reader.new)) }
    ensures may { OnErr result (SomeKind R.fails) }
{
    let end = at + most.min(buffer.len() - at);
    read_again(reader, &mut buffer[at..end])
}

impl Filled {
    /// Makes an empty one.
    pub(crate) fn new(alloc: Global) -> Filled
        ensures { result ≡ [] }
    {
        Filled {
            bytes: Vec::new(alloc),
            count: 0,
        }
    }

    /// Returns the bytes that were filled.
    pub(crate) fn as_slice(&self) -> &[u8]
        ensures { result.now ≡ self.now }
    {
        &self.bytes.as_slice()[..self.count]
    }

    /// Makes one read of at most `most` bytes, which are appended to those that were filled. There is never room for
    /// more than `room` bytes. Returns how many were read; none only at the end of the input.
    ///
    /// # Errors
    /// `Fault` if the reader fails. `Memory` if an allocation fails; then the reader wasn't called.
    pub(crate) fn fill<R: Source>(
        &mut self,
        reader: &mut R,
        most: usize,
        room: usize,
    ) -> Result<usize, ReadFailure>
        requires some { 0 < most }
        requires few { length self.old + most ≤ room }
        ensures read { HasRead (R.remaining reader.old) (R.remaining reader.new) self.old self.new (length self.old + most) }
        ensures count { IfOk result (λ count. length self.new ≡ length self.old + count) }
        ensures end { IfOk result (λ count. count ≡ 0 → IsAtEnd (R.remaining reader.new)) }
        ensures err { IfErr result (MayBreak R.fails) }
    {
        make_room(&mut self.bytes, self.count, room)?;
        match read_at(reader, self.bytes.as_mut_slice(), self.count, most) {
            Ok(count) => {
                self.count += count;
                Ok(count)
            }
            Err(_) => Err(ReadFailure::Fault),
        }
    }
}
