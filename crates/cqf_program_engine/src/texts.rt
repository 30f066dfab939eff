//! The texts of several readers.
ghost use Rattle.std.specs.Prelude.{◌≡◌, ◌≤◌, ◌<◌, ◌^◌, ◌+◌, ◌∷◌, [], ◌++◌, IfErr, IfOk, OnOk, length, map};
ghost use Rattle.std.specs.Io.KnownBytes.{IsAtEnd};
ghost use Rattle.cqf_program_engine.specs.Edge.{HasRead, piece_of, pieces_of};
ghost use Rattle.cqf_program_engine.specs.Run.{EndsText};

use crate::filled::{Filled, STEP};
use crate::inputs::{stop_of, stop_of_length};
use crate::sources::Source;
use cqf_output::Stop;
use cqf_units::Memory;
use std::alloc::Global;

/// The texts of several readers, with one bound for all together: at most one byte more than the bound is read.
#[derive(Drop)]
pub struct Texts {
    bytes: Filled,
    ends: Vec<usize>,
}

/// Returns the bytes from one index up to another; none if there are no such indexes.
fn piece_of(bytes: &[u8], start: usize, end: usize) -> &[u8]
    ensures { result.now ≡ piece_of bytes.now start end }
{
    if start <= end && end <= bytes.len() {
        &bytes[start..end]
    } else {
        &[]
    }
}

impl Texts {
    /// Makes an empty one.
    pub fn new(alloc: Global) -> Texts
        ensures bytes { result.bytes ≡ [] }
        ensures ends { result.ends.items ≡ [] }
    {
        Texts {
            bytes: Filled::new(alloc),
            ends: Vec::new(alloc),
        }
    }

    /// Reads all bytes of a reader as one more text.
    ///
    /// # Errors
    /// With status 4 if the reader fails, with status 1 if all texts together have more than `most` bytes, and with
    /// status 3 if an allocation fails.
    pub fn read<R: Source>(
        &mut self,
        alloc: Global,
        most: usize,
        reader: &mut R,
    ) -> Result<(), Stop>
        requires small { most < 2 ^ 63 }
        requires few { length self.old.bytes ≤ most }
        ensures read { HasRead (R.remaining reader.old) (R.remaining reader.new) self.old.bytes self.new.bytes (most + 1) }
        ensures end { OnOk result (IsAtEnd (R.remaining reader.new)) }
        ensures short { OnOk result (length self.new.bytes ≤ most) }
        ensures ends { OnOk result (self.new.ends.items ≡ self.old.ends.items ++ length self.new.bytes ∷ []) }
        ensures err { IfErr result (EndsText R.fails most self.new.bytes) }
    {
        self.fill(alloc, most, reader)?;
        let end = self.bytes.as_slice().len();
        match self.ends.push(end) {
            Ok(()) => Ok(()),
            Err(_) => Err(Stop::memory(alloc)),
        }
    }

    /// Reads all bytes of a reader.
    fn fill<R: Source>(&mut self, alloc: Global, most: usize, reader: &mut R) -> Result<(), Stop>
        requires small { most < 2 ^ 63 }
        requires few { length self.old.bytes ≤ most }
        ensures read { HasRead (R.remaining reader.old) (R.remaining reader.new) self.old.bytes self.new.bytes (most + 1) }
        ensures end { OnOk result (IsAtEnd (R.remaining reader.new)) }
        ensures short { OnOk result (length self.new.bytes ≤ most) }
        ensures ends { self.new.ends.items ≡ self.old.ends.items }
        ensures err { IfErr result (EndsText R.fails most self.new.bytes) }
    {
        while self.bytes.as_slice().len() <= most {
            let step = STEP.min(most + 1 - self.bytes.as_slice().len());
            match self.bytes.fill(reader, step, most + 1) {
                Ok(0) => return Ok(()),
                Ok(_) => {}
                Err(cause) => return Err(stop_of(alloc, cause)),
            }
        }
        Err(stop_of_length(alloc))
    }

    /// Returns the texts, in the order in which they were read. Returns `Memory` if an allocation fails.
    pub fn texts(&self, alloc: Global) -> Result<Vec<&[u8]>, Memory>
        ensures { IfOk result (λ texts. map (λ text. text.now) texts.items ≡ pieces_of self.now.bytes 0 self.now.ends.items) }
    {
        let bytes = self.bytes.as_slice();
        let mut texts = Vec::new(alloc);
        let mut start = 0;
        for end in &self.ends {
            texts.push(piece_of(bytes, start, *end))?;
            start = *end;
        }
        Ok(texts)
    }
}
