//! Readers, by the errors with which they may fail.
ghost use Rattle.std.specs.Prelude.{IfErr, ⊤};
ghost use Rattle.std.specs.IoError.{error_kind};
ghost use Rattle.std.specs.Io.{ReadsAtMost};
ghost use Rattle.std.specs.Io.KnownBytes.{ReadConsumes};
ghost use Rattle.std.specs.declared.io.ErrorKind.{ErrorKind};

use std::fs::File;
use std::io;
use std::io::{Read, Stdin};

/// A reader with the kinds of error with which it may fail.
pub trait Source: Read {
    // The kinds of error with which a read may end.
    ghost fails: { ErrorKind → Type 0 };

    /// Makes one read, as [`Read::read`] does.
    fn read_some(&mut self, buffer: &mut [u8]) -> io::Result<usize>
        ensures bound { ReadsAtMost result buffer.new }
        ensures bytes { ReadConsumes (Self.remaining self.old) (Self.remaining self.new) result buffer.new }
        ensures err { IfErr result (λ error. fails (error_kind error)) };
}

/// Bytes in memory never fail.
impl Source for &[u8] {
    ghost fails = { λ _. ⊥ };

    fn read_some(&mut self, buffer: &mut [u8]) -> io::Result<usize> {
        self.read(buffer)
    }
}

/// Standard input may fail with any error.
impl Source for Stdin {
    ghost fails = { λ _. ⊤ };

    fn read_some(&mut self, buffer: &mut [u8]) -> io::Result<usize> {
        self.read(buffer)
    }
}

/// A file may fail with any error.
impl Source for File {
    ghost fails = { λ _. ⊤ };

    fn read_some(&mut self, buffer: &mut [u8]) -> io::Result<usize> {
        self.read(buffer)
    }
}
