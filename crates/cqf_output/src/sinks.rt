//! Writers whose possible kinds of error are known.
ghost use Rattle.std.specs.Prelude.{◌≡◌, ◌<◌, IfErr, IfOk, length, ⊤};
ghost use Rattle.std.specs.IoError.{error_kind};
ghost use Rattle.std.specs.Io.{WritesAtMost};
ghost use Rattle.std.specs.Io.KnownBytes.{Keeps, WriteAppends};
ghost use Rattle.std.specs.declared.io.ErrorKind.{ErrorKind};

use std::io;
use std::io::{ErrorKind, Stderr, Stdout, Write};

/// A writer whose possible kinds of error are known.
pub trait Sink: Write {
    // The kinds of error that a write or a flush may end with. `WriteZero` is for a write that takes none of at least one byte.
    ghost refuses: { ErrorKind → Type 0 };

    /// Writes once, as [`Write::write`] does.
    fn write_some(&mut self, bytes: &[u8]) -> io::Result<usize>
        ensures bound { WritesAtMost result bytes.now }
        ensures bytes { WriteAppends (Self.contents self.old) (Self.contents self.new) result bytes.now }
        ensures none { IfOk result (λ count. count ≡ 0 → 0 < length bytes.now → refuses ErrorKind.WriteZero) }
        ensures err { IfErr result (λ error. refuses (error_kind error)) };

    /// Flushes once, as [`Write::flush`] does.
    fn hand_on(&mut self) -> io::Result<()>
        ensures bytes { Keeps (Self.contents self.old) (Self.contents self.new) }
        ensures err { IfErr result (λ error. refuses (error_kind error)) };
}

/// A list of bytes refuses only if an allocation fails.
impl Sink for Vec<u8> {
    ghost refuses = { λ kind. kind ≡ ErrorKind.OutOfMemory };

    fn write_some(&mut self, bytes: &[u8]) -> io::Result<usize> {
        self.write(bytes)
    }

    fn hand_on(&mut self) -> io::Result<()> {
        self.flush()
    }
}

/// Standard output may refuse for any reason.
impl Sink for Stdout {
    ghost refuses = { λ _. ⊤ };

    fn write_some(&mut self, bytes: &[u8]) -> io::Result<usize> {
        self.write(bytes)
    }

    fn hand_on(&mut self) -> io::Result<()> {
        self.flush()
    }
}

/// Standard error may refuse for any reason.
impl Sink for Stderr {
    ghost refuses = { λ _. ⊤ };

    fn write_some(&mut self, bytes: &[u8]) -> io::Result<usize> {
        self.write(bytes)
    }

    fn hand_on(&mut self) -> io::Result<()> {
        self.flush()
    }
}
