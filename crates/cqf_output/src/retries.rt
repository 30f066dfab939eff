//! Writes and flushes that a signal interrupts (EINTR) are repeated. Any other failure is final, including that of a
//! writer that would have to wait (EAGAIN). An operation that is interrupted 2^64 - 1 times in a row fails too.
ghost use Rattle.std.specs.Prelude.{◌≡◌, ◌≢◌, ◌<◌, IfErr, IfOk, OnErr, length};
ghost use Rattle.std.specs.IoError.{error_kind};
ghost use Rattle.std.specs.Io.{WritesAtMost};
ghost use Rattle.std.specs.Io.KnownBytes.{Keeps, WriteAppends};
ghost use Rattle.cqf_output.specs.Kinds.{SomeKind};

use crate::sinks::Sink;
use std::io;
use std::io::ErrorKind;

/// Writes once, and repeats the write if a signal interrupts it.
pub(crate) fn write_again<W: Sink>(writer: &mut W, bytes: &[u8]) -> io::Result<usize>
    ensures bound { WritesAtMost result bytes.now }
    ensures bytes { WriteAppends (W.contents writer.old) (W.contents writer.new) result bytes.now }
    ensures none { IfOk result (λ count. count ≡ 0 → 0 < length bytes.now → SomeKind W.refuses) }
    ensures made_again { IfErr result (λ error. error_kind error ≢ ErrorKind.Interrupted) }
    ensures may { OnErr result (SomeKind W.refuses) }
{
    for _ in 0..u64::MAX {
        match writer.write_some(bytes) {
            Ok(count) => return Ok(count),
            Err(error) => {
                if error.kind() != ErrorKind::Interrupted {
                    return Err(error);
                }
            }
        }
    }
    Err(io::Error::from(ErrorKind::TimedOut))
}

/// Flushes once, and repeats the flush if a signal interrupts it.
pub(crate) fn flush_again<W: Sink>(writer: &mut W) -> io::Result<()>
    ensures bytes { Keeps (W.contents writer.old) (W.contents writer.new) }
    ensures made_again { IfErr result (λ error. error_kind error ≢ ErrorKind.Interrupted) }
    ensures may { OnErr result (SomeKind W.refuses) }
{
    for _ in 0..u64::MAX {
        match writer.hand_on() {
            Ok(()) => return Ok(()),
            Err(error) => {
                if error.kind() != ErrorKind::Interrupted {
                    return Err(error);
                }
            }
        }
    }
    Err(io::Error::from(ErrorKind::TimedOut))
}
