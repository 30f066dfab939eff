//! The bytes that the program writes.
ghost use Rattle.cqf_output.specs.Edge.{IsWritten, KeepsWritten, WritesOn, writing};

use crate::checked::CheckedSink;
use crate::sinks::Sink;
use std::io::Write;

/// Writes the text without a flush. If the writer refuses a part, only a beginning of the text is written.
fn write_part<W: Sink>(output: &mut CheckedSink<W>, text: &[u8])
    ensures { IsWritten (writing W.contents output.old output.new) text.now }
{
    let mut rest = text;
    while !rest.is_empty() {
        match output.write(rest) {
            Ok(0) => return,
            Ok(count) => rest = &rest[count..],
            Err(_) => return,
        }
    }
}

/// Writes the text and flushes the writer. If the writer refuses a write or the flush, a beginning of the text is
/// written, which may be all of it.
pub fn write_out<W: Sink>(output: &mut CheckedSink<W>, text: &[u8])
    ensures { IsWritten (writing W.contents output.old output.new) text.now }
{
    write_part(output, text);
    let _flushed = output.flush();
}

/// Writes the text after everything written before. If the writer has already refused something, nothing is written.
pub fn write_on<W: Sink>(output: &mut CheckedSink<W>, text: &[u8])
    ensures { WritesOn W.contents output.old output.new text.now }
{
    if !output.is_refused() {
        write_part(output, text);
    }
}

/// Flushes the writer, unless it has refused something.
pub fn flush_out<W: Sink>(output: &mut CheckedSink<W>)
    ensures { KeepsWritten W.contents output.old output.new }
{
    if output.is_refused() {
        return;
    }
    let _flushed = output.flush();
}
