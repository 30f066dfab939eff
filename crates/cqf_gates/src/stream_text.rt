//! The lists of stream gates as text.
ghost use Rattle.std.specs.Prelude.{◌≡◌, ◌++◌, IfOk, codes, decimal};
ghost use Rattle.cqf_gates.specs.StreamText.{is_shut, line_of_open, line_of_stream_entry, octet_max_text, text_of_stream_entries};
ghost use Rattle.cqf_output.specs.Writer.{Puts};

use crate::{StreamEntry, StreamList};
use cqf_output::{Buffer, CheckedSink, Sink, Writer, written_text};
use cqf_units::Memory;
use std::alloc::Global;

/// Returns whether no frame of one or more octets is within the octet maximum, so that the entry is written as closed.
pub fn is_shut(octet_max: Option<u32>) -> bool
    ensures { result ≡ is_shut octet_max }
{
    octet_max == Some(0)
}

/// Puts an octet maximum, or `-` if there is none.
fn put_maximum<W: Sink>(writer: &mut Writer<'_, W>, octet_max: Option<u32>)
    ensures { Puts W.contents writer.old writer.new (octet_max_text octet_max) }
{
    match octet_max {
        Some(most) => writer.put_number(most),
        None => writer.put(b"-"),
    }
}

/// Puts the line of an entry in which frames may pass.
fn put_open<W: Sink>(writer: &mut Writer<'_, W>, entry: StreamEntry)
    ensures { Puts W.contents writer.old writer.new (line_of_open entry) }
{
    writer.put(b"open ");
    writer.put_number(entry.ipv);
    writer.put(b" ");
    writer.put_number(entry.interval);
    writer.put(b" ");
    put_maximum(writer, entry.octet_max);
}

/// Puts the line of an entry in which none may pass.
fn put_closed<W: Sink>(writer: &mut Writer<'_, W>, interval: u32)
    ensures { Puts W.contents writer.old writer.new (codes "closed " ++ decimal interval) }
{
    writer.put(b"closed ");
    writer.put_number(interval);
}

/// Puts the line of an entry of a stream's gate.
fn put_entry<W: Sink>(writer: &mut Writer<'_, W>, entry: StreamEntry)
    ensures { Puts W.contents writer.old writer.new (line_of_stream_entry entry) }
{
    if is_shut(entry.octet_max) {
        put_closed(writer, entry.interval);
    } else {
        put_open(writer, entry);
    }
}

/// Puts the text of a stream gate's list, as [`write_stream`] returns it. Requests no memory.
pub fn put_stream<W: Sink>(writer: &mut Writer<'_, W>, list: &StreamList)
    ensures { Puts W.contents writer.old writer.new (text_of_stream_entries list.now) }
{
    for entry in list.entries() {
        put_entry(writer, *entry);
        writer.put_byte(b'\n');
    }
}

/// Returns the text of a stream gate's list. Each entry is a line with `open`, the internal priority value, the
/// interval and the octet maximum (`-` if there is none); if the octet maximum is 0, so that no frame passes, the line
/// has `closed` and the interval. Returns `Memory` if an allocation fails.
pub fn write_stream(alloc: Global, list: &StreamList) -> Result<Vec<u8>, Memory>
    ensures { IfOk result (λ text. text.items ≡ text_of_stream_entries list.now) }
{
    let mut reported = CheckedSink::new(Vec::new(alloc));
    let mut writer = Writer::new(&mut reported, Buffer::new(alloc)?);
    put_stream(&mut writer, list);
    let _written = writer.close();
    written_text(reported)
}
