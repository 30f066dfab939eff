//! The book of a run as a text, line by line.

ghost use Rattle.std.specs.Prelude.{◌≡◌, IfOk};
ghost use Rattle.cqf_model.specs.Book.{contents_of};
ghost use Rattle.cqf_output.specs.Writer.{Puts};
ghost use Rattle.cqf_report.specs.Books.{book_header, dropped_fields, lines_of_drops, lines_of_starts, name_of_reason, started_fields, text_of_book};
ghost use Rattle.cqf_report.specs.Written.{IsPlain, line_of_fields};

use cqf_model::{Book, Dropped, Reason, Started};
use cqf_output::{Buffer, CheckedSink, Sink, Writer, written_text};
use cqf_topology::{Domain, put_bridge, put_link};
use cqf_units::Memory;
use std::alloc::Global;

/// Returns the word for a reason.
pub fn reason_name(reason: Reason) -> &'static str
    ensures name { result.now ≡ name_of_reason reason }
    ensures plain { IsPlain result.now }
{
    match reason {
        Reason::Unknown => "unknown",
        Reason::Withdrawn => "withdrawn",
        Reason::OtherBridge => "other-bridge",
        Reason::Octets => "octets",
    }
}

/// Writes the header of a book.
pub fn put_book_header<W: Sink>(writer: &mut Writer<'_, W>)
    ensures { Puts W.contents writer.old writer.new (line_of_fields book_header) }
{
    writer.put(b"what,cycle,where,frame,octets,detail\n");
}

/// Writes the line of a transmission, which begins with the word for its kind.
fn put_started<W: Sink>(writer: &mut Writer<'_, W>, what: &[u8], domain: &Domain, started: &Started)
    ensures { Puts W.contents writer.old writer.new (line_of_fields (started_fields what.now domain.now started.now)) }
{
    writer.put(what);
    writer.put_byte(b',');
    writer.put_number(started.cycle.0);
    writer.put_byte(b',');
    put_link(writer, domain, started.link);
    writer.put_byte(b',');
    writer.put_number(started.frame);
    writer.put_byte(b',');
    writer.put_number(started.octets);
    writer.put_byte(b',');
    writer.put_number(started.start.0);
    writer.put_byte(b'\n');
}

/// Writes a line for each transmission, which begins with the word for their kind.
pub fn put_starts<W: Sink>(
    writer: &mut Writer<'_, W>,
    what: &[u8],
    domain: &Domain,
    starts: &[Started],
)
    ensures { Puts W.contents writer.old writer.new (lines_of_starts what.now domain.now starts.now) }
{
    for started in starts {
        put_started(writer, what, domain, started);
    }
}

/// Writes the line of a drop.
fn put_dropped<W: Sink>(writer: &mut Writer<'_, W>, domain: &Domain, dropped: &Dropped)
    ensures { Puts W.contents writer.old writer.new (line_of_fields (dropped_fields domain.now dropped.now)) }
{
    writer.put(b"drop");
    writer.put_byte(b',');
    writer.put_number(dropped.cycle.0);
    writer.put_byte(b',');
    put_bridge(writer, domain, dropped.bridge);
    writer.put_byte(b',');
    writer.put_number(dropped.frame);
    writer.put_byte(b',');
    writer.put_number(dropped.octets);
    writer.put_byte(b',');
    writer.put(reason_name(dropped.reason).as_bytes());
    writer.put_byte(b'\n');
}

/// Writes a line for each drop.
pub fn put_drops<W: Sink>(writer: &mut Writer<'_, W>, domain: &Domain, drops: &[Dropped])
    ensures { Puts W.contents writer.old writer.new (lines_of_drops domain.now drops.now) }
{
    for dropped in drops {
        put_dropped(writer, domain, dropped);
    }
}

/// Writes the text of a book, as [`write_book`] returns it.
pub fn put_book<W: Sink>(writer: &mut Writer<'_, W>, domain: &Domain, book: &Book)
    ensures { Puts W.contents writer.old writer.new (text_of_book domain.now (contents_of book.now)) }
{
    put_book_header(writer);
    put_starts(writer, b"start", domain, book.starts.as_slice());
    put_starts(writer, b"background", domain, book.background.as_slice());
    put_drops(writer, domain, book.drops.as_slice());
}

/// Returns the text of a book, or `Memory` if an allocation fails. It has the header `what,cycle,where,frame,octets,detail`; one line for
/// each transmission of a stream's frame, `start,CYCLE,FROM>TO,FRAME,OCTETS,INSTANT`; one line for each transmission of a background frame,
/// `background,CYCLE,FROM>TO,FRAME,OCTETS,INSTANT`; and one line for each drop, `drop,CYCLE,BRIDGE,FRAME,OCTETS,REASON`. Each kind is in
/// the book's order. The reasons are `unknown`, `withdrawn`, `other-bridge` and `octets`. A link, bridge or station that the domain lacks
/// has an empty name.
pub fn write_book(alloc: Global, domain: &Domain, book: &Book) -> Result<Vec<u8>, Memory>
    ensures { IfOk result (λ text. text.items ≡ text_of_book domain.now (contents_of book.now)) }
{
    let mut reported = CheckedSink::new(Vec::new(alloc));
    let mut writer = Writer::new(&mut reported, Buffer::new(alloc)?);
    put_book(&mut writer, domain, book);
    let _written = writer.close();
    written_text(reported)
}
