//! The starts of a port as a text, line by line.

ghost use Rattle.std.specs.Prelude.{◌≡◌, ◌^◌, ◌<◌, All, IfOk};
ghost use Rattle.cqf_output.specs.Writer.{Puts};
ghost use Rattle.cqf_units.specs.Timing.{ticks_of_octet};
ghost use Rattle.cqf_report.specs.Written.{line_of_fields};
ghost use Rattle.cqf_report.specs.Starts.{lines_of_port, start_fields, start_header, text_of_starts};

use cqf_model::Start;
use cqf_output::{Buffer, CheckedSink, Sink, Writer, written_text};
use cqf_units::{Memory, Octets, Rate, end_of};
use std::alloc::Global;

/// Writes the header of a port's starts.
pub fn put_port_header<W: Sink>(writer: &mut Writer<'_, W>)
    ensures { Puts W.contents writer.old writer.new (line_of_fields start_header) }
{
    writer.put(b"class,frame,start,end\n");
}

/// Writes the line of a start, with the instant at which its frame ends at this rate (IEEE 802.3). The start is before 2^63 ns.
pub fn put_port_start<W: Sink>(writer: &mut Writer<'_, W>, start: &Start, rate: Rate)
    requires { start.now.start.0 < 2 ^ 63 }
    ensures { Puts W.contents writer.old writer.new (line_of_fields (start_fields (ticks_of_octet rate) start.now)) }
{
    let end = end_of(start.start, Octets(start.octets), rate);
    writer.put_number(start.class);
    writer.put_byte(b',');
    writer.put_number(start.frame);
    writer.put_byte(b',');
    writer.put_number(start.start.0);
    writer.put_byte(b',');
    writer.put_number(end.0);
    writer.put_byte(b'\n');
}

/// Writes a line for each start.
fn put_each<W: Sink>(writer: &mut Writer<'_, W>, starts: &[Start], rate: Rate)
    requires { All (λ start. start.start.0 < 2 ^ 63) starts.now }
    ensures { Puts W.contents writer.old writer.new (lines_of_port (ticks_of_octet rate) starts.now) }
{
    for start in starts {
        put_port_start(writer, start, rate);
    }
}

/// Returns the text of starts, or `Memory` if an allocation fails. It has the header `class,frame,start,end`, and one line for each start,
/// in their order. `end` is the instant at which the frame ends at this rate (IEEE 802.3). Each start is before 2^63 ns.
pub fn write_starts(alloc: Global, starts: &[Start], rate: Rate) -> Result<Vec<u8>, Memory>
    requires { All (λ start. start.start.0 < 2 ^ 63) starts.now }
    ensures { IfOk result (λ text. text.items ≡ text_of_starts (ticks_of_octet rate) starts.now) }
{
    let mut reported = CheckedSink::new(Vec::new(alloc));
    let mut writer = Writer::new(&mut reported, Buffer::new(alloc)?);
    put_port_header(&mut writer);
    put_each(&mut writer, starts, rate);
    let _written = writer.close();
    written_text(reported)
}
