//! Latencies, written line by line.
ghost use Rattle.cqf_output.specs.Edge.{IsWritten, writing};
ghost use Rattle.cqf_output.specs.Writer.{Puts};
ghost use Rattle.cqf_report.specs.Written.{line_of_fields};
ghost use Rattle.cqf_program_plans.specs.Latency.Text.{latency_fields, latency_header, lines_of_latencies, text_of_deadline, text_of_latency, text_of_verdict};

use crate::latency::latencies::{Latency, Verdict};
use crate::latency::outputs::LatencyOutput;
use cqf_output::{CheckedSink, Sink, Writer};

/// Puts the header of latencies.
fn put_header<W: Sink>(writer: &mut Writer<'_, W>)
    ensures { Puts W.contents writer.old writer.new (line_of_fields latency_header) }
{
    writer.put(b"stream,listener,bridges,least,most,window,deadline,verdict\n");
}

/// Puts a deadline, if there is one.
pub fn put_deadline<W: Sink>(writer: &mut Writer<'_, W>, deadline: Option<u32>)
    ensures { Puts W.contents writer.old writer.new (text_of_deadline deadline) }
{
    if let Some(deadline) = deadline {
        writer.put_number(deadline);
    }
}

/// Puts a verdict, if there is one.
fn put_verdict<W: Sink>(writer: &mut Writer<'_, W>, verdict: Option<Verdict>)
    ensures { Puts W.contents writer.old writer.new (text_of_verdict verdict) }
{
    if let Some(verdict) = verdict {
        writer.put(verdict.name().as_bytes());
    }
}

/// Puts the line of a latency.
fn put_latency<W: Sink>(writer: &mut Writer<'_, W>, latency: &Latency)
    ensures { Puts W.contents writer.old writer.new (line_of_fields (latency_fields latency.now)) }
{
    writer.put(latency.stream.as_bytes());
    writer.put_byte(b',');
    writer.put(latency.listener.as_bytes());
    writer.put_byte(b',');
    writer.put_number(latency.bridges);
    writer.put_byte(b',');
    writer.put_number(latency.least);
    writer.put_byte(b',');
    writer.put_number(latency.most);
    writer.put_byte(b',');
    writer.put_number(latency.window);
    writer.put_byte(b',');
    put_deadline(writer, latency.deadline);
    writer.put_byte(b',');
    put_verdict(writer, latency.verdict());
    writer.put_byte(b'\n');
}

/// Puts a line for each latency.
fn put_each<W: Sink>(writer: &mut Writer<'_, W>, latencies: &[Latency])
    ensures { Puts W.contents writer.old writer.new (lines_of_latencies latencies.now) }
{
    for latency in latencies {
        put_latency(writer, latency);
    }
}

/// Puts the text of latencies.
fn put_latencies<W: Sink>(writer: &mut Writer<'_, W>, latencies: &[Latency])
    ensures { Puts W.contents writer.old writer.new (text_of_latency latencies.now) }
{
    put_header(writer);
    put_each(writer, latencies);
}

impl LatencyOutput {
    /// Writes the output: the latencies, in order. It allocates no memory.
    pub fn write<W: Sink>(self, reported: &mut CheckedSink<W>)
        ensures { IsWritten (writing W.contents reported.old reported.new) (text_of_latency self) }
    {
        let LatencyOutput { latencies, buffer } = self;
        let mut writer = Writer::new(reported, buffer);
        put_latencies(&mut writer, latencies.as_slice());
        let _written = writer.close();
    }
}
