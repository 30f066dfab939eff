//! A summary, written line by line.
ghost use Rattle.cqf_output.specs.Writer.{Puts};
ghost use Rattle.cqf_report.specs.Written.{line_of_fields};
ghost use Rattle.cqf_program_summary.specs.Summary.Text.{lines_of_fare, lines_of_fares, lines_of_others, summary_header};
ghost use Rattle.cqf_program_summary.specs.Summary.Text.{text_of_bound, text_of_least, text_of_listener, text_of_mean, text_of_most, text_of_summary};
ghost use Rattle.cqf_program_summary.specs.Summary.Text.{count_fields, last_fields, path_fields};

use crate::summary::fares::{Fares, Listener, ListenerPath, Others};
use crate::summary::sums::StreamSums;
use crate::summary::tallies::{LatencySummary, Tally};
use cqf_output::{Sink, Writer};
use cqf_program_plans::put_deadline;

/// Puts the header.
fn put_header<W: Sink>(writer: &mut Writer<'_, W>)
    ensures { Puts W.contents writer.old writer.new (line_of_fields summary_header) }
{
    writer.put(
        b"stream,listener,offered,delivered,late,dropped,under-way,least,mean,most,bound,deadline\n",
    );
}

/// Puts the name of a listener, if there is one.
fn put_listener<W: Sink>(writer: &mut Writer<'_, W>, to: &Option<Listener>)
    ensures { Puts W.contents writer.old writer.new (text_of_listener to.now) }
{
    if let Some(listener) = to {
        writer.put(listener.name.as_bytes());
    }
}

/// Puts its bound, if there is one.
fn put_bound<W: Sink>(writer: &mut Writer<'_, W>, to: &Option<Listener>)
    ensures { Puts W.contents writer.old writer.new (text_of_bound to.now) }
{
    if let Some(listener) = to {
        writer.put_number(listener.bound);
    }
}

/// Puts the least latency, if some frames arrived.
fn put_least<W: Sink>(writer: &mut Writer<'_, W>, taken: Option<LatencySummary>)
    ensures { Puts W.contents writer.old writer.new (text_of_least taken) }
{
    if let Some(taken) = taken {
        writer.put_number(taken.least);
    }
}

/// Puts the mean latency.
fn put_mean<W: Sink>(writer: &mut Writer<'_, W>, taken: Option<LatencySummary>)
    ensures { Puts W.contents writer.old writer.new (text_of_mean taken) }
{
    if let Some(taken) = taken {
        writer.put_number(taken.mean());
    }
}

/// Puts the greatest latency.
fn put_most<W: Sink>(writer: &mut Writer<'_, W>, taken: Option<LatencySummary>)
    ensures { Puts W.contents writer.old writer.new (text_of_most taken) }
{
    if let Some(taken) = taken {
        writer.put_number(taken.most);
    }
}

/// Puts the last fields of a row: the latencies, the bound and the deadline.
fn put_last<W: Sink>(
    writer: &mut Writer<'_, W>,
    to: &Option<Listener>,
    taken: Option<LatencySummary>,
    deadline: Option<u32>,
)
    ensures { Puts W.contents writer.old writer.new (line_of_fields (last_fields to.now taken deadline)) }
{
    put_least(writer, taken);
    writer.put_byte(b',');
    put_mean(writer, taken);
    writer.put_byte(b',');
    put_most(writer, taken);
    writer.put_byte(b',');
    put_bound(writer, to);
    writer.put_byte(b',');
    put_deadline(writer, deadline);
    writer.put_byte(b'\n');
}

/// Puts the fields of a row after its listener.
fn put_counts<W: Sink>(
    writer: &mut Writer<'_, W>,
    to: &Option<Listener>,
    offered: u32,
    dropped: u32,
    tally: Tally,
    deadline: Option<u32>,
)
    ensures { Puts W.contents writer.old writer.new (line_of_fields (count_fields to.now offered dropped tally deadline)) }
{
    writer.put_number(offered);
    writer.put_byte(b',');
    writer.put_number(tally.delivered);
    writer.put_byte(b',');
    writer.put_number(tally.late);
    writer.put_byte(b',');
    writer.put_number(dropped);
    writer.put_byte(b',');
    writer.put_number(tally.under_way);
    writer.put_byte(b',');
    put_last(writer, to, tally.taken, deadline);
}

/// Puts the row of a path of a stream.
fn put_path<W: Sink>(writer: &mut Writer<'_, W>, fares: &Fares, path: &ListenerPath)
    ensures { Puts W.contents writer.old writer.new (line_of_fields (path_fields fares.now path.now)) }
{
    writer.put(fares.name.as_bytes());
    writer.put_byte(b',');
    put_listener(writer, &path.to);
    writer.put_byte(b',');
    let (offered, dropped) = (fares.offered, fares.dropped);
    put_counts(
        writer,
        &path.to,
        offered,
        dropped,
        path.tally,
        fares.deadline,
    );
}

/// Puts the rows of a stream.
fn put_fare<W: Sink>(writer: &mut Writer<'_, W>, fares: &Fares)
    ensures { Puts W.contents writer.old writer.new (lines_of_fare fares.now) }
{
    for path in fares.paths.as_slice() {
        put_path(writer, fares, path);
    }
}

/// Puts the rows of all streams.
fn put_fares<W: Sink>(writer: &mut Writer<'_, W>, fares: &[Fares])
    ensures { Puts W.contents writer.old writer.new (lines_of_fares fares.now) }
{
    for each in fares {
        put_fare(writer, each);
    }
}

/// Puts the row of other names, if there are any.
fn put_others<W: Sink>(writer: &mut Writer<'_, W>, others: Others)
    ensures { Puts W.contents writer.old writer.new (lines_of_others others) }
{
    if others.offered == 0 {
        return;
    }
    writer.put(b"?,,");
    put_counts(
        writer,
        &None,
        others.offered,
        others.dropped,
        Tally::none(),
        None,
    );
}

/// Puts the text of a summary.
pub(crate) fn put_summary<W: Sink>(writer: &mut Writer<'_, W>, sums: &StreamSums)
    ensures { Puts W.contents writer.old writer.new (text_of_summary sums.now) }
{
    put_header(writer);
    put_fares(writer, sums.fares());
    put_others(writer, sums.others());
}
