//! A book, written from its traces: cycle by cycle and link by link, each transmission once.
ghost use Rattle.std.specs.Prelude.{◌+◌, ◌<◌, length};
ghost use Rattle.cqf_model.specs.Limits.{most_cycles};
ghost use Rattle.cqf_output.specs.Writer.{Puts};
ghost use Rattle.cqf_report.specs.Books.{lines_of_drops, lines_of_starts, text_of_book};
ghost use Rattle.cqf_trace.specs.Traces.{IsEndBefore, IsInOrder, MayBeReported, drops_at_bridges, drops_in_cycles};
ghost use Rattle.cqf_trace.specs.Traces.{reported_in_cycles, reported_on, reported_on_links};
ghost use Rattle.cqf_trace.specs.Reporting.{AreDropIndices, AreIndices};
ghost use Rattle.cqf_program_threads.specs.PagedBooks.{contents_written};

use crate::paged::PagedBook;
use cqf_output::{Sink, Writer};
use cqf_report::{put_book_header, put_drops, put_starts};
use cqf_topology::Domain;
use cqf_trace::{Mark, Traces, TransmissionKind, drops_end_of, end_of, started_on};
use cqf_units::Cycle;

/// The transmissions to write: those of a kind, with their first word, on the traces of a domain.
#[derive(Clone, Copy)]
struct WrittenTransmissions<'w, 'd, 't> {
    what: &'w [u8],
    kind: TransmissionKind,
    domain: &'d Domain,
    traces: &'t Traces,
}

/// Puts a line for each mark of a cycle on a link's trace, and returns the index at which these marks end.
fn put_on_link<W: Sink>(
    writer: &mut Writer<'_, W>,
    part: WrittenTransmissions<'_, '_, '_>,
    cycle: Cycle,
    link: u16,
    marks: &[Mark],
    from: usize,
) -> usize
    requires early { cycle.0 < most_cycles }
    requires order { IsInOrder marks.now }
    requires before { IsEndBefore part.domain.now cycle.0 marks.now from }
    ensures following { IsEndBefore part.entry.domain.now (cycle.0 + 1) marks.now result }
    ensures puts { Puts W.contents writer.old writer.new
        (lines_of_starts part.entry.what.now part.entry.domain.now (reported_on part.entry.domain.now cycle.0 link marks.now)) }
{
    let end = end_of(part.domain, cycle, marks, from);
    let own = &marks[from..end];
    for mark in own {
        let started = [started_on(cycle, link, *mark)];
        put_starts(writer, part.what, part.domain, &started);
    }
    end
}

/// Puts a line for each mark of a cycle, link by link. `indices` are the indexes at which the cycles before end, and
/// afterwards those at which this cycle ends.
fn put_cycle<W: Sink>(
    writer: &mut Writer<'_, W>,
    part: WrittenTransmissions<'_, '_, '_>,
    cycle: Cycle,
    indices: &mut [usize; 4096],
)
    requires early { cycle.0 < most_cycles }
    requires traces { MayBeReported part.domain.now part.traces.now }
    requires before { AreIndices part.domain.now part.kind part.traces.now cycle.0 indices.old }
    ensures following { AreIndices part.entry.domain.now part.entry.kind part.entry.traces.now (cycle.0 + 1) indices.new }
    ensures puts { Puts W.contents writer.old writer.new (lines_of_starts part.entry.what.now part.entry.domain.now
        (reported_on_links part.entry.domain.now part.entry.kind part.entry.traces.now cycle.0 (length part.entry.domain.now.links))) }
{
    for link in 0..part.domain.links() {
        let marks = part.traces.marks(part.kind, link);
        let index = usize::from(link);
        let from = indices[index];
        indices[index] = put_on_link(writer, part, cycle, link, marks, from);
    }
}

/// Puts a line for each transmission of a kind, cycle by cycle.
fn put_starts_of_kind<W: Sink>(
    writer: &mut Writer<'_, W>,
    what: &[u8],
    kind: TransmissionKind,
    book: &PagedBook,
)
    ensures { Puts W.contents writer.old writer.new
        (lines_of_starts what.now book.now.domain (reported_in_cycles book.now.domain kind book.now.traces book.now.cycles)) }
{
    let part = WrittenTransmissions {
        what,
        kind,
        domain: book.domain(),
        traces: book.traces(),
    };
    part.domain.know();
    let mut indices = [0; 4096];
    for cycle in 0..book.cycles() {
        put_cycle(writer, part, Cycle(cycle), &mut indices);
    }
}

/// Puts a line for each drop of a cycle, bridge by bridge. `indices` are the indexes at which the cycles before end, and
/// afterwards those at which this cycle ends.
fn put_drops_of_cycle<W: Sink>(
    writer: &mut Writer<'_, W>,
    domain: &Domain,
    traces: &Traces,
    cycle: Cycle,
    indices: &mut [usize; 1024],
)
    requires traces { MayBeReported domain.now traces.now }
    requires before { AreDropIndices domain.now traces.now cycle.0 indices.old }
    ensures following { AreDropIndices domain.now traces.now (cycle.0 + 1) indices.new }
    ensures puts { Puts W.contents writer.old writer.new
        (lines_of_drops domain.now (drops_at_bridges traces.now cycle.0 (length domain.now.bridges))) }
{
    for bridge in 0..domain.bridges() {
        let drops = traces.drops(bridge);
        let index = usize::from(bridge);
        let from = indices[index];
        let end = drops_end_of(cycle, drops, from);
        put_drops(writer, domain, &drops[from..end]);
        indices[index] = end;
    }
}

/// Puts a line for each drop, cycle by cycle.
fn put_all_drops<W: Sink>(writer: &mut Writer<'_, W>, book: &PagedBook)
    ensures { Puts W.contents writer.old writer.new
        (lines_of_drops book.now.domain (drops_in_cycles book.now.domain book.now.traces book.now.cycles)) }
{
    let domain = book.domain();
    domain.know();
    let mut indices = [0; 1024];
    for cycle in 0..book.cycles() {
        put_drops_of_cycle(writer, domain, book.traces(), Cycle(cycle), &mut indices);
    }
}

/// Puts the text of the book of the traces, as `cqf_report::write_book` writes it: its header, the starts of streams'
/// frames, those of background frames, and the drops. Allocates no memory. The time grows with the lines, and with the
/// cycles times the links.
pub fn put_paged_book<W: Sink>(writer: &mut Writer<'_, W>, book: &PagedBook)
    ensures { Puts W.contents writer.old writer.new (text_of_book book.now.domain (contents_written book.now)) }
{
    put_book_header(writer);
    put_starts_of_kind(writer, b"start", TransmissionKind::Stream, book);
    put_starts_of_kind(writer, b"background", TransmissionKind::Background, book);
    put_all_drops(writer, book);
}
