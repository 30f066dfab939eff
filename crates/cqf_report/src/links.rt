//! The sums of streams' frames by link, as a text.

ghost use Rattle.std.specs.Prelude.{ℕ, ◌≡◌, ◌≤◌, ◌<◌, ◌^◌, [], List, IfOk, OnOk, length, map, max, replicate, sum, sum_by, slice_index, slice_set};
ghost use Rattle.cqf_lists.specs.ByNumber.{AddsTo, lists_of};
ghost use Rattle.cqf_model.specs.Book.{contents_of};
ghost use Rattle.cqf_model.specs.declared.frames.Started.{Started as AStarted};
ghost use Rattle.cqf_model.specs.OnLinks.{frames_on, octets_on};
ghost use Rattle.cqf_output.specs.Writer.{Puts};
ghost use Rattle.cqf_laws_coverage.specs.InOneCycle.{most_on};
ghost use Rattle.cqf_topology.specs.NodeNames.{name_of_link};
ghost use Rattle.cqf_report.specs.Written.{line_of_fields};
ghost use Rattle.cqf_report.specs.ByLink.{AreListsByLink};
ghost use Rattle.cqf_report.specs.LinkSums.{AreSumsInOrder, are_of_one_batch, link_header, links_text, sums_fields};

use cqf_lanes::octet_sum;
use cqf_model::{Book, Started};
use cqf_output::{Buffer, CheckedSink, Sink, Writer, written_text};
use cqf_topology::{Domain, put_link};
use cqf_units::Memory;
use rayon::prelude::*;
use std::alloc::Global;
use std::thread::Threads;

/// The most starts that are summed at a time.
const PIECE: usize = 1_048_576;

/// The number of links that a start can name.
const LINKS: usize = 65_536;

/// A number of frames, and the sum of their octets.
#[derive(Clone, Copy)]
pub(crate) struct FrameSums {
    pub(crate) frames: u128,
    pub(crate) octets: u128,
}

/// Returns an empty list of octets for each of the links 0 to 65,535.
fn no_octets(alloc: Global) -> Result<Vec<Vec<u32>>, Memory>
    ensures { IfOk result (λ by_link. AreListsByLink [] 65536 (lists_of by_link.items)) }
{
    let mut by_link = Vec::with_capacity(alloc, LINKS)?;
    for _link in 0..LINKS {
        by_link.push(Vec::new(alloc))?;
    }
    Ok(by_link)
}

/// Appends octets to those of a link.
fn list_octets(by_link: &mut Vec<Vec<u32>>, link: u16, octets: u32) -> Result<(), Memory>
    requires { length by_link.old.items ≡ 65536 }
    ensures { OnOk result (AddsTo (lists_of by_link.old.items) (lists_of by_link.new.items) link octets) }
{
    by_link[usize::from(link)].push(octets)?;
    Ok(())
}

/// Returns the octets of the starts on each of the links 0 to 65,535, in their order. Each start is read once.
fn octets_by_link(alloc: Global, starts: &[Started]) -> Result<Vec<Vec<u32>>, Memory>
    ensures { IfOk result (λ by_link. AreListsByLink starts.now 65536 (lists_of by_link.items)) }
{
    let mut by_link = no_octets(alloc)?;
    for start in starts {
        list_octets(&mut by_link, start.link, start.octets)?;
    }
    Ok(by_link)
}

/// Returns the sum of a piece of a link's octets. Many threads share the work.
fn sum_of_piece(rt: &(impl Threads + Sync), piece: &[u32]) -> u64
    requires { length piece.now ≤ 1048576 }
    ensures { result ≡ sum piece.now }
{
    piece
        .par_iter()
        .map(
            |octets: &u32| -> u64
                ensures same { result ≡ octets.now }
                ensures short { result < 2 ^ 32 }
            { u64::from(*octets) },
        )
        .sum(rt)
}

/// Returns the sum of a link's octets, computed in pieces.
pub(crate) fn sum_of(rt: &(impl Threads + Sync), listed: &[u32]) -> u128
    ensures { result ≡ sum listed.now }
{
    let mut octets: u128 = 0;
    for piece in listed.chunks(PIECE) {
        octets += u128::from(sum_of_piece(rt, piece));
    }
    octets
}

/// Returns the sums of a link's starts, given the octets listed for each link.
fn sums_of_link(rt: &(impl Threads + Sync), by_link: &[Vec<u32>], link: u16) -> FrameSums
    requires { length by_link.now ≡ 65536 }
    ensures frames { (starts : List AStarted) → AreListsByLink starts 65536 (lists_of by_link.now) → result.frames ≡ frames_on link starts }
    ensures octets { (starts : List AStarted) → AreListsByLink starts 65536 (lists_of by_link.now) → result.octets ≡ octets_on link starts }
{
    let listed = by_link[usize::from(link)].as_slice();
    FrameSums {
        frames: listed.len() as u128,
        octets: sum_of(rt, listed),
    }
}

/// Returns the sum of the octets of starts.
fn octets_of(alloc: Global, starts: &[Started]) -> Result<u128, Memory>
    ensures { IfOk result (λ octets. octets ≡ sum_by (λ start. start.octets) starts.now) }
{
    let mut octets: u128 = 0;
    for piece in starts.chunks(PIECE) {
        let column = octet_column(alloc, piece)?;
        octets += u128::from(octet_sum(column.as_slice()));
    }
    Ok(octets)
}

/// Returns the octets of each start.
fn octet_column(alloc: Global, starts: &[Started]) -> Result<Vec<u32>, Memory>
    ensures { IfOk result (λ column. column.items ≡ map (λ start. start.octets) starts.now) }
{
    let mut column = Vec::with_capacity(alloc, starts.len())?;
    for start in starts {
        column.push(start.octets)?;
    }
    Ok(column)
}

/// Raises the entry of a link to a number, if the number is greater.
fn raise(most: &mut Vec<u128>, link: u16, octets: u128)
    requires { length most.old.items ≡ 65536 }
    ensures { most.new.items ≡ slice_set most.old.items link (max (slice_index most.old.items link) octets) }
{
    let index = usize::from(link);
    most[index] = most[index].max(octets);
}

/// Returns a list of zeros.
fn zeros(alloc: Global, count: usize) -> Result<Vec<u128>, Memory>
    ensures { IfOk result (λ zeros. zeros.items ≡ replicate count 0) }
{
    let zeros = vec![in alloc; 0; count]?;
    Ok(zeros)
}

/// Returns the most octets that each of the links 0 to 65,535 has in one cycle. The starts are in order, so those on one link in one cycle
/// are adjacent.
fn most_by_link(alloc: Global, starts: &[Started]) -> Result<Vec<u128>, Memory>
    requires { AreSumsInOrder starts.now }
    ensures all { IfOk result (λ most. length most.items ≡ 65536) }
    ensures most { IfOk result (λ most. (link : ℕ) → link < 65536 → slice_index most.items link ≡ most_on link starts.now) }
{
    let mut most = zeros(alloc, LINKS)?;
    for batch in starts.chunk_by(
        |first: &Started, second: &Started| -> bool
            ensures { result ≡ are_of_one_batch first.now second.now }
        { first.link == second.link && first.cycle.0 == second.cycle.0 },
    ) {
        let octets = octets_of(alloc, batch)?;
        raise(&mut most, batch[0].link, octets);
    }
    Ok(most)
}

/// Writes the line of a link.
pub(crate) fn put_sums<W: Sink>(
    writer: &mut Writer<'_, W>,
    domain: &Domain,
    link: u16,
    sums: FrameSums,
    most: u128,
)
    ensures { Puts W.contents writer.old writer.new
        (line_of_fields (sums_fields (name_of_link domain.now link) sums.frames sums.octets most)) }
{
    put_link(writer, domain, link);
    writer.put_byte(b',');
    writer.put_number(sums.frames);
    writer.put_byte(b',');
    writer.put_number(sums.octets);
    writer.put_byte(b',');
    writer.put_number(most);
    writer.put_byte(b'\n');
}

/// Writes the header.
pub(crate) fn put_header<W: Sink>(writer: &mut Writer<'_, W>)
    ensures { Puts W.contents writer.old writer.new (line_of_fields link_header) }
{
    writer.put(b"link,frames,octets,most\n");
}

/// Returns the sums of a book's streams' frames by link, or `Memory` if an allocation fails. The text has the header
/// `link,frames,octets,most`, and one line for each link, by number, `FROM>TO,FRAMES,OCTETS,MOST`: the number of frames that the link
/// started, the sum of their octets, and the most octets that it started in one cycle. Background frames don't count. The starts must be in
/// order of cycle, and within a cycle in order of link, as in every book.
pub fn write_links(
    rt: &(impl Threads + Sync),
    alloc: Global,
    domain: &Domain,
    book: &Book,
) -> Result<Vec<u8>, Memory>
    requires { AreSumsInOrder book.now.starts.items }
    ensures { IfOk result (λ text. text.items ≡ links_text domain.now (contents_of book.now)) }
{
    let starts = book.starts.as_slice();
    let most = most_by_link(alloc, starts)?;
    let by_link = octets_by_link(alloc, starts)?;
    let mut reported = CheckedSink::new(Vec::new(alloc));
    let mut writer = Writer::new(&mut reported, Buffer::new(alloc)?);
    put_header(&mut writer);
    for link in 0..domain.links() {
        let sums = sums_of_link(rt, by_link.as_slice(), link);
        put_sums(&mut writer, domain, link, sums, most[usize::from(link)]);
    }
    let _written = writer.close();
    written_text(reported)
}
