//! The output of `load --streams`, before it is written, and line by line.
ghost use Rattle.std.specs.Prelude.{◌≡◌, ◌<◌, length};
ghost use Rattle.cqf_lists.specs.Lists.{each_below};
ghost use Rattle.cqf_units.specs.Timing.{cost_of};
ghost use Rattle.cqf_output.specs.Edge.{IsWritten, writing};
ghost use Rattle.cqf_output.specs.Writer.{Puts};
ghost use Rattle.cqf_report.specs.Written.{line_of_fields};
ghost use Rattle.cqf_program_plans.specs.Load.Access.{name_of_access};
ghost use Rattle.cqf_program_plans.specs.Load.Streams.{share_fields, share_line_on, share_lines_at, stream_fields, stream_line_on, stream_lines_on};
ghost use Rattle.cqf_program_plans.specs.Load.Streams.{streams_header, text_of_streams};
ghost use Rattle.cqf_program_plans.specs.Load.Text.{used_text};
ghost use Rattle.std.specs.List.{flat_map};

use crate::load::access::{AccessLoad, cost_in_octets};
use crate::load::reported::{budget_on, put_access_name, put_used};
use crate::load::shares::{AccessShare, every_of};
use cqf_model::Row;
use cqf_output::{Buffer, CheckedSink, Sink, Writer};
use cqf_topology::{Domain, put_link};
use std::marker::Model;

/// The output of `load --streams` before it is written: a domain, the rows of its streams, its access links, what streams take of these, and a
/// buffer. Rows and shares are in the order in which they are written.
#[derive(Drop)]
pub struct StreamLoadsOutput {
    pub(crate) domain: Domain,
    pub(crate) rows: Vec<Row>,
    pub(crate) access: Vec<AccessLoad>,
    pub(crate) shares: Vec<AccessShare>,
    pub(crate) buffer: Buffer,
}

impl Model for StreamLoadsOutput {
    ghost use Rattle.cqf_program_plans.specs.Load.Streams.{StreamLoads};

    ghost Value = { StreamLoads };

    ghost view = { λ o. record { domain = o.domain; rows = o.rows.items; access = o.access.items; shares = o.shares.items } };
}

/// Puts the share of a budget that is taken.
fn put_share<W: Sink>(writer: &mut Writer<'_, W>, budget: u64, taken: u64)
    ensures { Puts W.contents writer.old writer.new (used_text budget taken) }
{
    put_used(writer, budget, u128::from(taken));
}

/// Puts the line of a stream on a link.
fn put_stream<W: Sink>(writer: &mut Writer<'_, W>, domain: &Domain, link: u16, row: &Row)
    requires { link < length domain.now.links }
    ensures { Puts W.contents writer.old writer.new (line_of_fields (stream_fields domain.now link row.now)) }
{
    let (budget, cost) = (
        budget_on(domain, link),
        cost_in_octets(domain.overhead(), row.octets),
    );
    put_link(writer, domain, link);
    writer.put_byte(b',');
    writer.put(row.name.as_bytes());
    writer.put_byte(b',');
    writer.put_number(row.octets);
    writer.put_byte(b',');
    writer.put_number(cost);
    writer.put_byte(b',');
    writer.put_number(every_of(row));
    writer.put_byte(b',');
    put_share(writer, budget, cost);
    writer.put_byte(b'\n');
}

/// Puts the line of a stream on a link, if its frames go by that link.
fn put_stream_on<W: Sink>(writer: &mut Writer<'_, W>, domain: &Domain, link: u16, row: &Row)
    requires { link < length domain.now.links }
    ensures { Puts W.contents writer.old writer.new (stream_line_on domain.now link row.now) }
{
    if row.crosses(link) {
        put_stream(writer, domain, link, row);
    }
}

/// Puts the lines of a link.
fn put_streams_on<W: Sink>(writer: &mut Writer<'_, W>, domain: &Domain, rows: &[Row], link: u16)
    requires { link < length domain.now.links }
    ensures { Puts W.contents writer.old writer.new (stream_lines_on domain.now rows.now link) }
{
    for row in rows {
        put_stream_on(writer, domain, link, row);
    }
}

/// Puts the lines of each link.
fn put_streams<W: Sink>(writer: &mut Writer<'_, W>, domain: &Domain, rows: &[Row])
    ensures { Puts W.contents writer.old writer.new (each_below (stream_lines_on domain.now rows.now) (length domain.now.links)) }
{
    for link in 0..domain.links() {
        put_streams_on(writer, domain, rows, link);
    }
}

/// Puts the line of a stream on an access link.
fn put_access_share<W: Sink>(writer: &mut Writer<'_, W>, load: &AccessLoad, share: &AccessShare)
    ensures { Puts W.contents writer.old writer.new (line_of_fields (share_fields load.now share.now)) }
{
    put_access_name(writer, load);
    writer.put_byte(b',');
    writer.put(share.stream.as_bytes());
    writer.put_byte(b',');
    writer.put_byte(b',');
    writer.put_number(share.taken);
    writer.put_byte(b',');
    writer.put_byte(b',');
    put_share(writer, load.budget, share.taken);
    writer.put_byte(b'\n');
}

/// Puts the line of a stream on the access link at an index, if it hands its frames to that link.
fn put_share_on<W: Sink>(
    writer: &mut Writer<'_, W>,
    load: &AccessLoad,
    index: usize,
    share: &AccessShare,
)
    ensures { Puts W.contents writer.old writer.new (share_line_on load.now index share.now) }
{
    if share.index == index {
        put_access_share(writer, load, share);
    }
}

/// Puts the lines of the access link at an index.
fn put_shares_on<W: Sink>(
    writer: &mut Writer<'_, W>,
    load: &AccessLoad,
    index: usize,
    shares: &[AccessShare],
)
    ensures { Puts W.contents writer.old writer.new (flat_map (share_line_on load.now index) shares.now) }
{
    for share in shares {
        put_share_on(writer, load, index, share);
    }
}

/// Puts the lines of the access link at an index, if there is one.
fn put_shares_at<W: Sink>(
    writer: &mut Writer<'_, W>,
    access: &[AccessLoad],
    index: usize,
    shares: &[AccessShare],
)
    ensures { Puts W.contents writer.old writer.new (share_lines_at access.now shares.now index) }
{
    if let Some(load) = access.get(index) {
        put_shares_on(writer, load, index, shares);
    }
}

/// Puts the lines of each access link.
fn put_shares<W: Sink>(writer: &mut Writer<'_, W>, access: &[AccessLoad], shares: &[AccessShare])
    ensures { Puts W.contents writer.old writer.new (each_below (share_lines_at access.now shares.now) (length access.now)) }
{
    for index in 0..access.len() {
        put_shares_at(writer, access, index, shares);
    }
}

/// Puts the header.
fn put_streams_header<W: Sink>(writer: &mut Writer<'_, W>)
    ensures { Puts W.contents writer.old writer.new (line_of_fields streams_header) }
{
    writer.put(b"link,stream,octets,cost,every,share\n");
}

impl StreamLoadsOutput {
    /// Writes the output: the lines of each link, and then those of each access link. It allocates no memory.
    pub fn write<W: Sink>(self, reported: &mut CheckedSink<W>)
        ensures { IsWritten (writing W.contents reported.old reported.new) (text_of_streams self) }
    {
        let StreamLoadsOutput {
            domain,
            rows,
            access,
            shares,
            buffer,
        } = self;
        let mut writer = Writer::new(reported, buffer);
        put_streams_header(&mut writer);
        put_streams(&mut writer, &domain, rows.as_slice());
        put_shares(&mut writer, access.as_slice(), shares.as_slice());
        let _written = writer.close();
    }
}
