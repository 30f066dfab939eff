//! The data of a script, in the form that its parts take.
ghost use Rattle.std.specs.Prelude.{◌≡◌, ◌<◌, length, slice_index_or};
ghost use Rattle.cqf_addressing.specs.Streams.{gate_index};
ghost use Rattle.cqf_output.specs.Writer.{Puts};
ghost use Rattle.cqf_program_tc.specs.Variables.{AreNamed, link_variable, stream_variable};

use cqf_addressing::{StreamAddress, gate_index};
use cqf_model::Row;
use cqf_output::{Sink, Writer};
use cqf_topology::Domain;

/// A domain, the rows of its streams, their addresses by number, and the variables of its links by number and of its rows by index.
#[derive(Clone, Copy)]
pub(crate) struct Plan<'r> {
    pub domain: &'r Domain,
    pub rows: &'r [Row],
    pub addresses: &'r [StreamAddress],
    pub links: &'r [Vec<u8>],
    pub streams: &'r [Vec<u8>],
}

/// A stream in the script: its row, its variable, and the index of its gate.
#[derive(Clone, Copy)]
pub(crate) struct Stream<'r> {
    pub row: &'r Row,
    pub variable: &'r [u8],
    pub gate: u64,
}

/// Returns the variable of a link; an empty one for a link that the domain lacks.
fn link_variable<'r>(plan: Plan<'r>, link: u16) -> &'r [u8]
    requires { AreNamed plan.domain.now plan.rows.now plan.links.now plan.streams.now }
    ensures { result.now ≡ link_variable plan.entry.domain.now link }
{
    if link < plan.domain.links() {
        plan.links[usize::from(link)].as_slice()
    } else {
        b"".as_slice()
    }
}

/// Puts the variable of a link, without its prefix; nothing for a link that the domain lacks.
pub(crate) fn put_link_variable<W: Sink>(writer: &mut Writer<'_, W>, plan: Plan<'_>, link: u16)
    requires { AreNamed plan.domain.now plan.rows.now plan.links.now plan.streams.now }
    ensures { Puts W.contents writer.old writer.new (link_variable plan.entry.domain.now link) }
{
    writer.put(link_variable(plan, link));
}

/// Returns the stream of the row at this index.
pub(crate) fn stream_at<'r>(plan: Plan<'r>, index: usize) -> Stream<'r>
    requires named { AreNamed plan.domain.now plan.rows.now plan.links.now plan.streams.now }
    requires inside { index < length plan.rows.now }
    ensures row { result.row.now ≡ slice_index_or plan.entry.rows.now index result.row.now }
    ensures variable { result.variable.now ≡ stream_variable plan.entry.rows.now result.row.now }
    ensures gate { result.gate ≡ gate_index plan.entry.addresses.now result.row.now.no }
{
    let row = &plan.rows[index];
    Stream {
        row,
        variable: plan.streams[index].as_slice(),
        gate: gate_index(plan.addresses, row.no),
    }
}
