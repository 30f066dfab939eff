//! The bridges of a domain, one after the other.
ghost use Rattle.std.specs.Prelude.{◌≡◌};
ghost use Rattle.cqf_admission.specs.ActiveCycles.{AreOfGoodPaces};
ghost use Rattle.cqf_output.specs.Writer.{Puts};
ghost use Rattle.cqf_program_json.specs.Text.{bridge_text, bridges_text, json_text};
ghost use Rattle.cqf_program_tc.specs.Rows.{AreByBridge, indices_at, indices_in};

use crate::arrays::{put_end, put_front};
use crate::ports::put_ports;
use crate::streams::put_streams;
use crate::wired::Wired;
use cqf_model::Row;
use cqf_output::{Sink, Writer};
use cqf_topology::put_bridge;

/// Puts the object of a bridge: its ports, and the streams that leave it, by the indices of their rows.
fn put_bridge_object<W: Sink>(
    writer: &mut Writer<'_, W>,
    wired: Wired<'_>,
    bridge: u16,
    rows: &[Row],
    indices: &[usize],
)
    requires paced { AreOfGoodPaces rows.now }
    requires at { indices.now ≡ indices_at wired.domain.now rows.now bridge }
    ensures { Puts W.contents writer.old writer.new
        (bridge_text wired.entry.domain.now wired.entry.addresses.now wired.entry.links.now rows.now bridge) }
{
    writer.put(b"    {\n      \"bridge\": \"");
    put_bridge(writer, wired.domain, bridge);
    writer.put(b"\",\n      \"ports\": ");
    put_ports(writer, wired, bridge);
    writer.put(b",\n      \"streams\": ");
    put_streams(writer, wired, bridge, rows, indices);
    writer.put(b"\n    }");
}

/// Puts the bridges, by number. It is known which rows' streams leave each bridge.
fn put_bridges<W: Sink>(
    writer: &mut Writer<'_, W>,
    wired: Wired<'_>,
    rows: &[Row],
    indices: &[Vec<usize>],
)
    requires paced { AreOfGoodPaces rows.now }
    requires by_bridge { AreByBridge wired.domain.now rows.now (indices_in indices.now) }
    ensures { Puts W.contents writer.old writer.new
        (bridges_text wired.entry.domain.now wired.entry.addresses.now wired.entry.links.now rows.now) }
{
    writer.put(b"[");
    for bridge in 0..wired.domain.bridges() {
        let here = indices[usize::from(bridge)].as_slice();
        put_front(writer, bridge == 0);
        put_bridge_object(writer, wired, bridge, rows, here);
    }
    put_end(writer, wired.domain.bridges() == 0, b"  ");
}

/// Puts the object: the cycle time and the guard band of the domain, and its bridges.
pub(crate) fn put_object<W: Sink>(
    writer: &mut Writer<'_, W>,
    wired: Wired<'_>,
    rows: &[Row],
    indices: &[Vec<usize>],
)
    requires paced { AreOfGoodPaces rows.now }
    requires by_bridge { AreByBridge wired.domain.now rows.now (indices_in indices.now) }
    ensures { Puts W.contents writer.old writer.new
        (json_text wired.entry.domain.now wired.entry.addresses.now wired.entry.links.now rows.now) }
{
    writer.put(b"{\n  \"cycle\": ");
    writer.put_number(wired.domain.cycle_time().0);
    writer.put(b",\n  \"guard\": ");
    writer.put_number(wired.domain.guard().0);
    writer.put(b",\n  \"bridges\": ");
    put_bridges(writer, wired, rows, indices);
    writer.put(b"\n}\n");
}
