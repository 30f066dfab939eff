//! The configuration as text, line by line.
ghost use Rattle.std.specs.Prelude.{◌≡◌, ◌<◌, ◌++◌, ◌∷◌, [], All, IfOk, codes, length, map};
ghost use Rattle.std.specs.Arc.{arc_value};
ghost use Rattle.std.specs.List.{flat_map};
ghost use Rattle.cqf_admission.specs.Tables.{AreAlongLinks};
ghost use Rattle.cqf_admission.specs.ActiveCycles.{AreOfGoodPaces, IsGoodPace};
ghost use Rattle.cqf_compile.specs.ConfigLines.{IsReadyConfig};
ghost use Rattle.cqf_compile.specs.ConfigText.{config_text, text_of_row, texts_of_links};
ghost use Rattle.cqf_gates.specs.GateListText.{line_of_gates, text_of_entries};
ghost use Rattle.cqf_model.specs.Table.{links_of};
ghost use Rattle.cqf_output.specs.Writer.{Puts};
ghost use Rattle.cqf_topology.specs.NodeNames.{ends_of_link, name_of_bridge};

use crate::fronts::row_front;
use crate::gates::{gate_of, port_list_of};
use crate::leaving::bridges_of;
use crate::plan::Plan;
use cqf_admission::Table;
use cqf_gates::{TxList, hex_digit_of, put_stream};
use cqf_model::{Link, Row};
use cqf_output::{Buffer, CheckedSink, Sink, Writer, written_text};
use cqf_topology::{Domain, put_bridge, put_ends};
use cqf_units::Memory;
use std::alloc::Global;
use std::sync::Arc;

/// Puts an entry of a gate list: its gate states in two upper case hexadecimal digits, in which bit k is class k, a
/// space, and its interval in nanoseconds.
pub fn put_gates<W: Sink>(writer: &mut Writer<'_, W>, states: u8, interval: u32)
    ensures { Puts W.contents writer.old writer.new (line_of_gates (states, interval)) }
{
    writer.put_byte(hex_digit_of(states / 16));
    writer.put_byte(hex_digit_of(states % 16));
    writer.put_byte(b' ');
    writer.put_number(interval);
}

/// Puts a gate list, one entry a line.
fn put_list<W: Sink>(writer: &mut Writer<'_, W>, list: &TxList)
    ensures { Puts W.contents writer.old writer.new (text_of_entries list.now) }
{
    for entry in list.entries() {
        put_gates(writer, entry.0, entry.1);
        writer.put_byte(b'\n');
    }
}

/// Puts the line of a link, followed by a gate list.
fn put_port<W: Sink>(writer: &mut Writer<'_, W>, domain: &Domain, link: Link, list: &TxList)
    ensures { Puts W.contents writer.old writer.new (codes "link " ++ (ends_of_link domain.now link ++ 10 ∷ text_of_entries list.now)) }
{
    writer.put(b"link ");
    put_ends(writer, domain, link);
    writer.put_byte(b'\n');
    put_list(writer, list);
}

/// Puts each link's line, followed by the gate list of its port.
fn put_ports<W: Sink>(writer: &mut Writer<'_, W>, domain: &Domain)
    ensures { Puts W.contents writer.old writer.new (texts_of_links domain.now) }
{
    for link in 0..domain.links() {
        let list = port_list_of(domain, link);
        put_port(writer, domain, domain.link(link), &list);
    }
}

/// Puts a text followed by the name of a bridge, and ends the line.
fn put_at<W: Sink>(writer: &mut Writer<'_, W>, domain: &Domain, front: &[u8], bridge: u16)
    ensures { Puts W.contents writer.old writer.new (front.now ++ (name_of_bridge domain.now bridge ++ 10 ∷ [])) }
{
    writer.put(front);
    put_bridge(writer, domain, bridge);
    writer.put_byte(b'\n');
}

/// Puts a stream and its gate at each bridge of its tree.
fn put_row<W: Sink>(writer: &mut Writer<'_, W>, plan: &Plan, row: &Row)
    requires along { All (λ l. l < length plan.now.links) (links_of row.now) }
    requires paced { IsGoodPace row.now.pace }
    ensures { Puts W.contents writer.old writer.new (text_of_row plan.now row.now) }
{
    let domain = plan.domain();
    let front = row_front(row);
    let bridges = bridges_of(plan, row);
    for bridge in bridges.as_slice() {
        put_at(writer, domain, front.as_slice(), *bridge);
        put_stream(writer, &gate_of(domain, row, *bridge));
    }
}

/// Puts the streams of the rows, with their gates.
fn put_rows<W: Sink>(writer: &mut Writer<'_, W>, plan: &Plan, rows: &[Row])
    requires along { AreAlongLinks plan.now rows.now }
    requires paced { AreOfGoodPaces rows.now }
    ensures { Puts W.contents writer.old writer.new (flat_map (text_of_row plan.now) rows.now) }
{
    for row in rows {
        put_row(writer, plan, row);
    }
}

/// Puts the configuration of a plan and the streams of the rows, as [`write_config`] returns it for a table. Allocates nothing.
pub fn put_config<W: Sink>(writer: &mut Writer<'_, W>, plan: &Plan, rows: &[Row])
    requires { IsReadyConfig plan.now rows.now }
    ensures { Puts W.contents writer.old writer.new (config_text plan.now rows.now) }
{
    put_ports(writer, plan.domain());
    put_rows(writer, plan, rows);
}

/// Puts the streams of a table's rows, with their gates.
fn put_shared<W: Sink>(writer: &mut Writer<'_, W>, plan: &Plan, rows: &[Arc<Row>])
    requires along { AreAlongLinks plan.now (map (λ row. arc_value row) rows.now) }
    requires paced { AreOfGoodPaces (map (λ row. arc_value row) rows.now) }
    ensures { Puts W.contents writer.old writer.new (flat_map (text_of_row plan.now) (map (λ row. arc_value row) rows.now)) }
{
    for shared in rows {
        put_row(writer, plan, shared);
    }
}

/// Returns the configuration of the plan and the streams of a table. For each link in order of number it has a line
/// `link FROM>TO`, followed by the gate list of the link's port. Then come the rows of the table, in order of number.
/// For each bridge of a row's tree, once and in the order in which the tree leaves them, it has a line
/// `stream NO NAME bridge BRIDGE`, followed by the stream's gate there. The trees of the table have only links of the
/// plan's domain, and the paces of its streams are good. Returns `Memory` if an allocation fails.
pub fn write_config(alloc: Global, plan: &Plan, table: &Table) -> Result<Vec<u8>, Memory>
    requires along { AreAlongLinks plan.now table.now.rows }
    requires paced { AreOfGoodPaces table.now.rows }
    ensures { IfOk result (λ text. text.items ≡ config_text plan.now table.now.rows) }
{
    let mut reported = CheckedSink::new(Vec::new(alloc));
    let mut writer = Writer::new(&mut reported, Buffer::new(alloc)?);
    put_ports(&mut writer, plan.domain());
    put_shared(&mut writer, plan, table.rows());
    let _written = writer.close();
    written_text(reported)
}
