//! The ports of a bridge: the gate parameter table of each port (IEEE Std 802.1Q-2018, 12.29.1).
ghost use Rattle.std.specs.Prelude.{◌≡◌, ◌<◌, ◌&&◌, ◌++◌, [], if◌then◌else◌, length, not};
ghost use Rattle.cqf_model.specs.Domain.{leaves};
ghost use Rattle.cqf_output.specs.Writer.{Puts};
ghost use Rattle.cqf_program_json.specs.Arrays.{front_text};
ghost use Rattle.cqf_program_json.specs.Text.{port_entries, port_entry, port_head, port_list_text, port_round, port_text, ports_text};

use crate::arrays::{put_end, put_front, put_name_or_null};
use crate::wired::Wired;
use cqf_addressing::near_interface;
use cqf_compile::{leaves, port_list_of};
use cqf_gates::TxList;
use cqf_output::{Sink, Writer};
use cqf_topology::put_link;

/// Puts an entry of a port's list, by its states and its interval in nanoseconds.
fn put_port_entry<W: Sink>(writer: &mut Writer<'_, W>, states: u8, interval: u32)
    ensures { Puts W.contents writer.old writer.new (port_entry (states, interval)) }
{
    writer.put(b"            { \"operationName\": \"SetGateStates\", \"gateStatesValue\": ");
    writer.put_number(states);
    writer.put(b", \"timeIntervalValue\": ");
    writer.put_number(interval);
    writer.put(b" }");
}

/// Puts the entries of a list, each after what precedes an element.
fn put_port_entries<W: Sink>(writer: &mut Writer<'_, W>, entries: &[(u8, u32)])
    ensures { Puts W.contents writer.old writer.new (port_entries entries.now) }
{
    for (index, entry) in entries.iter().enumerate() {
        put_front(writer, index == 0);
        put_port_entry(writer, entry.0, entry.1);
    }
}

/// Puts the length of a port's list, and the list.
fn put_port_list<W: Sink>(writer: &mut Writer<'_, W>, entries: &[(u8, u32)])
    ensures { Puts W.contents writer.old writer.new (port_list_text entries.now) }
{
    let count = entries.len();
    writer.put(b"          \"AdminControlListLength\": ");
    writer.put_number(count);
    writer.put(b",\n          \"AdminControlList\": [");
    put_port_entries(writer, entries);
    put_end(writer, count == 0, b"          ");
}

/// Puts the cycle time of a port's list, and the instant at which the list begins.
fn put_port_round<W: Sink>(writer: &mut Writer<'_, W>, list: &TxList)
    ensures { Puts W.contents writer.old writer.new (port_round list.now) }
{
    writer.put(b"          \"AdminCycleTime\": { \"numerator\": ");
    writer.put_number(list.round().0);
    writer.put(b", \"denominator\": 1000000000 },\n");
    writer.put(b"          \"AdminBaseTime\": { \"seconds\": 0, \"nanoseconds\": 0 }\n        }");
}

/// Puts the link and the interface of a port, and its states before its list begins.
fn put_port_head<W: Sink>(writer: &mut Writer<'_, W>, wired: Wired<'_>, link: u16)
    ensures { Puts W.contents writer.old writer.new (port_head wired.entry.domain.now wired.entry.links.now link) }
{
    writer.put(b"        {\n          \"link\": \"");
    put_link(writer, wired.domain, link);
    writer.put(b"\",\n          \"interface\": ");
    put_name_or_null(writer, near_interface(wired.links, link));
    writer.put(b",\n          \"GateEnabled\": true,\n          \"AdminGateStates\": 63,\n");
}

/// Puts the port of a link with its list.
fn put_port<W: Sink>(writer: &mut Writer<'_, W>, wired: Wired<'_>, link: u16)
    requires { link < length wired.domain.now.links }
    ensures { Puts W.contents writer.old writer.new (port_text wired.entry.domain.now wired.entry.links.now link) }
{
    let list = port_list_of(wired.domain, link);
    put_port_head(writer, wired, link);
    put_port_list(writer, list.entries());
    writer.put(b",\n");
    put_port_round(writer, &list);
}

/// Puts the port of a link, after what precedes an element, if the link leaves the bridge. Returns whether the next port is still the first
/// one.
fn put_port_of_link<W: Sink>(
    writer: &mut Writer<'_, W>,
    wired: Wired<'_>,
    bridge: u16,
    link: u16,
    is_first: bool,
) -> bool
    requires { link < length wired.domain.now.links }
    ensures puts { Puts W.contents writer.old writer.new (if leaves wired.entry.domain.now link bridge then
        front_text is_first ++ port_text wired.entry.domain.now wired.entry.links.now link else []) }
    ensures first { result ≡ (is_first && not (leaves wired.entry.domain.now link bridge)) }
{
    if !leaves(wired.domain, link, bridge) {
        return is_first;
    }
    put_front(writer, is_first);
    put_port(writer, wired, link);
    false
}

/// Puts the ports of a bridge, by the numbers of the links that leave it.
pub(crate) fn put_ports<W: Sink>(writer: &mut Writer<'_, W>, wired: Wired<'_>, bridge: u16)
    ensures { Puts W.contents writer.old writer.new (ports_text wired.entry.domain.now wired.entry.links.now bridge) }
{
    writer.put(b"[");
    let mut is_first = true;
    for link in 0..wired.domain.links() {
        is_first = put_port_of_link(writer, wired, bridge, link, is_first);
    }
    put_end(writer, is_first, b"      ");
}
