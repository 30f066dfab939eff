//! The streams of a bridge: how the frames of each stream are identified (IEEE Std 802.1CB-2017, clause 9), and its filter and its gate
//! (IEEE Std 802.1Q-2018, 12.31.2 and 12.31.3).
ghost use Rattle.std.specs.Prelude.{◌≡◌, ◌≤◌, length, option_map};
ghost use Rattle.cqf_addressing.specs.Mac.{mac_text};
ghost use Rattle.cqf_admission.specs.ActiveCycles.{AreOfGoodPaces, IsGoodPace};
ghost use Rattle.cqf_compile.specs.BridgeGates.{ingress_at};
ghost use Rattle.cqf_model.specs.StreamGate.{gate_round};
ghost use Rattle.cqf_output.specs.Writer.{Puts};
ghost use Rattle.cqf_program_json.specs.Arrays.{number_or_null, quoted};
ghost use Rattle.cqf_program_json.specs.Text.{address_text, closed_entry, filter_text, gate_entries, gate_entry, gate_head, gate_list_text};
ghost use Rattle.cqf_program_json.specs.Text.{gate_round_text, gate_text, mac_or_null, open_entry, stream_head, stream_text, streams_text};
ghost use Rattle.cqf_program_json.specs.Text.{ingress_interface, ingress_name};
ghost use Rattle.cqf_program_tc.specs.Rows.{indices_at};

use crate::arrays::{put_end, put_front, put_name_or_null, put_number_or_null};
use crate::wired::Wired;
use cqf_addressing::{
    MacAddress, StreamAddress, VlanId, far_interface, gate_index, mac_of_stream, put_mac,
    vlan_of_stream,
};
use cqf_compile::{first_hop, gate_of};
use cqf_gates::{StreamEntry, StreamList, is_shut};
use cqf_model::Row;
use cqf_output::{Sink, Writer};
use cqf_topology::{Domain, put_link};

/// Puts an entry in which frames may pass.
fn put_open_entry<W: Sink>(writer: &mut Writer<'_, W>, entry: StreamEntry)
    ensures { Puts W.contents writer.old writer.new (open_entry entry) }
{
    writer.put(
        b"            { \"operationName\": \"SetGateAndIPV\", \"StreamGateState\": \"open\", \"IPV\": ",
    );
    writer.put_number(entry.ipv);
    writer.put(b", \"timeIntervalValue\": ");
    writer.put_number(entry.interval);
    writer.put(b", \"IntervalOctetMax\": ");
    put_number_or_null(writer, entry.octet_max);
    writer.put(b" }");
}

/// Puts an entry in which no frames may pass.
fn put_closed_entry<W: Sink>(writer: &mut Writer<'_, W>, interval: u32)
    ensures { Puts W.contents writer.old writer.new (closed_entry interval) }
{
    writer.put(
        b"            { \"operationName\": \"SetGateAndIPV\", \"StreamGateState\": \"closed\", \"IPV\": null, \"timeIntervalValue\": ",
    );
    writer.put_number(interval);
    writer.put(b", \"IntervalOctetMax\": null }");
}

/// Puts an entry of a gate's list.
fn put_gate_entry<W: Sink>(writer: &mut Writer<'_, W>, entry: StreamEntry)
    ensures { Puts W.contents writer.old writer.new (gate_entry entry) }
{
    if is_shut(entry.octet_max) {
        put_closed_entry(writer, entry.interval);
    } else {
        put_open_entry(writer, entry);
    }
}

/// Puts the entries of a list, each after what precedes an element.
fn put_gate_entries<W: Sink>(writer: &mut Writer<'_, W>, entries: &[StreamEntry])
    ensures { Puts W.contents writer.old writer.new (gate_entries entries.now) }
{
    for (index, entry) in entries.iter().enumerate() {
        put_front(writer, index == 0);
        put_gate_entry(writer, *entry);
    }
}

/// Returns how long the entries take together, in nanoseconds.
fn round_of(entries: &[StreamEntry]) -> u64
    requires { length entries.now ≤ 16 }
    ensures { result ≡ gate_round entries.now }
{
    let mut nanos: u64 = 0;
    for entry in entries {
        nanos += u64::from(entry.interval);
    }
    nanos
}

/// Puts the length of a gate's list, and the list.
fn put_gate_list<W: Sink>(writer: &mut Writer<'_, W>, entries: &[StreamEntry])
    ensures { Puts W.contents writer.old writer.new (gate_list_text entries.now) }
{
    let count = entries.len();
    writer.put(b"          \"PSFPAdminControlListLength\": ");
    writer.put_number(count);
    writer.put(b",\n          \"PSFPAdminControlList\": [");
    put_gate_entries(writer, entries);
    put_end(writer, count == 0, b"          ");
}

/// Puts the cycle time of a gate's list, and the instant at which the list begins.
fn put_gate_round<W: Sink>(writer: &mut Writer<'_, W>, entries: &[StreamEntry])
    requires { length entries.now ≤ 16 }
    ensures { Puts W.contents writer.old writer.new (gate_round_text entries.now) }
{
    writer.put(b"          \"PSFPAdminCycleTime\": { \"numerator\": ");
    writer.put_number(round_of(entries));
    writer.put(b", \"denominator\": 1000000000 },\n");
    writer.put(
        b"          \"PSFPAdminBaseTime\": { \"seconds\": 0, \"nanoseconds\": 0 }\n        }",
    );
}

/// Returns the link over which a stream arrives at a bridge that it leaves, or `None` if it arrives from its talker.
fn ingress_at(domain: &Domain, row: &Row, bridge: u16) -> Option<u16>
    ensures { result ≡ ingress_at domain.now bridge row.now }
{
    match first_hop(domain, row, bridge) {
        Some(hop) => hop.from,
        None => None,
    }
}

/// Puts the link over which a stream arrives, or `null` if it arrives from its talker.
fn put_ingress_name<W: Sink>(writer: &mut Writer<'_, W>, domain: &Domain, ingress: Option<u16>)
    ensures { Puts W.contents writer.old writer.new (ingress_name domain.now ingress) }
{
    match ingress {
        Some(link) => {
            writer.put(b"\"");
            put_link(writer, domain, link);
            writer.put(b"\"");
        }
        None => writer.put(b"null"),
    }
}

/// Puts the interface over which it arrives, or `null` if it arrives from its talker or the domain's text doesn't name the interface.
fn put_ingress_interface<W: Sink>(
    writer: &mut Writer<'_, W>,
    wired: Wired<'_>,
    ingress: Option<u16>,
)
    ensures { Puts W.contents writer.old writer.new (ingress_interface wired.entry.links.now ingress) }
{
    match ingress {
        Some(link) => put_name_or_null(writer, far_interface(wired.links, link)),
        None => writer.put(b"null"),
    }
}

/// Puts the stream's name, and the link and the interface over which it arrives.
fn put_stream_head<W: Sink>(
    writer: &mut Writer<'_, W>,
    wired: Wired<'_>,
    row: &Row,
    ingress: Option<u16>,
)
    ensures { Puts W.contents writer.old writer.new (stream_head wired.entry.domain.now wired.entry.links.now row.now ingress) }
{
    writer.put(b"        {\n          \"stream\": \"");
    writer.put(row.name.as_bytes());
    writer.put(b"\",\n          \"from\": ");
    put_ingress_name(writer, wired.domain, ingress);
    writer.put(b",\n          \"interface\": ");
    put_ingress_interface(writer, wired, ingress);
    writer.put(b",\n");
}

/// Puts an address in quotation marks.
fn put_mac_text<W: Sink>(writer: &mut Writer<'_, W>, mac: &MacAddress)
    ensures { Puts W.contents writer.old writer.new (quoted (mac_text mac.now)) }
{
    writer.put(b"\"");
    put_mac(writer, mac);
    writer.put(b"\"");
}

/// Puts an address, or `null` if there is none.
fn put_mac_or_null<W: Sink>(writer: &mut Writer<'_, W>, mac: Option<&MacAddress>)
    ensures { Puts W.contents writer.old writer.new (mac_or_null (option_map (λ mac. mac.now) mac.entry)) }
{
    match mac {
        Some(mac) => put_mac_text(writer, mac),
        None => writer.put(b"null"),
    }
}

/// Puts a VLAN, or `null` if there is none.
fn put_vlan_or_null<W: Sink>(writer: &mut Writer<'_, W>, vlan: Option<VlanId>)
    ensures { Puts W.contents writer.old writer.new (number_or_null vlan) }
{
    match vlan {
        Some(vlan) => writer.put_number(vlan.number()),
        None => writer.put(b"null"),
    }
}

/// Puts how the stream's frames are identified: by their destination address and their VLAN.
fn put_address<W: Sink>(writer: &mut Writer<'_, W>, addresses: &[StreamAddress], number: u32)
    ensures { Puts W.contents writer.old writer.new (address_text addresses.now number) }
{
    writer.put(b"          \"tsnStreamIdHandle\": ");
    writer.put_number(gate_index(addresses, number));
    writer.put(
        b",\n          \"tsnStreamIdIdentificationType\": 1,\n          \"tsnCpeNullDownDestMac\": ",
    );
    put_mac_or_null(writer, mac_of_stream(addresses, number));
    writer.put(
        b",\n          \"tsnCpeNullDownTagged\": \"tagged\",\n          \"tsnCpeNullDownVlan\": ",
    );
    put_vlan_or_null(writer, vlan_of_stream(addresses, number));
    writer.put(b",\n");
}

/// Puts the stream's filter, by the index of its gate.
fn put_filter<W: Sink>(writer: &mut Writer<'_, W>, gate: u64)
    ensures { Puts W.contents writer.old writer.new (filter_text gate) }
{
    writer.put(b"          \"StreamFilterInstance\": ");
    writer.put_number(gate);
    writer.put(b",\n          \"StreamHandleSpec\": ");
    writer.put_number(gate);
    writer.put(
        b",\n          \"PrioritySpec\": \"wildcard\",\n          \"StreamGateInstanceID\": ",
    );
    writer.put_number(gate);
    writer.put(b",\n");
}

/// Puts the index of the stream's gate, and its state before its list begins.
fn put_gate_head<W: Sink>(writer: &mut Writer<'_, W>, gate: u64)
    ensures { Puts W.contents writer.old writer.new (gate_head gate) }
{
    writer.put(b"          \"StreamGateInstance\": ");
    writer.put_number(gate);
    writer.put(
        b",\n          \"PSFPGateEnabled\": true,\n          \"PSFPAdminGateStates\": \"closed\",\n",
    );
}

/// Puts the stream's filter and gate, by the gate's index and its list.
fn put_gate<W: Sink>(writer: &mut Writer<'_, W>, gate: u64, list: &StreamList)
    ensures { Puts W.contents writer.old writer.new (gate_text gate list.now) }
{
    let entries = list.entries();
    put_filter(writer, gate);
    put_gate_head(writer, gate);
    put_gate_list(writer, entries);
    writer.put(b",\n");
    put_gate_round(writer, entries);
}

/// Puts the object of a stream at a bridge.
fn put_stream<W: Sink>(writer: &mut Writer<'_, W>, wired: Wired<'_>, bridge: u16, row: &Row)
    requires { IsGoodPace row.now.pace }
    ensures { Puts W.contents writer.old writer.new
        (stream_text wired.entry.domain.now wired.entry.addresses.now wired.entry.links.now bridge row.now) }
{
    put_stream_head(writer, wired, row, ingress_at(wired.domain, row, bridge));
    put_address(writer, wired.addresses, row.no);
    put_gate(
        writer,
        gate_index(wired.addresses, row.no),
        &gate_of(wired.domain, row, bridge),
    );
}

/// Puts the streams that leave a bridge, by the indices of their rows.
pub(crate) fn put_streams<W: Sink>(
    writer: &mut Writer<'_, W>,
    wired: Wired<'_>,
    bridge: u16,
    rows: &[Row],
    indices: &[usize],
)
    requires paced { AreOfGoodPaces rows.now }
    requires at { indices.now ≡ indices_at wired.domain.now rows.now bridge }
    ensures { Puts W.contents writer.old writer.new
        (streams_text wired.entry.domain.now wired.entry.addresses.now wired.entry.links.now rows.now bridge) }
{
    writer.put(b"[");
    for (number, index) in indices.iter().enumerate() {
        put_front(writer, number == 0);
        put_stream(writer, wired, bridge, &rows[*index]);
    }
    put_end(writer, indices.len() == 0, b"      ");
}
