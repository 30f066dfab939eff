//! The function of a bridge in the script.
ghost use Rattle.std.specs.Prelude.{◌≡◌, ◌<◌, ◌++◌, [], Some, None, codes, false, if◌then◌else◌, length, slice_get};
ghost use Rattle.std.specs.List.{flat_map};
ghost use Rattle.std.specs.Option.{option_map_or};
ghost use Rattle.cqf_addressing.specs.Streams.{gate_index};
ghost use Rattle.cqf_compile.specs.BridgeGates.{first_hop};
ghost use Rattle.cqf_model.specs.declared.topology.Hop.{Hop as AHop};
ghost use Rattle.cqf_model.specs.Domain.{bridge_of};
ghost use Rattle.cqf_model.specs.Network.{compiled_lists};
ghost use Rattle.cqf_admission.specs.ActiveCycles.{AreOfGoodPaces, IsGoodPace};
ghost use Rattle.cqf_output.specs.Writer.{Puts};
ghost use Rattle.cqf_program_plans.specs.EndNames.{name_of_end};
ghost use Rattle.cqf_program_tc.specs.Bridge.{bridge_text, clearing_by, each_link, each_stream, frame_needs};
ghost use Rattle.cqf_program_tc.specs.Bridge.{gate_call, gate_target, has_own_guard, if_left, link_call, link_lines, link_need, list_call, needs_by, plain_call};
ghost use Rattle.cqf_program_tc.specs.Bridge.{out_need, own_list, stream_clearing, stream_gates, stream_lines, stream_needs};
ghost use Rattle.cqf_program_tc.specs.Bridge.{in_variable, ingress_clearing, ingress_need, out_variable, out_variables};
ghost use Rattle.cqf_program_tc.specs.Rows.{indices_at};
ghost use Rattle.cqf_program_tc.specs.Variables.{AreNamed};
ghost use Rattle.cqf_program_tc.specs.Words.{tx_words};

use crate::ingresses::ingress_of;
use crate::lists::{pauses, put_list_words};
use crate::plan::{Plan, Stream, put_link_variable, stream_at};
use crate::words::put_tx_words;
use cqf_compile::{first_hop, gate_of, leaves, port_list_of};
use cqf_model::{Hop, Row};
use cqf_output::{Sink, Writer};
use cqf_topology::{Domain, put_bridge, put_link, put_node};

/// Puts the name of the node in which a link ends; nothing for a link that the domain lacks.
pub(crate) fn put_end<W: Sink>(writer: &mut Writer<'_, W>, domain: &Domain, link: u16)
    ensures { Puts W.contents writer.old writer.new (name_of_end domain.now link) }
{
    if link < domain.links() {
        put_node(writer, domain, domain.link(link).to);
    }
}

/// Returns the number of the bridge that a link leaves.
pub(crate) fn bridge_of(domain: &Domain, link: u16) -> u16
    ensures { result ≡ bridge_of domain.now link }
{
    if link < domain.links() {
        domain.link(link).from
    } else {
        0
    }
}

/// Puts the variable of the interface over which a stream with this variable arrives.
fn put_ingress<W: Sink>(
    writer: &mut Writer<'_, W>,
    plan: Plan<'_>,
    variable: &[u8],
    ingress: Option<u16>,
)
    requires { AreNamed plan.domain.now plan.rows.now plan.links.now plan.streams.now }
    ensures { Puts W.contents writer.old writer.new (in_variable plan.entry.domain.now variable.now ingress) }
{
    match ingress {
        Some(link) => {
            writer.put(b"IN_");
            put_link_variable(writer, plan, link);
        }
        None => {
            writer.put(b"TALKER_");
            writer.put(variable);
        }
    }
}

/// Puts the line that requires the interface of a link that leaves the bridge.
fn put_out_need<W: Sink>(writer: &mut Writer<'_, W>, plan: Plan<'_>, bridge: u16, link: u16)
    requires { AreNamed plan.domain.now plan.rows.now plan.links.now plan.streams.now }
    ensures { Puts W.contents writer.old writer.new (out_need plan.entry.domain.now bridge link) }
{
    writer.put(b"    port OUT_");
    put_link_variable(writer, plan, link);
    writer.put(b" \"${OUT_");
    put_link_variable(writer, plan, link);
    writer.put(b":-}\" ");
    put_end(writer, plan.domain, link);
    writer.put(b" \"interface of ");
    put_bridge(writer, plan.domain, bridge);
    writer.put(b" to ");
    put_end(writer, plan.domain, link);
    writer.put(b"\"\n");
}

/// Puts the line that requires the interface over which a stream arrives from its talker.
fn put_talker_need<W: Sink>(
    writer: &mut Writer<'_, W>,
    domain: &Domain,
    bridge: u16,
    stream: Stream<'_>,
)
    ensures { Puts W.contents writer.old writer.new (ingress_need domain.now bridge stream.entry.variable.now stream.entry.row.now None) }
{
    writer.put(b"    port TALKER_");
    writer.put(stream.variable);
    writer.put(b" \"${TALKER_");
    writer.put(stream.variable);
    writer.put(b":-}\" \"\" \"interface of ");
    put_bridge(writer, domain, bridge);
    writer.put(b" to the talker of ");
    writer.put(stream.row.name.as_bytes());
    writer.put(b"\"\n");
}

/// Puts the line that requires the interface over which streams arrive from a link.
fn put_link_need<W: Sink>(writer: &mut Writer<'_, W>, plan: Plan<'_>, bridge: u16, link: u16)
    requires { AreNamed plan.domain.now plan.rows.now plan.links.now plan.streams.now }
    ensures { Puts W.contents writer.old writer.new (link_need plan.entry.domain.now bridge link) }
{
    let from = bridge_of(plan.domain, link);
    writer.put(b"    port IN_");
    put_link_variable(writer, plan, link);
    writer.put(b" \"${IN_");
    put_link_variable(writer, plan, link);
    writer.put(b":-}\" ");
    put_bridge(writer, plan.domain, from);
    writer.put(b" \"interface of ");
    put_bridge(writer, plan.domain, bridge);
    writer.put(b" to ");
    put_bridge(writer, plan.domain, from);
    writer.put(b"\"\n");
}

/// Puts the line that requires the interface over which a stream arrives.
fn put_ingress_need<W: Sink>(
    writer: &mut Writer<'_, W>,
    plan: Plan<'_>,
    bridge: u16,
    stream: Stream<'_>,
    ingress: Option<u16>,
)
    requires { AreNamed plan.domain.now plan.rows.now plan.links.now plan.streams.now }
    ensures { Puts W.contents writer.old writer.new (ingress_need plan.entry.domain.now bridge stream.entry.variable.now stream.entry.row.now ingress) }
{
    match ingress {
        Some(link) => put_link_need(writer, plan, bridge, link),
        None => put_talker_need(writer, plan.domain, bridge, stream),
    }
}

/// Puts the line that requires the destination address and the VLAN of a stream's frames, with the index of its gate.
fn put_frame_needs<W: Sink>(writer: &mut Writer<'_, W>, stream: Stream<'_>)
    ensures { Puts W.contents writer.old writer.new (frame_needs stream.entry.variable.now stream.entry.gate stream.entry.row.now) }
{
    writer.put(b"    frames ");
    writer.put(stream.variable);
    writer.put(b" \"${MAC_");
    writer.put(stream.variable);
    writer.put(b":-}\" \"${VLAN_");
    writer.put(stream.variable);
    writer.put(b":-}\" ");
    writer.put(stream.row.name.as_bytes());
    writer.put(b" ");
    writer.put_number(stream.gate);
    writer.put(b"\n");
}

/// Puts the line that clears the interface over which a stream with this variable arrives.
fn put_clearing<W: Sink>(
    writer: &mut Writer<'_, W>,
    plan: Plan<'_>,
    variable: &[u8],
    ingress: Option<u16>,
)
    requires { AreNamed plan.domain.now plan.rows.now plan.links.now plan.streams.now }
    ensures { Puts W.contents writer.old writer.new (ingress_clearing plan.entry.domain.now variable.now ingress) }
{
    writer.put(b"    no_gates \"$");
    put_ingress(writer, plan, variable, ingress);
    writer.put(b"\"\n");
}

/// Returns whether a link has a guard band of its own, and so a list of its own; false for a link that the domain lacks.
pub(crate) fn has_own_list(domain: &Domain, link: u16) -> bool
    ensures { result ≡ option_map_or has_own_guard (slice_get domain.now.links link) false }
{
    link < domain.links() && domain.link(link).guard.is_some()
}

/// Puts the words of a link's list, as a parameter.
fn put_list_parameter<W: Sink>(writer: &mut Writer<'_, W>, domain: &Domain, link: u16)
    requires { link < length domain.now.links }
    ensures { Puts W.contents writer.old writer.new (codes " \"" ++ (tx_words (compiled_lists domain.now link) ++ codes "\"")) }
{
    writer.put(b" \"");
    put_tx_words(writer, &port_list_of(domain, link));
    writer.put(b"\"");
}

/// Puts the words of the list of a link with a guard band of its own, as a parameter; nothing for another link.
fn put_own_list<W: Sink>(writer: &mut Writer<'_, W>, domain: &Domain, link: u16)
    ensures { Puts W.contents writer.old writer.new (own_list domain.now link) }
{
    if has_own_list(domain, link) {
        put_list_parameter(writer, domain, link);
    }
}

/// Puts the call that sets the list of a link that leaves the bridge.
fn put_link_call<W: Sink>(writer: &mut Writer<'_, W>, plan: Plan<'_>, link: u16)
    requires { AreNamed plan.domain.now plan.rows.now plan.links.now plan.streams.now }
    ensures { Puts W.contents writer.old writer.new (link_call plan.entry.domain.now link) }
{
    writer.put(b"    link \"$OUT_");
    put_link_variable(writer, plan, link);
    writer.put(b"\"");
    put_own_list(writer, plan.domain, link);
}

/// Puts the lines of a link that leaves the bridge.
fn put_link_lines<W: Sink>(writer: &mut Writer<'_, W>, plan: Plan<'_>, link: u16)
    requires { AreNamed plan.domain.now plan.rows.now plan.links.now plan.streams.now }
    ensures { Puts W.contents writer.old writer.new (link_lines plan.entry.domain.now link) }
{
    writer.put(b"    # link ");
    writer.put_number(link);
    writer.put(b" ");
    put_link(writer, plan.domain, link);
    writer.put(b"\n");
    put_link_call(writer, plan, link);
    writer.put(b"\n");
}

/// Puts the interface of a hop, if the hop leaves the bridge.
fn put_out_variable<W: Sink>(writer: &mut Writer<'_, W>, plan: Plan<'_>, bridge: u16, hop: &Hop)
    requires { AreNamed plan.domain.now plan.rows.now plan.links.now plan.streams.now }
    ensures { Puts W.contents writer.old writer.new (out_variable plan.entry.domain.now bridge hop.now) }
{
    if leaves(plan.domain, hop.link, bridge) {
        writer.put(b" OUT_");
        put_link_variable(writer, plan, hop.link);
    }
}

/// Puts the interfaces by which a stream leaves the bridge.
fn put_out_variables<W: Sink>(writer: &mut Writer<'_, W>, plan: Plan<'_>, bridge: u16, row: &Row)
    requires { AreNamed plan.domain.now plan.rows.now plan.links.now plan.streams.now }
    ensures { Puts W.contents writer.old writer.new (out_variables plan.entry.domain.now bridge row.now) }
{
    for hop in row.tree.as_slice() {
        put_out_variable(writer, plan, bridge, hop);
    }
}

/// Puts the interface over which a stream arrives, its gate's index, and its frames.
fn put_gate_target<W: Sink>(
    writer: &mut Writer<'_, W>,
    plan: Plan<'_>,
    stream: Stream<'_>,
    ingress: Option<u16>,
)
    requires { AreNamed plan.domain.now plan.rows.now plan.links.now plan.streams.now }
    ensures { Puts W.contents writer.old writer.new (gate_target plan.entry.domain.now stream.entry.variable.now stream.entry.gate ingress) }
{
    put_ingress(writer, plan, stream.variable, ingress);
    writer.put(b"\" ");
    writer.put_number(stream.gate);
    writer.put(b" \"$MAC_");
    writer.put(stream.variable);
    writer.put(b"\" \"$VLAN_");
    writer.put(stream.variable);
    writer.put(b"\"");
}

/// Puts the call that sets the gate of a stream that is offered in each cycle.
fn put_plain_call<W: Sink>(
    writer: &mut Writer<'_, W>,
    plan: Plan<'_>,
    stream: Stream<'_>,
    ingress: Option<u16>,
)
    requires { AreNamed plan.domain.now plan.rows.now plan.links.now plan.streams.now }
    ensures { Puts W.contents writer.old writer.new (plain_call plan.entry.domain.now stream.entry.variable.now stream.entry.gate stream.entry.row.now ingress) }
{
    writer.put(b"    gate \"$");
    put_gate_target(writer, plan, stream, ingress);
    writer.put(b" ");
    writer.put_number(stream.row.octets);
}

/// Puts the call that sets the gate of a stream that pauses, by its list at the bridge.
fn put_list_call<W: Sink>(
    writer: &mut Writer<'_, W>,
    plan: Plan<'_>,
    bridge: u16,
    stream: Stream<'_>,
    ingress: Option<u16>,
)
    requires named { AreNamed plan.domain.now plan.rows.now plan.links.now plan.streams.now }
    requires paced { IsGoodPace stream.row.now.pace }
    ensures { Puts W.contents writer.old writer.new
        (list_call plan.entry.domain.now bridge stream.entry.variable.now stream.entry.gate stream.entry.row.now ingress) }
{
    writer.put(b"    gate_by_list \"$");
    put_gate_target(writer, plan, stream, ingress);
    put_list_words(writer, &gate_of(plan.domain, stream.row, bridge));
}

/// Puts the call that sets a stream's gate at the interface over which it arrives.
fn put_gate_call<W: Sink>(
    writer: &mut Writer<'_, W>,
    plan: Plan<'_>,
    bridge: u16,
    stream: Stream<'_>,
    ingress: Option<u16>,
)
    requires named { AreNamed plan.domain.now plan.rows.now plan.links.now plan.streams.now }
    requires paced { IsGoodPace stream.row.now.pace }
    ensures { Puts W.contents writer.old writer.new
        (gate_call plan.entry.domain.now bridge stream.entry.variable.now stream.entry.gate stream.entry.row.now ingress) }
{
    if pauses(stream.row) {
        put_list_call(writer, plan, bridge, stream, ingress);
    } else {
        put_plain_call(writer, plan, stream, ingress);
    }
}

/// Puts the lines of a stream that arrives this way.
fn put_stream_lines<W: Sink>(
    writer: &mut Writer<'_, W>,
    plan: Plan<'_>,
    bridge: u16,
    stream: Stream<'_>,
    ingress: Option<u16>,
)
    requires named { AreNamed plan.domain.now plan.rows.now plan.links.now plan.streams.now }
    requires paced { IsGoodPace stream.row.now.pace }
    ensures { Puts W.contents writer.old writer.new
        (stream_lines plan.entry.domain.now bridge stream.entry.variable.now stream.entry.gate stream.entry.row.now ingress) }
{
    writer.put(b"    # stream ");
    writer.put_number(stream.row.no);
    writer.put(b" ");
    writer.put(stream.row.name.as_bytes());
    writer.put(b", leaves by");
    put_out_variables(writer, plan, bridge, stream.row);
    writer.put(b"\n");
    put_gate_call(writer, plan, bridge, stream, ingress);
    writer.put(b"\n");
}

/// Puts the line that requires the interface of a link, if the link leaves the bridge.
fn put_out_need_of<W: Sink>(writer: &mut Writer<'_, W>, plan: Plan<'_>, bridge: u16, link: u16)
    requires { AreNamed plan.domain.now plan.rows.now plan.links.now plan.streams.now }
    ensures { Puts W.contents writer.old writer.new (if_left plan.entry.domain.now bridge (out_need plan.entry.domain.now bridge) link) }
{
    if leaves(plan.domain, link, bridge) {
        put_out_need(writer, plan, bridge, link);
    }
}

/// Puts the lines that require the interfaces of the links that leave the bridge.
fn put_out_needs<W: Sink>(writer: &mut Writer<'_, W>, plan: Plan<'_>, bridge: u16)
    requires { AreNamed plan.domain.now plan.rows.now plan.links.now plan.streams.now }
    ensures { Puts W.contents writer.old writer.new (each_link plan.entry.domain.now bridge (out_need plan.entry.domain.now bridge)) }
{
    for link in 0..plan.domain.links() {
        put_out_need_of(writer, plan, bridge, link);
    }
}

/// Puts the lines of a link, if the link leaves the bridge.
fn put_lines_of_link<W: Sink>(writer: &mut Writer<'_, W>, plan: Plan<'_>, bridge: u16, link: u16)
    requires { AreNamed plan.domain.now plan.rows.now plan.links.now plan.streams.now }
    ensures { Puts W.contents writer.old writer.new (if_left plan.entry.domain.now bridge (link_lines plan.entry.domain.now) link) }
{
    if leaves(plan.domain, link, bridge) {
        put_link_lines(writer, plan, link);
    }
}

/// Puts the lines of the links that leave the bridge.
fn put_links<W: Sink>(writer: &mut Writer<'_, W>, plan: Plan<'_>, bridge: u16)
    requires { AreNamed plan.domain.now plan.rows.now plan.links.now plan.streams.now }
    ensures { Puts W.contents writer.old writer.new (each_link plan.entry.domain.now bridge (link_lines plan.entry.domain.now)) }
{
    for link in 0..plan.domain.links() {
        put_lines_of_link(writer, plan, bridge, link);
    }
}

/// Puts the line that requires the interface over which a stream arrives, if that interface is new.
fn put_new_need<W: Sink>(
    writer: &mut Writer<'_, W>,
    plan: Plan<'_>,
    bridge: u16,
    stream: Stream<'_>,
    ingress: (Option<u16>, bool),
)
    requires { AreNamed plan.domain.now plan.rows.now plan.links.now plan.streams.now }
    ensures { Puts W.contents writer.old writer.new
        (if ingress.1 then ingress_need plan.entry.domain.now bridge stream.entry.variable.now stream.entry.row.now ingress.0 else []) }
{
    if ingress.1 {
        put_ingress_need(writer, plan, bridge, stream, ingress.0);
    }
}

/// Puts what a stream that arrives this way needs.
fn put_needs_by<W: Sink>(
    writer: &mut Writer<'_, W>,
    plan: Plan<'_>,
    bridge: u16,
    stream: Stream<'_>,
    ingress: (Option<u16>, bool),
)
    requires { AreNamed plan.domain.now plan.rows.now plan.links.now plan.streams.now }
    ensures { Puts W.contents writer.old writer.new
        (needs_by plan.entry.domain.now bridge stream.entry.variable.now stream.entry.gate stream.entry.row.now ingress) }
{
    put_new_need(writer, plan, bridge, stream, ingress);
    put_frame_needs(writer, stream);
}

/// Puts what a stream needs, if it leaves the bridge.
fn put_needs_of<W: Sink>(
    writer: &mut Writer<'_, W>,
    plan: Plan<'_>,
    bridge: u16,
    stream: Stream<'_>,
    ingress: Option<(Option<u16>, bool)>,
)
    requires { AreNamed plan.domain.now plan.rows.now plan.links.now plan.streams.now }
    ensures { Puts W.contents writer.old writer.new
        (option_map_or (needs_by plan.entry.domain.now bridge stream.entry.variable.now stream.entry.gate stream.entry.row.now) ingress []) }
{
    if let Some(ingress) = ingress {
        put_needs_by(writer, plan, bridge, stream, ingress);
    }
}

/// Puts what the streams that leave the bridge need.
fn put_needs<W: Sink>(writer: &mut Writer<'_, W>, plan: Plan<'_>, bridge: u16, indices: &[usize])
    requires named { AreNamed plan.domain.now plan.rows.now plan.links.now plan.streams.now }
    requires at { indices.now ≡ indices_at plan.domain.now plan.rows.now bridge }
    ensures { Puts W.contents writer.old writer.new
        (each_stream (stream_needs plan.entry.domain.now (gate_index plan.entry.addresses.now) plan.entry.rows.now bridge) plan.entry.rows.now) }
{
    let mut seen = [false; 65536];
    for index in indices {
        let stream = stream_at(plan, *index);
        let ingress = ingress_of(plan.domain, bridge, &mut seen, stream.row);
        put_needs_of(writer, plan, bridge, stream, ingress);
    }
}

/// Puts the line that clears the interface over which a stream with this variable arrives, if that interface is new.
fn put_clearing_by<W: Sink>(
    writer: &mut Writer<'_, W>,
    plan: Plan<'_>,
    variable: &[u8],
    ingress: (Option<u16>, bool),
)
    requires { AreNamed plan.domain.now plan.rows.now plan.links.now plan.streams.now }
    ensures { Puts W.contents writer.old writer.new (clearing_by plan.entry.domain.now variable.now ingress) }
{
    if ingress.1 {
        put_clearing(writer, plan, variable, ingress.0);
    }
}

/// Puts the line that clears the interface over which the stream arrives, if the stream leaves the bridge and the interface is new.
fn put_clearing_of<W: Sink>(
    writer: &mut Writer<'_, W>,
    plan: Plan<'_>,
    variable: &[u8],
    ingress: Option<(Option<u16>, bool)>,
)
    requires { AreNamed plan.domain.now plan.rows.now plan.links.now plan.streams.now }
    ensures { Puts W.contents writer.old writer.new (option_map_or (clearing_by plan.entry.domain.now variable.now) ingress []) }
{
    if let Some(ingress) = ingress {
        put_clearing_by(writer, plan, variable, ingress);
    }
}

/// Puts the lines that clear the interfaces over which streams arrive.
fn put_clearings<W: Sink>(
    writer: &mut Writer<'_, W>,
    plan: Plan<'_>,
    bridge: u16,
    indices: &[usize],
)
    requires named { AreNamed plan.domain.now plan.rows.now plan.links.now plan.streams.now }
    requires at { indices.now ≡ indices_at plan.domain.now plan.rows.now bridge }
    ensures { Puts W.contents writer.old writer.new (each_stream (stream_clearing plan.entry.domain.now plan.entry.rows.now bridge) plan.entry.rows.now) }
{
    let mut seen = [false; 65536];
    for index in indices {
        let stream = stream_at(plan, *index);
        let ingress = ingress_of(plan.domain, bridge, &mut seen, stream.row);
        put_clearing_of(writer, plan, stream.variable, ingress);
    }
}

/// Puts the lines of a stream, if it leaves the bridge.
fn put_stream<W: Sink>(writer: &mut Writer<'_, W>, plan: Plan<'_>, bridge: u16, stream: Stream<'_>)
    requires named { AreNamed plan.domain.now plan.rows.now plan.links.now plan.streams.now }
    requires paced { IsGoodPace stream.row.now.pace }
    ensures { Puts W.contents writer.old writer.new (option_map_or (λ (hop : AHop). stream_lines plan.entry.domain.now bridge stream.entry.variable.now
        stream.entry.gate stream.entry.row.now hop.from) (first_hop plan.entry.domain.now bridge stream.entry.row.now) []) }
{
    if let Some(hop) = first_hop(plan.domain, stream.row, bridge) {
        put_stream_lines(writer, plan, bridge, stream, hop.from);
    }
}

/// Puts the lines of the streams that leave the bridge.
fn put_streams<W: Sink>(writer: &mut Writer<'_, W>, plan: Plan<'_>, bridge: u16, indices: &[usize])
    requires named { AreNamed plan.domain.now plan.rows.now plan.links.now plan.streams.now }
    requires paced { AreOfGoodPaces plan.rows.now }
    requires at { indices.now ≡ indices_at plan.domain.now plan.rows.now bridge }
    ensures { Puts W.contents writer.old writer.new
        (flat_map (stream_gates plan.entry.domain.now (gate_index plan.entry.addresses.now) plan.entry.rows.now bridge) plan.entry.rows.now) }
{
    for index in indices {
        let stream = stream_at(plan, *index);
        put_stream(writer, plan, bridge, stream);
    }
}

/// Puts the function of a bridge. The streams of the rows at these indices leave the bridge. The time grows with their number and with the
/// number of links.
pub(crate) fn put_bridge_function<W: Sink>(
    writer: &mut Writer<'_, W>,
    plan: Plan<'_>,
    bridge: u16,
    indices: &[usize],
)
    requires named { AreNamed plan.domain.now plan.rows.now plan.links.now plan.streams.now }
    requires paced { AreOfGoodPaces plan.rows.now }
    requires at { indices.now ≡ indices_at plan.domain.now plan.rows.now bridge }
    ensures { Puts W.contents writer.old writer.new
        (bridge_text plan.entry.domain.now (gate_index plan.entry.addresses.now) plan.entry.rows.now bridge) }
{
    writer.put(b"bridge_");
    writer.put_number(bridge);
    writer.put(b"() {\n    # ");
    put_bridge(writer, plan.domain, bridge);
    writer.put(b"\n");
    put_out_needs(writer, plan, bridge);
    put_needs(writer, plan, bridge, indices);
    writer.put(b"    ready\n");
    put_clearings(writer, plan, bridge, indices);
    put_links(writer, plan, bridge);
    put_streams(writer, plan, bridge, indices);
    writer.put(b"}\n");
}
