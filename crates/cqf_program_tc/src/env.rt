//! The variable file of a bridge.
ghost use Rattle.std.specs.Prelude.{◌≡◌, ◌<◌, [], None, if◌then◌else◌, length, option_map};
ghost use Rattle.std.specs.Option.{option_map_or};
ghost use Rattle.cqf_addressing.specs.Links.{far_interface, near_interface};
ghost use Rattle.cqf_output.specs.Edge.{IsWritten, writing};
ghost use Rattle.cqf_output.specs.Writer.{Puts};
ghost use Rattle.cqf_program_tc.specs.Bridge.{each_link, each_stream, if_left};
ghost use Rattle.cqf_program_tc.specs.Env.{env_text, frame_lines, head_text, in_lines, lines_by, mac_of, out_lines, stream_env, value_text, vlan_of};
ghost use Rattle.cqf_program_tc.specs.Env.{ingress_lines};
ghost use Rattle.cqf_program_tc.specs.Output.{IsReadyPlan, text_of_env};
ghost use Rattle.cqf_program_tc.specs.Rows.{indices_at, indices_in};
ghost use Rattle.cqf_program_tc.specs.Variables.{AreNamed};

use crate::bridges::{bridge_of, put_end};
use crate::ingresses::ingress_of;
use crate::outputs::EnvOutput;
use crate::plan::{Plan, Stream, put_link_variable, stream_at};
use cqf_addressing::{
    InterfaceName, LinkInterfaces, StreamAddress, far_interface, mac_of_stream, near_interface,
    put_mac, vlan_of_stream,
};
use cqf_compile::leaves;
use cqf_output::{CheckedSink, Sink, Writer};
use cqf_topology::{Domain, put_bridge};

/// Puts the name of an interface, if there is one.
fn put_interface<W: Sink>(writer: &mut Writer<'_, W>, name: Option<&InterfaceName>)
    ensures { Puts W.contents writer.old writer.new (value_text (option_map (λ n. n.now) name.entry)) }
{
    if let Some(name) = name {
        writer.put(name.as_bytes());
    }
}

/// Puts the destination address of the frames of the stream with this number, if it is given.
fn put_mac_of<W: Sink>(writer: &mut Writer<'_, W>, addresses: &[StreamAddress], number: u32)
    ensures { Puts W.contents writer.old writer.new (mac_of addresses.now number) }
{
    if let Some(mac) = mac_of_stream(addresses, number) {
        put_mac(writer, mac);
    }
}

/// Puts their VLAN, if it is given.
fn put_vlan_of<W: Sink>(writer: &mut Writer<'_, W>, addresses: &[StreamAddress], number: u32)
    ensures { Puts W.contents writer.old writer.new (vlan_of addresses.now number) }
{
    if let Some(vlan) = vlan_of_stream(addresses, number) {
        writer.put_number(vlan.number());
    }
}

/// Puts the lines of the interface by which a link leaves the bridge.
fn put_out_lines<W: Sink>(
    writer: &mut Writer<'_, W>,
    plan: Plan<'_>,
    interfaces: &[LinkInterfaces],
    bridge: u16,
    link: u16,
)
    requires { AreNamed plan.domain.now plan.rows.now plan.links.now plan.streams.now }
    ensures { Puts W.contents writer.old writer.new (out_lines plan.entry.domain.now interfaces.now bridge link) }
{
    writer.put(b"# interface of ");
    put_bridge(writer, plan.domain, bridge);
    writer.put(b" to ");
    put_end(writer, plan.domain, link);
    writer.put(b"\nOUT_");
    put_link_variable(writer, plan, link);
    writer.put(b"=");
    put_interface(writer, near_interface(interfaces, link));
    writer.put(b"\n");
}

/// Puts the lines of the interface over which streams arrive from a link.
fn put_in_lines<W: Sink>(
    writer: &mut Writer<'_, W>,
    plan: Plan<'_>,
    interfaces: &[LinkInterfaces],
    bridge: u16,
    link: u16,
)
    requires { AreNamed plan.domain.now plan.rows.now plan.links.now plan.streams.now }
    ensures { Puts W.contents writer.old writer.new (in_lines plan.entry.domain.now interfaces.now bridge link) }
{
    let from = bridge_of(plan.domain, link);
    writer.put(b"# interface of ");
    put_bridge(writer, plan.domain, bridge);
    writer.put(b" to ");
    put_bridge(writer, plan.domain, from);
    writer.put(b"\nIN_");
    put_link_variable(writer, plan, link);
    writer.put(b"=");
    put_interface(writer, far_interface(interfaces, link));
    writer.put(b"\n");
}

/// Puts the lines of the interface over which a stream arrives from its talker.
fn put_talker_lines<W: Sink>(
    writer: &mut Writer<'_, W>,
    domain: &Domain,
    interfaces: &[LinkInterfaces],
    bridge: u16,
    stream: Stream<'_>,
)
    ensures { Puts W.contents writer.old writer.new
        (ingress_lines domain.now interfaces.now bridge stream.entry.variable.now stream.entry.row.now None) }
{
    writer.put(b"# interface of ");
    put_bridge(writer, domain, bridge);
    writer.put(b" to the talker of ");
    writer.put(stream.row.name.as_bytes());
    writer.put(b"\nTALKER_");
    writer.put(stream.variable);
    writer.put(b"=\n");
}

/// Puts the lines of the interface over which a stream arrives.
fn put_ingress_lines<W: Sink>(
    writer: &mut Writer<'_, W>,
    plan: Plan<'_>,
    interfaces: &[LinkInterfaces],
    bridge: u16,
    stream: Stream<'_>,
    ingress: Option<u16>,
)
    requires { AreNamed plan.domain.now plan.rows.now plan.links.now plan.streams.now }
    ensures { Puts W.contents writer.old writer.new
        (ingress_lines plan.entry.domain.now interfaces.now bridge stream.entry.variable.now stream.entry.row.now ingress) }
{
    match ingress {
        Some(link) => put_in_lines(writer, plan, interfaces, bridge, link),
        None => put_talker_lines(writer, plan.domain, interfaces, bridge, stream),
    }
}

/// Puts the lines of a stream's frames.
fn put_frame_lines<W: Sink>(
    writer: &mut Writer<'_, W>,
    addresses: &[StreamAddress],
    stream: Stream<'_>,
)
    ensures { Puts W.contents writer.old writer.new (frame_lines addresses.now stream.entry.variable.now stream.entry.row.now) }
{
    writer.put(b"# destination address of ");
    writer.put(stream.row.name.as_bytes());
    writer.put(b"\nMAC_");
    writer.put(stream.variable);
    writer.put(b"=");
    put_mac_of(writer, addresses, stream.row.no);
    writer.put(b"\n# VLAN of ");
    writer.put(stream.row.name.as_bytes());
    writer.put(b"\nVLAN_");
    writer.put(stream.variable);
    writer.put(b"=");
    put_vlan_of(writer, addresses, stream.row.no);
    writer.put(b"\n");
}

/// Puts the lines of the interface over which a stream arrives, if that interface is new.
fn put_new_lines<W: Sink>(
    writer: &mut Writer<'_, W>,
    plan: Plan<'_>,
    interfaces: &[LinkInterfaces],
    bridge: u16,
    stream: Stream<'_>,
    ingress: (Option<u16>, bool),
)
    requires { AreNamed plan.domain.now plan.rows.now plan.links.now plan.streams.now }
    ensures { Puts W.contents writer.old writer.new
        (if ingress.1 then ingress_lines plan.entry.domain.now interfaces.now bridge stream.entry.variable.now stream.entry.row.now ingress.0 else []) }
{
    if ingress.1 {
        put_ingress_lines(writer, plan, interfaces, bridge, stream, ingress.0);
    }
}

/// Puts the lines of a stream that arrives this way.
fn put_lines_by<W: Sink>(
    writer: &mut Writer<'_, W>,
    plan: Plan<'_>,
    interfaces: &[LinkInterfaces],
    bridge: u16,
    stream: Stream<'_>,
    ingress: (Option<u16>, bool),
)
    requires { AreNamed plan.domain.now plan.rows.now plan.links.now plan.streams.now }
    ensures { Puts W.contents writer.old writer.new (lines_by plan.entry.domain.now interfaces.now plan.entry.addresses.now bridge
        stream.entry.variable.now stream.entry.row.now ingress) }
{
    put_new_lines(writer, plan, interfaces, bridge, stream, ingress);
    put_frame_lines(writer, plan.addresses, stream);
}

/// Puts the lines of a stream, if it leaves the bridge.
fn put_lines_of<W: Sink>(
    writer: &mut Writer<'_, W>,
    plan: Plan<'_>,
    interfaces: &[LinkInterfaces],
    bridge: u16,
    stream: Stream<'_>,
    ingress: Option<(Option<u16>, bool)>,
)
    requires { AreNamed plan.domain.now plan.rows.now plan.links.now plan.streams.now }
    ensures { Puts W.contents writer.old writer.new (option_map_or (lines_by plan.entry.domain.now interfaces.now plan.entry.addresses.now bridge
        stream.entry.variable.now stream.entry.row.now) ingress []) }
{
    if let Some(ingress) = ingress {
        put_lines_by(writer, plan, interfaces, bridge, stream, ingress);
    }
}

/// Puts the lines of the streams that leave the bridge.
fn put_stream_lines<W: Sink>(
    writer: &mut Writer<'_, W>,
    plan: Plan<'_>,
    interfaces: &[LinkInterfaces],
    bridge: u16,
    indices: &[usize],
)
    requires named { AreNamed plan.domain.now plan.rows.now plan.links.now plan.streams.now }
    requires at { indices.now ≡ indices_at plan.domain.now plan.rows.now bridge }
    ensures { Puts W.contents writer.old writer.new (each_stream
        (stream_env plan.entry.domain.now interfaces.now plan.entry.addresses.now plan.entry.rows.now bridge) plan.entry.rows.now) }
{
    let mut seen = [false; 65536];
    for index in indices {
        let stream = stream_at(plan, *index);
        let ingress = ingress_of(plan.domain, bridge, &mut seen, stream.row);
        put_lines_of(writer, plan, interfaces, bridge, stream, ingress);
    }
}

/// Puts the lines of the interface of a link, if the link leaves the bridge.
fn put_lines_of_link<W: Sink>(
    writer: &mut Writer<'_, W>,
    plan: Plan<'_>,
    interfaces: &[LinkInterfaces],
    bridge: u16,
    link: u16,
)
    requires { AreNamed plan.domain.now plan.rows.now plan.links.now plan.streams.now }
    ensures { Puts W.contents writer.old writer.new
        (if_left plan.entry.domain.now bridge (out_lines plan.entry.domain.now interfaces.now bridge) link) }
{
    if leaves(plan.domain, link, bridge) {
        put_out_lines(writer, plan, interfaces, bridge, link);
    }
}

/// Puts the lines of the interfaces of the links that leave the bridge.
fn put_links_out<W: Sink>(
    writer: &mut Writer<'_, W>,
    plan: Plan<'_>,
    interfaces: &[LinkInterfaces],
    bridge: u16,
)
    requires { AreNamed plan.domain.now plan.rows.now plan.links.now plan.streams.now }
    ensures { Puts W.contents writer.old writer.new
        (each_link plan.entry.domain.now bridge (out_lines plan.entry.domain.now interfaces.now bridge)) }
{
    for link in 0..plan.domain.links() {
        put_lines_of_link(writer, plan, interfaces, bridge, link);
    }
}

/// Puts what the file is, and the variables that hold for the whole script.
fn put_head<W: Sink>(writer: &mut Writer<'_, W>, domain: &Domain, bridge: u16)
    ensures { Puts W.contents writer.old writer.new (head_text domain.now bridge) }
{
    writer.put(b"# Variables of the bridge ");
    put_bridge(writer, domain, bridge);
    writer.put(
        b" for the script that cqf compile --format tc writes: fill them in, and\n# set -a; . ./FILE; sh SCRIPT ",
    );
    put_bridge(writer, domain, bridge);
    writer.put(
        b"\n# instant of the PTP clock in ns from which on the lists begin, the same at each bridge\nBASE=\n",
    );
    writer.put(b"# filter chain of the gates, 0 if left out\nCHAIN=\n");
}

/// Puts the variable file of a bridge of a plan. It is known which streams leave each bridge.
fn put_file<W: Sink>(
    writer: &mut Writer<'_, W>,
    plan: Plan<'_>,
    interfaces: &[LinkInterfaces],
    bridge: u16,
    indices: &[Vec<usize>],
)
    requires ready { IsReadyPlan plan.domain.now plan.rows.now (indices_in indices.now) plan.links.now plan.streams.now }
    requires inside { bridge < length plan.domain.now.bridges }
    ensures { Puts W.contents writer.old writer.new
        (env_text plan.entry.domain.now interfaces.now plan.entry.addresses.now plan.entry.rows.now bridge) }
{
    let here = indices[usize::from(bridge)].as_slice();
    put_head(writer, plan.domain, bridge);
    put_links_out(writer, plan, interfaces, bridge);
    put_stream_lines(writer, plan, interfaces, bridge, here);
}

impl EnvOutput {
    /// Writes the output: the bridge's variable file. It allocates no memory.
    pub fn write<W: Sink>(self, written: &mut CheckedSink<W>)
        ensures { IsWritten (writing W.contents written.old written.new) (text_of_env self) }
    {
        let EnvOutput {
            plan,
            bridge,
            buffer,
        } = self;
        let mut writer = Writer::new(written, buffer);
        put_file(
            &mut writer,
            plan.as_plan(),
            plan.interfaces.as_slice(),
            bridge,
            plan.indices.as_slice(),
        );
        let _written = writer.close();
    }
}
