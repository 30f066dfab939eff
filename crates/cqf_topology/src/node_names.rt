//! The names of a domain's nodes and links, as output has them.

ghost use Rattle.cqf_output.specs.Writer.{Puts};
ghost use Rattle.cqf_topology.specs.NodeNames.{ends_of_link, name_of_bridge, name_of_link, name_of_node};

use crate::Domain;
use cqf_model::{Link, Node};
use cqf_output::{Sink, Writer};

/// Writes the name of a bridge. Writes nothing if the domain lacks the bridge.
pub fn put_bridge<W: Sink>(writer: &mut Writer<'_, W>, domain: &Domain, bridge: u16)
    ensures { Puts W.contents writer.old writer.new (name_of_bridge domain.now bridge) }
{
    if bridge < domain.bridges() {
        writer.put(domain.bridge_name(bridge).as_bytes());
    }
}

/// Writes the name of a station. Writes nothing if the domain lacks the station.
fn put_station<W: Sink>(writer: &mut Writer<'_, W>, domain: &Domain, station: u16)
    ensures { Puts W.contents writer.old writer.new (name_of_node domain.now (Node.Station station)) }
{
    if station < domain.stations() {
        writer.put(domain.station_name(station).as_bytes());
    }
}

/// Writes the name of a node. Writes nothing if the domain lacks the node.
pub fn put_node<W: Sink>(writer: &mut Writer<'_, W>, domain: &Domain, node: Node)
    ensures { Puts W.contents writer.old writer.new (name_of_node domain.now node) }
{
    match node {
        Node::Bridge(bridge) => put_bridge(writer, domain, bridge),
        Node::Station(station) => put_station(writer, domain, station),
    }
}

/// Writes a link by the names of its ends, as `FROM>TO`.
pub fn put_ends<W: Sink>(writer: &mut Writer<'_, W>, domain: &Domain, link: Link)
    ensures { Puts W.contents writer.old writer.new (ends_of_link domain.now link) }
{
    put_bridge(writer, domain, link.from);
    writer.put_byte(b'>');
    put_node(writer, domain, link.to);
}

/// Writes a link by the names of its ends. Writes nothing if the domain lacks the link.
pub fn put_link<W: Sink>(writer: &mut Writer<'_, W>, domain: &Domain, link: u16)
    ensures { Puts W.contents writer.old writer.new (name_of_link domain.now link) }
{
    if link < domain.links() {
        put_ends(writer, domain, domain.link(link));
    }
}
