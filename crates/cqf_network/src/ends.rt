//! Links by the numbers of their ends, one for each direction.
ghost use Rattle.std.specs.Prelude.{◌≡◌, ◌++◌, OnOk};
ghost use Rattle.cqf_model.specs.Limits.{most_bridges, most_stations};
ghost use Rattle.cqf_topology.specs.Fields.{Gives};
ghost use Rattle.cqf_topology.specs.JoinedLink.{node_of};
ghost use Rattle.cqf_network.specs.NetworkDomain.{EdgeInside, NodeInside, link_of, number_of, talker_of};
ghost use Rattle.cqf_network.specs.Edges.{back_of, both_directions, edges_of, ends_of, is_misplaced, is_talkers, joined, joined_edge, may_lead, pair_of, without_other};

use crate::NetworkFault;
use crate::domain::TalkerLink;
use crate::draft::{NetworkLink, OneDirection};
use cqf_model::{Link, Node};
use cqf_topology::{DomainFault, End, LinkTimes, NameList, end_of_name};
use cqf_units::{Memory, Name};
use std::alloc::Global;
use std::marker::Model;

/// A link in one direction, with the index of its element in the text.
#[derive(Clone, Copy)]
pub(crate) struct JoinedEdge {
    from: End,
    to: End,
    times: LinkTimes,
    other: Option<u32>,
    element: usize,
}

impl Model for JoinedEdge {
    ghost use Rattle.cqf_network.specs.Edges.{Edge};
    ghost use Rattle.cqf_topology.specs.JoinedLink.{end_of_joined, node_of};

    ghost Value = { Edge };

    ghost view = { λ e. record { from = node_of e.from; to = node_of e.to; times = e.times; other = e.other; element = e.element } };

    ghost inverse = { λ e. record { from = end_of_joined e.from; to = end_of_joined e.to; times = e.times; other = e.other; element = e.element } };
}

/// Returns whether a link can lead from one node to another.
fn may_lead(from: End, to: End) -> bool
    ensures { result ≡ may_lead (node_of from) (node_of to) }
{
    match (from, to) {
        (End::Bridge(bridge), End::Bridge(other)) => bridge != other,
        (End::Station(_), End::Station(_)) => false,
        _ => true,
    }
}

/// Returns a link in its written direction, by the numbers of its ends.
fn join_edge(
    bridges: &NameList,
    stations: &NameList,
    element: usize,
    other: Option<u32>,
    path: &OneDirection,
) -> Result<JoinedEdge, NetworkFault>
    ensures { result ≡ joined_edge bridges.now.keys stations.now.keys element other path.now }
{
    let from = match end_of_name(bridges, stations, &path.from) {
        Some(from) => from,
        None => return Err(NetworkFault::Domain(DomainFault::UnknownName(path.from.copied()))),
    };
    let to = match end_of_name(bridges, stations, &path.to) {
        Some(to) => to,
        None => return Err(NetworkFault::Domain(DomainFault::UnknownName(path.to.copied()))),
    };
    if !may_lead(from, to) {
        return Err(NetworkFault::Domain(DomainFault::UnknownName(path.to.copied())));
    }
    Ok(JoinedEdge {
        from,
        to,
        times: path.times,
        other,
        element,
    })
}

impl JoinedEdge {
    /// Returns whether it leaves a station, and so is an access link.
    pub(crate) fn is_talkers(self) -> bool
        ensures { result ≡ is_talkers self }
    {
        match self.from {
            End::Bridge(_) => false,
            End::Station(_) => true,
        }
    }

    /// Returns both its ends.
    pub(crate) fn ends(self) -> (End, End)
        ensures { pair_of result ≡ ends_of self }
    {
        (self.from, self.to)
    }

    /// Returns it as a link of the plan.
    pub(crate) fn link(self) -> Link
        requires { EdgeInside most_bridges most_stations self }
        ensures { result ≡ link_of self }
    {
        Link {
            from: small_number(self.from),
            to: small_node(self.to),
            rate: self.times.rate,
            delay: self.times.delay,
            least: self.times.least,
            guard: self.times.guard,
        }
    }

    /// Returns it as an access link.
    pub(crate) fn talker(self) -> TalkerLink
        requires { EdgeInside most_bridges most_stations self }
        ensures { result ≡ talker_of self }
    {
        TalkerLink {
            station: small_number(self.from),
            bridge: small_number(self.to),
            rate: self.times.rate,
            delay: self.times.delay,
            least: self.times.least,
            other: self.other,
        }
    }

    /// Returns the index of its element in the text.
    pub(crate) fn element(self) -> usize
        ensures { result ≡ self.element }
    {
        self.element
    }

    /// Returns its rate, its delays and its own guard band.
    pub(crate) fn times(self) -> LinkTimes
        ensures { result ≡ self.times }
    {
        self.times
    }

    /// Returns the same link in the opposite direction.
    fn back(self) -> JoinedEdge
        ensures { result ≡ back_of self }
    {
        JoinedEdge {
            from: self.to,
            to: self.from,
            times: self.times,
            other: self.other,
            element: self.element,
        }
    }

    /// Returns the same link without frames of no stream.
    fn without_other(self) -> JoinedEdge
        ensures { result ≡ without_other self }
    {
        JoinedEdge {
            other: None,
            ..self
        }
    }

    /// Returns whether it has frames of no stream and leaves no station.
    pub(crate) fn is_misplaced(self) -> bool
        ensures { result ≡ is_misplaced self }
    {
        self.other.is_some() && !self.is_talkers()
    }
}

/// Returns the number of a node, which is in its range.
fn small_number(end: End) -> u16
    requires { NodeInside most_bridges most_stations (node_of end) }
    ensures { result ≡ number_of (node_of end) }
{
    match end {
        End::Bridge(bridge) => bridge as u16,
        End::Station(station) => station as u16,
    }
}

/// Returns the node; its number is in its range.
fn small_node(end: End) -> Node
    requires { NodeInside most_bridges most_stations (node_of end) }
    ensures { result ≡ node_of end }
{
    match end {
        End::Bridge(bridge) => Node::Bridge(bridge as u16),
        End::Station(station) => Node::Station(station as u16),
    }
}

/// Appends both directions of a link to those of others. Frames of no stream belong to the direction that leaves the
/// station.
fn add_both(edges: &mut Vec<JoinedEdge>, edge: JoinedEdge) -> Result<(), Memory>
    ensures { OnOk result (edges.new.items ≡ edges.old.items ++ both_directions edge) }
{
    let back = edge.back();
    if back.is_talkers() {
        edges.push(edge.without_other())?;
        edges.push(back)?;
    } else {
        edges.push(edge)?;
        edges.push(back.without_other())?;
    }
    Ok(())
}

/// Appends the directions of a link to those of others.
fn add_edges(edges: &mut Vec<JoinedEdge>, edge: JoinedEdge, duplex: bool) -> Result<(), Memory>
    ensures { OnOk result (edges.new.items ≡ edges.old.items ++ edges_of duplex edge) }
{
    if duplex {
        return add_both(edges, edge);
    }
    edges.push(edge)?;
    Ok(())
}

/// Returns the links by the numbers of their ends, one for each direction.
pub(crate) fn join_edges(
    alloc: Global,
    bridges: &NameList,
    stations: &NameList,
    links: &[NetworkLink],
) -> Result<Vec<JoinedEdge>, NetworkFault>
    ensures { Gives (NetworkFault.Domain DomainFault.Memory) (λ edges. edges.items) result (joined bridges.now.keys stations.now.keys 0 links.now) }
{
    let mut edges = Vec::new(alloc);
    for (element, link) in links.iter().enumerate() {
        let edge = join_edge(bridges, stations, element, link.other, &link.there)?;
        add_edges(&mut edges, edge, link.duplex)?;
    }
    Ok(edges)
}
