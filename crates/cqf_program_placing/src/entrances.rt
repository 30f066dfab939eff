//! Where streams enter the domain of a network file.
ghost use Rattle.std.specs.Prelude.{◌≡◌, ◌==◌, find};
ghost use Rattle.cqf_model.specs.Domain.{node_named};
ghost use Rattle.cqf_network.specs.StreamsText.{wanted_text};
ghost use Rattle.cqf_program_placing.specs.Settled.{entrance_at, talker_of_stream};

use cqf_model::Node;
use cqf_network::{NetworkDomain, TalkerLink, WantedPath};
use cqf_topology::Domain;
use cqf_units::Name;

/// A network file's domain, and the domain that it is at an open cycle time.
#[derive(Clone, Copy)]
pub(crate) struct OpenNetwork<'a> {
    pub network: &'a NetworkDomain,
    pub plan: &'a Domain,
}

/// Where a stream enters the domain: its edge bridge, and the access link on which it reaches that bridge if its talker is a station.
#[derive(Clone, Copy, Debug)]
pub(crate) struct Entrance {
    /// The edge bridge's number.
    pub bridge: u16,
    pub talker: Option<TalkerLink>,
}

/// Returns the access link of a station, or `None` if it has none.
fn talker_of(network: &NetworkDomain, station: u16) -> Option<TalkerLink>
    ensures { result ≡ find (λ talker. talker.station == station) network.now.talkers }
{
    for talker in network.talkers() {
        if talker.station == station {
            return Some(*talker);
        }
    }
    None
}

/// Returns where streams from a node enter.
fn entrance_at(network: &NetworkDomain, node: Option<Node>) -> Option<Entrance>
    ensures { result ≡ entrance_at network.now node }
{
    match node {
        Some(Node::Bridge(bridge)) => Some(Entrance {
            bridge,
            talker: None,
        }),
        Some(Node::Station(station)) => match talker_of(network, station) {
            Some(talker) => Some(Entrance {
                bridge: talker.bridge,
                talker: Some(talker),
            }),
            None => None,
        },
        None => None,
    }
}

/// Returns where streams from the node of a name enter.
pub(crate) fn find_entrance(at: OpenNetwork, name: &Name) -> Option<Entrance>
    ensures { result ≡ entrance_at at.entry.network.now (node_named at.entry.plan.now name.now) }
{
    entrance_at(at.network, at.plan.find(name.as_str()))
}

/// Returns the access link on which a stream reaches its edge bridge; none for a stream with given branches, or from a bridge.
pub(crate) fn find_talker(at: OpenNetwork, path: &WantedPath) -> Option<TalkerLink>
    ensures { result ≡ talker_of_stream at.entry.network.now at.entry.plan.now (wanted_text path.now) }
{
    match path {
        WantedPath::Along(_) => None,
        WantedPath::Between(from, _) => match find_entrance(at, from) {
            Some(entrance) => entrance.talker,
            None => None,
        },
    }
}
