//! Where streams enter the network.
ghost use Rattle.std.specs.Prelude.{◌≡◌, ◌<◌, IfOk, IfSome, Some, count_by, length, map, option_map, position, string_bytes};
ghost use Rattle.std.specs.List.{list_all};
ghost use Rattle.cqf_model.specs.Domain.{is_text};
ghost use Rattle.cqf_edge.specs.Entrances.{IsEntrance, agrees_with, at_bridge, begins_with, by_station, by_that_to, by_the_only, edge_bridge, edge_name};
ghost use Rattle.cqf_edge.specs.Entrances.{end_at, ends_with, entrance_of, joins, leaves_station, listeners_agree};

use crate::faults::TalkerFault;
use cqf_network::{NetworkDomain, Talker, TalkerLink};
use cqf_units::Name;

/// Where a stream enters: at the bridge with a number, or by the access link at an index among the network's.
#[derive(Clone, Copy, Debug)]
pub enum Entrance {
    AtBridge(usize),
    ByAccess(usize),
}

/// Returns whether an access link leaves the station with this number.
fn leaves_station(link: &TalkerLink, station: usize) -> bool
    ensures { result ≡ leaves_station station link.now }
{
    usize::from(link.station) == station
}

/// Returns whether an access link leads from the station with this number to the bridge with this number.
fn joins(link: &TalkerLink, station: usize, bridge: usize) -> bool
    ensures { result ≡ joins station bridge link.now }
{
    leaves_station(link, station) && usize::from(link.bridge) == bridge
}

/// Returns the number of access links of a station.
fn count_leaving(links: &[TalkerLink], station: usize) -> usize
    ensures { result ≡ count_by (leaves_station station) links.now }
{
    links
        .iter()
        .filter(|link| leaves_station(link, station))
        .count()
}

/// Returns the index of the first access link of a station.
fn first_leaving(links: &[TalkerLink], station: usize) -> Option<usize>
    ensures index { result ≡ position (leaves_station station) links.now }
    ensures within { IfSome result (λ index. index < length links.now) }
{
    links.iter().position(|link| leaves_station(link, station))
}

/// Returns the index of a station's access link to the bridge with this number.
fn first_joining(links: &[TalkerLink], station: usize, bridge: usize) -> Option<usize>
    ensures index { result ≡ position (joins station bridge) links.now }
    ensures within { IfSome result (λ index. index < length links.now) }
{
    links.iter().position(|link| joins(link, station, bridge))
}

/// Returns the entrance by the only access link of a station.
fn by_the_only(network: &NetworkDomain, station: usize) -> Result<Entrance, TalkerFault>
    ensures value { result ≡ by_the_only network.now station }
    ensures inside { IfOk result (IsEntrance network.now) }
{
    if count_leaving(network.talkers(), station) > 1 {
        return Err(TalkerFault::TwoAccessLinks);
    }
    match first_leaving(network.talkers(), station) {
        Some(index) => Ok(Entrance::ByAccess(index)),
        None => Err(TalkerFault::NoTalker),
    }
}

/// Returns the entrance by a station's access link to the bridge with this number.
fn by_that_to(
    network: &NetworkDomain,
    station: usize,
    bridge: usize,
) -> Result<Entrance, TalkerFault>
    ensures value { result ≡ by_that_to network.now station (Some bridge) }
    ensures inside { IfOk result (IsEntrance network.now) }
{
    match first_joining(network.talkers(), station, bridge) {
        Some(index) => Ok(Entrance::ByAccess(index)),
        None => Err(TalkerFault::NoTalker),
    }
}

/// Returns the entrance by an access link of a station: the one to the named bridge, or the only one if no bridge is named.
fn by_station(
    network: &NetworkDomain,
    station: usize,
    bridge: &Option<Name>,
) -> Result<Entrance, TalkerFault>
    ensures value { result ≡ by_station network.now station bridge.now }
    ensures inside { IfOk result (IsEntrance network.now) }
{
    let Some(name) = bridge else {
        return by_the_only(network, station);
    };
    match network.bridges().number_of(name) {
        Some(bridge) => by_that_to(network, station, bridge),
        None => Err(TalkerFault::NoTalker),
    }
}

/// Returns the entrance at the bridge with this number. The talker's text may not name another bridge with it.
fn at_bridge(bridge: usize, other: &Option<Name>) -> Result<Entrance, TalkerFault>
    ensures { result ≡ at_bridge bridge other.now }
{
    match other {
        Some(_) => Err(TalkerFault::NoTalker),
        None => Ok(Entrance::AtBridge(bridge)),
    }
}

/// Returns where a talker's streams enter.
///
/// # Errors
/// `NoTalker` if the talker is neither a bridge, without another bridge in the text, nor a station with the access link that the text
/// names, or with any access link if it names none. `TwoAccessLinks` if the talker is a station with several access links and the text
/// names none of them.
pub(crate) fn entrance_of(network: &NetworkDomain, talker: &Talker) -> Result<Entrance, TalkerFault>
    ensures value { result ≡ entrance_of network.now talker.now }
    ensures inside { IfOk result (IsEntrance network.now) }
{
    if let Some(bridge) = network.bridges().number_of(&talker.node) {
        return at_bridge(bridge, &talker.bridge);
    }
    match network.stations().number_of(&talker.node) {
        Some(station) => by_station(network, station, &talker.bridge),
        None => Err(TalkerFault::NoTalker),
    }
}

/// Returns the number of the bridge where streams enter.
fn edge_bridge(network: &NetworkDomain, entrance: Entrance) -> usize
    requires { IsEntrance network.now entrance }
    ensures value { result ≡ edge_bridge network.now entrance }
    ensures inside { result < length network.now.bridges }
{
    match entrance {
        Entrance::AtBridge(bridge) => bridge,
        Entrance::ByAccess(index) => usize::from(network.talkers()[index].bridge),
    }
}

/// Returns the name of the bridge where streams enter.
pub(crate) fn edge_name(network: &NetworkDomain, entrance: Entrance) -> &Name
    requires { IsEntrance network.now entrance }
    ensures { result.now ≡ edge_name network.now entrance }
{
    let bridge = edge_bridge(network, entrance);
    &network.bridges().as_slice()[bridge]
}

/// Returns whether a text is this name.
fn is_named(text: &String, name: &Name) -> bool
    ensures { result ≡ is_text name.now (string_bytes text.now) }
{
    text.as_str() == name.as_str()
}

/// Returns whether a branch begins at a node.
fn begins_with(path: &[String], name: &Name) -> bool
    ensures { result ≡ begins_with name.now (map string_bytes path.now) }
{
    match path {
        [first, ..] => is_named(first, name),
        [] => false,
    }
}

/// Returns whether a branch ends at a node.
fn ends_with(path: &[String], name: &Name) -> bool
    ensures { result ≡ ends_with name.now (map string_bytes path.now) }
{
    match path {
        [.., last] => is_named(last, name),
        [] => false,
    }
}

/// Returns whether all branches begin at a node.
fn all_begin_with(paths: &[Vec<String>], name: &Name) -> bool
    ensures { result ≡ list_all (λ path. begins_with name.now (map string_bytes path.items)) paths.now }
{
    paths.iter().all(|path| begins_with(path.as_slice(), name))
}

/// Checks that branches begin where a stream enters.
pub(crate) fn agrees_with(
    network: &NetworkDomain,
    paths: &[Vec<String>],
    entrance: Entrance,
) -> Result<(), TalkerFault>
    requires { IsEntrance network.now entrance }
    ensures { result ≡ agrees_with network.now (map (λ path. map string_bytes path.items) paths.now) entrance }
{
    let name = edge_name(network, entrance);
    if all_begin_with(paths, name) {
        Ok(())
    } else {
        Err(TalkerFault::OtherEdge)
    }
}

/// Returns whether branches end at these names, in the same order.
fn end_at(paths: &[Vec<String>], names: &[Name]) -> bool
    ensures { result ≡ end_at names.now (map (λ path. map string_bytes path.items) paths.now) }
{
    if paths.len() != names.len() {
        return false;
    }
    for index in 0..paths.len() {
        if !ends_with(paths[index].as_slice(), &names[index]) {
            return false;
        }
    }
    true
}

/// Checks that branches end at a stream's listeners, if its text has any.
pub(crate) fn listeners_agree(
    paths: &[Vec<String>],
    listeners: &Option<Vec<Name>>,
) -> Result<(), TalkerFault>
    ensures { result ≡ listeners_agree (map (λ path. map string_bytes path.items) paths.now) (option_map (λ names. names.items) listeners.now) }
{
    let Some(names) = listeners else {
        return Ok(());
    };
    if end_at(paths, names.as_slice()) {
        Ok(())
    } else {
        Err(TalkerFault::OtherListeners)
    }
}
