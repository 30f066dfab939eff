//! The paths of streams, settled.
ghost use Rattle.std.specs.Prelude.{◌≡◌};
ghost use Rattle.cqf_admission.specs.Branches.{branches_of};
ghost use Rattle.cqf_model.specs.Domain.{node_named};
ghost use Rattle.cqf_network.specs.StreamsText.{wanted_text};
ghost use Rattle.cqf_topology.specs.Fields.{Gives};
ghost use Rattle.cqf_program_placing.specs.Settled.{entrance_at, or_unsettled, path_along, path_from, path_value, settled_path, station_by_name, stations_by_name};

use crate::entrances::{OpenNetwork, find_entrance};
use crate::paths_there::first_apart;
use crate::{PlanFault, StreamPath, Unsettled};
use cqf_admission::{count_indices, find_tree};
use cqf_model::Node;
use cqf_network::WantedPath;
use cqf_topology::Domain;
use cqf_units::Name;
use std::alloc::Global;

/// Returns the station of a name; `NoListener` if it isn't a station's.
fn station_by_name(plan: &Domain, name: &Name) -> Result<u16, PlanFault>
    ensures { result ≡ station_by_name plan.now name.now }
{
    match plan.find(name.as_str()) {
        Some(Node::Station(station)) => Ok(station),
        _ => Err(PlanFault::NoListener(name.copied())),
    }
}

/// Returns the stations of a stream's listeners.
fn stations_by_name(
    alloc: Global,
    plan: &Domain,
    stream: &Name,
    names: &[Name],
) -> Result<Vec<u16>, Unsettled>
    ensures { Gives Unsettled.Memory (λ stations. stations.items) result (or_unsettled stream.now (stations_by_name plan.now names.now)) }
{
    let mut stations = Vec::new(alloc);
    for name in names {
        match station_by_name(plan, name) {
            Ok(station) => stations.push(station)?,
            Err(fault) => return Err(Unsettled::Stream(stream.copied(), fault)),
        }
    }
    Ok(stations)
}

/// Returns the path of a stream along given branches.
fn settle_along(
    plan: &Domain,
    stream: &Name,
    paths: Vec<Vec<String>>,
) -> Result<StreamPath, Unsettled>
    ensures { Gives Unsettled.Memory path_value result (or_unsettled stream.now (path_along plan.now (branches_of paths.items))) }
{
    if count_indices(paths.as_slice()).is_none() {
        return Err(Unsettled::Memory);
    }
    match find_tree(plan, paths.as_slice()) {
        Ok(_) => Ok(StreamPath::Along(paths)),
        Err(refused) => Err(Unsettled::Stream(stream.copied(), PlanFault::Refused(refused))),
    }
}

/// Returns the path of a stream from a node to its listeners.
fn settle_between(
    alloc: Global,
    at: OpenNetwork,
    stream: &Name,
    from: &Name,
    to: &[Name],
) -> Result<StreamPath, Unsettled>
    requires { at.network.now.links ≡ at.plan.now.links }
    ensures { Gives Unsettled.Memory path_value result (or_unsettled stream.now
        (path_from at.entry.plan.now (entrance_at at.entry.network.now (node_named at.entry.plan.now from.now)) to.now)) }
{
    let Some(entrance) = find_entrance(at, from) else {
        return Err(Unsettled::Stream(stream.copied(), PlanFault::NoTalker));
    };
    let stations = stations_by_name(alloc, at.plan, stream, to)?;
    match first_apart(at, entrance.bridge, to) {
        Some(name) => Err(Unsettled::Stream(stream.copied(), PlanFault::NoWay(name))),
        None => Ok(StreamPath::Between(entrance.bridge, stations)),
    }
}

/// Returns the path of a stream: along given branches that make a tree of the domain; or from the edge bridge of its talker to the stations
/// that are its listeners; links lead to each.
pub(crate) fn settle_path(
    alloc: Global,
    at: OpenNetwork,
    stream: &Name,
    path: WantedPath,
) -> Result<StreamPath, Unsettled>
    requires { at.network.now.links ≡ at.plan.now.links }
    ensures { Gives Unsettled.Memory path_value result
        (or_unsettled stream.now (settled_path at.entry.network.now at.entry.plan.now (wanted_text path))) }
{
    match path {
        WantedPath::Along(paths) => settle_along(at.plan, stream, paths),
        WantedPath::Between(from, to) => settle_between(alloc, at, stream, &from, to.as_slice()),
    }
}
