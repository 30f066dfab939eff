//! The first paths to several stations.
ghost use Rattle.std.specs.Prelude.{◌≡◌, IfErr, IfOk, map};
ghost use Rattle.cqf_network.specs.Listeners.{AreFirstPaths, IsPathsFault};
ghost use Rattle.cqf_network.specs.Paths.{AreLinks, has_room};

use crate::Room;
use crate::link_paths::first_path;
use arrayvec::ArrayVec;
use cqf_model::Node;
use cqf_units::Memory;
use std::alloc::{AllocFailed, Global};

/// Why there isn't a path to each station.
#[derive(Debug, PartialEq, Eq, Drop)]
pub enum PathsFault {
    /// The index, from 0, of the first station to which there is no path with room.
    NoWay(usize),
    /// An allocation failed.
    Memory,
}

/// Converts a failed allocation of a path into a fault.
impl<T: Drop> From<AllocFailed<T>> for PathsFault {
    ghost use Rattle.std.specs.Prelude.{◌≡◌};
    ghost use Rattle.cqf_network.specs.declared.listeners.PathsFault.TheVariants as variant;

    ghost from_gives = { λ _ fault. fault ≡ variant.Memory };

    fn from(_refused: AllocFailed<T>) -> PathsFault {
        PathsFault::Memory
    }
}

/// Returns the first paths from a bridge to the stations, in their order, each as [`first_path`] returns it. If the
/// stations are all different, these paths are the branches of a tree ([`crate::first_paths_are_a_tree`]).
///
/// # Errors
/// `NoWay` with the index of the first station to which there is no path; `Memory` if an allocation fails.
pub fn first_paths(
    alloc: Global,
    room: Room,
    from: u16,
    stations: &[u16],
) -> Result<Vec<ArrayVec<u16, 16>>, PathsFault>
    requires { AreLinks room.links.now }
    ensures link_paths { let roomy = has_room room.entry.left.now room.entry.cost in
        IfOk result (λ link_paths. AreFirstPaths room.entry.links.now roomy (Node.Bridge from) stations.now (map (λ path. path.items) link_paths.items)) }
    ensures fault { let roomy = has_room room.entry.left.now room.entry.cost in
        IfErr result (λ fault. IsPathsFault room.entry.links.now roomy (Node.Bridge from) stations.now fault) }
{
    let mut link_paths = Vec::new(alloc);
    for station in stations {
        match first_path(room, from, Node::Station(*station)) {
            Some(path) => link_paths.push(path)?,
            None => return Err(PathsFault::NoWay(link_paths.len())),
        }
    }
    Ok(link_paths)
}
