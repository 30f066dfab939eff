//! The first paths through a small network, by hand.
ghost use Rattle.std.specs.Prelude.{◌≡◌, ◌<◌, All, true};
ghost use Rattle.cqf_model.specs.Limits.{most_bridges};

use cqf_model::{Link, MOST_BRIDGES, Node};
use cqf_network::{PathsFault, Room, first_path, first_paths, first_short};
use cqf_units::Rate;
use std::alloc::Global;

/// Returns a link of a network.
const fn link(from: u16, to: Node) -> Link {
    Link {
        from,
        to,
        rate: Rate::Mb1000,
        delay: 500,
        least: 500,
        guard: None,
    }
}

/// From bridge 0 to 1 and to 2, from both of these to station 0, and from 2 to station 1.
fn links() -> [Link; 5] {
    [
        link(0, Node::Bridge(1)),
        link(0, Node::Bridge(2)),
        link(1, Node::Station(0)),
        link(2, Node::Station(0)),
        link(2, Node::Station(1)),
    ]
}

/// Returns whether each link leaves a bridge with a number that is represented.
fn leave_bridges(links: &[Link]) -> bool
    ensures { result ≡ true → All (λ link. link.from < most_bridges) links.now }
{
    links
        .iter()
        .all(|link| usize::from(link.from) < MOST_BRIDGES)
}

/// Returns whether the first path from bridge 0 to station 0 is this one, if this much is left.
fn goes(left: &[u32], wanted: Option<&[u16]>) -> bool {
    let links = links();
    if !leave_bridges(&links) {
        return false;
    }
    let room = Room {
        links: &links,
        left,
        cost: 100,
    };
    match first_path(room, 0, Node::Station(0)) {
        Some(path) => match wanted {
            Some(wanted) => path.as_slice() == wanted,
            None => false,
        },
        None => wanted.is_none(),
    }
}

/// The lower numbers count, room equal to the cost is enough, and if none is left there is no path.
#[test]
fn the_first_path_has_room(rt: HostRuntime) {
    assert!(rt; goes(&[100, 100, 100, 100, 100], Some(&[0, 2])));
    assert!(rt; goes(&[100, 100, 99, 100, 100], Some(&[1, 3])));
    assert!(rt; goes(&[100, 100, 99, 99, 100], None));
    assert!(rt; goes(&[99, 100, 100, 100, 100], Some(&[1, 3])));
}

/// Returns whether the first paths to stations 0 and 1 are these.
fn goes_to_both(alloc: Global, left: &[u32], first: &[u16], second: &[u16]) -> bool {
    let links = links();
    if !leave_bridges(&links) {
        return false;
    }
    let room = Room {
        links: &links,
        left,
        cost: 100,
    };
    match first_paths(alloc, room, 0, &[0, 1]) {
        Ok(paths) => {
            paths.len() == 2
                && paths.as_slice()[0].as_slice() == first
                && paths.as_slice()[1].as_slice() == second
        }
        Err(_) => false,
    }
}

/// Each station has its path, and the first without one is reported.
#[test]
fn each_station_has_its_path(rt: HostRuntime) {
    assert!(rt; goes_to_both(rt.alloc(), &[100, 100, 100, 100, 100], &[0, 2], &[1, 4]));
    let links = links();
    assert!(rt; leave_bridges(&links));
    let left = [100, 99, 100, 100, 100];
    let room = Room {
        links: &links,
        left: &left,
        cost: 100,
    };
    match first_paths(rt.alloc(), room, 0, &[0, 1]) {
        Ok(_) => assert!(rt; false),
        Err(fault) => assert!(rt; fault == PathsFault::NoWay(1)),
    }
    assert!(rt; first_short(room, &[1, 4]) == Some(1));
    assert!(rt; first_short(room, &[0, 2]).is_none());
}
