//! The first path of fewest links with room.
ghost use Rattle.std.specs.Prelude.{◌≡◌, ◌≤◌, ◌<◌, IfSome, MatchOption, length};
ghost use Rattle.cqf_network.specs.Ends.{is_in, open_to};
ghost use Rattle.cqf_network.specs.Steps.{IsFirstInto, IsFirstStep, NoneLeadsInto, NoneInto};
ghost use Rattle.cqf_network.specs.Paths.{AreLinks, IsFirstPath, NoWay, has_room, short_link};

use crate::Room;
use crate::path_ends::Ends;
use arrayvec::ArrayVec;
use cqf_model::Node;

/// The most links of a path that is searched for. So a branch that is found has at most that many bridges.
pub const MOST_LINKS: u8 = 16;

/// The first path into a set of nodes, and the node in which it ends.
#[derive(Drop)]
struct FirstPath {
    path: ArrayVec<u16, 16>,
    end: Node,
}

/// Returns the first link with room that leads from a node into a set, and the node in which it ends.
fn first_link(room: Room, node: Node, ends: &Ends) -> Option<(u16, Node)>
    requires { AreLinks room.links.now }
    ensures { let next = open_to room.entry.links.now (has_room room.entry.left.now room.entry.cost) in
        MatchOption result (NoneLeadsInto next (is_in ends.now) node) (λ found. IsFirstStep next (is_in ends.now) node found.0 found.1) }
{
    for link in 0..room.links.len() {
        if let Some(end) = room.led(node, link) {
            if ends.hold(end) {
                return Some((link as u16, end));
            }
        }
    }
    None
}

/// Returns the first path with room of at most `most` links from a bridge into a set of nodes: one with fewest links,
/// and of these the one whose link numbers are lowest, compared from the first link on.
///
/// It is found layer by layer from its end. The layer before the set has the bridges from which a link leads into the
/// set. The layer before that has the bridges from which a link leads into this layer, and so on, until the starting
/// bridge is in the layer. Then the first path into a set is the first path into the layer before it, followed by the
/// first link that leads on into the set.
fn path_into(room: Room, from: u16, ends: &Ends, most: u8) -> Option<FirstPath>
    requires links { AreLinks room.links.now }
    requires short { most ≤ 16 }
    ensures first { let next = open_to room.entry.links.now (has_room room.entry.left.now room.entry.cost) in
        MatchOption result (NoneInto next (is_in ends.now) (Node.Bridge from) most)
        (λ found. IsFirstInto next (is_in ends.now) (Node.Bridge from) found.path.items found.end) }
    ensures short { IfSome result (λ found. length found.path.items ≤ most) }
{
    if ends.hold(Node::Bridge(from)) {
        return Some(FirstPath {
            path: ArrayVec::new(),
            end: Node::Bridge(from),
        });
    }
    if most == 0 {
        return None;
    }
    let before = ends.before(room);
    let found = path_into(room, from, &before, most - 1)?;
    let (link, end) = first_link(room, found.end, ends)?;
    let mut path = found.path;
    path.push(link);
    Some(FirstPath { path, end })
}

/// Returns the first path of at most 16 links from a bridge to a node on which each link has room; `None` if and only if
/// there is no such path. The first path is one with fewest links, and of these the one whose link numbers are lowest,
/// compared from the first link on.
///
/// Links are numbered from 0. There are at most 4,096, and they leave the first 1,024 bridges.
pub fn first_path(room: Room, from: u16, to: Node) -> Option<ArrayVec<u16, 16>>
    requires { AreLinks room.links.now }
    ensures { let roomy = has_room room.entry.left.now room.entry.cost in
        MatchOption result (NoWay room.entry.links.now roomy (Node.Bridge from) to)
        (λ path. IsFirstPath room.entry.links.now roomy (Node.Bridge from) to path.items) }
{
    let found = path_into(room, from, &Ends::Only(to), MOST_LINKS)?;
    Some(found.path)
}

/// Returns the first link of a path that has no room, or `None` if each of its links has room.
pub fn first_short(room: Room, path: &[u16]) -> Option<u16>
    ensures { result ≡ short_link room.entry.left.now room.entry.cost path.now }
{
    path.iter()
        .copied()
        .find(|link| !room.has(usize::from(*link)))
}
