//! Sets of nodes in which a path may end.
ghost use Rattle.std.specs.Prelude.{◌≡◌, ◌<◌, false, length, slice_index_or};
ghost use Rattle.cqf_network.specs.Ends.{IsMarkedBy, is_in, open_to};
ghost use Rattle.cqf_network.specs.Steps.{AreBefore};
ghost use Rattle.cqf_network.specs.Paths.{AreLinks, has_room};

use crate::Room;
use cqf_model::{MOST_BRIDGES, Node};

/// A set of nodes.
#[derive(Clone, Copy)]
pub(crate) enum Ends {
    /// This one node.
    Only(Node),
    /// The bridges that are marked, by number.
    Bridges([bool; MOST_BRIDGES]),
}

/// Returns whether the bridge with a number is marked.
fn is_set(marks: &[bool; MOST_BRIDGES], bridge: u16) -> bool
    ensures { result ≡ slice_index_or marks.now bridge false }
{
    match marks.get(usize::from(bridge)) {
        Some(mark) => *mark,
        None => false,
    }
}

impl Ends {
    /// Returns whether a node is in the set.
    pub fn hold(&self, node: Node) -> bool
        ensures { result ≡ is_in self.now node }
    {
        match self {
            Ends::Only(only) => *only == node,
            Ends::Bridges(marks) => match node {
                Node::Bridge(bridge) => is_set(marks, bridge),
                Node::Station(_) => false,
            },
        }
    }

    /// Marks the bridge that a link leaves, if the link has room and leads into the set.
    fn mark(&self, room: Room, link: usize, marks: &mut [bool; MOST_BRIDGES])
        requires inside { link < length room.links.now }
        requires links { AreLinks room.links.now }
        ensures { IsMarkedBy (open_to room.entry.links.now (has_room room.entry.left.now room.entry.cost)) (is_in self.now) link marks.old marks.new }
    {
        let from = room.links[link].from;
        if room.has(link) && self.hold(room.links[link].to) {
            marks[usize::from(from)] = true;
        }
    }

    /// Returns the bridges from which some link with room leads into the set.
    pub fn before(&self, room: Room) -> Ends
        requires { AreLinks room.links.now }
        ensures { AreBefore (open_to room.entry.links.now (has_room room.entry.left.now room.entry.cost)) (is_in self.now) (is_in result) }
    {
        let mut marks = [false; MOST_BRIDGES];
        for link in 0..room.links.len() {
            self.mark(room, link, &mut marks);
        }
        Ends::Bridges(marks)
    }
}
