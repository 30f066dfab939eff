//! Links, and what a stream to be placed costs on each.
ghost use Rattle.std.specs.Prelude.{◌≡◌, ◌<◌, length};
ghost use Rattle.cqf_network.specs.Ends.{open_to};
ghost use Rattle.cqf_network.specs.Paths.{has_room, led_by};

use cqf_model::{Link, Node};

/// The links of a network by number, what each has left, and what a stream to be placed costs on each, in octets per
/// cycle. A link has room if it has at least the cost left. At a cost of 0 each link has room.
#[derive(Clone, Copy)]
pub struct Room<'a> {
    pub links: &'a [Link],
    /// What each link has left, in octets per cycle, by the link's number.
    pub left: &'a [u32],
    pub cost: u32,
}

/// Returns the node in which a link ends, if the link leaves the given node.
fn led_from(node: Node, link: &Link) -> Option<Node>
    ensures { result ≡ led_by node link.now }
{
    if node == Node::Bridge(link.from) {
        Some(link.to)
    } else {
        None
    }
}

impl<'a> Room<'a> {
    /// Returns whether the link with a number has room.
    pub(crate) fn has(self, link: usize) -> bool
        ensures { result ≡ has_room self.entry.left.now self.entry.cost link }
    {
        match self.left.get(link) {
            Some(octets) => self.cost <= *octets,
            None => false,
        }
    }

    /// Returns the node to which the link with a number leads from a node, if the link has room.
    pub(crate) fn led(self, node: Node, link: usize) -> Option<Node>
        requires { link < length self.links.now }
        ensures { result ≡ open_to self.entry.links.now (has_room self.entry.left.now self.entry.cost) node link }
    {
        if self.has(link) {
            led_from(node, &self.links[link])
        } else {
            None
        }
    }
}
