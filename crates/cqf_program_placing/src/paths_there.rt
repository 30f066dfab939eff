//! Whether paths lead from a bridge to nodes.
ghost use Rattle.std.specs.Prelude.{◌≡◌};
ghost use Rattle.cqf_model.specs.Domain.{node_named};
ghost use Rattle.cqf_network.specs.Paths.{AreLinks, most_links};
ghost use Rattle.cqf_program_placing.specs.Settled.{first_apart, has_path, is_led};

use crate::entrances::OpenNetwork;
use cqf_model::{Link, MOST_LINKS, Node};
use cqf_network::{Room, first_path, full_paths_have_a_short_link};
use cqf_units::Name;

/// Returns whether links lead from a bridge to a node, at most 16 of them. There are at most 4,096 links.
fn is_led(links: &[Link], bridge: u16, to: Node) -> bool
    requires { AreLinks links.now }
    ensures { result ≡ is_led links.now most_links (Node.Bridge bridge) to }
{
    // at a cost of 0 each link has room
    full_paths_have_a_short_link();
    let nothing = [0u32; MOST_LINKS];
    let room = Room {
        links,
        left: &nothing[..links.len()],
        cost: 0,
    };
    first_path(room, bridge, to).is_some()
}

/// Returns whether a path leads from a bridge to the node of a name.
fn has_path(at: OpenNetwork, bridge: u16, name: &Name) -> bool
    requires { at.network.now.links ≡ at.plan.now.links }
    ensures { result ≡ has_path at.entry.plan.now bridge (node_named at.entry.plan.now name.now) }
{
    // the domain is accepted, so it has no more links than are represented
    at.plan.know();
    match at.plan.find(name.as_str()) {
        Some(node) => is_led(at.network.links(), bridge, node),
        None => false,
    }
}

/// Returns the first of some names to whose node no path leads from a bridge.
pub(crate) fn first_apart(at: OpenNetwork, bridge: u16, names: &[Name]) -> Option<Name>
    requires { at.network.now.links ≡ at.plan.now.links }
    ensures { result ≡ first_apart at.entry.plan.now bridge names.now }
{
    for name in names {
        if !has_path(at, bridge, name) {
            return Some(name.copied());
        }
    }
    None
}
