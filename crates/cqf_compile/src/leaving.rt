//! The bridges that a stream leaves, and the hops by which it leaves them.
ghost use Rattle.std.specs.Prelude.{◌≡◌, ◌<◌, ◌==◌, All, length, option_copied};
ghost use Rattle.std.specs.List.{list_any};
ghost use Rattle.cqf_model.specs.Domain.{leaves};
ghost use Rattle.cqf_model.specs.Table.{bridges_of, links_of};
ghost use Rattle.cqf_compile.specs.BridgeGates.{first_hop, ingress_at};

use crate::plan::Plan;
use arrayvec::ArrayVec;
use cqf_model::{Hop, Row};
use cqf_topology::Domain;

/// Returns whether the link leaves the bridge; `false` for a link that the domain doesn't have.
pub fn leaves(domain: &Domain, link: u16, bridge: u16) -> bool
    ensures { result ≡ leaves domain.now link bridge }
{
    link < domain.links() && domain.link(link).from == bridge
}

/// Returns the first hop by which the row's stream leaves the bridge.
fn find_hop<'r>(domain: &Domain, row: &'r Row, bridge: u16) -> Option<&'r Hop>
    ensures { option_copied result ≡ first_hop domain.now bridge row.now }
{
    row.tree
        .as_slice()
        .iter()
        .find(|hop| leaves(domain, hop.link, bridge))
}

/// Returns the first hop by which the row's stream leaves the bridge, or `None` if it doesn't leave it.
pub fn first_hop(domain: &Domain, row: &Row, bridge: u16) -> Option<Hop>
    ensures { result ≡ first_hop domain.now bridge row.now }
{
    match find_hop(domain, row, bridge) {
        Some(hop) => Some(*hop),
        None => None,
    }
}

/// Returns the link by which the frames that go on from the bridge come. Returns `None` at the stream's first bridge,
/// and at a bridge that it doesn't leave.
pub(crate) fn ingress_at(domain: &Domain, row: &Row, bridge: u16) -> Option<u16>
    ensures { result ≡ ingress_at domain.now bridge row.now }
{
    first_hop(domain, row, bridge)?.from
}

/// Returns the bridges at which the stream has a gate, each once, in the order in which its tree leaves them. The tree
/// has only links of the plan's domain.
pub fn bridges_of(plan: &Plan, row: &Row) -> ArrayVec<u16, 200>
    requires { All (λ l. l < length plan.now.links) (links_of row.now) }
    ensures value { result.items ≡ bridges_of plan.now row.now }
    ensures inside { All (λ bridge. bridge < length plan.now.bridges) result.items }
{
    let domain = plan.domain();
    let mut bridges = ArrayVec::new();
    for hop in row.tree.as_slice() {
        let bridge = domain.link(hop.link).from;
        if !is_among(bridges.as_slice(), bridge) {
            bridges.push(bridge);
        }
    }
    bridges
}

/// Returns whether the bridge is among these.
fn is_among(bridges: &[u16], bridge: u16) -> bool
    ensures { result ≡ list_any (λ other. other == bridge) bridges.now }
{
    bridges.iter().any(|other| *other == bridge)
}
