//! Whether a stream begins at a bridge.
ghost use Rattle.std.specs.Prelude.{◌≡◌, ◌&&◌, None};
ghost use Rattle.std.specs.List.{list_any};
ghost use Rattle.cqf_model.specs.Domain.{leaves};
ghost use Rattle.cqf_model.specs.Table.{begins_at, same_ingress};

use crate::domain::Domain;
use cqf_model::{Hop, Row};

/// Returns whether a link leaves a bridge. A link that the domain lacks doesn't.
fn leaves(domain: &Domain, link: u16, bridge: u16) -> bool
    ensures { result ≡ leaves domain.now link bridge }
{
    link < domain.links() && domain.link(link).from == bridge
}

/// Returns whether a hop begins its tree at a bridge: it follows no other hop, and its link leaves the bridge.
fn begins(domain: &Domain, hop: &Hop, bridge: u16) -> bool
    ensures { result ≡ (same_ingress hop.now.from None && leaves domain.now hop.now.link bridge) }
{
    match hop.from {
        None => leaves(domain, hop.link, bridge),
        Some(_) => false,
    }
}

/// Returns whether one of the hops begins its tree at a bridge.
fn one_begins(domain: &Domain, hops: &[Hop], bridge: u16) -> bool
    ensures { result ≡ list_any (λ hop. same_ingress hop.from None && leaves domain.now hop.link bridge) hops.now }
{
    hops.iter().any(|hop| begins(domain, hop, bridge))
}

/// Returns whether a row's stream begins at a bridge: the link of a hop of its tree that follows no other hop leaves the bridge. No stream
/// begins at a bridge that the domain lacks.
pub fn begins_at(domain: &Domain, row: &Row, bridge: u16) -> bool
    ensures { result ≡ begins_at domain.now row.now bridge }
{
    one_begins(domain, row.tree.as_slice(), bridge)
}
