//! Links by number.
ghost use Rattle.std.specs.Prelude.{◌≡◌, ◌<◌, ◌==◌, ◌&&◌, IfOk, IfSome, length, position};
ghost use Rattle.cqf_model.specs.Domain.{same_node};
ghost use Rattle.cqf_topology.specs.DomainText.{NoLinkTwice};
ghost use Rattle.cqf_topology.specs.Links.{AreEndsOf};

use cqf_model::{Link, Node};
use cqf_units::Memory;
use indexmap::IndexSet;
use std::alloc::Global;
use std::marker::Model;

/// Links, numbered from 0 in their order. No two have the same ends. The time to find a link by its ends doesn't grow with the number of
/// links.
#[derive(Debug, Drop)]
pub struct LinkList {
    links: Vec<Link>,
    /// The ends of each link, by its number.
    ends: IndexSet<(u16, Node)>,
}

impl Model for LinkList {
    ghost use Rattle.std.specs.Prelude.{◌≡◌, map};
    ghost use Rattle.cqf_topology.specs.JoinedLink.{ends_of};
    ghost use Rattle.cqf_topology.specs.Links.{Linked};

    ghost Value = { Linked };

    ghost view = { λ l. record { items = l.links.items } };

    ghost invariant = { λ l. l.ends.keys ≡ map ends_of l.links.items };
}

/// Returns the ends of links. No two links have the same ends.
fn ends_of(alloc: Global, links: &[Link]) -> Result<IndexSet<(u16, Node)>, Memory>
    requires { NoLinkTwice links.now }
    ensures { IfOk result (λ ends. AreEndsOf links.now ends.keys) }
{
    let mut ends = IndexSet::with_capacity(alloc, links.len())?;
    for link in links {
        ends.insert((link.from, link.to))?;
    }
    Ok(ends)
}

impl LinkList {
    /// Returns these links, numbered by their indexes, or `Memory` if an allocation fails. No two of them have the same ends.
    pub fn new(alloc: Global, links: Vec<Link>) -> Result<LinkList, Memory>
        requires { NoLinkTwice links.items }
        ensures { IfOk result (λ list. list.items ≡ links.items) }
    {
        let ends = ends_of(alloc, links.as_slice())?;
        Ok(LinkList { links, ends })
    }

    /// Returns the number of links.
    pub fn len(&self) -> usize
        ensures { result ≡ length self.now.items }
    {
        self.links.len()
    }

    /// Returns all links, by number.
    pub fn as_slice(&self) -> &[Link]
        ensures { result.now ≡ self.now.items }
    {
        self.links.as_slice()
    }

    /// Returns the number of the link from a bridge to a node, or `None` if no link leads from the bridge to the node.
    pub fn number_of(&self, from: u16, to: Node) -> Option<usize>
        ensures number { result ≡ position (λ link. (link.from == from) && same_node link.to to) self.now.items }
        ensures within { IfSome result (λ number. number < length self.now.items) }
    {
        self.ends.get_index_of(&(from, to))
    }

    /// Returns a copy of the links, or `Memory` if an allocation fails.
    pub fn try_copy(&self, alloc: Global) -> Result<LinkList, Memory>
        ensures { IfOk result (λ copy. copy.items ≡ self.now.items) }
    {
        let links = Vec::from_slice(alloc, self.links.as_slice())?;
        let ends = self.ends.clone()?;
        Ok(LinkList { links, ends })
    }
}
