//! What a row says about its stream: the cycles in which it is live and held, and its tree.
ghost use Rattle.std.specs.Prelude.{◌≡◌, ◌<◌, ◌==◌, ◌&&◌, ◌+◌, nat_lt, IfOk};
ghost use Rattle.std.specs.List.{list_any};
ghost use Rattle.cqf_model.specs.Table.{crosses, goes_to, is_held, is_live, residence, same_ingress};

use crate::{Hop, Row};
use cqf_units::{Cycle, Memory};
use std::alloc::Global;

/// Returns whether the two are the same link, or both are `None`, the edge.
fn is_same_ingress(from: Option<u16>, ingress: Option<u16>) -> bool
    ensures { result ≡ same_ingress from ingress }
{
    match (from, ingress) {
        (None, None) => true,
        (Some(link), Some(other)) => link == other,
        _ => false,
    }
}

/// Returns whether one of the hops is by the link.
fn has_link(hops: &[Hop], link: u16) -> bool
    ensures { result ≡ list_any (λ hop. hop.link == link) hops.now }
{
    hops.iter().any(|hop| hop.link == link)
}

/// Returns whether one of the hops is by the link and follows the link `ingress`, or the edge if `ingress` is `None`.
fn leads_on(hops: &[Hop], ingress: Option<u16>, link: u16) -> bool
    ensures { result ≡ list_any (λ hop. same_ingress hop.from ingress && (hop.link == link)) hops.now }
{
    hops.iter().any(|hop| is_same_ingress(hop.from, ingress) && hop.link == link)
}

/// Returns whether a cycle is before the cycle that is `cycles` cycles after `end`.
fn is_under_way(cycle: u32, end: u32, cycles: u8) -> bool
    ensures { result ≡ nat_lt cycle (end + cycles) }
{
    u64::from(cycle) < u64::from(end) + u64::from(cycles)
}

impl Row {
    /// Returns whether the stream is live in the cycle: admitted, and not yet withdrawn.
    pub fn live(&self, cycle: Cycle) -> bool
        ensures { result ≡ is_live self.now cycle.0 }
    {
        let begun = self.admitted <= cycle;
        match self.withdrawn {
            Some(end) => begun && cycle < end,
            None => begun,
        }
    }

    /// Returns whether the stream is held in the cycle, with its costs, gates and name: admitted and, if it was
    /// withdrawn, not yet past the cycle in which its last frame leaves the last bridge of its longest branch.
    pub fn is_held(&self, cycle: Cycle) -> bool
        ensures { result ≡ is_held self.now cycle.0 }
    {
        let begun = self.admitted.0 <= cycle.0;
        match self.withdrawn {
            Some(end) => begun && is_under_way(cycle.0, end.0, self.residence()),
            None => begun,
        }
    }

    /// Returns the number of cycles after its own for which a frame of the stream may be under way: the greatest hop number.
    pub fn residence(&self) -> u8
        ensures { result ≡ residence self.now }
    {
        let mut most = 0;
        for hop in self.tree.as_slice() {
            most = most.max(hop.hop_number);
        }
        most
    }

    /// Returns whether the stream's tree has the link.
    pub fn crosses(&self, link: u16) -> bool
        ensures { result ≡ crosses self.now link }
    {
        has_link(self.tree.as_slice(), link)
    }

    /// Returns whether a frame of the stream goes on by `link`. The frame came by the link `ingress`, or was offered at the edge
    /// bridge if `ingress` is `None`.
    pub fn goes_on_by(&self, ingress: Option<u16>, link: u16) -> bool
        ensures { result ≡ list_any (λ next. next == link) (goes_to self.now ingress) }
    {
        leads_on(self.tree.as_slice(), ingress, link)
    }

    /// Returns a copy of the row, or `Memory` if an allocation fails.
    pub fn try_copy(&self, alloc: Global) -> Result<Row, Memory>
        ensures { IfOk result (λ row. row ≡ self.now) }
    {
        Ok(Row {
            no: self.no,
            name: self.name.copied(),
            octets: self.octets,
            overhead: self.overhead,
            pace: self.pace,
            tree: self.tree.try_copy(alloc)?,
            admitted: self.admitted,
            withdrawn: self.withdrawn,
        })
    }
}
