//! The rows that lead to a link.
ghost use Rattle.std.specs.Prelude.{ℕ, ◌≡◌, ◌==◌, ◌||◌, [], OnOk, false};
ghost use Rattle.std.specs.List.{list_any};
ghost use Rattle.cqf_relay.specs.Leading.{LearnsRow, by_at, by_hops, is_link, is_some, same_by};

use cqf_model::Hop;
use cqf_units::Memory;
use std::alloc::Global;

/// How those frames of a row that go on by a link arrive at the link's bridge.
#[derive(Clone, Copy, Debug, PartialEq, Eq)]
pub(crate) enum By {
    /// No frames go on by the link.
    Nothing,
    /// The frames are offered at the bridge.
    Edge,
    /// The frames arrive by another link.
    Link(u16),
}

/// The rows that lead to one link.
#[derive(Debug, Drop)]
pub(crate) struct Leads {
    /// By row number, how those frames of the row that go on by the link arrive.
    rows: Vec<By>,
    /// The links from which a row leads to this one.
    needs: Vec<u16>,
    /// Whether any row leads to this link.
    used: bool,
}

/// Returns how the frames that go on by a link arrive, by the tree of their row.
fn by_tree(tree: &[Hop], link: u16) -> By
    ensures { result ≡ by_hops link tree.now }
{
    for hop in tree {
        if hop.link == link {
            return match hop.from {
                None => By::Edge,
                Some(from) => By::Link(from),
            };
        }
    }
    By::Nothing
}

/// Returns whether frames arrive in the same way.
fn is_same(one: By, other: By) -> bool
    ensures { result ≡ same_by one other }
{
    one == other
}

impl Leads {
    /// Returns no rows. Requests no memory.
    pub(crate) fn new(alloc: Global) -> Leads
        ensures rows { result.rows.items ≡ [] }
        ensures needs { result.needs.items ≡ [] }
        ensures used { result.used ≡ false }
    {
        Leads {
            rows: Vec::new(alloc),
            needs: Vec::new(alloc),
            used: false,
        }
    }

    /// Learns the tree of the row `number`, which follows the known rows, so far as it concerns `link`. The numbers between the known rows
    /// and this one are those of rows that don't lead to the link. Returns `Memory` if an allocation fails.
    pub(crate) fn learn(&mut self, number: u32, tree: &[Hop], link: u16) -> Result<(), Memory>
        ensures { OnOk result (LearnsRow number (by_hops link tree.now) self.old self.new) }
    {
        for _between in self.rows.len()..number as usize {
            self.rows.push(By::Nothing)?;
        }
        let by = by_tree(tree, link);
        self.rows.push(by)?;
        self.note(by)?;
        Ok(())
    }

    /// Records that a row leads to the link, and from which link, by how its frames arrive. Returns `Memory` if an allocation fails.
    fn note(&mut self, by: By) -> Result<(), Memory>
        ensures rows { self.new.rows ≡ self.old.rows }
        ensures needs { OnOk result ((m : ℕ) →
            list_any (λ it. it == m) self.new.needs.items ≡ (list_any (λ it. it == m) self.old.needs.items || is_link by m)) }
        ensures used { OnOk result (self.new.used ≡ (self.old.used || is_some by)) }
    {
        match by {
            By::Nothing => Ok(()),
            By::Edge => {
                self.used = true;
                Ok(())
            }
            By::Link(from) => {
                self.used = true;
                if self.needs(from) {
                    return Ok(());
                }
                self.needs.push(from)?;
                Ok(())
            }
        }
    }

    /// Returns whether those frames of the row of a number that arrive in this way go on by the link.
    pub(crate) fn has(&self, number: u32, by: By) -> bool
        ensures { result ≡ same_by (by_at self.now.rows.items number) by }
    {
        match self.rows.get(number as usize) {
            Some(known) => is_same(*known, by),
            None => is_same(By::Nothing, by),
        }
    }

    /// Returns whether a row leads from a link to this one.
    pub(crate) fn needs(&self, link: u16) -> bool
        ensures { result ≡ list_any (λ it. it == link) self.now.needs.items }
    {
        self.needs.iter().any(|it| *it == link)
    }

    /// Returns whether any row leads to this link.
    pub(crate) fn used(&self) -> bool
        ensures { result ≡ self.now.used }
    {
        self.used
    }
}
