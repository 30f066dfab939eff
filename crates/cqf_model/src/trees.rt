//! The trees of streams.
ghost use Rattle.std.specs.Prelude.{◌≡◌, ◌≤◌, IfOk, length};
ghost use Rattle.cqf_model.specs.Limits.{most_hops};

use crate::Hop;
use cqf_units::Memory;
use std::alloc::Global;
use std::marker::Model;

/// The hops of a stream's branches, at most 200, each link once, in the order in which the links first occur in the branches.
#[derive(Debug, Drop)]
pub struct Tree {
    hops: Vec<Hop>,
}

impl Model for Tree {
    ghost use Rattle.std.specs.Prelude.{◌≤◌, length};
    ghost use Rattle.cqf_model.specs.Limits.{most_hops};
    ghost use Rattle.cqf_model.specs.Trees.{Hops};

    ghost Value = { Hops };

    ghost view = { λ t. record { items = t.hops.items } };

    ghost invariant = { λ t. length t.hops.items ≤ most_hops };
}

impl Tree {
    /// Returns the tree with these hops, at most 200. Returns `Memory` if an allocation fails.
    pub fn new(alloc: Global, hops: &[Hop]) -> Result<Tree, Memory>
        requires { length hops.now ≤ most_hops }
        ensures { IfOk result (λ tree. tree.items ≡ hops.now) }
    {
        Ok(Tree {
            hops: Vec::from_slice(alloc, hops)?,
        })
    }

    /// Returns the hops.
    pub fn as_slice(&self) -> &[Hop]
        ensures value { result.now ≡ self.now.items }
        ensures few { length result.now ≤ most_hops }
    {
        self.hops.as_slice()
    }

    /// Returns a copy of the tree, or `Memory` if an allocation fails.
    pub fn try_copy(&self, alloc: Global) -> Result<Tree, Memory>
        ensures { IfOk result (λ tree. tree ≡ self.now) }
    {
        Tree::new(alloc, self.hops.as_slice())
    }
}
