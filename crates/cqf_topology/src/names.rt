//! Names by number.
ghost use Rattle.std.specs.Prelude.{◌≡◌, ◌<◌, [], ◌∷◌, ◌++◌, false, IfOk, IfSome, OnErr, OnOk, length};
ghost use Rattle.cqf_topology.specs.DomainText.{index_of, is_among};

use cqf_units::{Memory, Name};
use std::alloc::Global;
use std::collections::BTreeMap;
use std::marker::Model;

/// Names, each once, numbered from 0 in the order in which they were added. A lookup uses their sorted order: its time grows with the
/// logarithm of the number of names, regardless of the names.
#[derive(Debug, Drop)]
pub struct NameList {
    names: Vec<Name>,
    /// The number of each name.
    numbers: BTreeMap<Name, usize>,
}

impl Model for NameList {
    ghost use Rattle.std.specs.BTreeMap.{get};
    ghost use Rattle.std.specs.Cmp.Lexicographic.{slice_cmp};
    ghost use Rattle.std.specs.Ordering.{nat_cmp};
    ghost use Rattle.cqf_topology.specs.Names.{AreNumbered, Numbered};

    ghost Value = { Numbered };

    ghost view = { λ n. record { keys = n.names.items } };

    ghost invariant = { λ n. AreNumbered (get (slice_cmp nat_cmp) n.numbers) n.names.items };
}

impl NameList {
    /// Returns an empty list. Requests no memory.
    pub fn new(alloc: Global) -> NameList
        ensures { result.keys ≡ [] }
    {
        NameList {
            names: Vec::new(alloc),
            numbers: BTreeMap::new(alloc),
        }
    }

    /// Returns the number of names.
    pub fn len(&self) -> usize
        ensures { result ≡ length self.now.keys }
    {
        self.names.len()
    }

    /// Returns all names, by number.
    pub fn as_slice(&self) -> &[Name]
        ensures { result.now ≡ self.now.keys }
    {
        self.names.as_slice()
    }

    /// Returns whether the name is among these names.
    pub fn contains(&self, name: &Name) -> bool
        ensures { result ≡ is_among name.now self.now.keys }
    {
        self.numbers.contains_key(name)
    }

    /// Returns the name's number, or `None` if it isn't among these names.
    pub fn number_of(&self, name: &Name) -> Option<usize>
        ensures number { result ≡ index_of name.now self.now.keys }
        ensures within { IfSome result (λ number. number < length self.now.keys) }
    {
        self.numbers.get(name).copied()
    }

    /// Gives the next number to a name that isn't among these names. Returns `Memory` if an allocation fails; the list is then unchanged.
    pub fn add(&mut self, name: &Name) -> Result<(), Memory>
        requires { is_among name.now self.old.keys ≡ false }
        ensures more { OnOk result (self.new.keys ≡ self.old.keys ++ name.now ∷ []) }
        ensures same { OnErr result (self.new ≡ self.old) }
    {
        self.names.reserve(1)?;
        self.numbers.insert(name.copied(), self.names.len())?;
        self.names.push(name.copied()).unwrap();
        Ok(())
    }

    /// Returns a copy of the names, in the same order, or `Memory` if an allocation fails.
    pub fn try_copy(&self, alloc: Global) -> Result<NameList, Memory>
        ensures { IfOk result (λ copy. copy.keys ≡ self.now.keys) }
    {
        let names = copied_names(alloc, self.names.as_slice())?;
        let numbers = self.numbers.clone()?;
        Ok(NameList { names, numbers })
    }
}

/// Returns a copy of the names, or `Memory` if an allocation fails.
fn copied_names(alloc: Global, names: &[Name]) -> Result<Vec<Name>, Memory>
    ensures { IfOk result (λ copies. copies.items ≡ names.now) }
{
    let mut copies = Vec::with_capacity(alloc, names.len())?;
    for name in names {
        copies.push(name.copied())?;
    }
    Ok(copies)
}
