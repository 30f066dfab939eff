//! The ring of 128 slots by end cycle.
ghost use Rattle.std.specs.Prelude.{◌≡◌, ◌≢◌, ◌<◌, ◌++◌, ◌+◌, ◌%◌, false, ℕ, [], ◌∷◌, AllPairs, Contains, OnErr, OnOk, IfOk, length, slice_index_or, slice_set};
ghost use Rattle.cqf_admission.specs.Holdings.{AreLetGo, IsHeldAt};

use crate::ends::let_go_of;
use crate::holdings::Holdings;
use cqf_units::Memory;
use std::alloc::Global;
use std::marker::Model;

/// Returns the slot of the cycle in which a stream ends that is withdrawn from `cycle` on and held for `residence` more cycles.
pub(crate) fn slot_of(cycle: u32, residence: u8) -> usize
    ensures { result ≡ (cycle + residence) % 128 }
{
    ((u64::from(cycle) + u64::from(residence)) % 128) as usize
}

/// For each slot, the numbers of the streams that end in a cycle of this slot.
#[derive(Debug, Drop)]
pub(crate) struct Slots {
    lists: Vec<Vec<u32>>,
}

impl Model for Slots {
    ghost use Rattle.std.specs.Prelude.{◌≡◌, ℕ, List, length, map};

    ghost Value = { List (List ℕ) };

    ghost view = { λ s. map (λ list. list.items) s.lists.items };

    ghost invariant = { λ s. length s.lists.items ≡ 128 };
}

impl Slots {
    /// Returns slots without numbers, or `Memory` if an allocation fails.
    pub(crate) fn new(alloc: Global) -> Result<Slots, Memory>
        ensures many { IfOk result (λ slots. length slots ≡ 128) }
        ensures empty { IfOk result (λ slots. (slot : ℕ) → slot < 128 → slice_index_or slots slot [] ≡ []) }
    {
        let mut lists = Vec::with_capacity(alloc, 128)?;
        for _ in 0..128usize {
            lists.push(Vec::new(alloc))?;
        }
        Ok(Slots { lists })
    }

    /// Appends a number to a slot. Returns `Memory` if an allocation fails; then nothing is changed.
    pub(crate) fn put(&mut self, slot: usize, number: u32) -> Result<(), Memory>
        requires { slot < 128 }
        ensures more { OnOk result (self.new ≡ slice_set self.old slot (slice_index_or self.old slot [] ++ number ∷ [])) }
        ensures same { OnErr result (self.new ≡ self.old) }
    {
        self.lists[slot].push(number)?;
        Ok(())
    }

    /// Returns whether a slot has a number. Returns `false` only if it has none.
    pub(crate) fn has(&self, slot: usize) -> bool
        requires { slot < 128 }
        ensures { result ≡ false → slice_index_or self.now slot [] ≡ [] }
    {
        !self.lists[slot].is_empty()
    }

    /// Returns a copy of the slots, or `Memory` if an allocation fails.
    pub(crate) fn try_copy(&self, alloc: Global) -> Result<Slots, Memory>
        ensures { IfOk result (λ copy. copy ≡ self.now) }
    {
        let mut lists = Vec::with_capacity(alloc, self.lists.len())?;
        for list in &self.lists {
            lists.push(Vec::from_slice(alloc, list.as_slice())?)?;
        }
        Ok(Slots { lists })
    }

    /// Releases each stream whose number is in a slot, and empties the slot.
    pub(crate) fn empty(&mut self, slot: usize, holdings: &mut Holdings)
        requires low { slot < 128 }
        requires held { (number : ℕ) → Contains (slice_index_or self.old slot []) number → IsHeldAt holdings.old.rows number }
        requires once { AllPairs (λ (a b : ℕ). a ≢ b) (slice_index_or self.old slot []) }
        ensures rows { AreLetGo (slice_index_or self.old slot []) holdings.old.rows holdings.new.rows }
        ensures links { holdings.new.links ≡ holdings.old.links }
        ensures slots { self.new ≡ slice_set self.old slot [] }
    {
        let_go_of(holdings, &mut self.lists[slot]);
    }
}
