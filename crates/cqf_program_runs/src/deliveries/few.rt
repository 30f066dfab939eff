//! The deliveries of one offer.
ghost use Rattle.std.specs.Prelude.{◌≡◌, ◌≤◌, ◌<◌, ◌++◌, ◌∷◌, [], IfOk, length};

use crate::deliveries::delivery::Delivery;
use cqf_model::MOST_HOPS;
use cqf_units::Memory;
use std::alloc::Global;
use std::marker::Model;

/// Room for the deliveries of one offer: a tree has at most 200 hops.
#[derive(Drop)]
pub struct Few {
    deliveries: Vec<Delivery>,
}

impl Model for Few {
    ghost use Rattle.std.specs.Prelude.{◌≤◌, List, length, vec_capacity};
    ghost use Rattle.cqf_program_runs.specs.declared.deliveries.delivery.Delivery.{Delivery as ADelivery};

    ghost Value = { List ADelivery };

    ghost view = { λ f. f.deliveries.items };

    ghost invariant = { λ f. (200 ≤ vec_capacity f.deliveries) × (length f.deliveries.items ≤ 200) };
}

impl Few {
    /// Returns room for 200 deliveries; there are none so far. Only this allocates memory.
    ///
    /// # Errors
    /// `Memory` if the allocation fails.
    pub fn new(alloc: Global) -> Result<Few, Memory>
        ensures { IfOk result (λ few. few ≡ []) }
    {
        let deliveries = Vec::with_capacity(alloc, MOST_HOPS)?;
        Ok(Few { deliveries })
    }

    /// Removes all deliveries.
    pub(crate) fn clear(&mut self)
        ensures { self.new ≡ [] }
    {
        self.deliveries.clear();
    }

    /// Appends a delivery.
    pub(crate) fn push(&mut self, delivery: Delivery)
        requires { length self.old < 200 }
        ensures { self.new ≡ self.old ++ delivery ∷ [] }
    {
        self.deliveries.push_reserved(delivery);
    }

    /// Returns the deliveries, at most 200.
    pub fn as_slice(&self) -> &[Delivery]
        ensures value { result.now ≡ self.now }
        ensures fits { length result.now ≤ 200 }
    {
        self.deliveries.as_slice()
    }
}
