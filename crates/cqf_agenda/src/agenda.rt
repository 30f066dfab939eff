//! A bridge's offers and background frames, by cycle.
ghost use Rattle.std.specs.Prelude.{◌≡◌, ◌^◌, ◌<◌, IfOk, length};
ghost use Rattle.cqf_agenda.specs.Agenda.{IsAgendaOf, background_at, offers_listed_at};

use crate::picking::{background_in_order, offers_in_order};
use cqf_laws_cycle::{background_comes_in_order, frames_are_taken_in_order};
use cqf_model::{Backed, Background, Offer, Offered};
use cqf_topology::Domain;
use cqf_units::{Cycle, Memory, Nanos};
use std::alloc::Global;
use std::marker::Model;

/// A bridge's offers of a run and the background frames of its links, each by instant, then index.
#[derive(Debug, Drop)]
pub struct Agenda {
    cycle_time: Nanos,
    offers: Vec<Offered>,
    background: Vec<Backed>,
}

impl Model for Agenda {
    ghost use Rattle.cqf_agenda.specs.Agenda.{AgendaOf, ComesInCycle};

    ghost Value = { AgendaOf };

    ghost view = { λ a. record { cycle_time = a.cycle_time.0; offers = a.offers.items; background = a.background.items } };

    ghost invariant = { λ a. ComesInCycle (record { cycle_time = a.cycle_time.0; offers = a.offers.items; background = a.background.items }) };
}

impl Agenda {
    /// Returns a bridge's part of a run: the offers at that bridge, and the background frames of the links that leave it, each with its
    /// number among all of the run, from 1. There are fewer than 2^32 of each kind. Returns `Memory` if an allocation fails.
    pub fn new(
        alloc: Global,
        domain: &Domain,
        offers: &[Offer],
        background: &[Background],
        bridge: u16,
    ) -> Result<Agenda, Memory>
        requires few_offers { length offers.now < 2 ^ 32 }
        requires few_background { length background.now < 2 ^ 32 }
        ensures { IfOk result (IsAgendaOf domain.now offers.now background.now bridge) }
    {
        frames_are_taken_in_order();
        background_comes_in_order();
        Ok(Agenda {
            cycle_time: domain.cycle_time(),
            offers: offers_in_order(alloc, offers, bridge)?,
            background: background_in_order(alloc, domain, background, bridge)?,
        })
    }

    /// Returns the bridge's offers of a cycle, by instant, then index, for receiving the cycle. Requests no memory.
    pub fn offers(&self, cycle: Cycle) -> &[Offered]
        ensures { result.now ≡ offers_listed_at self.now cycle.0 }
    {
        let begin = u64::from(cycle.0) * self.cycle_time.0;
        let end = begin + self.cycle_time.0;
        let all = self.offers.as_slice();
        let from = all.partition_point(|x| x.offer.at.0 < begin);
        let rest = &all[from..];
        let count = rest.partition_point(|x| x.offer.at.0 < end);
        &rest[..count]
    }

    /// Returns the background frames of the bridge's links in a cycle, by instant, then index, for sending the cycle. Requests no memory.
    pub fn background(&self, cycle: Cycle) -> &[Backed]
        ensures { result.now ≡ background_at self.now cycle.0 }
    {
        let begin = u64::from(cycle.0) * self.cycle_time.0;
        let end = begin + self.cycle_time.0;
        let all = self.background.as_slice();
        let from = all.partition_point(|x| x.background.at.0 < begin);
        let rest = &all[from..];
        let count = rest.partition_point(|x| x.background.at.0 < end);
        &rest[..count]
    }
}
