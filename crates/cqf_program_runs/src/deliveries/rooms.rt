//! Room for the frames under way.
ghost use Rattle.std.specs.Prelude.{◌≡◌, ◌<◌, ◌^◌, IfOk, None, Some, fold, length, max, replicate, slice_get};
ghost use Rattle.cqf_units.specs.Timing.{cycle_at};
ghost use Rattle.cqf_laws_coverage.specs.Judged.{StandInOrder};
ghost use Rattle.cqf_model.specs.declared.frames.Offer.{Offer as AnOffer};
ghost use Rattle.cqf_model.specs.Run.{AreOffers};
ghost use Rattle.cqf_program_plans.specs.Latency.Text.{listeners_of};
ghost use Rattle.cqf_program_runs.specs.Check.Checked.{greatest_hop_number};
ghost use Rattle.cqf_program_runs.specs.Deliveries.UnderWay.{AreEmptySlots, IsLaid, IsWideFor, slots_of};

use crate::deliveries::under_way::{UnderWay, ends_in_station};
use cqf_instants::Pass;
use cqf_model::{Offer, Row};
use cqf_topology::Domain;
use cqf_units::{Memory, Nanos, cycle_of};
use std::alloc::Global;
use std::collections::VecDeque;

/// Returns the most cycles after its own for which a frame of one of the rows can be under way.
pub fn greatest_hop_number(rows: &[Row]) -> u8
    ensures { result ≡ greatest_hop_number rows.now }
{
    let mut most = 0;
    for row in rows {
        most = most.max(row.residence());
    }
    most
}

/// Returns how many listeners a row has.
fn listeners(domain: &Domain, row: &Row) -> usize
    ensures { result ≡ length (listeners_of domain.now row.now) }
{
    row.tree
        .as_slice()
        .iter()
        .filter(|hop| ends_in_station(domain, hop.link))
        .count()
}

/// Returns the greatest number of listeners of a row.
fn most_listeners(domain: &Domain, rows: &[Row]) -> usize
    ensures { result ≡ fold (λ most row. max most (length (listeners_of domain.now row))) 0 rows.now }
{
    let mut most = 0;
    for row in rows {
        most = most.max(listeners(domain, row));
    }
    most
}

/// Returns the cycle of the offer at an index.
fn cycle_there(domain: &Domain, offers: &[Offer], index: usize) -> u64
    requires offers { AreOffers domain.now offers.now }
    requires there { index < length offers.now }
    ensures is { (offer : AnOffer) → slice_get offers.now index ≡ Some offer → result ≡ cycle_at domain.now.cycle_time offer.at.0 }
    ensures small { result < 2 ^ 32 }
{
    u64::from(cycle_of(offers[index].at, domain.cycle_time()).0)
}

/// Returns a number of slots, at least 1, that is enough for the frames under way: if an offer is that many positions
/// after another, its cycle is at least `hop_number` cycles after the other's. It is the greatest number of consecutive
/// offers whose cycles are less than `hop_number` cycles after that of the first of them.
fn most_at_once(domain: &Domain, hop_number: u8, offers: &[Offer]) -> usize
    requires offers { AreOffers domain.now offers.now }
    requires order { StandInOrder offers.now }
    ensures some { 0 < result }
    ensures enough { IsWideFor domain.now.cycle_time hop_number offers.now result }
{
    let hop_number = u64::from(hop_number);
    let mut most = 1;
    for index in 0..offers.len() {
        if index >= most {
            let early = cycle_there(domain, offers, index - most);
            let late = cycle_there(domain, offers, index);
            if early + hop_number > late {
                most += 1;
            }
        }
    }
    most
}

/// Returns a slot of a width in which nothing is kept.
fn empty_slot(alloc: Global, width: usize) -> Result<Vec<Option<Nanos>>, Memory>
    ensures { IfOk result (λ slot. slot.items ≡ replicate width None) }
{
    Ok(vec![in alloc; None; width]?)
}

/// Returns `many` slots of one width in which nothing is kept.
fn empty_slots(
    alloc: Global,
    width: usize,
    many: usize,
) -> Result<VecDeque<Vec<Option<Nanos>>>, Memory>
    ensures { IfOk result (λ slots. AreEmptySlots width many (slots_of slots.items)) }
{
    let mut slots = VecDeque::with_capacity(alloc, many)?;
    for _slot in 0..many {
        slots.push_back(empty_slot(alloc, width)?)?;
    }
    Ok(slots)
}

impl UnderWay {
    /// Returns the frames under way of offers in order of time, from the first one on. `pass` will return their starts.
    /// All memory that they need is allocated here.
    ///
    /// # Errors
    /// `Memory` if an allocation fails.
    pub(crate) fn new(
        alloc: Global,
        domain: &Domain,
        rows: &[Row],
        offers: &[Offer],
        pass: Pass,
    ) -> Result<UnderWay, Memory>
        requires offers { AreOffers domain.now offers.now }
        requires order { StandInOrder offers.now }
        ensures { IfOk result (λ under_way. (under_way.pass ≡ pass) × IsLaid domain.now rows.now offers.now under_way) }
    {
        let hop_number = greatest_hop_number(rows);
        let width = most_listeners(domain, rows);
        let many = most_at_once(domain, hop_number, offers);
        let slots = empty_slots(alloc, width, many)?;
        Ok(UnderWay {
            pass,
            reported: 0,
            hop_number,
            slots,
        })
    }
}
