//! The offers at a bridge in a cycle.
ghost use Rattle.std.specs.Prelude.{◌≡◌, ◌+◌, ◌^◌, ◌<◌, ◌==◌, ◌&&◌, IfOk, filter, length};
ghost use Rattle.cqf_model.specs.Domain.{cycle_of};
ghost use Rattle.cqf_model.specs.Policing.{numbered};
ghost use Rattle.cqf_laws_cycle.specs.Gathered.{is_offered_in, offered_for};

use cqf_laws_cycle::frames_are_taken_in_order;
use cqf_model::{Offer, Offered};
use cqf_topology::Domain;
use cqf_units::{Cycle, Memory};
use std::alloc::Global;

/// Returns whether an offer is at the bridge in the cycle.
fn is_offered(domain: &Domain, offer: &Offer, bridge: u16, cycle: Cycle) -> bool
    ensures { result ≡ ((offer.now.bridge == bridge) && (cycle_of domain.now offer.now.at.0 == cycle.0)) }
{
    let here = offer.bridge == bridge;
    let then = offer.at.0 / domain.cycle_time().0 == u64::from(cycle.0);
    here && then
}

/// Returns a copy of the offer at an index (from 0, below 2^32 - 1) of a run's offers, with its number (from 1).
pub fn numbered_offer(index: usize, offer: &Offer) -> Offered
    requires { index + 1 < 2 ^ 32 }
    ensures { result ≡ record { frame = index + 1; offer = offer.now } }
{
    Offered {
        frame: (index + 1) as u32,
        offer: Offer {
            at: offer.at,
            bridge: offer.bridge,
            stream: offer.stream.copied(),
            octets: offer.octets,
        },
    }
}

/// Returns the offers at a bridge in a cycle, in the order of the list.
fn listed(
    alloc: Global,
    domain: &Domain,
    offers: &[Offer],
    bridge: u16,
    cycle: Cycle,
) -> Result<Vec<Offered>, Memory>
    requires { length offers.now < 2 ^ 32 }
    ensures { IfOk result (λ list. list.items ≡ filter (is_offered_in domain.now bridge cycle.0) (numbered offers.now)) }
{
    let mut list = Vec::new(alloc);
    for (index, offer) in offers.iter().enumerate() {
        if is_offered(domain, offer, bridge, cycle) {
            list.push(numbered_offer(index, offer))?;
        }
    }
    Ok(list)
}

/// Returns those of a run's offers that are at a bridge in a cycle, each with its number, by instant, then index. The run has fewer than
/// 2^32 offers. This is what a bridge is given to receive the cycle. Returns `Memory` if an allocation fails.
pub fn offers_of(
    alloc: Global,
    domain: &Domain,
    offers: &[Offer],
    bridge: u16,
    cycle: Cycle,
) -> Result<Vec<Offered>, Memory>
    requires few { length offers.now < 2 ^ 32 }
    ensures { IfOk result (λ list. list.items ≡ offered_for domain.now offers.now bridge cycle.0) }
{
    frames_are_taken_in_order();
    domain.know();
    let mut list = listed(alloc, domain, offers, bridge, cycle)?;
    list.sort_by_key(|offered| offered.offer.at.0)?;
    Ok(list)
}
