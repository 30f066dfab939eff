//! A bridge's part of a run's offers and background frames, in order of instant.
ghost use Rattle.std.specs.Prelude.{◌≡◌, ◌+◌, ◌^◌, ◌<◌, IfOk, filter, length};
ghost use Rattle.cqf_model.specs.Domain.{leaves};
ghost use Rattle.cqf_model.specs.Network.{numbered_background};
ghost use Rattle.cqf_model.specs.Policing.{numbered};
ghost use Rattle.cqf_laws_cycle.specs.Gathered.{IsInOrderOf};
ghost use Rattle.cqf_agenda.specs.Agenda.{instant_of_backed, instant_of_offer};
ghost use Rattle.cqf_agenda.specs.Picking.{is_backed_from, is_offered_to};

use crate::numbered_offer;
use cqf_model::{Backed, Background, Offer, Offered};
use cqf_topology::Domain;
use cqf_units::Memory;
use std::alloc::Global;

/// Returns the offers at a bridge, in the order of the list.
fn listed_offers(alloc: Global, offers: &[Offer], bridge: u16) -> Result<Vec<Offered>, Memory>
    requires { length offers.now < 2 ^ 32 }
    ensures { IfOk result (λ list. list.items ≡ filter (is_offered_to bridge) (numbered offers.now)) }
{
    let mut list = Vec::new(alloc);
    for (index, offer) in offers.iter().enumerate() {
        if offer.bridge == bridge {
            list.push(numbered_offer(index, offer))?;
        }
    }
    Ok(list)
}

/// Returns the offers at a bridge, by instant, then index.
pub(crate) fn offers_in_order(
    alloc: Global,
    offers: &[Offer],
    bridge: u16,
) -> Result<Vec<Offered>, Memory>
    requires { length offers.now < 2 ^ 32 }
    ensures { IfOk result (λ list. IsInOrderOf instant_of_offer (filter (is_offered_to bridge) (numbered offers.now)) list.items) }
{
    let mut list = listed_offers(alloc, offers, bridge)?;
    list.sort_by_key(|offered| offered.offer.at.0)?;
    Ok(list)
}

/// Returns whether the domain has the link and it leaves the bridge.
fn is_from(domain: &Domain, link: u16, bridge: u16) -> bool
    ensures { result ≡ leaves domain.now link bridge }
{
    if link >= domain.links() {
        return false;
    }
    domain.link(link).from == bridge
}

/// Returns the background frame at an index, with its number, from 1.
fn numbered_frame(index: usize, background: &Background) -> Backed
    requires { index + 1 < 2 ^ 32 }
    ensures { result ≡ record { frame = index + 1; background = background.now } }
{
    Backed {
        frame: (index + 1) as u32,
        background: *background,
    }
}

/// Returns the background frames of the links that leave a bridge, in the order of the list.
fn listed_background(
    alloc: Global,
    domain: &Domain,
    background: &[Background],
    bridge: u16,
) -> Result<Vec<Backed>, Memory>
    requires { length background.now < 2 ^ 32 }
    ensures { IfOk result (λ list. list.items ≡ filter (is_backed_from domain.now bridge) (numbered_background background.now)) }
{
    let mut list = Vec::new(alloc);
    for (index, frame) in background.iter().enumerate() {
        if is_from(domain, frame.link, bridge) {
            list.push(numbered_frame(index, frame))?;
        }
    }
    Ok(list)
}

/// Returns the background frames of the links that leave a bridge, by instant, then index.
pub(crate) fn background_in_order(
    alloc: Global,
    domain: &Domain,
    background: &[Background],
    bridge: u16,
) -> Result<Vec<Backed>, Memory>
    requires { length background.now < 2 ^ 32 }
    ensures { IfOk result (λ list.
        IsInOrderOf instant_of_backed (filter (is_backed_from domain.now bridge) (numbered_background background.now)) list.items) }
{
    let mut list = listed_background(alloc, domain, background, bridge)?;
    list.sort_by_key(|backed| backed.background.at.0)?;
    Ok(list)
}
