//! Calls of a bridge that satisfy their preconditions.
ghost use Rattle.std.specs.Prelude.{◌≡◌, ◌<◌, ℕ, length, true};
ghost use Rattle.cqf_model.specs.Domain.{leaves};
ghost use Rattle.cqf_bridge.specs.BridgeState.{IsBackedOf};

use cqf_admission::Table;
use cqf_agenda::offers_of;
use cqf_bridge::{Batch, Bridge, BridgeFault, Dropped, Offer};
use cqf_model::{Backed, Background};
use cqf_test_fixtures::are_offers;
use cqf_topology::Domain;
use cqf_units::Cycle;
use std::alloc::Global;

/// Receives a cycle at a bridge with those of these offers that are at the bridge.
pub(crate) fn receive(
    alloc: Global,
    bridge: &mut Bridge,
    cycle: Cycle,
    table: &Table,
    batches: &[Batch],
    offers: &[Offer],
) -> Result<Vec<Dropped>, BridgeFault>
    requires { cycle.0 < 100000 }
{
    if !are_offers(bridge.domain(), offers) || offers.len() > 1000 {
        return Err(BridgeFault::Memory);
    }
    let own = match offers_of(alloc, bridge.domain(), offers, bridge.number(), cycle) {
        Ok(own) => own,
        Err(_) => return Err(BridgeFault::Memory),
    };
    bridge.receive(alloc, cycle, table, batches, own.as_slice())
}

/// Returns whether a link of the domain leaves a bridge.
fn is_from(domain: &Domain, link: u16, bridge: u16) -> bool
    ensures inside { result ≡ true → link < length domain.now.links }
    ensures leaves { result ≡ true → leaves domain.now link bridge ≡ true }
{
    if link >= domain.links() {
        return false;
    }
    domain.link(link).from == bridge
}

/// Returns whether a background frame may be given to a bridge with a cycle.
fn is_backed_of(domain: &Domain, bridge: u16, cycle: Cycle, frame: &Background) -> bool
    ensures { result ≡ true → (number : ℕ) → IsBackedOf domain.now bridge cycle.0 (record { frame = number; background = frame.now }) }
{
    let here = is_from(domain, frame.link, bridge);
    let fits = frame.octets >= 64 && frame.octets <= 1522 && frame.class <= 5;
    let early = frame.at.0 < 1_000_000_000_000;
    let then = frame.at.0 / domain.cycle_time().0 == u64::from(cycle.0);
    here && fits && early && then
}

/// Sends a cycle with the background frame 1, if it is the bridge's and of the cycle.
pub(crate) fn send(
    alloc: Global,
    bridge: &mut Bridge,
    cycle: Cycle,
    background: Option<Background>,
    batches: &mut Vec<Batch>,
) -> Result<(), BridgeFault>
    requires { cycle.0 < 100000 }
{
    match background {
        Some(background) => {
            if !is_backed_of(bridge.domain(), bridge.number(), cycle, &background) {
                return bridge.send(alloc, cycle, &[], batches);
            }
            let frame = Backed {
                frame: 1,
                background,
            };
            bridge.send(alloc, cycle, &[frame], batches)
        }
        None => bridge.send(alloc, cycle, &[], batches),
    }
}
