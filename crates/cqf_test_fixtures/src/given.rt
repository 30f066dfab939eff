//! Whether offers or background frames may be given to a run, as the calls that run a domain require.
ghost use Rattle.std.specs.Prelude.{◌≡◌, true};
ghost use Rattle.cqf_model.specs.Run.{AreBackground, AreOffers, IsBackground, IsOffer};

use cqf_model::{Background, Offer};
use cqf_topology::Domain;

/// Returns whether an offer may be given to a run of the domain.
fn is_offer(domain: &Domain, offer: &Offer) -> bool
    ensures { result ≡ true → IsOffer domain.now offer.now }
{
    let here = offer.bridge < domain.bridges();
    let fits = offer.octets >= 64 && offer.octets <= 1522;
    let early = offer.at.0 < 1_000_000_000_000;
    here && fits && early
}

/// Returns whether offers may be given to a run of the domain: each is at one of its bridges, has 64 to 1,522 octets, and comes before
/// 1,000,000,000,000 ns.
pub fn are_offers(domain: &Domain, offers: &[Offer]) -> bool
    ensures { result ≡ true → AreOffers domain.now offers.now }
{
    for offer in offers {
        if !is_offer(domain, offer) {
            return false;
        }
    }
    true
}

/// Returns whether a background frame may be given to a run of the domain.
fn is_background(domain: &Domain, frame: &Background) -> bool
    ensures { result ≡ true → IsBackground domain.now frame.now }
{
    let here = frame.link < domain.links();
    let class = frame.class <= 5;
    let fits = frame.octets >= 64 && frame.octets <= 1522;
    let early = frame.at.0 < 1_000_000_000_000;
    here && class && fits && early
}

/// Returns whether background frames may be given to a run of the domain: each is on one of its links, has class 0 to 5 and 64 to 1,522
/// octets, and comes before 1,000,000,000,000 ns.
pub fn are_background(domain: &Domain, frames: &[Background]) -> bool
    ensures { result ≡ true → AreBackground domain.now frames.now }
{
    for frame in frames {
        if !is_background(domain, frame) {
            return false;
        }
    }
    true
}
