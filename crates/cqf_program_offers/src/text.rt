//! Offers as a text.
ghost use Rattle.std.specs.Prelude.{◌≡◌, IfOk, string_bytes};
ghost use Rattle.cqf_topology.specs.NodeNames.{name_of_bridge};
ghost use Rattle.cqf_program_offers.specs.OffersText.{offer_line, offers_text};

use cqf_model::Offer;
use cqf_topology::Domain;
use cqf_units::Memory;
use std::alloc::Global;

/// Returns the name of a bridge; an empty one if the domain lacks the bridge.
fn name_of_bridge(domain: &Domain, bridge: u16) -> &str
    ensures { result.now ≡ name_of_bridge domain.now bridge }
{
    if bridge < domain.bridges() {
        domain.bridge_name(bridge).as_str()
    } else {
        ""
    }
}

/// Returns the line of an offer.
fn offer_line(alloc: Global, domain: &Domain, offer: &Offer) -> Result<String, Memory>
    ensures { IfOk result (λ line. string_bytes line ≡ offer_line domain.now offer.now) }
{
    let at = offer.at.0;
    let bridge = name_of_bridge(domain, offer.bridge);
    let stream = offer.stream.as_str();
    let octets = offer.octets;
    let line = format!(in alloc; "{at},{bridge},{stream},{octets}\n")?;
    Ok(line)
}

/// Returns offers as a text: a header, and a line for each offer with its instant, its bridge, its stream and its octets. Returns `Memory`
/// if an allocation fails.
pub fn offers_text(alloc: Global, domain: &Domain, offers: &[Offer]) -> Result<Vec<u8>, Memory>
    ensures { IfOk result (λ text. text.items ≡ offers_text domain.now offers.now) }
{
    let mut text = Vec::from_slice(alloc, b"at,bridge,stream,octets\n")?;
    for offer in offers {
        let line = offer_line(alloc, domain, offer)?;
        text.extend_from_slice(line.as_bytes())?;
    }
    Ok(text)
}
