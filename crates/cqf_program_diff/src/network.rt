//! The elements of a network other than its streams.
ghost use Rattle.std.specs.Prelude.{◌≡◌, ◌∷◌, [], IfOk, map, string_bytes};
ghost use Rattle.cqf_program_diff.specs.Network.{access_element, access_name, link_element, network_element, node_element};

use crate::element::Element;
use crate::texts::{bridge_name, delay_text, ends_text, number_text, optional_text, station_name};
use cqf_model::Link;
use cqf_network::TalkerLink;
use cqf_program_plans::megabits_of;
use cqf_topology::Domain;
use cqf_units::{Memory, Name};
use std::alloc::Global;

/// Returns the network itself, which has no name.
fn network_element(alloc: Global, domain: &Domain) -> Result<Element, Memory>
    ensures { IfOk result (λ element. element ≡ network_element domain.now) }
{
    let cycle = number_text(alloc, domain.cycle_time().0)?;
    let guard = number_text(alloc, domain.guard().0)?;
    let sync = number_text(alloc, domain.sync().0)?;
    let overhead = number_text(alloc, u64::from(domain.overhead()))?;
    let values = vec![in alloc; cycle, guard, sync, overhead]?;
    Ok(Element::new(String::new(alloc), values))
}

/// Returns the network itself as the only element of its kind.
pub(crate) fn network_elements(alloc: Global, domain: &Domain) -> Result<Vec<Element>, Memory>
    ensures { IfOk result (λ elements. elements.items ≡ network_element domain.now ∷ []) }
{
    let element = network_element(alloc, domain)?;
    let elements = vec![in alloc; element]?;
    Ok(elements)
}

/// Returns a bridge or a station.
fn node_element(alloc: Global, name: &Name) -> Result<Element, Memory>
    ensures { IfOk result (λ element. element ≡ node_element name.now) }
{
    let text = String::from_str(alloc, name.as_str())?;
    Ok(Element::new(text, Vec::new(alloc)))
}

/// Returns bridges or stations.
pub(crate) fn node_elements(alloc: Global, names: &[Name]) -> Result<Vec<Element>, Memory>
    ensures { IfOk result (λ elements. elements.items ≡ map node_element names.now) }
{
    let mut elements = Vec::with_capacity(alloc, names.len())?;
    for name in names {
        elements.push(node_element(alloc, name)?)?;
    }
    Ok(elements)
}

/// Returns a link that begins at a bridge.
fn link_element(alloc: Global, domain: &Domain, link: Link) -> Result<Element, Memory>
    ensures { IfOk result (λ element. element ≡ link_element domain.now link) }
{
    let name = ends_text(alloc, domain, link)?;
    let rate = number_text(alloc, u64::from(megabits_of(link.rate)))?;
    let delay = delay_text(alloc, link.least, link.delay)?;
    let guard = optional_text(alloc, link.guard)?;
    let values = vec![in alloc; rate, delay, guard, String::new(alloc)]?;
    Ok(Element::new(name, values))
}

/// Returns the links that begin at bridges.
pub(crate) fn link_elements(
    alloc: Global,
    domain: &Domain,
    links: &[Link],
) -> Result<Vec<Element>, Memory>
    ensures { IfOk result (λ elements. elements.items ≡ map (link_element domain.now) links.now) }
{
    let mut elements = Vec::with_capacity(alloc, links.len())?;
    for link in links {
        elements.push(link_element(alloc, domain, *link)?)?;
    }
    Ok(elements)
}

/// Returns an access link by the names of its ends.
fn access_name(alloc: Global, domain: &Domain, link: &TalkerLink) -> Result<String, Memory>
    ensures { IfOk result (λ text. string_bytes text ≡ access_name domain.now link.now) }
{
    let (from, to) = (
        station_name(domain, link.station),
        bridge_name(domain, link.bridge),
    );
    let text = format!(in alloc; "{from}>{to}")?;
    Ok(text)
}

/// Returns an access link.
fn access_element(alloc: Global, domain: &Domain, link: &TalkerLink) -> Result<Element, Memory>
    ensures { IfOk result (λ element. element ≡ access_element domain.now link.now) }
{
    let name = access_name(alloc, domain, link)?;
    let rate = number_text(alloc, u64::from(megabits_of(link.rate)))?;
    let delay = delay_text(alloc, link.least, link.delay)?;
    let other = optional_text(alloc, link.other)?;
    let values = vec![in alloc; rate, delay, String::new(alloc), other]?;
    Ok(Element::new(name, values))
}

/// Returns the access links.
pub(crate) fn access_elements(
    alloc: Global,
    domain: &Domain,
    links: &[TalkerLink],
) -> Result<Vec<Element>, Memory>
    ensures { IfOk result (λ elements. elements.items ≡ map (access_element domain.now) links.now) }
{
    let mut elements = Vec::with_capacity(alloc, links.len())?;
    for link in links {
        elements.push(access_element(alloc, domain, link)?)?;
    }
    Ok(elements)
}
