//! Values as texts.
ghost use Rattle.std.specs.Prelude.{ℕ, ◌≡◌, [], IfOk, Option, decimal, map, string_bytes};
ghost use Rattle.cqf_model.specs.declared.topology.Node.TheVariants.{Station};
ghost use Rattle.cqf_program_plans.specs.Load.Text.{left_text};
ghost use Rattle.cqf_program_diff.specs.Figures.{slack_text};
ghost use Rattle.cqf_program_diff.specs.Texts.{delay_text, optional_text, path_text, paths_text};
ghost use Rattle.cqf_topology.specs.NodeNames.{ends_of_link, name_of_bridge, name_of_link, name_of_node};

use cqf_model::{Link, Node};
use cqf_topology::Domain;
use cqf_units::Memory;
use std::alloc::Global;

/// Returns a number as text.
pub(crate) fn number_text(alloc: Global, number: u64) -> Result<String, Memory>
    ensures { IfOk result (λ text. string_bytes text ≡ decimal number) }
{
    let text = format!(in alloc; "{number}")?;
    Ok(text)
}

/// Returns a number as text; an empty text if there is none.
pub(crate) fn optional_text(alloc: Global, number: Option<u32>) -> Result<String, Memory>
    ensures { IfOk result (λ text. string_bytes text ≡ optional_text number) }
{
    match number {
        Some(number) => number_text(alloc, u64::from(number)),
        None => Ok(String::new(alloc)),
    }
}

/// Returns a link's delays: one number if they are the same, else the least and the greatest.
pub(crate) fn delay_text(alloc: Global, least: u32, greatest: u32) -> Result<String, Memory>
    ensures { IfOk result (λ text. string_bytes text ≡ delay_text least greatest) }
{
    if least == greatest {
        return number_text(alloc, u64::from(greatest));
    }
    let text = format!(in alloc; "{least} {greatest}")?;
    Ok(text)
}

/// Returns the names of a path, with blanks between.
fn path_text(alloc: Global, path: &[String]) -> Result<String, Memory>
    ensures { IfOk result (λ text. string_bytes text ≡ path_text (map string_bytes path.now)) }
{
    let [first, rest @ ..] = path else {
        return Ok(String::new(alloc));
    };
    let mut text = String::from_str(alloc, first.as_str())?;
    for name in rest {
        text.push_str(" ")?;
        text.push_str(name.as_str())?;
    }
    Ok(text)
}

/// Returns several paths, with ` | ` between.
pub(crate) fn paths_text(alloc: Global, paths: &[Vec<String>]) -> Result<String, Memory>
    ensures { IfOk result (λ text. string_bytes text ≡ paths_text (map (λ path. map string_bytes path.items) paths.now)) }
{
    let [first, rest @ ..] = paths else {
        return Ok(String::new(alloc));
    };
    let mut text = path_text(alloc, first.as_slice())?;
    for path in rest {
        let next = path_text(alloc, path.as_slice())?;
        text.push_str(" | ")?;
        text.push_str(next.as_str())?;
    }
    Ok(text)
}

/// Returns what is left of a budget or a deadline, below 0 if more is taken.
pub(crate) fn left_text(alloc: Global, budget: u64, held: u128) -> Result<String, Memory>
    ensures { IfOk result (λ text. string_bytes text ≡ left_text budget held) }
{
    let budget = u128::from(budget);
    if held <= budget {
        let left = budget - held;
        let text = format!(in alloc; "{left}")?;
        return Ok(text);
    }
    let beyond = held - budget;
    let text = format!(in alloc; "-{beyond}")?;
    Ok(text)
}

/// Returns what is left of a deadline; an empty text if there is none.
pub(crate) fn slack_text(alloc: Global, deadline: Option<u32>, most: u64) -> Result<String, Memory>
    ensures { IfOk result (λ text. string_bytes text ≡ slack_text deadline most) }
{
    match deadline {
        Some(deadline) => left_text(alloc, u64::from(deadline), u128::from(most)),
        None => Ok(String::new(alloc)),
    }
}

/// Returns the name of a bridge; an empty one if the domain lacks the bridge.
pub(crate) fn bridge_name(domain: &Domain, bridge: u16) -> &str
    ensures { result.now ≡ name_of_bridge domain.now bridge }
{
    if bridge < domain.bridges() {
        domain.bridge_name(bridge).as_str()
    } else {
        ""
    }
}

/// Returns the name of a station; an empty one if the domain lacks the station.
pub(crate) fn station_name(domain: &Domain, station: u16) -> &str
    ensures { result.now ≡ name_of_node domain.now (Station station) }
{
    if station < domain.stations() {
        domain.station_name(station).as_str()
    } else {
        ""
    }
}

/// Returns a link by the names of its ends, as `FROM>TO`.
pub(crate) fn ends_text(alloc: Global, domain: &Domain, link: Link) -> Result<String, Memory>
    ensures { IfOk result (λ text. string_bytes text ≡ ends_of_link domain.now link) }
{
    let from = bridge_name(domain, link.from);
    let to = match link.to {
        Node::Bridge(bridge) => bridge_name(domain, bridge),
        Node::Station(station) => station_name(domain, station),
    };
    let text = format!(in alloc; "{from}>{to}")?;
    Ok(text)
}

/// Returns the link with a number by the names of its ends; an empty text if the domain lacks the link.
pub(crate) fn link_text(alloc: Global, domain: &Domain, link: u16) -> Result<String, Memory>
    ensures { IfOk result (λ text. string_bytes text ≡ name_of_link domain.now link) }
{
    if link < domain.links() {
        ends_text(alloc, domain, domain.link(link))
    } else {
        Ok(String::new(alloc))
    }
}
