//! The figures of a network: how long frames may take, and what its links hold.
ghost use Rattle.std.specs.Prelude.{ℕ, ◌≡◌, ◌<◌, ◌∷◌, [], IfOk, length, map, slice_index_or};
ghost use Rattle.cqf_admission.specs.ActiveCycles.{AreOfGoodPaces};
ghost use Rattle.cqf_laws_history.specs.StateLaws.{AreHeld};
ghost use Rattle.cqf_lists.specs.Lists.{each_below};
ghost use Rattle.cqf_program_diff.specs.Figures.{access_load_element, figures_of, latency_element, load_element};
ghost use Rattle.cqf_program_diff.specs.FigureValues.{figures_text};

use crate::element::Element;
use crate::texts::{left_text, link_text, slack_text};
use cqf_admission::budget_on;
use cqf_edge::AccessTimes;
use cqf_model::Row;
use cqf_program_plans::{AccessLoad, Latency, latencies_from_talkers, link_costs};
use cqf_topology::Domain;
use cqf_units::Memory;
use std::alloc::Global;

/// The figures of a table's rows: latencies to listeners, and what links hold.
#[derive(Debug, Drop)]
pub(crate) struct RowFigures {
    pub(crate) latencies: Vec<Element>,
    pub(crate) loads: Vec<Element>,
}

/// Returns a latency: the most that a frame takes, and what is left of the deadline, if there is one. Both are in nanoseconds.
fn latency_element(alloc: Global, latency: &Latency) -> Result<Element, Memory>
    ensures { IfOk result (λ element. element ≡ latency_element latency.now) }
{
    let (stream, listener, most) = (&latency.stream, &latency.listener, latency.most);
    let name = format!(in alloc; "{stream},{listener}")?;
    let longest = format!(in alloc; "{most}")?;
    let slack = slack_text(alloc, latency.deadline, most)?;
    let values = vec![in alloc; longest, slack]?;
    Ok(Element::new(name, values))
}

/// Returns latencies, in their order.
fn latency_elements(alloc: Global, latencies: &[Latency]) -> Result<Vec<Element>, Memory>
    ensures { IfOk result (λ elements. elements.items ≡ map latency_element latencies.now) }
{
    let mut elements = Vec::with_capacity(alloc, latencies.len())?;
    for latency in latencies {
        elements.push(latency_element(alloc, latency)?)?;
    }
    Ok(elements)
}

/// Returns what a link holds in a cycle at most, and what is left of its budget. Both are in octets.
fn load_element(alloc: Global, domain: &Domain, link: u16, held: u32) -> Result<Element, Memory>
    requires { link < length domain.now.links }
    ensures { IfOk result (λ element. element ≡ load_element domain.now link held) }
{
    let name = link_text(alloc, domain, link)?;
    let budget = u64::from(budget_on(domain, link).0);
    let left = left_text(alloc, budget, u128::from(held))?;
    let held = format!(in alloc; "{held}")?;
    let values = vec![in alloc; held, left]?;
    Ok(Element::new(name, values))
}

/// Returns the cost at an index; 0 if there is none.
fn cost_at(costs: &[u32], index: u16) -> u32
    ensures { result ≡ slice_index_or costs.now index 0 }
{
    match costs.get(usize::from(index)) {
        Some(cost) => *cost,
        None => 0,
    }
}

/// Returns what the links hold, by number, if they hold these costs.
#[tactic(auto, using(crate::proofs::Steps::each_more))]
fn load_elements(alloc: Global, domain: &Domain, costs: &[u32]) -> Result<Vec<Element>, Memory>
    ensures { IfOk result (λ elements. elements.items
        ≡ each_below (λ l. load_element domain.now l (slice_index_or costs.now l 0) ∷ []) (length domain.now.links)) }
{
    let mut elements = Vec::new(alloc);
    for link in 0..domain.links() {
        let held = cost_at(costs, link);
        let element = load_element(alloc, domain, link, held)?;
        elements.push(element)?;
    }
    Ok(elements)
}

/// Returns the figures of a table's rows, with the deadlines and the times to the edge bridges by stream number.
///
/// # Errors
/// `Memory` if an allocation fails.
pub(crate) fn figures_of(
    alloc: Global,
    domain: &Domain,
    rows: &[Row],
    deadlines: &[Option<u32>],
    times: &[Option<AccessTimes>],
) -> Result<RowFigures, Memory>
    requires held { (next : ℕ) × AreHeld domain.now rows.now next 0 }
    requires good { AreOfGoodPaces rows.now }
    ensures { IfOk result (λ figures. figures_text figures ≡ figures_of domain.now rows.now deadlines.now times.now) }
{
    let found = latencies_from_talkers(alloc, domain, rows, deadlines, times)?;
    let all = found.as_slice();
    let latencies = latency_elements(alloc, all)?;
    let costs = link_costs(alloc, domain, rows)?;
    let by_link = costs.as_slice();
    let loads = load_elements(alloc, domain, by_link)?;
    Ok(RowFigures { latencies, loads })
}

/// Returns what streams take of an access link, and what is left of it. Both are in octets of a cycle.
fn access_load_element(alloc: Global, load: &AccessLoad) -> Result<Element, Memory>
    ensures { IfOk result (λ element. element ≡ access_load_element load.now) }
{
    let (from, to, held) = (&load.from, &load.to, load.held);
    let name = format!(in alloc; "{from}>{to}")?;
    let left = left_text(alloc, load.budget, held)?;
    let held = format!(in alloc; "{held}")?;
    let values = vec![in alloc; held, left]?;
    Ok(Element::new(name, values))
}

/// Returns what is taken of access links, in their order.
///
/// # Errors
/// `Memory` if an allocation fails.
pub(crate) fn access_load_elements(
    alloc: Global,
    loads: &[AccessLoad],
) -> Result<Vec<Element>, Memory>
    ensures { IfOk result (λ elements. elements.items ≡ map access_load_element loads.now) }
{
    let mut elements = Vec::with_capacity(alloc, loads.len())?;
    for load in loads {
        elements.push(access_load_element(alloc, load)?)?;
    }
    Ok(elements)
}
