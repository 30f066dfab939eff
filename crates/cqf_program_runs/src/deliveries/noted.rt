//! The notes from which the deliveries of a scenario are derived.
ghost use Rattle.std.specs.Prelude.{ℕ, ◌≡◌, ◌≤◌, ◌<◌, IfOk, Option, count_by, map, nat_le};
ghost use Rattle.cqf_units.specs.Timing.{cycle_at};
ghost use Rattle.cqf_units.specs.declared.timing.Nanos.{Nanos as AnInstant};
ghost use Rattle.cqf_model.specs.declared.frames.Offer.{Offer as AnOffer};
ghost use Rattle.cqf_model.specs.Run.{AreOffers};
ghost use Rattle.cqf_model.specs.Shift.{offer_cycle};
ghost use Rattle.cqf_model.specs.Policing.{numbered};
ghost use Rattle.cqf_program_scenario.specs.Closing.{MayBeRun, scenario_given};
ghost use Rattle.cqf_program_scenario.specs.Logged.{HasOrders};
ghost use Rattle.cqf_program_scenario.specs.Outcomes.{IsOutcomeOf};
ghost use Rattle.cqf_program_runs.specs.Check.Checked.{latest_cycle, offer_counts};
ghost use Rattle.cqf_program_runs.specs.Deliveries.Deadlines.{deadline_in};
ghost use Rattle.cqf_program_runs.specs.Deliveries.Ending.{over_by, over_of};
ghost use Rattle.cqf_program_runs.specs.Deliveries.Following.{IsNotedOf};
ghost use Rattle.cqf_model.specs.Limits.{end_of_offers, most_cycles};

use crate::Deadlines;
use crate::check::checked::OfferCounts;
use crate::deliveries::made::CompletedRun;
use crate::deliveries::reading::PlannedGiven;
use crate::deliveries::rooms::greatest_hop_number;
use crate::deliveries::under_way::UnderWay;
use cqf_instants_run::EdgeVerdict;
use cqf_laws_coverage::offers_are_judged;
use cqf_laws_history::tables_are_orderly;
use cqf_model::{Offer, Row};
use cqf_program_scenario::{ScenarioOutcome, outcome_of, pass_of_outcome};
use cqf_topology::Domain;
use cqf_units::{Memory, cycle_of};
use std::alloc::Global;

/// The notes about a scenario that was run: what becomes of each offer, and its deadline.
#[derive(Drop)]
pub struct Noted {
    /// The streams that were ever granted, by number.
    pub(crate) rows: Vec<Row>,
    /// What becomes of each offer, by its index.
    pub(crate) edge_verdicts: Vec<EdgeVerdict>,
    /// The deadline of each offer's frame, if it has one, by its index.
    pub(crate) dues: Vec<Option<u32>>,
}

impl Noted {
    /// Returns the data from which deliveries are derived: these notes, and what was read of the scenario.
    pub fn over<'r>(&'r self, planned: &'r PlannedGiven, cycles: u32) -> CompletedRun<'r>
        ensures { (whole : ℕ → ℕ → Option AnInstant) → over_of result whole ≡ over_by planned.now cycles self.now whole }
    {
        CompletedRun {
            domain: &planned.given.domain,
            cycles,
            offers: planned.given.offers.as_slice(),
            rows: self.rows.as_slice(),
            edge_verdicts: self.edge_verdicts.as_slice(),
            requests: planned.given.requests.as_slice(),
            deadlines: planned.deadlines.as_slice(),
            dues: self.dues.as_slice(),
        }
    }
}

/// Returns the deadline of each offer's frame, by its index.
fn dues_of(
    alloc: Global,
    deadlines: &Deadlines<'_>,
    offers: &[Offer],
) -> Result<Vec<Option<u32>>, Memory>
    ensures { IfOk result (λ dues. dues.items ≡ map (λ (offer : AnOffer). deadline_in deadlines.now offer.stream) offers.now) }
{
    let mut dues = Vec::with_capacity(alloc, offers.len())?;
    for offer in offers {
        dues.push(deadlines.of(&offer.stream))?;
    }
    Ok(dues)
}

/// Returns the same for the offers of a scenario.
fn dues_of_scenario(alloc: Global, planned: &PlannedGiven) -> Result<Vec<Option<u32>>, Memory>
    ensures { IfOk result (λ dues. dues.items ≡ map (λ (offer : AnOffer).
        deadline_in (record { requests = planned.now.given.requests.items; deadlines = planned.now.deadlines.items }) offer.stream)
        planned.now.given.offers.items) }
{
    let requests = planned.given.requests.as_slice();
    let deadlines = Deadlines::new(alloc, requests, planned.deadlines.as_slice())?;
    dues_of(alloc, &deadlines, planned.given.offers.as_slice())
}

/// Returns the notes about a scenario over `cycles` cycles with this outcome, and its frames under way, before any
/// start is returned.
pub(crate) fn noted_of(
    alloc: Global,
    cycles: u32,
    planned: &PlannedGiven,
    outcome: ScenarioOutcome,
) -> Result<(Noted, UnderWay), Memory>
    requires short { cycles ≤ most_cycles }
    requires may { MayBeRun cycles (scenario_given planned.now.given) }
    requires outcome { IsOutcomeOf cycles planned.now.given outcome }
    ensures { IfOk result (λ made. IsNotedOf cycles planned.now made.0 made.1) }
{
    offers_are_judged();
    tables_are_orderly();
    let domain = &planned.given.domain;
    domain.know();
    let offers = planned.given.offers.as_slice();
    let dues = dues_of_scenario(alloc, planned)?;
    let pass = pass_of_outcome(alloc, cycles, &planned.given, &outcome)?;
    let ScenarioOutcome {
        rows,
        edge_verdicts,
        ..
    } = outcome;
    let under_way = UnderWay::new(alloc, domain, rows.as_slice(), offers, pass)?;
    let noted = Noted {
        rows,
        edge_verdicts,
        dues,
    };
    Ok((noted, under_way))
}

/// Returns the notes about a scenario over `cycles` cycles, 0 to 100,000, and its frames under way, before any start is
/// returned.
///
/// # Errors
/// `Memory` if an allocation fails.
pub fn noted_of_scenario(
    alloc: Global,
    cycles: u32,
    planned: &PlannedGiven,
) -> Result<(Noted, UnderWay), Memory>
    requires short { cycles ≤ most_cycles }
    requires may { MayBeRun cycles (scenario_given planned.now.given) }
    requires stand { HasOrders planned.now.given }
    ensures { IfOk result (λ made. IsNotedOf cycles planned.now made.0 made.1) }
{
    let outcome = outcome_of(alloc, cycles, &planned.given)?;
    noted_of(alloc, cycles, planned, outcome)
}

/// Returns whether an offer is of a cycle that isn't run.
fn is_later(domain: &Domain, cycles: u32, offer: &Offer) -> bool
    requires { offer.now.at.0 < end_of_offers }
    ensures { result ≡ nat_le cycles (cycle_at domain.now.cycle_time offer.now.at.0) }
{
    cycle_of(offer.at, domain.cycle_time()).0 >= cycles
}

/// Returns how many offers are of cycles that aren't run.
fn later_offers(domain: &Domain, cycles: u32, offers: &[Offer]) -> usize
    requires { AreOffers domain.now offers.now }
    ensures { result ≡ count_by (λ x. nat_le cycles (offer_cycle domain.now x)) (numbered offers.now) }
{
    let mut later = 0;
    for (index, offer) in offers.iter().enumerate() {
        if is_later(domain, cycles, offer) {
            later += 1;
        }
    }
    later
}

/// Returns the cycle of the latest offer; 0 if there is none.
fn latest_cycle(domain: &Domain, offers: &[Offer]) -> u32
    requires { AreOffers domain.now offers.now }
    ensures { result ≡ latest_cycle domain.now offers.now }
{
    let mut most = 0;
    for offer in offers {
        most = most.max(cycle_of(offer.at, domain.cycle_time()).0);
    }
    most
}

/// Returns the counts of the offers of a run over `cycles` cycles, whose history granted these rows.
pub(crate) fn offer_counts(
    domain: &Domain,
    cycles: u32,
    rows: &[Row],
    offers: &[Offer],
) -> OfferCounts
    requires { AreOffers domain.now offers.now }
    ensures { result ≡ offer_counts domain.now cycles rows.now offers.now }
{
    OfferCounts {
        frames: offers.len(),
        later: later_offers(domain, cycles, offers),
        enough: u64::from(latest_cycle(domain, offers)) + u64::from(greatest_hop_number(rows)) + 1,
    }
}
