//! A summary, gathered offer by offer.
ghost use Rattle.std.specs.Prelude.{ℕ, ◌≡◌, ◌≤◌, ◌<◌, IfOk, Option, nat_lt};
ghost use Rattle.cqf_units.specs.Timing.{cycle_at};
ghost use Rattle.cqf_units.specs.declared.timing.Nanos.{Nanos as AnInstant};
ghost use Rattle.cqf_model.specs.Limits.{end_of_offers, most_cycles};
ghost use Rattle.cqf_program_scenario.specs.Closing.{MayBeRun, scenario_given};
ghost use Rattle.cqf_program_scenario.specs.Logged.{HasOrders};
ghost use Rattle.cqf_program_runs.specs.Deliveries.Ending.{over_of};
ghost use Rattle.cqf_program_runs.specs.Deliveries.Following.{CanFollow, IsFollowed};
ghost use Rattle.cqf_program_summary.specs.Summary.Counting.{SummaryWithin};
ghost use Rattle.cqf_program_summary.specs.Summary.Gathering.{IsSummaryOf, IsSummaryOver};

use crate::summary::sums::StreamSums;
use cqf_model::Offer;
use cqf_program_runs::{
    CompletedRun, Few, PlannedGiven, UnderWay, noted_of_scenario, put_those_of,
};
use cqf_topology::Domain;
use cqf_units::{Memory, cycle_of};
use std::alloc::Global;

/// Returns whether an offer is of a cycle that is run.
fn is_run(domain: &Domain, cycles: u32, offer: &Offer) -> bool
    requires { offer.now.at.0 < end_of_offers }
    ensures { result ≡ nat_lt (cycle_at domain.now.cycle_time offer.now.at.0) cycles }
{
    cycle_of(offer.at, domain.cycle_time()).0 < cycles
}

/// Adds the offers of a run that is over, whose frames are followed from the first one on, to sums that have none yet.
/// `here` is room for the deliveries of one offer; what it had is discarded.
fn gathered(
    here: Few,
    under_way: UnderWay,
    ended: &CompletedRun<'_>,
    sums: StreamSums,
) -> StreamSums
    requires followed { CanFollow ended.now 0 under_way }
    requires fresh { SummaryWithin 0 sums }
    ensures { (whole : ℕ → ℕ → Option AnInstant) → IsFollowed (over_of ended.now whole) 0 under_way →
        IsSummaryOver (over_of ended.now whole) sums result }
{
    let (mut here, mut under_way, mut sums) = (here, under_way, sums);
    for index in 0..ended.offers.len() {
        let offer = &ended.offers[index];
        put_those_of(&mut here, ended, &mut under_way, index);
        if is_run(ended.domain, ended.cycles, offer) {
            sums.add(&offer.stream, here.as_slice());
        }
    }
    sums
}

/// Returns the sums of a scenario over `cycles` cycles, 0 to 100,000.
pub(crate) fn sums_of_scenario(
    alloc: Global,
    cycles: u32,
    planned: &PlannedGiven,
) -> Result<StreamSums, Memory>
    requires short { cycles ≤ most_cycles }
    requires may { MayBeRun cycles (scenario_given planned.now.given) }
    requires stand { HasOrders planned.now.given }
    ensures { IfOk result (IsSummaryOf cycles planned.now) }
{
    let given = &planned.given;
    let requests = given.requests.as_slice();
    let sums = StreamSums::new(alloc, &given.domain, requests, planned.deadlines.as_slice())?;
    let (noted, under_way) = noted_of_scenario(alloc, cycles, planned)?;
    let here = Few::new(alloc)?;
    Ok(gathered(here, under_way, &noted.over(planned, cycles), sums))
}
