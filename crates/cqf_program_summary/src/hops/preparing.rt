//! What is prepared to write the frames of a scenario.
ghost use Rattle.std.specs.Prelude.{◌≡◌, ◌≢◌, ◌≤◌, ◌<◌, AllPairs, IfOk, IsPermutation, List, vec_capacity};
ghost use Rattle.cqf_instants.specs.Progress.{AreStartsOf};
ghost use Rattle.cqf_model.specs.declared.frames.Dropped.{Dropped as ADropped};
ghost use Rattle.cqf_model.specs.declared.frames.Started.{Started as AStart};
ghost use Rattle.cqf_model.specs.Book.{Contents};
ghost use Rattle.cqf_model.specs.Limits.{most_cycles};
ghost use Rattle.cqf_program_scenario.specs.Books.{IsBookOfScenario};
ghost use Rattle.cqf_program_scenario.specs.Closing.{MayBeRun, scenario_given};
ghost use Rattle.cqf_program_scenario.specs.Logged.{HasOrders};
ghost use Rattle.cqf_program_scenario.specs.Outcomes.{IsOutcomeOf};
ghost use Rattle.cqf_program_summary.specs.Hops.Gathered.{wanted_by};
ghost use Rattle.cqf_program_summary.specs.Hops.Prepared.{AreDropsByFrame, IsPreparedFor, SomeBook};
ghost use Rattle.cqf_program_summary.specs.Hops.Rounds.{AreRounds, HaveRoom, StandsAt, no_round, source_of};

use crate::hops::legs::Leg;
use crate::hops::rounds::{Round, lay_rounds};
use crate::hops::steps::{HopsRun, LegsUnderWay};
use crate::hops::wanting::{FrameFilter, WantedFrames};
use cqf_instants::Pass;
use cqf_instants_run::drops_of;
use cqf_laws_coverage::offers_are_judged;
use cqf_laws_history::tables_are_orderly;
use cqf_model::Dropped;
use cqf_program_runs::greatest_hop_number;
use cqf_program_scenario::{RunInput, ScenarioOutcome, pass_of_outcome};
use cqf_topology::Domain;
use cqf_units::Memory;
use std::alloc::Global;

/// What is needed to write frames, other than a domain and the offers: which frames are wanted, the drops by frame, the
/// rounds, a pass before its first cycle, and room for the legs that are kept and written in a round.
#[derive(Drop)]
pub struct Prepared {
    pub(crate) wanted: WantedFrames,
    pub(crate) drops: Vec<Dropped>,
    pub(crate) rounds: Vec<Round>,
    pub(crate) pass: Pass,
    pub(crate) kept: Vec<Leg>,
    pub(crate) here: Vec<Leg>,
}

/// Sorts drops by frame. No two are of the same frame.
fn sort_by_frame(drops: &mut Vec<Dropped>)
    requires { AllPairs (λ (a b : ADropped). a.frame ≢ b.frame) drops.old.items }
    ensures same { IsPermutation drops.old.items drops.new.items }
    ensures rise { AllPairs (λ (a b : ADropped). a.frame < b.frame) drops.new.items }
{
    drops.sort_unstable_by_key(|dropped| dropped.frame);
}

/// Returns the drops, by frame, of a scenario over `cycles` cycles with this outcome.
fn drops_by_frame(
    alloc: Global,
    cycles: u32,
    given: &RunInput,
    outcome: &ScenarioOutcome,
) -> Result<Vec<Dropped>, Memory>
    requires may { MayBeRun cycles (scenario_given given.now) }
    requires outcome { IsOutcomeOf cycles given.now outcome.now }
    requires book { SomeBook cycles (scenario_given given.now) }
    ensures { IfOk result (λ drops. (book : Contents) → IsBookOfScenario cycles (scenario_given given.now) book → AreDropsByFrame book drops.items) }
{
    let offers = given.offers.as_slice();
    let edge_verdicts = outcome.edge_verdicts.as_slice();
    let mut drops = drops_of(alloc, &given.domain, cycles, offers, edge_verdicts)?;
    sort_by_frame(&mut drops);
    Ok(drops)
}

/// Goes through the rounds, so that there is room for the legs that are kept and written in each.
fn make_room(
    run: &HopsRun<'_>,
    domain: &Domain,
    hop_number: u8,
    rounds: &[Round],
    under_way: LegsUnderWay,
) -> Result<LegsUnderWay, Memory>
    requires first { under_way.at ≡ no_round }
    requires fresh { under_way.pass.reported ≡ 0 }
    requires rounds { AreRounds domain.now hop_number run.now.offers.now run.now.drops.now rounds.now }
    ensures { IfOk result (λ made. (starts : List AStart) → StandsAt starts (source_of run.now) under_way →
        HaveRoom starts (source_of run.now) rounds.now (vec_capacity made.kept) (vec_capacity made.here)) }
{
    let mut under_way = under_way;
    for round in rounds {
        under_way.go_through(run, round)?;
    }
    Ok(under_way)
}

/// Returns room for the legs that are kept and written in each round.
fn rooms_of(
    alloc: Global,
    run: &HopsRun<'_>,
    domain: &Domain,
    hop_number: u8,
    rounds: &[Round],
    pass: Pass,
) -> Result<(Vec<Leg>, Vec<Leg>), Memory>
    requires fresh { pass.reported ≡ 0 }
    requires rounds { AreRounds domain.now hop_number run.now.offers.now run.now.drops.now rounds.now }
    ensures { IfOk result (λ made. (starts : List AStart) → AreStartsOf pass.basis starts →
        HaveRoom starts (source_of run.now) rounds.now (vec_capacity made.0) (vec_capacity made.1)) }
{
    let under_way = LegsUnderWay::at_first(pass, Vec::new(alloc), Vec::new(alloc));
    let LegsUnderWay { kept, here, .. } = make_room(run, domain, hop_number, rounds, under_way)?;
    Ok((kept, here))
}

/// Prepares the wanted frames of a scenario over `cycles` cycles with this outcome.
pub(crate) fn prepare(
    alloc: Global,
    cycles: u32,
    choice: FrameFilter<'_>,
    given: &RunInput,
    outcome: &ScenarioOutcome,
) -> Result<Prepared, Memory>
    requires short { cycles ≤ most_cycles }
    requires may { MayBeRun cycles (scenario_given given.now) }
    requires outcome { IsOutcomeOf cycles given.now outcome.now }
    ensures { IfOk result (IsPreparedFor cycles (scenario_given given.now) (wanted_by choice.entry)) }
{
    offers_are_judged();
    tables_are_orderly();
    given.domain.know();
    let domain = &given.domain;
    let offers = given.offers.as_slice();
    let rows = outcome.rows.as_slice();
    let hop_number = greatest_hop_number(rows);
    let first = pass_of_outcome(alloc, cycles, given, outcome)?;
    let drops = drops_by_frame(alloc, cycles, given, outcome)?;
    let by_frame = drops.as_slice();
    let rounds = lay_rounds(alloc, domain, cycles, hop_number, offers, by_frame)?;
    let laid = rounds.as_slice();
    let run = HopsRun {
        offers,
        choice,
        drops: by_frame,
    };
    let (kept, here) = rooms_of(alloc, &run, domain, hop_number, laid, first)?;
    let wanted = WantedFrames::copy(alloc, choice)?;
    let pass = pass_of_outcome(alloc, cycles, given, outcome)?;
    Ok(Prepared {
        wanted,
        drops,
        rounds,
        pass,
        kept,
        here,
    })
}
