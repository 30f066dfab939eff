//! The book of a scenario by exact instants. Only links with background frames have their ports and gates simulated.
ghost use Rattle.std.specs.Prelude.{◌≡◌, ◌≤◌, IfOk, List, length};
ghost use Rattle.cqf_model.specs.History.{Recorded};
ghost use Rattle.cqf_model.specs.Run.{AreBackground, AreOffers};
ghost use Rattle.cqf_instants_run.specs.Parts.{AreBackgroundOfHistory};
ghost use Rattle.cqf_program_scenario.specs.ExactBooks.{WritesBook, WritesStarts};
ghost use Rattle.cqf_laws_coverage.specs.Judged.{StandInOrder};
ghost use Rattle.cqf_instants_run.specs.HistoryStarts.{IsLaidOutHistoryOf, SomeHistory};
ghost use Rattle.cqf_program_scenario.specs.Books.{IsBookOfScenario};
ghost use Rattle.cqf_program_scenario.specs.Closing.{MayBeRun, scenario_given};
ghost use Rattle.cqf_program_scenario.specs.Outcomes.{IsOutcomeOf};
ghost use Rattle.cqf_model.specs.Limits.{most_offers};

use crate::ExactBook;
use crate::given::RunInput;
use crate::outcomes::ScenarioOutcome;
use cqf_instants::Pass;
use cqf_instants_run::{
    EdgeVerdict, background_of_history, drops_of, pass_of_history, starts_of_history,
};
use cqf_model::{Row, Started};
use cqf_units::Memory;
use std::alloc::Global;

/// Returns the starts of background frames in the run of a history with these rows, whose streams give these verdicts on the offers. If
/// there are no background frames, it makes no list of the streams' starts.
fn backed_of(
    alloc: Global,
    cycles: u32,
    given: &RunInput,
    rows: &[Row],
    edge_verdicts: &[EdgeVerdict],
) -> Result<Vec<Started>, Memory>
    requires offers { AreOffers given.now.domain given.now.offers.items }
    requires order { StandInOrder given.now.offers.items }
    requires few { length given.now.offers.items ≤ most_offers }
    requires background { AreBackground given.now.domain given.now.background.items }
    requires few_background { length given.now.background.items ≤ most_offers }
    requires history { SomeHistory given.now.domain cycles rows.now given.now.offers.items edge_verdicts.now }
    ensures { IfOk result (λ backed. (entries : List Recorded) → IsLaidOutHistoryOf given.now.domain cycles rows.now given.now.offers.items
        edge_verdicts.now entries →
        AreBackgroundOfHistory given.now.domain entries given.now.offers.items given.now.background.items cycles backed.items) }
{
    let background = given.background.as_slice();
    if background.is_empty() {
        return Ok(Vec::new(alloc));
    }
    let domain = &given.domain;
    let offers = given.offers.as_slice();
    let starts = starts_of_history(alloc, domain, cycles, rows, offers, edge_verdicts)?;
    let starting = starts.as_slice();
    background_of_history(alloc, domain, cycles, starting, background)
}

/// Returns a pass over `cycles` cycles of the run of a scenario with this outcome. The pass yields the starts of the streams' frames in the
/// scenario's book. It already has all the memory that it needs. The time grows with the hops of the rows and with the offers.
///
/// # Errors
/// If an allocation fails.
pub fn pass_of_outcome(
    alloc: Global,
    cycles: u32,
    given: &RunInput,
    outcome: &ScenarioOutcome,
) -> Result<Pass, Memory>
    requires may { MayBeRun cycles (scenario_given given.now) }
    requires outcome { IsOutcomeOf cycles given.now outcome.now }
    ensures fresh { IfOk result (λ pass. pass.reported ≡ 0) }
    ensures reports { IfOk result (λ pass. WritesStarts pass (IsBookOfScenario cycles (scenario_given given.now))) }
{
    cqf_laws_history::tables_are_orderly();
    cqf_laws_coverage::book_of_history_is_there();
    let domain = &given.domain;
    let rows = outcome.rows.as_slice();
    let offers = given.offers.as_slice();
    let edge_verdicts = outcome.edge_verdicts.as_slice();
    domain.know();
    pass_of_history(alloc, domain, cycles, rows, offers, edge_verdicts)
}

/// Returns the book of a scenario over `cycles` cycles, ready to be written, if this is the scenario's outcome. It is the single-threaded
/// book of the scenario's history.
///
/// # Errors
/// If an allocation fails.
pub fn book_of_outcome(
    alloc: Global,
    cycles: u32,
    given: &RunInput,
    outcome: &ScenarioOutcome,
) -> Result<ExactBook, Memory>
    requires may { MayBeRun cycles (scenario_given given.now) }
    requires outcome { IsOutcomeOf cycles given.now outcome.now }
    ensures { IfOk result (λ parts. WritesBook parts (IsBookOfScenario cycles (scenario_given given.now))) }
{
    cqf_laws_history::tables_are_orderly();
    let domain = &given.domain;
    let rows = outcome.rows.as_slice();
    let offers = given.offers.as_slice();
    let edge_verdicts = outcome.edge_verdicts.as_slice();
    domain.know();
    let backed = backed_of(alloc, cycles, given, rows, edge_verdicts)?;
    let drops = drops_of(alloc, domain, cycles, offers, edge_verdicts)?;
    let pass = pass_of_outcome(alloc, cycles, given, outcome)?;
    Ok(ExactBook::new(pass, backed, drops))
}
