//! The outcome of a scenario's calls and offers.
ghost use Rattle.std.specs.Prelude.{◌≤◌, IfOk};
ghost use Rattle.cqf_model.specs.Limits.{most_cycles};
ghost use Rattle.cqf_program_scenario.specs.Closing.{MayBeRun, scenario_given};
ghost use Rattle.cqf_program_scenario.specs.Logged.{HasOrders};
ghost use Rattle.cqf_program_scenario.specs.Outcomes.{IsOutcomeOf};

use crate::administering::log_of;
use crate::given::RunInput;
use cqf_admission::Logged;
use cqf_instants_run::{EdgeVerdict, cover};
use cqf_model::Row;
use cqf_units::Memory;
use std::alloc::Global;

/// The outcome of a scenario's calls and offers. The run of its network is computed from it without an administration.
#[derive(Debug, Drop)]
pub struct ScenarioOutcome {
    /// The entries of the history's log, over the scenario's own requests and script.
    pub entries: Vec<Logged>,
    /// The streams that the history ever granted, by number.
    pub rows: Vec<Row>,
    /// The verdict on each offer by these streams, by the offer's index.
    pub edge_verdicts: Vec<EdgeVerdict>,
}

/// Returns the outcome of the calls and offers of a scenario over `cycles` cycles, 0 to 100,000. The calls are applied in order, and then
/// the cycles that are still open are closed, by the seat of the Seals; no table is kept. Everything that its orders name is among its
/// requests and in its script. Its offers are at bridges of its domain, in order of instant, and its background frames on links of the
/// domain, at most 16,777,215 each. Its calls are at most `cycles` Seals, and at most 100,000 others.
///
/// # Errors
/// If an allocation fails.
pub fn outcome_of(alloc: Global, cycles: u32, given: &RunInput) -> Result<ScenarioOutcome, Memory>
    requires short { cycles ≤ most_cycles }
    requires may { MayBeRun cycles (scenario_given given.now) }
    requires stand { HasOrders given.now }
    ensures { IfOk result (IsOutcomeOf cycles given.now) }
{
    let (entries, rows) = log_of(alloc, cycles, given)?;
    let edge_verdicts = cover(
        alloc,
        &given.domain,
        rows.as_slice(),
        given.offers.as_slice(),
    )?;
    Ok(ScenarioOutcome {
        entries,
        rows,
        edge_verdicts,
    })
}
