//! What the links carry of a scenario's offers.
ghost use Rattle.std.specs.Prelude.{IfOk};
ghost use Rattle.cqf_laws_coverage.specs.Judged.{judged_of};
ghost use Rattle.cqf_instants_run.specs.Columns.{AreSumsBy};
ghost use Rattle.cqf_program_scenario.specs.Calls.{history_of};
ghost use Rattle.cqf_program_scenario.specs.Closing.{MayBeRun, scenario_given};
ghost use Rattle.cqf_program_scenario.specs.Outcomes.{IsOutcomeOf};

use cqf_instants_run::columns_of;
use cqf_laws_coverage::{Column, cells_fit};
use cqf_program_scenario::{RunInput, ScenarioOutcome};
use cqf_units::Memory;
use std::alloc::Global;

/// Returns what each link carries in `cycles` cycles of a scenario with this outcome. Each offer is judged as the
/// definitions require.
pub(crate) fn carried_columns(
    alloc: Global,
    cycles: u32,
    given: &RunInput,
    outcome: &ScenarioOutcome,
) -> Result<Vec<Column>, Memory>
    requires may { MayBeRun cycles (scenario_given given.now) }
    requires outcome { IsOutcomeOf cycles given.now outcome.now }
    ensures { IfOk result (λ columns. AreSumsBy given.now.domain cycles
        (judged_of given.now.domain (history_of cycles (scenario_given given.now)) given.now.offers.items) given.now.offers.items columns.items) }
{
    cells_fit();
    let domain = &given.domain;
    // the domain is accepted; the room in the columns needs this fact
    domain.know();
    let rows = outcome.rows.as_slice();
    let offers = given.offers.as_slice();
    let edge_verdicts = outcome.edge_verdicts.as_slice();
    columns_of(alloc, domain, rows, offers, edge_verdicts, cycles)
}
