//! Compiling of plans, and writing of configurations.
ghost use Rattle.std.specs.Prelude.{IfSome};
ghost use Rattle.cqf_admission.specs.Tables.{AreAlongLinks};
ghost use Rattle.cqf_admission.specs.ActiveCycles.{AreOfGoodPaces};

use crate::gates::LIST;
use crate::{Reported, domain_of, is_text, plan_of, trial};
use cqf_admission::{Admission, Table};
use cqf_compile::{Plan, compile, write_config};
use cqf_test_fixtures::{Asked, admission_of, one_link};
use cqf_topology::Domain;
use cqf_units::Memory;
use std::alloc::Global;

/// Whether the plan of one link has its list.
fn is_plan(made: &Result<Plan, Memory>) -> bool {
    match made {
        Ok(plan) => {
            let domain = plan.domain();
            domain.links() == 1 && domain.bridges() == 1 && plan.list(0).entries() == LIST
        }
        Err(_) => false,
    }
}

/// Tries to compile the domain.
fn compiled(alloc: Global, domain: &Domain) -> Reported {
    trial!(
        alloc,
        compile(alloc, domain),
        Err(_),
        domain.links() == 1 && domain.bridges() == 1,
        |answer| is_plan(&answer)
    )
}

pub(crate) fn compile_reported(alloc: Global) -> Option<Reported> {
    let domain = domain_of(alloc, one_link())?;
    Some(compiled(alloc, &domain))
}

/// The stream `x` on one link.
const X: Asked = ("x", 1500, &[&["a", "s"]]);

/// The configuration of one link that holds it.
const CONFIG: &str = "link a>s\nBF 120000\n00 5000\n7F 120000\n00 5000\n\
    stream 0 x bridge a\nopen 6 125000 1500\nopen 7 125000 1500\n";

/// Returns the table of a plan's first cycle.
fn first_table(alloc: Global, plan: &Plan) -> Option<Table>
    ensures { IfSome result (λ table. AreAlongLinks plan.now table.rows) }
{
    let mut admission = admission_of(alloc, plan.domain(), &[X])?;
    sealed(&mut admission)
}

/// Returns the table of an admission's next cycle.
fn sealed(admission: &mut Admission) -> Option<Table>
    ensures { IfSome result (λ table. AreAlongLinks admission.old.domain table.rows) }
{
    match admission.seal(1) {
        Ok(table) => Some(table),
        Err(_) => None,
    }
}

/// Tries to write the configuration.
fn written(alloc: Global, plan: &Plan, table: &Table) -> Reported
    requires along { AreAlongLinks plan.now table.now.rows }
    requires paced { AreOfGoodPaces table.now.rows }
{
    trial!(
        alloc,
        write_config(alloc, plan, table),
        Err(_),
        table.rows().len() == 1 && plan.domain().links() == 1,
        |answer| is_text(answer, CONFIG)
    )
}

/// Tries the same for a plan.
fn config_of(alloc: Global, plan: &Plan) -> Option<Reported> {
    match first_table(alloc, plan) {
        Some(table) => {
            let _rows = table.rows();
            Some(written(alloc, plan, &table))
        }
        None => None,
    }
}

pub(crate) fn config_reported(alloc: Global) -> Option<Reported> {
    let plan = plan_of(alloc, one_link())?;
    config_of(alloc, &plan)
}
