//! The tests' input for a bridge of a plan: the plan, and the tables of an admission.
use cqf_admission::{Admission, Table};
use cqf_compile::{Plan, compile};
use cqf_test_fixtures::request;
use cqf_topology::Domain;
use std::alloc::Global;

/// The branches of a stream, as the names of their nodes.
pub(crate) type Branches = &'static [&'static [&'static str]];

/// The line's one branch.
pub(crate) const ONE_BRANCH: Branches = &[&["a", "b", "c", "s"]];

/// A call of an administrator: the stream `x` is admitted with this many octets over these branches, or is withdrawn, or a cycle is closed.
pub(crate) enum Call {
    Admit(u32, Branches),
    Withdraw,
    Seal,
}

/// Returns the plan of a domain's text.
pub(crate) fn plan_of(alloc: Global, text: &str) -> Option<Plan> {
    let Ok(domain) = Domain::read(alloc, text.as_bytes()) else {
        return None;
    };
    match compile(alloc, &domain) {
        Ok(plan) => Some(plan),
        Err(_) => None,
    }
}

/// Returns whether a request for the stream `x` is granted.
pub(crate) fn admit(alloc: Global, asked: &mut Admission, octets: u32, branches: Branches) -> bool {
    match request(alloc, &("x", octets, branches)) {
        Ok(request) => asked.admit(0, &request).is_ok(),
        Err(_) => false,
    }
}

/// Closes a cycle, and appends its table.
fn seal(asked: &mut Admission, tables: &mut Vec<Table>) -> bool {
    match asked.seal(0) {
        Ok(table) => tables.push(table).is_ok(),
        Err(_) => false,
    }
}

/// Makes calls one after the other. Returns whether all are granted.
fn make_all(alloc: Global, asked: &mut Admission, calls: &[Call], tables: &mut Vec<Table>) -> bool {
    for call in calls {
        let made = match call {
            Call::Admit(octets, branches) => admit(alloc, asked, *octets, branches),
            Call::Withdraw => asked.withdraw(0, "x").is_ok(),
            Call::Seal => seal(asked, tables),
        };
        if !made {
            return false;
        }
    }
    true
}

/// Appends the tables of the Seals among these calls of an admission over a plan's domain. Returns whether all calls are granted.
pub(crate) fn add_tables(
    alloc: Global,
    plan: &Plan,
    calls: &[Call],
    tables: &mut Vec<Table>,
) -> bool {
    match Admission::new(alloc, plan.domain()) {
        Ok(mut asked) => make_all(alloc, &mut asked, calls, tables),
        Err(_) => false,
    }
}
