//! Preparation of what calls need.
use cqf_admission::{Admission, Entry, Receipt, Refused, Table};
use cqf_compile::{Plan, compile};
use cqf_report::write_history;
use cqf_test_fixtures::{Asked, admission_of, line};
use cqf_topology::Domain;
use cqf_units::{Cycle, Memory};
use std::alloc::Global;

/// The one branch of a stream over the line of three bridges.
pub const PATH: &[&[&str]] = &[&["a", "b", "c", "s"]];

/// The stream `x` over it.
pub const X: Asked = ("x", 1500, PATH);

/// Seven streams of 1,500 octets, which cost 1,960 of the 15,000 octets of each link.
pub const SEVEN: &[Asked] = &[
    ("n0", 1500, PATH),
    ("n1", 1500, PATH),
    ("n2", 1500, PATH),
    ("n3", 1500, PATH),
    ("n4", 1500, PATH),
    ("n5", 1500, PATH),
    ("n6", 1500, PATH),
];

/// The answer to a call that is granted.
pub fn granted(no: u32, effect: u32) -> Result<Receipt, Refused> {
    Ok(Receipt {
        no,
        effect: Cycle(effect),
    })
}

/// Returns the domain of a text.
pub fn domain_of(alloc: Global, text: &str) -> Option<Domain> {
    Domain::read(alloc, text.as_bytes()).ok()
}

/// Returns the plan of a domain's text.
pub fn plan_of(alloc: Global, text: &str) -> Option<Plan> {
    compile(alloc, &domain_of(alloc, text)?).ok()
}

/// Closes a cycle for seat 1, and appends its table to the others.
fn seals_one(admission: &mut Admission, tables: &mut Vec<Table>) -> bool {
    match admission.seal(1) {
        Ok(table) => tables.push(table).is_ok(),
        Err(_) => false,
    }
}

/// Closes `cycles` cycles for seat 1, and returns their tables.
pub fn tables_of(alloc: Global, admission: &mut Admission, cycles: u32) -> Option<Vec<Table>> {
    let mut tables = Vec::new(alloc);
    for _cycle in 0..cycles {
        if !seals_one(admission, &mut tables) {
            return None;
        }
    }
    Some(tables)
}

/// Returns the tables of `cycles` cycles of a plan, with these streams.
pub fn tables_with(
    alloc: Global,
    plan: &Plan,
    streams: &[Asked],
    cycles: u32,
) -> Option<Vec<Table>> {
    let mut admission = admission_of(alloc, plan.domain(), streams)?;
    tables_of(alloc, &mut admission, cycles)
}

/// Returns an admission over the line that has admitted the streams for seat 0.
pub fn line_with(alloc: Global, streams: &[Asked]) -> Option<Admission> {
    admission_of(alloc, &domain_of(alloc, line())?, streams)
}

/// The most entries of a history other than Seals, and also the most Seals.
pub const MOST_ENTRIES: u32 = 100_000;

/// Whether withdrawals of a stream that nobody admitted can be made, in vain, until the history has no more room.
pub fn fills(admission: &mut Admission) -> bool {
    for _call in 0..MOST_ENTRIES {
        if admission.withdraw(0, "q") != Err(Refused::NotHeld) {
            return false;
        }
    }
    true
}

/// Whether this text was written.
pub fn is_text(written: Result<Vec<u8>, Memory>, text: &str) -> bool {
    match written {
        Ok(bytes) => bytes.as_slice() == text.as_bytes(),
        Err(_) => false,
    }
}

/// Whether entries are written as this text.
pub fn writes(alloc: Global, entries: &[Entry], text: &str) -> bool {
    is_text(write_history(alloc, entries), text)
}
