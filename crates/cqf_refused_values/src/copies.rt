//! Copies, and what results when they are used. The original is unchanged.
use crate::admissions::{Standing, stands};
use crate::domains::{is_line, is_request};
use crate::{PATH, Reported, X, domain_of, granted, line_with, tables_of, trial};
use cqf_admission::{Admission, Refused, Table};
use cqf_test_fixtures::{Asked, line, request};
use cqf_topology::{Domain, Request};
use cqf_units::{Cycle, Memory};
use std::alloc::Global;

/// Whether an admission over a domain grants `x`.
fn grants_x(alloc: Global, domain: &Domain, wanted: &Request) -> bool {
    match Admission::new(alloc, domain) {
        Ok(mut admission) => admission.admit(0, wanted) == granted(0, 0),
        Err(_) => false,
    }
}

/// Whether a copy of the line was made, over which `x` is granted.
fn is_domain(alloc: Global, copy: &Result<Domain, Memory>) -> bool {
    match (copy, request(alloc, &X)) {
        (Ok(domain), Ok(wanted)) => is_line(domain) && grants_x(alloc, domain, &wanted),
        _ => false,
    }
}

/// Tries to copy a domain.
fn domain_copied(alloc: Global, domain: &Domain) -> Reported {
    trial!(
        alloc,
        domain.try_copy(alloc),
        Err(_),
        is_line(domain),
        |answer| is_domain(alloc, &answer) && is_line(domain)
    )
}

pub(crate) fn domain_reported(alloc: Global) -> Option<Reported> {
    let domain = domain_of(alloc, line())?;
    Some(domain_copied(alloc, &domain))
}

/// Whether a copy of a request was made that is granted, and that no longer equals the other one after a change.
fn is_copied(alloc: Global, copy: Result<Request, Memory>, other: &Request) -> bool {
    match copy {
        Ok(mut wanted) => {
            let same = is_request(&wanted, &X);
            wanted.octets = 64;
            wanted.paths.clear();
            same && is_request(other, &X) && wanted.paths.is_empty() && is_granted(alloc, other)
        }
        Err(_) => false,
    }
}

/// Whether the line grants a request.
fn is_granted(alloc: Global, wanted: &Request) -> bool {
    match line_with(alloc, &[]) {
        Some(mut admission) => admission.admit(0, wanted) == granted(0, 0),
        None => false,
    }
}

/// Tries to copy a request.
fn request_copied(alloc: Global, wanted: &Request) -> Reported {
    trial!(
        alloc,
        wanted.try_copy(alloc),
        Err(_),
        is_request(wanted, &X),
        |answer| is_copied(alloc, answer, wanted)
    )
}

pub(crate) fn request_reported(alloc: Global) -> Option<Reported> {
    let wanted = request(alloc, &X).ok()?;
    Some(request_copied(alloc, &wanted))
}

/// Whether a table is that of a cycle in which only `x` is held.
fn is_table(table: &Table, cycle: u32) -> bool {
    let found = match table.row_of(0) {
        Some(row) => row.name.as_str() == "x" && row.octets == 1500,
        None => false,
    };
    found && table.cycle() == Cycle(cycle) && table.rows().len() == 1
}

/// Whether a copy of it was made.
fn is_table_copied(copy: &Result<Table, Memory>) -> bool {
    match copy {
        Ok(table) => is_table(table, 0),
        Err(_) => false,
    }
}

/// Tries to copy a table.
fn table_copied(alloc: Global, table: &Table) -> Reported {
    trial!(
        alloc,
        table.try_copy(alloc),
        Err(_),
        is_table(table, 0),
        |answer| is_table_copied(&answer) && is_table(table, 0)
    )
}

pub(crate) fn table_reported(alloc: Global) -> Option<Reported> {
    let mut admission = line_with(alloc, &[X])?;
    let tables = tables_of(alloc, &mut admission, 1)?;
    let table = tables.first()?;
    Some(table_copied(alloc, table))
}

/// A stream that takes all of each link, and another one like it.
const OLD: Asked = ("old", 11_440, PATH);

const NEW: Asked = ("new", 11_440, PATH);

/// The state with the stream withdrawn in cycle 5, and still held two cycles later.
const HELD_ON: Standing = Standing {
    history: "0 admit old accepted 0 0\n1 seal\n1 seal\n1 seal\n1 seal\n1 seal\n0 withdraw old accepted 0 5\n1 seal\n1 seal\n",
    cycle: 7,
    held: 15_000,
};

/// The state with the other one refused in that cycle, and granted in the next one.
const FOLLOWED: Standing = Standing {
    history: "0 admit old accepted 0 0\n1 seal\n1 seal\n1 seal\n1 seal\n1 seal\n0 withdraw old accepted 0 5\n1 seal\n1 seal\n\
        0 admit new refused BudgetShort 0 0\n1 seal\n0 admit new accepted 1 8\n",
    cycle: 8,
    held: 15_000,
};

/// Whether the other one is refused and granted in this way.
fn goes_on(alloc: Global, admission: &mut Admission, wanted: &Request) -> bool {
    let short = Err(Refused::BudgetShort { link: 0, left: 0 });
    admission.admit(0, wanted) == short
        && admission.seal(1).is_ok()
        && admission.admit(0, wanted) == granted(1, 8)
        && stands(alloc, admission, &FOLLOWED)
}

/// Whether a copy of an admission was made for which this is so, while the original is unchanged.
fn is_admission(
    alloc: Global,
    copy: Result<Admission, Memory>,
    admission: &Admission,
    wanted: &Request,
) -> bool {
    match copy {
        Ok(mut other) => {
            stands(alloc, &other, &HELD_ON)
                && goes_on(alloc, &mut other, wanted)
                && stands(alloc, admission, &HELD_ON)
        }
        Err(_) => false,
    }
}

/// Tries to copy an admission.
fn admission_copied(alloc: Global, admission: &Admission, wanted: &Request) -> Reported {
    trial!(
        alloc,
        admission.try_copy(alloc),
        Err(_),
        stands(alloc, admission, &HELD_ON),
        |answer| is_admission(alloc, answer, admission, wanted)
    )
}

/// Returns an admission that still holds the stream that was withdrawn.
fn held_on(alloc: Global) -> Option<Admission> {
    let mut admission = line_with(alloc, &[OLD])?;
    let _first = tables_of(alloc, &mut admission, 5)?;
    if admission.withdraw(0, "old").is_err() {
        return None;
    }
    let _last = tables_of(alloc, &mut admission, 2)?;
    Some(admission)
}

pub(crate) fn admission_reported(alloc: Global) -> Option<Reported> {
    let wanted = request(alloc, &NEW).ok()?;
    let admission = held_on(alloc)?;
    Some(admission_copied(alloc, &admission, &wanted))
}
