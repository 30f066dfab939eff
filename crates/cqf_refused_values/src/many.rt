//! Cases that are large enough to allocate what a small one doesn't.
use crate::bridges::received_with;
use crate::{PATH, Reported, X, line_with, tables_of, trial};
use cqf_admission::{Admission, SealFault, Table};
use cqf_bridge::StreamGates;
use cqf_gates::Passed;
use cqf_model::Reason;
use cqf_report::write_history;
use cqf_test_fixtures::{Asked, Fell, Offering};
use cqf_topology::Domain;
use cqf_units::{Cycle, Nanos, Octets};
use std::alloc::Global;

/// More streams along the line than a Seal renumbers without a list of them.
const STREAMS: &[Asked] = &[
    ("n0", 64, PATH),
    ("n1", 64, PATH),
    ("n2", 64, PATH),
    ("n3", 64, PATH),
    ("n4", 64, PATH),
    ("n5", 64, PATH),
    ("n6", 64, PATH),
    ("n7", 64, PATH),
    ("n8", 64, PATH),
    ("n9", 64, PATH),
    ("n10", 64, PATH),
    ("n11", 64, PATH),
    ("n12", 64, PATH),
    ("n13", 64, PATH),
    ("n14", 64, PATH),
    ("n15", 64, PATH),
    ("n16", 64, PATH),
    ("n17", 64, PATH),
    ("n18", 64, PATH),
    ("n19", 64, PATH),
    ("n20", 64, PATH),
    ("n21", 64, PATH),
    ("n22", 64, PATH),
    ("n23", 64, PATH),
    ("n24", 64, PATH),
    ("n25", 64, PATH),
    ("n26", 64, PATH),
    ("n27", 64, PATH),
    ("n28", 64, PATH),
    ("n29", 64, PATH),
    ("n30", 64, PATH),
    ("n31", 64, PATH),
    ("n32", 64, PATH),
];

/// Whether a table has the rows of all, by their numbers and by their names.
fn has_all(table: &Table) -> bool {
    let mut number = 0u32;
    for asked in STREAMS {
        match table.row_of(number) {
            Some(row) => {
                if row.name.as_str() != asked.0 {
                    return false;
                }
            }
            None => return false,
        }
        number = number.saturating_add(1);
    }
    table.cycle() == Cycle(0) && table.rows().len() == STREAMS.len()
}

/// Whether a Seal returned it.
fn is_sealed(given: &Result<Table, SealFault>) -> bool {
    match given {
        Ok(table) => has_all(table),
        Err(_) => false,
    }
}

/// Whether an admission still has this history, and has closed no cycle.
fn stands(alloc: Global, admission: &Admission, history: &[u8]) -> bool {
    let is_same = match write_history(alloc, admission.history()) {
        Ok(text) => text.as_slice() == history,
        Err(_) => false,
    };
    is_same && admission.next_cycle() == Cycle(0)
}

/// Tries to close a cycle.
fn sealed(alloc: Global, admission: &mut Admission, history: &[u8]) -> Reported {
    trial!(
        alloc,
        admission.seal(1),
        Err(SealFault::Memory),
        stands(alloc, admission, history),
        |answer| is_sealed(&answer)
    )
}

pub(crate) fn seal_reported(alloc: Global) -> Option<Reported> {
    let mut admission = line_with(alloc, STREAMS)?;
    let text = write_history(alloc, admission.history()).ok()?;
    Some(sealed(alloc, &mut admission, text.as_slice()))
}

/// A frame at the first bridge, and 21 at the second one that come before it and are all dropped: they aren't gathered
/// in order.
pub(crate) fn receive_reported(alloc: Global) -> Option<Reported> {
    let mut offering: [Offering; 22] = [(125_000, 1, "x", 64); 22];
    offering[0] = (0, 0, "x", 64);
    let mut drops: [Fell; 21] = [(1, 1, 2, 64, Reason::OtherBridge); 21];
    let mut frame = 2u32;
    for fell in &mut drops {
        fell.2 = frame;
        frame = frame.saturating_add(1);
    }
    received_with(alloc, &[X], &offering, &drops, 1)
}

/// A frame of each of 17 streams at the first bridge: of this many gates a bridge also keeps the numbers.
pub(crate) fn receive_each_reported(alloc: Global) -> Option<Reported> {
    let mut offering: [Offering; 17] = [(0, 0, "", 64); 17];
    for (offered, asked) in offering.iter_mut().zip(STREAMS) {
        offered.2 = asked.0;
    }
    received_with(alloc, STREAMS, &offering, &[], 17)
}

/// The first frame of a stream passes at a new gate, and uses its reservation.
fn passed(alloc: Global, domain: &Domain, table: &Table) -> Option<Reported> {
    let row = table.row_of(0)?;
    let mut gates = StreamGates::new(alloc);
    Some(trial!(
        alloc,
        gates.pass(domain, row, None, Nanos(0), Octets(1500)),
        Err(_),
        true,
        |answer| answer == Ok(Passed::Class(6))
    ))
}

pub(crate) fn pass_reported(alloc: Global) -> Option<Reported> {
    let mut admission = line_with(alloc, &[X])?;
    let tables = tables_of(alloc, &mut admission, 1)?;
    let table = tables.first()?;
    passed(alloc, admission.domain(), table)
}
