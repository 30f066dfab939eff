//! Calls that allocate no memory.
use crate::domains::is_line;
use crate::gates::LIST;
use crate::{
    MOST_ENTRIES, Reported, X, domain_of, fills, line_with, looked_at, mark, once, plan_of,
    tables_of,
};
use cqf_admission::{Admission, Refused, Reply, Table};
use cqf_compile::{Plan, gate_of};
use cqf_gates::{OpenFor, Passed, StreamEntry, StreamGate, StreamList, TxList, read_tx};
use cqf_port::{Arrival, Port};
use cqf_test_fixtures::{admission_of, line, one_link, request};
use cqf_topology::{Domain, Node, Request};
use cqf_units::{Cycle, Name, Nanos, Octets, Rate};
use std::alloc::Global;

/// Whether a list answers as expected.
fn is_list(list: &TxList) -> bool {
    list.entries() == LIST
        && list.round() == Nanos(250_000)
        && list.mask_at(Nanos(120_000)) == 0
        && list.entry_at(Nanos(125_001)) == (2, 1)
        && list.open_for(Nanos(1), 7) == OpenFor::Until(Nanos(120_000))
}

/// Whether a gate passes one frame of its octets in a cycle, and no other.
fn is_gate(list: StreamList) -> bool {
    let mut gate = StreamGate::new(list);
    gate.pass(Nanos(0), Octets(1500)) == Passed::Class(6)
        && gate.pass(Nanos(0), Octets(64)) == Passed::OverOctets
}

/// Whether a stream's list is made, and its gate behaves in this way.
fn is_stream_list() -> bool {
    let entry = StreamEntry {
        ipv: 6,
        interval: 125_000,
        octet_max: Some(1500),
    };
    match StreamList::new(&[entry]) {
        Ok(list) => list.entries() == [entry].as_slice() && is_gate(list),
        Err(_) => false,
    }
}

/// Whether a text is read as the list.
fn is_read() -> bool {
    match read_tx(b"BF 120000\n00 5000\n7f 120000\n00 5000\n") {
        Ok(list) => is_list(&list),
        Err(_) => false,
    }
}

pub(crate) fn gates_reported(alloc: Global) -> Option<Reported> {
    Some(looked_at!(alloc, is_read() && is_stream_list()))
}

/// Whether a port that was made answers as expected.
fn is_port(port: &Port) -> bool {
    port.now() == Nanos(0) && port.waiting(6) == 0 && port.next_start() == None
}

pub(crate) fn port_reported(alloc: Global) -> Option<Reported> {
    let list = TxList::new(LIST).ok()?;
    Some(looked_at!(alloc, is_port(&Port::new(alloc, list, Rate::Mb1000))))
}

/// Returns a port that has run to 500 ns, with a frame that starts at once.
fn port_at_500(alloc: Global) -> Option<Port> {
    let Ok(list) = TxList::new(LIST) else {
        return None;
    };
    let mut port = Port::new(alloc, list, Rate::Mb1000);
    let frame = Arrival {
        at: Nanos(500),
        class: 7,
        octets: 64,
        frame: 1,
    };
    if port.run_to(Nanos(500)).is_ok() && port.offer(frame).is_ok() {
        Some(port)
    } else {
        None
    }
}

/// Advancing to an instant that isn't after its own changes nothing.
fn stays(alloc: Global, port: &mut Port) -> Reported {
    let mut starts = Vec::new(alloc);
    looked_at!(
        alloc,
        port.advance(Nanos(500), &mut starts).is_ok()
            && starts.is_empty()
            && port.now() == Nanos(500)
            && port.waiting(7) == 1
    )
}

pub(crate) fn stay_reported(alloc: Global) -> Option<Reported> {
    let mut port = port_at_500(alloc)?;
    Some(stays(alloc, &mut port))
}

pub(crate) fn domain_reported(alloc: Global) -> Option<Reported> {
    let domain = domain_of(alloc, line())?;
    Some(looked_at!(alloc, is_line(&domain) && has_names(&domain)))
}

/// Whether a domain has the names of the line, and its links by their ends.
fn has_names(domain: &Domain) -> bool {
    domain.bridges() == 3
        && domain.stations() == 1
        && domain.bridge_name(2).as_str() == "c"
        && domain.station_name(0).as_str() == "s"
        && domain.find_link(0, Node::Bridge(1)) == Some(0)
        && domain.find_link(1, Node::Bridge(0)) == None
}

/// Whether a row of a table is that of `x`, and the table has no other.
fn is_table(table: &Table, name: &Name) -> bool {
    let is_there = match (table.row_of(0), table.row_named(name)) {
        (Some(one), Some(other)) => {
            one.no == other.no && one.live(Cycle(0)) && one.is_held(Cycle(0)) && one.crosses(2)
        }
        _ => false,
    };
    is_there && table.cycle() == Cycle(0) && table.rows().len() == 1 && table.row_of(1).is_none()
}

/// Observes a table.
fn table_seen(alloc: Global, table: &Table) -> Option<Reported> {
    let name = Name::new(b"x")?;
    Some(looked_at!(alloc, is_table(table, &name)))
}

pub(crate) fn table_reported(alloc: Global) -> Option<Reported> {
    let mut admission = line_with(alloc, &[X])?;
    let tables = tables_of(alloc, &mut admission, 1)?;
    let table = tables.first()?;
    table_seen(alloc, table)
}

/// Whether a plan has its domain and its one list, and a row its gate.
fn is_plan(plan: &Plan, table: &Table) -> bool {
    let _rows = table.rows();
    let has_gate = match table.row_of(0) {
        Some(row) => gate_of(plan.domain(), row, 0).entries().len() == 2,
        None => false,
    };
    has_gate && plan.domain().links() == 3 && plan.list(2).entries() == LIST
}

/// Observes a plan.
fn plan_seen(alloc: Global, plan: &Plan) -> Option<Reported> {
    let mut admission = admission_of(alloc, plan.domain(), &[X])?;
    let tables = tables_of(alloc, &mut admission, 1)?;
    let table = tables.first()?;
    Some(looked_at!(alloc, is_plan(plan, table)))
}

pub(crate) fn plan_reported(alloc: Global) -> Option<Reported> {
    let plan = plan_of(alloc, line())?;
    plan_seen(alloc, &plan)
}

/// Whether an admission answers as expected.
fn is_admission(admission: &Admission) -> bool {
    admission.history().len() == 1
        && admission.next_cycle() == Cycle(0)
        && admission.domain().links() == 3
        && admission.held_on(1).0 == 1960
}

pub(crate) fn admission_reported(alloc: Global) -> Option<Reported> {
    let admission = line_with(alloc, &[X])?;
    Some(looked_at!(alloc, is_admission(&admission)))
}

/// Whether the history is full of these entries.
fn is_full(admission: &Admission) -> bool {
    let history = admission.history();
    history.len() == MOST_ENTRIES as usize
        && history.iter().all(|entry| entry.seat == 0
            && entry.reply == Reply::Refused(Refused::NotHeld))
}

/// Makes calls for which the history has no room.
fn refused(alloc: Global, admission: &mut Admission, wanted: &Request) -> Option<Reported> {
    if !fills(admission) {
        return None;
    }
    mark(alloc);
    let admitted = admission.admit(0, wanted);
    let withdrawn = admission.withdraw(0, "q");
    mark(alloc);
    let full = Err(Refused::HistoryFull);
    Some(once(admitted == full && withdrawn == full && is_full(admission)))
}

/// The same over the domain of a text.
fn refused_over(alloc: Global, text: &str) -> Option<Reported> {
    let wanted = request(alloc, &X).ok()?;
    let domain = domain_of(alloc, text)?;
    refused_by(alloc, &domain, &wanted)
}

/// The same, for an admission of this domain.
fn refused_by(alloc: Global, domain: &Domain, wanted: &Request) -> Option<Reported> {
    let mut admission = admission_of(alloc, domain, &[])?;
    refused(alloc, &mut admission, wanted)
}

pub(crate) fn full_reported(alloc: Global) -> Option<Reported> {
    refused_over(alloc, one_link())
}

pub(crate) fn full_line_reported(alloc: Global) -> Option<Reported> {
    refused_over(alloc, line())
}
