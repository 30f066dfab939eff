//! Runs of the network on one thread, by tables of two histories, and by too few and too many tables.
ghost use Rattle.std.specs.Prelude.{◌≤◌, length};
ghost use Rattle.cqf_model.specs.Run.{AreOffers};

use cqf_admission::{Admission, Table};
use cqf_compile::{Plan, compile};
use cqf_model::{Book, Offer};
use cqf_plain::{RunFault, run};
use cqf_test_fixtures::{Asked, Begun, Offering, are_begun, are_offers, line, offers_of, request};
use cqf_topology::Domain;
use std::alloc::Global;

/// The stream x over the line of three bridges, and with fewer octets.
const X: Asked = ("x", 1500, &[&["a", "b", "c", "s"]]);

const LESS_X: Asked = ("x", 64, &[&["a", "b", "c", "s"]]);

/// An offer of 1,500 octets.
const OFFERS: &[Offering] = &[(0, 0, "x", 1500)];

/// The stream of the last table, when that of the others is x, the number of tables, and the result of two cycles by them.
const CASES: &[(Asked, u32, Result<&[Begun], RunFault>)] = &[
    (X, 2, Ok(&[(1, 0, 1, 1500, 125_000)])),
    (LESS_X, 2, Err(RunFault::Inside(1))),
    (X, 1, Err(RunFault::WrongTables)),
    (X, 3, Err(RunFault::WrongTables)),
];

/// Closes `count` cycles, and keeps the tables from cycle `from` on.
fn seal_all(asked: &mut Admission, from: u32, count: u32, tables: &mut Vec<Table>) -> bool {
    for cycle in 0..count {
        match asked.seal(1) {
            Ok(table) => {
                if cycle >= from && tables.push(table).is_err() {
                    return false;
                }
            }
            Err(_) => return false,
        }
    }
    true
}

/// Returns whether a stream is granted.
fn is_granted(alloc: Global, asked: &mut Admission, stream: &Asked) -> bool {
    match request(alloc, stream) {
        Ok(wanted) => asked.admit(0, &wanted).is_ok(),
        Err(_) => false,
    }
}

/// Appends the tables from one cycle on, up to a number of cycles, of an admission that has the stream.
fn add_tables(
    alloc: Global,
    domain: &Domain,
    stream: &Asked,
    from: u32,
    count: u32,
    tables: &mut Vec<Table>,
) -> bool {
    match Admission::new(alloc, domain) {
        Ok(mut asked) => {
            is_granted(alloc, &mut asked, stream) && seal_all(&mut asked, from, count, tables)
        }
        Err(_) => false,
    }
}

/// Returns whether a book has only these starts.
fn is_book(book: &Book, rows: &[Begun]) -> bool {
    are_begun(book.starts.as_slice(), rows) && book.background.is_empty() && book.drops.is_empty()
}

/// Returns whether two cycles by these tables have the wanted result.
fn comes_out(
    alloc: Global,
    plan: &Plan,
    tables: &[Table],
    offers: &[Offer],
    wanted: Result<&[Begun], RunFault>,
) -> bool
    requires offers { AreOffers plan.now offers.now }
    requires few_offers { length offers.now ≤ 1000000 }
{
    match run(alloc, plan, tables, offers, &[], 2) {
        Ok(book) => matches!(wanted, Ok(rows) if is_book(&book, rows)),
        Err(fault) => matches!(wanted, Err(cause) if fault == cause),
    }
}

/// Returns whether they do by this number of tables, the last of them with this stream.
fn comes_out_by(
    alloc: Global,
    plan: &Plan,
    offers: &[Offer],
    case: (Asked, u32, Result<&[Begun], RunFault>),
) -> bool
    requires offers { AreOffers plan.now offers.now }
    requires few_offers { length offers.now ≤ 1000000 }
{
    let (last, count, wanted) = case;
    let before = count.saturating_sub(1);
    let mut tables = Vec::new(alloc);
    add_tables(alloc, plan.domain(), &X, 0, before, &mut tables)
        && add_tables(alloc, plan.domain(), &last, before, count, &mut tables)
        && comes_out(alloc, plan, tables.as_slice(), offers, wanted)
}

/// Returns the index of the first case on a plan that has another result, if there is one.
fn first_wrong(alloc: Global, plan: &Plan, offers: &[Offer]) -> Option<usize> {
    if offers.len() > 1_000_000 || !are_offers(plan.domain(), offers) {
        return Some(0);
    }
    for index in 0..CASES.len() {
        if !comes_out_by(alloc, plan, offers, CASES[index]) {
            return Some(index);
        }
    }
    None
}

/// Returns the first one on a domain.
fn first_wrong_over(alloc: Global, domain: &Domain) -> Option<usize> {
    let Ok(offers) = offers_of(alloc, OFFERS) else {
        return Some(0);
    };
    match compile(alloc, domain) {
        Ok(plan) => first_wrong(alloc, &plan, offers.as_slice()),
        Err(_) => Some(0),
    }
}

/// Returns the first one on the line.
fn first_wrong_on_line(alloc: Global) -> Option<usize> {
    match Domain::read(alloc, line().as_bytes()) {
        Ok(domain) => first_wrong_over(alloc, &domain),
        Err(_) => Some(0),
    }
}

#[test]
fn tables_of_two_histories_may_lose_a_frame(rt: HostRuntime) {
    assert!(rt; first_wrong_on_line(rt.alloc()) == None);
}
