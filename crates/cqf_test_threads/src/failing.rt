//! A worker that is stopped before its last cycle releases the others, and the run reports that an end of a pipe was lost.
ghost use Rattle.std.specs.Prelude.{◌≡◌, ◌≤◌, [], All, length};
ghost use Rattle.cqf_worker_loops.specs.Workers.{MayWork};
ghost use Rattle.cqf_model.specs.Run.{AreOffers};

use cqf_admission::{Admission, Table};
use cqf_model::Offer;
use cqf_test_fixtures::{Asked, Offering, are_offers, line, offers_of, request};
use cqf_topology::Domain;
use cqf_worker::{ConductFault, Faults, Laid, join_workers, lay, start_workers};
use cqf_worker_loops::{Carried, Free, PipeIn, Worker};
use std::alloc::Global;
use std::collections::VecDeque;
use std::sync::Wait;
use std::thread;
use std::thread::Threads;

/// A stream along the line.
const X: &[Asked] = &[("x", 1500, &[&["a", "b", "c", "s"]])];

/// How many cycles the workers go through. The tables of all cycles wait for each worker except the second bridge's, which has four.
const CYCLES: u32 = 10;

const GIVEN: usize = 4;

/// A frame of 64 octets for x in each cycle.
const FRAMES: &[Offering] = &[
    (0, 0, "x", 64),
    (125_000, 0, "x", 64),
    (250_000, 0, "x", 64),
    (375_000, 0, "x", 64),
    (500_000, 0, "x", 64),
    (625_000, 0, "x", 64),
    (750_000, 0, "x", 64),
    (875_000, 0, "x", 64),
    (1_000_000, 0, "x", 64),
    (1_125_000, 0, "x", 64),
];

/// How the second bridge's worker is stopped after its tables.
#[derive(Clone, Copy)]
enum Stopped {
    /// The other end of their pipe is gone.
    ByLoss,
    /// It gets a Stop, and then the other end is gone too.
    ByStop,
}

/// Returns whether streams are granted.
fn are_granted(alloc: Global, admission: &mut Admission, streams: &[Asked]) -> bool {
    for asked in streams {
        match request(alloc, asked) {
            Ok(wanted) => {
                if admission.admit(0, &wanted).is_err() {
                    return false;
                }
            }
            Err(_) => return false,
        }
    }
    true
}

/// Closes cycles, and appends their tables.
fn close_all(admission: &mut Admission, tables: &mut Vec<Table>) -> bool {
    for _cycle in 0..CYCLES {
        match admission.seal(1) {
            Ok(table) => {
                if tables.push(table).is_err() {
                    return false;
                }
            }
            Err(_) => return false,
        }
    }
    true
}

/// Appends the tables of an admission that has these streams.
fn add_tables(alloc: Global, domain: &Domain, streams: &[Asked], tables: &mut Vec<Table>) -> bool {
    match Admission::new(alloc, domain) {
        Ok(mut admission) => {
            are_granted(alloc, &mut admission, streams) && close_all(&mut admission, tables)
        }
        Err(_) => false,
    }
}

/// Appends a copy of a table to the tables that are put at once.
fn add_copy(alloc: Global, table: &Table, bundle: &mut VecDeque<Carried<Table>>) -> bool {
    match table.try_copy(alloc) {
        Ok(copy) => bundle.push_back(Carried::Item(copy)).is_ok(),
        Err(_) => false,
    }
}

/// Appends copies of these tables.
fn add_copies(alloc: Global, tables: &[Table], bundle: &mut VecDeque<Carried<Table>>) -> bool {
    for table in tables {
        if !add_copy(alloc, table, bundle) {
            return false;
        }
    }
    true
}

/// Returns whether copies of these tables go in, followed by a Stop if one is wanted.
fn gives<R: Wait>(
    rt: &R,
    alloc: Global,
    tables: &[Table],
    is_reported: bool,
    end: &mut PipeIn<Carried<Table>>,
) -> bool
    requires { length end.old.items ≡ 0 }
{
    let mut bundle = VecDeque::new(alloc);
    if !add_copies(alloc, tables, &mut bundle) {
        return false;
    }
    if is_reported && bundle.push_back(Carried::Stop).is_err() {
        return false;
    }
    match bundle.pop_front() {
        Some(first) => bundle.len() < 100 && end.put_with(rt, first, bundle).is_ok(),
        None => false,
    }
}

/// Gives each worker its tables, the second bridge's only the first few, and drops the ends.
fn give_tables<R: Wait>(
    rt: &R,
    alloc: Global,
    tables: &[Table],
    stopped: Stopped,
    ends: Vec<PipeIn<Carried<Table>>>,
) -> bool
    requires { All (λ end. end.items ≡ []) ends.items }
{
    let few = tables.get(..GIVEN).unwrap_or(&[]);
    let is_reported = matches!(stopped, Stopped::ByStop);
    let mut given = true;
    let mut index: usize = 0;
    for mut end in ends {
        let is_second = index == 1;
        let own = if is_second { few } else { tables };
        given &= gives(rt, alloc, own, is_second && is_reported, &mut end);
        index = index.saturating_add(1);
    }
    given
}

/// Returns the fault if the workers go through their cycles with the tables that wait for them, and no more follow.
fn fault_of<R: Threads + Wait + Sync>(
    rt: &R,
    alloc: Global,
    workers: Vec<Worker>,
) -> Option<ConductFault>
    requires { All (MayWork CYCLES) workers.items }
{
    thread::scope(
        thread::scope_env(),
        rt,
        move |scope| -> Option<ConductFault>
            requires { All (MayWork CYCLES) workers.items }
        {
            match start_workers(alloc, scope, rt, &Free, CYCLES, workers) {
                Ok(working) => {
                    let mut faults = Faults::none();
                    let _done = join_workers(rt, alloc, working, &mut faults);
                    faults.reported()
                }
                Err(fault) => Some(fault),
            }
        },
    )
}

/// Returns whether an end of a pipe was lost, and no worker has failed, if the workers of a domain have these tables and offers.
fn ends_on<R: Threads + Wait + Sync>(
    rt: &R,
    alloc: Global,
    domain: &Domain,
    offers: &[Offer],
    tables: &[Table],
    stopped: Stopped,
) -> bool
    requires offers { AreOffers domain.now offers.now }
    requires few_offers { length offers.now ≤ 1000000 }
{
    match lay(alloc, domain, offers, CYCLES) {
        Ok(
            Laid {
                workers,
                tables: ends,
            },
        ) => {
            let are_given = give_tables(rt, alloc, tables, stopped, ends);
            let fault = fault_of(rt, alloc, workers);
            are_given & (fault == Some(ConductFault::ChannelLost))
        }
        Err(_) => false,
    }
}

/// Returns whether it was lost if the frames are offered.
fn ends_over<R: Threads + Wait + Sync>(
    rt: &R,
    alloc: Global,
    domain: &Domain,
    stopped: Stopped,
) -> bool {
    let mut tables = Vec::new(alloc);
    if !add_tables(alloc, domain, X, &mut tables) {
        return false;
    }
    match offers_of(alloc, FRAMES) {
        Ok(offers) => {
            let frames = offers.as_slice();
            frames.len() <= 10
                && are_offers(domain, frames)
                && ends_on(rt, alloc, domain, frames, tables.as_slice(), stopped)
        }
        Err(_) => false,
    }
}

/// Returns whether it was lost on the line.
fn line_ends<R: Threads + Wait + Sync>(rt: &R, alloc: Global, stopped: Stopped) -> bool {
    match Domain::read(alloc, line().as_bytes()) {
        Ok(domain) => ends_over(rt, alloc, &domain, stopped),
        Err(_) => false,
    }
}

#[test]
fn a_worker_whose_tables_are_lost_ends_the_run(rt: HostRuntime) {
    assert!(rt; line_ends(&rt, rt.alloc(), Stopped::ByLoss));
}

#[test]
fn a_worker_that_is_stopped_ends_the_run(rt: HostRuntime) {
    assert!(rt; line_ends(&rt, rt.alloc(), Stopped::ByStop));
}
