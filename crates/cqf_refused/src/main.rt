//! Trials of all calls that may be refused for lack of memory. Each call is made between two marks, and repeated if it
//! was refused.
//!
//! `cqf_refused NAME` makes the trial with a name and writes its result; without a name it makes all trials and writes
//! a line for each. A program that intercepts allocations refuses those between the marks (tests/refused.py); without one,
//! each call is answered as expected.
#![tactic(auto)]

mod answers;
mod engines;
mod inputs;
mod program;
mod words;

use cqf_refused_values::Reported;
use std::alloc::Global;
use std::env::Env;
use std::process::ExitCode;
use std::sync::Wait;
use std::thread::Threads;

/// Makes the trial with a name. Returns `None` if there is no such trial, or what it needs couldn't be prepared.
fn reported_of<R: Threads + Wait + Sync>(rt: &R, alloc: Global, name: &str) -> Option<Reported> {
    if let Some(reported) = cqf_refused_values::reported_of(alloc, name) {
        return Some(reported);
    }
    if let Some(reported) = cqf_refused_runs::reported_of(rt, alloc, name) {
        return Some(reported);
    }
    program::reported_of(rt, alloc, name)
}

/// Writes the result of the trial with a name, and returns whether there is such a trial and its result is the expected
/// one. `threads` is for the threads of trials.
fn report<R: Threads + Wait + Sync>(rt: &HostRuntime, threads: &R, name: &str) -> bool {
    let reported = reported_of(threads, rt.alloc(), name);
    let is_written = match reported {
        Some(reported) => println!(rt; "{name}: {reported}").is_ok(),
        None => println!(rt; "{name}: not made ready").is_ok(),
    };
    is_written && matches!(reported, Some(Reported::Row | Reported::Memory))
}

/// Writes the results of all of these trials.
fn report_all<R: Threads + Wait + Sync>(rt: &HostRuntime, threads: &R, names: &[&str]) -> bool {
    let mut is_well = true;
    for name in names {
        is_well = report(rt, threads, name) && is_well;
    }
    is_well
}

/// The most bytes of a name.
const LONGEST: usize = 64;

/// Makes the trial with the name after the program's name, or all trials if there is none.
fn run<R: Threads + Wait + Sync>(rt: &HostRuntime, threads: &R) -> bool {
    let mut buffer = [0u8; LONGEST];
    let Ok(count) = rt.arg(1, &mut buffer) else {
        return report_all(rt, threads, cqf_refused_values::NAMES)
            & report_all(rt, threads, cqf_refused_runs::NAMES)
            & report_all(rt, threads, program::NAMES);
    };
    let Some(bytes) = buffer.get(..count) else {
        return false;
    };
    match std::str::from_utf8(bytes) {
        Ok(name) => report(rt, threads, name),
        Err(_) => false,
    }
}

fn main(rt: HostRuntime) -> ExitCode {
    ExitCode::from(if run(&rt, &rt) { 0 } else { 1 })
}
