//! Administrators call while bridges run.
use crate::asking::Ask;
use crate::flags::{Flag, wait_for_both};
use crate::running::{Scenario, account_over};
use cqf_admission::{Call, Entry};
use cqf_model::Reply;
use cqf_test_fixtures::one_link;
use cqf_units::Cycle;
use cqf_worker::Pace;
use std::alloc::Global;
use std::sync::Wait;
use std::thread::Threads;

/// The flags of an administrator who makes two calls.
#[derive(Drop)]
struct Calling {
    first: Flag,
    second: Flag,
}

impl Calling {
    /// Returns the flags before any call.
    fn none() -> Calling {
        Calling {
            first: Flag::new(),
            second: Flag::new(),
        }
    }
}

/// The first call of each of two administrators waits for the bridge's step of cycle 0 and for the other's first call. The step of cycle 1
/// waits for the second call of both.
#[derive(Drop)]
struct Within {
    begun: Flag,
    zero: Calling,
    one: Calling,
    gave_up: Flag,
}

impl Within {
    /// Returns a pace with no flag up.
    fn new() -> Within {
        Within {
            begun: Flag::new(),
            zero: Calling::none(),
            one: Calling::none(),
            gave_up: Flag::new(),
        }
    }

    /// Raises the flag of a first call, and waits for the step and for the other first call.
    fn call_first(&self, own: &Flag, other: &Flag) {
        own.raise();
        wait_for_both(&self.begun, other, &self.gave_up);
    }

    /// Returns whether everything that was waited for happened.
    fn all_came(&self) -> bool {
        !self.gave_up.is_up() && self.zero.second.is_up() && self.one.second.is_up()
    }
}

impl Pace for Within {
    fn before_call(&self, admin: usize, index: usize) {
        match (admin, index) {
            (0, 0) => self.call_first(&self.zero.first, &self.one.first),
            (1, 0) => self.call_first(&self.one.first, &self.zero.first),
            (0, 1) => self.zero.second.raise(),
            (1, 1) => self.one.second.raise(),
            _ => self.gave_up.raise(),
        }
    }

    fn before_step(&self, _bridge: usize, cycle: Cycle) {
        match cycle.0 {
            0 => self.begun.raise(),
            1 => wait_for_both(&self.zero.second, &self.one.second, &self.gave_up),
            _ => {}
        }
    }
}

/// Each of two administrators admits and withdraws a stream of its own.
const TWO_STREAMS: Scenario = Scenario {
    streams: &[],
    admins: &[
        &[Ask::Admit(("x", 1500, &[&["a", "s"]])), Ask::Withdraw("x")],
        &[Ask::Admit(("y", 1500, &[&["a", "s"]])), Ask::Withdraw("y")],
    ],
    times: 1,
    cycles: 20,
};

/// Returns whether an entry is a seat's call for a stream that was accepted while the bridge ran, with effect 1 to 19.
fn is_within(entry: &Entry, seat: u16) -> bool {
    let is_call = entry.seat == seat && matches!(entry.call, Call::Admit(_));
    match entry.reply {
        Reply::Accepted(receipt) => { is_call && receipt.effect.0 >= 1 && receipt.effect.0 <= 19 }
        _ => false,
    }
}

/// Returns whether a history has such an entry of each of the two seats.
fn have_called(entries: &[Entry]) -> bool {
    entries.iter().any(|entry| is_within(entry, 0))
        && entries.iter().any(|entry| is_within(entry, 1))
}

/// Returns whether both call within a run over one link.
fn calls_come_within<R: Threads + Wait + Sync>(rt: &R, alloc: Global) -> bool {
    let pace = Within::new();
    match account_over(rt, alloc, one_link(), &TWO_STREAMS, &pace) {
        Some(account) => pace.all_came() && have_called(account.history.entries.as_slice()),
        None => false,
    }
}

#[test]
fn calls_within(rt: HostRuntime) {
    assert!(rt; calls_come_within(&rt, rt.alloc()));
}
