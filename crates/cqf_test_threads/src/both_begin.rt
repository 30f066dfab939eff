//! Bridges go through a cycle at the same time: the step of each waits until the others' steps of the cycle have begun.
use crate::flags::{Flag, wait_for_both};
use crate::running::{Scenario, account_over};
use cqf_test_fixtures::line;
use cqf_units::Cycle;
use cqf_worker::Pace;
use std::alloc::Global;
use std::sync::Wait;
use std::thread::Threads;

/// How many cycles are run.
const CYCLES: u32 = 5;

/// The flags of a cycle, one for each bridge.
#[derive(Drop)]
struct Begun {
    a: Flag,
    b: Flag,
    c: Flag,
}

impl Begun {
    /// Returns the flags of a cycle that no bridge has begun.
    fn none() -> Begun {
        Begun {
            a: Flag::new(),
            b: Flag::new(),
            c: Flag::new(),
        }
    }

    /// Returns whether all bridges have begun the cycle.
    fn is_whole(&self) -> bool {
        self.a.is_up() && self.b.is_up() && self.c.is_up()
    }
}

/// Each bridge's step of each cycle raises a flag of its own, and waits for those of the other two.
#[derive(Drop)]
struct Together {
    cycles: Vec<Begun>,
    gave_up: Flag,
}

impl Together {
    /// Returns a pace with no flag up.
    fn new(alloc: Global) -> Option<Together> {
        let mut cycles = Vec::new(alloc);
        for _cycle in 0..CYCLES {
            if cycles.push(Begun::none()).is_err() {
                return None;
            }
        }
        Some(Together {
            cycles,
            gave_up: Flag::new(),
        })
    }

    /// Raises a bridge's flag, and waits for the other two.
    fn meet(&self, own: &Flag, one: &Flag, other: &Flag) {
        own.raise();
        wait_for_both(one, other, &self.gave_up);
    }

    /// Returns whether each bridge has begun each cycle with the others.
    fn all_met(&self) -> bool {
        !self.gave_up.is_up() && self.cycles.iter().all(|cycle| cycle.is_whole())
    }
}

impl Pace for Together {
    fn before_call(&self, _admin: usize, _index: usize) {}

    fn before_step(&self, bridge: usize, cycle: Cycle) {
        match (self.cycles.get(cycle.0 as usize), bridge) {
            (Some(begun), 0) => self.meet(&begun.a, &begun.b, &begun.c),
            (Some(begun), 1) => self.meet(&begun.b, &begun.c, &begun.a),
            (Some(begun), 2) => self.meet(&begun.c, &begun.a, &begun.b),
            _ => self.gave_up.raise(),
        }
    }
}

/// Five cycles without streams.
const FIVE_CYCLES: Scenario = Scenario {
    streams: &[],
    admins: &[],
    times: 0,
    cycles: CYCLES,
};

/// Returns whether all bridges of the line meet in each cycle, or `None` if the run doesn't end with an account.
fn bridges_meet<R: Threads + Wait + Sync>(rt: &R, alloc: Global) -> Option<bool> {
    let pace = Together::new(alloc)?;
    account_over(rt, alloc, line(), &FIVE_CYCLES, &pace)?;
    Some(pace.all_met())
}

#[test]
fn both_begin(rt: HostRuntime) {
    let met = bridges_meet(&rt, rt.alloc());
    assert!(rt; met.is_some());
    assert!(rt; met == Some(true));
}
