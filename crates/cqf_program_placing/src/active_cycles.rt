//! The cycles in which a stream is offered on a cycle time.
ghost use Rattle.std.specs.Prelude.{◌≡◌, ◌<◌, ◌^◌, IsTrue};
ghost use Rattle.cqf_program_placing.specs.Orders.{is_open};
ghost use Rattle.cqf_program_placing.specs.Placing.{active_cycles_on, is_chosen_on};
ghost use Rattle.cqf_program_placing.specs.Settled.{is_paced, settled_value};
ghost use Rattle.cqf_program_placing.specs.ActiveCycles.{AreGoodActiveCycles, IsGoodEvery, active_cycles_in_step, can_step, every_in, every_of, keeps_step, stays_in_step};

use crate::{Settled, StreamPath};
use cqf_model::MOST_EVERY;
use cqf_network::Pacing;
use cqf_traffic::Traffic;
use cqf_units::Nanos;

/// The cycles in which a stream is offered on a cycle time.
#[derive(Clone, Copy, Debug)]
pub enum ActiveCycles {
    /// One of `every` cycles from `phase` on.
    Given { every: u8, phase: u8 },
    /// One of `every` cycles; the first is to be chosen.
    Chosen { every: u8 },
}

impl ActiveCycles {
    /// Returns n if the stream is offered in one of n cycles.
    pub(crate) fn every(self) -> u8
        ensures { result ≡ every_in self }
    {
        match self {
            ActiveCycles::Given { every, .. } | ActiveCycles::Chosen { every } => every,
        }
    }
}

/// Returns whether all frames of an interval arrive within one cycle.
fn keeps_step(traffic: Traffic, cycle_time: Nanos) -> bool
    requires { 0 < cycle_time.0 }
    ensures { result ≡ keeps_step cycle_time.0 traffic }
{
    let is_whole = traffic.interval().0 % cycle_time.0 == 0;
    let latest = traffic.offset().0 % cycle_time.0 + traffic.jitter().0;
    is_whole && latest < cycle_time.0
}

/// Returns the greatest common divisor of a number of cycles and 80.
fn every_of(cycles: u64) -> u8
    ensures value { result ≡ every_of cycles }
    ensures good { IsGoodEvery result }
{
    let mut every = 0;
    for index in 0..MOST_EVERY as u8 {
        let other = index + 1;
        if MOST_EVERY % u32::from(other) == 0 && cycles % u64::from(other) == 0 {
            every = other;
        }
    }
    every
}

/// Returns whether all frames of an interval arrive within one cycle by the edge bridge's clock too, at any difference to the talker's
/// clock up to `sync`.
fn stays_in_step(traffic: Traffic, cycle_time: Nanos, sync: Nanos) -> bool
    requires some { 0 < cycle_time.0 }
    requires short { sync.0 < 2 ^ 32 }
    ensures { result ≡ stays_in_step cycle_time.0 sync.0 traffic }
{
    if !keeps_step(traffic, cycle_time) {
        return false;
    }
    let first = traffic.offset().0 % cycle_time.0;
    let latest = first + traffic.jitter().0 + sync.0;
    sync.0 <= first && latest < cycle_time.0
}

/// Returns whether a stream can be offered on a cycle time if clocks differ by `sync` at most. If its talker has to be in step, all its
/// frames of an interval have to arrive within one cycle, by its own clock and by the edge bridge's.
pub(crate) fn can_step(stream: &Settled, cycle_time: Nanos, sync: Nanos) -> bool
    requires some { 0 < cycle_time.0 }
    requires short { sync.0 < 2 ^ 32 }
    ensures { result ≡ can_step cycle_time.0 sync.0 stream.now.pacing stream.now.traffic }
{
    match stream.pacing {
        Pacing::Given { .. } => true,
        Pacing::InStep => match stream.traffic {
            Some(traffic) => stays_in_step(traffic, cycle_time, sync),
            None => false,
        },
    }
}

/// Returns in which cycles a stream whose talker is in step is offered.
fn active_cycles_in_step(traffic: Option<Traffic>, cycle_time: Nanos) -> ActiveCycles
    requires { 0 < cycle_time.0 }
    ensures value { result ≡ active_cycles_in_step cycle_time.0 traffic }
    ensures good { AreGoodActiveCycles result }
{
    match traffic {
        Some(traffic) => ActiveCycles::Chosen {
            every: every_of(traffic.interval().0 / cycle_time.0),
        },
        None => ActiveCycles::Given { every: 1, phase: 0 },
    }
}

/// Returns in which cycles a stream that can be offered on a cycle time is offered: in the given ones; or, if its talker is in step, in one
/// of gcd(80, interval in cycles) cycles; the first is to be chosen.
pub(crate) fn active_cycles_on(stream: &Settled, cycle_time: Nanos) -> ActiveCycles
    requires some { 0 < cycle_time.0 }
    requires paced { IsTrue (is_paced stream.now.pacing) }
    ensures value { result ≡ active_cycles_on cycle_time.0 (settled_value stream.now) }
    ensures good { AreGoodActiveCycles result }
{
    match stream.pacing {
        Pacing::Given { every, phase } => ActiveCycles::Given {
            every: every as u8,
            phase: phase as u8,
        },
        Pacing::InStep => active_cycles_in_step(stream.traffic, cycle_time),
    }
}

impl Settled {
    /// Returns whether the cycles in which the stream is offered on a cycle time are chosen: its talker is in step, and all its frames of
    /// an interval arrive within one cycle.
    pub fn is_chosen_on(&self, cycle_time: Nanos) -> bool
        requires { 0 < cycle_time.0 }
        ensures { result ≡ is_chosen_on cycle_time.0 (settled_value self.now) }
    {
        match (self.pacing, self.traffic) {
            (Pacing::InStep, Some(traffic)) => keeps_step(traffic, cycle_time),
            _ => false,
        }
    }
    /// Returns whether the path of the stream is to be found, not given.
    pub fn is_open(&self) -> bool
        ensures { result ≡ is_open (settled_value self.now).path }
    {
        match &self.path {
            StreamPath::Along(_) => false,
            StreamPath::Between(..) => true,
        }
    }
}
