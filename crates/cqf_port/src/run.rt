//! Running a port from one instant to another.
ghost use Rattle.std.specs.Prelude.{◌≡◌, ◌+◌, ◌++◌, ◌^◌, ◌<◌, ◌≤◌, All, IfOk, OnErr, OnOk, length, map};
ghost use Rattle.cqf_port.specs.PortState.{AreTaken, rules_of, start_of};
ghost use Rattle.cqf_port.specs.Progress.{AreMore, IsAbreast, StepsTo};

use crate::choice::choose;
use crate::egress::Egress;
use crate::progress::{Progress, after_start};
use crate::quiet::idle_until;
use cqf_model::{Arrival, Start};
use cqf_units::{Memory, Nanos};
use std::alloc::AllocError;

/// Handles one instant: the frame that is due starts. Returns what the port knows then, and the next instant at which
/// anything can happen.
fn step(
    egress: &Egress<'_>,
    t: Nanos,
    before: Progress,
    starts: &mut Vec<(usize, u64)>,
) -> Result<(Progress, Nanos), Memory>
    requires early { t.0 < 2 ^ 62 }
    requires taken { AreTaken egress.now.arrivals.now }
    requires abreast { IsAbreast (rules_of egress.now.schedule.now egress.now.rate) egress.now.arrivals.now t.0 starts.old.items before }
    ensures more { AreMore starts.old.items starts.new.items t.0 }
    ensures ok { IfOk result (λ stepped. StepsTo (rules_of egress.now.schedule.now egress.now.rate) egress.now.arrivals.now t.0
        starts.new.items stepped.0 stepped.1.0) }
{
    if t < before.idle_from {
        return Ok((before, before.idle_from));
    }
    match choose(egress, &before.heads, t) {
        Some(index) => {
            starts.push((index, t.0))?;
            let after = after_start(egress.arrivals, egress.rate, index, t, before);
            Ok((after, after.idle_from))
        }
        None => Ok((before, idle_until(egress, &before.heads, t))),
    }
}

/// Runs from an instant up to but excluding another. Returns what the port knows then. If it returns `Memory`, some
/// starts may have been added.
fn run(
    egress: &Egress<'_>,
    reached: Nanos,
    until: Nanos,
    before: Progress,
    starts: &mut Vec<(usize, u64)>,
) -> Result<Progress, Memory>
    requires in_order { reached.0 ≤ until.0 }
    requires early { until.0 < 2 ^ 62 }
    requires taken { AreTaken egress.now.arrivals.now }
    requires abreast { IsAbreast (rules_of egress.now.schedule.now egress.now.rate) egress.now.arrivals.now reached.0 starts.old.items before }
    ensures more { AreMore starts.old.items starts.new.items reached.0 }
    ensures ok { IfOk result (IsAbreast (rules_of egress.now.schedule.now egress.now.rate) egress.now.arrivals.now until.0 starts.new.items) }
{
    let mut progress = before;
    let mut t = reached.0;
    'instants: while t < until.0 {
        let (after, next) = step(egress, Nanos(t), progress, starts)?;
        progress = after;
        t = next.0.min(until.0);
    }
    Ok(progress)
}

/// Runs from an instant up to but excluding another. Returns what the port knows then. If it returns `Memory`, no start
/// was added.
pub(crate) fn run_or_stay(
    egress: &Egress<'_>,
    reached: Nanos,
    until: Nanos,
    before: Progress,
    starts: &mut Vec<(usize, u64)>,
) -> Result<Progress, Memory>
    requires in_order { reached.0 ≤ until.0 }
    requires early { until.0 < 2 ^ 62 }
    requires taken { AreTaken egress.now.arrivals.now }
    requires abreast { IsAbreast (rules_of egress.now.schedule.now egress.now.rate) egress.now.arrivals.now reached.0 starts.old.items before }
    ensures more { OnOk result (AreMore starts.old.items starts.new.items reached.0) }
    ensures ok { IfOk result (IsAbreast (rules_of egress.now.schedule.now egress.now.rate) egress.now.arrivals.now until.0 starts.new.items) }
    ensures err { OnErr result (starts.new.items ≡ starts.old.items) }
{
    let kept = starts.len();
    match run(egress, reached, until, before, starts) {
        Ok(progress) => Ok(progress),
        Err(refused) => {
            starts.truncate(kept);
            Err(refused)
        }
    }
}

/// Appends the starts that were made to the caller's list. If it returns `Memory`, the list is unchanged.
pub(crate) fn hand_on(
    arrivals: &[Arrival],
    made: &[(usize, u64)],
    given: &mut Vec<Start>,
) -> Result<(), Memory>
    requires { All (λ x. x.0 < length arrivals.now) made.now }
    ensures ok { OnOk result (given.new.items ≡ given.old.items ++ map (start_of arrivals.now) made.now) }
    ensures err { OnErr result (given.new.items ≡ given.old.items) }
{
    let kept = given.len();
    for transmission in made {
        let arrival = arrivals[transmission.0];
        let start = Start {
            start: Nanos(transmission.1),
            class: arrival.class,
            octets: arrival.octets,
            frame: arrival.frame,
        };
        if given.push(start).is_err() {
            given.truncate(kept);
            return Err(AllocError);
        }
    }
    Ok(())
}
