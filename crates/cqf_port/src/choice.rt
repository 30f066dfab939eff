//! Which frame starts at an instant (IEEE Std 802.1Q-2018, 8.6.8.1 and 8.6.8.4).
ghost use Rattle.std.specs.Prelude.{◌≡◌, ◌+◌, ◌^◌, ◌<◌, ◌≤◌, ◌↔◌, ◌*◌, ℕ, Some, MatchOption, length};
ghost use Rattle.cqf_units.specs.Timing.{ticks_of_octet, time_of};
ghost use Rattle.cqf_port.specs.PortState.{AreTaken, rules_of};
ghost use Rattle.cqf_port.specs.Progress.{AreInside, NoneReady, IsChosen};
ghost use Rattle.cqf_port.specs.Asked.{AreAsked, HeadFits, IsShortFrame, NoHeadFits};

use crate::egress::Egress;
use cqf_lanes::{eligible, highest};
use cqf_model::Arrival;
use cqf_units::{Nanos, Rate, time_of};

/// What the classes need: the classes with a waiting frame and an open gate, the time that each frame takes, and the
/// time for which each gate stays open. Times are at most 4,294,967,295 ns, even if the frame takes longer or the gate
/// stays open for longer; if a frame takes longer than that, its class is in the set only if the frame fits.
#[derive(Clone, Copy)]
struct Asked {
    classes: u8,
    need: [u32; 8],
    left: [u32; 8],
}

/// Returns the time that a frame of these octets takes on the wire, in nanoseconds, with preamble and start delimiter
/// (IEEE 802.3).
pub(crate) fn need_of(octets: u32, rate: Rate) -> u64
    ensures value { result ≡ time_of (octets + 8) (ticks_of_octet rate) }
    ensures short { result < 2 ^ 43 }
    ensures some { 0 < result }
{
    time_of(u64::from(octets) + 8, rate)
}

/// Returns the time that the head of the class takes and the time for which its gate stays open, at most 4,294,967,295
/// ns each. Returns `None` if there is no head, it hasn't come by the instant, its gate is closed, or it takes longer
/// than 4,294,967,295 ns and doesn't fit.
fn asked_of(
    arrivals: &[Arrival],
    rate: Rate,
    head: Option<usize>,
    t: Nanos,
    left: u64,
) -> Option<(u32, u32)>
    requires { (index : ℕ) → head ≡ Some index → index < length arrivals.now }
    ensures short { IsShortFrame (ticks_of_octet rate) arrivals.now head }
    ensures asked { let octet_time = ticks_of_octet rate in
        MatchOption result (NoHeadFits octet_time arrivals.now head t.0 left) (λ asked. (asked.0 ≤ asked.1) ↔ HeadFits octet_time arrivals.now head t.0 left) }
{
    let arrival = arrivals[head?];
    let need = need_of(arrival.octets, rate);
    if t < arrival.at || left == 0 {
        return None;
    }
    let most = u64::from(u32::MAX);
    if need > most && need > left {
        return None;
    }
    Some((need.min(most) as u32, left.min(most) as u32))
}

/// Returns what the classes need at the instant, given how long each stays open.
fn ask(
    arrivals: &[Arrival],
    rate: Rate,
    heads: &[Option<usize>; 8],
    t: Nanos,
    left: &[u64; 8],
) -> Asked
    requires { AreInside arrivals.now heads.now }
    ensures { AreAsked (ticks_of_octet rate) arrivals.now heads.now t.0 left.now 8 result.classes result.need result.left }
{
    let mut asked = Asked {
        classes: 0,
        need: [0; 8],
        left: [0; 8],
    };
    for class in 0..8 {
        if let Some((need, open)) = asked_of(arrivals, rate, heads[class], t, left[class]) {
            asked.classes |= 1 << class;
            asked.need[class] = need;
            asked.left[class] = open;
        }
    }
    asked
}

/// Returns the head that starts at the instant: that of the highest class with an eligible head (strict priority).
pub(crate) fn choose(egress: &Egress<'_>, heads: &[Option<usize>; 8], t: Nanos) -> Option<usize>
    requires taken { AreTaken egress.now.arrivals.now }
    requires inside { AreInside egress.now.arrivals.now heads.now }
    ensures { let rules = rules_of egress.now.schedule.now egress.now.rate in
        MatchOption result (NoneReady rules egress.now.arrivals.now heads.now t.0 0) (IsChosen rules egress.now.arrivals.now heads.now t.0) }
{
    let left = egress.schedule.left_at(t);
    let asked = ask(egress.arrivals, egress.rate, heads, t, &left);
    match highest(eligible(asked.classes, &asked.need, &asked.left)) {
        Some(class) => heads[usize::from(class)],
        None => None,
    }
}
