//! The events of one run in many orders.
use crate::acts::{Act, SIDE_BY_SIDE, happens};
use crate::making::{begin, plan_of};
use crate::written::{Written, are_written};
use cqf_compile::Plan;
use cqf_model::{Background, Offer, Reason};
use cqf_test_fixtures::{Backing, Offering, background_of, line, offers_of};
use cqf_world::World;
use std::alloc::Global;

/// The calls, in order: the stream is withdrawn in cycle 1, and six cycles are closed to changes.
const CALLS: &[Act] = &[
    Act::Admit,
    Act::Seal,
    Act::Withdraw,
    Act::Seal,
    Act::Seal,
    Act::Seal,
    Act::Seal,
    Act::Seal,
];

/// Events that never happen in this run: link 2 ends in a station, and there is neither a bridge 3 nor a link 3.
const NEVER: &[Act] = &[Act::Take(2), Act::Give(3), Act::Take(3)];

/// The offers: a frame, one at another bridge, one after the withdrawal, and one when the stream is no longer held.
const OFFERS: &[Offering] = &[
    (0, 0, "x", 64),
    (0, 1, "x", 64),
    (125000, 0, "x", 64),
    (500000, 0, "x", 64),
];

/// Two background frames, of classes 0 and 5.
const BACKGROUND: &[Backing] = &[(0, 1, 0, 1522), (125000, 0, 5, 1522)];

/// The pages of the run that aren't empty. Offer 1 crosses one link per cycle, although its stream is withdrawn after it: the stream is
/// held for three more cycles. One background frame is alone and goes at once. The other arrives at its link at the instant at which offer
/// 1 leaves it, and follows it: 84 octets of the wire take 672 ns.
const PAGES: &[Written] = &[
    Written {
        bridge: 1,
        cycle: 0,
        starts: &[],
        background: &[(0, 1, 1, 1522, 0)],
        drops: &[(0, 1, 2, 64, Reason::OtherBridge)],
    },
    Written {
        bridge: 0,
        cycle: 1,
        starts: &[(1, 0, 1, 64, 125000)],
        background: &[(1, 0, 2, 1522, 125672)],
        drops: &[(1, 0, 3, 64, Reason::Withdrawn)],
    },
    Written {
        bridge: 1,
        cycle: 2,
        starts: &[(2, 1, 1, 64, 250000)],
        background: &[],
        drops: &[],
    },
    Written {
        bridge: 2,
        cycle: 3,
        starts: &[(3, 2, 1, 64, 375000)],
        background: &[],
        drops: &[],
    },
    Written {
        bridge: 0,
        cycle: 4,
        starts: &[],
        background: &[],
        drops: &[(4, 0, 4, 64, Reason::Unknown)],
    },
];

/// How many events are tried in one order: far more than the 74 of the run.
const TRIES: u32 = 3000;

/// Returns the next pseudo-random number after a number. It is a linear congruential generator; the high bits are used.
fn following(number: u64) -> u64 {
    number
        .wrapping_mul(6_364_136_223_846_793_005)
        .wrapping_add(1_442_695_040_888_963_407)
}

/// Returns one of the events of bridges and links, or the next call, which is chosen twice as often as each of the others.
fn chosen(number: u64, made: usize) -> Act {
    let index = ((number >> 33) % 16) as usize;
    match SIDE_BY_SIDE.iter().chain(NEVER).nth(index) {
        Some(act) => *act,
        None => match CALLS.get(made) {
            Some(call) => *call,
            None => Act::Seal,
        },
    }
}

/// Returns whether an event is a call or a Seal.
fn is_called(act: Act) -> bool {
    matches!(act, Act::Admit | Act::Withdraw | Act::Seal)
}

/// Tries events in one order, and returns how many calls and Seals, and how many events in all, were done, or `None` if an allocation
/// failed.
fn try_all(alloc: Global, world: &mut World, seed: u64) -> Option<(usize, usize)> {
    let mut number = seed;
    let mut made = 0;
    let mut done = 0;
    for _try in 0..TRIES {
        number = following(number);
        let act = chosen(number, made);
        if happens(alloc, world, act)? {
            done += 1;
            if is_called(act) {
                made += 1;
            }
        }
    }
    Some((made, done))
}

/// Returns whether all of the run happens in one order, and its pages are those computed by hand. The run has eight calls and Seals, a
/// table, a sent cycle and a page for each of three bridges and six cycles, and a batch for each of two links and six cycles.
fn gives_the_pages(alloc: Global, world: &mut World, seed: u64) -> bool {
    try_all(alloc, world, seed) == Some((8, 74)) && are_written(world.pages(), 3, 6, PAGES)
}

/// Returns whether it does in one order, in a world of its own.
fn order_gives_them(
    alloc: Global,
    plan: &Plan,
    offers: &[Offer],
    background: &[Background],
    seed: u64,
) -> bool {
    match begin(alloc, plan, offers, background, 6) {
        Some(mut world) => gives_the_pages(alloc, &mut world, seed),
        None => false,
    }
}

/// Returns whether it does in each of thirty orders.
fn each_order_gives_them(
    alloc: Global,
    plan: &Plan,
    offers: &[Offer],
    background: &[Background],
) -> bool {
    for seed in 0..30 {
        if !order_gives_them(alloc, plan, offers, background, seed) {
            return false;
        }
    }
    true
}

/// Returns whether it does so on the line.
fn line_gives_them(alloc: Global) -> bool {
    let Ok(offers) = offers_of(alloc, OFFERS) else {
        return false;
    };
    let Ok(background) = background_of(alloc, BACKGROUND) else {
        return false;
    };
    match plan_of(alloc, line()) {
        Some(plan) => each_order_gives_them(alloc, &plan, offers.as_slice(), background.as_slice()),
        None => false,
    }
}

#[test]
fn thirty_orders_give_the_same_pages(rt: HostRuntime) {
    assert!(rt; line_gives_them(rt.alloc()));
}
