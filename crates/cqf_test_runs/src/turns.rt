//! Events in turn, and out of turn.
use crate::acts::{Act, SIDE_BY_SIDE, all_happen, none_happens};
use crate::making::{begin, plan_of};
use crate::written::{Written, are_written};
use cqf_compile::Plan;
use cqf_model::{Offer, Receipt, Refused, Reply};
use cqf_test_fixtures::{Offering, line, offers_of, one_link};
use cqf_units::Cycle;
use cqf_world::World;
use std::alloc::Global;

/// What is tried with a world, or checked of it.
enum Turn {
    /// Each of these events is done.
    Done(&'static [Act]),
    /// None of these is enabled.
    NotEnabled(&'static [Act]),
    /// This number of bridges have posted their pages of this number of cycles; of these pages only the listed ones aren't empty.
    Posted(u16, u32, &'static [Written]),
    /// The history has these answers: of seat 1 to Seals, and of seat 0 to the others.
    Replied(&'static [Reply]),
}

/// The number of cycles of a world, and what is tried with it.
type Trial = (u32, &'static [Turn]);

/// One bridge goes through one cycle, without a stream: before and after it nothing is enabled.
const ON_ONE_LINK: &[Trial] = &[(
    1,
    &[
        Turn::NotEnabled(&[Act::Step(0), Act::Give(0), Act::Post(0)]),
        Turn::Done(&[Act::Seal, Act::Give(0), Act::Step(0), Act::Post(0)]),
        Turn::NotEnabled(&[
            Act::Seal,
            Act::Take(0),
            Act::Give(0),
            Act::Step(0),
            Act::Post(0),
        ]),
        Turn::Posted(1, 1, &[]),
        Turn::Replied(&[Reply::Sealed]),
    ],
)];

/// The stream is admitted, and two cycles are closed to changes.
const CLOSED: &[Act] = &[Act::Admit, Act::Seal, Act::Seal];

/// A bridge into which no link leads goes through a cycle.
const FIRST_BRIDGE: &[Act] = &[Act::Give(0), Act::Step(0), Act::Post(0)];

/// The next bridge does so too, and then the one after it.
const SECOND_BRIDGE: &[Act] = &[Act::Give(1), Act::Step(1), Act::Take(0), Act::Post(1)];

const THIRD_BRIDGE: &[Act] = &[Act::Give(2), Act::Step(2), Act::Take(1), Act::Post(2)];

/// The only frame leaves the first bridge in the cycle after its own.
const ONE_START: &[Written] = &[Written {
    bridge: 0,
    cycle: 1,
    starts: &[(1, 0, 1, 64, 125000)],
    background: &[],
    drops: &[],
}];

/// What isn't enabled before a cycle is closed.
const BEFORE_A_SEAL: &[Act] = &[
    Act::Give(0),
    Act::Step(0),
    Act::Take(0),
    Act::Post(0),
    Act::Give(3),
    Act::Take(3),
];

/// What isn't enabled after the second bridge was given a table, and after it has sent the cycle. No bridge has sent a batch to it.
const WITH_ITS_TABLE: &[Act] = &[Act::Give(1), Act::Take(0), Act::Post(1), Act::Step(2)];

const HAS_SENT: &[Act] = &[
    Act::Give(1),
    Act::Step(1),
    Act::Take(0),
    Act::Take(1),
    Act::Post(1),
];

/// What isn't enabled after it has taken the first bridge's batch of the cycle, although there is a second batch; and after it has posted.
/// Link 2 ends in a station.
const HAS_TAKEN: &[Act] = &[Act::Take(0), Act::Step(1), Act::Give(1)];

const HAS_POSTED: &[Act] = &[Act::Post(1), Act::Take(0), Act::Step(1), Act::Take(2)];

/// The answers to the calls of a run in which the stream is requested once more, withdrawn after the Seals, and withdrawn again.
const REPLIES: &[Reply] = &[
    Reply::Accepted(Receipt {
        no: 0,
        effect: Cycle(0),
    }),
    Reply::Sealed,
    Reply::Sealed,
    Reply::Refused(Refused::NameHeld),
    Reply::Accepted(Receipt {
        no: 0,
        effect: Cycle(2),
    }),
    Reply::Refused(Refused::AlreadyWithdrawn),
];

/// The line's bridges go through two cycles; 64 octets are offered at the first instant.
const ON_LINE: &[Trial] = &[
    // one after the other
    (
        2,
        &[
            Turn::Done(CLOSED),
            Turn::Done(FIRST_BRIDGE),
            Turn::Done(FIRST_BRIDGE),
            Turn::NotEnabled(&[Act::Take(0)]),
            Turn::Done(SECOND_BRIDGE),
            Turn::Done(SECOND_BRIDGE),
            Turn::Done(THIRD_BRIDGE),
            Turn::Done(THIRD_BRIDGE),
            Turn::Posted(3, 2, ONE_START),
        ],
    ),
    // at the same time
    (
        2,
        &[
            Turn::Done(CLOSED),
            Turn::Done(SIDE_BY_SIDE),
            Turn::Done(SIDE_BY_SIDE),
            Turn::Posted(3, 2, ONE_START),
        ],
    ),
    // events out of turn change nothing
    (
        2,
        &[
            Turn::NotEnabled(BEFORE_A_SEAL),
            Turn::Done(CLOSED),
            Turn::NotEnabled(&[Act::Seal, Act::Step(0), Act::Post(0), Act::Give(3)]),
            Turn::Done(&[Act::Give(1)]),
            Turn::NotEnabled(WITH_ITS_TABLE),
            Turn::Done(&[Act::Step(1)]),
            Turn::NotEnabled(HAS_SENT),
            Turn::Done(FIRST_BRIDGE),
            Turn::Done(FIRST_BRIDGE),
            Turn::NotEnabled(FIRST_BRIDGE),
            Turn::Done(&[Act::Take(0)]),
            Turn::NotEnabled(HAS_TAKEN),
            Turn::Done(&[Act::Post(1)]),
            Turn::NotEnabled(HAS_POSTED),
            Turn::Done(SECOND_BRIDGE),
            Turn::Done(THIRD_BRIDGE),
            Turn::Done(THIRD_BRIDGE),
            Turn::Posted(3, 2, ONE_START),
        ],
    ),
    // calls after the run's Seals enter the history with their answers, and change no page
    (
        2,
        &[
            Turn::Done(CLOSED),
            Turn::Done(&[Act::Admit, Act::Withdraw, Act::Withdraw]),
            Turn::NotEnabled(&[Act::Seal]),
            Turn::Replied(REPLIES),
            Turn::Done(SIDE_BY_SIDE),
            Turn::Done(SIDE_BY_SIDE),
            Turn::Posted(3, 2, ONE_START),
        ],
    ),
];

/// Returns whether a world's history has these answers: of seat 1 to Seals, and of seat 0 to the others.
fn has_replies(world: &World, replies: &[Reply]) -> bool {
    let entries = world.admission().history();
    entries.len() == replies.len()
        && entries.iter().zip(replies).all(|(entry, reply)| {
            let seat = if *reply == Reply::Sealed { 1 } else { 0 };
            entry.reply == *reply && entry.seat == seat
        })
}

/// Returns whether a turn goes as expected.
fn goes_so(alloc: Global, world: &mut World, turn: &Turn) -> bool {
    match *turn {
        Turn::Done(acts) => all_happen(alloc, world, acts),
        Turn::NotEnabled(acts) => none_happens(alloc, world, acts),
        Turn::Posted(bridges, cycles, pages) => are_written(world.pages(), bridges, cycles, pages),
        Turn::Replied(replies) => has_replies(world, replies),
    }
}

/// Returns whether all turns go as expected.
fn all_go_so(alloc: Global, world: &mut World, turns: &[Turn]) -> bool {
    for turn in turns {
        if !goes_so(alloc, world, turn) {
            return false;
        }
    }
    true
}

/// Returns whether a world of a plan passes a trial.
fn passes(alloc: Global, plan: &Plan, offers: &[Offer], trial: &Trial) -> bool {
    match begin(alloc, plan, offers, &[], trial.0) {
        Some(mut world) => all_go_so(alloc, &mut world, trial.1),
        None => false,
    }
}

/// Returns whether worlds of a plan pass trials.
fn pass_on(alloc: Global, plan: &Plan, offers: &[Offer], trials: &[Trial]) -> bool {
    for trial in trials {
        if !passes(alloc, plan, offers, trial) {
            return false;
        }
    }
    true
}

/// Returns whether they do over the domain of a text, with these offers.
fn pass(alloc: Global, text: &str, offering: &[Offering], trials: &[Trial]) -> bool {
    let Ok(offers) = offers_of(alloc, offering) else {
        return false;
    };
    match plan_of(alloc, text) {
        Some(plan) => pass_on(alloc, &plan, offers.as_slice(), trials),
        None => false,
    }
}

#[test]
fn what_is_in_turn_is_done_and_what_is_out_of_turn_changes_nothing(rt: HostRuntime) {
    assert!(rt; pass(rt.alloc(), one_link(), &[], ON_ONE_LINK));
    assert!(rt; pass(rt.alloc(), line(), &[(0, 0, "x", 64)], ON_LINE));
}
