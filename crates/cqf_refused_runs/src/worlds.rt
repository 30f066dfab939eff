//! Worlds of the line, along which a frame goes.
ghost use Rattle.std.specs.Prelude.{◌≤◌, length};
ghost use Rattle.cqf_model.specs.Run.{AreOffers};

use cqf_admission::Command;
use cqf_book::Pages;
use cqf_compile::Plan;
use cqf_model::Offer;
use cqf_refused_values::{Reported, X, looked_at, mark, once, plan_of, twice, writes};
use cqf_test_fixtures::{admission_of, are_offers, line, offers_of, request};
use cqf_units::{Cycle, Memory};
use cqf_world::{Applied, Event, World};
use std::alloc::Global;

/// An event: seat 0 requests or withdraws the stream `x`, seat 1 closes a cycle, or something happens to a bridge or a
/// link.
#[derive(Clone, Copy)]
enum Act {
    Admit,
    Withdraw,
    Seal,
    Give(u16),
    Step(u16),
    Take(u16),
    Post(u16),
}

/// Returns the event.
fn event_of(alloc: Global, act: Act) -> Result<Event, Memory> {
    match act {
        Act::Admit => Ok(Event::Call(0, Command::Admit(request(alloc, &X)?))),
        Act::Withdraw => Ok(Event::Call(0, Command::Withdraw(String::from_str(alloc, "x")?))),
        Act::Seal => Ok(Event::Seal(1)),
        Act::Give(bridge) => Ok(Event::Give(bridge)),
        Act::Step(bridge) => Ok(Event::Step(bridge)),
        Act::Take(link) => Ok(Event::Take(link)),
        Act::Post(bridge) => Ok(Event::Post(bridge)),
    }
}

/// Whether an event has this result.
fn comes_to(alloc: Global, world: &mut World, act: Act, wanted: Applied) -> bool {
    match event_of(alloc, act) {
        Ok(event) => world.apply(event) == Ok(wanted),
        Err(_) => false,
    }
}

/// Whether each of these events is done.
fn all_happen(alloc: Global, world: &mut World, acts: &[Act]) -> bool {
    for act in acts {
        if !comes_to(alloc, world, *act, Applied::Done) {
            return false;
        }
    }
    true
}

/// Whether each event of these parts is done.
fn all_parts_happen(alloc: Global, world: &mut World, parts: &[&[Act]]) -> bool {
    for acts in parts {
        if !all_happen(alloc, world, acts) {
            return false;
        }
    }
    true
}

/// Whether none of these events is enabled.
fn none_happens(alloc: Global, world: &mut World, acts: &[Act]) -> bool {
    for act in acts {
        if !comes_to(alloc, world, *act, Applied::NotEnabled) {
            return false;
        }
    }
    true
}

/// An event of each kind.
const ALL: &[Act] = &[
    Act::Admit,
    Act::Withdraw,
    Act::Seal,
    Act::Give(0),
    Act::Give(1),
    Act::Step(0),
    Act::Step(1),
    Act::Take(0),
    Act::Post(0),
    Act::Post(1),
];

/// Returns a world of three cycles over a plan, if it may be made, that begins without a call.
fn world_of<'a>(alloc: Global, plan: &Plan, offers: &'a [Offer]) -> Option<World<'a>> {
    if offers.len() > 1_000_000 || !are_offers(plan.domain(), offers) {
        return None;
    }
    let admission = admission_of(alloc, plan.domain(), &[])?;
    match World::new(alloc, plan, admission, offers, &[], 3) {
        Ok(world) => Some(world),
        Err(_) => None,
    }
}

/// Returns how many pages of the first three cycles of three bridges were posted, and the number of their starts.
fn posted(pages: &Pages) -> (u32, usize) {
    let mut count = 0u32;
    let mut starts = 0usize;
    for bridge in 0..3 {
        for cycle in 0..3 {
            if let Some(page) = pages.page(bridge, Cycle(cycle)) {
                count = count.saturating_add(1);
                starts = starts.saturating_add(page.starts.len());
            }
        }
    }
    (count, starts)
}

/// The state of a world: its history, how many pages were posted, and the number of their starts.
#[derive(Clone, Copy)]
struct Standing {
    history: &'static str,
    pages: u32,
    starts: usize,
}

/// Whether it is in this state.
fn stands(alloc: Global, world: &World, standing: &Standing) -> bool {
    writes(alloc, world.admission().history(), standing.history)
        && posted(world.pages()) == (standing.pages, standing.starts)
}

/// What happens in a world, part by part; the event that is tried; and the states of the world before and after it.
#[derive(Clone, Copy)]
struct Trial {
    parts: &'static [&'static [Act]],
    act: Act,
    before: Standing,
    following: Standing,
}

/// Tries the event. If that fails, the world enables no event any more and is unchanged, and the event is tried in a
/// twin.
fn tried(
    alloc: Global,
    world: &mut World,
    twin: &mut World,
    event: Event,
    trial: &Trial,
) -> Reported {
    mark(alloc);
    let first = world.apply(event);
    mark(alloc);
    if first.is_ok() {
        let is_done = first == Ok(Applied::Done);
        return once(is_done && stands(alloc, world, &trial.following));
    }
    let is_left = none_happens(alloc, world, ALL) && stands(alloc, world, &trial.before);
    let is_done = comes_to(alloc, twin, trial.act, Applied::Done);
    twice(is_left, is_done && stands(alloc, twin, &trial.following))
}

/// Tries the event after those before it.
fn tried_after(
    alloc: Global,
    world: &mut World,
    twin: &mut World,
    trial: &Trial,
) -> Option<Reported> {
    if !all_parts_happen(alloc, world, trial.parts) || !all_parts_happen(alloc, twin, trial.parts) {
        return None;
    }
    let event = event_of(alloc, trial.act).ok()?;
    Some(tried(alloc, world, twin, event, trial))
}

/// Tries the same in a world of a plan.
fn tried_over(alloc: Global, plan: &Plan, offers: &[Offer], trial: &Trial) -> Option<Reported> {
    let mut world = world_of(alloc, plan, offers)?;
    let mut twin = world_of(alloc, plan, offers)?;
    tried_after(alloc, &mut world, &mut twin, trial)
}

/// Tries the same over the line. A frame is offered at the first bridge, and one at the second, which drops it.
fn reported(alloc: Global, trial: &Trial) -> Option<Reported> {
    let offers = offers_of(alloc, &[(0, 0, "x", 64), (125_000, 1, "x", 64)]).ok()?;
    let plan = plan_of(alloc, line())?;
    tried_over(alloc, &plan, offers.as_slice(), trial)
}

/// Nothing has happened.
const NOTHING: Standing = Standing {
    history: "",
    pages: 0,
    starts: 0,
};

/// The stream was granted, and three cycles were closed.
const GRANTED: Standing = Standing {
    history: "0 admit x accepted 0 0\n",
    ..NOTHING
};

const CLOSED: Standing = Standing {
    history: "0 admit x accepted 0 0\n1 seal\n1 seal\n1 seal\n",
    ..NOTHING
};

/// The calls.
const CALLS: &[Act] = &[Act::Admit, Act::Seal, Act::Seal, Act::Seal];

pub(crate) fn request_reported(alloc: Global) -> Option<Reported> {
    let trial = Trial {
        parts: &[],
        act: Act::Admit,
        before: NOTHING,
        following: GRANTED,
    };
    reported(alloc, &trial)
}

pub(crate) fn withdrawal_reported(alloc: Global) -> Option<Reported> {
    let trial = Trial {
        parts: &[&[Act::Admit]],
        act: Act::Withdraw,
        before: GRANTED,
        following: Standing {
            history: "0 admit x accepted 0 0\n0 withdraw x accepted 0 0\n",
            ..NOTHING
        },
    };
    reported(alloc, &trial)
}

/// A cycle was closed with it.
const SEALED: Standing = Standing {
    history: "0 admit x accepted 0 0\n1 seal\n",
    ..NOTHING
};

pub(crate) fn seal_reported(alloc: Global) -> Option<Reported> {
    let trial = Trial {
        parts: &[&[Act::Admit]],
        act: Act::Seal,
        before: GRANTED,
        following: SEALED,
    };
    reported(alloc, &trial)
}

pub(crate) fn give_reported(alloc: Global) -> Option<Reported> {
    let trial = Trial {
        parts: &[CALLS],
        act: Act::Give(0),
        before: CLOSED,
        following: CLOSED,
    };
    reported(alloc, &trial)
}

/// The first bridge goes through cycle 0, and receives the table of cycle 1.
const FIRST_GOES: &[Act] = &[Act::Give(0), Act::Step(0), Act::Post(0), Act::Give(0)];

/// Its page has no start.
const FIRST_POSTED: Standing = Standing { pages: 1, ..CLOSED };

pub(crate) fn step_reported(alloc: Global) -> Option<Reported> {
    let trial = Trial {
        parts: &[CALLS, FIRST_GOES],
        act: Act::Step(0),
        before: FIRST_POSTED,
        following: FIRST_POSTED,
    };
    reported(alloc, &trial)
}

/// The second one goes through it, with what the first one sent, and sends cycle 1.
const SECOND_GOES: &[Act] = &[
    Act::Give(1),
    Act::Step(1),
    Act::Take(0),
    Act::Post(1),
    Act::Give(1),
    Act::Step(1),
];

/// Neither page has a start.
const BOTH_POSTED: Standing = Standing { pages: 2, ..CLOSED };

pub(crate) fn take_reported(alloc: Global) -> Option<Reported> {
    let trial = Trial {
        parts: &[CALLS, FIRST_GOES, &[Act::Step(0)], SECOND_GOES],
        act: Act::Take(0),
        before: BOTH_POSTED,
        following: BOTH_POSTED,
    };
    reported(alloc, &trial)
}

/// The first bridge's page of cycle 1 has a start.
const ONE_START: Standing = Standing {
    pages: 3,
    starts: 1,
    ..CLOSED
};

pub(crate) fn post_reported(alloc: Global) -> Option<Reported> {
    let trial = Trial {
        parts: &[
            CALLS,
            FIRST_GOES,
            &[Act::Step(0), Act::Post(0)],
            SECOND_GOES,
            &[Act::Take(0)],
        ],
        act: Act::Post(1),
        before: ONE_START,
        following: Standing {
            pages: 4,
            ..ONE_START
        },
    };
    reported(alloc, &trial)
}

/// Whether a new world goes through the calls.
fn goes_on(alloc: Global, world: &mut World) -> bool {
    stands(alloc, world, &GRANTED)
        && all_happen(
            alloc,
            world,
            &[Act::Seal, Act::Give(0), Act::Step(0), Act::Post(0)],
        )
}

/// Whether a world was made that goes through the calls.
fn is_new(alloc: Global, made: Result<World<'_>, Memory>) -> bool {
    match made {
        Ok(mut world) => goes_on(alloc, &mut world),
        Err(_) => false,
    }
}

/// Tries to make a world of an admission; if that fails, makes it of its twin.
fn made(alloc: Global, plan: &Plan, offers: &[Offer]) -> Option<Reported>
    requires offers { AreOffers plan.now offers.now }
    requires few_offers { length offers.now ≤ 1000000 }
{
    let admission = admission_of(alloc, plan.domain(), &[X])?;
    let twin = admission_of(alloc, plan.domain(), &[X])?;
    mark(alloc);
    let first = World::new(alloc, plan, admission, offers, &[], 3);
    mark(alloc);
    if first.is_ok() {
        return Some(once(is_new(alloc, first)));
    }
    let again = World::new(alloc, plan, twin, offers, &[], 3);
    Some(twice(true, is_new(alloc, again)))
}

/// Tries the same if these may be its offers.
fn made_with(alloc: Global, plan: &Plan, offers: &[Offer]) -> Option<Reported> {
    if offers.len() > 1_000_000 || !are_offers(plan.domain(), offers) {
        return None;
    }
    made(alloc, plan, offers)
}

pub(crate) fn new_reported(alloc: Global) -> Option<Reported> {
    let offers = offers_of(alloc, &[(0, 0, "x", 64), (125_000, 1, "x", 64)]).ok()?;
    let plan = plan_of(alloc, line())?;
    made_with(alloc, &plan, offers.as_slice())
}

/// Tries an event that isn't enabled, and observes the world.
fn left(alloc: Global, world: &mut World) -> Option<Reported> {
    let event = event_of(alloc, Act::Step(0)).ok()?;
    Some(looked_at!(
        alloc,
        world.apply(event) == Ok(Applied::NotEnabled)
            && world.admission().history().len() == 1
            && posted(world.pages()) == (0, 0)
    ))
}

/// Tries the same in a world of a plan.
fn left_over(alloc: Global, plan: &Plan) -> Option<Reported> {
    let mut world = world_of(alloc, plan, &[])?;
    if all_happen(alloc, &mut world, &[Act::Admit]) {
        left(alloc, &mut world)
    } else {
        None
    }
}

pub(crate) fn not_enabled_reported(alloc: Global) -> Option<Reported> {
    let plan = plan_of(alloc, line())?;
    left_over(alloc, &plan)
}
