//! Events, and a world's answers to them.
use cqf_admission::Command;
use cqf_test_fixtures::{Asked, request};
use cqf_units::Memory;
use cqf_world::{Applied, Event, World};
use std::alloc::Global;

/// An event: the stream `x` is admitted or withdrawn by seat 0, or a cycle is closed by seat 1; or an event at a bridge or a link.
#[derive(Clone, Copy)]
pub(crate) enum Act {
    Admit,
    Withdraw,
    Seal,
    Give(u16),
    Step(u16),
    Take(u16),
    Post(u16),
}

/// All bridges of the line go through a cycle at the same time.
pub(crate) const SIDE_BY_SIDE: &[Act] = &[
    Act::Give(0),
    Act::Give(1),
    Act::Give(2),
    Act::Step(0),
    Act::Step(1),
    Act::Step(2),
    Act::Take(0),
    Act::Take(1),
    Act::Post(0),
    Act::Post(1),
    Act::Post(2),
];

/// The stream `x` over the line.
const X: Asked = ("x", 1500, &[&["a", "b", "c", "s"]]);

/// Returns the event itself.
fn event_of(alloc: Global, act: Act) -> Result<Event, Memory> {
    match act {
        Act::Admit => Ok(Event::Call(0, Command::Admit(request(alloc, &X)?))),
        Act::Withdraw => Ok(Event::Call(0, Command::Withdraw(String::from_str(alloc, "x")?))),
        Act::Seal => Ok(Event::Seal(1)),
        Act::Give(bridge) => Ok(Event::Give(bridge)),
        Act::Step(bridge) => Ok(Event::Step(bridge)),
        Act::Take(link) => Ok(Event::Take(link)),
        Act::Post(bridge) => Ok(Event::Post(bridge)),
    }
}

/// Returns whether the event is done, or `None` if an allocation failed.
pub(crate) fn happens(alloc: Global, world: &mut World, act: Act) -> Option<bool> {
    let Ok(event) = event_of(alloc, act) else {
        return None;
    };
    match world.apply(event) {
        Ok(applied) => Some(applied == Applied::Done),
        Err(_) => None,
    }
}

/// Returns whether each of these events is done, one after the other.
pub(crate) fn all_happen(alloc: Global, world: &mut World, acts: &[Act]) -> bool {
    for act in acts {
        if happens(alloc, world, *act) != Some(true) {
            return false;
        }
    }
    true
}

/// Returns whether none of these events is enabled.
pub(crate) fn none_happens(alloc: Global, world: &mut World, acts: &[Act]) -> bool {
    for act in acts {
        if happens(alloc, world, *act) != Some(false) {
            return false;
        }
    }
    true
}
