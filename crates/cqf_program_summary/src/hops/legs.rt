//! A start or a drop of a frame in a book.
ghost use Rattle.std.specs.Prelude.{◌≡◌, AllPairs, vec_capacity};
ghost use Rattle.cqf_program_summary.specs.Hops.Legs.{AreApart, AreByFrame, frame_of, instant_of, link_of};

use cqf_model::{Dropped, Started};

/// A start or a drop of a stream's frame in a book.
#[derive(Clone, Copy, Debug, PartialEq, Eq)]
pub enum Leg {
    /// It starts on a link.
    Started(Started),
    /// It is dropped at its edge bridge.
    Dropped(Dropped),
}

/// Returns the key by which legs are sorted: the frame, the instant of its start, and the link. For a drop, the last
/// two are 0.
fn key_of(leg: &Leg) -> (u32, u64, u16)
    ensures { result ≡ (frame_of leg.now, instant_of leg.now, link_of leg.now) }
{
    match leg {
        Leg::Started(started) => (started.frame, started.start.0, started.link),
        Leg::Dropped(dropped) => (dropped.frame, 0, 0),
    }
}

impl Leg {
    /// Returns the number of the frame.
    pub(crate) fn frame(&self) -> u32
        ensures { result ≡ frame_of self.now }
    {
        match self {
            Leg::Started(started) => started.frame,
            Leg::Dropped(dropped) => dropped.frame,
        }
    }
}

/// Sorts legs by frame, then instant, then link. No two are of one frame at one instant on one link. Allocates no
/// memory.
pub(crate) fn sort_legs(legs: &mut Vec<Leg>)
    requires { AllPairs AreApart legs.old.items }
    ensures order { AreByFrame legs.old.items legs.new.items }
    ensures capacity { vec_capacity legs.new ≡ vec_capacity legs.old }
{
    legs.sort_unstable_by_key(|leg| key_of(leg));
}
