//! A frame on its way to a listener.
ghost use Rattle.std.specs.Prelude.{◌≡◌};
ghost use Rattle.cqf_program_runs.specs.Deliveries.{arrival_at_listener, end_of_journey, fate_of, latency_of};

use cqf_model::Reason;
use cqf_units::{Name, Nanos};

/// What becomes of an offered frame.
#[derive(Clone, Copy, Debug, PartialEq, Eq)]
pub enum Fate {
    /// It is whole at its listener, within its deadline if it has one.
    Delivered,
    /// It is whole there, after its deadline.
    Late,
    /// It doesn't start on its last link within the cycles of the run.
    UnderWay,
    /// It is dropped at its edge bridge.
    Dropped(Reason),
}

/// A frame's passage to a listener.
#[derive(Debug, Drop)]
pub struct Journey {
    /// The name of the listener's station.
    pub listener: Name,
    /// The instant at which the frame is whole there, if that is within the run.
    pub whole: Option<Nanos>,
    /// The longest time that it may take from its offer, in nanoseconds, if it has a deadline.
    pub deadline: Option<u32>,
}

/// What an offered frame does.
#[derive(Debug, Drop)]
pub enum Passage {
    /// It is dropped at its edge bridge.
    Dropped(Reason),
    /// It goes to a listener.
    Goes(Journey),
}

/// An offered frame on its path to one of its listeners, or its drop.
#[derive(Debug, Drop)]
pub struct Delivery {
    /// The offer's number among the offers, from 1.
    pub frame: u32,
    /// The name of the stream that it claims.
    pub stream: Name,
    /// Its size from the destination address to the FCS, in octets.
    pub octets: u32,
    /// The instant of its offer.
    pub at: Nanos,
    /// The name of the bridge at which it is offered.
    pub bridge: Name,
    pub passage: Passage,
}

/// Returns how long a frame takes from its offer until it is whole, in nanoseconds.
pub fn latency(at: Nanos, whole: Nanos) -> u64
    ensures { result ≡ latency_of at.0 whole }
{
    whole.0.saturating_sub(at.0)
}

/// Returns whether a frame that is whole at an instant is delivered or late.
fn arrival(at: Nanos, whole: Nanos, deadline: Option<u32>) -> Fate
    ensures { result ≡ arrival_at_listener at.0 whole deadline }
{
    match deadline {
        Some(deadline) => {
            if u64::from(deadline) < latency(at, whole) {
                Fate::Late
            } else {
                Fate::Delivered
            }
        }
        None => Fate::Delivered,
    }
}

/// Returns what becomes of a frame that goes to a listener.
fn end_of_journey(at: Nanos, journey: &Journey) -> Fate
    ensures { result ≡ end_of_journey at.0 journey.now.whole journey.now.deadline }
{
    match journey.whole {
        Some(whole) => arrival(at, whole, journey.deadline),
        None => Fate::UnderWay,
    }
}

impl Delivery {
    /// Returns what becomes of the frame on its path to this listener.
    pub fn fate(&self) -> Fate
        ensures { result ≡ fate_of self.now }
    {
        match &self.passage {
            Passage::Dropped(reason) => Fate::Dropped(*reason),
            Passage::Goes(journey) => end_of_journey(self.at, journey),
        }
    }
}
