//! A stream's passage to its edge bridge.
ghost use Rattle.std.specs.Prelude.{◌≡◌, ◌+◌, ◌*◌, ◌≤◌, ◌^◌, None};
ghost use Rattle.cqf_traffic.specs.Keys.{bound_of};
ghost use Rattle.cqf_access.specs.Arriving.{travel_time};
ghost use Rattle.cqf_access.specs.Bounding.{link_of};
ghost use Rattle.cqf_edge.specs.Edge.{IsPassage, IsWritten, closer_word, delays_of, grid_word, left_after, left_by, longest_wait_on, steps_on};
ghost use Rattle.cqf_edge.specs.Edge.{times_by, times_on, word_from, word_on};
ghost use Rattle.cqf_edge.specs.Uses.{time_in};

use crate::uses::{AccessBound, Handed};
use cqf_access::{Delays, edge_jitter, edge_offset, grid_jitter};
use cqf_network::TalkerLink;
use cqf_traffic::{Traffic, TrafficKey};
use cqf_units::{Nanos, Octets, Rate, slot, time_of};

/// The least and the greatest time, in nanoseconds, from the hand-over of a frame to its talker's access link until it is whole at its edge
/// bridge.
#[derive(Clone, Copy, Debug, PartialEq, Eq)]
pub struct AccessTimes {
    pub least: u32,
    pub most: u32,
}

/// A stream's passage by its talker's access link: the link, what the stream hands to it, and the link's bound.
#[derive(Clone, Copy, Debug)]
pub struct Passage {
    pub link: TalkerLink,
    pub handed: Handed,
    pub bound: AccessBound,
}

/// Returns the time, in nanoseconds, from the hand-over of a frame that doesn't wait until it is whole, given the link's delay.
fn travel_time_on(rate: Rate, delay: u32, octets: u32) -> u64
    ensures value { result ≡ travel_time (link_of rate None) delay octets }
    ensures short { result ≤ 800 * (octets + 8) + delay }
{
    time_of(u64::from(octets) + 8, rate) + u64::from(delay)
}

impl Passage {
    /// Returns the time of the bound, in nanoseconds, or 0 if there is none.
    fn time(&self) -> Nanos
        ensures { result.0 ≡ time_in self.now.bound }
    {
        match self.bound {
            AccessBound::Within(time) => time,
            AccessBound::Idle | AccessBound::Full => Nanos(0),
        }
    }

    /// Returns the delays of the link.
    fn delays(&self) -> Delays
        ensures { result ≡ delays_of self.now.link }
    {
        Delays {
            least: Nanos(u64::from(self.link.least)),
            most: Nanos(u64::from(self.link.delay)),
        }
    }

    /// Returns the longest wait of the stream's frames, in nanoseconds.
    fn longest_wait(&self, traffic: Traffic) -> u64
        requires { time_in self.now.bound ≤ 2 ^ 32 }
        ensures value { result ≡ longest_wait_on self.now traffic }
        ensures short { result ≤ time_in self.now.bound }
    {
        let taken = slot(traffic.size(), self.link.rate);
        self.time().0.saturating_sub(taken)
    }

    /// Returns the least and the greatest time of the stream's frames.
    fn times_of(&self, traffic: Traffic) -> AccessTimes
        requires { IsPassage self.now }
        ensures value { result ≡ times_on self.now traffic }
        ensures ordered { result.least ≤ result.most }
    {
        let rate = self.link.rate;
        let longest = travel_time_on(rate, self.link.delay, self.handed.octets);
        AccessTimes {
            least: travel_time_on(rate, self.link.least, self.handed.shortest) as u32,
            most: (longest + self.longest_wait(traffic)) as u32,
        }
    }

    /// Returns the least and the greatest time of the stream's frames, or `None` if its talker promises nothing.
    pub(crate) fn times(&self) -> Option<AccessTimes>
        requires { IsPassage self.now }
        ensures { result ≡ times_by self.now }
    {
        match self.handed.traffic {
            Some(traffic) => Some(self.times_of(traffic)),
            None => None,
        }
    }

    /// Returns what is left of a deadline at the edge bridge. If the times of the stream's frames aren't known, its deadline begins there.
    pub(crate) fn left_of(&self, deadline: Option<u32>) -> Option<u32>
        requires { IsPassage self.now }
        ensures { result ≡ left_by (times_by self.now) deadline }
    {
        let Some(times) = self.times() else {
            return deadline;
        };
        match deadline {
            Some(deadline) => Some(times.left_after(deadline)),
            None => None,
        }
    }

    /// Returns the jitter of the promise at the edge bridge.
    fn closer_jitter(&self, traffic: Traffic) -> Nanos
        requires passage { IsPassage self.now }
        requires written { IsWritten traffic }
        ensures value { result.0 ≡ (closer_word self.now traffic).jitter }
        ensures short { result.0 ≤ bound_of TrafficKey.Jitter }
    {
        let shortest = Octets(self.handed.shortest);
        edge_jitter(
            self.link.rate,
            self.delays(),
            self.time(),
            shortest,
            traffic,
        )
    }

    /// Returns the jitter on the stream's grid at the edge bridge. It includes the whole longest wait.
    fn grid_jitter(&self, traffic: Traffic) -> Nanos
        requires passage { IsPassage self.now }
        requires written { IsWritten traffic }
        ensures value { result.0 ≡ (grid_word self.now traffic).jitter }
        ensures short { result.0 ≤ bound_of TrafficKey.Jitter }
    {
        let shortest = Octets(self.handed.shortest);
        grid_jitter(
            self.link.rate,
            self.delays(),
            self.time(),
            shortest,
            traffic,
        )
    }

    /// Returns the promise at the edge bridge with this jitter.
    fn word_from(&self, traffic: Traffic, jitter: Nanos) -> Traffic
        requires passage { IsPassage self.now }
        requires written { IsWritten traffic }
        requires short { jitter.0 ≤ bound_of TrafficKey.Jitter }
        ensures { result ≡ word_from self.now traffic jitter.0 }
    {
        let shortest = Octets(self.handed.shortest);
        let offset = edge_offset(self.link.rate, self.delays(), shortest, traffic);
        traffic.delayed_by(jitter, offset)
    }

    /// Returns the stream's promise at the edge bridge.
    pub(crate) fn word(&self) -> Option<Traffic>
        requires { IsPassage self.now }
        ensures { result ≡ word_on self.now }
    {
        match self.handed.traffic {
            Some(traffic) => {
                let jitter = self.closer_jitter(traffic);
                Some(self.word_from(traffic, jitter))
            }
            None => None,
        }
    }

    /// Returns the promise at the edge bridge of a stream whose frames have to come in their cycles. Its jitter is the one on the grid.
    pub(crate) fn word_in_step(&self) -> Option<Traffic>
        requires { IsPassage self.now }
        ensures { result ≡ steps_on self.now }
    {
        match self.handed.traffic {
            Some(traffic) => {
                let jitter = self.grid_jitter(traffic);
                Some(self.word_from(traffic, jitter))
            }
            None => None,
        }
    }
}

impl AccessTimes {
    /// Returns what is left of a deadline at the edge bridge, in nanoseconds, or 0 if the link can take as long.
    fn left_after(self, deadline: u32) -> u32
        ensures { result ≡ left_after self deadline }
    {
        deadline.saturating_sub(self.most)
    }
}
