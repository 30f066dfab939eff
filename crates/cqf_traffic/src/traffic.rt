//! A talker's promise, as its stream's table says it.
ghost use Rattle.std.specs.Prelude.{◌≡◌, ◌≤◌, option_map};
ghost use Rattle.toml.specs.View.{table_view, view};
ghost use Rattle.cqf_laws_timing.specs.Traffic.{intervals_in, needed};
ghost use Rattle.cqf_topology.specs.Fields.{number_from};
ghost use Rattle.cqf_traffic.specs.TrafficText.{delayed_by, has_traffic, number_at, numbers_from, promise_of, traffic_from, value_at};
ghost use Rattle.cqf_traffic.specs.Keys.{bound_of, least_of, most_of};

use crate::keys::{TRAFFIC_KEYS, TrafficKey};
use cqf_units::{Nanos, Octets, counted};
use std::marker::Model;
use toml::{Table, Value};

/// What a talker promises of a stream (after IEEE Std 802.1Q-2018, 46.2.3.5): the most frames in each interval, the most octets of a frame,
/// and how late a frame can be at its edge bridge compared with the regular grid. It also has the instant at which the stream's offers
/// begin, which isn't part of the promise. Each number is in the range of its key.
#[derive(Clone, Copy, Debug)]
pub struct Traffic {
    interval: u32,
    frames: u32,
    size: u32,
    jitter: u32,
    offset: u32,
}

impl Model for Traffic {
    ghost use Rattle.cqf_traffic.specs.TrafficText.{TrafficText, IsTrafficText};

    ghost Value = { TrafficText };

    ghost view = { λ t. record { interval = t.interval; frames = t.frames; size = t.size; jitter = t.jitter; offset = t.offset } };

    ghost invariant = { λ t. IsTrafficText (record { interval = t.interval; frames = t.frames; size = t.size; jitter = t.jitter; offset = t.offset }) };

    ghost inverse = { λ v. record { interval = v.interval; frames = v.frames; size = v.size; jitter = v.jitter; offset = v.offset } };
}

impl Traffic {
    ghost use Rattle.cqf_traffic.specs.TrafficText.{IsTrafficText};

    /// Does nothing. It gives a proof what was checked when the traffic was read: each number is in its range.
    pub fn know(self)
        ensures range { IsTrafficText self }
    {
        // the use of a field makes the invariant known
        let _ = self.interval;
    }

    /// Returns the length of an interval, from 1 to 1,000,000,000 ns.
    pub fn interval(self) -> Nanos
        ensures value { result.0 ≡ self.interval }
        ensures range { IsTrafficText self }
    {
        Nanos(u64::from(self.interval))
    }

    /// Returns the most frames in each interval, from 1 to 1,000.
    pub fn frames(self) -> u32
        ensures value { result ≡ self.frames }
        ensures range { IsTrafficText self }
    {
        self.frames
    }

    /// Returns the most octets of a frame, from 64 to 1,522.
    pub fn size(self) -> Octets
        ensures value { result.0 ≡ self.size }
        ensures range { IsTrafficText self }
    {
        Octets(self.size)
    }

    /// Returns how late a frame may be: at the hand-over up to 1,000,000,000 ns, at the edge bridge up to 4,000,000,000 ns.
    pub fn jitter(self) -> Nanos
        ensures value { result.0 ≡ self.jitter }
        ensures range { IsTrafficText self }
    {
        Nanos(u64::from(self.jitter))
    }

    /// Returns the instant at which the stream's offers begin: at the hand-over up to 1,000,000,000 ns, at the edge bridge up to
    /// 2,000,000,000 ns.
    pub fn offset(self) -> Nanos
        ensures value { result.0 ≡ self.offset }
        ensures range { IsTrafficText self }
    {
        Nanos(u64::from(self.offset))
    }

    /// Returns the same promise, with offers that begin at another instant, up to 1,000,000,000 ns.
    pub fn from_instant(self, offset: Nanos) -> Traffic
        requires { offset.0 ≤ most_of TrafficKey.Offset }
        ensures { result ≡ record { interval = self.interval; frames = self.frames; size = self.size; jitter = self.jitter; offset = offset.0 } }
    {
        Traffic {
            offset: offset.0 as u32,
            ..self
        }
    }

    /// Returns the same promise with another jitter, up to 4,000,000,000 ns, and with offers that begin at another instant, up to
    /// 2,000,000,000 ns: the promise at the edge bridge, after the talker's access link.
    pub fn delayed_by(self, jitter: Nanos, offset: Nanos) -> Traffic
        requires jitter { jitter.0 ≤ bound_of TrafficKey.Jitter }
        requires offset { offset.0 ≤ bound_of TrafficKey.Offset }
        ensures { result ≡ delayed_by self jitter.0 offset.0 }
    {
        Traffic {
            jitter: jitter.0 as u32,
            offset: offset.0 as u32,
            ..self
        }
    }

    /// Returns the greatest number of intervals from which frames can come in one cycle, given the cycle time.
    fn intervals_in(self, cycle_time: Nanos) -> u128
        ensures value { result ≡ intervals_in cycle_time.0 (promise_of self) }
    {
        let interval = u128::from(self.interval);
        (u128::from(cycle_time.0) + u128::from(self.jitter) + interval - 1) / interval
    }

    /// Returns what a cycle needs of the stream, in octets, given the gate overhead and the cycle time: the octets that gates count of the most
    /// frames that it can hold, each of the greatest size.
    pub fn needed(self, overhead: u32, cycle_time: Nanos) -> u128
        ensures { result ≡ needed overhead cycle_time.0 (promise_of self) }
    {
        let intervals = self.intervals_in(cycle_time);
        let octets = counted(Octets(overhead), Octets(self.size)).0;
        intervals * u128::from(self.frames) * u128::from(octets)
    }
}

/// Returns the value at a key of a stream's table, or `None` if the table lacks the key.
pub(crate) fn value_at<'t>(table: &'t Table, key: TrafficKey) -> Option<&'t Value>
    ensures { option_map (λ v. view v.now) result ≡ value_at key (table_view table.now) }
{
    table.get(key.as_str())
}

/// Returns whether the table has a key of traffic.
pub(crate) fn has_traffic(table: &Table) -> bool
    ensures { result ≡ has_traffic (table_view table.now) }
{
    TRAFFIC_KEYS
        .iter()
        .any(|key| value_at(table, *key).is_some())
}

/// Returns the number that a value is, if it is allowed at the key.
fn number_of(value: &Value, key: TrafficKey) -> Option<u32>
    ensures { result ≡ number_from (least_of key) (most_of key) (view value.now) }
{
    let number = match value.as_integer() {
        Some(integer) => u32::try_from(integer).ok()?,
        None => return None,
    };
    if key.least() <= number && number <= key.most() {
        Some(number)
    } else {
        None
    }
}

/// Returns the number at a key, or the default if the key is absent. The error is the key, if it has another value or must be there.
fn number_at(table: &Table, key: TrafficKey) -> Result<u32, TrafficKey>
    ensures { result ≡ number_at key (table_view table.now) }
{
    let number = match value_at(table, key) {
        Some(value) => number_of(value, key),
        None => key.default(),
    };
    match number {
        Some(number) => Ok(number),
        None => Err(key),
    }
}

/// Returns the traffic of a stream's table that has traffic.
fn numbers_of(table: &Table) -> Result<Traffic, TrafficKey>
    ensures { result ≡ numbers_from (table_view table.now) }
{
    let interval = number_at(table, TrafficKey::Interval)?;
    let frames = number_at(table, TrafficKey::Frames)?;
    let size = number_at(table, TrafficKey::Size)?;
    let jitter = number_at(table, TrafficKey::Jitter)?;
    let offset = number_at(table, TrafficKey::Offset)?;
    Ok(Traffic {
        interval,
        frames,
        size,
        jitter,
        offset,
    })
}

/// Returns the traffic of a stream's table, or `None` if the table has no key of it. The keys are integers: `interval`, from 1 to
/// 1,000,000,000 ns; `frames`, from 1 to 1,000, by default 1; `size`, from 64 to 1,522 octets; `jitter` and `offset`, up to 1,000,000,000
/// ns, by default 0.
///
/// # Errors
/// The first of these keys, in this order, that has another value, or that must be there and is absent.
pub fn traffic_of(table: &Table) -> Result<Option<Traffic>, TrafficKey>
    ensures { result ≡ traffic_from (table_view table.now) }
{
    if !has_traffic(table) {
        return Ok(None);
    }
    match numbers_of(table) {
        Ok(traffic) => Ok(Some(traffic)),
        Err(key) => Err(key),
    }
}
