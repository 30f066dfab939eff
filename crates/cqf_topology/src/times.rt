//! What a link's table says besides its ends.
ghost use Rattle.std.specs.Prelude.{◌≡◌};
ghost use Rattle.toml.specs.View.{items_view, table_view, view};
ghost use Rattle.cqf_topology.specs.Fields.{read_at};
ghost use Rattle.cqf_topology.specs.LinkTimes.{delays_from, delays_of_two, guard_within, has_long_delay, has_long_gap, has_long_guard, has_long_sync};
ghost use Rattle.cqf_topology.specs.LinkTimes.{rate_from, rate_of, times_read};

use crate::fields::number_of;
use crate::{Key, TomlFault, number_if, value_at};
use cqf_model::LONGEST_CYCLE;
use cqf_units::{Rate, time_of};
use toml::{Table, Value};

/// What a link's table says besides its ends: the rate, and times in nanoseconds.
#[derive(Clone, Copy, Debug, PartialEq, Eq)]
pub struct LinkTimes {
    pub rate: Rate,
    /// The greatest delay.
    pub delay: u32,
    /// The least delay, at most the greatest.
    pub least: u32,
    /// The link's own guard band; `None` if it has the domain's.
    pub guard: Option<u32>,
}

impl LinkTimes {
    /// Returns the link's guard band, in nanoseconds: its own if it has one, otherwise the domain's, `guard`.
    pub fn guard_within(self, guard: u32) -> u32
        ensures { result ≡ guard_within guard self }
    {
        self.guard.unwrap_or(guard)
    }

    /// Returns whether the link's guard band isn't shorter than the cycle.
    pub fn has_long_guard(self, cycle_time: u32, guard: u32) -> bool
        ensures { result ≡ has_long_guard cycle_time guard self }
    {
        cycle_time <= self.guard_within(guard)
    }

    /// Returns whether the greatest delay plus the distance of clocks isn't less than the link's guard band.
    pub fn has_long_delay(self, sync: u32, guard: u32) -> bool
        ensures { result ≡ has_long_delay sync guard self }
    {
        u64::from(self.guard_within(guard)) <= u64::from(self.delay) + u64::from(sync)
    }

    /// Returns whether the gap after a frame takes longer than the link's guard band.
    pub fn has_long_gap(self, guard: u32) -> bool
        ensures { result ≡ has_long_gap guard self }
    {
        u64::from(self.guard_within(guard)) < time_of(12, self.rate)
    }

    /// Returns whether clocks can be further apart than a shortest frame, with its preamble, and the least delay take together.
    pub fn has_long_sync(self, sync: u32) -> bool
        ensures { result ≡ has_long_sync sync self }
    {
        time_of(72, self.rate) + u64::from(self.least) < u64::from(sync)
    }
}

/// Returns the rate with this number of Mb/s, or `None` if no rate has it.
fn rate_of_number(number: i64) -> Option<Rate>
    ensures { result ≡ rate_of number }
{
    match number {
        10 => Some(Rate::Mb10),
        100 => Some(Rate::Mb100),
        1000 => Some(Rate::Mb1000),
        2500 => Some(Rate::Mb2500),
        5000 => Some(Rate::Mb5000),
        10000 => Some(Rate::Mb10000),
        25000 => Some(Rate::Mb25000),
        40000 => Some(Rate::Mb40000),
        100000 => Some(Rate::Mb100000),
        _ => None,
    }
}

/// Returns the rate that a value means.
fn rate_of_value(value: &Value) -> Option<Rate>
    ensures { result ≡ rate_from (view value.now) }
{
    match value.as_integer() {
        Some(number) => rate_of_number(number),
        None => None,
    }
}

/// Returns the rate of a link's table.
///
/// # Errors
/// `BadValue` with `rate` unless its value is one of the integers 10, 100, 1000, 2500, 5000, 10000, 25000, 40000 and 100000.
fn rate_at(table: &Table) -> Result<Rate, TomlFault>
    ensures { result ≡ read_at Key.Rate rate_from (table_view table.now) }
{
    match value_at(table, Key::Rate).and_then(rate_of_value) {
        Some(rate) => Ok(rate),
        None => Err(TomlFault::BadValue(Key::Rate)),
    }
}

/// Returns the least and the greatest delay that an array of two values means.
fn delays_of_two(values: &[Value]) -> Option<(u32, u32)>
    ensures { result ≡ delays_of_two (items_view values.now) }
{
    match values {
        [first, second] => {
            let least = number_of(first, 0, LONGEST_CYCLE)?;
            let most = number_of(second, least, LONGEST_CYCLE)?;
            Some((least, most))
        }
        _ => None,
    }
}

/// Returns the least and the greatest delay that a value means: one number, which is both, or an array with the least delay first.
fn delays_of(value: &Value) -> Option<(u32, u32)>
    ensures { result ≡ delays_from (view value.now) }
{
    match value.as_array() {
        Some(values) => delays_of_two(values.as_slice()),
        None => {
            let delay = number_of(value, 0, LONGEST_CYCLE)?;
            Some((delay, delay))
        }
    }
}

/// Returns the least and the greatest delay of a link's table.
fn delays_at(table: &Table) -> Result<(u32, u32), TomlFault>
    ensures { result ≡ read_at Key.Delay delays_from (table_view table.now) }
{
    match value_at(table, Key::Delay).and_then(delays_of) {
        Some(delays) => Ok(delays),
        None => Err(TomlFault::BadValue(Key::Delay)),
    }
}

/// Returns what a link's table says besides its ends: `rate` in Mb/s; `delay`, an integer from 0 to 10,000,000, or an array of two such
/// integers, the least delay first; and `guard`, an integer from 1 to 10,000,000, if it is there.
///
/// # Errors
/// `BadValue` with the first of these keys that has another value, or that is missing although it is `rate` or `delay`.
pub fn times_at(table: &Table) -> Result<LinkTimes, TomlFault>
    ensures { result ≡ times_read (table_view table.now) }
{
    let rate = rate_at(table)?;
    let (least, delay) = delays_at(table)?;
    let guard = number_if(table, Key::Guard, 1, LONGEST_CYCLE)?;
    Ok(LinkTimes {
        rate,
        delay,
        least,
        guard,
    })
}
