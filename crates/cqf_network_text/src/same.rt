//! Compares TOML values. Unlike `==`, it distinguishes 0.0 from -0.0, and a NaN equals a NaN.
ghost use Rattle.std.specs.Prelude.{◌≡◌, true};
ghost use Rattle.toml.specs.View.{array_view, table_view, view};

use toml::value::{Date, Datetime, Offset, Time};
use toml::{Table, Value};

/// Returns whether two floats are the same value, with the same sign of a zero.
fn is_same_float(number: f64, other: f64) -> bool
    ensures { result ≡ true → number ≡ other }
{
    if number.is_nan() {
        return other.is_nan();
    }
    if other.is_nan() {
        return false;
    }
    number.to_bits() == other.to_bits()
}

/// Returns whether two dates are the same.
fn is_same_date(date: Date, other: Date) -> bool
    ensures { result ≡ true → date ≡ other }
{
    date.year == other.year && date.month == other.month && date.day == other.day
}

/// Returns whether two numbers are the same, or both are absent.
fn is_same_number(number: Option<u32>, other: Option<u32>) -> bool
    ensures { result ≡ true → number ≡ other }
{
    match number {
        Some(n) => match other {
            Some(m) => n == m,
            None => false,
        },
        None => other.is_none(),
    }
}

/// Returns whether two bytes are the same, or both are absent.
fn is_same_byte(number: Option<u8>, other: Option<u8>) -> bool
    ensures { result ≡ true → number ≡ other }
{
    match number {
        Some(n) => match other {
            Some(m) => n == m,
            None => false,
        },
        None => other.is_none(),
    }
}

/// Returns whether two times are the same.
fn is_same_time(time: Time, other: Time) -> bool
    ensures { result ≡ true → time ≡ other }
{
    let same_second = is_same_byte(time.second, other.second);
    let same_part = is_same_number(time.nanosecond, other.nanosecond);
    time.hour == other.hour && time.minute == other.minute && same_second && same_part
}

/// Returns whether two offsets are the same.
fn is_same_offset(offset: Offset, other: Offset) -> bool
    ensures { result ≡ true → offset ≡ other }
{
    match offset {
        Offset::Z => match other {
            Offset::Z => true,
            Offset::Custom { minutes: _ } => false,
        },
        Offset::Custom { minutes } => match other {
            Offset::Z => false,
            Offset::Custom { minutes: more } => minutes == more,
        },
    }
}

/// Returns whether two dates are the same, or both are absent.
fn are_same_dates(date: Option<Date>, other: Option<Date>) -> bool
    ensures { result ≡ true → date ≡ other }
{
    match date {
        Some(date) => match other {
            Some(other) => is_same_date(date, other),
            None => false,
        },
        None => other.is_none(),
    }
}

/// Returns whether two times are the same, or both are absent.
fn are_same_times(time: Option<Time>, other: Option<Time>) -> bool
    ensures { result ≡ true → time ≡ other }
{
    match time {
        Some(time) => match other {
            Some(other) => is_same_time(time, other),
            None => false,
        },
        None => other.is_none(),
    }
}

/// Returns whether two offsets are the same, or both are absent.
fn are_same_offsets(offset: Option<Offset>, other: Option<Offset>) -> bool
    ensures { result ≡ true → offset ≡ other }
{
    match offset {
        Some(offset) => match other {
            Some(other) => is_same_offset(offset, other),
            None => false,
        },
        None => other.is_none(),
    }
}

/// Returns whether two dates and times are the same.
fn is_same_instant(instant: Datetime, other: Datetime) -> bool
    ensures { result ≡ true → instant ≡ other }
{
    let same_date = are_same_dates(instant.date, other.date);
    let same_time = are_same_times(instant.time, other.time);
    let same_offset = are_same_offsets(instant.offset, other.offset);
    same_date && same_time && same_offset
}

/// Returns whether two values are the same.
#[cycle(same)]
fn is_same(value: &Value, other: &Value) -> bool
    ensures { result ≡ true → view value.now ≡ view other.now }
{
    match value {
        Value::String(text) => match other {
            Value::String(more) => text.as_str() == more.as_str(),
            _ => false,
        },
        Value::Integer(number) => match other {
            Value::Integer(more) => *number == *more,
            _ => false,
        },
        Value::Float(number) => match other {
            Value::Float(more) => is_same_float(*number, *more),
            _ => false,
        },
        Value::Boolean(word) => match other {
            Value::Boolean(more) => *word == *more,
            _ => false,
        },
        Value::Datetime(instant) => match other {
            Value::Datetime(more) => is_same_instant(*instant, *more),
            _ => false,
        },
        Value::Array(items) => match other {
            Value::Array(more) => are_same(items, more),
            _ => false,
        },
        Value::Table(table) => match other {
            Value::Table(more) => is_same_table(table, more),
            _ => false,
        },
    }
}

/// Returns whether two arrays have the same elements.
#[cycle(same)]
fn are_same(items: &Vec<Value>, others: &Vec<Value>) -> bool
    ensures { result ≡ true → array_view items.now ≡ array_view others.now }
{
    if items.len() != others.len() {
        return false;
    }
    let rest = others.as_slice();
    for index in 0..items.len() {
        if !is_same(&items[index], &rest[index]) {
            return false;
        }
    }
    true
}

/// Returns whether two tables have the same keys, with the same values.
#[cycle(same)]
pub(crate) fn is_same_table(table: &Table, other: &Table) -> bool
    ensures { result ≡ true → table_view table.now ≡ table_view other.now }
{
    let mut rest = other.iter();
    for (key, value) in table.iter() {
        match rest.next() {
            Some((name, more)) => {
                if key.as_str() != name.as_str() || !is_same(value, more) {
                    return false;
                }
            }
            None => return false,
        }
    }
    rest.next().is_none()
}
