//! The values at the keys of a table.
ghost use Rattle.std.specs.Prelude.{◌≡◌, option_map, ok_or};
ghost use Rattle.std.specs.Result.{result_map_both};
ghost use Rattle.toml.specs.View.{view, table_view, items_view};
ghost use Rattle.toml.specs.Data.{as_array};
ghost use Rattle.cqf_topology.specs.Fields.{Gives, value_at, names_at, names_from, number_or, number_if, read_at, number_from, name_from, are_tables};

use crate::{Key, TomlFault};
use cqf_units::Name;
use std::alloc::Global;
use toml::{Table, Value};

/// Returns the value at a key of the table, or `None` if the table lacks the key.
pub fn value_at<'a>(table: &'a Table, key: Key) -> Option<&'a Value>
    ensures { option_map (λ v. view v.now) result ≡ value_at key (table_view table.now) }
{
    table.get(key.as_str())
}

/// Returns the number that a value is, if it is an integer from `least` to `most`.
pub(crate) fn number_of(value: &Value, least: u32, most: u32) -> Option<u32>
    ensures { result ≡ number_from least most (view value.now) }
{
    let number = match value.as_integer() {
        Some(integer) => u32::try_from(integer).ok()?,
        None => return None,
    };
    if least <= number && number <= most {
        Some(number)
    } else {
        None
    }
}

/// Returns the number at a key, an integer from `least` to `most`.
///
/// # Errors
/// `BadValue` with the key if it is missing or has another value.
pub fn number_at(table: &Table, key: Key, least: u32, most: u32) -> Result<u32, TomlFault>
    ensures { result ≡ read_at key (number_from least most) (table_view table.now) }
{
    match value_at(table, key).and_then(|value| number_of(value, least, most)) {
        Some(number) => Ok(number),
        None => Err(TomlFault::BadValue(key)),
    }
}

/// Returns the number at a key, an integer from 0 to 4,294,967,295, or `default` if the table lacks the key.
///
/// # Errors
/// `BadValue` with the key if it has another value.
pub fn number_or(table: &Table, key: Key, default: u32) -> Result<u32, TomlFault>
    ensures { result ≡ number_or key default (table_view table.now) }
{
    if value_at(table, key).is_none() {
        return Ok(default);
    }
    number_at(table, key, 0, u32::MAX)
}

/// Returns the number at a key, an integer from `least` to `most`, or `None` if the table lacks the key.
///
/// # Errors
/// `BadValue` with the key if it has another value.
pub fn number_if(table: &Table, key: Key, least: u32, most: u32) -> Result<Option<u32>, TomlFault>
    ensures { result ≡ number_if key least most (table_view table.now) }
{
    if value_at(table, key).is_none() {
        return Ok(None);
    }
    match number_at(table, key, least, most) {
        Ok(number) => Ok(Some(number)),
        Err(fault) => Err(fault),
    }
}

/// Returns the name that a value is, if it is a text of the form of a name.
fn name_of(value: &Value) -> Option<Name>
    ensures { result ≡ name_from (view value.now) }
{
    match value.as_str() {
        Some(text) => Name::new(text.as_bytes()),
        None => None,
    }
}

/// Returns the name at a key, a text of the form of a name.
///
/// # Errors
/// As for [`number_at`].
pub fn name_at(table: &Table, key: Key) -> Result<Name, TomlFault>
    ensures { result ≡ read_at key name_from (table_view table.now) }
{
    match value_at(table, key).and_then(name_of) {
        Some(name) => Ok(name),
        None => Err(TomlFault::BadValue(key)),
    }
}

/// Returns the elements of the array at a key.
///
/// # Errors
/// As for [`number_at`].
pub fn array_at<'a>(table: &'a Table, key: Key) -> Result<&'a [Value], TomlFault>
    ensures { result_map_both (λ values. items_view values.now) (λ fault. fault) result ≡ read_at key as_array (table_view table.now) }
{
    match value_at(table, key).and_then(Value::as_array) {
        Some(values) => Ok(values.as_slice()),
        None => Err(TomlFault::BadValue(key)),
    }
}

/// Returns whether each value is a table. Returns `true` if there are no values.
pub fn are_all_tables(values: &[Value]) -> bool
    ensures { result ≡ are_tables (items_view values.now) }
{
    for value in values {
        if !value.is_table() {
            return false;
        }
    }
    true
}

/// Reads a name, as an element of the array at a key.
fn name_in(value: &Value, key: Key) -> Result<Name, TomlFault>
    ensures { result ≡ ok_or (name_from (view value.now)) (TomlFault.BadValue key) }
{
    match name_of(value) {
        Some(name) => Ok(name),
        None => Err(TomlFault::BadValue(key)),
    }
}

/// Reads the elements of an array at a key, each a name.
fn names_in(alloc: Global, values: &[Value], key: Key) -> Result<Vec<Name>, TomlFault>
    ensures { Gives TomlFault.Memory (λ names. names.items) result (names_from key (items_view values.now)) }
{
    let mut names = Vec::new(alloc);
    for value in values {
        let name = name_in(value, key)?;
        names.push(name)?;
    }
    Ok(names)
}

/// Returns the array of names at a key.
///
/// # Errors
/// As for [`number_at`], and `Memory` if an allocation fails.
pub fn names_at(alloc: Global, table: &Table, key: Key) -> Result<Vec<Name>, TomlFault>
    ensures { Gives TomlFault.Memory (λ names. names.items) result (names_at key (table_view table.now)) }
{
    names_in(alloc, array_at(table, key)?, key)
}
