//! Values of tables, read and changed.
ghost use Rattle.std.specs.Prelude.{◌≡◌, ◌∷◌, IfOk, OnOk, Some, codes, option_and_then, option_map, unwrap_or, false};
ghost use Rattle.std.specs.Option.{option_map_or};
ghost use Rattle.cqf_model.specs.Domain.{is_text};
ghost use Rattle.toml.specs.Data.{as_array, as_bool, as_str, get_member};
ghost use Rattle.toml.specs.View.{items_view, table_view, view};
ghost use Rattle.cqf_topology.specs.Fields.{key_text, value_at};
ghost use Rattle.cqf_program_without.specs.Links.{exchange, has_name, is_duplex, is_set, set_at, take_key};

use cqf_network_text::put_value;
use cqf_topology::{Key, value_at};
use cqf_units::Memory;
use std::alloc::Global;
use toml::{Table, Value};

/// Returns the value at a key of a table.
fn member_at<'t>(table: &'t Table, key: &str) -> Option<&'t Value>
    ensures { option_map (λ v. view v.now) result ≡ get_member key.now (table_view table.now) }
{
    table.get(key)
}

/// Returns the text at a key of a table.
pub(crate) fn str_at(table: &Table, key: Key) -> Option<&str>
    ensures { option_map (λ text. text.now) result ≡ option_and_then as_str (value_at key (table_view table.now)) }
{
    value_at(table, key).and_then(Value::as_str)
}

/// Returns whether a text is this name.
pub(crate) fn is_text(text: &str, name: &str) -> bool
    ensures { result ≡ is_text name.now text.now }
{
    text == name
}

/// Returns whether a value is a text that is this name.
pub(crate) fn is_named(value: &Value, name: &str) -> bool
    ensures { result ≡ option_map_or (is_text name.now) (as_str (view value.now)) false }
{
    match value.as_str() {
        Some(text) => is_text(text, name),
        None => false,
    }
}

/// Returns whether the text at a key of a table is this name.
pub(crate) fn has_name(table: &Table, key: Key, name: &str) -> bool
    ensures { result ≡ has_name key name.now (table_view table.now) }
{
    match str_at(table, key) {
        Some(text) => is_text(text, name),
        None => false,
    }
}

/// Returns whether the value at a key of a table is `true`.
pub(crate) fn is_set(table: &Table, key: &str) -> bool
    ensures { result ≡ is_set key.now (table_view table.now) }
{
    match member_at(table, key).and_then(Value::as_bool) {
        Some(value) => value,
        None => false,
    }
}

/// Returns whether an element of the array of links has both directions.
pub(crate) fn is_duplex(element: &Table) -> bool
    ensures { result ≡ is_duplex (table_view element.now) }
{
    is_set(element, "duplex")
}

/// Returns the elements of the array at a key of a table, if there is an array.
pub(crate) fn array_of(table: &Table, key: Key) -> Option<&[Value]>
    ensures { option_map (λ values. items_view values.now) result ≡ option_and_then as_array (get_member (key_text key) (table_view table.now)) }
{
    match value_at(table, key).and_then(Value::as_array) {
        Some(values) => Some(values.as_slice()),
        None => None,
    }
}

/// Returns a copy of the value at a key of a table. Fails only if an allocation fails.
fn copy_at(table: &Table, key: &str) -> Result<Option<Value>, Memory>
    ensures { IfOk result (λ found. option_map view found ≡ get_member key.now (table_view table.now)) }
{
    match member_at(table, key) {
        Some(value) => {
            let copy = value.clone()?;
            Ok(Some(copy))
        }
        None => Ok(None),
    }
}

/// Takes a key out of a table.
pub(crate) fn take_key(table: &mut Table, key: &str)
    ensures { table_view table.new ≡ take_key key.now (table_view table.old) }
{
    let _before = table.remove(key);
}

/// Puts a value at a key of a table, or takes the key out. Fails only if an allocation fails.
fn set_at(alloc: Global, table: &mut Table, key: &str, value: Option<Value>) -> Result<(), Memory>
    ensures { OnOk result (table_view table.new ≡ set_at key.now (option_map view value) (table_view table.old)) }
{
    match value {
        Some(value) => {
            put_value(alloc, table, key, value)?;
            Ok(())
        }
        None => {
            take_key(table, key);
            Ok(())
        }
    }
}

/// Exchanges the values at two keys of a table. Fails only if an allocation fails.
pub(crate) fn exchange(
    alloc: Global,
    table: &mut Table,
    key: &str,
    other: &str,
) -> Result<(), Memory>
    ensures { OnOk result (table_view table.new ≡ exchange key.now other.now (table_view table.old)) }
{
    let first = copy_at(table, key)?;
    let second = copy_at(table, other)?;
    set_at(alloc, table, key, second)?;
    set_at(alloc, table, other, first)?;
    Ok(())
}
