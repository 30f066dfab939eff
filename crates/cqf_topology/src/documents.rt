//! Reads the table of a text in which no key is missing.
ghost use Rattle.std.specs.Prelude.{◌≡◌, option_and_then};
ghost use Rattle.toml.specs.View.{view, table_view, items_view};
ghost use Rattle.toml.specs.Data.{as_table};
ghost use Rattle.cqf_topology.specs.Fields.{Gives, lacks, first_absent, first_absent_within, first_missing, document_of, whole_document};

use crate::fields::value_at;
use crate::{Key, TomlFault};
use std::alloc::Global;
use toml::{Table, Value};

/// Returns whether the table has neither the key nor its substitute.
fn lacks_key(table: &Table, key: Key) -> bool
    ensures { result ≡ lacks key (table_view table.now) }
{
    if value_at(table, key).is_some() {
        return false;
    }
    match key.substitute() {
        Some(other) => value_at(table, other).is_none(),
        None => true,
    }
}

/// Returns the first of the keys that the table lacks.
fn first_absent_in(keys: &[Key], table: &Table) -> Option<Key>
    ensures { result ≡ first_absent keys.now (table_view table.now) }
{
    keys.iter().copied().find(|key| lacks_key(table, *key))
}

/// Returns the first of the keys that the value lacks. Returns `None` if the value isn't a table.
fn first_absent_from(keys: &[Key], value: &Value) -> Option<Key>
    ensures { result ≡ option_and_then (first_absent keys.now) (as_table (view value.now)) }
{
    match value.as_table() {
        Some(table) => first_absent_in(keys, table),
        None => None,
    }
}

/// Returns the first of the keys that is missing from a value, value by value. Values that aren't tables are skipped.
fn first_absent_among(keys: &[Key], values: &[Value]) -> Option<Key>
    ensures { result ≡ first_absent_within keys.now (items_view values.now) }
{
    for value in values {
        let absent = first_absent_from(keys, value);
        if absent.is_some() {
            return absent;
        }
    }
    None
}

/// Returns the first key that a document lacks: first of its own keys, then of the keys of the elements of one of its arrays.
fn first_missing_in(keys: &[Key], elements: Key, keys_within: &[Key], table: &Table) -> Option<Key>
    ensures { result ≡ first_missing keys.now elements keys_within.now (table_view table.now) }
{
    let absent = first_absent_in(keys, table);
    if absent.is_some() {
        return absent;
    }
    match value_at(table, elements).and_then(Value::as_array) {
        Some(values) => first_absent_among(keys_within, values.as_slice()),
        None => None,
    }
}

/// Returns the table of a text.
fn document(alloc: Global, text: &[u8]) -> Result<Table, TomlFault>
    ensures { Gives TomlFault.Memory (λ table. table_view table) result (document_of text.now) }
{
    match toml::table_from_slice(alloc, text) {
        Ok(table) => Ok(table),
        Err(error) => {
            if error.is_memory() {
                Err(TomlFault::Memory)
            } else {
                Err(TomlFault::NotToml)
            }
        }
    }
}

/// Returns the table of a text. The table has all of `keys`. If there is an array at the key `elements`, each of its elements that is a
/// table has all of `keys_within`. Other keys are ignored.
///
/// # Errors
/// `NotToml` if the text isn't TOML. `Missing` with the first absent key: the keys of the text come before those of the elements, and these
/// are checked element by element. `Memory` if an allocation fails.
pub fn read_document(
    alloc: Global,
    text: &[u8],
    keys: &[Key],
    elements: Key,
    keys_within: &[Key],
) -> Result<Table, TomlFault>
    ensures { Gives TomlFault.Memory (λ table. table_view table) result (whole_document keys.now elements keys_within.now text.now) }
{
    let table = document(alloc, text)?;
    match first_missing_in(keys, elements, keys_within, &table) {
        Some(key) => Err(TomlFault::Missing(key)),
        None => Ok(table),
    }
}
