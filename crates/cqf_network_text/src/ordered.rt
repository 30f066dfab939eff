//! The text of a network file, its keys in the order of the manual.
ghost use Rattle.std.specs.Prelude.{◌≡◌, IfOk, Some, string_bytes, true};
ghost use Rattle.toml.specs.Parse.{parse_document};
ghost use Rattle.toml.specs.View.{table_view};
ghost use Rattle.cqf_network_text.specs.Networks.{IsReadAs};

use crate::filling::elements_at;
use crate::same::is_same_table;
use crate::tables::put_value;
use cqf_units::Memory;
use std::alloc::{AllocError, Global};
use toml::{Table, Value};

/// The keys at the top of a network file, in the order of the manual. The arrays of tables follow them.
const TOP: [&str; 6] = [
    "cycle",
    "guard",
    "sync",
    "gate-overhead",
    "bridges",
    "stations",
];

/// The keys of a link.
const LINK: [&str; 9] = [
    "from",
    "to",
    "rate",
    "delay",
    "guard",
    "duplex",
    "other",
    "interface",
    "far-interface",
];

/// The keys of a stream.
const STREAM: [&str; 18] = [
    "name",
    "from",
    "to",
    "octets",
    "every",
    "phase",
    "in-step",
    "path",
    "paths",
    "interval",
    "frames",
    "size",
    "least-size",
    "jitter",
    "offset",
    "deadline",
    "mac",
    "vlan",
];

/// The keys of the arrays of tables, in their order.
const ARRAYS: [&str; 2] = ["links", "streams"];

/// Returns whether a key is among some keys.
fn is_among(keys: &[&str], key: &str) -> bool {
    for it in keys {
        if key == *it {
            return true;
        }
    }
    false
}

/// Returns the text of a table, with its keys in the order of their bytes. Returns `Memory` if an allocation fails, or if the table has a
/// date that no text can have.
fn text_of(alloc: Global, table: &Table) -> Result<String, Memory>
    ensures { IfOk result (λ text. IsReadAs (table_view table.now) (string_bytes text)) }
{
    match toml::table_to_string(alloc, table) {
        Ok(text) => Ok(text),
        Err(_) => Err(AllocError),
    }
}

/// Appends a key and its value to a text. Fails as [`text_of`] does.
fn put_entry(alloc: Global, text: &mut String, key: &str, value: &Value) -> Result<(), Memory> {
    let mut table = Table::new(alloc);
    let copy = value.clone()?;
    put_value(alloc, &mut table, key, copy)?;
    let line = text_of(alloc, &table)?;
    text.push_str(line.as_str())?;
    Ok(())
}

/// Appends to a text the entries that a table has at some keys, in the order of these keys. Fails as [`text_of`] does.
fn put_known(alloc: Global, text: &mut String, keys: &[&str], table: &Table) -> Result<(), Memory> {
    for key in keys {
        if let Some(value) = table.get(*key) {
            put_entry(alloc, text, key, value)?;
        }
    }
    Ok(())
}

/// Appends a table's other keys to a text, in the order of their bytes. Fails as [`text_of`] does.
fn put_others(
    alloc: Global,
    text: &mut String,
    keys: &[&str],
    table: &Table,
) -> Result<(), Memory> {
    for (key, value) in table.iter() {
        if !is_among(keys, key.as_str()) && !is_among(&ARRAYS, key.as_str()) {
            put_entry(alloc, text, key.as_str(), value)?;
        }
    }
    Ok(())
}

/// Appends an element of an array of tables to a text. Fails as [`text_of`] does.
fn put_element(
    alloc: Global,
    text: &mut String,
    name: &str,
    keys: &[&str],
    table: &Table,
) -> Result<(), Memory> {
    text.push_str("\n[[")?;
    text.push_str(name)?;
    text.push_str("]]\n")?;
    put_known(alloc, text, keys, table)?;
    put_others(alloc, text, keys, table)
}

/// Appends an array of tables to a text. Fails as [`text_of`] does.
fn put_array(
    alloc: Global,
    text: &mut String,
    name: &str,
    keys: &[&str],
    table: &Table,
) -> Result<(), Memory> {
    for value in elements_at(table, name) {
        if let Some(element) = value.as_table() {
            put_element(alloc, text, name, keys, element)?;
        }
    }
    Ok(())
}

/// Appends an empty array to a text, as one of the keys at its top. Fails as [`text_of`] does.
fn put_if_empty(alloc: Global, text: &mut String, name: &str, table: &Table) -> Result<(), Memory> {
    if let Some(value) = table.get(name) {
        if elements_at(table, name).is_empty() {
            put_entry(alloc, text, name, value)?;
        }
    }
    Ok(())
}

/// Returns the text of a network file's table: its keys in the order of the manual, then other keys in the order of their bytes. Fails as
/// [`text_of`] does.
fn in_order(alloc: Global, table: &Table) -> Result<String, Memory> {
    let mut text = String::new(alloc);
    put_known(alloc, &mut text, &TOP, table)?;
    for name in ARRAYS {
        put_if_empty(alloc, &mut text, name, table)?;
    }
    put_others(alloc, &mut text, &TOP, table)?;
    put_array(alloc, &mut text, "links", &LINK, table)?;
    put_array(alloc, &mut text, "streams", &STREAM, table)?;
    Ok(text)
}

/// Returns whether a text is read as exactly this table. Returns `Memory` only if an allocation fails.
fn is_read_as(alloc: Global, text: &str, table: &Table) -> Result<bool, Memory>
    ensures { IfOk result (λ is. is ≡ true → parse_document text.now ≡ Some (table_view table.now)) }
{
    match toml::table_from_str(alloc, text) {
        Ok(read) => Ok(is_same_table(&read, table)),
        Err(error) => {
            if error.is_memory() {
                Err(AllocError)
            } else {
                Ok(false)
            }
        }
    }
}

/// Returns the text of a network file's table: its keys in the order of the manual, then other keys. If that text isn't read as the table
/// (a key that no command knows has a table as its value), all keys are in the order of their bytes. Either text is read as the table.
///
/// # Errors
/// `Memory` if an allocation fails, or if the table has a date that no text can have.
pub fn text_of_network(alloc: Global, table: &Table) -> Result<String, Memory>
    ensures { IfOk result (λ text. IsReadAs (table_view table.now) (string_bytes text)) }
{
    let text = in_order(alloc, table)?;
    let same = is_read_as(alloc, text.as_str(), table)?;
    if same {
        return Ok(text);
    }
    text_of(alloc, table)
}
