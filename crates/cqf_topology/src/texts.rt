//! The texts at a key.
ghost use Rattle.std.specs.Prelude.{map, ok_or, string_bytes};
ghost use Rattle.toml.specs.Data.{as_str, as_array};
ghost use Rattle.toml.specs.View.{view, table_view, items_view};
ghost use Rattle.cqf_lists.specs.Results.{and_then};
ghost use Rattle.cqf_topology.specs.Fields.{Gives, read_at, texts_from, texts_at, text_lists_at, text_lists_from};

use crate::fields::{array_at, value_at};
use crate::{Key, TomlFault};
use std::alloc::Global;
use toml::{Table, Value};

/// Reads a text, as an element of the array at a key.
fn text_in(alloc: Global, value: &Value, key: Key) -> Result<String, TomlFault>
    ensures { Gives TomlFault.Memory string_bytes result (ok_or (as_str (view value.now)) (TomlFault.BadValue key)) }
{
    match value.as_str() {
        Some(text) => Ok(String::from_str(alloc, text)?),
        None => Err(TomlFault::BadValue(key)),
    }
}

/// Reads the elements of an array at a key, each a text.
fn texts_in(alloc: Global, values: &[Value], key: Key) -> Result<Vec<String>, TomlFault>
    ensures { Gives TomlFault.Memory (λ texts. map string_bytes texts.items) result (texts_from key (items_view values.now)) }
{
    let mut texts = Vec::new(alloc);
    for value in values {
        let text = text_in(alloc, value, key)?;
        texts.push(text)?;
    }
    Ok(texts)
}

/// Returns the array of texts at a key.
///
/// # Errors
/// `BadValue` with the key if it is missing or has another value. `Memory` if an allocation fails.
pub fn texts_at(alloc: Global, table: &Table, key: Key) -> Result<Vec<String>, TomlFault>
    ensures { Gives TomlFault.Memory (λ texts. map string_bytes texts.items) result (texts_at key (table_view table.now)) }
{
    texts_in(alloc, array_at(table, key)?, key)
}

/// Reads an array of texts, as an element of the array at a key.
fn text_list_in(alloc: Global, value: &Value, key: Key) -> Result<Vec<String>, TomlFault>
    ensures { Gives TomlFault.Memory (λ texts. map string_bytes texts.items) result
        (and_then (ok_or (as_array (view value.now)) (TomlFault.BadValue key)) (texts_from key)) }
{
    match value.as_array() {
        Some(values) => texts_in(alloc, values.as_slice(), key),
        None => Err(TomlFault::BadValue(key)),
    }
}

/// Reads the elements of an array at a key, each an array of texts.
fn text_lists_in(alloc: Global, values: &[Value], key: Key) -> Result<Vec<Vec<String>>, TomlFault>
    ensures { Gives TomlFault.Memory (λ lists. map (λ texts. map string_bytes texts.items) lists.items) result (text_lists_from key (items_view values.now)) }
{
    let mut lists = Vec::new(alloc);
    for value in values {
        let texts = text_list_in(alloc, value, key)?;
        lists.push(texts)?;
    }
    Ok(lists)
}

/// Returns the array of arrays of texts at a key.
///
/// # Errors
/// As for [`texts_at`].
pub fn text_lists_at(alloc: Global, table: &Table, key: Key) -> Result<Vec<Vec<String>>, TomlFault>
    ensures { Gives TomlFault.Memory (λ lists. map (λ texts. map string_bytes texts.items) lists.items) result (text_lists_at key (table_view table.now)) }
{
    text_lists_in(alloc, array_at(table, key)?, key)
}

/// Returns the text at a key.
///
/// # Errors
/// As for [`texts_at`].
pub fn text_at(alloc: Global, table: &Table, key: Key) -> Result<String, TomlFault>
    ensures { Gives TomlFault.Memory string_bytes result (read_at key as_str (table_view table.now)) }
{
    match value_at(table, key) {
        Some(value) => text_in(alloc, value, key),
        None => Err(TomlFault::BadValue(key)),
    }
}
