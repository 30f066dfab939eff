//! What the table of a network file's stream lacks.
ghost use Rattle.std.specs.Prelude.{◌≡◌, ◌∷◌, [], option_and_then};
ghost use Rattle.toml.specs.Data.{as_table};
ghost use Rattle.toml.specs.View.{items_view, table_view, view};
ghost use Rattle.cqf_topology.specs.Fields.{first_absent};
ghost use Rattle.cqf_traffic.specs.TrafficText.{has_traffic};
ghost use Rattle.cqf_network.specs.StreamsText.{first_lack, first_lack_of, first_lack_within, has_path, owed_keys};

use cqf_topology::{Key, StreamsFault, value_at};
use cqf_traffic::{FlowsFault, first_owed, traffic_of};
use toml::{Table, Value};

/// Returns whether a stream's table has a key of traffic.
fn has_traffic(table: &Table) -> bool
    ensures { result ≡ has_traffic (table_view table.now) }
{
    match traffic_of(table) {
        Ok(traffic) => traffic.is_some(),
        Err(_) => true,
    }
}

/// Returns whether a stream's table gives branches.
pub(crate) fn has_path(table: &Table) -> bool
    ensures { result ≡ has_path (table_view table.now) }
{
    value_at(table, Key::Path).is_some() || value_at(table, Key::Paths).is_some()
}

/// Returns the first end that a stream's table lacks.
fn first_absent_end(table: &Table) -> Option<Key>
    ensures { result ≡ first_absent (Key.From ∷ Key.To ∷ []) (table_view table.now) }
{
    if value_at(table, Key::From).is_none() {
        return Some(Key::From);
    }
    if value_at(table, Key::To).is_none() {
        return Some(Key::To);
    }
    None
}

/// Returns the first key that a stream's table lacks, apart from those of traffic.
fn first_absent_of(table: &Table) -> Option<Key>
    ensures { result ≡ first_absent (owed_keys (table_view table.now)) (table_view table.now) }
{
    if value_at(table, Key::Name).is_none() {
        return Some(Key::Name);
    }
    if !has_traffic(table) && value_at(table, Key::Octets).is_none() {
        return Some(Key::Octets);
    }
    if has_path(table) {
        return None;
    }
    first_absent_end(table)
}

/// Returns what a stream's table lacks first.
fn first_lack(table: &Table) -> Option<FlowsFault>
    ensures { result ≡ first_lack (table_view table.now) }
{
    if let Some(key) = first_absent_of(table) {
        return Some(FlowsFault::Streams(StreamsFault::Missing(key)));
    }
    match first_owed(table) {
        Some(key) => Some(FlowsFault::Missing(key)),
        None => None,
    }
}

/// Returns what a value lacks first, if it is a table.
fn first_lack_from(value: &Value) -> Option<FlowsFault>
    ensures { result ≡ option_and_then first_lack (as_table (view value.now)) }
{
    match value.as_table() {
        Some(table) => first_lack(table),
        None => None,
    }
}

/// Returns what the values that are tables lack first.
fn first_lack_among(values: &[Value]) -> Option<FlowsFault>
    ensures { result ≡ first_lack_within (items_view values.now) }
{
    for value in values {
        let lack = first_lack_from(value);
        if lack.is_some() {
            return lack;
        }
    }
    None
}

/// Returns what a document's streams lack first.
pub(crate) fn first_lack_of(table: &Table) -> Option<FlowsFault>
    ensures { result ≡ first_lack_of (table_view table.now) }
{
    match value_at(table, Key::Streams).and_then(Value::as_array) {
        Some(values) => first_lack_among(values.as_slice()),
        None => None,
    }
}
