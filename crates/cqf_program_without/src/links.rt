//! The links of a network file without some of them.
ghost use Rattle.std.specs.Prelude.{◌≡◌, ◌++◌, IfOk, OnOk, map, option_map};
ghost use Rattle.std.specs.List.{list_any};
ghost use Rattle.toml.specs.Data.{array, table};
ghost use Rattle.toml.specs.View.{items_view, table_view, view};
ghost use Rattle.cqf_program_without.specs.Links.{alone, back_of, both_left, element_left, first_unknown, is_along, is_among, is_back_out};
ghost use Rattle.cqf_program_without.specs.Links.{is_direction, is_direction_of, is_named, is_out, item_left, leaves_station, links_left, listed};
ghost use Rattle.cqf_program_without.specs.Links.{one_left, turned, without_other};

use crate::reading::{exchange, has_name, is_duplex, is_named, str_at, take_key};
use cqf_network_text::elements_at;
use cqf_program_words::LinkName;
use cqf_topology::Key;
use cqf_units::Memory;
use std::alloc::Global;
use toml::{Table, Value};

/// Returns whether an element of the array of links is written in the direction of a link.
fn is_along(link: &LinkName, element: &Table) -> bool
    ensures { result ≡ is_along link.now (table_view element.now) }
{
    has_name(element, Key::From, link.from.as_str()) && has_name(element, Key::To, link.to.as_str())
}

/// Returns whether it is written in the opposite direction.
fn is_along_back(link: &LinkName, element: &Table) -> bool
    ensures { result ≡ is_along (back_of link.now) (table_view element.now) }
{
    has_name(element, Key::From, link.to.as_str()) && has_name(element, Key::To, link.from.as_str())
}

/// Returns whether a link is one of an element's directions.
fn is_direction(link: &LinkName, element: &Table) -> bool
    ensures { result ≡ is_direction link.now (table_view element.now) }
{
    is_along(link, element) || is_duplex(element) && is_along_back(link, element)
}

/// Returns whether a value is an element with this direction.
fn is_direction_of(link: &LinkName, value: &Value) -> bool
    ensures { result ≡ is_direction_of link.now (view value.now) }
{
    match value.as_table() {
        Some(element) => is_direction(link, element),
        None => false,
    }
}

/// Returns whether a link is a direction of one of the elements.
fn is_among(link: &LinkName, values: &[Value]) -> bool
    ensures { result ≡ is_among link.now (items_view values.now) }
{
    for value in values {
        if is_direction_of(link, value) {
            return true;
        }
    }
    false
}

/// Returns the first link that a network's table doesn't have.
pub(crate) fn first_unknown<'l>(links: &'l [LinkName], table: &Table) -> Option<&'l LinkName>
    ensures { option_map (λ link. link.now) result ≡ first_unknown links.now (table_view table.now) }
{
    let elements = elements_at(table, Key::Links.as_str());
    links.iter().find(|link| !is_among(link, elements))
}

/// Returns whether one of the links is an element's written direction.
fn is_out(links: &[LinkName], element: &Table) -> bool
    ensures { result ≡ is_out links.now (table_view element.now) }
{
    links.iter().any(|link| is_along(link, element))
}

/// Returns whether one of the links is the opposite direction.
fn is_back_out(links: &[LinkName], element: &Table) -> bool
    ensures { result ≡ is_back_out links.now (table_view element.now) }
{
    links.iter().any(|link| is_along_back(link, element))
}

/// Returns whether a name is among texts.
fn is_one_of(name: &str, values: &[Value]) -> bool
    ensures { result ≡ is_named name.now (items_view values.now) }
{
    for value in values {
        if is_named(value, name) {
            return true;
        }
    }
    false
}

/// Returns whether an element is written from a station.
fn leaves_station(stations: &[Value], element: &Table) -> bool
    ensures { result ≡ leaves_station (items_view stations.now) (table_view element.now) }
{
    match str_at(element, Key::From) {
        Some(name) => is_one_of(name, stations),
        None => false,
    }
}

/// Writes an element in its opposite direction. Fails only if an allocation fails.
fn reverse(alloc: Global, element: &mut Table) -> Result<(), Memory>
    ensures { OnOk result (table_view element.new ≡ turned (table_view element.old)) }
{
    exchange(alloc, element, Key::From.as_str(), Key::To.as_str())?;
    exchange(alloc, element, "interface", "far-interface")?;
    Ok(())
}

/// Takes `other`, the largest frame that a station sends besides its streams, out of an element that doesn't leave a station.
fn drop_other(stations: &[Value], element: &mut Table)
    ensures { table_view element.new ≡ without_other (items_view stations.now) (table_view element.old) }
{
    if !leaves_station(stations, element) {
        take_key(element, "other");
    }
}

/// Leaves the written direction of an element alone.
fn keep_alone(stations: &[Value], element: &mut Table)
    ensures { table_view element.new ≡ alone (items_view stations.now) (table_view element.old) }
{
    take_key(element, "duplex");
    drop_other(stations, element);
}

/// Returns what is left of an element with one direction.
fn one_left(there: bool, element: Table) -> Option<Table>
    ensures { option_map table_view result ≡ one_left there (table_view element) }
{
    if there { None } else { Some(element) }
}

/// Returns what is left of an element with both directions. Fails only if an allocation fails.
fn both_left(
    alloc: Global,
    there: bool,
    back: bool,
    stations: &[Value],
    mut element: Table,
) -> Result<Option<Table>, Memory>
    ensures { IfOk result (λ left. option_map table_view left ≡ both_left there back (items_view stations.now) (table_view element)) }
{
    if there {
        if back {
            return Ok(None);
        }
        reverse(alloc, &mut element)?;
        keep_alone(stations, &mut element);
        return Ok(Some(element));
    }
    if back {
        keep_alone(stations, &mut element);
        return Ok(Some(element));
    }
    Ok(Some(element))
}

/// Returns what is left of an element. Fails only if an allocation fails.
fn element_left(
    alloc: Global,
    links: &[LinkName],
    stations: &[Value],
    element: Table,
) -> Result<Option<Table>, Memory>
    ensures { IfOk result (λ left. option_map table_view left ≡ element_left links.now (items_view stations.now) (table_view element)) }
{
    let there = is_out(links, &element);
    if !is_duplex(&element) {
        return Ok(one_left(there, element));
    }
    let back = is_back_out(links, &element);
    let left = both_left(alloc, there, back, stations, element)?;
    Ok(left)
}

/// Returns a table as a value, if there is one.
fn value_of(element: Option<Table>) -> Option<Value>
    ensures { option_map view result ≡ option_map (λ it. table (table_view it)) element }
{
    match element {
        Some(element) => Some(Value::Table(element)),
        None => None,
    }
}

/// Returns what is left of a value of the array of links. Fails only if an allocation fails.
fn item_left(
    alloc: Global,
    links: &[LinkName],
    stations: &[Value],
    value: &Value,
) -> Result<Option<Value>, Memory>
    ensures { IfOk result (λ left. option_map view left ≡ item_left links.now (items_view stations.now) (view value.now)) }
{
    match value.clone()? {
        Value::Table(element) => {
            let left = element_left(alloc, links, stations, element)?;
            Ok(value_of(left))
        }
        other => Ok(Some(other)),
    }
}

/// Appends a value, if there is one. Fails only if an allocation fails.
fn put_some(values: &mut Vec<Value>, value: Option<Value>) -> Result<(), Memory>
    ensures { OnOk result (map view values.new.items ≡ map view values.old.items ++ listed (option_map view value)) }
{
    match value {
        Some(value) => {
            values.push(value)?;
            Ok(())
        }
        None => Ok(()),
    }
}

/// Returns what is left of the array of links. Fails only if an allocation fails.
pub(crate) fn links_left(
    alloc: Global,
    links: &[LinkName],
    stations: &[Value],
    values: &[Value],
) -> Result<Value, Memory>
    ensures { IfOk result (λ all. view all ≡ array (links_left links.now (items_view stations.now) (items_view values.now))) }
{
    let mut all = Vec::new(alloc);
    for index in 0..values.len() {
        let left = item_left(alloc, links, stations, &values[index])?;
        put_some(&mut all, left)?;
    }
    Ok(Value::Array(all))
}
