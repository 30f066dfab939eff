//! The streams of a network file without some of its links.
ghost use Rattle.std.specs.Prelude.{◌≡◌, ◌++◌, IfOk, OnOk, map, option_map, string_bytes};
ghost use Rattle.std.specs.List.{list_any};
ghost use Rattle.toml.specs.Data.{array};
ghost use Rattle.toml.specs.View.{items_view, table_view, view};
ghost use Rattle.cqf_network_text.specs.DomainMembers.{texts_data};
ghost use Rattle.cqf_program_without.specs.Links.{has_name};
ghost use Rattle.cqf_program_without.specs.Streams.{begins_along, between, edge_name, entered, entrance_text, first_name, given_paths, is_step};
ghost use Rattle.cqf_program_without.specs.Streams.{last_name, listeners_data, pass_any, passes, put_absent, stream_item_left, stream_left};
ghost use Rattle.cqf_program_without.specs.Streams.{streams_left, uses, with_listeners, with_open_cycles, with_talker, without_branches};

use crate::reading::{has_name, is_set, is_text, take_key};
use cqf_network_text::{put_text, put_value};
use cqf_program_words::LinkName;
use cqf_topology::{Key, StreamsFault, branches_of, value_at};
use cqf_units::Memory;
use std::alloc::{AllocError, Global};
use toml::{Table, Value};

/// Returns whether two nodes are the ends of a link.
fn is_step(link: &LinkName, from: &str, to: &str) -> bool
    ensures { result ≡ is_step link.now from.now to.now }
{
    is_text(from, link.from.as_str()) && is_text(to, link.to.as_str())
}

/// Returns whether a branch begins with a link.
fn begins_along(link: &LinkName, path: &[String]) -> bool
    ensures { result ≡ begins_along link.now (map string_bytes path.now) }
{
    match path {
        [from, to, ..] => is_step(link, from.as_str(), to.as_str()),
        _ => false,
    }
}

/// Returns whether a branch passes a link.
fn passes(link: &LinkName, path: &[String]) -> bool
    ensures { result ≡ passes link.now (map string_bytes path.now) }
{
    for index in 0..path.len() {
        if begins_along(link, &path[index..]) {
            return true;
        }
    }
    false
}

/// Returns whether one of the branches passes a link.
fn is_passed(link: &LinkName, paths: &[Vec<String>]) -> bool
    ensures { result ≡ list_any (passes link.now) (map (λ path. map string_bytes path.items) paths.now) }
{
    for path in paths {
        if passes(link, path.as_slice()) {
            return true;
        }
    }
    false
}

/// Returns whether one of the branches passes one of the links.
fn pass_any(links: &[LinkName], paths: &[Vec<String>]) -> bool
    ensures { result ≡ pass_any links.now (map (λ path. map string_bytes path.items) paths.now) }
{
    links.iter().any(|link| is_passed(link, paths))
}

/// Returns the branches that a stream's table gives; none if it gives none, or if they can't be read. Fails only if an allocation fails.
fn given_paths(alloc: Global, table: &Table) -> Result<Vec<Vec<String>>, Memory>
    ensures { IfOk result (λ paths. map (λ path. map string_bytes path.items) paths.items ≡ given_paths (table_view table.now)) }
{
    match branches_of(alloc, table) {
        Ok(paths) => Ok(paths),
        Err(fault) => match fault {
            StreamsFault::Memory => Err(AllocError),
            _ => Ok(Vec::new(alloc)),
        },
    }
}

/// Returns the text that names a talker by its access link. Fails only if an allocation fails.
fn entrance_text(alloc: Global, link: &LinkName) -> Result<String, Memory>
    ensures { IfOk result (λ text. string_bytes text ≡ entrance_text link.now) }
{
    let (from, to) = (&link.from, &link.to);
    let text = format!(in alloc; "{from}@{to}")?;
    Ok(text)
}

/// Returns whether a stream's table says that the stream enters by an access link. Fails only if an allocation fails.
fn enters_by(alloc: Global, link: &LinkName, table: &Table) -> Result<bool, Memory>
    ensures { IfOk result (λ is. is ≡ has_name Key.From (entrance_text link.now) (table_view table.now)) }
{
    let text = entrance_text(alloc, link)?;
    Ok(has_name(table, Key::From, text.as_str()))
}

/// Returns the first of the links by which a stream's table says that the stream enters. Fails only if an allocation fails.
fn entered<'l>(
    alloc: Global,
    links: &'l [LinkName],
    table: &Table,
) -> Result<Option<&'l LinkName>, Memory>
    ensures { IfOk result (λ link. option_map (λ it. it.now) link ≡ entered links.now (table_view table.now)) }
{
    for link in links {
        let enters = enters_by(alloc, link, table)?;
        if enters {
            return Ok(Some(link));
        }
    }
    Ok(None)
}

/// Returns the first node of a branch; an empty text if there is none.
fn first_name(path: &[String]) -> &str
    ensures { result.now ≡ first_name (map string_bytes path.now) }
{
    match path {
        [first, ..] => first.as_str(),
        [] => "",
    }
}

/// Returns the first node of some branches; an empty text if there is none.
fn edge_name(paths: &[Vec<String>]) -> &str
    ensures { result.now ≡ edge_name (map (λ path. map string_bytes path.items) paths.now) }
{
    match paths {
        [path, ..] => first_name(path.as_slice()),
        [] => "",
    }
}

/// Returns the last node of a branch; an empty text if there is none.
fn last_name(path: &[String]) -> &str
    ensures { result.now ≡ last_name (map string_bytes path.now) }
{
    match path {
        [.., last] => last.as_str(),
        [] => "",
    }
}

/// Returns the last nodes of branches as an array. Fails only if an allocation fails.
fn last_names(alloc: Global, paths: &[Vec<String>]) -> Result<Value, Memory>
    ensures { IfOk result (λ value. view value ≡ texts_data (map last_name (map (λ path. map string_bytes path.items) paths.now))) }
{
    let mut names = Vec::new(alloc);
    for path in paths {
        let name = Value::string(alloc, last_name(path.as_slice()))?;
        names.push(name)?;
    }
    Ok(Value::Array(names))
}

/// Returns the listeners at which branches end. Fails only if an allocation fails.
fn listeners_value(alloc: Global, paths: &[Vec<String>]) -> Result<Value, Memory>
    ensures { IfOk result (λ value. view value ≡ listeners_data (map (λ path. map string_bytes path.items) paths.now)) }
{
    match paths {
        [path] => {
            let name = Value::string(alloc, last_name(path.as_slice()))?;
            Ok(name)
        }
        _ => last_names(alloc, paths),
    }
}

/// Puts a value at a key that a table lacks. Fails only if an allocation fails.
fn put_absent(alloc: Global, table: &mut Table, key: Key, value: Value) -> Result<(), Memory>
    ensures { OnOk result (table_view table.new ≡ put_absent key (view value) (table_view table.old)) }
{
    if value_at(table, key).is_some() {
        return Ok(());
    }
    put_value(alloc, table, key.as_str(), value)?;
    Ok(())
}

/// Opens the cycles of a stream whose talker is in step.
fn open_cycles(table: &mut Table)
    ensures { table_view table.new ≡ with_open_cycles (table_view table.old) }
{
    if is_set(table, "in-step") {
        take_key(table, Key::Every.as_str());
        take_key(table, Key::Phase.as_str());
    }
}

/// Puts the talker of a stream into its table. If the stream entered by a link that is out, its cycles are open again. Fails only if an
/// allocation fails.
fn put_talker(
    alloc: Global,
    table: &mut Table,
    link: Option<&LinkName>,
    paths: &[Vec<String>],
) -> Result<(), Memory>
    ensures { let branches = map (λ path. map string_bytes path.items) paths.now in
        OnOk result (table_view table.new ≡ with_talker (option_map (λ it. it.now) link.entry) branches (table_view table.old)) }
{
    match link {
        Some(link) => {
            open_cycles(table);
            put_text(alloc, table, Key::From.as_str(), link.from.as_str())?;
            Ok(())
        }
        None => {
            let name = Value::string(alloc, edge_name(paths))?;
            put_absent(alloc, table, Key::From, name)?;
            Ok(())
        }
    }
}

/// Puts the listeners of a stream that has branches into its table. Fails only if an allocation fails.
fn put_listeners(alloc: Global, table: &mut Table, paths: &[Vec<String>]) -> Result<(), Memory>
    ensures { let branches = map (λ path. map string_bytes path.items) paths.now in
        OnOk result (table_view table.new ≡ with_listeners branches (table_view table.old)) }
{
    if paths.is_empty() {
        return Ok(());
    }
    let listeners = listeners_value(alloc, paths)?;
    put_absent(alloc, table, Key::To, listeners)?;
    Ok(())
}

/// Takes the branches out of a stream's table.
fn drop_branches(table: &mut Table)
    ensures { table_view table.new ≡ without_branches (table_view table.old) }
{
    take_key(table, Key::Path.as_str());
    take_key(table, Key::Paths.as_str());
}

/// Puts the ends of a stream into its table in place of its branches. Fails only if an allocation fails.
fn keep_ends(
    alloc: Global,
    table: &mut Table,
    link: Option<&LinkName>,
    paths: &[Vec<String>],
) -> Result<(), Memory>
    ensures { let branches = map (λ path. map string_bytes path.items) paths.now in
        OnOk result (table_view table.new ≡ between (option_map (λ it. it.now) link.entry) branches (table_view table.old)) }
{
    put_talker(alloc, table, link, paths)?;
    put_listeners(alloc, table, paths)?;
    drop_branches(table);
    Ok(())
}

/// Returns whether a stream uses a link that is out: it entered by one, or one of its branches passes one.
fn uses(links: &[LinkName], link: Option<&LinkName>, paths: &[Vec<String>]) -> bool
    ensures { result ≡ uses (option_map (λ it. it.now) link.entry) links.now (map (λ path. map string_bytes path.items) paths.now) }
{
    link.is_some() || pass_any(links, paths)
}

/// Returns what is left of a stream's table. Fails only if an allocation fails.
fn stream_left(alloc: Global, links: &[LinkName], mut table: Table) -> Result<Table, Memory>
    ensures { IfOk result (λ left. table_view left ≡ stream_left links.now (table_view table)) }
{
    let link = entered(alloc, links, &table)?;
    let paths = given_paths(alloc, &table)?;
    if !uses(links, link, paths.as_slice()) {
        return Ok(table);
    }
    keep_ends(alloc, &mut table, link, paths.as_slice())?;
    Ok(table)
}

/// Returns what is left of a value of the array of streams. Fails only if an allocation fails.
fn stream_item_left(alloc: Global, links: &[LinkName], value: &Value) -> Result<Value, Memory>
    ensures { IfOk result (λ left. view left ≡ stream_item_left links.now (view value.now)) }
{
    match value.clone()? {
        Value::Table(table) => {
            let left = stream_left(alloc, links, table)?;
            Ok(Value::Table(left))
        }
        other => Ok(other),
    }
}

/// Returns what is left of the array of streams. Fails only if an allocation fails.
pub(crate) fn streams_left(
    alloc: Global,
    links: &[LinkName],
    values: &[Value],
) -> Result<Value, Memory>
    ensures { IfOk result (λ all. view all ≡ array (streams_left links.now (items_view values.now))) }
{
    let mut all = Vec::new(alloc);
    for value in values {
        let left = stream_item_left(alloc, links, value)?;
        all.push(left)?;
    }
    Ok(Value::Array(all))
}
