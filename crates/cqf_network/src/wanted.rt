//! The path that a stream of a network file is to take.
ghost use Rattle.std.specs.Prelude.{◌≡◌, ◌∷◌, [], is_none, is_some, map, Ok, option_and_then, option_map, Some, string_bytes, true};
ghost use Rattle.toml.specs.Data.{as_array};
ghost use Rattle.cqf_model.specs.Domain.{is_text};
ghost use Rattle.toml.specs.View.{table_view};
ghost use Rattle.cqf_topology.specs.Fields.{Gives, value_at};
ghost use Rattle.cqf_topology.specs.DomainText.{first_taken, is_among};
ghost use Rattle.cqf_network.specs.StreamsText.{between_ends, branches_if, if_listeners, listeners_read, path_by, wanted_text};

use crate::lacks::has_path;
use crate::talkers::Talker;
use cqf_topology::{Key, StreamsFault, branches_of, name_at, names_at, value_at};
use cqf_units::Name;
use std::alloc::Global;
use toml::Table;

/// The most listeners that a stream of a network file may have.
pub const MOST_LISTENERS: usize = 64;

/// The path that a stream is to take.
#[derive(Debug, Drop)]
pub enum WantedPath {
    /// Along these branches, each the names of its bridges, in order, followed by that of the listener's station.
    Along(Vec<Vec<String>>),
    /// From a talker's station or an edge bridge to these listeners: 1 to 64, all different.
    Between(Name, Vec<Name>),
}

/// Returns whether two names are the same.
fn is_same(name: &Name, other: &Name) -> bool
    ensures { result ≡ is_text other.now name.now }
{
    name.as_str() == other.as_str()
}

/// Returns whether a name is in a list.
fn is_among(name: &Name, names: &[Name]) -> bool
    ensures { result ≡ is_among name.now names.now }
{
    names.iter().any(|other| is_same(name, other))
}

/// Returns whether no name occurs twice.
fn are_different(names: &[Name]) -> bool
    ensures { result ≡ is_none (first_taken [] names.now) }
{
    for index in 0..names.len() {
        if is_among(&names[index], &names[..index]) {
            return false;
        }
    }
    true
}

/// Returns the listeners if there are 1 to 64 and no two are the same.
fn if_listeners(names: Vec<Name>) -> Result<Vec<Name>, StreamsFault>
    ensures { Gives StreamsFault.Memory (λ names. names.items) result (if_listeners names.items) }
{
    let some = 1 <= names.as_slice().len();
    let few = names.as_slice().len() <= MOST_LISTENERS;
    if some && few && are_different(names.as_slice()) {
        Ok(names)
    } else {
        Err(StreamsFault::BadValue(Key::To))
    }
}

/// Returns a single listener as listeners.
fn one_listener(alloc: Global, name: Name) -> Result<Vec<Name>, StreamsFault>
    ensures { Gives StreamsFault.Memory (λ names. names.items) result (Ok (name ∷ [])) }
{
    let mut names = Vec::new(alloc);
    names.push(name)?;
    Ok(names)
}

/// Returns whether a stream's table has an array at the listeners' key.
fn has_array(table: &Table) -> bool
    ensures { result ≡ is_some (option_and_then as_array (value_at Key.To (table_view table.now))) }
{
    match value_at(table, Key::To) {
        Some(value) => value.is_array(),
        None => false,
    }
}

/// Returns the listeners of a stream's table that has their key.
pub(crate) fn listeners_at(alloc: Global, table: &Table) -> Result<Vec<Name>, StreamsFault>
    requires { is_some (value_at Key.To (table_view table.now)) ≡ true }
    ensures { Gives StreamsFault.Memory (λ names. Some names.items) result (listeners_read (table_view table.now)) }
{
    if has_array(table) {
        return if_listeners(names_at(alloc, table, Key::To)?);
    }
    one_listener(alloc, name_at(table, Key::To)?)
}

/// Returns the branches of a stream's table, if it has them.
pub(crate) fn read_branches(
    alloc: Global,
    table: &Table,
) -> Result<Option<Vec<Vec<String>>>, StreamsFault>
    ensures { Gives StreamsFault.Memory (λ found. option_map (λ paths. map (λ path. map string_bytes path.items) paths.items) found) result
        (branches_if (table_view table.now)) }
{
    if !has_path(table) {
        return Ok(None);
    }
    let paths = branches_of(alloc, table)?;
    Ok(Some(paths))
}

/// Returns a copy of names.
fn copied_names(alloc: Global, names: &[Name]) -> Result<Vec<Name>, StreamsFault>
    ensures { Gives StreamsFault.Memory (λ copies. copies.items) result (Ok names.now) }
{
    let mut copies = Vec::new(alloc);
    for name in names {
        copies.push(name.copied())?;
    }
    Ok(copies)
}

/// Returns the path between a stream's talker and its listeners, as the ends that its text gives.
fn path_between(
    alloc: Global,
    talker: &Option<Talker>,
    listeners: &Option<Vec<Name>>,
) -> Result<WantedPath, StreamsFault>
    ensures { Gives StreamsFault.Memory wanted_text result (between_ends talker.now (option_map (λ names. names.items) listeners.now)) }
{
    let Some(talker) = talker else {
        return Err(StreamsFault::BadValue(Key::From));
    };
    let Some(names) = listeners else {
        return Err(StreamsFault::BadValue(Key::To));
    };
    let to = copied_names(alloc, names.as_slice())?;
    Ok(WantedPath::Between(talker.node.copied(), to))
}

/// Returns the path of a stream: along the branches that are given, or otherwise between its talker and its listeners.
pub(crate) fn path_by(
    alloc: Global,
    paths: Option<Vec<Vec<String>>>,
    talker: &Option<Talker>,
    listeners: &Option<Vec<Name>>,
) -> Result<WantedPath, StreamsFault>
    ensures { Gives StreamsFault.Memory wanted_text result
        (path_by (option_map (λ paths. map (λ path. map string_bytes path.items) paths.items) paths) talker.now (option_map (λ names. names.items) listeners.now)) }
{
    match paths {
        Some(paths) => Ok(WantedPath::Along(paths)),
        None => path_between(alloc, talker, listeners),
    }
}
