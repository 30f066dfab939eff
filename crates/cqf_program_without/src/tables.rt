//! A network file without some of its links.
ghost use Rattle.std.specs.Prelude.{◌≡◌, IfOk, OnOk, option_map};
ghost use Rattle.toml.specs.View.{table_view};
ghost use Rattle.cqf_topology.specs.declared.keys.Key.TheVariants.{Links, Stations, Streams};
ghost use Rattle.cqf_topology.specs.Fields.{key_text};
ghost use Rattle.cqf_network_text.specs.Networks.{array_at, table_of};
ghost use Rattle.cqf_program_without.specs.Links.{links_left};
ghost use Rattle.cqf_program_without.specs.Streams.{streams_left};
ghost use Rattle.cqf_program_without.specs.Tables.{IsTextWithout, changed_at, without_links};

use crate::links::links_left;
use crate::reading::array_of;
use crate::streams::streams_left;
use cqf_network_text::{elements_at, put_value, text_of_network};
use cqf_program_words::LinkName;
use cqf_topology::Key;
use cqf_units::Memory;
use std::alloc::{AllocError, Global};
use toml::Table;

/// Takes links out of the array of links of a network's table. Fails only if an allocation fails.
fn change_links(alloc: Global, links: &[LinkName], table: &mut Table) -> Result<(), Memory>
    ensures { let stations = array_at (key_text Stations) (table_view table.old) in
        OnOk result (table_view table.new ≡ changed_at (key_text Links) (links_left links.now stations) (table_view table.old)) }
{
    let Some(values) = array_of(table, Key::Links) else {
        return Ok(());
    };
    let stations = elements_at(table, Key::Stations.as_str());
    let left = links_left(alloc, links, stations, values)?;
    put_value(alloc, table, Key::Links.as_str(), left)?;
    Ok(())
}

/// Takes the paths of the streams that use one of the links out of a network's table. Fails only if an allocation fails.
fn change_streams(alloc: Global, links: &[LinkName], table: &mut Table) -> Result<(), Memory>
    ensures { OnOk result (table_view table.new ≡ changed_at (key_text Streams) (streams_left links.now) (table_view table.old)) }
{
    let Some(values) = array_of(table, Key::Streams) else {
        return Ok(());
    };
    let left = streams_left(alloc, links, values)?;
    put_value(alloc, table, Key::Streams.as_str(), left)?;
    Ok(())
}

/// Takes links out of a network's table. Fails only if an allocation fails.
fn take_links(alloc: Global, links: &[LinkName], table: &mut Table) -> Result<(), Memory>
    ensures { OnOk result (table_view table.new ≡ without_links links.now (table_view table.old)) }
{
    change_links(alloc, links, table)?;
    change_streams(alloc, links, table)?;
    Ok(())
}

/// Returns the table of a text; `None` if it isn't TOML. Fails only if an allocation fails.
pub(crate) fn table_of(alloc: Global, text: &[u8]) -> Result<Option<Table>, Memory>
    ensures { IfOk result (λ table. option_map table_view table ≡ table_of text.now) }
{
    match toml::table_from_slice(alloc, text) {
        Ok(table) => Ok(Some(table)),
        Err(error) => {
            if error.is_memory() {
                Err(AllocError)
            } else {
                Ok(None)
            }
        }
    }
}

/// Returns the text of a network file, or of a part of one, without these links. A text that isn't TOML is left as it is. Fails only if an
/// allocation fails.
pub(crate) fn text_without(
    alloc: Global,
    links: &[LinkName],
    text: &[u8],
) -> Result<Vec<u8>, Memory>
    ensures { IfOk result (λ left. IsTextWithout links.now text.now left.items) }
{
    let table = table_of(alloc, text)?;
    match table {
        Some(mut table) => {
            take_links(alloc, links, &mut table)?;
            let left = text_of_network(alloc, &table)?;
            Ok(left.into_bytes())
        }
        None => {
            let left = Vec::from_slice(alloc, text)?;
            Ok(left)
        }
    }
}
