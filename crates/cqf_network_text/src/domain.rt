//! The tables of a domain.
ghost use Rattle.std.specs.Prelude.{◌≡◌, ◌<◌, IfOk};
ghost use Rattle.toml.specs.View.{table_view, view};
ghost use Rattle.cqf_model.specs.Domain.{IsNode};
ghost use Rattle.cqf_model.specs.declared.topology.Node.TheVariants.{Bridge};
ghost use Rattle.cqf_network_text.specs.DomainMembers.{delays_data, link_members, links_data, megabits_of, texts_data};
ghost use Rattle.cqf_topology.specs.NodeNames.{name_of_node};

use crate::tables::{put_number, put_some, put_text, put_value};
use cqf_model::{Link, Node};
use cqf_topology::{Domain, Key};
use cqf_units::{Memory, Name, Rate};
use std::alloc::Global;
use toml::{Table, Value};

/// Returns a rate in Mb/s.
fn megabits_of(rate: Rate) -> u32
    ensures { result ≡ megabits_of rate }
{
    match rate {
        Rate::Mb10 => 10,
        Rate::Mb100 => 100,
        Rate::Mb1000 => 1000,
        Rate::Mb2500 => 2500,
        Rate::Mb5000 => 5000,
        Rate::Mb10000 => 10_000,
        Rate::Mb25000 => 25_000,
        Rate::Mb40000 => 40_000,
        Rate::Mb100000 => 100_000,
    }
}

/// Returns the name of a node.
fn name_of(domain: &Domain, node: Node) -> &Name
    requires { IsNode domain.now node }
    ensures { result.now ≡ name_of_node domain.now node }
{
    match node {
        Node::Bridge(bridge) => domain.bridge_name(bridge),
        Node::Station(station) => domain.station_name(station),
    }
}

/// Returns a link's delays: one number if the least equals the greatest; otherwise both, the least first. Returns
/// `Memory` if an allocation fails.
fn delays_value(alloc: Global, least: u32, most: u32) -> Result<Value, Memory>
    ensures { IfOk result (λ value. view value ≡ delays_data least most) }
{
    if least == most {
        return Ok(Value::Integer(i64::from(most)));
    }
    let mut both = Vec::new(alloc);
    both.push(Value::Integer(i64::from(least)))?;
    both.push(Value::Integer(i64::from(most)))?;
    Ok(Value::Array(both))
}

/// Returns a link's table. Returns `Memory` if an allocation fails.
fn link_table(alloc: Global, domain: &Domain, link: Link) -> Result<Table, Memory>
    requires from { IsNode domain.now (Bridge link.from) }
    requires to { IsNode domain.now link.to }
    ensures { IfOk result (λ table. table_view table ≡ link_members domain.now link) }
{
    let from = name_of(domain, Node::Bridge(link.from)).as_str();
    let to = name_of(domain, link.to).as_str();
    let mut table = Table::new(alloc);
    let delays = delays_value(alloc, link.least, link.delay)?;
    put_value(alloc, &mut table, Key::Delay.as_str(), delays)?;
    put_text(alloc, &mut table, Key::From.as_str(), from)?;
    put_number(
        alloc,
        &mut table,
        Key::Rate.as_str(),
        megabits_of(link.rate),
    )?;
    put_text(alloc, &mut table, Key::To.as_str(), to)?;
    put_some(alloc, &mut table, Key::Guard, link.guard)?;
    Ok(table)
}

/// Returns the tables of the links, by number. Returns `Memory` if an allocation fails.
pub(crate) fn links_value(alloc: Global, domain: &Domain) -> Result<Value, Memory>
    ensures { IfOk result (λ value. view value ≡ links_data domain.now) }
{
    domain.know();
    let mut links = Vec::new(alloc);
    for number in 0..domain.links() {
        let table = link_table(alloc, domain, domain.link(number))?;
        links.push(Value::Table(table))?;
    }
    Ok(Value::Array(links))
}

/// Returns the names of the bridges, by number. Returns `Memory` if an allocation fails.
pub(crate) fn bridges_value(alloc: Global, domain: &Domain) -> Result<Value, Memory>
    ensures { IfOk result (λ value. view value ≡ texts_data domain.now.bridges) }
{
    let mut names = Vec::new(alloc);
    for number in 0..domain.bridges() {
        let name = Value::string(alloc, domain.bridge_name(number).as_str())?;
        names.push(name)?;
    }
    Ok(Value::Array(names))
}

/// Returns the names of the stations, by number. Returns `Memory` if an allocation fails.
pub(crate) fn stations_value(alloc: Global, domain: &Domain) -> Result<Value, Memory>
    ensures { IfOk result (λ value. view value ≡ texts_data domain.now.stations) }
{
    let mut names = Vec::new(alloc);
    for number in 0..domain.stations() {
        let name = Value::string(alloc, domain.station_name(number).as_str())?;
        names.push(name)?;
    }
    Ok(Value::Array(names))
}
