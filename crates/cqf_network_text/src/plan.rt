//! The text of a plan.
ghost use Rattle.std.specs.Prelude.{◌≡◌, IfOk, map, string_bytes};
ghost use Rattle.toml.specs.View.{table_view};
ghost use Rattle.cqf_traffic.specs.FlowsText.{flow_text};
ghost use Rattle.cqf_network_text.specs.DomainMembers.{overhead_written, sync_written};
ghost use Rattle.cqf_network_text.specs.Plans.{IsWrittenPlan, plan_members};

use crate::domain::{bridges_value, links_value, stations_value};
use crate::streams::streams_value;
use crate::tables::{put_number, put_some, put_value};
use cqf_topology::{Domain, Key};
use cqf_traffic::Flow;
use cqf_units::Memory;
use std::alloc::{AllocError, Global};
use toml::Table;

/// Returns how far clocks of a domain may differ, in nanoseconds, or `None` if they may not differ.
fn written_sync(domain: &Domain) -> Option<u32>
    ensures { result ≡ sync_written domain.now.sync }
{
    domain.know();
    match domain.sync().0 as u32 {
        0 => None,
        sync => Some(sync),
    }
}

/// Returns how many octets of each frame the gates of a domain don't count, or `None` if they count all.
fn written_overhead(domain: &Domain) -> Option<u32>
    ensures { result ≡ overhead_written domain.now.overhead }
{
    match domain.overhead() {
        0 => None,
        overhead => Some(overhead),
    }
}

/// Returns the table of a plan. Returns `Memory` if an allocation fails.
fn network_table(alloc: Global, domain: &Domain, flows: &[Flow]) -> Result<Table, Memory>
    ensures { IfOk result (λ table. table_view table ≡ plan_members domain.now (map flow_text flows.now)) }
{
    let cycle_time = domain.cycle_time().0 as u32;
    let guard = domain.guard().0 as u32;
    let mut table = Table::new(alloc);
    put_value(
        alloc,
        &mut table,
        Key::Bridges.as_str(),
        bridges_value(alloc, domain)?,
    )?;
    put_number(alloc, &mut table, Key::Cycle.as_str(), cycle_time)?;
    put_some(
        alloc,
        &mut table,
        Key::GateOverhead,
        written_overhead(domain),
    )?;
    put_number(alloc, &mut table, Key::Guard.as_str(), guard)?;
    put_value(
        alloc,
        &mut table,
        Key::Links.as_str(),
        links_value(alloc, domain)?,
    )?;
    put_value(
        alloc,
        &mut table,
        Key::Stations.as_str(),
        stations_value(alloc, domain)?,
    )?;
    put_value(
        alloc,
        &mut table,
        Key::Streams.as_str(),
        streams_value(alloc, flows)?,
    )?;
    put_some(alloc, &mut table, Key::Sync, written_sync(domain))?;
    Ok(table)
}

/// Returns the text of a plan, in TOML: the domain, and its streams in order, each with its deadline and traffic if it
/// has them.
///
/// * Keys are in the order of their bytes.
/// * A stream's single branch is its `path`; none or several are its `paths`.
/// * `every` and `phase` are both written if they aren't 1 and 0, that is if the stream isn't offered in each cycle;
///   otherwise neither is.
/// * `sync` and `gate-overhead` are written if they aren't 0.
/// * A link's least delay is written if it isn't the greatest, and its `guard` if it has its own.
///
/// If the domain is accepted and the streams' numbers fit in a text, the text reads back as this domain and these
/// streams ([`crate::written_plans_read_back`]).
///
/// # Errors
/// `Memory` if an allocation fails.
pub fn write_plan(alloc: Global, domain: &Domain, flows: &[Flow]) -> Result<String, Memory>
    ensures { IfOk result (λ text. IsWrittenPlan domain.now (map flow_text flows.now) (string_bytes text)) }
{
    let table = network_table(alloc, domain, flows)?;
    match toml::table_to_string(alloc, &table) {
        Ok(text) => Ok(text),
        Err(toml::ser::Error::DateInvalid) => unreachable!(),
        Err(toml::ser::Error::OutOfMemory) => Err(AllocError),
    }
}
