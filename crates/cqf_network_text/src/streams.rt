//! The tables of streams.
ghost use Rattle.std.specs.Prelude.{◌≡◌, ◌<◌, ◌^◌, IfOk, OnOk, map, pos, string_bytes};
ghost use Rattle.toml.specs.Data.{integer};
ghost use Rattle.toml.specs.View.{table_view, view};
ghost use Rattle.cqf_topology.specs.PacedText.{paced_text};
ghost use Rattle.cqf_traffic.specs.FlowsText.{flow_text};
ghost use Rattle.cqf_traffic.specs.Keys.{key_text as traffic_key_text};
ghost use Rattle.cqf_network_text.specs.DomainMembers.{put, texts_data};
ghost use Rattle.cqf_network_text.specs.StreamMembers.{branches_data, put_branches, put_pace, put_request, put_traffic, stream_members, streams_data};

use crate::tables::{put_number, put_some, put_text, put_value};
use cqf_topology::{Key, PacedRequest};
use cqf_traffic::{Flow, Traffic, TrafficKey};
use cqf_units::{Memory, Nanos};
use std::alloc::Global;
use toml::{Table, Value};

/// Returns texts as an array. Returns `Memory` if an allocation fails.
fn texts_value(alloc: Global, texts: &[String]) -> Result<Value, Memory>
    ensures { IfOk result (λ value. view value ≡ texts_data (map string_bytes texts.now)) }
{
    let mut values = Vec::new(alloc);
    for text in texts {
        let value = Value::string(alloc, text.as_str())?;
        values.push(value)?;
    }
    Ok(Value::Array(values))
}

/// Returns branches as an array of arrays. Returns `Memory` if an allocation fails.
fn branches_value(alloc: Global, paths: &[Vec<String>]) -> Result<Value, Memory>
    ensures { IfOk result (λ value. view value ≡ branches_data (map (λ path. map string_bytes path.items) paths.now)) }
{
    let mut values = Vec::new(alloc);
    for path in paths {
        let value = texts_value(alloc, path.as_slice())?;
        values.push(value)?;
    }
    Ok(Value::Array(values))
}

/// Puts the branches of a stream into its table: a single branch as its `path`, none or several as its `paths`. Returns
/// `Memory` if an allocation fails.
pub(crate) fn put_branches(
    alloc: Global,
    table: &mut Table,
    paths: &[Vec<String>],
) -> Result<(), Memory>
    ensures { OnOk result (table_view table.new ≡ put_branches (map (λ path. map string_bytes path.items) paths.now) (table_view table.old)) }
{
    match paths {
        [path] => {
            let value = texts_value(alloc, path.as_slice())?;
            put_value(alloc, table, Key::Path.as_str(), value)
        }
        _ => {
            let value = branches_value(alloc, paths)?;
            put_value(alloc, table, Key::Paths.as_str(), value)
        }
    }
}

/// Puts the cycles in which a stream is offered into its table, if they aren't all cycles. Returns `Memory` if an
/// allocation fails.
fn put_pace(alloc: Global, table: &mut Table, request: &PacedRequest) -> Result<(), Memory>
    ensures { OnOk result (table_view table.new ≡ put_pace (paced_text request.now) (table_view table.old)) }
{
    if request.every == 1 && request.phase == 0 {
        return Ok(());
    }
    put_number(alloc, table, Key::Every.as_str(), request.every)?;
    put_number(alloc, table, Key::Phase.as_str(), request.phase)?;
    Ok(())
}

/// Puts a request into its stream's table. Returns `Memory` if an allocation fails.
fn put_request(alloc: Global, table: &mut Table, request: &PacedRequest) -> Result<(), Memory>
    ensures { OnOk result (table_view table.new ≡ put_request (paced_text request.now) (table_view table.old)) }
{
    put_text(alloc, table, Key::Name.as_str(), request.name.as_str())?;
    put_number(alloc, table, Key::Octets.as_str(), request.octets)?;
    put_pace(alloc, table, request)?;
    put_branches(alloc, table, request.paths.as_slice())?;
    Ok(())
}

/// Puts a time of a stream's traffic into its table, in nanoseconds. Returns `Memory` if an allocation fails.
fn put_time(alloc: Global, table: &mut Table, key: TrafficKey, time: Nanos) -> Result<(), Memory>
    requires { time.0 < 2 ^ 32 }
    ensures { OnOk result (table_view table.new ≡ put (traffic_key_text key) (integer (pos time.0)) (table_view table.old)) }
{
    put_number(alloc, table, key.as_str(), time.0 as u32)?;
    Ok(())
}

/// Puts a stream's traffic, if there is any, into its table, with all five keys. Returns `Memory` if an allocation
/// fails.
fn put_traffic(alloc: Global, table: &mut Table, traffic: Option<Traffic>) -> Result<(), Memory>
    ensures { OnOk result (table_view table.new ≡ put_traffic traffic (table_view table.old)) }
{
    if let Some(traffic) = traffic {
        put_time(alloc, table, TrafficKey::Interval, traffic.interval())?;
        put_number(alloc, table, TrafficKey::Frames.as_str(), traffic.frames())?;
        put_number(alloc, table, TrafficKey::Size.as_str(), traffic.size().0)?;
        put_time(alloc, table, TrafficKey::Jitter, traffic.jitter())?;
        put_time(alloc, table, TrafficKey::Offset, traffic.offset())?;
    }
    Ok(())
}

/// Returns a stream's table. Returns `Memory` if an allocation fails.
fn stream_table(alloc: Global, flow: &Flow) -> Result<Table, Memory>
    ensures { IfOk result (λ table. table_view table ≡ stream_members (flow_text flow.now)) }
{
    let mut table = Table::new(alloc);
    put_request(alloc, &mut table, &flow.planned.request)?;
    put_some(alloc, &mut table, Key::Deadline, flow.planned.deadline)?;
    put_traffic(alloc, &mut table, flow.traffic)?;
    Ok(table)
}

/// Returns the tables of streams, in order. Returns `Memory` if an allocation fails.
pub(crate) fn streams_value(alloc: Global, flows: &[Flow]) -> Result<Value, Memory>
    ensures { IfOk result (λ value. view value ≡ streams_data (map flow_text flows.now)) }
{
    let mut streams = Vec::new(alloc);
    for flow in flows {
        let table = stream_table(alloc, flow)?;
        streams.push(Value::Table(table))?;
    }
    Ok(Value::Array(streams))
}
