//! The cycles in which a stream of a network file is offered.
ghost use Rattle.std.specs.Prelude.{◌≡◌, codes, ok_or, option_map};
ghost use Rattle.toml.specs.Data.{as_bool, get_member};
ghost use Rattle.toml.specs.View.{table_view, view};
ghost use Rattle.cqf_network.specs.StreamsText.{is_pacing_open, in_step_at, pacing_by, pacing_from};

use cqf_topology::{Key, StreamsFault, number_or, value_at};
use cqf_traffic::FlowsFault;
use toml::{Table, Value};

/// The cycles in which a stream is offered.
#[derive(Clone, Copy, Debug)]
pub enum Pacing {
    /// In one of every `every` cycles, the first being `phase`.
    Given { every: u32, phase: u32 },
    /// Its talker is in step with the network, so the plan chooses the cycles.
    InStep,
}

/// Returns whether a value says that a talker is in step.
fn is_in_step(value: &Value) -> Result<bool, FlowsFault>
    ensures { result ≡ ok_or (as_bool (view value.now)) FlowsFault.BadInStep }
{
    match value.as_bool() {
        Some(in_step) => Ok(in_step),
        None => Err(FlowsFault::BadInStep),
    }
}

/// Returns the value at `in-step` of a stream's table.
fn in_step_value(table: &Table) -> Option<&Value>
    ensures { option_map (λ v. view v.now) result ≡ get_member (codes "in-step") (table_view table.now) }
{
    table.get("in-step")
}

/// Returns whether the talker of a stream's table is in step.
fn read_in_step(table: &Table) -> Result<bool, FlowsFault>
    ensures { result ≡ in_step_at (table_view table.now) }
{
    match in_step_value(table) {
        Some(value) => is_in_step(value),
        None => Ok(false),
    }
}

/// Returns whether the pacing of a stream's table is open: its talker is in step, and the table has no `every`.
fn is_open(table: &Table, in_step: bool) -> bool
    ensures { result ≡ is_pacing_open in_step (table_view table.now) }
{
    in_step && value_at(table, Key::Every).is_none()
}

/// Returns the pacing of a stream's table with these cycles. If its talker is in step, the pacing is open, unless the table has `every`. An
/// open pacing is `BadValue` with `phase` if the table has `phase`.
fn pacing_by(table: &Table, every: u32, phase: u32, in_step: bool) -> Result<Pacing, FlowsFault>
    ensures { result ≡ pacing_by every phase in_step (table_view table.now) }
{
    if !is_open(table, in_step) {
        return Ok(Pacing::Given { every, phase });
    }
    if value_at(table, Key::Phase).is_some() {
        return Err(FlowsFault::Streams(StreamsFault::BadValue(Key::Phase)));
    }
    Ok(Pacing::InStep)
}

/// Reads in which cycles the stream of a table is offered.
pub(crate) fn read_pacing(table: &Table) -> Result<Pacing, FlowsFault>
    ensures { result ≡ pacing_from (table_view table.now) }
{
    let every = number_or(table, Key::Every, 1)?;
    let phase = number_or(table, Key::Phase, 0)?;
    let in_step = read_in_step(table)?;
    pacing_by(table, every, phase, in_step)
}
