//! The candidates for a cycle time.
ghost use Rattle.std.specs.Prelude.{◌≡◌, ◌∷◌, [], ok_or, Ok};
ghost use Rattle.toml.specs.View.{items_view, table_view, view};
ghost use Rattle.cqf_topology.specs.Fields.{Gives, value_at};
ghost use Rattle.cqf_network.specs.NetworkText.{candidates_from, candidates_of, cycle_from, cycles_from, some_few};

use cqf_model::LONGEST_CYCLE;
use cqf_topology::{Key, TomlFault, value_at};
use std::alloc::Global;
use toml::{Table, Value};

/// The shortest cycle, in nanoseconds.
pub(crate) const SHORTEST_CYCLE: u32 = 10_000;

/// The most candidates that a network file may have.
pub const MOST_CANDIDATES: usize = 1_000;

/// Returns the cycle time of a value.
fn cycle_of(value: &Value) -> Option<u32>
    ensures { result ≡ cycle_from (view value.now) }
{
    let cycle = match value.as_integer() {
        Some(integer) => u32::try_from(integer).ok()?,
        None => return None,
    };
    if SHORTEST_CYCLE <= cycle && cycle <= LONGEST_CYCLE {
        Some(cycle)
    } else {
        None
    }
}

/// Returns the cycle time of a value, which is at the key `cycle` or an element there.
fn cycle_in(value: &Value) -> Result<u32, TomlFault>
    ensures { result ≡ ok_or (cycle_from (view value.now)) (TomlFault.BadValue Key.Cycle) }
{
    match cycle_of(value) {
        Some(cycle) => Ok(cycle),
        None => Err(TomlFault::BadValue(Key::Cycle)),
    }
}

/// Returns the elements of an array of cycle times.
fn cycles_in(alloc: Global, values: &[Value]) -> Result<Vec<u32>, TomlFault>
    ensures { Gives TomlFault.Memory (λ cycles. cycles.items) result (cycles_from (items_view values.now)) }
{
    let mut cycles = Vec::new(alloc);
    for value in values {
        let cycle = cycle_in(value)?;
        cycles.push(cycle)?;
    }
    Ok(cycles)
}

/// Returns the cycle times if there are 1 to 1,000.
fn if_some_few(cycles: Vec<u32>) -> Result<Vec<u32>, TomlFault>
    ensures { Gives TomlFault.Memory (λ cycles. cycles.items) result (some_few cycles.items) }
{
    let some = 1 <= cycles.as_slice().len();
    let few = cycles.as_slice().len() <= MOST_CANDIDATES;
    if some && few {
        Ok(cycles)
    } else {
        Err(TomlFault::BadValue(Key::Cycle))
    }
}

/// Returns a single cycle time as candidates.
pub(crate) fn one_cycle(alloc: Global, cycle: u32) -> Result<Vec<u32>, TomlFault>
    ensures { Gives TomlFault.Memory (λ cycles. cycles.items) result (Ok (cycle ∷ [])) }
{
    let mut cycles = Vec::new(alloc);
    cycles.push(cycle)?;
    Ok(cycles)
}

/// Returns the candidates of a value: a cycle time, or an array of them.
fn candidates_in(alloc: Global, value: &Value) -> Result<Vec<u32>, TomlFault>
    ensures { Gives TomlFault.Memory (λ cycles. cycles.items) result (candidates_from (view value.now)) }
{
    match value.as_array() {
        Some(values) => if_some_few(cycles_in(alloc, values.as_slice())?),
        None => one_cycle(alloc, cycle_in(value)?),
    }
}

/// Returns the candidates of a domain's table.
pub(crate) fn candidates_at(alloc: Global, table: &Table) -> Result<Vec<u32>, TomlFault>
    ensures { Gives TomlFault.Memory (λ cycles. cycles.items) result (candidates_of (value_at Key.Cycle (table_view table.now))) }
{
    match value_at(table, Key::Cycle) {
        Some(value) => candidates_in(alloc, value),
        None => Err(TomlFault::BadValue(Key::Cycle)),
    }
}
