//! The talkers and listeners of streams, and how long their shortest frames are.
ghost use Rattle.std.specs.Prelude.{◌≡◌, ◌==◌, ◌<◌, IfSome, codes, length, option_map, position};
ghost use Rattle.toml.specs.Data.{get_member};
ghost use Rattle.toml.specs.View.{table_view, view};
ghost use Rattle.cqf_topology.specs.Fields.{Gives};
ghost use Rattle.cqf_network.specs.StreamsText.{listeners_read, shortest_read, talker_at_bridge, talker_from, talker_of_text, talker_read};

use crate::frames::{LONGEST_FRAME, frame_octets};
use crate::wanted::listeners_at;
use cqf_topology::{Key, StreamsFault, value_at};
use cqf_traffic::{FlowsFault, Traffic};
use cqf_units::Name;
use std::alloc::Global;
use toml::{Table, Value};

/// What separates the name of a station from that of the bridge at the other end of its access link.
const AT: u8 = b'@';

/// A stream's talker: a node and, if the text gives it, the bridge at the other end of the access link by which the stream leaves it.
#[derive(Debug, Drop)]
pub struct Talker {
    pub node: Name,
    pub bridge: Option<Name>,
}

/// Returns the talker of a text in which the octet at this index divides the names.
fn talker_at_bridge(text: &[u8], at: usize) -> Option<Talker>
    requires { at < length text.now }
    ensures { result ≡ talker_at_bridge at text.now }
{
    let node = Name::new(&text[..at])?;
    let bridge = Name::new(&text[at + 1..])?;
    Some(Talker {
        node,
        bridge: Some(bridge),
    })
}

/// Returns the index of the first `@` of a text.
fn index_of_at(text: &[u8]) -> Option<usize>
    ensures index { result ≡ position (λ octet. octet == 64) text.now }
    ensures inside { IfSome result (λ at. at < length text.now) }
{
    text.iter().position(|octet| *octet == AT)
}

/// Returns the talker that a text means: a node's name, or the names of a station and of a bridge with `@` between them.
fn talker_of_text(text: &[u8]) -> Option<Talker>
    ensures { result ≡ talker_of_text text.now }
{
    match index_of_at(text) {
        Some(at) => talker_at_bridge(text, at),
        None => {
            let node = Name::new(text)?;
            Some(Talker { node, bridge: None })
        }
    }
}

/// Returns the talker that a value means.
fn talker_of_value(value: &Value) -> Option<Talker>
    ensures { result ≡ talker_from (view value.now) }
{
    match value.as_str() {
        Some(text) => talker_of_text(text.as_bytes()),
        None => None,
    }
}

/// Returns the talker of a stream's table, if it has one.
pub(crate) fn read_talker(table: &Table) -> Result<Option<Talker>, StreamsFault>
    ensures { result ≡ talker_read (table_view table.now) }
{
    let Some(value) = value_at(table, Key::From) else {
        return Ok(None);
    };
    match talker_of_value(value) {
        Some(talker) => Ok(Some(talker)),
        None => Err(StreamsFault::BadValue(Key::From)),
    }
}

/// Returns the listeners of a stream's table, 1 to 64 and all different, if it has them.
pub(crate) fn read_listeners(
    alloc: Global,
    table: &Table,
) -> Result<Option<Vec<Name>>, StreamsFault>
    ensures { Gives StreamsFault.Memory (λ found. option_map (λ names. names.items) found) result (listeners_read (table_view table.now)) }
{
    if value_at(table, Key::To).is_none() {
        return Ok(None);
    }
    let names = listeners_at(alloc, table)?;
    Ok(Some(names))
}

/// Returns the value at `least-size` of a stream's table.
fn least_size_value(table: &Table) -> Option<&Value>
    ensures { option_map (λ v. view v.now) result ≡ get_member (codes "least-size") (table_view table.now) }
{
    table.get("least-size")
}

/// Returns how many octets the shortest frame of a stream with this traffic has, if the stream's table gives it.
pub(crate) fn read_shortest(
    table: &Table,
    traffic: &Option<Traffic>,
) -> Result<Option<u32>, FlowsFault>
    ensures { result ≡ shortest_read traffic.now (table_view table.now) }
{
    let Some(value) = least_size_value(table) else {
        return Ok(None);
    };
    let most = match traffic {
        Some(traffic) => traffic.size().0,
        None => LONGEST_FRAME,
    };
    match frame_octets(value, most) {
        Some(octets) => Ok(Some(octets)),
        None => Err(FlowsFault::BadLeastSize),
    }
}
