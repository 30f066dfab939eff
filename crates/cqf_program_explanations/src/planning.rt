//! A network file as it is written: what it has beyond a plan.

use crate::given::CommandInput;
use crate::network::{Network, WrittenLink};
use crate::written::{WrittenItem, number_of};
use cqf_topology::LinkTimes;
use cqf_units::time_of;
use std::alloc::{AllocError, Global};
use toml::Value;

/// The longest frame with one VLAN tag, in octets (IEEE 802.3).
const LONGEST_FRAME: u64 = 1522;

/// The octets of preamble and start delimiter (IEEE 802.3).
const PREAMBLE: u64 = 8;

/// Returns whether the command plans, and so takes a network with open parts.
pub(crate) fn is_planning(given: &CommandInput<'_>) -> bool {
    given.command == "plan"
}

/// Returns the candidates for the cycle time: those that the words give, or else those of the plan, as far as they are numbers.
pub(crate) fn candidates_of(given: &CommandInput<'_>) -> Result<Vec<u64>, AllocError> {
    let mut candidates = Vec::new(given.alloc);
    for cycle in given.cycle_times {
        candidates.push(u64::from(*cycle))?;
    }
    if !candidates.is_empty() {
        return Ok(candidates);
    }
    if let Some(found) = given.written.top("cycle") {
        match found.value.as_array() {
            Some(values) => {
                for value in values {
                    candidates.push(number_of(value))?;
                }
            }
            None => candidates.push(number_of(found.value))?,
        }
    }
    Ok(candidates)
}

/// Returns whether a link is two, one in each direction.
pub(crate) fn is_duplex(link: &WrittenLink<'_>) -> bool {
    link.item
        .get("duplex")
        .and_then(Value::as_bool)
        .unwrap_or(false)
}

/// Returns whether a link is in the plan's domain: one direction of it leaves a bridge.
pub(crate) fn is_of_domain(network: &Network<'_>, link: &WrittenLink<'_>) -> bool {
    network.is_bridge(link.from) || is_duplex(link) && network.is_bridge(link.to)
}

/// Returns the station that an access link leaves; the link is one, or one of its directions is.
pub(crate) fn talker_of<'p>(network: &Network<'_>, link: &WrittenLink<'p>) -> Option<&'p str> {
    if !network.is_bridge(link.from) {
        Some(link.from)
    } else if is_duplex(link) && !network.is_bridge(link.to) {
        Some(link.to)
    } else {
        None
    }
}

/// Below how many ns an interval or a deadline may be meant in microseconds: the shortest cycle time.
const SHORTEST_CYCLE: u64 = 10_000;

/// Returns the question whether the number at a key of a stream is in microseconds; empty if it isn't below the shortest cycle time.
pub(crate) fn nanos_question(
    alloc: Global,
    item: &WrittenItem<'_>,
    key: &str,
) -> Result<String, AllocError> {
    let number = item.number(key);
    if number == 0 || number >= SHORTEST_CYCLE {
        return Ok(String::new(alloc));
    }
    format!(in alloc; "; is {key} = {number} in microseconds?")
}

/// Returns whether a stream's talker is in step with the network.
pub(crate) fn is_in_step(item: &WrittenItem<'_>) -> bool {
    item.get("in-step")
        .and_then(Value::as_bool)
        .unwrap_or(false)
}

/// Returns how many octets a stream's frame may have, given the gate overhead.
pub(crate) fn longest_frame(item: &WrittenItem<'_>, overhead: u64) -> u64 {
    let size = item.number("size");
    if size > 0 {
        size
    } else {
        item.number("octets")
            .saturating_add(overhead)
            .min(LONGEST_FRAME)
    }
}

/// Returns how long an access link takes until a frame is whole at the edge bridge, in ns.
pub(crate) fn time_on(times: LinkTimes, octets: u64) -> u64 {
    let octets = octets.min(LONGEST_FRAME) + PREAMBLE;
    time_of(octets, times.rate).saturating_add(u64::from(times.delay))
}

/// Returns the listeners of a stream that has ends: one name, or an array of them.
pub(crate) fn listeners_of<'p>(
    alloc: Global,
    item: &WrittenItem<'p>,
) -> Result<Vec<&'p str>, AllocError> {
    let mut names = Vec::new(alloc);
    let Some(value) = item.get("to") else {
        return Ok(names);
    };
    if let Some(name) = value.as_str() {
        names.push(name)?;
    }
    if let Some(values) = value.as_array() {
        for element in values {
            names.push(element.as_str().unwrap_or(""))?;
        }
    }
    Ok(names)
}
