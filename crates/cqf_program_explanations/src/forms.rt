//! Which values a plan may have at each key, in words. Whether a value is one of them is decided by the readers.

use crate::lexer::before_comment;
use crate::planning::is_in_step;
use crate::words::{shortened, shown};
use crate::written::{FoundKey, KeyOwner, WrittenItem};
use cqf_model::{Limits, PROFILE};
use cqf_units::Name;
use std::alloc::{AllocError, Global};
use toml::Value;

/// The form of a stream's talker, in words.
const TALKER_FORM: &str = "from is a name, or STATION@BRIDGE";

/// The form of a name, in words.
pub(crate) const NAME_FORM: &str = "a name has 1 to 32 characters, each a to z, 0 to 9, - or _";

/// The form of a path, in words.
const PATH_FORM: &str =
    "a path is an array of bridges in order and then a station, as [\"a\", \"b\", \"s\"]";

/// The form of several paths, in words.
const PATHS_FORM: &str = "paths is an array of paths, as [[\"a\", \"s\"], [\"a\", \"b\", \"t\"]]";

/// The form of the number of cycles from one cycle of a stream to its next, in words.
pub(crate) const EVERY_FORM: &str =
    "every is a whole number that divides 80; the stream has one cycle in that many";

/// The form of the first of these cycles, in words.
pub(crate) const PHASE_FORM: &str =
    "phase is the stream's first own cycle, a whole number below every";

/// The form of a destination address, in words.
const MAC_FORM: &str =
    "a mac is six pairs of hexadecimal digits, as 01:00:5e:00:00:07; not all 0, and not 01:80:c2:00:00:00 to 0f, which bridges don't forward";

/// The form of what a bridge's port is called, in words.
const INTERFACE_FORM: &str =
    "an interface is 1 to 15 letters, digits and . _ - @, and begins with a letter or digit";

/// The form of a link's delay, in words.
const DELAY_FORM: &str =
    "a delay is a whole number, 0 to 10,000,000 ns, or an array of the least and the greatest delay";

/// The form of the cycle times of a network file, in words.
pub(crate) const CYCLES_FORM: &str =
    "a cycle time is a whole number, 10,000 to 10,000,000 ns, or for plan an array of 1 to 1,000 of them";

/// Returns the form of the value at a key of the top level.
pub(crate) fn form_of_top(key: &str) -> Option<&'static str> {
    Some(match key {
        "cycle" => "a cycle time is a whole number, 10,000 to 10,000,000 ns",
        "guard" => "a guard band is a whole number, 1 to 10,000,000 ns",
        "sync" =>
            "sync is the greatest difference of two clocks: a whole number, 0 to 10,000,000 ns",
        "gate-overhead" =>
            "gate-overhead is how many octets of a frame gates don't count: a whole number, 0 to 22",
        "bridges" => "bridges is an array of one name or more",
        "stations" => "stations is an array of names",
        "links" => "links is an array of tables: write [[links]] above each",
        "streams" => "streams is an array of tables: write [[streams]] above each",
        _ => return None,
    })
}

/// Returns the form of the value at a key of a link.
fn form_of_link(key: &str) -> Option<&'static str> {
    Some(match key {
        "from" | "to" => NAME_FORM,
        "rate" => { "a rate is 10, 100, 1000, 2500, 5000, 10000, 25000, 40000 or 100000 (Mb/s)" }
        "delay" => DELAY_FORM,
        "guard" => return form_of_top(key),
        "duplex" => "duplex is true or false",
        "other" => "other is a whole number of octets, 64 to 1,522",
        "interface" | "far-interface" => INTERFACE_FORM,
        _ => return None,
    })
}

/// Returns the form of the value at a key of a stream.
fn form_of_stream(key: &str) -> Option<&'static str> {
    Some(match key {
        "name" => "a name is a text in quotes",
        "octets" => "a reservation is a whole number, 64 to 1,000,000 octets a cycle",
        "every" => EVERY_FORM,
        "phase" => PHASE_FORM,
        "in-step" => "in-step is true or false",
        "path" => PATH_FORM,
        "paths" => PATHS_FORM,
        "deadline" => "a deadline is a whole number, 1 to 4,294,967,295 ns",
        "from" => TALKER_FORM,
        "to" => "to is a name, or an array of 1 to 64 names, all different",
        "least-size" => "least-size is a whole number of octets, 64 to the stream's size",
        "mac" => MAC_FORM,
        "vlan" => "a vlan is a whole number, 1 to 4,094",
        "interval" => "an interval is a whole number, 1 to 1,000,000,000 ns",
        "frames" => "frames is a whole number, 1 to 1,000 in each interval",
        "size" => "a size is a whole number, 64 to 1,522 octets",
        "jitter" => "a jitter is a whole number, 0 to 1,000,000,000 ns",
        "offset" => "an offset is a whole number, 0 to 1,000,000,000 ns",
        _ => return None,
    })
}

/// Returns the form of the number of a stream gate, which depends on the limits.
fn form_of_gate(limits: Limits) -> &'static str {
    if limits == PROFILE {
        "x-gate is a whole number, 1 to 1,024 (16,384 with --large)"
    } else {
        "x-gate is a whole number, 1 to 16,384"
    }
}

/// Returns the form of the value at a key of a link or a stream.
pub(crate) fn form_within(
    limits: Limits,
    item: &WrittenItem<'_>,
    key: &str,
) -> Option<&'static str> {
    match (item.kind, key) {
        (KeyOwner::Link, _) => form_of_link(key),
        (_, "x-gate") => Some(form_of_gate(limits)),
        (_, "paths") if item.get("path").is_some() => Some("give path or paths, not both"),
        (_, "phase") if is_in_step(item) && item.get("every").is_none() => {
            Some("a phase goes with every: give both, or in-step alone")
        }
        (_, "least-size") if item.get("size").is_some() && item.number(key) > item.number("size") =>
            { Some("least-size is at most the stream's size") }
        _ => form_of_stream(key),
    }
}

/// Returns whether the value is a text of the form of a name.
pub(crate) fn is_name(value: &Value) -> bool {
    match value.as_str() {
        Some(text) => Name::new(text.as_bytes()).is_some(),
        None => false,
    }
}

/// Returns a value as it may be written.
pub(crate) fn reported_value(alloc: Global, value: &Value) -> Result<String, AllocError> {
    if let Some(number) = value.as_integer() {
        return format!(in alloc; "{number}");
    }
    if let Some(text) = value.as_str() {
        let text = shortened(alloc, text)?;
        return format!(in alloc; "\"{text}\"");
    }
    if let Some(boolean) = value.as_bool() {
        return format!(in alloc; "{boolean}");
    }
    match value.as_array() {
        Some(values) if values.is_empty() => String::from_str(alloc, "[]"),
        _ => {
            let kind = value.type_str();
            format!(in alloc; "({kind})")
        }
    }
}

/// Returns the value at a key, as written, or as it may be written if its line isn't known.
pub(crate) fn written(alloc: Global, found: &FoundKey<'_>) -> Result<String, AllocError> {
    let text = before_comment(found.text).trim_ascii();
    if text.is_empty() {
        reported_value(alloc, found.value)
    } else {
        shown(alloc, text)
    }
}
