//! Networks with open parts, and streams that can't enter the network as their `from`, `to` and paths say.

use crate::given::CommandInput;
use crate::hints::plan_hint;
use crate::network::{Network, WrittenLink};
use crate::plan_faults::report_no_talkers;
use crate::planning::{nanos_question, talker_of};
use crate::refusal::Refusal;
use crate::reported::ReportedLines;
use crate::words::shortened;
use crate::written::{KeyOwner, WrittenItem};
use cqf_program_files::{lacks_active_cycles, lacks_octets, lacks_path};
use std::alloc::{AllocError, Global};
use toml::Value;

/// Returns a talker's node, and the bridge after `@`.
pub(crate) fn ends_of_talker(talker: &str) -> (&str, Option<&str>) {
    match talker.split_once('@') {
        Some((node, bridge)) => (node, Some(bridge)),
        None => (talker, None),
    }
}

/// Returns whether an access link is a talker's: it leads from the station, and to the bridge if the talker's text names one.
pub(crate) fn is_access(network: &Network<'_>, link: &WrittenLink<'_>, talker: &str) -> bool {
    let (node, bridge) = ends_of_talker(talker);
    if talker_of(network, link) != Some(node) {
        return false;
    }
    match bridge {
        Some(bridge) => network.edge_of(link) == bridge,
        None => true,
    }
}

/// Returns the first access link of a talker.
pub(crate) fn access_link_of<'n, 'p>(
    network: &'n Network<'p>,
    talker: &str,
) -> Option<&'n WrittenLink<'p>> {
    for link in &network.links {
        if is_access(network, link, talker) {
            return Some(link);
        }
    }
    None
}

/// Returns whether a text names a talker: a bridge, or a station with an access link.
pub(crate) fn is_talker(network: &Network<'_>, talker: &str) -> bool {
    network.is_bridge(talker) || access_link_of(network, talker).is_some()
}

/// Returns the branches of a stream, each its names.
fn branches_of<'p>(alloc: Global, item: &WrittenItem<'p>) -> Result<Vec<&'p [Value]>, AllocError> {
    let mut branches = Vec::new(alloc);
    if let Some(path) = item.get("path").and_then(Value::as_array) {
        branches.push(path.as_slice())?;
    }
    if let Some(paths) = item.get("paths").and_then(Value::as_array) {
        for path in paths {
            if let Some(names) = path.as_array() {
                branches.push(names.as_slice())?;
            }
        }
    }
    Ok(branches)
}

/// Returns the texts that name a station's access links, with `or` between. If a bridge is given, the access link to it is left out.
fn texts_of_links(
    alloc: Global,
    network: &Network<'_>,
    station: &str,
    besides: Option<&str>,
) -> Result<String, AllocError> {
    let mut words = String::new(alloc);
    for link in &network.links {
        let edge = network.edge_of(link);
        if is_access(network, link, station) && besides != Some(edge) {
            let between = if words.is_empty() { "" } else { " or " };
            let more = format!(in alloc; "{between}{station}@{edge}")?;
            words.push_str(more.as_str())?;
        }
    }
    Ok(words)
}

/// Returns the words about the access links that a station has.
pub(crate) fn links_words(
    alloc: Global,
    network: &Network<'_>,
    station: &str,
) -> Result<String, AllocError> {
    let texts = texts_of_links(alloc, network, station, None)?;
    format!(in alloc; "; did you mean {texts}?")
}

/// Returns the words about a stream whose talker has several access links. If the talker's text names one, then `plan --without` leaves that
/// one out, and the words name the others.
fn several_words(alloc: Global, network: &Network<'_>, talker: &str) -> Result<String, AllocError> {
    let (station, bridge) = ends_of_talker(talker);
    let texts = texts_of_links(alloc, network, station, bridge)?;
    if bridge.is_some() {
        return format!(in alloc;
            "from: {talker} is left out, and {station} has several other access links: say which, as {texts}"
        );
    }
    format!(in alloc; "from: {station} has several access links: say which, as {texts}")
}

/// Returns the words about a stream whose path doesn't begin at the bridge at which its talker's streams enter. If it does in the file, then
/// `plan --without` leaves out the access link to that bridge.
fn other_edge_words(
    alloc: Global,
    network: &Network<'_>,
    item: &WrittenItem<'_>,
    talker: &str,
) -> Result<String, AllocError> {
    let edge = match access_link_of(network, talker) {
        Some(link) => network.edge_of(link),
        None => talker,
    };
    let talker = shortened(alloc, talker)?;
    for branch in &branches_of(alloc, item)? {
        let begins = branch.first().and_then(Value::as_str).unwrap_or("");
        if begins != edge {
            let begins = shortened(alloc, begins)?;
            return format!(in alloc;
                "its path begins at {begins}, but its talker {talker} enters the network at {edge}: begin the path there"
            );
        }
    }
    format!(in alloc;
        "its path begins at {edge}, but the access link of {talker} to {edge} is left out by --without: leave out the path too, and plan finds one"
    )
}

/// Reports the stream of a name that can't enter the network as its `from`, `to` and paths say.
pub(crate) fn report_entering(
    given: &CommandInput<'_>,
    reported: &mut ReportedLines,
    stream: &str,
    fault: &str,
) -> Result<(), AllocError> {
    let (alloc, network) = (given.alloc, given.network()?);
    for item in &given.written.items(KeyOwner::Stream)? {
        if item.text("name") != Some(stream) {
            continue;
        }
        let talker = item.text("from").unwrap_or("");
        let (key, words) = match fault {
            "TwoAccessLinks" => ("from", several_words(alloc, &network, talker)?),
            "OtherEdge" => ("from", other_edge_words(alloc, &network, item, talker)?),
            _ => {
                let words =
                    "to: name the listeners of its paths in the order of the paths, or leave out to";
                ("to", String::from_str(alloc, words)?)
            }
        };
        let (place, label) = (item.place_of(key), item.label(alloc)?);
        return reported.report(format!(in alloc; "{place}: {label}: {words}")?);
    }
    Ok(())
}

/// Returns what `plan` would add to a stream, in words; an empty text if nothing is open.
fn open_words(item: &WrittenItem<'_>) -> &'static str {
    match item.value.as_table() {
        Some(table) if lacks_path(table) => "has no path",
        Some(table) if lacks_octets(table) => "has no octets",
        Some(table) if lacks_active_cycles(table) => "is in step, but has no every and phase",
        _ => "",
    }
}

/// Reports each stream that has an open part.
fn report_open(given: &CommandInput<'_>, reported: &mut ReportedLines) -> Result<(), AllocError> {
    let hint = plan_hint(given)?;
    for item in &given.written.items(KeyOwner::Stream)? {
        let words = open_words(item);
        if words.is_empty() || reported.is_counted() {
            continue;
        }
        let (place, label) = (item.place(), item.label(given.alloc)?);
        reported.report(format!(in given.alloc; "{place}: {label} {words}{hint}")?)?;
    }
    Ok(())
}

/// Reports a cycle time that is open.
fn report_open_cycle(
    given: &CommandInput<'_>,
    reported: &mut ReportedLines,
) -> Result<(), AllocError> {
    let hint = plan_hint(given)?;
    let Some(found) = given.written.top("cycle") else {
        return Ok(());
    };
    let place = found.place;
    reported.report(format!(in given.alloc; "{place}: cycle has several cycle times{hint}")?)
}

/// Returns what a stream takes of its access link, in tenths of a Mb/s: its frames with their preambles and gaps.
fn taken_by(item: &WrittenItem<'_>) -> u64 {
    let (interval, size) = (item.number("interval"), item.number("size"));
    let frames = item.get("frames").map_or(1, |_| item.number("frames"));
    let octets = frames.saturating_mul(size.saturating_add(20));
    octets
        .saturating_mul(80_000)
        .checked_div(interval)
        .unwrap_or(0)
}

/// Returns a number of tenths with its point.
fn in_tenths(alloc: Global, tenths: u64) -> Result<String, AllocError> {
    let (whole, rest) = (tenths / 10, tenths % 10);
    format!(in alloc; "{whole}.{rest}")
}

/// How many streams a line about an access link names.
const MOST_NAMED: u64 = 4;

/// Returns what a link's streams with traffic take of it: all together in tenths of a Mb/s, and each in words. Returns `None` if it has none.
fn use_words(
    given: &CommandInput<'_>,
    network: &Network<'_>,
    link: &WrittenLink<'_>,
) -> Result<Option<(u64, String)>, AllocError> {
    let alloc = given.alloc;
    let (mut all, mut count, mut words) = (0u64, 0u64, String::new(alloc));
    let mut question = String::new(alloc);
    for item in &given.written.items(KeyOwner::Stream)? {
        let talker = item.text("from").unwrap_or("");
        if talker.is_empty()
            || !is_access(network, link, talker)
            || item.get("interval").is_none()
        {
            continue;
        }
        let taken = taken_by(item);
        all = all.saturating_add(taken);
        count = count.saturating_add(1);
        if question.is_empty() {
            question = nanos_question(alloc, item, "interval")?;
        }
        if count <= MOST_NAMED {
            let between = if count == 1 { "" } else { ", " };
            let name = shortened(alloc, item.text("name").unwrap_or(""))?;
            let share = in_tenths(alloc, taken)?;
            words.push_str(format!(in alloc; "{between}{name} {share}")?.as_str())?;
        }
    }
    if count == 0 {
        return Ok(None);
    }
    if count > MOST_NAMED {
        let more = count - MOST_NAMED;
        words.push_str(format!(in alloc; " and {more} more")?.as_str())?;
    }
    words.push_str("; give the link a higher rate, or its streams longer intervals")?;
    words.push_str(question.as_str())?;
    Ok(Some((all, words)))
}

/// Reports what the streams of a station take of its access links.
fn report_full(
    given: &CommandInput<'_>,
    reported: &mut ReportedLines,
    station: &str,
) -> Result<(), AllocError> {
    let (alloc, network) = (given.alloc, given.network()?);
    for link in &network.links {
        if talker_of(&network, link) != Some(station) {
            continue;
        }
        let Some((all, words)) = use_words(given, &network, link)? else {
            continue;
        };
        let (place, number) = (link.item.place(), link.item.number);
        let (edge, rate, all) = (
            network.edge_of(link),
            link.item.number("rate"),
            in_tenths(alloc, all)?,
        );
        reported.report(format!(in alloc;
            "{place}: link {number}, {station}>{edge}: its streams take {all} Mb/s of {rate}: {words}"
        )?)?;
    }
    Ok(())
}

/// Reports why a network is refused.
pub(crate) fn report_network(
    given: &CommandInput<'_>,
    reported: &mut ReportedLines,
    refusal: Refusal<'_>,
) -> Result<(), AllocError> {
    match refusal.fault {
        "OpenCycle" => report_open_cycle(given, reported),
        "Open" => report_open(given, reported),
        "AccessFull" => report_full(given, reported, refusal.value),
        "NoTalker" => report_no_talkers(given, reported),
        fault => report_entering(given, reported, refusal.value, fault),
    }
}
