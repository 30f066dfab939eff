//! Streams of a network file that aren't placed, or may be late.

use crate::domain_faults::{report_guard_at, report_link_guards_at};
use crate::given::CommandInput;
use crate::link_faults::report_no_link;
use crate::network::Network;
use crate::network_faults::{
    access_link_of, ends_of_talker, is_talker, links_words, report_entering,
};
use crate::places::Grouped;
use crate::planning::{
    candidates_of, is_in_step, listeners_of, longest_frame, nanos_question, time_on,
};
use crate::reading::{edge_traffic, read_network};
use crate::refusal::Refusal;
use crate::reported::ReportedLines;
use crate::stream_faults::{is_of_form, report_beyond, report_form_faults, report_names_twice};
use crate::words::{question, shortened};
use crate::written::{KeyOwner, WrittenItem};
use cqf_model::LARGE;
use cqf_traffic::Traffic;
use std::alloc::{AllocError, Global};

/// What a line of the command says about a stream: its name, the fault, and what follows the fault.
#[derive(Clone, Copy, Debug)]
struct Unplaced<'a> {
    stream: &'a str,
    fault: &'a str,
    value: &'a str,
}

/// Returns the cycle time of a line about several, and what follows `; at CYCLE `.
fn at_cycle<'a>(refusal: Refusal<'a>) -> Option<(&'a str, &'a str)> {
    let (_, after) = refusal.value.split_once("; at ")?;
    after.split_once(' ')
}

/// Returns the cycle time of a line about several, in ns.
fn cycle_of(refusal: Refusal<'_>) -> u64 {
    match at_cycle(refusal) {
        Some((cycle, _)) => number_in(Some(cycle)),
        None => 0,
    }
}

/// Returns the stream that a line is about.
fn unplaced_of<'a>(refusal: Refusal<'a>) -> Option<Unplaced<'a>> {
    let (stream, reported) = match at_cycle(refusal) {
        Some((_, text)) => text.split_once(": ")?,
        None => (refusal.fault.strip_suffix(":")?, refusal.value),
    };
    let (fault, value) = reported.split_once(' ').unwrap_or((reported, ""));
    Some(Unplaced {
        stream,
        fault,
        value,
    })
}

/// Returns a number of a line.
fn number_in(text: Option<&str>) -> u64 {
    let mut number: u64 = 0;
    for byte in text.unwrap_or("").bytes() {
        let digit = u64::from(byte.saturating_sub(b'0'));
        number = number.saturating_mul(10).saturating_add(digit);
    }
    number
}

/// Returns why a stream's `from` names no talker.
fn no_talker(alloc: Global, network: &Network<'_>, talker: &str) -> Result<String, AllocError> {
    let (name, bridge) = ends_of_talker(talker);
    let shown = shortened(alloc, name)?;
    if let Some(bridge) = bridge {
        if network.is_bridge(name) {
            return format!(in alloc; "{shown} is a bridge: give its name without @");
        }
        if access_link_of(network, name).is_some() {
            let (bridge, words) = (
                shortened(alloc, bridge)?,
                links_words(alloc, network, name)?,
            );
            return format!(in alloc; "no access link leads from {shown} to {bridge}{words}");
        }
    }
    if network.is_node(name) {
        return format!(in alloc;
            "the station {shown} has no access link: add a link from it to a bridge"
        );
    }
    let question = network.node_question(alloc, name)?;
    format!(in alloc; "no bridge or station {shown}{question}")
}

/// Reports each stream whose `from` names no talker.
pub(crate) fn report_no_talkers(
    given: &CommandInput<'_>,
    reported: &mut ReportedLines,
) -> Result<(), AllocError> {
    let network = given.network()?;
    for item in &given.written.items(KeyOwner::Stream)? {
        let Some(talker) = item.text("from") else {
            continue;
        };
        if is_talker(&network, talker) || reported.is_counted() {
            continue;
        }
        let (place, label) = (item.place_of("from"), item.label(given.alloc)?);
        let why = no_talker(given.alloc, &network, talker)?;
        reported.report(format!(in given.alloc; "{place}: {label}: from: {why}")?)?;
    }
    Ok(())
}

/// Reports each stream whose `from` names no talker; if there is none, the stream of a name, whose talker's access links are left out.
fn report_talkers_out(
    given: &CommandInput<'_>,
    reported: &mut ReportedLines,
    stream: &str,
) -> Result<(), AllocError> {
    report_no_talkers(given, reported)?;
    for item in &given.written.items(KeyOwner::Stream)? {
        if item.text("name") == Some(stream) && reported.is_empty() {
            let (place, label) = (item.place_of("from"), item.label(given.alloc)?);
            let talker = ends_of_talker(item.text("from").unwrap_or("")).0;
            let shown = shortened(given.alloc, talker)?;
            reported.report(format!(in given.alloc;
                "{place}: {label}: from: every access link of {shown} is left out by --without"
            )?)?;
        }
    }
    Ok(())
}

/// Returns the names of the stations.
fn stations_of<'p>(alloc: Global, network: &Network<'p>) -> Result<Vec<&'p str>, AllocError> {
    let mut stations = Vec::new(alloc);
    for name in &network.nodes {
        if !network.is_bridge(name) {
            stations.push(*name)?;
        }
    }
    Ok(stations)
}

/// Returns why a name isn't a listener's.
fn no_listener(alloc: Global, network: &Network<'_>, name: &str) -> Result<String, AllocError> {
    let shown = shortened(alloc, name)?;
    if network.is_bridge(name) {
        return format!(in alloc; "{shown} is a bridge: a listener is a station");
    }
    let stations = stations_of(alloc, network)?;
    let question = question(alloc, name, stations.as_slice())?;
    format!(in alloc; "no station {shown}{question}")
}

/// Reports each listener that isn't a station.
fn report_no_listeners(
    given: &CommandInput<'_>,
    reported: &mut ReportedLines,
) -> Result<(), AllocError> {
    let network = given.network()?;
    for item in &given.written.items(KeyOwner::Stream)? {
        for name in &listeners_of(given.alloc, item)? {
            if network.is_node(name) && !network.is_bridge(name) || reported.is_counted() {
                continue;
            }
            let (place, label) = (item.place_of("to"), item.label(given.alloc)?);
            let why = no_listener(given.alloc, &network, name)?;
            reported.report(format!(in given.alloc; "{place}: {label}: to: {why}")?)?;
        }
    }
    Ok(())
}

/// Reports a deadline that is over before a frame is whole at its edge bridge.
fn report_too_soon(
    given: &CommandInput<'_>,
    reported: &mut ReportedLines,
    item: &WrittenItem<'_>,
) -> Result<(), AllocError> {
    let network = given.network()?;
    let (place, label) = (item.place_of("deadline"), item.label(given.alloc)?);
    let talker = item.text("from").unwrap_or("");
    let Some(link) = access_link_of(&network, talker) else {
        return Ok(());
    };
    let (from, to) = (ends_of_talker(talker).0, network.edge_of(link));
    let Some(times) = link.times else {
        return Ok(());
    };
    let longest = longest_frame(item, given.written.number("gate-overhead"));
    let (taken, deadline) = (time_on(times, longest), item.number("deadline"));
    let waits = if taken < deadline {
        " and also waits there"
    } else {
        ""
    };
    let (taken, deadline) = (Grouped(taken), Grouped(deadline));
    let question = nanos_question(given.alloc, item, "deadline")?;
    reported.report(format!(in given.alloc;
        "{place}: {label}: a frame takes {taken} ns on the access link {from}>{to}{waits}, but its deadline is {deadline} ns{question}"
    )?)
}

/// Reports a stream whose traffic needs more than the stream may reserve, or reserves.
fn report_needs(
    given: &CommandInput<'_>,
    reported: &mut ReportedLines,
    item: &WrittenItem<'_>,
    unplaced: Unplaced<'_>,
) -> Result<(), AllocError> {
    let label = item.label(given.alloc)?;
    let needed = Grouped(number_in(Some(unplaced.value)));
    let question = nanos_question(given.alloc, item, "interval")?;
    if unplaced.fault == "TooLittle" {
        let (place, octets) = (item.place_of("octets"), Grouped(item.number("octets")));
        return reported.report(format!(in given.alloc;
            "{place}: {label} reserves {octets} octets a cycle, but its traffic needs {needed}: raise octets, or leave it out{question}"
        )?);
    }
    let place = item.place_of("interval");
    reported.report(format!(in given.alloc;
        "{place}: {label}: its traffic needs {needed} octets a cycle, but a reservation is at most 1,000,000: use a shorter cycle, or several streams{question}"
    )?)
}

/// Reports the stream of a line `stream 3: BelowTraffic OCTETS NEEDED`, which reserves less than its traffic needs.
pub(crate) fn report_below_traffic(
    given: &CommandInput<'_>,
    reported: &mut ReportedLines,
    refusal: Refusal<'_>,
) -> Result<(), AllocError> {
    let number = number_in(refusal.part.strip_prefix("stream "));
    let (octets, needed) = refusal.value.split_once(' ').unwrap_or(("", ""));
    let (octets, needed) = (number_in(Some(octets)), Grouped(number_in(Some(needed))));
    for item in &given.written.items(KeyOwner::Stream)? {
        if item.number.saturating_add(1) == number {
            let (place, label) = (item.place_of("octets"), item.counted(given.alloc)?);
            let question = nanos_question(given.alloc, item, "interval")?;
            return reported.report(format!(in given.alloc;
                "{place}: {label}: octets = {octets}: its traffic needs {needed} octets a cycle at its edge bridge: raise octets, or leave it out and plan again{question}"
            )?);
        }
    }
    Ok(())
}

/// Reports a stream for which a link has too little left, by the words of its line: `LISTENER COST LINK LEFT`.
fn report_full(
    given: &CommandInput<'_>,
    reported: &mut ReportedLines,
    item: &WrittenItem<'_>,
    value: &str,
) -> Result<(), AllocError> {
    let mut words = value.split(' ');
    let listener = words.next().unwrap_or("");
    let cost = Grouped(number_in(words.next()));
    let link = words.next().unwrap_or("");
    let left = Grouped(number_in(words.next()));
    let (place, label) = (item.place_of("to"), item.label(given.alloc)?);
    let question = nanos_question(given.alloc, item, "interval")?;
    reported.report(format!(in given.alloc;
        "{place}: {label} needs {cost} octets a cycle on a path to {listener}, but {link} on the shortest path has only {left} left{question}"
    )?)
}

/// Reports a stream for which a link of its branches has too little left, by the words of its line: `LINK LEFT`.
fn report_short(
    given: &CommandInput<'_>,
    reported: &mut ReportedLines,
    item: &WrittenItem<'_>,
    value: &str,
) -> Result<(), AllocError> {
    let (link, left) = value.split_once(' ').unwrap_or((value, ""));
    let left = Grouped(number_in(Some(left)));
    let (place, label) = (item.place(), item.label(given.alloc)?);
    let question = nanos_question(given.alloc, item, "interval")?;
    if is_in_step(item) && item.get("every").is_none() {
        return reported.report(format!(in given.alloc;
            "{place}: {label} has no phase in which each of its links has room; in the best phase {link} has {left} octets a cycle left{question}"
        )?);
    }
    reported.report(format!(in given.alloc;
        "{place}: {label} needs more octets a cycle than the {left} left on {link} of its path{question}"
    )?)
}

/// Reports a stream that may be late, by the words of its line: `LISTENER MOST DEADLINE`.
fn report_late(
    given: &CommandInput<'_>,
    reported: &mut ReportedLines,
    item: &WrittenItem<'_>,
    value: &str,
) -> Result<(), AllocError> {
    let mut words = value.split(' ');
    let listener = words.next().unwrap_or("");
    let (most, deadline) = (number_in(words.next()), number_in(words.next()));
    let over = Grouped(most.saturating_sub(deadline));
    let (most, deadline) = (Grouped(most), Grouped(deadline));
    let (place, label) = (item.place_of("deadline"), item.label(given.alloc)?);
    let question = nanos_question(given.alloc, item, "deadline")?;
    reported.report(format!(in given.alloc;
        "{place}: {label}: a frame takes up to {most} ns from its edge bridge to {listener}; its deadline leaves {deadline} ns for that, {over} ns too few{question}"
    )?)
}

/// Reports a listener to which no links lead.
fn report_no_way(
    given: &CommandInput<'_>,
    reported: &mut ReportedLines,
    item: &WrittenItem<'_>,
    listener: &str,
) -> Result<(), AllocError> {
    let (place, label) = (item.place_of("to"), item.label(given.alloc)?);
    reported.report(format!(in given.alloc;
        "{place}: {label}: no path of at most 16 links leads from its edge bridge to {listener}: add links (a link goes one way, unless duplex = true)"
    )?)
}

/// Reports a stream whose found paths have too many links together.
fn report_wide(
    given: &CommandInput<'_>,
    reported: &mut ReportedLines,
    item: &WrittenItem<'_>,
) -> Result<(), AllocError> {
    let (place, label) = (item.place_of("to"), item.label(given.alloc)?);
    let most = Grouped(given.limits.hops_within() as u64);
    let larger = given.larger(LARGE.hops_within() as u64)?;
    reported.report(format!(in given.alloc;
        "{place}: {label}: its paths have more than {most} links together{larger}: give some listeners a stream of their own"
    )?)
}

/// Reports each stream whose given paths have too many links together; or the one of this name, whose found paths do.
fn report_many_hops(
    given: &CommandInput<'_>,
    reported: &mut ReportedLines,
    stream: &str,
) -> Result<(), AllocError> {
    for item in &given.written.items(KeyOwner::Stream)? {
        if item.text("name") == Some(stream) && item.get("to").is_some() {
            return report_wide(given, reported, item);
        }
    }
    report_form_faults(given, reported, "TooManyHops")
}

/// Returns the cycle time that was tried, in ns: that of the line, or else the first candidate.
fn cycle_tried(given: &CommandInput<'_>, refusal: Refusal<'_>) -> Result<u64, AllocError> {
    let reported = cycle_of(refusal);
    if reported > 0 {
        return Ok(reported);
    }
    let candidates = candidates_of(given)?;
    Ok(candidates.first().copied().unwrap_or(0))
}

/// Returns what a stream promises at its edge bridge; `None` if it promises nothing there.
fn traffic_of(
    given: &CommandInput<'_>,
    item: &WrittenItem<'_>,
) -> Result<Option<Traffic>, AllocError> {
    let Some(network) = read_network(given)? else {
        return Ok(None);
    };
    let all = edge_traffic(given, &network)?;
    Ok(all.get(item.number as usize).copied().flatten())
}

/// Returns what in a stream's traffic prevents its talker from being in step on a cycle time, in ns: the key, and words; `None` if nothing
/// does. It is about frames when they enter the network.
fn step_words(
    given: &CommandInput<'_>,
    item: &WrittenItem<'_>,
    cycle: u64,
) -> Result<Option<(&'static str, String)>, AllocError> {
    let (alloc, sync) = (given.alloc, given.written.number("sync"));
    if item.get("interval").is_none() {
        let words = String::from_str(alloc, "in-step needs traffic: give interval and size")?;
        return Ok(Some(("in-step", words)));
    }
    if item.number("interval").checked_rem(cycle).unwrap_or(0) != 0 {
        let words = uneven_words(alloc, item, cycle)?;
        return Ok(Some(("interval", words)));
    }
    let Some(traffic) = traffic_of(given, item)? else {
        return Ok(None);
    };
    let first = traffic.offset().0.checked_rem(cycle).unwrap_or(0);
    let latest = first.saturating_add(traffic.jitter().0);
    if first < sync {
        let words = first_words(alloc, first, sync)?;
        return Ok(Some(("offset", words)));
    }
    if latest.saturating_add(sync) >= cycle {
        let words = latest_words(alloc, latest, sync, cycle)?;
        return Ok(Some(("jitter", words)));
    }
    Ok(None)
}

/// Reports a stream whose talker can't be in step on a cycle time, in ns.
fn report_out_of_step(
    given: &CommandInput<'_>,
    reported: &mut ReportedLines,
    item: &WrittenItem<'_>,
    cycle: u64,
) -> Result<(), AllocError> {
    match step_words(given, item, cycle)? {
        Some((key, words)) => {
            let (place, label) = (item.place_of(key), item.label(given.alloc)?);
            reported.report(format!(in given.alloc; "{place}: {label}: {words}")?)
        }
        None => Ok(()),
    }
}

/// Returns the words about a stream's interval that isn't a whole number of cycles, in ns.
fn uneven_words(alloc: Global, item: &WrittenItem<'_>, cycle: u64) -> Result<String, AllocError> {
    let question = nanos_question(alloc, item, "interval")?;
    let (interval, cycle) = (Grouped(item.number("interval")), Grouped(cycle));
    format!(in alloc;
        "an interval of {interval} ns isn't a multiple of the cycle time, {cycle} ns{question}"
    )
}

/// Returns the words about frames that may arrive sooner after a cycle's beginning than clocks may differ, in ns.
fn first_words(alloc: Global, first: u64, sync: u64) -> Result<String, AllocError> {
    let (first, sync) = (Grouped(first), Grouped(sync));
    format!(in alloc;
        "its first frames arrive {first} ns after a cycle's start, but clocks can differ by {sync} ns"
    )
}

/// Returns the words about frames that, by clocks that differ, may arrive after the end of the cycle in which an interval's first frame
/// arrives, all in ns.
fn latest_words(alloc: Global, latest: u64, sync: u64, cycle: u64) -> Result<String, AllocError> {
    let (latest, cycle) = (Grouped(latest), Grouped(cycle));
    if sync == 0 {
        return format!(in alloc;
            "its last frames arrive {latest} ns after a cycle's start, but a cycle is {cycle} ns long"
        );
    }
    let sync = Grouped(sync);
    format!(in alloc;
        "its last frames arrive {latest} ns after a cycle's start, clocks can differ by {sync} ns, and a cycle is {cycle} ns long"
    )
}

/// Reports why a stream of a name isn't placed.
fn report_unplaced(
    given: &CommandInput<'_>,
    reported: &mut ReportedLines,
    item: &WrittenItem<'_>,
    unplaced: Unplaced<'_>,
    cycle: u64,
) -> Result<(), AllocError> {
    match unplaced.fault {
        "NoWay" => report_no_way(given, reported, item, unplaced.value),
        "TooSoon" => report_too_soon(given, reported, item),
        "TooMuch" | "TooLittle" => report_needs(given, reported, item, unplaced),
        "BadInStep" => report_out_of_step(given, reported, item, cycle),
        "BudgetShort" => report_short(given, reported, item, unplaced.value),
        "Full" => report_full(given, reported, item, unplaced.value),
        "Late" => report_late(given, reported, item, unplaced.value),
        "TooManyStreams" => report_beyond(given, reported, item),
        _ => Ok(()),
    }
}

/// Reports each guard band that isn't shorter than a cycle time, the domain's first.
fn report_guards_at(
    given: &CommandInput<'_>,
    reported: &mut ReportedLines,
    cycle: u64,
) -> Result<(), AllocError> {
    if given.written.number("guard") >= cycle {
        report_guard_at(given, reported, cycle)?;
    }
    report_link_guards_at(given, reported, cycle)
}

/// Reports why a network file has no plan: each stream that is wrong in this way at any cycle time, or the one that isn't placed.
pub(crate) fn report_plan(
    given: &CommandInput<'_>,
    reported: &mut ReportedLines,
    refusal: Refusal<'_>,
) -> Result<(), AllocError> {
    if refusal.fault == "NoLink" {
        return report_no_link(given, reported, refusal.value);
    }
    let Some(unplaced) = unplaced_of(refusal) else {
        return report_guards_at(given, reported, cycle_of(refusal));
    };
    match unplaced.fault {
        "NoTalker" => return report_talkers_out(given, reported, unplaced.stream),
        "TwoAccessLinks" | "OtherEdge" | "OtherListeners" => {
            return report_entering(given, reported, unplaced.stream, unplaced.fault);
        }
        "NoListener" => return report_no_listeners(given, reported),
        "NameHeld" => return report_names_twice(given, reported),
        "TooManyHops" => return report_many_hops(given, reported, unplaced.stream),
        _ => {}
    }
    if is_of_form(unplaced.fault) {
        return report_form_faults(given, reported, unplaced.fault);
    }
    for item in &given.written.items(KeyOwner::Stream)? {
        if item.text("name") == Some(unplaced.stream) {
            let cycle = cycle_tried(given, refusal)?;
            return report_unplaced(given, reported, item, unplaced, cycle);
        }
    }
    Ok(())
}
