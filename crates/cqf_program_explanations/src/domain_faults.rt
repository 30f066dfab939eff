//! Domains that no network can have.

use crate::given::CommandInput;
use crate::network::{Network, WrittenLink};
use crate::places::{Grouped, Place};
use crate::planning::{candidates_of, is_duplex, is_of_domain, talker_of};
use crate::reported::ReportedLines;
use crate::words::shortened;
use crate::written::FoundKey;
use cqf_model::{LARGE, Limits};
use cqf_topology::LinkTimes;
use cqf_units::time_of;
use std::alloc::{AllocError, Global};
use std::collections::BTreeMap;

/// The keys of a domain's bridges, stations and links.
const COUNTED: [&str; 3] = ["bridges", "stations", "links"];

/// The octets of the gap after a frame (IEEE 802.3).
const GAP_OCTETS: u64 = 12;

/// The octets of a shortest frame with its preamble and start delimiter (IEEE 802.3).
const SHORTEST_OCTETS: u64 = 72;

/// Reports each name of an array that occurred before, and keeps the places of the others.
fn report_taken<'p>(
    given: &CommandInput<'_>,
    reported: &mut ReportedLines,
    firsts: &mut BTreeMap<&'p str, Place<'p>>,
    key: &str,
    names: &[FoundKey<'p>],
) -> Result<(), AllocError> {
    for found in names {
        let Some(name) = found.value.as_str() else {
            continue;
        };
        if let Some(first) = firsts.get(name) {
            if reported.is_counted() {
                continue;
            }
            let (place, shown) = (found.place, shortened(given.alloc, name)?);
            reported.report(format!(in given.alloc;
                "{place}: {key}: {shown} is already at {first}"
            )?)?;
        } else {
            firsts.insert(name, found.place)?;
        }
    }
    Ok(())
}

/// Reports each name that occurred before, bridges before stations.
pub(crate) fn report_name_taken(
    given: &CommandInput<'_>,
    reported: &mut ReportedLines,
) -> Result<(), AllocError> {
    let (bridges, stations) = (
        given.written.names("bridges")?,
        given.written.names("stations")?,
    );
    let mut firsts = BTreeMap::new(given.alloc);
    report_taken(given, reported, &mut firsts, "bridges", bridges.as_slice())?;
    report_taken(
        given,
        reported,
        &mut firsts,
        "stations",
        stations.as_slice(),
    )
}

/// Reports an access link that doesn't lead to a bridge.
fn report_talkers_end(
    given: &CommandInput<'_>,
    reported: &mut ReportedLines,
    network: &Network<'_>,
    link: &WrittenLink<'_>,
) -> Result<(), AllocError> {
    if network.is_bridge(link.from) || !network.is_node(link.from) || network.is_bridge(link.to) {
        return Ok(());
    }
    if reported.is_counted() {
        return Ok(());
    }
    let shown = shortened(given.alloc, link.to)?;
    let words = format!(in given.alloc;
        "to: {shown} is a station: a link from a station leads to a bridge"
    )?;
    report_of_link(given, reported, link, "to", words.as_str())
}

/// Reports an end of a link that isn't a node.
fn report_no_node(
    given: &CommandInput<'_>,
    reported: &mut ReportedLines,
    network: &Network<'_>,
    link: &WrittenLink<'_>,
    (key, name): (&str, &str),
) -> Result<(), AllocError> {
    if network.is_node(name) || reported.is_counted() {
        return Ok(());
    }
    let (shown, question) = (
        shortened(given.alloc, name)?,
        network.node_question(given.alloc, name)?,
    );
    let words = format!(in given.alloc; "{key}: no bridge or station {shown}{question}")?;
    report_of_link(given, reported, link, key, words.as_str())
}

/// Reports what is wrong with the ends of a link.
fn report_ends(
    given: &CommandInput<'_>,
    reported: &mut ReportedLines,
    network: &Network<'_>,
    link: &WrittenLink<'_>,
) -> Result<(), AllocError> {
    report_no_node(given, reported, network, link, ("from", link.from))?;
    if !network.is_node(link.to) {
        return report_no_node(given, reported, network, link, ("to", link.to));
    }
    if link.from != link.to {
        return report_talkers_end(given, reported, network, link);
    }
    if reported.is_counted() {
        return Ok(());
    }
    report_of_link(
        given,
        reported,
        link,
        "to",
        "to: a link's from and to are different nodes",
    )
}

/// Reports each end of a link that isn't a node which may be there.
pub(crate) fn report_unknown_names(
    given: &CommandInput<'_>,
    reported: &mut ReportedLines,
) -> Result<(), AllocError> {
    let network = given.network()?;
    for link in &network.links {
        report_ends(given, reported, &network, link)?;
    }
    Ok(())
}

/// Returns the name of a link that may be two: its number and its ends, in both directions.
fn both_directions(given: &CommandInput<'_>, link: &WrittenLink<'_>) -> Result<String, AllocError> {
    let label = link.item.label(given.alloc)?;
    if !is_duplex(link) {
        return Ok(label);
    }
    let (from, to) = (
        shortened(given.alloc, link.from)?,
        shortened(given.alloc, link.to)?,
    );
    format!(in given.alloc; "{label} and {to}>{from}")
}

/// Reports a link whose ends, in one direction or the other, an earlier link has.
fn report_twice(
    given: &CommandInput<'_>,
    reported: &mut ReportedLines,
    first: &WrittenLink<'_>,
    link: &WrittenLink<'_>,
    ends: (&str, &str),
) -> Result<(), AllocError> {
    if reported.is_counted() {
        return Ok(());
    }
    let (place, label) = (link.item.place(), both_directions(given, link)?);
    let (number, first_place) = (first.item.number, first.item.place());
    if !is_duplex(link) && !is_duplex(first) {
        return reported.report(format!(in given.alloc;
            "{place}: {label}: link {number} at {first_place} already has these ends"
        )?);
    }
    let (from, to) = (
        shortened(given.alloc, ends.0)?,
        shortened(given.alloc, ends.1)?,
    );
    let earlier = both_directions(given, first)?;
    reported.report(format!(in given.alloc;
        "{place}: {label}: {from}>{to} is already one of {earlier} at {first_place}"
    )?)
}

/// Reports a link whose ends an earlier one has, in one direction or the other; keeps the places of the others.
fn report_if_twice<'p>(
    given: &CommandInput<'_>,
    reported: &mut ReportedLines,
    firsts: &mut BTreeMap<(&'p str, &'p str), WrittenLink<'p>>,
    link: &WrittenLink<'p>,
    ends: (&'p str, &'p str),
) -> Result<(), AllocError> {
    if let Some(first) = firsts.get(&ends) {
        return report_twice(given, reported, first, link, ends);
    }
    firsts.insert(ends, *link)?;
    Ok(())
}

/// Reports each link whose ends are those of an earlier one; a link may be two, one in each direction.
pub(crate) fn report_links_twice(
    given: &CommandInput<'_>,
    reported: &mut ReportedLines,
) -> Result<(), AllocError> {
    let network = given.network()?;
    let mut firsts: BTreeMap<(&str, &str), WrittenLink<'_>> = BTreeMap::new(given.alloc);
    for link in &network.links {
        report_if_twice(given, reported, &mut firsts, link, (link.from, link.to))?;
        if is_duplex(link) {
            report_if_twice(given, reported, &mut firsts, link, (link.to, link.from))?;
        }
    }
    Ok(())
}

/// Reports each link that has `other` and leaves no station.
pub(crate) fn report_misplaced_others(
    given: &CommandInput<'_>,
    reported: &mut ReportedLines,
) -> Result<(), AllocError> {
    let network = given.network()?;
    for link in &network.links {
        if link.item.get("other").is_none() || talker_of(&network, link).is_some() {
            continue;
        }
        if reported.is_counted() {
            continue;
        }
        let other = Grouped(link.item.number("other"));
        let words = format!(in given.alloc;
            "other = {other}: only a link from a station has this key"
        )?;
        report_of_link(given, reported, link, "other", words.as_str())?;
    }
    Ok(())
}

/// Returns the greatest cycle time that is given, in ns.
fn greatest_cycle(given: &CommandInput<'_>) -> Result<u64, AllocError> {
    let mut most = 0;
    for cycle in &candidates_of(given)? {
        most = *cycle.max(&most);
    }
    Ok(most)
}

/// Returns what a link says of its times, if it is one of the domain's.
fn times_of(network: &Network<'_>, link: &WrittenLink<'_>) -> Option<LinkTimes> {
    if is_of_domain(network, link) {
        link.times
    } else {
        None
    }
}

/// Reports what is wrong with a link, at one of its keys.
fn report_of_link(
    given: &CommandInput<'_>,
    reported: &mut ReportedLines,
    link: &WrittenLink<'_>,
    key: &str,
    words: &str,
) -> Result<(), AllocError> {
    let (place, label) = (link.item.place_of(key), link.item.label(given.alloc)?);
    reported.report(format!(in given.alloc; "{place}: {label}: {words}")?)
}

/// Reports a guard band that isn't shorter than a cycle time.
pub(crate) fn report_guard_at(
    given: &CommandInput<'_>,
    reported: &mut ReportedLines,
    cycle: u64,
) -> Result<(), AllocError> {
    if let Some(found) = given.written.top("guard") {
        let (place, cycle) = (found.place, Grouped(cycle));
        let guard = Grouped(given.written.number("guard"));
        reported.report(format!(in given.alloc;
            "{place}: the guard band of {guard} ns isn't shorter than the cycle time, {cycle} ns"
        )?)?;
    }
    Ok(())
}

/// Reports a guard band that isn't shorter than any cycle time, by the greatest of these.
pub(crate) fn report_guard(
    given: &CommandInput<'_>,
    reported: &mut ReportedLines,
) -> Result<(), AllocError> {
    report_guard_at(given, reported, greatest_cycle(given)?)
}

/// Reports each link whose own guard band isn't shorter than any cycle time, by the greatest of these.
pub(crate) fn report_link_guards(
    given: &CommandInput<'_>,
    reported: &mut ReportedLines,
) -> Result<(), AllocError> {
    report_link_guards_at(given, reported, greatest_cycle(given)?)
}

/// Reports each link whose own guard band isn't shorter than a cycle time.
pub(crate) fn report_link_guards_at(
    given: &CommandInput<'_>,
    reported: &mut ReportedLines,
    cycle: u64,
) -> Result<(), AllocError> {
    let network = given.network()?;
    for link in &network.links {
        let own = times_of(&network, link).and_then(|times| times.guard);
        let Some(guard) = own.map(u64::from).filter(|guard| *guard >= cycle) else {
            continue;
        };
        if !reported.is_counted() {
            let (guard, cycle) = (Grouped(guard), Grouped(cycle));
            let words = format!(in given.alloc;
                "the guard band of {guard} ns isn't shorter than the cycle time, {cycle} ns"
            )?;
            report_of_link(given, reported, link, "guard", words.as_str())?;
        }
    }
    Ok(())
}

/// Returns the words about a delay that is too long for a guard band, if clocks may differ by `sync`, all in ns.
fn delay_words(alloc: Global, delay: u64, sync: u64, guard: u64) -> Result<String, AllocError> {
    let (delay, guard) = (Grouped(delay), Grouped(guard));
    if sync == 0 {
        return format!(in alloc;
            "a delay of {delay} ns isn't shorter than the guard band, {guard} ns: lengthen guard"
        );
    }
    let sync = Grouped(sync);
    format!(in alloc;
        "a delay of {delay} ns and a sync of {sync} ns together aren't shorter than the guard band, {guard} ns: lengthen guard"
    )
}

/// Reports each link whose greatest delay, plus how far clocks may differ, isn't shorter than its guard band.
pub(crate) fn report_delays(
    given: &CommandInput<'_>,
    reported: &mut ReportedLines,
) -> Result<(), AllocError> {
    let (network, guard, sync) = (
        given.network()?,
        given.written.short("guard"),
        given.written.short("sync"),
    );
    for link in &network.links {
        let Some(times) = times_of(&network, link) else {
            continue;
        };
        if times.has_long_delay(sync, guard) && !reported.is_counted() {
            let (delay, own) = (u64::from(times.delay), u64::from(times.guard_within(guard)));
            let words = delay_words(given.alloc, delay, u64::from(sync), own)?;
            report_of_link(given, reported, link, "delay", words.as_str())?;
        }
    }
    Ok(())
}

/// Reports each link on which the gap after a frame is longer than the guard band.
pub(crate) fn report_gaps(
    given: &CommandInput<'_>,
    reported: &mut ReportedLines,
) -> Result<(), AllocError> {
    let (network, guard) = (given.network()?, given.written.short("guard"));
    for link in &network.links {
        let Some(times) = times_of(&network, link) else {
            continue;
        };
        if times.has_long_gap(guard) && !reported.is_counted() {
            let (rate, gap, own) = (
                link.item.number("rate"),
                Grouped(time_of(GAP_OCTETS, times.rate)),
                Grouped(u64::from(times.guard_within(guard))),
            );
            let words = format!(in given.alloc;
                "the gap of 12 octets takes {gap} ns at {rate} Mb/s, more than the guard band, {own} ns: lengthen guard"
            )?;
            report_of_link(given, reported, link, "rate", words.as_str())?;
        }
    }
    Ok(())
}

/// Reports each link on which a shortest frame takes less, with the least delay, than clocks may differ.
pub(crate) fn report_syncs(
    given: &CommandInput<'_>,
    reported: &mut ReportedLines,
) -> Result<(), AllocError> {
    let (network, sync) = (given.network()?, given.written.short("sync"));
    for link in &network.links {
        let Some(times) = times_of(&network, link) else {
            continue;
        };
        if times.has_long_sync(sync) && !reported.is_counted() {
            let (shortest, least) = (time_of(SHORTEST_OCTETS, times.rate), u64::from(times.least));
            let most = Grouped(shortest.saturating_add(least));
            let (shortest, least) = (Grouped(shortest), Grouped(least));
            let words = format!(in given.alloc;
                "sync = {sync}: the shortest frame takes {shortest} ns and the least delay is {least} ns, so sync can be at most {most} ns"
            )?;
            report_of_link(given, reported, link, "delay", words.as_str())?;
        }
    }
    Ok(())
}

/// Returns the most access links that some limits allow: four for each station.
fn access_links_within(limits: Limits) -> u64 {
    let stations = limits.stations_within() as u64;
    stations.saturating_mul(4)
}

/// Returns how many links the domain of a network file has.
fn count_of_domain(given: &CommandInput<'_>) -> Result<u64, AllocError> {
    let network = given.network()?;
    let mut count: u64 = 0;
    for link in &network.links {
        let there = network.is_bridge(link.from);
        let back = is_duplex(link) && network.is_bridge(link.to);
        count = count.saturating_add(u64::from(there) + u64::from(back));
    }
    Ok(count)
}

/// Returns how many elements the arrays at a key of the top level have together.
fn count_of(given: &CommandInput<'_>, key: &str) -> Result<u64, AllocError> {
    if key == "links" {
        return count_of_domain(given);
    }
    let count = given.written.names(key)?.len();
    Ok(count as u64)
}

/// Returns the most values at a key that some limits allow.
fn most_of(limits: Limits, key: &str) -> usize {
    match key {
        "bridges" => limits.bridges_within(),
        "stations" => limits.stations_within(),
        _ => limits.links_within(),
    }
}

/// Returns how many access links a network has.
fn count_of_access(network: &Network<'_>) -> u64 {
    let mut count: u64 = 0;
    for link in &network.links {
        count = count.saturating_add(u64::from(talker_of(network, link).is_some()));
    }
    count
}

/// Reports too many access links.
fn report_many_access_links(
    given: &CommandInput<'_>,
    reported: &mut ReportedLines,
) -> Result<(), AllocError> {
    let count = count_of_access(&given.network()?);
    let most = access_links_within(given.limits);
    match given.written.top("links") {
        Some(found) if count > most => {
            let (place, count, most) = (found.place, Grouped(count), Grouped(most));
            let larger = given.larger(access_links_within(LARGE))?;
            reported.report(format!(in given.alloc;
                "{place}: {count} access links: a network has at most {most}{larger}"
            )?)
        }
        _ => Ok(()),
    }
}

/// Reports the keys with too many elements.
pub(crate) fn report_too_many(
    given: &CommandInput<'_>,
    reported: &mut ReportedLines,
) -> Result<(), AllocError> {
    for key in &COUNTED {
        let (count, most) = (count_of(given, key)?, most_of(given.limits, key) as u64);
        if count > most {
            if let Some(found) = given.written.top(key) {
                let (place, count, most) = (found.place, Grouped(count), Grouped(most));
                let larger = given.larger(most_of(LARGE, key) as u64)?;
                reported.report(format!(in given.alloc;
                    "{place}: {count} {key}: a network has at most {most}{larger}"
                )?)?;
            }
        }
    }
    report_many_access_links(given, reported)
}
