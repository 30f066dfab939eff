//! Streams that are refused for their own form.

use crate::forms::{EVERY_FORM, NAME_FORM, PHASE_FORM};
use crate::given::CommandInput;
use crate::network::Network;
use crate::places::{Grouped, Place};
use crate::reading::{read_domain, request_of};
use crate::reported::ReportedLines;
use crate::words::shortened;
use crate::written::{KeyOwner, WrittenItem, number_of};
use cqf_admission::{count_indices, find_tree, judge_paced};
use cqf_model::{LARGE, MOST_EVERY, Node, Refused};
use cqf_topology::{Domain, PacedRequest};
use std::alloc::{AllocError, Global};
use std::collections::{BTreeMap, BTreeSet};

/// A stream as it is written, and its request.
#[derive(Drop)]
pub(crate) struct WrittenStream<'p> {
    pub item: WrittenItem<'p>,
    pub request: PacedRequest,
}

/// Returns the streams of the plan.
pub(crate) fn streams_of<'p>(
    given: &'p CommandInput<'_>,
) -> Result<Vec<WrittenStream<'p>>, AllocError> {
    let mut streams = Vec::new(given.alloc);
    for item in &given.written.items(KeyOwner::Stream)? {
        streams.push(WrittenStream {
            item: *item,
            request: request_of(given.alloc, item)?,
        })?;
    }
    Ok(streams)
}

/// Returns whether a link leads from one node of a domain to another.
pub(crate) fn leads(domain: &Domain, from: &str, to: &str) -> bool {
    match (domain.find(from), domain.find(to)) {
        (Some(Node::Bridge(from)), Some(to)) => domain.find_link(from, to).is_some(),
        _ => false,
    }
}

/// Returns whether a name is one of a domain's bridges.
fn is_bridge(domain: &Domain, name: &str) -> bool {
    matches!(domain.find(name), Some(Node::Bridge(_)))
}

/// Returns why paths are no tree of a domain.
fn refusal_of(domain: &Domain, paths: &[Vec<String>]) -> Option<Refused> {
    if count_indices(paths).is_none() {
        return None;
    }
    find_tree(domain, paths).err()
}

/// Returns why a path by itself is none of a domain.
fn refusal_of_path(domain: &Domain, paths: &[Vec<String>], number: usize) -> Option<Refused> {
    refusal_of(domain, paths.get(number..number.saturating_add(1))?)
}

impl WrittenStream<'_> {
    /// Returns why the stream is refused for its own form. If it has ends and no path, its paths aren't checked.
    fn refusal(&self, domain: &Domain) -> Option<Refused> {
        if count_indices(self.request.paths.as_slice()).is_none() {
            return None;
        }
        match judge_paced(domain, &self.request) {
            Err(refused @ (Refused::BadName | Refused::BadOctets | Refused::BadPace)) => Some(
                refused,
            ),
            Err(refused) if self.has_paths() => Some(refused),
            _ => None,
        }
    }

    /// Returns whether its paths are given, and not only their ends.
    fn has_paths(&self) -> bool {
        self.item.get("path").is_some() || self.item.get("paths").is_some()
    }

    /// Returns the place of its paths.
    fn paths_place(&self) -> Place<'_> {
        let key = if self.item.get("path").is_some() {
            "path"
        } else {
            "paths"
        };
        self.item.place_of(key)
    }

    /// Reports something about its paths.
    fn report_of_paths(
        &self,
        alloc: Global,
        reported: &mut ReportedLines,
        words: &str,
    ) -> Result<(), AllocError> {
        let (place, label) = (self.paths_place(), self.item.counted(alloc)?);
        reported.report(format!(in alloc; "{place}: {label}: {words}")?)
    }
}

/// Reports the cycles of a stream that aren't valid.
fn report_pace(
    given: &CommandInput<'_>,
    reported: &mut ReportedLines,
    asked: &WrittenStream<'_>,
) -> Result<(), AllocError> {
    let label = asked.item.counted(given.alloc)?;
    let (every, phase) = (asked.request.every, asked.request.phase);
    if MOST_EVERY.checked_rem(every) != Some(0) {
        let place = asked.item.place_of("every");
        return reported.report(format!(in given.alloc;
            "{place}: {label}: every = {every}: {EVERY_FORM}"
        )?);
    }
    let place = asked.item.place_of("phase");
    match asked.item.found("every") {
        Some(found) => {
            let other = found.place;
            reported.report(format!(in given.alloc;
                "{place}: {label}: phase = {phase}, and every = {every} at {other}: {PHASE_FORM}"
            )?)
        }
        None => reported.report(format!(in given.alloc;
            "{place}: {label}: phase = {phase}, but there is no every: {PHASE_FORM}"
        )?),
    }
}

/// Reports each node of a stream's paths that isn't there.
fn report_unknown_nodes(
    given: &CommandInput<'_>,
    reported: &mut ReportedLines,
    network: &Network<'_>,
    asked: &WrittenStream<'_>,
) -> Result<(), AllocError> {
    for path in &asked.request.paths {
        for name in path {
            if !network.is_node(name.as_str()) && !reported.is_counted() {
                let shown = shortened(given.alloc, name.as_str())?;
                let question = network.node_question(given.alloc, name.as_str())?;
                let words = format!(in given.alloc; "no bridge or station {shown}{question}")?;
                asked.report_of_paths(given.alloc, reported, words.as_str())?;
            }
        }
    }
    Ok(())
}

/// Returns the name at an index of a path; an empty one if there is none.
fn name_at(path: &[String], place: usize) -> &str {
    match path.get(place) {
        Some(name) => name.as_str(),
        None => "",
    }
}

/// Returns why a path is broken at an index, in words.
fn broken_words(
    given: &CommandInput<'_>,
    domain: &Domain,
    path: &[String],
    place: usize,
) -> Result<String, AllocError> {
    let (alloc, most) = (given.alloc, domain.limits().nodes_within());
    let (from, name) = (name_at(path, place.saturating_sub(1)), name_at(path, place));
    if path.is_empty() {
        return String::from_str(
            alloc,
            "the path is empty: it names bridges in order and then a station",
        );
    }
    if place >= most {
        let most = most.saturating_sub(1);
        let larger = given.larger(LARGE.nodes_within().saturating_sub(1) as u64)?;
        return format!(in alloc; "the path has more than {most} bridges{larger}");
    }
    if place == 0 && !is_bridge(domain, name) {
        return format!(in alloc; "the path begins at the station {name}: it begins at a bridge");
    }
    if place > 0 && !leads(domain, from, name) {
        return format!(in alloc; "no link {from}>{name}");
    }
    format!(in alloc; "the path ends at the bridge {name}: a path ends at a station")
}

/// Reports each broken path of a stream.
fn report_broken_paths(
    given: &CommandInput<'_>,
    reported: &mut ReportedLines,
    domain: &Domain,
    asked: &WrittenStream<'_>,
) -> Result<(), AllocError> {
    let paths = asked.request.paths.as_slice();
    if paths.is_empty() {
        return asked.report_of_paths(given.alloc, reported, "there is no path");
    }
    for (number, path) in paths.iter().enumerate() {
        if let Some(Refused::BrokenPath(place)) = refusal_of_path(domain, paths, number) {
            if !reported.is_counted() {
                let words = broken_words(given, domain, path.as_slice(), place)?;
                asked.report_of_paths(given.alloc, reported, words.as_str())?;
            }
        }
    }
    Ok(())
}

/// Reports each path of a stream that reaches a node twice.
fn report_loops(
    given: &CommandInput<'_>,
    reported: &mut ReportedLines,
    domain: &Domain,
    asked: &WrittenStream<'_>,
) -> Result<(), AllocError> {
    let paths = asked.request.paths.as_slice();
    for (number, path) in paths.iter().enumerate() {
        let Some(Refused::LoopingPath(place)) = refusal_of_path(domain, paths, number) else {
            continue;
        };
        if reported.is_counted() {
            continue;
        }
        let name = name_at(path.as_slice(), place);
        let first = path.iter().position(|other| other.as_str() == name);
        let (first, second) = (
            first.unwrap_or(0).saturating_add(1),
            place.saturating_add(1),
        );
        let words = format!(in given.alloc;
            "{name} is both node {first} and node {second} of the path"
        )?;
        asked.report_of_paths(given.alloc, reported, words.as_str())?;
    }
    Ok(())
}

/// Returns whether two paths make no tree in a domain.
fn are_apart(
    alloc: Global,
    domain: &Domain,
    first: &[String],
    second: &[String],
) -> Result<bool, AllocError> {
    let mut pair = Vec::new(alloc);
    for path in [first, second] {
        let mut copy = Vec::new(alloc);
        for name in path {
            copy.push(String::from_str(alloc, name.as_str())?)?;
        }
        pair.push(copy)?;
    }
    Ok(matches!(
        refusal_of(domain, pair.as_slice()),
        Some(Refused::NotATree(_))
    ))
}

/// Returns the first node of a path after its common beginning with another path that is in this one too.
fn meeting<'p>(first: &[String], second: &'p [String]) -> Option<&'p str> {
    let same = first
        .iter()
        .zip(second)
        .take_while(|(a, b)| a.as_str() == b.as_str());
    let after = same.count();
    let rest = first.get(after..)?;
    let met = second.get(after..)?.iter().find(|name| {
        rest.iter().any(|other| other.as_str() == name.as_str())
    })?;
    Some(met.as_str())
}

/// Returns why two paths make no tree, in words; paths are numbered from 1.
fn stray_words(
    alloc: Global,
    paths: &[Vec<String>],
    first: usize,
    second: usize,
) -> Result<String, AllocError> {
    let (one, other): (&[String], &[String]) = match (paths.get(first), paths.get(second)) {
        (Some(one), Some(other)) => (one.as_slice(), other.as_slice()),
        _ => (&[], &[]),
    };
    let (first, second) = (first.saturating_add(1), second.saturating_add(1));
    let (from, name) = (name_at(one, 0), name_at(other, 0));
    if from != name {
        return format!(in alloc;
            "path {second} begins at {name} and path {first} at {from}: give each a stream of its own"
        );
    }
    match meeting(one, other) {
        Some(name) => format!(in alloc;
            "{name} is reached by two paths, {first} and {second}: give each a stream of its own"
        ),
        None => format!(in alloc; "path {second} repeats path {first}"),
    }
}

/// Returns the first of the paths before one with which it makes no tree.
fn first_apart(
    alloc: Global,
    domain: &Domain,
    paths: &[Vec<String>],
    second: usize,
) -> Result<Option<usize>, AllocError> {
    let Some(path) = paths.get(second) else {
        return Ok(None);
    };
    for (first, other) in paths.iter().take(second).enumerate() {
        if are_apart(alloc, domain, other.as_slice(), path.as_slice())? {
            return Ok(Some(first));
        }
    }
    Ok(None)
}

/// Reports each path of a stream that makes no tree with those before it, with the first of these with which it makes none.
fn report_strays(
    given: &CommandInput<'_>,
    reported: &mut ReportedLines,
    domain: &Domain,
    asked: &WrittenStream<'_>,
) -> Result<(), AllocError> {
    let paths = asked.request.paths.as_slice();
    for second in 0..paths.len() {
        let Some(first) = first_apart(given.alloc, domain, paths, second)? else {
            continue;
        };
        if !reported.is_counted() {
            let words = stray_words(given.alloc, paths, first, second)?;
            asked.report_of_paths(given.alloc, reported, words.as_str())?;
        }
    }
    Ok(())
}

/// Reports how many links the tree of a stream has, which are too many.
fn report_hops(
    given: &CommandInput<'_>,
    reported: &mut ReportedLines,
    asked: &WrittenStream<'_>,
) -> Result<(), AllocError> {
    let mut nodes = BTreeSet::new(given.alloc);
    for path in &asked.request.paths {
        for name in path {
            nodes.insert(name.as_str())?;
        }
    }
    let hops = Grouped((nodes.len() as u64).saturating_sub(1));
    let most = Grouped(given.limits.hops_within() as u64);
    let larger = given.larger(LARGE.hops_within() as u64)?;
    let words = format!(in given.alloc;
        "its paths have {hops} links together: a tree has at most {most}{larger}"
    )?;
    asked.report_of_paths(given.alloc, reported, words.as_str())
}

/// Reports what is wrong with the form of a stream, for which it is refused.
fn report_form(
    given: &CommandInput<'_>,
    reported: &mut ReportedLines,
    domain: &Domain,
    asked: &WrittenStream<'_>,
    refused: Refused,
) -> Result<(), AllocError> {
    let item = &asked.item;
    match refused {
        Refused::UnknownNode(_) => report_unknown_nodes(given, reported, &given.network()?, asked),
        Refused::BrokenPath(_) => report_broken_paths(given, reported, domain, asked),
        Refused::LoopingPath(_) => report_loops(given, reported, domain, asked),
        Refused::NotATree(_) => report_strays(given, reported, domain, asked),
        _ if reported.is_counted() => Ok(()),
        Refused::BadName => {
            let (place, label) = (item.place_of("name"), item.counted(given.alloc)?);
            reported.report(format!(in given.alloc; "{place}: {label}: {NAME_FORM}")?)
        }
        Refused::BadOctets => {
            let (place, label) = (item.place_of("octets"), item.counted(given.alloc)?);
            let octets = asked.request.octets;
            reported.report(format!(in given.alloc;
                "{place}: {label}: octets = {octets}: a reservation is 64 to 1,000,000 octets a cycle"
            )?)
        }
        Refused::BadPace => report_pace(given, reported, asked),
        _ => report_hops(given, reported, asked),
    }
}

/// Returns the number of a stream's gate: its position from 1, if none is written.
fn gate_of(item: &WrittenItem<'_>) -> u64 {
    match item.get("x-gate") {
        Some(value) => number_of(value),
        None => item.number.saturating_add(1),
    }
}

/// Reports a stream with the gate of an earlier one.
fn report_gate_twice(
    given: &CommandInput<'_>,
    reported: &mut ReportedLines,
    item: &WrittenItem<'_>,
    first: &WrittenItem<'_>,
) -> Result<(), AllocError> {
    let (place, label) = (item.place_of("x-gate"), item.counted(given.alloc)?);
    let (number, first, gate) = (
        first.number.saturating_add(1),
        first.place_of("x-gate"),
        gate_of(item),
    );
    let own = if item.get("x-gate").is_some() {
        "x-gate ="
    } else {
        "without x-gate its gate is"
    };
    reported.report(format!(in given.alloc;
        "{place}: {label}: {own} {gate}: stream {number} at {first} already has this gate"
    )?)
}

/// Reports each stream with the gate of an earlier one.
pub(crate) fn report_gates_twice(
    given: &CommandInput<'_>,
    reported: &mut ReportedLines,
) -> Result<(), AllocError> {
    let mut firsts: BTreeMap<u64, WrittenItem<'_>> = BTreeMap::new(given.alloc);
    for item in &given.written.items(KeyOwner::Stream)? {
        if let Some(first) = firsts.get(&gate_of(item)) {
            if !reported.is_counted() {
                report_gate_twice(given, reported, item, first)?;
            }
        } else {
            firsts.insert(gate_of(item), *item)?;
        }
    }
    Ok(())
}

/// Returns whether a fault is one of a stream's own form.
pub(crate) fn is_of_form(fault: &str) -> bool {
    matches!(
        fault,
        "BadName"
            | "BadOctets"
            | "BadPace"
            | "UnknownNode"
            | "BrokenPath"
            | "LoopingPath"
            | "NotATree"
            | "TooManyHops"
    )
}

/// Reports each stream that is refused for a fault of its own form.
pub(crate) fn report_form_faults(
    given: &CommandInput<'_>,
    reported: &mut ReportedLines,
    fault: &str,
) -> Result<(), AllocError> {
    let Some(domain) = read_domain(given)? else {
        return Ok(());
    };
    for asked in &streams_of(given)? {
        let Some(refused) = asked.refusal(&domain) else {
            continue;
        };
        let line = format!(in given.alloc; "{refused}")?;
        if line.as_str().split(' ').next() == Some(fault) {
            report_form(given, reported, &domain, asked, refused)?;
        }
    }
    Ok(())
}

/// Reports each stream whose name an earlier one has.
pub(crate) fn report_names_twice(
    given: &CommandInput<'_>,
    reported: &mut ReportedLines,
) -> Result<(), AllocError> {
    let mut firsts: BTreeMap<&str, WrittenItem<'_>> = BTreeMap::new(given.alloc);
    for item in &given.written.items(KeyOwner::Stream)? {
        let name = item.text("name").unwrap_or("");
        let Some(first) = firsts.get(name) else {
            firsts.insert(name, *item)?;
            continue;
        };
        if reported.is_counted() {
            continue;
        }
        let (place, label) = (item.place_of("name"), item.counted(given.alloc)?);
        let (number, first) = (first.number.saturating_add(1), first.place_of("name"));
        reported.report(format!(in given.alloc;
            "{place}: {label}: stream {number} at {first} already has this name"
        )?)?;
    }
    Ok(())
}

/// Reports a stream beyond the most that are held at once.
pub(crate) fn report_beyond(
    given: &CommandInput<'_>,
    reported: &mut ReportedLines,
    item: &WrittenItem<'_>,
) -> Result<(), AllocError> {
    let (place, label) = (item.place(), item.counted(given.alloc)?);
    let most = Grouped(given.limits.streams_within() as u64);
    let larger = given.larger(LARGE.streams_within() as u64)?;
    reported.report(format!(in given.alloc;
        "{place}: {label}: at most {most} streams can be held at once{larger}"
    )?)
}

/// Reports each stream beyond the most that are held at once.
pub(crate) fn report_streams_beyond(
    given: &CommandInput<'_>,
    reported: &mut ReportedLines,
) -> Result<(), AllocError> {
    let items = given.written.items(KeyOwner::Stream)?;
    for item in items.iter().skip(given.limits.streams_within()) {
        if !reported.is_counted() {
            report_beyond(given, reported, item)?;
        }
    }
    Ok(())
}
