//! The streams of a network, as its file has them.
ghost use Rattle.std.specs.Prelude.{◌≡◌, IfOk, None, slice_index_or, string_bytes};
ghost use Rattle.cqf_edge.specs.EdgeValues.{edges_text};
ghost use Rattle.cqf_topology.specs.PacedText.{paced_text};
ghost use Rattle.cqf_traffic.specs.FlowsText.{flow_text};
ghost use Rattle.cqf_program_diff.specs.Streams.{least_size_text, stream_element, stream_elements, talker_name, talker_text, traffic_values, written_traffic};
ghost use Rattle.cqf_program_diff.specs.StreamValues.{AreTextsOf, values_of_texts};

use crate::element::Element;
use crate::texts::{bridge_name, number_text, optional_text, paths_text, station_name};
use cqf_edge::{EdgeFlows, Handed};
use cqf_network::TalkerLink;
use cqf_topology::{Domain, PacedRequest};
use cqf_traffic::{Flow, Traffic};
use cqf_units::Memory;
use std::alloc::Global;

/// What a talker promises, as texts by the keys of the file; empty texts without a promise.
#[derive(Debug, Drop)]
struct TrafficTexts {
    interval: String,
    frames: String,
    size: String,
    jitter: String,
    offset: String,
}

/// Returns the texts of a talker that promises nothing.
fn no_traffic(alloc: Global) -> TrafficTexts
    ensures { values_of_texts result ≡ traffic_values None }
{
    TrafficTexts {
        interval: String::new(alloc),
        frames: String::new(alloc),
        size: String::new(alloc),
        jitter: String::new(alloc),
        offset: String::new(alloc),
    }
}

/// Returns what a talker promises.
fn traffic_texts(alloc: Global, traffic: Option<Traffic>) -> Result<TrafficTexts, Memory>
    ensures { IfOk result (λ texts. values_of_texts texts ≡ traffic_values traffic) }
{
    let Some(traffic) = traffic else {
        return Ok(no_traffic(alloc));
    };
    let interval = number_text(alloc, traffic.interval().0)?;
    let frames = number_text(alloc, u64::from(traffic.frames()))?;
    let size = number_text(alloc, u64::from(traffic.size().0))?;
    let jitter = number_text(alloc, traffic.jitter().0)?;
    let offset = number_text(alloc, traffic.offset().0)?;
    Ok(TrafficTexts {
        interval,
        frames,
        size,
        jitter,
        offset,
    })
}

/// Returns the talker's station and the bridge in which its access link ends, as `STATION@BRIDGE`.
fn talker_name(alloc: Global, domain: &Domain, link: &TalkerLink) -> Result<String, Memory>
    ensures { IfOk result (λ text. string_bytes text ≡ talker_name domain.now link.now) }
{
    let (from, to) = (
        station_name(domain, link.station),
        bridge_name(domain, link.bridge),
    );
    let text = format!(in alloc; "{from}@{to}")?;
    Ok(text)
}

/// Returns the talker of a stream that is handed to an access link, as [`talker_name`] does. An empty text if none is.
fn talker_text(
    alloc: Global,
    domain: &Domain,
    talkers: &[TalkerLink],
    handed: &Option<Handed>,
) -> Result<String, Memory>
    ensures { IfOk result (λ text. string_bytes text ≡ talker_text domain.now talkers.now handed.now) }
{
    let Some(handed) = handed else {
        return Ok(String::new(alloc));
    };
    match talkers.get(handed.index) {
        Some(link) => talker_name(alloc, domain, link),
        None => Ok(String::new(alloc)),
    }
}

/// Returns the fewest octets of a frame that is handed to an access link, if frames may be larger; or else an empty text.
fn least_size_text(alloc: Global, handed: &Option<Handed>) -> Result<String, Memory>
    ensures { IfOk result (λ text. string_bytes text ≡ least_size_text handed.now) }
{
    let Some(handed) = handed else {
        return Ok(String::new(alloc));
    };
    if handed.shortest < handed.octets {
        number_text(alloc, u64::from(handed.shortest))
    } else {
        Ok(String::new(alloc))
    }
}

/// Returns what is promised at the hand-over; without an access link, at the edge bridge.
fn written_traffic(handed: &Option<Handed>, traffic: Option<Traffic>) -> Option<Traffic>
    ensures { result ≡ written_traffic handed.now traffic }
{
    match handed {
        Some(handed) => handed.traffic,
        None => traffic,
    }
}

/// What a stream asks for, as texts.
#[derive(Debug, Drop)]
struct RequestTexts {
    name: String,
    path: String,
    octets: String,
    every: String,
    phase: String,
}

/// Returns what a stream asks for.
fn request_texts(alloc: Global, request: &PacedRequest) -> Result<RequestTexts, Memory>
    ensures { IfOk result (λ texts. AreTextsOf (paced_text request.now) texts) }
{
    let name = String::from_str(alloc, request.name.as_str())?;
    let path = paths_text(alloc, request.paths.as_slice())?;
    let octets = number_text(alloc, u64::from(request.octets))?;
    let every = number_text(alloc, u64::from(request.every))?;
    let phase = number_text(alloc, u64::from(request.phase))?;
    Ok(RequestTexts {
        name,
        path,
        octets,
        every,
        phase,
    })
}

/// Returns a stream, with its deadline as it is written and what it hands to its access link.
fn stream_element(
    alloc: Global,
    domain: &Domain,
    talkers: &[TalkerLink],
    deadline: Option<u32>,
    handed: &Option<Handed>,
    flow: &Flow,
) -> Result<Element, Memory>
    ensures { IfOk result (λ element. element ≡ stream_element domain.now talkers.now deadline handed.now (flow_text flow.now)) }
{
    let RequestTexts {
        name,
        path,
        octets,
        every,
        phase,
    } = request_texts(alloc, &flow.planned.request)?;
    let deadline = optional_text(alloc, deadline)?;
    let from = talker_text(alloc, domain, talkers, handed)?;
    let least = least_size_text(alloc, handed)?;
    let TrafficTexts {
        interval,
        frames,
        size,
        jitter,
        offset,
    } = traffic_texts(alloc, written_traffic(handed, flow.traffic))?;
    let values = vec![in alloc;
        path, octets, every, phase, deadline, from, least, interval, frames, size, jitter, offset,
    ]?;
    Ok(Element::new(name, values))
}

/// Returns the deadline at an index, in nanoseconds; `None` also if there is no such index.
fn deadline_at(deadlines: &[Option<u32>], index: usize) -> Option<u32>
    ensures { result ≡ slice_index_or deadlines.now index None }
{
    match deadlines.get(index) {
        Some(deadline) => *deadline,
        None => None,
    }
}

/// Returns what the stream at an index hands to an access link; `None` also if there is no such index.
fn handed_at(all: &[Option<Handed>], index: usize) -> Option<Handed>
    ensures { result ≡ slice_index_or all.now index None }
{
    match all.get(index) {
        Some(handed) => *handed,
        None => None,
    }
}

/// Returns all streams, in their order.
///
/// # Errors
/// `Memory` if an allocation fails.
pub(crate) fn stream_elements(
    alloc: Global,
    domain: &Domain,
    talkers: &[TalkerLink],
    edge: &EdgeFlows,
) -> Result<Vec<Element>, Memory>
    ensures { IfOk result (λ elements. elements.items ≡ stream_elements domain.now talkers.now (edges_text edge.now)) }
{
    let flows = edge.flows.as_slice();
    let deadlines = edge.deadlines.as_slice();
    let handed = edge.handed.as_slice();
    let mut elements = Vec::with_capacity(alloc, flows.len())?;
    for index in 0..flows.len() {
        let deadline = deadline_at(deadlines, index);
        let one = handed_at(handed, index);
        let element = stream_element(alloc, domain, talkers, deadline, &one, &flows[index])?;
        elements.push(element)?;
    }
    Ok(elements)
}
