//! Streams that are to be planned, at their edge bridges.
ghost use Rattle.std.specs.Prelude.{◌≡◌, ◌&&◌, All, IfOk, IfSome, is_none, length, map};
ghost use Rattle.cqf_topology.specs.Fields.{Gives};
ghost use Rattle.cqf_network.specs.StreamsText.{stream_text, wanted_text};
ghost use Rattle.cqf_edge.specs.EdgeFlows.{IsHandedOne, IsPassageOne};
ghost use Rattle.cqf_edge.specs.EdgeStreams.{IsEntranceOne, IsWrittenStream, edge_streams, entrance_of_stream, entrance_with, entrances_of, handed_at};
ghost use Rattle.cqf_edge.specs.EdgeStreams.{handed_at_each, is_between, path_at_edge, reported_now, stream_at_edge, streams_at_edge, streams_from, word_at};
ghost use Rattle.cqf_edge.specs.Edge.{IsPassage};
ghost use Rattle.cqf_edge.specs.Entrances.{IsEntrance};
ghost use Rattle.cqf_edge.specs.EdgeValues.{edge_streams_text};

use crate::edge::{AccessTimes, Passage};
use crate::entrances::{Entrance, agrees_with, edge_name, entrance_of, listeners_agree};
use crate::faults::{EdgeFault, TalkerFault};
use crate::flows::{passages_of, times_of};
use crate::uses::{Handed, bounds_of, full_station};
use cqf_network::{NetworkDomain, Pacing, Stream, Talker, WantedPath};
use cqf_traffic::Traffic;
use cqf_units::{Memory, Name};
use std::alloc::Global;

/// The streams of a network that is to be planned, at their edge bridges.
#[derive(Drop)]
pub struct EdgeStreams {
    pub streams: Vec<Stream>,
    /// The times of their frames from the hand-over to the edge bridge, by the same indexes; `None` for a stream whose talker isn't a
    /// station or promises nothing.
    pub times: Vec<Option<AccessTimes>>,
    /// The name of the station of the first access link without a bound up to 10^9 ns.
    pub full: Option<Name>,
}

/// Returns where a stream of a talker enters. Its branches, if they are given, have to agree with the talker and with the listeners.
fn entrance_with(
    network: &NetworkDomain,
    stream: &Stream,
    talker: &Talker,
) -> Result<Entrance, TalkerFault>
    ensures value { result ≡ entrance_with network.now (stream_text stream.now) talker.now }
    ensures inside { IfOk result (IsEntrance network.now) }
{
    let entrance = entrance_of(network, talker)?;
    if let WantedPath::Along(paths) = &stream.path {
        agrees_with(network, paths.as_slice(), entrance)?;
        listeners_agree(paths.as_slice(), &stream.listeners)?;
    }
    Ok(entrance)
}

/// Returns whether a stream's path between its talker and its listeners is open.
fn is_between(path: &WantedPath) -> bool
    ensures { result ≡ is_between (wanted_text path.now) }
{
    match path {
        WantedPath::Along(_) => false,
        WantedPath::Between(..) => true,
    }
}

/// Returns where a stream enters, or why it doesn't enter as its text says. `NoTalker` is no fault here if the stream's path is open and
/// its text names no bridge with the talker: that fault is found when the stream is settled, and until then the stream enters nowhere.
fn reported_now(
    stream: &Stream,
    talker: &Talker,
    name: Name,
    found: Result<Entrance, TalkerFault>,
) -> Result<Option<Entrance>, EdgeFault>
    requires { name ≡ (stream_text stream.now).name }
    ensures { result ≡ reported_now (stream_text stream.now) talker.now found }
{
    match found {
        Ok(entrance) => Ok(Some(entrance)),
        Err(TalkerFault::NoTalker) => {
            let is_between = is_between(&stream.path);
            if is_between && talker.bridge.is_none() {
                return Ok(None);
            }
            Err(EdgeFault::Talker(name, TalkerFault::NoTalker))
        }
        Err(fault) => Err(EdgeFault::Talker(name, fault)),
    }
}

/// Returns where a stream enters if its text has a talker. A stream whose name isn't well-formed is never settled, so it enters nowhere.
fn entrance_of_stream(
    network: &NetworkDomain,
    stream: &Stream,
) -> Result<Option<Entrance>, EdgeFault>
    ensures value { result ≡ entrance_of_stream network.now (stream_text stream.now) }
    ensures inside { IfOk result (IsEntranceOne network.now) }
{
    let Some(talker) = &stream.talker else {
        return Ok(None);
    };
    let Some(name) = Name::new(stream.name.as_bytes()) else {
        return Ok(None);
    };
    let found = entrance_with(network, stream, talker);
    reported_now(stream, talker, name, found)
}

/// Returns where streams enter.
fn entrances_of(
    alloc: Global,
    network: &NetworkDomain,
    streams: &[Stream],
) -> Result<Vec<Option<Entrance>>, EdgeFault>
    ensures value { Gives EdgeFault.Memory (λ entrances. entrances.items) result (entrances_of network.now (map stream_text streams.now)) }
    ensures inside { IfOk result (λ entrances. All (IsEntranceOne network.now) entrances.items) }
    ensures each { IfOk result (λ entrances. length entrances.items ≡ length streams.now) }
{
    let mut entrances = Vec::with_capacity(alloc, streams.len())?;
    for stream in streams {
        let entrance = entrance_of_stream(network, stream)?;
        entrances.push(entrance)?;
    }
    Ok(entrances)
}

/// Returns what a stream hands to an access link.
fn handed_at(network: &NetworkDomain, stream: &Stream, entrance: Option<Entrance>) -> Option<Handed>
    requires inside { IsEntranceOne network.now entrance }
    requires written { IsWrittenStream (stream_text stream.now) }
    ensures value { result ≡ handed_at network.now.overhead (stream_text stream.now) entrance }
    ensures inside { IsHandedOne network.now result }
{
    match entrance {
        Some(Entrance::ByAccess(index)) => Some(Handed::over(
            network.overhead(),
            index,
            stream.octets.unwrap_or(0),
            stream.shortest,
            stream.traffic,
        )),
        _ => None,
    }
}

/// Returns what streams hand to access links.
fn handed_at_each(
    alloc: Global,
    network: &NetworkDomain,
    streams: &[Stream],
    entrances: &[Option<Entrance>],
) -> Result<Vec<Option<Handed>>, Memory>
    requires each { length entrances.now ≡ length streams.now }
    requires inside { All (IsEntranceOne network.now) entrances.now }
    requires written { All IsWrittenStream (map stream_text streams.now) }
    ensures value { IfOk result (λ handed. handed.items ≡ handed_at_each network.now.overhead (map stream_text streams.now) entrances.now) }
    ensures inside { IfOk result (λ handed. All (IsHandedOne network.now) handed.items) }
    ensures each { IfOk result (λ handed. length handed.items ≡ length streams.now) }
{
    let mut handed = Vec::with_capacity(alloc, streams.len())?;
    for (index, stream) in streams.iter().enumerate() {
        handed.push(handed_at(network, stream, entrances[index]))?;
    }
    Ok(handed)
}

/// Returns a stream's path from its edge bridge on.
fn path_at_edge(network: &NetworkDomain, entrance: Entrance, path: WantedPath) -> WantedPath
    requires { IsEntrance network.now entrance }
    ensures { wanted_text result ≡ path_at_edge network.now entrance (wanted_text path) }
{
    match path {
        WantedPath::Along(paths) => WantedPath::Along(paths),
        WantedPath::Between(_, to) => {
            WantedPath::Between(edge_name(network, entrance).copied(), to)
        }
    }
}

/// Returns a stream's promise at its edge bridge. If the cycles in which it is offered are still to be chosen, each of its frames has to come in
/// one of these cycles.
fn word_at(pacing: Pacing, passage: &Passage) -> Option<Traffic>
    requires { IsPassage passage.now }
    ensures { result ≡ word_at pacing passage.now }
{
    match pacing {
        Pacing::Given { .. } => passage.word(),
        Pacing::InStep => passage.word_in_step(),
    }
}

/// Returns a stream at its edge bridge.
fn stream_at_edge(
    network: &NetworkDomain,
    entrance: Option<Entrance>,
    passage: &Option<Passage>,
    stream: Stream,
) -> Stream
    requires entrance { IsEntranceOne network.now entrance }
    requires passage { IsPassageOne passage.now }
    ensures { stream_text result ≡ stream_at_edge network.now entrance passage.now (stream_text stream) }
{
    let Some(entrance) = entrance else {
        return stream;
    };
    let mut stream = stream;
    stream.path = path_at_edge(network, entrance, stream.path);
    let Some(passage) = passage else {
        return stream;
    };
    stream.deadline = passage.left_of(stream.deadline);
    stream.traffic = word_at(stream.pacing, passage);
    stream
}

/// Returns streams at their edge bridges.
fn streams_at_edge(
    alloc: Global,
    network: &NetworkDomain,
    entrances: &[Option<Entrance>],
    passages: &[Option<Passage>],
    all: Vec<Stream>,
) -> Result<Vec<Stream>, Memory>
    requires entrances { All (IsEntranceOne network.now) entrances.now }
    requires ready { All IsPassageOne passages.now }
    requires each_entrance { length entrances.now ≡ length all.items }
    requires each_passage { length passages.now ≡ length all.items }
    ensures { IfOk result (λ streams. map stream_text streams.items
        ≡ streams_at_edge network.now entrances.now passages.now (map stream_text all.items)) }
{
    let mut streams = Vec::with_capacity(alloc, all.len())?;
    for stream in all {
        let index = streams.len();
        streams.push(stream_at_edge(network, entrances[index], &passages[index], stream))?;
    }
    Ok(streams)
}

/// Returns the streams of a network at their edge bridges, given where they enter and what they hand to access links.
fn streams_from(
    alloc: Global,
    network: &NetworkDomain,
    all: Vec<Stream>,
    entrances: &[Option<Entrance>],
    handed: &[Option<Handed>],
) -> Result<EdgeStreams, Memory>
    requires entrances { All (IsEntranceOne network.now) entrances.now }
    requires handed { All (IsHandedOne network.now) handed.now }
    requires each_entrance { length entrances.now ≡ length all.items }
    requires each_handed { length handed.now ≡ length all.items }
    ensures { IfOk result (λ edge. edge_streams_text edge
        ≡ streams_from network.now (map stream_text all.items) entrances.now handed.now) }
{
    let bounds = bounds_of(alloc, network, handed)?;
    let all_bounds = bounds.as_slice();
    let passages = passages_of(alloc, network, all_bounds, handed)?;
    let all_passages = passages.as_slice();
    let times = times_of(alloc, all_passages)?;
    let streams = streams_at_edge(alloc, network, entrances, all_passages, all)?;
    let full = full_station(network, all_bounds);
    Ok(EdgeStreams {
        streams,
        times,
        full,
    })
}

/// Returns the streams of a network that is to be planned, at their edge bridges: each from the bridge where it enters, with its promise
/// there, and with what is left there of its deadline. A stream that enters nowhere is returned as it was. The jitter and the offset of
/// each stream's traffic are at most 10^9 ns, as in a text.
///
/// # Errors
/// `Talker` with the first stream that can't enter the network as its keys say. This is `NoTalker` only if the stream's path is given or
/// its text names a bridge with the talker. `Memory` if an allocation fails.
pub fn edge_streams(
    alloc: Global,
    network: &NetworkDomain,
    all: Vec<Stream>,
) -> Result<EdgeStreams, EdgeFault>
    requires { All IsWrittenStream (map stream_text all.items) }
    ensures { Gives EdgeFault.Memory edge_streams_text result (edge_streams network.now (map stream_text all.items)) }
{
    let wanted = all.as_slice();
    let entrances = entrances_of(alloc, network, wanted)?;
    let all_entrances = entrances.as_slice();
    let handed = handed_at_each(alloc, network, wanted, all_entrances)?;
    let all_handed = handed.as_slice();
    let edge = streams_from(alloc, network, all, all_entrances, all_handed)?;
    Ok(edge)
}
