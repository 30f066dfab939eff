//! Streams at their edge bridges, after their talkers' access links. The numbers are worked out by hand.
use cqf_edge::{
    EdgeFault, EdgeFlows, EdgeStreams, edge_flows, edge_streams, read_streams_are_written,
};
use cqf_model::Limits;
use cqf_network::{NetworkDomain, read_network_flows, read_network_streams};
use cqf_units::Name;
use std::alloc::Global;

/// Two bridges, and a station with an access link to each. At 100 Mb/s a frame of 704 octets takes 56,960 ns with its preamble, and 57,920 ns
/// with its gap too.
const NETWORK: &str = "cycle = 125000
guard = 4000
bridges = [\"a\", \"b\"]
stations = [\"s\", \"t\"]
links = [
    { from = \"a\", to = \"b\", rate = 1000, delay = 500, duplex = true },
    { from = \"b\", to = \"s\", rate = 1000, delay = 500, duplex = true, other = 1522 },
    { from = \"t\", to = \"a\", rate = 100, delay = [400, 900] },
    { from = \"t\", to = \"b\", rate = 100, delay = 900 },
]
[[streams]]
name = \"x\"
octets = 1408
path = [\"a\", \"b\", \"s\"]
from = \"t@a\"
to = \"s\"
interval = 125000
size = 704
deadline = 500000
";

/// Returns the streams of the changed network at their edge bridges, with `new` in place of `old` in its text.
fn edges(alloc: Global, old: &str, new: &str) -> Option<Result<EdgeFlows, EdgeFault>> {
    let text = NETWORK.replacen(alloc, old, new, 1).ok()?;
    let network = NetworkDomain::read_one(alloc, text.as_bytes(), Limits::of_profile()).ok()?;
    read_streams_are_written();
    match read_network_flows(alloc, text.as_bytes()) {
        Ok(flows) => Some(edge_flows(alloc, &network, flows)),
        Err(_) => None,
    }
}

/// Returns the jitter, the offset and what is left of the deadline of the only stream.
fn terms(edge: &EdgeFlows) -> Option<(u64, u64, u32)> {
    let flow = edge.flows.first()?;
    let traffic = flow.traffic?;
    let left = flow.planned.deadline?;
    Some((traffic.jitter().0, traffic.offset().0, left))
}

/// Returns whether the changed network's stream has these terms at its edge bridge.
fn comes(alloc: Global, old: &str, new: &str, wanted: (u64, u64, u32)) -> bool {
    match edges(alloc, old, new) {
        Some(Ok(edge)) => terms(&edge) == Some(wanted),
        _ => false,
    }
}

/// Returns whether a fault prints as this text.
fn prints(alloc: Global, fault: EdgeFault, wanted: &str) -> bool {
    match format!(in alloc; "{fault}") {
        Ok(text) => text.as_str() == wanted,
        Err(_) => false,
    }
}

/// Returns the fault of the changed network.
fn fault_of(alloc: Global, old: &str, new: &str) -> Option<EdgeFault> {
    let found = edges(alloc, old, new)?;
    found.err()
}

/// Returns whether the changed network is refused with this fault.
fn refuses(alloc: Global, old: &str, new: &str, wanted: &str) -> bool {
    match fault_of(alloc, old, new) {
        Some(fault) => prints(alloc, fault, wanted),
        None => false,
    }
}

/// A part of the network, its replacement, and the jitter, the offset and what is left of the deadline then.
const TERMS: &[(&str, &str, (u64, u64, u32))] = &[
    // it waits for nothing: only the delay varies
    ("x", "x", (500, 57_360, 442_140)),
    // frames of 64 octets are 51,200 ns sooner
    (
        "size = 704",
        "size = 704\nleast-size = 64",
        (51_700, 6_160, 442_140),
    ),
    // one frame of no stream takes 123,360 ns with its gap, so two intervals' frames may come together
    (
        "[400, 900] }",
        "[400, 900], other = 1522 }",
        (123_860, 57_360, 260_860),
    ),
    // a burst waits equally long for its own frames each time, so its jitter is the same
    (
        "interval = 125000",
        "interval = 250000\nframes = 2",
        (500, 57_360, 384_220),
    ),
];

/// A part of the network, its replacement, and the fault.
const FAULTS: &[(&str, &str, &str)] = &[
    ("t@a", "t", "TwoAccessLinks x"),
    ("t@a", "t@b", "OtherEdge x"),
    ("t@a", "s@a", "NoTalker x"),
    ("t@a", "a@b", "NoTalker x"),
    ("t@a", "b", "OtherEdge x"),
    (
        "to = \"s\"\ninterval",
        "to = \"t\"\ninterval",
        "OtherListeners x",
    ),
];

#[test]
fn streams_come_to_their_edge_bridges_after_access_links(rt: HostRuntime) {
    for (old, new, wanted) in TERMS {
        assert!(rt; comes(rt.alloc(), old, new, *wanted), "{old} to {new}");
    }
}

#[test]
fn streams_whose_talkers_are_elsewhere_are_refused(rt: HostRuntime) {
    for (old, new, wanted) in FAULTS {
        assert!(rt; refuses(rt.alloc(), old, new, wanted), "{old} to {new}");
    }
}

/// Returns the name of the station of the changed network whose access link is full.
fn full_station(alloc: Global, old: &str, new: &str) -> Option<Name> {
    let edge = edges(alloc, old, new)?.ok()?;
    edge.full
}

#[test]
fn three_frames_in_an_interval_are_too_many_for_an_access_link(rt: HostRuntime) {
    let interval = "interval = 125000";
    let two = full_station(rt.alloc(), interval, "interval = 125000\nframes = 2");
    assert!(rt; two.is_none(), "two frames");
    let three = full_station(rt.alloc(), interval, "interval = 125000\nframes = 3");
    assert!(rt; three == Name::new(b"t"), "three frames");
}

/// Returns the streams of the changed network at their edge bridges, if it is to be planned.
fn planned_edges(alloc: Global, old: &str, new: &str) -> Option<Result<EdgeStreams, EdgeFault>> {
    let text = NETWORK.replacen(alloc, old, new, 1).ok()?;
    let network = NetworkDomain::read_one(alloc, text.as_bytes(), Limits::of_profile()).ok()?;
    read_streams_are_written();
    match read_network_streams(alloc, text.as_bytes()) {
        Ok(streams) => Some(edge_streams(alloc, &network, streams)),
        Err(_) => None,
    }
}

/// Returns the jitter of the only stream there.
fn planned_jitter(alloc: Global, old: &str, new: &str) -> Option<u64> {
    let edge = planned_edges(alloc, old, new)?.ok()?;
    let traffic = edge.streams.first()?.traffic?;
    Some(traffic.jitter().0)
}

#[test]
fn a_burst_in_step_is_later_by_its_own_wait(rt: HostRuntime) {
    let interval = "interval = 125000";
    let burst = planned_jitter(rt.alloc(), interval, "interval = 250000\nframes = 2");
    assert!(rt; burst == Some(500), "any cycles");
    let stepped = planned_jitter(
        rt.alloc(),
        interval,
        "in-step = true\ninterval = 250000\nframes = 2",
    );
    assert!(rt; stepped == Some(58_420), "in step");
}
