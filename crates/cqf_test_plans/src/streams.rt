//! Streams of network files, read or refused.
use cqf_network::{FlowsFault, read_network_streams};
use std::alloc::Global;

/// A stream with traffic to two listeners, and one along a path.
const STREAMS: &str = "[[streams]]
name = \"mic\"
from = \"mic\"
to = [\"desk\", \"recorder\"]
interval = 125000
size = 704

[[streams]]
name = \"cue\"
octets = 512
path = [\"a\", \"desk\"]
deadline = 500000
";

/// Returns whether a fault prints as this text.
fn prints(alloc: Global, fault: FlowsFault, wanted: &str) -> bool {
    match format!(in alloc; "{fault}") {
        Ok(text) => text.as_str() == wanted,
        Err(_) => false,
    }
}

/// Returns whether the streams with a part of their text replaced get this answer.
fn answers(alloc: Global, old: &str, new: &str, wanted: &str) -> bool {
    let Ok(changed) = STREAMS.replacen(alloc, old, new, 1) else {
        return false;
    };
    match read_network_streams(alloc, changed.as_bytes()) {
        Ok(streams) => wanted == "read" && streams.len() == 2,
        Err(fault) => prints(alloc, fault, wanted),
    }
}

/// A part of the text, its replacement, and the answer.
const CHANGES: &[(&str, &str, &str)] = &[
    ("", "", "read"),
    ("octets = 512\n", "", "Missing octets"),
    ("size = 704\n", "", "Missing size"),
    ("from = \"mic\"\n", "", "Missing from"),
    ("to = [\"desk\", \"recorder\"]\n", "", "Missing to"),
    ("to = [\"desk\", \"recorder\"]", "to = \"desk\"", "read"),
    ("[\"desk\", \"recorder\"]", "[]", "BadValue to"),
    ("\"recorder\"", "\"desk\"", "BadValue to"),
    ("deadline = 500000", "from = \"a\"", "read"),
    ("deadline = 500000", "from = \"a@\"", "BadValue from"),
    ("from = \"mic\"", "from = \"mic@a\"", "read"),
    (
        "size = 704",
        "size = 704\nleast-size = 705",
        "BadValue least-size",
    ),
    ("deadline = 500000", "deadline = 0", "BadValue deadline"),
    ("size = 704", "size = 63", "BadValue size"),
    ("name = \"cue\"\n", "", "Missing name"),
];

#[test]
fn changed_streams_are_refused_by_their_first_fault(rt: HostRuntime) {
    for (old, new, wanted) in CHANGES {
        assert!(rt; answers(rt.alloc(), old, new, wanted), "{old} to {new}");
    }
}
