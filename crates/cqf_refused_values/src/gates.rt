//! Writing of gate lists.
use crate::{Reported, is_text, trial};
use cqf_gates::{StreamEntry, StreamList, TxList, write_stream, write_tx};
use std::alloc::Global;

/// The list of a port with a cycle of 125,000 ns and a guard band of 5,000 ns.
pub(crate) const LIST: &[(u8, u32)] = &[
    (0xbf, 120_000),
    (0x00, 5_000),
    (0x7f, 120_000),
    (0x00, 5_000),
];

const LIST_TEXT: &str = "BF 120000\n00 5000\n7F 120000\n00 5000\n";

/// The gate of a stream of 1,500 octets per cycle.
const GATE: &[StreamEntry] = &[
    StreamEntry {
        ipv: 6,
        interval: 125_000,
        octet_max: Some(1500),
    },
    StreamEntry {
        ipv: 7,
        interval: 125_000,
        octet_max: Some(1500),
    },
];

const GATE_TEXT: &str = "open 6 125000 1500\nopen 7 125000 1500\n";

pub(crate) fn write_tx_reported(alloc: Global) -> Option<Reported> {
    let list = TxList::new(LIST).ok()?;
    Some(trial!(
        alloc,
        write_tx(alloc, &list),
        Err(_),
        list.entries() == LIST,
        |answer| is_text(answer, LIST_TEXT)
    ))
}

pub(crate) fn write_stream_reported(alloc: Global) -> Option<Reported> {
    let list = StreamList::new(GATE).ok()?;
    Some(trial!(
        alloc,
        write_stream(alloc, &list),
        Err(_),
        list.entries() == GATE,
        |answer| is_text(answer, GATE_TEXT)
    ))
}
