//! Gate lists as texts.
use cqf_gates::{
    ListFault, StreamEntry, StreamList, TextFault, TxList, read_tx, write_stream, write_tx,
};
use std::alloc::Global;

/// Texts, their entries, and the texts as which these are written.
const READ: &[(&[u8], &[(u8, u32)], &[u8])] = &[
    (b"80 120000", &[(0x80, 120_000)], b"80 120000\n"),
    // lower case and leading zeros
    (b"c0 007", &[(0xC0, 7)], b"C0 7\n"),
    (
        b"fF 4294967295",
        &[(0xFF, 4_294_967_295)],
        b"FF 4294967295\n",
    ),
];

/// Texts that are refused, and the first fault of each.
const REFUSED: &[(&[u8], TextFault)] = &[
    (b"", TextFault::List(ListFault::Empty)),
    (b"80 0", TextFault::List(ListFault::ZeroInterval)),
    (
        b"FF 1\nFF 1\nFF 1\nFF 1\nFF 1\nFF 1\nFF 1\nFF 1\nFF 1\nFF 1\nFF 1\nFF 1\nFF 1\nFF 1\nFF 1\nFF 1\nFF 1\n",
        TextFault::List(ListFault::TooMany),
    ),
    (b"80 120000\n0G 5000\n", TextFault::BadLine(2)),
    // an entry is two hexadecimal digits and an interval
    (b"\n", TextFault::BadLine(1)),
    (b"80", TextFault::BadLine(1)),
    (b"80 ", TextFault::BadLine(1)),
    (b"0G 5000", TextFault::BadLine(1)),
    (b"8 5000", TextFault::BadLine(1)),
    (b"80  5000", TextFault::BadLine(1)),
    (b"80 5000\r", TextFault::BadLine(1)),
    (b"80 4294967296", TextFault::BadLine(1)),
];

/// Returns whether the list is written as `wanted`.
fn is_written(alloc: Global, list: &TxList, wanted: &[u8]) -> bool {
    match write_tx(alloc, list) {
        Ok(text) => text.as_slice() == wanted,
        Err(_) => false,
    }
}

/// Returns whether the text is read as these entries, which are written as `wanted`.
fn is_read(alloc: Global, text: &[u8], entries: &[(u8, u32)], wanted: &[u8]) -> bool {
    match read_tx(text) {
        Ok(list) => list.entries() == entries && is_written(alloc, &list, wanted),
        Err(_) => false,
    }
}

/// Returns whether the text is refused with this fault.
fn is_refused(text: &[u8], fault: TextFault) -> bool {
    read_tx(text).err() == Some(fault)
}

#[test]
fn lists_are_read_and_written_or_their_first_fault_is_reported(rt: HostRuntime) {
    for (text, entries, wanted) in READ {
        assert!(rt; is_read(rt.alloc(), text, entries, wanted));
    }
    for (text, fault) in REFUSED {
        assert!(rt; is_refused(text, *fault));
    }
}

/// A reservation's list, with a maximum and without one.
const LIMITED_AND_NOT: &[StreamEntry] = &[
    StreamEntry {
        ipv: 6,
        interval: 125_000,
        octet_max: Some(1500),
    },
    StreamEntry {
        ipv: 7,
        interval: 125_000,
        octet_max: None,
    },
];

/// Returns whether the list of these entries is written as `wanted`.
fn stream_is_written(alloc: Global, entries: &[StreamEntry], wanted: &[u8]) -> bool {
    match StreamList::new(entries) {
        Ok(list) => { matches!(write_stream(alloc, &list), Ok(text) if text.as_slice() == wanted) }
        Err(_) => false,
    }
}

/// An entry in which nothing passes.
const SHUT: &[StreamEntry] = &[StreamEntry {
    ipv: 7,
    interval: 250_000,
    octet_max: Some(0),
}];

#[test]
fn an_entry_in_which_nothing_passes_is_written_as_closed(rt: HostRuntime) {
    assert!(rt; stream_is_written(rt.alloc(), SHUT, b"closed 250000\n"));
}

#[test]
fn the_list_of_a_reservation_is_written(rt: HostRuntime) {
    let wanted = b"open 6 125000 1500\nopen 7 125000 -\n".as_slice();
    assert!(rt; stream_is_written(rt.alloc(), LIMITED_AND_NOT, wanted));
}
