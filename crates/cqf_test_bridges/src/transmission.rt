//! Gate lists.
use cqf_gates::{ListFault, OpenFor, TxList};
use cqf_units::Nanos;

/// A query of a gate list for an instant, and its expected result.
enum Ask {
    /// How long a class is open.
    OpenFor(u64, u8, OpenFor),
    /// The index of the entry in force, and how long it has been in force.
    EntryAt(u64, (usize, u32)),
    MaskAt(u64, u8),
}

/// Gate lists, and their expected results.
const CASES: &[(&[(u8, u32)], &[Ask])] = &[
    // a class doesn't close between two entries in which it is open
    (
        &[(0xC0, 1000), (0x80, 1000)],
        &[
            Ask::OpenFor(1999, 7, OpenFor::Always),
            Ask::OpenFor(425, 6, OpenFor::Until(Nanos(1000))),
            Ask::OpenFor(1500, 6, OpenFor::Closed),
        ],
    ),
    (
        &[(0x80, 1000), (0xC0, 1000)],
        &[Ask::OpenFor(1500, 6, OpenFor::Until(Nanos(2000)))],
    ),
    // the list of a port opens class 7 in even cycles and class 6 in odd ones
    (
        &[(0x80, 120_000), (0x00, 5000), (0x40, 120_000), (0x00, 5000)],
        &[
            Ask::OpenFor(0, 7, OpenFor::Until(Nanos(120_000))),
            Ask::OpenFor(130_000, 6, OpenFor::Until(Nanos(245_000))),
            Ask::EntryAt(120_000, (1, 0)),
            Ask::EntryAt(250_010, (0, 10)),
            Ask::MaskAt(125_000, 0x40),
        ],
    ),
];

/// Returns whether the list gives the expected result.
fn answers(list: &TxList, ask: &Ask) -> bool {
    match *ask {
        Ask::OpenFor(at, class, wanted) => {
            at < 1_000_000 && class < 8 && list.open_for(Nanos(at), class) == wanted
        }
        Ask::EntryAt(at, wanted) => list.entry_at(Nanos(at)) == wanted,
        Ask::MaskAt(at, wanted) => list.mask_at(Nanos(at)) == wanted,
    }
}

/// Returns whether the list and its copy have these entries, and it gives the expected results.
fn answers_all(list: &TxList, entries: &[(u8, u32)], asks: &[Ask]) -> bool {
    list.entries() == entries
        && list.copied().entries() == entries
        && asks.iter().all(|ask| answers(list, ask))
}

/// Returns whether a list of these entries gives the expected results.
fn list_answers(entries: &[(u8, u32)], asks: &[Ask]) -> bool {
    match TxList::new(entries) {
        Ok(list) => answers_all(&list, entries, asks),
        Err(_) => false,
    }
}

#[test]
fn a_list_reports_what_is_open_and_for_how_long(rt: HostRuntime) {
    for (entries, asks) in CASES {
        assert!(rt; list_answers(entries, asks));
    }
}

const SEVENTEEN: [(u8, u32); 17] = [(0xFF, 1); 17];

/// Entries that make no list, and the fault.
const FAULTS: &[(&[(u8, u32)], ListFault)] = &[
    (&[], ListFault::Empty),
    (&SEVENTEEN, ListFault::TooMany),
    (&[(0x80, 0)], ListFault::ZeroInterval),
];

/// Returns whether the entries are refused with this fault.
fn is_refused(entries: &[(u8, u32)], fault: ListFault) -> bool {
    TxList::new(entries).err() == Some(fault)
}

#[test]
fn each_fault_is_reported(rt: HostRuntime) {
    for (entries, fault) in FAULTS {
        assert!(rt; is_refused(entries, *fault));
    }
}
