//! Tests of reading arrivals.
use cqf_model::Arrival;
use cqf_report::{TableFault, read_arrivals};
use cqf_units::Nanos;
use std::alloc::Global;

/// The arrival with which most texts begin.
const FIRST: Arrival = Arrival {
    at: Nanos(10),
    class: 6,
    octets: 64,
    frame: 1,
};

/// An arrival whose numbers are the greatest that are allowed.
const GREATEST: Arrival = Arrival {
    at: Nanos(10),
    class: 7,
    octets: 1522,
    frame: u32::MAX,
};

/// Texts, and their arrivals or the first fault of each.
const CASES: &[(&[u8], Result<&[Arrival], TableFault>)] = &[
    // rows in order
    (
        b"at,class,octets,frame\n10,6,64,1\n10,7,1522,4294967295\n",
        Ok(&[FIRST, GREATEST]),
    ),
    // quotes, line ends and empty lines, as CSV allows
    (
        b"\"at\",class,octets,frame\r\n\"10\",6,0064,1\r\n",
        Ok(&[FIRST]),
    ),
    (b"at,class,octets,frame\n10,6,64,1", Ok(&[FIRST])),
    (b"at,class,octets,frame\n\n10,6,64,1\n\n", Ok(&[FIRST])),
    // a header alone
    (b"at,class,octets,frame\n", Ok(&[])),
    (b"at,class,octets,frame", Ok(&[])),
    // another header
    (b"", Err(TableFault::BadHeader)),
    (b"at,class,octets\n", Err(TableFault::BadHeader)),
    (b"at,class,octets,frame,more\n", Err(TableFault::BadHeader)),
    (b"class,at,octets,frame\n", Err(TableFault::BadHeader)),
    (b"\xff", Err(TableFault::BadHeader)),
    // a bad row, or one out of order
    (
        b"at,class,octets,frame\n10,6,64,1\n10,8,64,2\n",
        Err(TableFault::BadRow(2)),
    ),
    (
        b"at,class,octets,frame\n10,6,63,1\n",
        Err(TableFault::BadRow(1)),
    ),
    (
        b"at,class,octets,frame\n+5,6,64,1\n",
        Err(TableFault::BadRow(1)),
    ),
    (
        b"at,class,octets,frame\n100000001,6,64,1\n",
        Err(TableFault::BadRow(1)),
    ),
    (
        b"at,class,octets,frame\n10,6,64\n",
        Err(TableFault::BadRow(1)),
    ),
    (
        b"at,class,octets,frame\n10,6,64,\xff\n",
        Err(TableFault::BadRow(1)),
    ),
    (
        b"at,class,octets,frame\n10,6,64,1\n9,6,64,2\n",
        Err(TableFault::OutOfOrder(2)),
    ),
    (
        b"at,class,octets,frame\n10,6,64,1\n9,8,64,2\n",
        Err(TableFault::BadRow(2)),
    ),
];

/// Whether the text has exactly these arrivals, or is refused with this fault.
fn is_answered(alloc: Global, text: &[u8], wanted: Result<&[Arrival], TableFault>) -> bool {
    match read_arrivals(alloc, text) {
        Ok(arrivals) => matches!(wanted, Ok(rows) if arrivals.as_slice() == rows),
        Err(fault) => matches!(wanted, Err(cause) if fault == cause),
    }
}

#[test]
fn arrivals_are_read_or_their_first_fault_is_written(rt: HostRuntime) {
    for (text, wanted) in CASES {
        assert!(rt; is_answered(rt.alloc(), text, *wanted));
    }
}
