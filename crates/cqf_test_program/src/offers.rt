//! Tests of reading offers.
use cqf_model::Offer;
use cqf_report::{TableFault, read_offers};
use cqf_test_fixtures::line;
use cqf_topology::Domain;
use std::alloc::Global;
use std::process::Abort;

/// An offer: its instant, its bridge, its stream and its octets.
type Offering = (u64, u16, &'static str, u32);

/// Texts, and their offers or the first fault of each.
const CASES: &[(&[u8], Result<&[Offering], TableFault>)] = &[
    (
        b"at,bridge,stream,octets\n0,a,y,64\n0,b,x,1522\n999999999999,c,x,64\n",
        Ok(&[
            (0, 0, "y", 64),
            (0, 1, "x", 1522),
            (999_999_999_999, 2, "x", 64),
        ]),
    ),
    (
        b"at,bridge,stream,octets\n0,a,x\n",
        Err(TableFault::BadRow(1)),
    ),
    (
        b"at,bridge,stream,octets\n0,a,x,63\n",
        Err(TableFault::BadRow(1)),
    ),
    (
        b"at,bridge,stream,octets\n0,s,x,64\n",
        Err(TableFault::BadRow(1)),
    ),
    (
        b"at,bridge,stream,octets\n0,a,X!,64\n",
        Err(TableFault::BadRow(1)),
    ),
    (
        b"at,bridge,stream,octets\n1000000000000,a,x,64\n",
        Err(TableFault::BadRow(1)),
    ),
    (
        b"at,bridge,stream,octets\n5,a,x,64\n4,a,x,64\n",
        Err(TableFault::OutOfOrder(2)),
    ),
    (
        b"at,bridge,stream,octets\n0,a,\xff,64\n",
        Err(TableFault::BadRow(1)),
    ),
    (
        b"at,bridge,stream,octets\n0,\"a,x,64\n",
        Err(TableFault::BadRow(1)),
    ),
    (b"at,octets\n", Err(TableFault::BadHeader)),
];

/// Whether the offers are these.
fn are_offers(offers: &[Offer], rows: &[Offering]) -> bool {
    offers.len() == rows.len()
        && offers.iter().zip(rows).all(|(offer, row)| {
            (
                offer.at.0,
                offer.bridge,
                offer.stream.as_str(),
                offer.octets,
            ) == *row
        })
}

/// Whether the text has exactly these offers, or is refused with this fault.
fn is_answered(
    alloc: Global,
    domain: &Domain,
    text: &[u8],
    wanted: Result<&[Offering], TableFault>,
) -> bool {
    match read_offers(alloc, domain, text) {
        Ok(offers) => matches!(wanted, Ok(rows) if are_offers(offers.as_slice(), rows)),
        Err(fault) => matches!(wanted, Err(cause) if fault == cause),
    }
}

/// Asserts the expected result of each text, over the domain of `text`.
fn answers_over(rt: &impl Abort, alloc: Global, text: &str) -> bool {
    match Domain::read(alloc, text.as_bytes()) {
        Ok(domain) => {
            for (text, wanted) in CASES {
                assert!(rt; is_answered(alloc, &domain, text, *wanted));
            }
            true
        }
        Err(_) => false,
    }
}

#[test]
fn offers_are_read_or_their_first_fault_is_written(rt: HostRuntime) {
    assert!(rt; answers_over(&rt, rt.alloc(), line()));
}
