//! Tests of reading background frames.
use cqf_model::Background;
use cqf_report::{TableFault, read_background};
use cqf_test_fixtures::one_link;
use cqf_topology::Domain;
use cqf_units::Nanos;
use std::alloc::Global;
use std::process::Abort;

/// Texts, and their background frames, all of the first link, or the first fault of each.
const CASES: &[(&str, Result<&[Background], TableFault>)] = &[
    (
        "at,from,to,class,octets\n120000,a,s,0,1522\n999999999999,a,s,5,64",
        Ok(&[
            Background {
                at: Nanos(120_000),
                link: 0,
                class: 0,
                octets: 1522,
            },
            Background {
                at: Nanos(999_999_999_999),
                link: 0,
                class: 5,
                octets: 64,
            },
        ]),
    ),
    ("at,from,to,class,octets\n", Ok(&[])),
    (
        "at,from,to,class,octets\n200,a,s,6,136\n",
        Err(TableFault::BadRow(1)),
    ),
    (
        "at,from,to,class,octets\n200,s,a,0,136\n",
        Err(TableFault::BadRow(1)),
    ),
    (
        "at,from,to,class,octets\n200,a,a,0,136\n",
        Err(TableFault::BadRow(1)),
    ),
    (
        "at,from,to,class,octets\n200,a,q,0,136\n",
        Err(TableFault::BadRow(1)),
    ),
    (
        "at,from,to,class,octets\n200,a,s,0,63\n",
        Err(TableFault::BadRow(1)),
    ),
    (
        "at,from,to,class,octets\n200,a,s,0,1523\n",
        Err(TableFault::BadRow(1)),
    ),
    (
        "at,from,to,class,octets\n1000000000000,a,s,0,64\n",
        Err(TableFault::BadRow(1)),
    ),
    (
        "at,from,to,class,octets\n200,a,s,0\n",
        Err(TableFault::BadRow(1)),
    ),
    (
        "at,from,to,class,octets\n2,a,s,0,64\n1,a,s,0,64\n",
        Err(TableFault::OutOfOrder(2)),
    ),
    ("at,bridge,stream,octets\n", Err(TableFault::BadHeader)),
    ("", Err(TableFault::BadHeader)),
];

/// Whether the text has exactly these frames, or is refused with this fault.
fn is_answered(
    alloc: Global,
    domain: &Domain,
    text: &str,
    wanted: Result<&[Background], TableFault>,
) -> bool {
    match read_background(alloc, domain, text.as_bytes()) {
        Ok(frames) => matches!(wanted, Ok(rows) if frames.as_slice() == rows),
        Err(fault) => matches!(wanted, Err(cause) if fault == cause),
    }
}

/// Asserts the expected result of each text, over the domain of `text`.
fn answers_over(rt: &impl Abort, alloc: Global, text: &str) -> bool {
    match Domain::read(alloc, text.as_bytes()) {
        Ok(domain) => {
            for (text, wanted) in CASES {
                assert!(rt; is_answered(alloc, &domain, text, *wanted), "{text}");
            }
            true
        }
        Err(_) => false,
    }
}

#[test]
fn frames_are_read_or_their_first_fault_is_written(rt: HostRuntime) {
    assert!(rt; answers_over(&rt, rt.alloc(), one_link()));
}
