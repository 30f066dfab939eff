//! Scripts read, and refused.
use cqf_admission::{Call, ScriptFault, read_script};
use cqf_test_fixtures::{Asked, request};
use cqf_topology::Request;
use std::alloc::Global;

/// A call by its seat, its kind, and the name of its stream.
type Wanted = (u16, &'static str, &'static str);

/// A script, its cycles, and its calls, or the fault of the first line that has one.
type Case = (&'static str, u32, Result<&'static [Wanted], &'static str>);

/// The stream `x` may be admitted.
const CASES: &[Case] = &[
    // a stream admitted; and withdrawn after a Seal, which the administrator after the last makes
    ("0 admit x\n", 5, Ok(&[(0, "admit", "x")])),
    (
        "0 admit x\nseal\n0 withdraw x\n",
        6,
        Ok(&[(0, "admit", "x"), (1, "seal", ""), (0, "withdraw", "x")]),
    ),
    // no lines; the last without its line feed; as many Seals as cycles; Seals alone
    ("", 0, Ok(&[])),
    ("1 admit x", 0, Ok(&[(1, "admit", "x")])),
    ("seal\nseal\n", 2, Ok(&[(0, "seal", ""), (0, "seal", "")])),
    // the greatest administrator, also after the Seal; any word may be withdrawn
    (
        "3 withdraw !~\nseal\n7 withdraw y\nseal",
        2,
        Ok(&[
            (3, "withdraw", "!~"),
            (8, "seal", ""),
            (7, "withdraw", "y"),
            (8, "seal", ""),
        ]),
    ),
    (
        "0 withdraw 0123456789012345678901234567890123456789012345678901234567890123\n",
        0,
        Ok(&[(
            0,
            "withdraw",
            "0123456789012345678901234567890123456789012345678901234567890123",
        )]),
    ),
    // lines of another form
    ("\n", 1, Err("BadLine 1")),
    ("0 admit x\n\nseal\n", 1, Err("BadLine 2")),
    ("8 admit x\n", 1, Err("BadLine 1")),
    ("00 admit x\n", 1, Err("BadLine 1")),
    (" admit x\n", 1, Err("BadLine 1")),
    ("0  admit x\n", 1, Err("BadLine 1")),
    ("0 admit  x\n", 1, Err("BadLine 1")),
    ("0 admit x \n", 1, Err("BadLine 1")),
    ("0 admit x\r\n", 1, Err("BadLine 1")),
    ("0 admit \n", 1, Err("BadLine 1")),
    ("0 admit\n", 1, Err("BadLine 1")),
    ("0 Admit x\n", 1, Err("BadLine 1")),
    ("0 withdraw x\x7f\n", 1, Err("BadLine 1")),
    ("0 withdraw é\n", 1, Err("BadLine 1")),
    ("0 seal\n", 1, Err("BadLine 1")),
    ("seal \n", 1, Err("BadLine 1")),
    (
        "0 withdraw 01234567890123456789012345678901234567890123456789012345678901234\n",
        1,
        Err("BadLine 1"),
    ),
    // a stream that isn't requested
    ("seal\n0 admit y\n", 1, Err("UnknownStream 2")),
    ("0 admit xx\n", 1, Err("UnknownStream 1")),
    // more Seals than cycles
    ("seal\n", 0, Err("TooMany 1")),
    ("seal\n0 admit x\nseal\n", 1, Err("TooMany 3")),
    // the first line that has a fault
    ("seal\nseal\n0 admit y\n9\n", 1, Err("TooMany 2")),
    ("0 admit y\n9\nseal\n", 0, Err("UnknownStream 1")),
    ("9\n0 admit y\nseal\n", 0, Err("BadLine 1")),
];

/// Two requests for `x`: a script means the first.
const REQUESTS: &[Asked] = &[("x", 1500, &[]), ("x", 64, &[])];

/// Returns whether the call is the expected one.
fn is_call(call: &(u16, Call), wanted: &Wanted) -> bool {
    let (seat, what, name) = *wanted;
    let same = match &call.1 {
        Call::Admit(request) => {
            what == "admit" && request.name.as_str() == name && request.octets == 1500
        }
        // a script of requests without paces requests no other
        Call::AdmitPaced(_) => false,
        Call::Withdraw(stream) => what == "withdraw" && stream.as_str() == name,
        Call::Seal => what == "seal",
    };
    same && call.0 == seat
}

/// Returns whether the calls are the expected ones.
fn are_calls(calls: &[(u16, Call)], wanted: &[Wanted]) -> bool {
    calls.len() == wanted.len()
        && calls
            .iter()
            .zip(wanted)
            .all(|(call, other)| is_call(call, other))
}

/// Returns whether the fault prints as this text.
fn prints(alloc: Global, fault: ScriptFault, wanted: &str) -> bool {
    match format!(in alloc; "{fault}") {
        Ok(text) => text.as_str() == wanted,
        Err(_) => false,
    }
}

/// Returns whether the script of a case gets its answer.
fn is_answered(alloc: Global, requests: &[Request], case: &Case) -> bool {
    let (script, cycles, wanted) = *case;
    match read_script(alloc, script.as_bytes(), requests, cycles) {
        Ok(calls) => matches!(wanted, Ok(rows) if are_calls(calls.as_slice(), rows)),
        Err(fault) => matches!(wanted, Err(text) if prints(alloc, fault, text)),
    }
}

/// Appends the requests. Returns whether that succeeds.
fn add_requests(alloc: Global, requests: &mut Vec<Request>) -> bool {
    for asked in REQUESTS {
        match request(alloc, asked) {
            Ok(wanted) => {
                if requests.push(wanted).is_err() {
                    return false;
                }
            }
            Err(_) => return false,
        }
    }
    true
}

/// Returns the first case that gets another answer, if there is one.
fn first_wrong(alloc: Global) -> Option<usize> {
    let mut requests = Vec::new(alloc);
    if !add_requests(alloc, &mut requests) {
        return Some(0);
    }
    for index in 0..CASES.len() {
        if !is_answered(alloc, requests.as_slice(), &CASES[index]) {
            return Some(index);
        }
    }
    None
}

#[test]
fn scripts_are_read_or_their_first_fault_is_reported(rt: HostRuntime) {
    assert_eq!(rt; first_wrong(rt.alloc()), None);
}
