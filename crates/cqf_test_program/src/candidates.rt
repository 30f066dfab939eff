//! Tests of words for candidates.
use cqf_program_words::{Job, candidates_named, read_words};
use std::alloc::Global;

/// Words for candidates, and the cycle times that they name; none if they name none.
const CANDIDATES: &[(&str, &[u32])] = &[
    ("10000", &[10_000]),
    ("00000000000010000000", &[10_000_000]),
    ("20000..100000/40000", &[20_000, 60_000, 100_000]),
    ("20000..99999/40000", &[20_000, 60_000]),
    ("10000..10000/1", &[10_000]),
    // a step beyond the last one leaves only the first, regardless of its number of digits
    ("200000..300000/100001", &[200_000]),
    ("200000..300000/99999999999999999999", &[200_000]),
    ("200000..300000/100000000000000000000", &[]),
    ("", &[]),
    ("9999", &[]),
    ("10000001", &[]),
    ("10000..", &[]),
    ("10000..20000", &[]),
    ("10000..20000/", &[]),
    ("10000..20000/0", &[]),
    ("20000..10000/1", &[]),
    ("10000..10000001/1000000", &[]),
    ("9999..20000/1000", &[]),
    ("10000.20000/1000", &[]),
    ("10000...20000/1000", &[]),
    ("10000..20000/1000/1000", &[]),
    ("10000/1000", &[]),
    ("+10000", &[]),
    ("10000..11000/1", &[]),
];

/// Whether the word names these candidates.
fn names_these(alloc: Global, word: &str, wanted: &[u32]) -> bool {
    match candidates_named(word) {
        Some(candidates) => match candidates.list(alloc) {
            Ok(times) => times.as_slice() == wanted,
            Err(_) => false,
        },
        None => wanted.is_empty(),
    }
}

#[test]
fn words_name_candidates(rt: HostRuntime) {
    for (word, wanted) in CANDIDATES {
        assert!(rt; names_these(rt.alloc(), word, wanted));
    }
}

/// Returns how many candidates the word for `plan` gives, with the first and the last.
fn given_by(alloc: Global, word: &str) -> Option<(usize, u32, u32)> {
    let Ok(Job::Plan { options }) = read_words(alloc, &["plan", "--table", "--cycle", word]) else {
        return None;
    };
    if !options.table {
        return None;
    }
    let given = options.given?;
    match given.list(alloc) {
        Ok(times) => Some((times.len(), *times.first()?, *times.last()?)),
        Err(_) => None,
    }
}

#[test]
fn a_plan_is_given_at_most_1000_candidates(rt: HostRuntime) {
    let alloc = rt.alloc();
    assert!(rt; given_by(alloc, "200000..300000/2000") == Some((51, 200_000, 300_000)));
    assert!(rt; given_by(alloc, "10000..10999/1") == Some((1_000, 10_000, 10_999)));
    assert!(rt; given_by(alloc, "10000..10000000/10000") == Some((1_000, 10_000, 10_000_000)));
    assert!(rt; given_by(alloc, "10000..11000/1").is_none());
}
