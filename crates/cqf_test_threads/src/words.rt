//! Admissions and requests over the line of three bridges.
use cqf_admission::{Admission, Call, Entry, Reply};
use cqf_test_fixtures::{Asked, is_request, line, request};
use cqf_topology::Domain;
use std::alloc::Global;

/// The path of the line.
const PATH: &[&[&str]] = &[&["a", "b", "c", "s"]];

/// The stream x.
pub(crate) const X: Asked = ("x", 1500, PATH);

/// Two streams: the line with seven others has room for only one of them.
pub(crate) const Y: Asked = ("y", 980, PATH);

pub(crate) const Z: Asked = ("z", 980, PATH);

/// No stream, and seven of 1,500 octets, which leave room for one of 980 octets.
pub(crate) const NONE: &[Asked] = &[];

pub(crate) const SEVEN: &[Asked] = &[
    ("n0", 1500, PATH),
    ("n1", 1500, PATH),
    ("n2", 1500, PATH),
    ("n3", 1500, PATH),
    ("n4", 1500, PATH),
    ("n5", 1500, PATH),
    ("n6", 1500, PATH),
];

/// Returns whether an entry is a seat's request for a stream, with that reply.
pub(crate) fn is_admit(entry: &Entry, seat: u16, asked: &Asked, reply: Reply) -> bool {
    match &entry.call {
        Call::Admit(request) => {
            entry.seat == seat && is_request(request, asked) && entry.reply == reply
        }
        _ => false,
    }
}

/// Returns whether a stream is granted.
fn is_granted(alloc: Global, line: &mut Admission, asked: &Asked) -> bool {
    match request(alloc, asked) {
        Ok(wanted) => line.admit(9, &wanted).is_ok(),
        Err(_) => false,
    }
}

/// Returns whether streams are granted, one after the other.
fn are_granted(alloc: Global, line: &mut Admission, streams: &[Asked]) -> bool {
    for asked in streams {
        if !is_granted(alloc, line, asked) {
            return false;
        }
    }
    true
}

/// Returns an admission over a domain that holds nothing yet.
fn admission_over(alloc: Global, domain: &Domain) -> Option<Admission> {
    match Admission::new(alloc, domain) {
        Ok(admission) => Some(admission),
        Err(_) => None,
    }
}

/// Returns an admission over the line that holds nothing yet.
fn new_line(alloc: Global) -> Option<Admission> {
    match Domain::read(alloc, line().as_bytes()) {
        Ok(domain) => admission_over(alloc, &domain),
        Err(_) => None,
    }
}

/// Returns an admission over the line that has granted these streams.
pub(crate) fn line_with(alloc: Global, streams: &[Asked]) -> Option<Admission> {
    let mut line = new_line(alloc)?;
    if are_granted(alloc, &mut line, streams) {
        Some(line)
    } else {
        None
    }
}
