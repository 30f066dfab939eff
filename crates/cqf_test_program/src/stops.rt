//! Runs that end early.
use cqf_output::Stop;
use std::alloc::Global;
use std::io;
use std::io::ErrorKind;

/// Whether a stop has this status and this text.
fn ends(stop: &Stop, status: u8, text: &str) -> bool {
    stop.status == status && stop.text.as_slice() == text.as_bytes()
}

#[test]
fn a_refusal_names_the_part_and_the_fault(rt: HostRuntime) {
    let stop = Stop::refused(rt.alloc(), "list", &7);
    assert!(rt; ends(&stop, 1, "cqf: list: 7\n"));
}

#[test]
fn want_of_memory_is_written_by_its_status_alone(rt: HostRuntime) {
    let stop = Stop::memory(rt.alloc());
    assert!(rt; ends(&stop, 3, ""));
}

/// Whether a run whose words can't be read, for such an error, ends with this status and this text.
fn ends_without_words(alloc: Global, kind: ErrorKind, status: u8, text: &str) -> bool {
    let stop = Stop::without_words(alloc, &io::Error::from(kind));
    ends(&stop, status, text)
}

#[test]
fn words_that_are_no_text_are_misuse_and_lacking_memory_is_not(rt: HostRuntime) {
    assert!(rt; ends_without_words(rt.alloc(), ErrorKind::InvalidData, 2, "cqf: words\n"));
    assert!(rt; ends_without_words(rt.alloc(), ErrorKind::OutOfMemory, 3, ""));
}
