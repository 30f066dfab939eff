//! Reading of words.
use crate::program::is_wanting;
use cqf_output::{DONE, Stop, USAGE};
use cqf_program_words::{Job, read_words};
use cqf_refused_values::{Reported, mark, once, twice};
use std::alloc::Global;

/// The expected result for words: a job, or a stop with this status whose text contains this part.
#[derive(Clone, Copy)]
enum Wanted<'w> {
    Job(&'w Job),
    End(u8, &'static str),
}

/// Whether a text contains another one.
fn has(text: &[u8], part: &str) -> bool {
    match std::str::from_utf8(text) {
        Ok(text) => text.contains(part),
        Err(_) => false,
    }
}

/// Whether the result is the expected one.
fn is_wanted(read: &Result<Job, Stop>, wanted: Wanted<'_>) -> bool {
    match (read, wanted) {
        (Ok(job), Wanted::Job(other)) => *job == *other,
        (Err(stop), Wanted::End(status, part)) => {
            stop.status == status && has(stop.text.as_slice(), part)
        }
        _ => false,
    }
}

/// Tries to read the words.
fn read(alloc: Global, words: &[&str], wanted: Wanted<'_>) -> Reported {
    mark(alloc);
    let first = read_words(alloc, words);
    mark(alloc);
    if is_wanting(&first) {
        return twice(true, is_wanted(&read_words(alloc, words), wanted));
    }
    once(is_wanted(&first, wanted))
}

pub(crate) fn job_reported(alloc: Global) -> Reported {
    let job = Job::Run {
        cycles: 5,
        threads: false,
    };
    read(alloc, &["run", "--cycles", "5"], Wanted::Job(&job))
}

pub(crate) fn named_reported(alloc: Global) -> Option<Reported> {
    let name = String::from_str(alloc, "mic-l").ok()?;
    let job = Job::Hops {
        cycles: 5,
        stream: Some(name),
        frame: Some(7),
    };
    let words = ["hops", "--cycles", "5", "--stream", "mic-l", "--frame", "7"];
    Some(read(alloc, &words, Wanted::Job(&job)))
}

pub(crate) fn misuse_reported(alloc: Global) -> Reported {
    read(alloc, &["run"], Wanted::End(USAGE, "--cycles <N>"))
}

pub(crate) fn help_reported(alloc: Global) -> Reported {
    read(
        alloc,
        &["--help"],
        Wanted::End(DONE, "Usage: cqf <COMMAND>"),
    )
}
