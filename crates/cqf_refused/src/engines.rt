//! Complete runs of the program, over a reader and writers that have their room from the start.
ghost use Rattle.std.specs.Prelude.{◌≡◌, IfOk, false};

use crate::answers::{ALONG, REPORTED};
use cqf_program_engine::{CheckedSink as Written, Heard, engine};
use cqf_refused_values::{Reported, mark, once, twice};
use cqf_units::Memory;
use std::alloc::Global;
use std::sync::Wait;
use std::thread::Threads;

/// The writers of a run.
type BothWriters = (Written<Vec<u8>>, Written<Vec<u8>>);

/// Returns writers with room for everything that is written.
fn writers(alloc: Global) -> Result<BothWriters, Memory>
    ensures { IfOk result (λ both. both.0.refused ≡ false) }
{
    let output = Written::new(Vec::with_capacity(alloc, 4096)?);
    Ok((output, Written::new(Vec::with_capacity(alloc, 4096)?)))
}

/// Whether a writer has this text.
fn has(writer: &Written<Vec<u8>>, text: &str) -> bool {
    writer.writer().as_slice() == text.as_bytes() && !writer.is_refused()
}

/// Whether a run wrote everything.
fn is_done(status: u8, writers: &BothWriters) -> bool {
    status == 0 && has(&writers.0, REPORTED) && has(&writers.1, "")
}

/// Whether a run ended for lack of memory. Only a run on threads may lack it in a bridge, or in a thread that wasn't
/// started.
fn is_wanting(status: u8, writers: &BothWriters, on_threads: bool) -> bool {
    if !has(&writers.0, "") {
        return false;
    }
    let line = writers.1.writer().as_slice();
    let of_thread = line == b"cqf: run: Spawn\n".as_slice()
        || (line.starts_with(b"cqf: run: Bridge ") && line.ends_with(b" Memory\n"));
    match status {
        3 => line == b"cqf: out of memory\n".as_slice(),
        4 => on_threads && of_thread,
        _ => false,
    }
}

/// Whether a run of these words writes everything.
fn is_done_again<R: Threads + Wait + Sync>(rt: &R, alloc: Global, words: &[&str]) -> bool {
    let mut input = Heard::new(alloc, ALONG.as_bytes());
    match writers(alloc) {
        Ok((mut output, mut faults)) => {
            let status = engine(rt, alloc, words, &mut input, &mut output, &mut faults);
            is_done(status, &(output, faults))
        }
        Err(_) => false,
    }
}

/// Runs the program with these words.
fn ran<R: Threads + Wait + Sync>(
    rt: &R,
    alloc: Global,
    words: &[&str],
    on_threads: bool,
) -> Option<Reported> {
    let mut input = Heard::new(alloc, ALONG.as_bytes());
    let Ok((mut output, mut faults)) = writers(alloc) else {
        return None;
    };
    mark(alloc);
    let status = engine(rt, alloc, words, &mut input, &mut output, &mut faults);
    mark(alloc);
    let ended = (output, faults);
    if status == 0 {
        return Some(once(is_done(status, &ended)));
    }
    let stands = is_wanting(status, &ended, on_threads);
    Some(twice(stands, is_done_again(rt, alloc, words)))
}

pub(crate) fn engine_reported<R: Threads + Wait + Sync>(rt: &R, alloc: Global) -> Option<Reported> {
    ran(rt, alloc, &["run", "--cycles", "5"], false)
}

pub(crate) fn threads_reported<R: Threads + Wait + Sync>(
    rt: &R,
    alloc: Global,
) -> Option<Reported> {
    ran(rt, alloc, &["run", "--cycles", "5", "--threads"], true)
}
