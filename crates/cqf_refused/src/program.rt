//! Trials of the program's own calls, over readers and writers in memory. Each call is made between two marks, and
//! repeated if it was refused for lack of memory. A reader that was read can't be reused, so the repetition reads a
//! fresh one with the same bytes.
use cqf_output::{NO_MEMORY, Stop};
use cqf_refused_values::{Reported, names_of, reported_by};
use std::alloc::Global;
use std::sync::Wait;
use std::thread::Threads;

/// Whether a result is a stop for lack of memory.
pub(crate) fn is_wanting<T>(given: &Result<T, Stop>) -> bool {
    match given {
        Ok(_) => false,
        Err(stop) => stop.status == NO_MEMORY && stop.text.is_empty(),
    }
}

/// The trials by their names.
macro_rules! trials {
    ($with:ident, $name:ident, $rt:ident, $alloc:ident) => {
        $with! {
            $name,
            "read_words" => Some(crate::words::job_reported($alloc)),
            "read_words with a name" => crate::words::named_reported($alloc),
            "read_words of a misuse" => Some(crate::words::misuse_reported($alloc)),
            "read_words of a call for help" => Some(crate::words::help_reported($alloc)),
            "read_input" => Some(crate::inputs::input_reported($alloc)),
            "read_input of some mebibytes" => Some(crate::inputs::long_reported($alloc)),
            "answer to port" => Some(crate::answers::port_reported($rt, $alloc)),
            "answer to line" => Some(crate::answers::line_reported($rt, $alloc)),
            "answer to compile" => Some(crate::answers::compile_reported($rt, $alloc)),
            "answer to run" => Some(crate::answers::run_reported($rt, $alloc)),
            "answer to report" => Some(crate::answers::report_reported($rt, $alloc)),
            "engine" => crate::engines::engine_reported($rt, $alloc),
            "engine on threads" => crate::engines::threads_reported($rt, $alloc),
        }
    };
}

/// The names of the trials.
pub const NAMES: &[&str] = trials!(names_of, name, rt, alloc);

/// Makes the trial with a name. Returns `None` if there is no such trial here, or what it needs couldn't be prepared.
pub fn reported_of<R: Threads + Wait + Sync>(
    rt: &R,
    alloc: Global,
    name: &str,
) -> Option<Reported> {
    trials!(reported_by, name, rt, alloc)
}
