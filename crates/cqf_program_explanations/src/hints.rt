//! Hints after a refusal: another command, or larger limits.

use crate::given::CommandInput;
use crate::parts::takes_domain;
use crate::places::Grouped;
use crate::planning::is_planning;
use crate::written::{KeyOwner, WrittenItem};
use cqf_model::PROFILE;
use std::alloc::AllocError;

/// Returns the words after a limit about the larger limit with `--large`; empty if that is given, or isn't an option of the command.
pub(crate) fn larger_words(given: &CommandInput<'_>, most: u64) -> Result<String, AllocError> {
    if given.limits != PROFILE || !takes_domain(given.command) {
        return Ok(String::new(given.alloc));
    }
    let most = Grouped(most);
    format!(in given.alloc; " ({most} with --large)")
}

/// Returns the names of the files from which the plan is read.
fn network_files(given: &CommandInput<'_>) -> Result<String, AllocError> {
    let mut names = String::new(given.alloc);
    let mut before = None;
    for file in &given.written.files {
        if before != Some(file.part.file) {
            names.push(' ')?;
            names.push_str(file.part.file)?;
        }
        before = Some(file.part.file);
    }
    Ok(names)
}

/// Returns whether a stream has ends and no path, or reserves nothing yet.
fn is_open_stream(item: &WrittenItem<'_>) -> bool {
    item.get("from").is_some() || item.get("to").is_some() || item.get("octets").is_none()
}

/// Returns whether the plan is a network file with open parts: it has several cycle times, or a stream is open.
pub(crate) fn is_open(given: &CommandInput<'_>) -> Result<bool, AllocError> {
    let has_several = given
        .written
        .top("cycle")
        .is_some_and(|found| found.value.is_array());
    let streams = given.written.items(KeyOwner::Stream)?;
    Ok(has_several || streams.iter().any(is_open_stream))
}

/// Returns the words about an open part, which only `plan` reads; empty for that command.
pub(crate) fn plan_hint(given: &CommandInput<'_>) -> Result<String, AllocError> {
    if is_planning(given) {
        return Ok(String::new(given.alloc));
    }
    let files = network_files(given)?;
    let word = if given.limits == PROFILE {
        ""
    } else {
        " --large"
    };
    format!(in given.alloc; "; run 'cqf plan{word}{files}'")
}
