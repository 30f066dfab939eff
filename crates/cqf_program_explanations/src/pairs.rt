//! The lines of a command that compares two files.

use std::alloc::{AllocError, Global};

/// A line about one of two files that are compared.
#[derive(Debug, Drop)]
pub(crate) struct FileLine {
    /// The index of the file.
    pub place: usize,
    /// The line about it, as a command writes it that takes this file alone.
    pub line: String,
}

/// Returns which of two files the line of a refusal is about, such as `cqf: diff: old: domain: BadValue rate`; `None` if it is about neither.
pub(crate) fn file_line(alloc: Global, line: &[u8]) -> Result<Option<FileLine>, AllocError> {
    let Ok(text) = std::str::from_utf8(line) else {
        return Ok(None);
    };
    let found = match text.strip_prefix("cqf: diff: old: ") {
        Some(fault) => Some((0, fault)),
        None => text
            .strip_prefix("cqf: diff: new: ")
            .map(|fault| (1, fault)),
    };
    match found {
        Some((place, fault)) => {
            let line = format!(in alloc; "cqf: {fault}")?;
            Ok(Some(FileLine { place, line }))
        }
        None => Ok(None),
    }
}

/// Returns the command whose files are explained: keys are looked for in the files that are compared as in those of one network.
pub(crate) fn command_about<'a>(command: &'a str, line: &[u8]) -> &'a str {
    if command == "diff" && line.starts_with(b"cqf: plant: ") {
        "latency"
    } else {
        command
    }
}
