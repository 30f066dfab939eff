//! A number of parts that the command doesn't take.

use crate::given::CommandInput;
use crate::parts::put_parts;
use crate::places::called;
use crate::reported::ReportedLines;
use std::alloc::AllocError;

/// How many files are named.
const MOST_NAMED: usize = 8;

/// Returns what a command takes, in words.
fn taken_by(command: &str) -> &'static str {
    match command {
        "port" => "a gate list and arrivals",
        "line" => "offers",
        "diff" => "two plans",
        "run" | "report" | "deliveries" | "check" | "summary" | "hops" => {
            "a plan, calls, offers and background frames, if any"
        }
        "plan" => "a network file, which is a domain and its streams",
        _ => "a plan, which is a domain and its streams",
    }
}

/// Returns the files' names, with the number of their parts if it isn't 1, and with a remark for those that are empty.
fn names_of(given: &CommandInput<'_>) -> Result<String, AllocError> {
    let mut names = String::new(given.alloc);
    for source in given.sources.iter().take(MOST_NAMED) {
        let mut parts = Vec::new(given.alloc);
        put_parts(given.alloc, &mut parts, *source)?;
        let (name, count) = (called(source.name), parts.len());
        if !names.is_empty() {
            names.push_str(", ")?;
        }
        names.push_str(name)?;
        if count > 1 {
            let note = format!(in given.alloc; " ({count} parts)")?;
            names.push_str(note.as_str())?;
        }
        if source.text.is_empty() {
            names.push_str(" (empty)")?;
        }
    }
    if given.sources.len() > MOST_NAMED {
        names.push_str(", ..")?;
    }
    Ok(names)
}

/// Reports what the command takes, and which files were given.
pub(crate) fn report_parts(
    given: &CommandInput<'_>,
    reported: &mut ReportedLines,
) -> Result<(), AllocError> {
    let (command, takes) = (given.command, taken_by(given.command));
    let (count, names) = (given.sources.len(), names_of(given)?);
    let noun = if count == 1 { "file was" } else { "files were" };
    reported.report(format!(in given.alloc;
        "{command} takes {takes}; {count} {noun} given: {names}"
    )?)
}
