//! Lines of a script that are refused.

use crate::given::CommandInput;
use crate::lines::Lines;
use crate::parts::InputPart;
use crate::places::{Grouped, Place};
use crate::reported::ReportedLines;
use crate::table_faults::place_of_offer;
use crate::words::{question, shown};
use crate::written::KeyOwner;
use cqf_admission::{MOST_CALLS, is_order, is_seal_line};
use cqf_text::read_decimal;
use std::alloc::{AllocError, Global};
use std::collections::BTreeSet;

/// The last cycle that a line may state.
const LAST_REPORTED: u64 = 4_294_967_295;

/// The forms of a line.
const LINE_FORM: &str = "a line is N admit NAME, N withdraw NAME or seal";

/// A line of a script, as it is read.
#[derive(Clone, Copy, Debug)]
struct ScriptLine<'a> {
    place: Place<'a>,
    text: &'a [u8],
    /// Whether it is in a file of calls alone.
    is_call: bool,
}

/// How many lines of a script seal and call so far, and the cycle that is reached.
#[derive(Clone, Copy, Debug)]
struct ScriptCounts {
    seals: u64,
    calls: u64,
    cycle: u64,
}

/// Returns the line as it is read in a file of calls: without the CR before its line feed.
fn without_return(text: &[u8]) -> &[u8] {
    text.strip_suffix(b"\r").unwrap_or(text)
}

/// Returns the lines of a script that aren't ignored.
fn lines_of<'a>(
    given: &CommandInput<'_>,
    part: InputPart<'a>,
) -> Result<Vec<ScriptLine<'a>>, AllocError> {
    let mut lines = Vec::new(given.alloc);
    let is_call = part.is_whole && given.input.has_network();
    for (number, text) in Lines::of(part.text, part.before) {
        let text = if is_call { without_return(text) } else { text };
        let is_passed_over = is_call && (text.is_empty() || text.starts_with(b"#"));
        if !is_passed_over {
            lines.push(ScriptLine {
                place: Place {
                    file: part.file,
                    line: Some(number),
                },
                text,
                is_call,
            })?;
        }
    }
    Ok(lines)
}

/// Returns the cycle of a line `@N`.
fn cycle_of(line: &ScriptLine<'_>) -> Option<u64> {
    if !line.is_call {
        return None;
    }
    let number = line.text.strip_prefix(b"@")?;
    read_decimal(number, 0, LAST_REPORTED)
}

impl ScriptCounts {
    /// Returns the counts before the first line.
    fn none() -> ScriptCounts {
        ScriptCounts {
            seals: 0,
            calls: 0,
            cycle: 0,
        }
    }

    /// Returns the counts after a line.
    fn after(self, line: &ScriptLine<'_>) -> ScriptCounts {
        if is_seal_line(line.text) {
            ScriptCounts {
                seals: self.seals.saturating_add(1),
                calls: self.calls,
                cycle: self.cycle.saturating_add(1),
            }
        } else if let Some(cycle) = cycle_of(line) {
            ScriptCounts {
                seals: self.seals,
                calls: self.calls,
                cycle: self.cycle.max(cycle),
            }
        } else {
            ScriptCounts {
                seals: self.seals,
                calls: self.calls.saturating_add(1),
                cycle: self.cycle,
            }
        }
    }
}

/// Returns whether a byte occurs twice in a row.
fn has_twice(text: &[u8], byte: u8) -> bool {
    let after = text.iter().skip(1);
    text.iter()
        .zip(after)
        .any(|(a, b)| *a == byte && *b == byte)
}

/// Returns what is wrong with a line, before its words are checked.
fn wrong_outside(line: &ScriptLine<'_>) -> Option<&'static str> {
    let text = line.text;
    if text.ends_with(b"\r") {
        Some("CR before LF: only a separate calls file has lines that end so")
    } else if text.is_empty() {
        Some("the line is empty: only a separate calls file has empty lines")
    } else if text.starts_with(b"#") {
        Some("only a separate calls file has comments")
    } else if text.starts_with(b"at,from,") {
        Some("these are background frames: the order is plan, calls, offers, background")
    } else if text.starts_with(b"at,") {
        Some("these are offers: the order is plan, calls, offers, background")
    } else {
        wrong_between(line)
    }
}

/// Returns what is wrong with a line's beginning, its end, or between its words.
fn wrong_between(line: &ScriptLine<'_>) -> Option<&'static str> {
    let text = line.text;
    if text.starts_with(b"@") {
        Some(if line.is_call {
            "a cycle is @ and a number up to 4,294,967,295, alone on the line"
        } else {
            "only a separate calls file has cycles"
        })
    } else if text.starts_with(b" ") || text.starts_with(b"\t") {
        Some("a space at the beginning")
    } else if text.ends_with(b" ") || text.ends_with(b"\t") {
        Some("a space at the end")
    } else if text.contains(&b'\t') {
        Some("a tab: one space separates words")
    } else if has_twice(text, b' ') {
        Some("two spaces: one space separates words")
    } else {
        None
    }
}

/// Returns whether a word is the digit of an administrator.
fn is_seat(word: &[u8]) -> bool {
    matches!(word, [b'0'..=b'7'])
}

/// Returns whether a word is a call's.
fn is_verb(word: &[u8]) -> bool {
    word == b"admit".as_slice() || word == b"withdraw".as_slice()
}

/// Returns what is wrong with a line of three words, in words.
fn wrong_call(alloc: Global, seat: &[u8], verb: &[u8]) -> Result<String, AllocError> {
    if !is_seat(seat) {
        let seat = shown(alloc, seat)?;
        format!(in alloc; "{seat}: an administrator is a digit, 0 to 7")
    } else if !is_verb(verb) {
        let verb = shown(alloc, verb)?;
        let question = question(alloc, verb.as_str(), &["admit", "withdraw"])?;
        format!(in alloc; "{verb}: a call is admit or withdraw{question}")
    } else {
        String::from_str(
            alloc,
            "a stream's name in a call is 1 to 64 printable characters",
        )
    }
}

/// Returns what is wrong with the words of a line, in words.
fn wrong_words(alloc: Global, text: &[u8]) -> Result<String, AllocError> {
    let words: Vec<&[u8]> = text.split(|byte| *byte == b' ').collect(alloc)?;
    match *words.as_slice() {
        [seat, verb, _] => wrong_call(alloc, seat, verb),
        [verb, _] if is_verb(verb) => {
            String::from_str(
                alloc,
                "an administrator comes before a call, as in 0 admit NAME",
            )
        }
        [first, ..] => {
            let first = shown(alloc, first)?;
            let question = question(alloc, first.as_str(), &["seal"])?;
            format!(in alloc; "{LINE_FORM}{question}")
        }
        [] => String::from_str(alloc, LINE_FORM),
    }
}

/// Returns whether a line has a form that a line may have there.
fn is_good(line: &ScriptLine<'_>, counts: ScriptCounts) -> bool {
    match cycle_of(line) {
        Some(cycle) => cycle >= counts.cycle,
        None => is_seal_line(line.text) || is_order(line.text),
    }
}

/// Returns what is wrong with a line that isn't good, in words.
fn wrong_of(
    alloc: Global,
    line: &ScriptLine<'_>,
    counts: ScriptCounts,
) -> Result<String, AllocError> {
    if cycle_of(line).is_some() {
        let reached = Grouped(counts.cycle);
        return format!(in alloc; "cycle {reached} is already reached");
    }
    match wrong_outside(line) {
        Some(words) => String::from_str(alloc, words),
        None => wrong_words(alloc, line.text),
    }
}

/// Reports each line without a form that a line may have.
pub(crate) fn report_bad_lines(
    given: &CommandInput<'_>,
    reported: &mut ReportedLines,
) -> Result<(), AllocError> {
    let Some(part) = given.input.rest.first() else {
        return Ok(());
    };
    let mut counts = ScriptCounts::none();
    for line in &lines_of(given, *part)? {
        if !is_good(line, counts) && !reported.is_counted() {
            let why = wrong_of(given.alloc, line, counts)?;
            let (place, text) = (line.place, shown(given.alloc, line.text)?);
            let reported_line = if line.text.trim_ascii().is_empty() {
                format!(in given.alloc; "{place}: {why}")?
            } else {
                format!(in given.alloc; "{place}: {text}: {why}")?
            };
            reported.report(reported_line)?;
        }
        counts = counts.after(line);
    }
    Ok(())
}

/// Returns the name that a line admits.
fn admitted<'a>(line: &ScriptLine<'a>) -> Option<&'a str> {
    let call = line.text.get(1..)?.strip_prefix(b" admit ")?;
    std::str::from_utf8(call).ok()
}

/// Returns the names of the plan's streams.
pub(crate) fn names_of<'p>(given: &'p CommandInput<'_>) -> Result<Vec<&'p str>, AllocError> {
    let mut names = Vec::new(given.alloc);
    for item in &given.written.items(KeyOwner::Stream)? {
        if let Some(name) = item.text("name") {
            names.push(name)?;
        }
    }
    Ok(names)
}

/// Reports each line that admits a stream which the plan lacks, except calls of cycles that aren't run.
pub(crate) fn report_unknown_streams(
    given: &CommandInput<'_>,
    reported: &mut ReportedLines,
) -> Result<(), AllocError> {
    let Some(part) = given.input.rest.first() else {
        return Ok(());
    };
    let names = names_of(given)?;
    let mut known = BTreeSet::new(given.alloc);
    for name in &names {
        known.insert(*name)?;
    }
    let (cycles, mut counts) = (
        given.cycles.map_or(u64::MAX, u64::from),
        ScriptCounts::none(),
    );
    for line in &lines_of(given, *part)? {
        let is_left_out = line.is_call && counts.cycle >= cycles;
        counts = counts.after(line);
        let Some(name) = admitted(line) else {
            continue;
        };
        if !is_left_out && !known.contains(name) && !reported.is_counted() {
            let (place, question) = (line.place, question(given.alloc, name, names.as_slice())?);
            reported.report(format!(in given.alloc; "{place}: no stream {name}{question}")?)?;
        }
    }
    Ok(())
}

/// Reports an offer's name that no stream of the plan has.
pub(crate) fn report_unknown_offer(
    given: &CommandInput<'_>,
    reported: &mut ReportedLines,
    number: &str,
    name: &str,
) -> Result<(), AllocError> {
    let names = names_of(given)?;
    if names.contains(&name) {
        return Ok(());
    }
    let question = question(given.alloc, name, names.as_slice())?;
    let line = match place_of_offer(given, number)? {
        Some(place) => format!(in given.alloc; "{place}: no stream {name} in the plan{question}")?,
        None => format!(in given.alloc; "no stream {name} in the plan{question}")?,
    };
    reported.report(line)
}

/// Reports the first line after which the script has too many lines.
pub(crate) fn report_too_many_lines(
    given: &CommandInput<'_>,
    reported: &mut ReportedLines,
) -> Result<(), AllocError> {
    let Some(part) = given.input.rest.first() else {
        return Ok(());
    };
    let cycles = given.cycles.map_or(u64::MAX, u64::from);
    let (mut counts, mut first) = (ScriptCounts::none(), None);
    for line in &lines_of(given, *part)? {
        counts = counts.after(line);
        if first.is_none() && (counts.seals > cycles || counts.calls > MOST_CALLS as u64) {
            first = Some(line.place);
        }
    }
    let Some(place) = first else {
        return Ok(());
    };
    let (seals, calls, cycles) = (
        Grouped(counts.seals),
        Grouped(counts.calls),
        Grouped(cycles),
    );
    let line = if counts.calls > MOST_CALLS as u64 {
        format!(in given.alloc; "{place}: {calls} calls: a script has at most 100,000")?
    } else {
        format!(in given.alloc;
            "{place}: {seals} lines are seal, but only {cycles} cycles are run"
        )?
    };
    reported.report(line)
}
