//! What the program prints if standard input is a terminal.

use cqf_output::{CheckedSink, Sink, write_out};
use cqf_program_words::read_words;
use std::alloc::Global;
use std::io::IsTerminal;

/// If standard input is a terminal, prints that it is read now.
pub(crate) fn hint<I: IsTerminal, F: Sink>(input: &I, faults: &mut CheckedSink<F>) {
    if input.is_terminal() {
        write_out(faults, b"cqf: reading standard input to its end\n");
    }
}

/// Returns the words that are run without files. If none are given and standard input is a terminal, this is a single empty word, which
/// shows help, since nobody wants to type the input then.
pub(crate) fn words_at<'w, I: IsTerminal>(words: &'w [&'w str], input: &I) -> &'w [&'w str] {
    if words.is_empty() && input.is_terminal() {
        &[""]
    } else {
        words
    }
}

/// Prints it before words without files are run, if they mean a job. For other words nothing is read.
pub(crate) fn hint_of_words<I: IsTerminal, F: Sink>(
    alloc: Global,
    words: &[&str],
    input: &I,
    faults: &mut CheckedSink<F>,
) {
    if read_words(alloc, words).is_ok() {
        hint(input, faults);
    }
}
