//! The end of a run whose words mean no job.
ghost use Rattle.std.specs.Prelude.{◌≡◌, ◌⊎◌, ◌++◌, [], IfOk, codes, string_bytes};
ghost use Rattle.clap.specs.declared.error.kind.ErrorKind.TheVariants.{InvalidValue};
ghost use Rattle.clap.specs.Words.{kind_of, subcommand_rows_of};
ghost use Rattle.cqf_program_words.specs.Words.{EndsBy};
ghost use Rattle.cqf_output.specs.Stops.{EndsWith, line_of};
ghost use Rattle.cqf_program_words.specs.Mistakes.{mistake_of};

use crate::mistakes::mistake_of;
use clap::error::ErrorKind;
use clap::{ArgMatches, Command};
use cqf_output::{DONE, Stop, USAGE};
use cqf_units::Memory;
use std::alloc::Global;

/// Returns the end with the text of an error of clap's, or with the part of it for which memory suffices.
pub(crate) fn stop_of(alloc: Global, error: &clap::Error) -> Stop
    ensures { EndsBy (kind_of error.now) result }
{
    let status = match error.kind() {
        ErrorKind::OutOfMemory => return Stop::memory(alloc),
        ErrorKind::DisplayHelp | ErrorKind::DisplayVersion => DONE,
        _ => USAGE,
    };
    match format!(in alloc; "{error}") {
        Ok(text) => Stop {
            status,
            text: text.into_bytes(),
        },
        Err(_) => Stop::memory(alloc),
    }
}

/// Returns whether the words are a single empty one, as those of an empty line are.
fn are_nothing(words: &[&str]) -> bool {
    match *words {
        [word] => word.is_empty(),
        _ => false,
    }
}

/// Returns the end of a mistake, with the program's help as its text.
fn helped(alloc: Global, command: &mut Command<'_>) -> Stop
    ensures statuses { (result.status ≡ 2) ⊎ (result.status ≡ 3) }
    ensures memory { result.status ≡ 3 → result.text.items ≡ [] }
{
    Stop::with_text(alloc, USAGE, command.render_help())
}

/// Returns the end of words that clap refuses: clap's text, or for a single empty word the program's help; or the part of it for which
/// memory suffices.
pub(crate) fn refused_by_clap(
    alloc: Global,
    command: &mut Command<'_>,
    words: &[&str],
    error: &clap::Error,
) -> Stop
    ensures { EndsBy (kind_of error.now) result }
{
    let stop = stop_of(alloc, error);
    if stop.status != USAGE {
        return stop;
    }
    if !are_nothing(words) {
        return stop;
    }
    helped(alloc, command)
}

/// Returns the line about words that clap accepts and from which no job is read.
fn line_of_mistake(alloc: Global, matches: &ArgMatches<'_>) -> Result<String, Memory>
    ensures { IfOk result (λ line. string_bytes line ≡ line_of (codes "cqf: words: " ++ mistake_of (subcommand_rows_of matches.now))) }
{
    let (before, shown, following) = mistake_of(matches);
    let line = format!(in alloc; "cqf: words: {before}{shown}{following}\n")?;
    Ok(line)
}

/// Returns the end if clap accepts the words and no job is read from them. Its line says which value is wrong, and which values are accepted.
pub(crate) fn no_job(alloc: Global, matches: &ArgMatches<'_>) -> Stop
    ensures ends { EndsBy InvalidValue result }
    ensures line { EndsWith 2 (line_of (codes "cqf: words: " ++ mistake_of (subcommand_rows_of matches.now))) result }
{
    Stop::with_text(alloc, USAGE, line_of_mistake(alloc, matches))
}
