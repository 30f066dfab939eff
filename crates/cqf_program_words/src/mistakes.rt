//! The line about words that clap accepts and that mean no job. It says which value is wrong, and which values are accepted.
ghost use Rattle.std.specs.Prelude.{◌≡◌, option_map};
ghost use Rattle.clap.specs.Words.{found_of, rows_of, subcommand_rows_of};
ghost use Rattle.cqf_units.specs.Name.{is_name};
ghost use Rattle.cqf_program_words.specs.Mistakes.{mistake_in, mistake_of, mistake_of_candidates, mistake_of_env, mistake_of_format, mistake_of_link, mistake_of_others, mistake_of_plan};
ghost use Rattle.cqf_program_words.specs.Mistakes.{is_form, mistake_of_rate, value_of, written_of};

use crate::plan_words::first_wrong;
use crate::words::text_of;
use clap::ArgMatches;
use cqf_units::Name;

/// The text before a word that is shown, the word, and the text after it.
type Mistake<'v> = (&'static str, &'v str, &'static str);

/// Returns the value of an option; an empty text if it isn't given.
fn value_of<'v>(values: &ArgMatches<'v>, option: &str) -> &'v str
    ensures { result.now ≡ value_of option.now (rows_of (found_of values.now)) }
{
    match text_of(values, option) {
        Some(text) => text,
        None => "",
    }
}

/// Returns the line of `port`: the rate isn't one of the nine.
fn mistake_of_rate(rate: &str) -> Mistake<'_>
    ensures { written_of result ≡ mistake_of_rate rate.now }
{
    (
        "--rate ",
        rate,
        " isn't a rate: 10, 100, 1000, 2500, 5000, 10000, 25000, 40000 or 100000 (Mb/s)",
    )
}

/// Returns the line of `plan`: the word names no link.
fn mistake_of_link(word: &str) -> Mistake<'_>
    ensures { written_of result ≡ mistake_of_link word.now }
{
    (
        "--without ",
        word,
        " isn't a link: 'FROM>TO' in quotes, with the names of its ends",
    )
}

/// Returns the line of `plan`: the word names no candidates.
fn mistake_of_candidates(word: &str) -> Mistake<'_>
    ensures { written_of result ≡ mistake_of_candidates word.now }
{
    (
        "--cycle ",
        word,
        " isn't N or FROM..TO/STEP: cycle times of 10000 to 10000000 ns, FROM no greater than TO, at most 1000 in all",
    )
}

/// Returns the line of `plan`: one of the words names no link, or else the word names no candidates.
fn mistake_of_plan<'v>(no_link: Option<&'v str>, cycle: &'v str) -> Mistake<'v>
    ensures { written_of result ≡ mistake_of_plan (option_map (λ text. text.now) no_link.entry) cycle.now }
{
    match no_link {
        Some(word) => mistake_of_link(word),
        None => mistake_of_candidates(cycle),
    }
}

/// Returns whether the text is one of the four formats.
fn is_form(format: &str) -> bool
    ensures { result ≡ is_form format.now }
{
    format == "list" || format == "tc" || format == "env" || format == "json"
}

/// Returns whether the text has the form of a name.
fn is_name(text: &str) -> bool
    ensures { result ≡ is_name text.now }
{
    match Name::new(text.as_bytes()) {
        Some(_) => true,
        None => false,
    }
}

/// Returns the line of `compile --format env`.
fn mistake_of_env(bridge: Option<&str>) -> Mistake<'_>
    ensures { written_of result ≡ mistake_of_env (option_map (λ text. text.now) bridge.entry) }
{
    match bridge {
        None => ("--format env needs a bridge: --bridge NAME", "", ""),
        Some(bridge) if is_name(bridge) => ("--software is only for --format tc", "", ""),
        Some(bridge) => (
            "--bridge ",
            bridge,
            " isn't a name: 1 to 32 characters, each a to z, 0 to 9, - or _",
        ),
    }
}

/// Returns the line of `compile` with another format.
fn mistake_of_others(bridge: Option<&str>) -> &'static str
    ensures { result.now ≡ mistake_of_others (option_map (λ text. text.now) bridge.entry) }
{
    match bridge {
        None => "--software is only for --format tc",
        Some(_) => "--bridge is only for --format env",
    }
}

/// Returns the line of `compile`.
fn mistake_of_format<'v>(format: &'v str, bridge: Option<&'v str>) -> Mistake<'v>
    ensures { written_of result ≡ mistake_of_format format.now (option_map (λ text. text.now) bridge.entry) }
{
    if !is_form(format) {
        return (
            "--format ",
            format,
            " isn't a format: list, tc, env or json",
        );
    }
    if format == "env" {
        mistake_of_env(bridge)
    } else {
        (mistake_of_others(bridge), "", "")
    }
}

/// Returns the line of a command, by its name and its values.
fn mistake_in<'v>(name: &str, values: &ArgMatches<'v>) -> Mistake<'v>
    ensures { written_of result ≡ mistake_in name.now (rows_of (found_of values.now)) }
{
    if name == "port" {
        return mistake_of_rate(value_of(values, "rate"));
    }
    if name == "plan" {
        return mistake_of_plan(first_wrong(values), value_of(values, "cycle"));
    }
    if name == "compile" {
        return mistake_of_format(value_of(values, "format"), text_of(values, "bridge"));
    }
    ("the command doesn't take one of the values", "", "")
}

/// Returns the line of the command that was named.
pub(crate) fn mistake_of<'v>(matches: &ArgMatches<'v>) -> Mistake<'v>
    ensures { written_of result ≡ mistake_of (subcommand_rows_of matches.now) }
{
    match matches.subcommand() {
        Some((name, values)) => mistake_in(name, values),
        None => ("a command is needed", "", ""),
    }
}
