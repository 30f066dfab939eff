//! The job that the words of a command line mean.
ghost use Rattle.std.specs.Prelude.{◌≡◌, ◌≢◌, ◌<◌, ◌^◌, IfOk, IfErr, MatchOption, None, Option, ℕ, Some, codes, false, map, option_map, string_bytes, true};
ghost use Rattle.cqf_units.specs.declared.timing.Rate.{Rate};
ghost use Rattle.clap.specs.Words.{Text, first_of, found_of, rows_of, subcommand_rows_of};
ghost use Rattle.cqf_program_words.specs.declared.words.Format.{Format};
ghost use Rattle.cqf_program_words.specs.declared.words.Job.{Job};
ghost use Rattle.cqf_program_words.specs.Words.{rate_text};
ghost use Rattle.cqf_program_words.specs.Words.{IsFlagGiven, IsFormat, IsFormatOf, IsFreeIn, IsJob, IsJobOf, IsNumberIn, Mean};
ghost use Rattle.cqf_program_words.specs.Shown.{ShowsWords, are_printable};
ghost use Rattle.cqf_program_words.specs.Words.{EndsWords, WritesMistake, is_of_bridge, takes_domain};
ghost use Rattle.std.specs.List.{list_any};
ghost use Rattle.cqf_model.specs.Limits.{large, most_cycles};
ghost use Rattle.cqf_program_words.specs.Words.{ask_for_large, is_large_word, limits_of};

use crate::commands::commands;
use crate::endings::{no_job, refused_by_clap};
use crate::options::LAST_SEED;
use crate::plan_words::{PlanOptions, plan_job};
use crate::shown::stop_of_words;
use clap::ArgMatches;
use cqf_model::{LARGE, LAST_UNTIL, Limits, MOST_CYCLES};
use cqf_output::Stop;
use cqf_units::{Name, Rate};
use std::alloc::{AllocError, Global};

/// The format of a configuration, the output of `compile`.
#[derive(Clone, Debug, Drop, PartialEq, Eq)]
pub enum Format {
    /// The gate lists and stream gates, line by line.
    List,
    /// A shell script that sets them in Linux by `tc`, in hardware, or in software if that is requested.
    Tc { is_software: bool },
    /// The variables that the script reads at one bridge, by the bridge's name.
    Env { bridge: Name },
    /// The whole configuration, for programs, as JSON.
    Json,
}

/// What the program has to do.
#[derive(Clone, Debug, Drop, PartialEq, Eq)]
pub enum Job {
    /// The starts of one port before an instant.
    Port {
        until: u64,
        rate: Rate,
    },
    /// The book of one bridge with one stream.
    Line {
        cycles: u32,
    },
    /// The configuration of a domain and its streams, in a format; if `edge_gates`, with stream gates only at edge bridges.
    Compile {
        format: Format,
        edge_gates: bool,
    },
    /// What each link holds and has left; if `streams`, what each stream holds of each of its links.
    Load {
        streams: bool,
    },
    /// How long the frames of each stream take to each listener. If `strict`, a deadline that isn't certain to be kept ends the run.
    Latency {
        strict: bool,
    },
    /// The history and the book of a scenario, on one thread or on threads of its bridges and administrators.
    Run {
        cycles: u32,
        threads: bool,
    },
    /// The sums by link of a scenario's book.
    Report {
        cycles: u32,
    },
    /// The fate of each offered frame of a scenario at each listener.
    Deliveries {
        cycles: u32,
    },
    /// Whether all offered frames of a scenario reach their listeners in time.
    Check {
        cycles: u32,
    },
    /// Counts of what becomes of the frames of each stream of a scenario, at each of its listeners.
    Summary {
        cycles: u32,
    },
    /// The offers of a plan's streams. With a seed, the frames of each interval are late at random.
    Offers {
        cycles: u32,
        seed: Option<u32>,
    },
    /// A scenario's book by frame; only the frames of a stream, or one frame, if these are named.
    Hops {
        cycles: u32,
        stream: Option<String>,
        frame: Option<u32>,
    },
    /// A plan for a good candidate of a network file, or the table of all of its candidates.
    Plan {
        options: PlanOptions,
    },
    /// What differs between two plans; if `quiet`, only whether something does.
    Diff {
        quiet: bool,
    },
}

impl Job {
    /// Returns whether the input begins with a domain, followed by its streams, and the first files may be those of one network. `diff`
    /// takes two networks.
    pub fn takes_domain(&self) -> bool
        ensures { result ≡ takes_domain self.now }
    {
        match *self {
            Job::Port { .. } | Job::Line { .. } | Job::Diff { .. } => false,
            Job::Compile { .. }
            | Job::Load { .. }
            | Job::Latency { .. }
            | Job::Run { .. }
            | Job::Report { .. }
            | Job::Deliveries { .. }
            | Job::Check { .. }
            | Job::Summary { .. }
            | Job::Offers { .. }
            | Job::Hops { .. }
            | Job::Plan { .. } => true,
        }
    }
}

/// Returns the number that the text writes, if it writes one from `least` to `most`, possibly after a plus.
pub(crate) fn number_in(text: Option<&str>, least: u64, most: u64) -> Option<u64>
    ensures { MatchOption result ((number : ℕ) → ¬ IsNumberIn least most number (option_map (λ text. text.now) text.entry))
        (λ number. IsNumberIn least most number (option_map (λ text. text.now) text.entry)) }
{
    match text?.parse::<u64>() {
        Ok(number) if least <= number && number <= most => Some(number),
        _ => None,
    }
}

/// Returns the rate of the text, if it is one of the nine.
fn rate_of(text: Option<&str>) -> Option<Rate>
    ensures { MatchOption result ((rate : Rate) → ¬ (option_map (λ text. text.now) text.entry ≡ Some (rate_text rate)))
        (λ rate. option_map (λ text. text.now) text.entry ≡ Some (rate_text rate)) }
{
    match text? {
        "10" => Some(Rate::Mb10),
        "100" => Some(Rate::Mb100),
        "1000" => Some(Rate::Mb1000),
        "2500" => Some(Rate::Mb2500),
        "5000" => Some(Rate::Mb5000),
        "10000" => Some(Rate::Mb10000),
        "25000" => Some(Rate::Mb25000),
        "40000" => Some(Rate::Mb40000),
        "100000" => Some(Rate::Mb100000),
        _ => None,
    }
}

/// Returns the format of the text, if no bridge is named and software isn't requested.
fn plain_format(text: Option<&str>) -> Option<Format>
    ensures { (software : Option Text) → IsFlagGiven false software →
        MatchOption result ((format : Format) → ¬ IsFormat format (option_map (λ text. text.now) text.entry) None software)
        (λ format. IsFormat format (option_map (λ text. text.now) text.entry) None software) }
{
    match text? {
        "list" => Some(Format::List),
        "tc" => Some(Format::Tc { is_software: false }),
        "json" => Some(Format::Json),
        _ => None,
    }
}

/// Returns the format of the text, if no bridge is named and software is requested.
fn software_format(text: Option<&str>) -> Option<Format>
    ensures { (software : Option Text) → IsFlagGiven true software →
        MatchOption result ((format : Format) → ¬ IsFormat format (option_map (λ text. text.now) text.entry) None software)
        (λ format. IsFormat format (option_map (λ text. text.now) text.entry) None software) }
{
    match text? {
        "tc" => Some(Format::Tc { is_software: true }),
        _ => None,
    }
}

/// Returns the format of the text, if no bridge is named.
fn format_alone(text: Option<&str>, is_software: bool) -> Option<Format>
    ensures { (software : Option Text) → IsFlagGiven is_software software →
        MatchOption result ((format : Format) → ¬ IsFormat format (option_map (λ text. text.now) text.entry) None software)
        (λ format. IsFormat format (option_map (λ text. text.now) text.entry) None software) }
{
    if is_software {
        software_format(text)
    } else {
        plain_format(text)
    }
}

/// Returns whether the text is the format for one bridge.
fn is_of_bridge(text: Option<&str>) -> bool
    ensures { result ≡ is_of_bridge (option_map (λ text. text.now) text.entry) }
{
    match text {
        Some(text) => text == "env",
        None => false,
    }
}

/// Returns the format of the text, if this bridge is named.
fn format_of_bridge(text: Option<&str>, bridge: &str, is_software: bool) -> Option<Format>
    ensures { (software : Option Text) → IsFlagGiven is_software software →
        MatchOption result ((format : Format) → ¬ IsFormat format (option_map (λ text. text.now) text.entry) (Some bridge.now) software)
        (λ format. IsFormat format (option_map (λ text. text.now) text.entry) (Some bridge.now) software) }
{
    if is_software {
        return None;
    }
    if !is_of_bridge(text) {
        return None;
    }
    match Name::new(bridge.as_bytes()) {
        Some(bridge) => Some(Format::Env { bridge }),
        None => None,
    }
}

/// Returns the format of the command with these values.
fn format_of(values: &ArgMatches<'_>) -> Option<Format>
    ensures { MatchOption result ((format : Format) → ¬ IsFormatOf format (rows_of (found_of values.now)))
        (λ format. IsFormatOf format (rows_of (found_of values.now))) }
{
    let is_software = is_given(values, "software");
    let text = text_of(values, "format");
    match text_of(values, "bridge") {
        Some(bridge) => format_of_bridge(text, bridge, is_software),
        None => format_alone(text, is_software),
    }
}

/// Returns the text of the value, if it has one.
pub(crate) fn text_of<'a>(values: &ArgMatches<'a>, id: &str) -> Option<&'a str>
    ensures { option_map (λ text. text.now) result ≡ first_of id.now (rows_of (found_of values.now)) }
{
    values.get_str(id)
}

/// Returns the job of the command `port` with its values.
fn port_job(values: &ArgMatches<'_>) -> Option<Job>
    ensures { MatchOption result ((job : Job) → ¬ IsJobOf job (codes "port") (rows_of (found_of values.now)))
        (λ job. IsJobOf job (codes "port") (rows_of (found_of values.now))) }
{
    let Some(until) = number_in(text_of(values, "until"), 1, LAST_UNTIL) else {
        return None;
    };
    let Some(rate) = rate_of(text_of(values, "rate")) else {
        return None;
    };
    Some(Job::Port { until, rate })
}

/// Returns the job of the command `compile` with its values.
fn compile_job(values: &ArgMatches<'_>) -> Option<Job>
    ensures { MatchOption result ((job : Job) → ¬ IsJobOf job (codes "compile") (rows_of (found_of values.now)))
        (λ job. IsJobOf job (codes "compile") (rows_of (found_of values.now))) }
{
    let Some(format) = format_of(values) else {
        return None;
    };
    Some(Job::Compile {
        format,
        edge_gates: is_given(values, "edge-gates"),
    })
}

/// Returns the number of cycles of the command with these values.
fn cycles_of(values: &ArgMatches<'_>) -> Option<u32>
    ensures { MatchOption result ((cycles : ℕ) → ¬ IsNumberIn 1 most_cycles cycles (first_of (codes "cycles") (rows_of (found_of values.now))))
        (λ cycles. IsNumberIn 1 most_cycles cycles (first_of (codes "cycles") (rows_of (found_of values.now)))) }
{
    match number_in(text_of(values, "cycles"), 1, MOST_CYCLES) {
        Some(cycles) => Some(cycles as u32),
        None => None,
    }
}

/// Returns the number from `least` to `most` that the text writes, if there is a text; `None` if it writes something else.
fn free_number_in(text: Option<&str>, least: u64, most: u64) -> Option<Option<u32>>
    requires { most < 2 ^ 32 }
    ensures { MatchOption result ((number : Option ℕ) → ¬ IsFreeIn least most number (option_map (λ text. text.now) text.entry))
        (λ number. IsFreeIn least most number (option_map (λ text. text.now) text.entry)) }
{
    match text {
        None => Some(None),
        Some(text) => match number_in(Some(text), least, most) {
            Some(number) => Some(Some(number as u32)),
            None => None,
        },
    }
}

/// Returns the seed of the command with these values, which may have none; `None` if something else is given.
fn seed_of(values: &ArgMatches<'_>) -> Option<Option<u32>>
    ensures { MatchOption result ((seed : Option ℕ) → ¬ IsFreeIn 0 4294967295 seed (first_of (codes "seed") (rows_of (found_of values.now))))
        (λ seed. IsFreeIn 0 4294967295 seed (first_of (codes "seed") (rows_of (found_of values.now)))) }
{
    free_number_in(text_of(values, "seed"), 0, LAST_SEED)
}

/// Returns the job of the command `offers` with its values.
fn offers_job(values: &ArgMatches<'_>) -> Option<Job>
    ensures { MatchOption result ((job : Job) → ¬ IsJobOf job (codes "offers") (rows_of (found_of values.now)))
        (λ job. IsJobOf job (codes "offers") (rows_of (found_of values.now))) }
{
    let Some(cycles) = cycles_of(values) else {
        return None;
    };
    let Some(seed) = seed_of(values) else {
        return None;
    };
    Some(Job::Offers { cycles, seed })
}

/// Returns the name of a stream of the command with these values, which may have none. Returns an error if an allocation fails.
fn stream_of(alloc: Global, values: &ArgMatches<'_>) -> Result<Option<String>, AllocError>
    ensures { IfOk result (λ stream. option_map string_bytes stream ≡ first_of (codes "stream") (rows_of (found_of values.now))) }
{
    match text_of(values, "stream") {
        None => Ok(None),
        Some(text) => {
            let name = String::from_str(alloc, text)?;
            Ok(Some(name))
        }
    }
}

/// Returns the number of a frame of the command with these values, which may have none; `None` if something else is given.
fn frame_of(values: &ArgMatches<'_>) -> Option<Option<u32>>
    ensures { MatchOption result ((frame : Option ℕ) → ¬ IsFreeIn 1 large.rows frame (first_of (codes "frame") (rows_of (found_of values.now))))
        (λ frame. IsFreeIn 1 large.rows frame (first_of (codes "frame") (rows_of (found_of values.now)))) }
{
    free_number_in(text_of(values, "frame"), 1, u64::from(LARGE.rows))
}

/// Returns the job of the command `hops` with its values. Returns an error if an allocation fails.
fn hops_job(alloc: Global, values: &ArgMatches<'_>) -> Result<Option<Job>, AllocError>
    ensures { IfOk result (λ found. MatchOption found ((job : Job) → ¬ IsJobOf job (codes "hops") (rows_of (found_of values.now)))
        (λ job. IsJobOf job (codes "hops") (rows_of (found_of values.now)))) }
{
    let Some(cycles) = cycles_of(values) else {
        return Ok(None);
    };
    let Some(frame) = frame_of(values) else {
        return Ok(None);
    };
    let stream = stream_of(alloc, values)?;
    Ok(Some(Job::Hops {
        cycles,
        stream,
        frame,
    }))
}

/// Returns whether the flag is given.
pub(crate) fn is_given(values: &ArgMatches<'_>, id: &str) -> bool
    ensures { IsFlagGiven result (first_of id.now (rows_of (found_of values.now))) }
{
    match text_of(values, id) {
        Some("true") => true,
        _ => false,
    }
}

/// Returns the job of a command that takes a number of cycles, by its name and its values.
fn cycles_job(name: &str, values: &ArgMatches<'_>) -> Option<Job>
    requires not_port { name.now ≢ codes "port" }
    requires not_compile { name.now ≢ codes "compile" }
    requires not_load { name.now ≢ codes "load" }
    requires not_latency { name.now ≢ codes "latency" }
    requires not_offers { name.now ≢ codes "offers" }
    requires not_hops { name.now ≢ codes "hops" }
    requires not_plan { name.now ≢ codes "plan" }
    requires not_diff { name.now ≢ codes "diff" }
    ensures { MatchOption result ((job : Job) → ¬ IsJobOf job name.now (rows_of (found_of values.now)))
        (λ job. IsJobOf job name.now (rows_of (found_of values.now))) }
{
    let Some(cycles) = cycles_of(values) else {
        return None;
    };
    match name {
        "line" => Some(Job::Line { cycles }),
        "run" => Some(Job::Run {
            cycles,
            threads: is_given(values, "threads"),
        }),
        "report" => Some(Job::Report { cycles }),
        "deliveries" => Some(Job::Deliveries { cycles }),
        "check" => Some(Job::Check { cycles }),
        "summary" => Some(Job::Summary { cycles }),
        _ => None,
    }
}

/// Returns the job of the command that was named, if it is neither `hops` nor `plan`.
fn job_by_name(name: &str, values: &ArgMatches<'_>) -> Option<Job>
    requires not_hops { name.now ≢ codes "hops" }
    requires not_plan { name.now ≢ codes "plan" }
    ensures { MatchOption result ((job : Job) → ¬ IsJobOf job name.now (rows_of (found_of values.now)))
        (λ job. IsJobOf job name.now (rows_of (found_of values.now))) }
{
    match name {
        "port" => port_job(values),
        "compile" => compile_job(values),
        "load" => Some(Job::Load {
            streams: is_given(values, "streams"),
        }),
        "latency" => Some(Job::Latency {
            strict: is_given(values, "strict"),
        }),
        "offers" => offers_job(values),
        "diff" => Some(Job::Diff {
            quiet: is_given(values, "quiet"),
        }),
        _ => cycles_job(name, values),
    }
}

/// Returns the job of the command that was named. Returns an error if an allocation fails.
fn job_of(alloc: Global, matches: &ArgMatches<'_>) -> Result<Option<Job>, AllocError>
    ensures { IfOk result (λ found. MatchOption found ((job : Job) → ¬ IsJob job (subcommand_rows_of matches.now))
        (λ job. IsJob job (subcommand_rows_of matches.now))) }
{
    let Some((name, values)) = matches.subcommand() else {
        return Ok(None);
    };
    match name {
        "hops" => hops_job(alloc, values),
        "plan" => plan_job(alloc, values),
        _ => Ok(job_by_name(name, values)),
    }
}

/// Returns whether the word requests large plans.
fn is_large_word(word: &str) -> bool
    ensures { result ≡ is_large_word word.now }
{
    word == "--large"
}

/// Returns whether one of some words requests large plans.
fn is_one_large(words: &[&str]) -> bool
    ensures { result ≡ list_any (λ word. is_large_word word.now) words.now }
{
    words.iter().any(|word| is_large_word(word))
}

/// Returns whether the words request large plans: one of them is `--large`.
pub fn ask_for_large(words: &[&str]) -> bool
    ensures { result ≡ ask_for_large (map (λ word. word.now) words.now) }
{
    is_one_large(words)
}

/// Returns the limits within which the plans of the words are read: `large` if the words request large plans, else `profile`.
pub fn limits_of(words: &[&str]) -> Limits
    ensures { result ≡ limits_of (map (λ word. word.now) words.now) }
{
    Limits::where_large(ask_for_large(words))
}

/// Returns the job that the words mean. Returns `Err` as [`read_words`] does, but with clap's text even if that echoes unprintable
/// characters.
fn read_plainly<'a>(alloc: Global, words: &'a [&'a str]) -> Result<Job, Stop>
    ensures ok { IfOk result (Mean (map (λ word. word.now) words.now)) }
    ensures err { IfErr result (EndsWords (map (λ word. word.now) words.now)) }
    ensures line { IfErr result (WritesMistake (map (λ word. word.now) words.now)) }
{
    let Ok(mut command) = commands(alloc, ask_for_large(words)) else {
        return Err(Stop::memory(alloc));
    };
    match command.try_get_matches_from_mut(words) {
        Ok(matches) => match job_of(alloc, &matches) {
            Ok(Some(job)) => Ok(job),
            Ok(None) => Err(no_job(alloc, &matches)),
            Err(_) => Err(Stop::memory(alloc)),
        },
        Err(error) => Err(refused_by_clap(alloc, &mut command, words, &error)),
    }
}

/// Returns the job that the words mean. The words don't include the program's name.
///
/// Returns `Err` with status 2 and clap's text if clap refuses the words; with status 2 and a line that begins with `cqf: words: ` if clap
/// takes them and a value isn't one that its command takes; or, if a word has a character that a terminal would not print, with a line that
/// shows the words escaped. Returns `Err` with status 0 and clap's text if they request help, and with status 3 if an allocation fails. For
/// a single empty word, clap's text is its help.
pub fn read_words<'a>(alloc: Global, words: &'a [&'a str]) -> Result<Job, Stop>
    ensures ok { IfOk result (Mean (map (λ word. word.now) words.now)) }
    ensures err { IfErr result (EndsWords (map (λ word. word.now) words.now)) }
    ensures own { IfErr result (ShowsWords (map (λ word. word.now) words.now)) }
    ensures line { IfErr result (λ stop. are_printable (map (λ word. word.now) words.now) ≡ true → WritesMistake (map (λ word. word.now) words.now) stop) }
{
    match read_plainly(alloc, words) {
        Ok(job) => Ok(job),
        Err(stop) => Err(stop_of_words(alloc, words, stop)),
    }
}
