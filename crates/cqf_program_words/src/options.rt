//! The options of the program's commands, each once: its name, how it is given, and its help.
ghost use Rattle.std.specs.Prelude.{◌≡◌, ◌++◌, bytes_eq, codes, false};
ghost use Rattle.clap.specs.Words.{rule_of};
ghost use Rattle.cqf_program_words.specs.Options.{default_rule, flag_rule, free_rule, gives_value, letter_rule, name_of, option_rule, parser_of, repeated_rule, rule_for, takes_value, wanted_rule};

use clap::builder::ValueParser;
use clap::{Arg, ArgAction};
use cqf_model::{LAST_UNTIL, Limits, MOST_CYCLES};
use std::alloc::Global;

/// The greatest seed.
pub(crate) const LAST_SEED: u64 = 4_294_967_295;

/// The most orders of placing that `plan` may be asked to try after the first.
pub(crate) const MOST_TRIES: u64 = 1_000;

/// An option of commands.
#[derive(Clone, Copy, Debug, PartialEq, Eq)]
pub(crate) enum CommandOption {
    Until,
    Rate,
    Cycles,
    Format,
    Bridge,
    Seed,
    Stream,
    Frame,
    Cycle,
    Tries,
    Without,
    Strict,
    Streams,
    Threads,
    Table,
    Best,
    Verbose,
    Software,
    EdgeGates,
    Quiet,
    Large,
}

/// A name, and the word that gives the option of this name.
macro_rules! long {
    ($name:literal) => {
        ($name, concat!("--", $name))
    };
}

impl CommandOption {
    /// Returns the option's name, and the word that gives it.
    fn texts(self) -> (&'static str, &'static str)
        ensures name { result.0.now ≡ name_of self }
        ensures word { result.1.now ≡ codes "--" ++ name_of self }
    {
        match self {
            CommandOption::Until => long!("until"),
            CommandOption::Rate => long!("rate"),
            CommandOption::Cycles => long!("cycles"),
            CommandOption::Format => long!("format"),
            CommandOption::Bridge => long!("bridge"),
            CommandOption::Seed => long!("seed"),
            CommandOption::Stream => long!("stream"),
            CommandOption::Frame => long!("frame"),
            CommandOption::Cycle => long!("cycle"),
            CommandOption::Tries => long!("tries"),
            CommandOption::Without => long!("without"),
            CommandOption::Strict => long!("strict"),
            CommandOption::Streams => long!("streams"),
            CommandOption::Threads => long!("threads"),
            CommandOption::Table => long!("table"),
            CommandOption::Best => long!("best"),
            CommandOption::Verbose => long!("verbose"),
            CommandOption::Software => long!("software"),
            CommandOption::EdgeGates => long!("edge-gates"),
            CommandOption::Quiet => long!("quiet"),
            CommandOption::Large => long!("large"),
        }
    }

    /// Returns the option's name.
    fn name(self) -> &'static str
        ensures { result.now ≡ name_of self }
    {
        self.texts().0
    }

    /// Returns whether a value follows the option.
    fn takes_value(self) -> bool
        ensures { result ≡ takes_value (option_rule self) }
    {
        match self {
            CommandOption::Until
            | CommandOption::Rate
            | CommandOption::Cycles
            | CommandOption::Format
            | CommandOption::Bridge
            | CommandOption::Seed
            | CommandOption::Stream
            | CommandOption::Frame
            | CommandOption::Cycle
            | CommandOption::Tries
            | CommandOption::Without => true,
            CommandOption::Strict
            | CommandOption::Streams
            | CommandOption::Threads
            | CommandOption::Table
            | CommandOption::Best
            | CommandOption::Verbose
            | CommandOption::Software
            | CommandOption::EdgeGates
            | CommandOption::Quiet
            | CommandOption::Large => false,
        }
    }

    /// Returns which numbers the option's value may be, for large plans or not; `None` if it needn't be a number.
    fn numbers<'a>(self, is_large: bool) -> Option<ValueParser<'a>>
        ensures { result ≡ parser_of is_large self }
    {
        match self {
            CommandOption::Until => Some(ValueParser::Unsigned(1, LAST_UNTIL)),
            CommandOption::Cycles => Some(ValueParser::Unsigned(1, MOST_CYCLES)),
            CommandOption::Seed => Some(ValueParser::Unsigned(0, LAST_SEED)),
            CommandOption::Tries => Some(ValueParser::Unsigned(0, MOST_TRIES)),
            CommandOption::Frame => {
                let rows = Limits::where_large(is_large).rows;
                Some(ValueParser::Unsigned(1, u64::from(rows)))
            }
            CommandOption::Rate
            | CommandOption::Format
            | CommandOption::Bridge
            | CommandOption::Stream
            | CommandOption::Cycle
            | CommandOption::Without
            | CommandOption::Strict
            | CommandOption::Streams
            | CommandOption::Threads
            | CommandOption::Table
            | CommandOption::Best
            | CommandOption::Verbose
            | CommandOption::Software
            | CommandOption::EdgeGates
            | CommandOption::Quiet
            | CommandOption::Large => None,
        }
    }

    /// Returns the name of the option's value in help, if it has one.
    fn value(self) -> &'static str {
        match self {
            CommandOption::Until | CommandOption::Cycles | CommandOption::Tries => "N",
            CommandOption::Rate => "RATE",
            CommandOption::Format => "FORMAT",
            CommandOption::Seed => "S",
            CommandOption::Bridge | CommandOption::Stream => "NAME",
            CommandOption::Frame => "F",
            CommandOption::Cycle => "WORD",
            CommandOption::Without => "LINK",
            CommandOption::Strict
            | CommandOption::Streams
            | CommandOption::Threads
            | CommandOption::Table
            | CommandOption::Best
            | CommandOption::Verbose
            | CommandOption::Software
            | CommandOption::EdgeGates
            | CommandOption::Quiet
            | CommandOption::Large => "",
        }
    }

    /// Returns the option's help, for large plans or not.
    fn about(self, is_large: bool) -> &'static str {
        match self {
            CommandOption::Until => "only starts before this instant, in ns, 1 to 100000000",
            CommandOption::Rate =>
                "the link's rate in Mb/s: 10, 100, 1000, 2500, 5000, 10000, 25000, 40000 or 100000",
            CommandOption::Cycles => "the number of cycles, 1 to 100000",
            CommandOption::Format => "the format: list, tc, env or json",
            CommandOption::Bridge => "the bridge whose variables are written, with --format env",
            CommandOption::Seed => "makes frames late at random, by this seed, 0 to 4294967295",
            CommandOption::Stream => "only frames of this stream",
            CommandOption::Frame if is_large => "only the frame with this number, 1 to 10000000",
            CommandOption::Frame => "only the frame with this number, 1 to 1000000",
            CommandOption::Cycle => "cycle times to try, in ns: N or FROM..TO/STEP",
            CommandOption::Tries => "try up to N other orders of streams, 0 to 1000",
            CommandOption::Without => "a link 'FROM>TO' to leave out; may be given several times",
            CommandOption::Strict => "status 1 unless every deadline is certain to be kept",
            CommandOption::Streams => "a line for each stream on each link, not for each link",
            CommandOption::Threads =>
                "a thread for each bridge and each administrator of the script",
            CommandOption::Table => "a line for each cycle time instead of a plan",
            CommandOption::Best => "the good cycle time with the most slack, not the first",
            CommandOption::Verbose => "write notes on the plan even without a terminal",
            CommandOption::Software => "gates in Linux itself, not in hardware, with --format tc",
            CommandOption::EdgeGates => "stream gates only at the bridges where streams enter",
            CommandOption::Quiet => "no output, and status 1 if something differs",
            CommandOption::Large => "a network of up to 1024 bridges, 4096 links and 16384 streams",
        }
    }

    /// Returns whether the word gives this option.
    fn is_given_by(self, word: &str) -> bool
        ensures { result ≡ bytes_eq word.now (codes "--" ++ name_of self) }
    {
        word == self.texts().1
    }

    /// Returns whether the word gives this option, and its value follows as a separate word.
    pub(crate) fn wants_value(self, word: &str) -> bool
        ensures { result ≡ gives_value word.now (option_rule self) }
    {
        self.takes_value() && self.is_given_by(word)
    }
}

/// Returns an option `--NAME N` that has to be given, with any N.
fn wanted_option<'a>(alloc: Global, name: &'static str, value: &'static str) -> Arg<'a>
    ensures rule { rule_of result ≡ wanted_rule name.now }
    ensures own { result.global ≡ false }
{
    Arg::new(alloc, name)
        .long(name)
        .action(ArgAction::Set)
        .required(true)
        .value_name(value)
}

/// Returns an option `--NAME VALUE`, and its default text.
fn default_option<'a>(
    alloc: Global,
    name: &'static str,
    default: &'static str,
    value: &'static str,
) -> Arg<'a>
    ensures rule { rule_of result ≡ default_rule name.now default.now }
    ensures own { result.global ≡ false }
{
    Arg::new(alloc, name)
        .long(name)
        .action(ArgAction::Set)
        .default_value(default)
        .value_name(value)
}

/// Returns an option `--NAME N` that may be given, with any N.
fn free_option<'a>(alloc: Global, name: &'static str, value: &'static str) -> Arg<'a>
    ensures rule { rule_of result ≡ free_rule name.now }
    ensures own { result.global ≡ false }
{
    Arg::new(alloc, name)
        .long(name)
        .action(ArgAction::Set)
        .value_name(value)
}

/// Returns an option `--NAME VALUE` that may be given several times.
fn repeated_option<'a>(alloc: Global, name: &'static str, value: &'static str) -> Arg<'a>
    ensures rule { rule_of result ≡ repeated_rule name.now }
    ensures own { result.global ≡ false }
{
    Arg::new(alloc, name)
        .long(name)
        .action(ArgAction::Append)
        .value_name(value)
}

/// Returns a flag `--NAME`.
fn flag<'a>(alloc: Global, name: &'static str) -> Arg<'a>
    ensures rule { rule_of result ≡ flag_rule name.now }
    ensures own { result.global ≡ false }
{
    Arg::new(alloc, name).long(name).action(ArgAction::SetTrue)
}

/// Returns a flag `--NAME` that a letter after a single minus gives too.
fn letter_flag<'a>(alloc: Global, letter: char, name: &'static str) -> Arg<'a>
    ensures rule { rule_of result ≡ letter_rule letter name.now }
    ensures own { result.global ≡ false }
{
    Arg::new(alloc, name)
        .short(letter)
        .long(name)
        .action(ArgAction::SetTrue)
}

/// Returns the option for `clap`, without its help and without the numbers that its value may be.
fn bare_argument<'a>(alloc: Global, option: CommandOption) -> Arg<'a>
    ensures rule { rule_of result ≡ option_rule option }
    ensures own { result.global ≡ false }
{
    match option {
        CommandOption::Until | CommandOption::Cycles => {
            wanted_option(alloc, option.name(), option.value())
        }
        CommandOption::Rate => default_option(alloc, option.name(), "1000", option.value()),
        CommandOption::Format => default_option(alloc, option.name(), "list", option.value()),
        CommandOption::Tries => default_option(alloc, option.name(), "50", option.value()),
        CommandOption::Bridge
        | CommandOption::Seed
        | CommandOption::Stream
        | CommandOption::Frame
        | CommandOption::Cycle => free_option(alloc, option.name(), option.value()),
        CommandOption::Without => repeated_option(alloc, option.name(), option.value()),
        CommandOption::Strict
        | CommandOption::Streams
        | CommandOption::Threads
        | CommandOption::Table
        | CommandOption::Best
        | CommandOption::Verbose
        | CommandOption::Software
        | CommandOption::EdgeGates
        | CommandOption::Large => flag(alloc, option.name()),
        CommandOption::Quiet => letter_flag(alloc, 'q', option.name()),
    }
}

/// Returns the option for `clap`, for large plans or not.
pub(crate) fn argument<'a>(alloc: Global, option: CommandOption, is_large: bool) -> Arg<'a>
    ensures rule { rule_of result ≡ rule_for is_large option }
    ensures own { result.global ≡ false }
{
    let reported = bare_argument(alloc, option).help(option.about(is_large));
    match option.numbers(is_large) {
        Some(parser) => reported.value_parser(parser),
        None => reported,
    }
}
