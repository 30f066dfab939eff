//! The program's commands, each once: its name, its options and its help; and all commands, as given to `clap`.
ghost use Rattle.std.specs.Prelude.{◌≡◌, IfOk, bytes_eq, false};
ghost use Rattle.std.specs.List.{list_any};
ghost use Rattle.clap.specs.declared.builder.command.Command.TheViews.{out-Command};
ghost use Rattle.clap.specs.Words.{app_of, new_app};
ghost use Rattle.cqf_program_words.specs.Options.{gives_value, option_rule};
ghost use Rattle.cqf_program_words.specs.Commands.{command_app, cqf_app, does_want_value, name_of, named_app, options_of, with_command, with_option};
ghost use Rattle.cqf_program_words.specs.Operands.{is_command, wants_value};

use crate::help::{
    CHECK_INPUT, COMPILE_INPUT, DELIVERIES_INPUT, DIFF_INPUT, HOPS_INPUT, LATENCY_INPUT,
    LINE_INPUT, LOAD_INPUT, MORE_WORDS, OFFERS_INPUT, PLAN_INPUT, PORT_INPUT, REPORT_INPUT,
    RUN_INPUT, SUMMARY_INPUT,
};
use crate::options::{CommandOption, argument};
use clap::Command;
use std::alloc::{AllocError, Global};

/// A command of the program. All of them take files.
#[derive(Clone, Copy, Debug, PartialEq, Eq)]
pub(crate) enum Subcommand {
    /// `port --until N [--rate RATE]`.
    Port,
    /// `line --cycles N`.
    Line,
    /// `compile [--format FORMAT] [--bridge NAME] [--software] [--edge-gates] [--large]`.
    Compile,
    /// `load [--streams] [--large]`.
    Load,
    /// `latency [--strict] [--large]`.
    Latency,
    /// `run --cycles N [--threads] [--large]`.
    Run,
    /// `report --cycles N [--large]`.
    Report,
    /// `deliveries --cycles N [--large]`.
    Deliveries,
    /// `check --cycles N [--large]`.
    Check,
    /// `summary --cycles N [--large]`.
    Summary,
    /// `hops --cycles N [--stream NAME] [--frame F] [--large]`.
    Hops,
    /// `offers --cycles N [--seed S] [--large]`.
    Offers,
    /// `plan [--table] [--cycle WORD] [--tries N] [--best] [--without LINK].. [--verbose] [--large]`.
    Plan,
    /// `diff [--quiet] [--large]`.
    Diff,
}

/// The commands, in the order of the help.
const COMMANDS: [Subcommand; 14] = [
    Subcommand::Plan,
    Subcommand::Load,
    Subcommand::Latency,
    Subcommand::Compile,
    Subcommand::Diff,
    Subcommand::Offers,
    Subcommand::Check,
    Subcommand::Run,
    Subcommand::Summary,
    Subcommand::Report,
    Subcommand::Hops,
    Subcommand::Deliveries,
    Subcommand::Port,
    Subcommand::Line,
];

impl Subcommand {
    /// Returns the command's name.
    fn name(self) -> &'static str
        ensures { result.now ≡ name_of self }
    {
        match self {
            Subcommand::Port => "port",
            Subcommand::Line => "line",
            Subcommand::Compile => "compile",
            Subcommand::Load => "load",
            Subcommand::Latency => "latency",
            Subcommand::Run => "run",
            Subcommand::Report => "report",
            Subcommand::Deliveries => "deliveries",
            Subcommand::Check => "check",
            Subcommand::Summary => "summary",
            Subcommand::Hops => "hops",
            Subcommand::Offers => "offers",
            Subcommand::Plan => "plan",
            Subcommand::Diff => "diff",
        }
    }

    /// Returns the command's options, in the order of the help.
    fn options(self) -> &'static [CommandOption]
        ensures { result.now ≡ options_of self }
    {
        match self {
            Subcommand::Port => &[CommandOption::Until, CommandOption::Rate],
            Subcommand::Line => &[CommandOption::Cycles],
            Subcommand::Compile => &[
                CommandOption::Format,
                CommandOption::Bridge,
                CommandOption::Software,
                CommandOption::EdgeGates,
                CommandOption::Large,
            ],
            Subcommand::Load => &[CommandOption::Streams, CommandOption::Large],
            Subcommand::Latency => &[CommandOption::Strict, CommandOption::Large],
            Subcommand::Run => &[
                CommandOption::Cycles,
                CommandOption::Threads,
                CommandOption::Large,
            ],
            Subcommand::Report => &[CommandOption::Cycles, CommandOption::Large],
            Subcommand::Deliveries => &[CommandOption::Cycles, CommandOption::Large],
            Subcommand::Check => &[CommandOption::Cycles, CommandOption::Large],
            Subcommand::Summary => &[CommandOption::Cycles, CommandOption::Large],
            Subcommand::Hops => &[
                CommandOption::Cycles,
                CommandOption::Stream,
                CommandOption::Frame,
                CommandOption::Large,
            ],
            Subcommand::Offers => &[
                CommandOption::Cycles,
                CommandOption::Seed,
                CommandOption::Large,
            ],
            Subcommand::Plan => &[
                CommandOption::Table,
                CommandOption::Cycle,
                CommandOption::Tries,
                CommandOption::Best,
                CommandOption::Without,
                CommandOption::Verbose,
                CommandOption::Large,
            ],
            Subcommand::Diff => &[CommandOption::Quiet, CommandOption::Large],
        }
    }

    /// Returns what the command does, in a line of help.
    fn about(self) -> &'static str {
        match self {
            Subcommand::Port => "when the frames of one output port start",
            Subcommand::Line => "the book of one bridge with one stream",
            Subcommand::Compile => "the gate lists and stream gates of a domain and its streams",
            Subcommand::Load => "how much of each link is reserved, and how much is left",
            Subcommand::Latency => "bounds on the latency of each stream to each listener",
            Subcommand::Run => "a simulation: the history of calls, and each transmission and drop",
            Subcommand::Report => "what each link carries in a run",
            Subcommand::Deliveries => "the fate of each offered frame in a run, at each listener",
            Subcommand::Check => "whether a run delivers all offered frames in time",
            Subcommand::Summary => "the deliveries, drops and latencies of each stream in a run",
            Subcommand::Hops => "the book of a run by frame: when each frame is on each link",
            Subcommand::Offers => "offers for a run, made from the traffic of a plan's streams",
            Subcommand::Plan => "a plan for a network: its cycle time, paths and reservations",
            Subcommand::Diff => "what differs between two plans, by name",
        }
    }

    /// Returns the help about the command's input, output and work.
    fn input(self) -> &'static str {
        match self {
            Subcommand::Port => PORT_INPUT,
            Subcommand::Line => LINE_INPUT,
            Subcommand::Compile => COMPILE_INPUT,
            Subcommand::Load => LOAD_INPUT,
            Subcommand::Latency => LATENCY_INPUT,
            Subcommand::Run => RUN_INPUT,
            Subcommand::Report => REPORT_INPUT,
            Subcommand::Deliveries => DELIVERIES_INPUT,
            Subcommand::Check => CHECK_INPUT,
            Subcommand::Summary => SUMMARY_INPUT,
            Subcommand::Hops => HOPS_INPUT,
            Subcommand::Offers => OFFERS_INPUT,
            Subcommand::Plan => PLAN_INPUT,
            Subcommand::Diff => DIFF_INPUT,
        }
    }

    /// Returns whether the word is the command's name.
    fn is_named(self, word: &str) -> bool
        ensures { result ≡ bytes_eq word.now (name_of self) }
    {
        word == self.name()
    }

    /// Returns whether the word is one of the command's options, and its value follows as a separate word.
    fn wants_value(self, word: &str) -> bool
        ensures { result ≡ does_want_value word.now self }
    {
        is_value_wanted(self.options(), word)
    }
}

/// Returns whether the word is one of these options, and its value follows as a separate word.
fn is_value_wanted(options: &[CommandOption], word: &str) -> bool
    ensures { result ≡ list_any (λ option. gives_value word.now (option_rule option)) options.now }
{
    options.iter().any(|option| option.wants_value(word))
}

/// Returns a command with one more option, for large plans or not.
fn with_option<'a>(
    command: Command<'a>,
    alloc: Global,
    option: CommandOption,
    is_large: bool,
) -> Result<Command<'a>, AllocError>
    requires { (out-Command command).has_globals ≡ false }
    ensures app { IfOk result (λ added. app_of added ≡ with_option is_large (app_of command.entry) option) }
    ensures local { IfOk result (λ added. (out-Command added).has_globals ≡ false) }
{
    command.arg(argument(alloc, option, is_large))
}

/// Returns a command of this name for `clap`, with its help and without options.
fn bare_command<'a>(
    alloc: Global,
    name: &'static str,
    about: &'static str,
    input: &'static str,
) -> Command<'a>
    ensures app { app_of result ≡ new_app name.now }
    ensures local { (out-Command result).has_globals ≡ false }
{
    Command::new(alloc, name).about(about).after_help(input)
}

/// Returns the command for `clap`, for large plans or not.
fn command_of<'a>(
    alloc: Global,
    subcommand: Subcommand,
    is_large: bool,
) -> Result<Command<'a>, AllocError>
    ensures app { IfOk result (λ command. app_of command ≡ command_app is_large subcommand) }
    ensures local { IfOk result (λ command. (out-Command command).has_globals ≡ false) }
{
    let mut command = bare_command(
        alloc,
        subcommand.name(),
        subcommand.about(),
        subcommand.input(),
    );
    let options = subcommand.options();
    for option in options {
        command = with_option(command, alloc, *option, is_large)?;
    }
    Ok(command)
}

/// Returns the program without its commands. Its name is in the usage of each command.
fn named_command<'a>(alloc: Global) -> Result<Command<'a>, AllocError>
    ensures app { IfOk result (λ command. app_of command ≡ named_app) }
    ensures local { IfOk result (λ command. (out-Command command).has_globals ≡ false) }
{
    let named = Command::new(alloc, "cqf").bin_name("cqf")?;
    Ok(
        named
            .about("cyclic queuing and forwarding")
            .after_help(MORE_WORDS)
            .no_binary_name(true)
            .subcommand_required(true),
    )
}

/// Returns a program with one more command, for large plans or not.
fn with_command<'a>(
    program: Command<'a>,
    alloc: Global,
    subcommand: Subcommand,
    is_large: bool,
) -> Result<Command<'a>, AllocError>
    requires { (out-Command program).has_globals ≡ false }
    ensures app { IfOk result (λ added. app_of added ≡ with_command is_large (app_of program.entry) subcommand) }
    ensures local { IfOk result (λ added. (out-Command added).has_globals ≡ false) }
{
    let command = command_of(alloc, subcommand, is_large)?;
    program.subcommand(command)
}

/// Returns the program with its commands, for large plans or not.
pub(crate) fn commands<'a>(alloc: Global, is_large: bool) -> Result<Command<'a>, AllocError>
    ensures app { IfOk result (λ command. app_of command ≡ cqf_app is_large) }
    ensures local { IfOk result (λ command. (out-Command command).has_globals ≡ false) }
{
    let mut program = named_command(alloc)?;
    let subcommands: &[Subcommand] = &COMMANDS;
    for subcommand in subcommands {
        program = with_command(program, alloc, *subcommand, is_large)?;
    }
    Ok(program)
}

/// Returns whether the word names one of the commands.
fn is_one_named(subcommands: &[Subcommand], word: &str) -> bool
    ensures { result ≡ list_any (λ subcommand. bytes_eq word.now (name_of subcommand)) subcommands.now }
{
    subcommands
        .iter()
        .any(|subcommand| subcommand.is_named(word))
}

/// Returns whether the word is a command. All commands take files.
pub(crate) fn is_command(word: &str) -> bool
    ensures { result ≡ is_command word.now }
{
    is_one_named(&COMMANDS, word)
}

/// Returns whether the word is an option of one of the commands, and its value follows as a separate word.
fn does_one_want_value(subcommands: &[Subcommand], word: &str) -> bool
    ensures { result ≡ list_any (λ subcommand. does_want_value word.now subcommand) subcommands.now }
{
    subcommands
        .iter()
        .any(|subcommand| subcommand.wants_value(word))
}

/// Returns whether the word is an option of some command, and its value follows as a separate word.
pub(crate) fn wants_value(word: &str) -> bool
    ensures { result ≡ wants_value word.now }
{
    does_one_want_value(&COMMANDS, word)
}
