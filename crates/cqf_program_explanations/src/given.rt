//! The input of an explanation.

use crate::explaining::NamedFile;
use crate::hints::larger_words;
use crate::network::{Network, network_of, smallest_network};
use crate::parts::{Input, input_of};
use crate::written::WrittenNetwork;
use cqf_model::Limits;
use std::alloc::{AllocError, Global};

/// The command, its files, and the input that is made from them.
#[derive(Drop)]
pub(crate) struct CommandInput<'a> {
    pub alloc: Global,
    pub command: &'a str,
    /// The number of cycles that are run, if the words give one.
    pub cycles: Option<u32>,
    /// The cycle times in nanoseconds that the words give instead of those of the plan.
    pub cycle_times: &'a [u32],
    /// The limits within which a plan is read.
    pub limits: Limits,
    pub sources: &'a [NamedFile<'a>],
    pub input: Input<'a>,
    pub written: WrittenNetwork<'a>,
}

/// Returns whether a fault is about texts that aren't parsed, since parsing them may take much.
fn is_unread(fault: &str) -> bool {
    matches!(fault, "LineTooLong" | "")
}

/// Reads the files of a command, for the explanation of a fault.
pub(crate) fn given_of<'a>(
    alloc: Global,
    command: &'a str,
    cycles: Option<u32>,
    cycle_times: &'a [u32],
    limits: Limits,
    sources: &'a [NamedFile<'a>],
    fault: &str,
) -> Result<CommandInput<'a>, AllocError> {
    let input = input_of(alloc, command, sources)?;
    let written = if is_unread(fault) {
        WrittenNetwork::unread(alloc, input.written.as_slice())?
    } else {
        WrittenNetwork::read(alloc, input.written.as_slice(), input.are_two)?
    };
    Ok(CommandInput {
        alloc,
        command,
        cycles,
        cycle_times,
        limits,
        sources,
        input,
        written,
    })
}

impl CommandInput<'_> {
    /// Returns the words after a limit about the larger limit with `--large`; empty if that is given, or isn't an option of the command.
    pub(crate) fn larger(&self, most: u64) -> Result<String, AllocError> {
        larger_words(self, most)
    }

    /// Returns the network of the plan, or of the command that has its own.
    pub(crate) fn network(&self) -> Result<Network<'_>, AllocError> {
        if self.command == "line" {
            return smallest_network(self.alloc);
        }
        network_of(self.alloc, &self.written)
    }
}
