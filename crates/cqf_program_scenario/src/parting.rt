//! The calls of a scenario whose cycles are closed while it runs.
ghost use Rattle.std.specs.Prelude.{◌≡◌, ℕ, [], IfOk, None, OnOk, Some, if◌then◌else◌, map, option_map, position};
ghost use Rattle.cqf_model.specs.History.{is_seal};
ghost use Rattle.cqf_admission.specs.Admission.{act_of};
ghost use Rattle.cqf_admission.specs.Commands.{act_of_command};
ghost use Rattle.cqf_admission.specs.declared.entries.Call.{Call};
ghost use Rattle.cqf_program_scenario.specs.Parted.{acts_of_each};
ghost use Rattle.cqf_program_scenario.specs.Parting.{AddsCommand, AreCommandsAfter, AreCommandsBy, calls_from_seal, closes, opening_calls};
ghost use Rattle.cqf_admission.specs.Script.{called_of};

use cqf_admission::{Call, Command};
use cqf_units::Memory;
use std::alloc::Global;

/// The calls of a scenario, divided at the first Seal.
#[derive(Debug, Drop)]
pub(crate) struct Parted {
    /// The calls before it, each with its seat; all calls if there is no Seal.
    pub(crate) opening: Vec<(u16, Call)>,
    /// For each administrator, by number, the commands from the first Seal on, without the Seals.
    pub(crate) commands: Vec<Vec<Command>>,
}

/// Returns whether a call closes a cycle.
fn is_seal(call: &Call) -> bool
    ensures { result ≡ is_seal (act_of call.now) }
{
    matches!(call, Call::Seal)
}

/// Returns the index of the first Seal, if there is one.
fn first_seal(calls: &[(u16, Call)]) -> Option<usize>
    ensures { result ≡ position (λ (call : ℕ × Call). closes (called_of call)) calls.now }
{
    calls.iter().position(|call| is_seal(&call.1))
}

/// Returns the command of a call, unless the call is a Seal.
fn command_of(call: Call) -> Option<Command>
    ensures { option_map act_of_command result ≡ (if is_seal (act_of call) then None else Some (act_of call)) }
{
    match call {
        Call::Admit(request) => Some(Command::Admit(request)),
        Call::AdmitPaced(request) => Some(Command::AdmitPaced(request)),
        Call::Withdraw(name) => Some(Command::Withdraw(name)),
        Call::Seal => None,
    }
}

/// Returns an empty list of commands for each of `admins` administrators.
fn no_commands(alloc: Global, admins: u16) -> Result<Vec<Vec<Command>>, Memory>
    ensures { IfOk result (λ lists. AreCommandsBy [] admins (acts_of_each lists.items)) }
{
    let mut lists = Vec::with_capacity(alloc, usize::from(admins))?;
    for _admin in 0..admins {
        lists.push(Vec::new(alloc))?;
    }
    Ok(lists)
}

/// Appends a command to those of an administrator, if there is a list for this administrator.
fn add_command(lists: &mut Vec<Vec<Command>>, admin: u16, command: Command) -> Result<(), Memory>
    ensures { OnOk result (AddsCommand (acts_of_each lists.old.items) (acts_of_each lists.new.items) admin (act_of_command command)) }
{
    let index = usize::from(admin);
    if index < lists.len() {
        lists[index].push(command)?;
    }
    Ok(())
}

/// Returns the commands of each of `admins` administrators among these calls, by number.
fn commands_by(
    alloc: Global,
    calls: Vec<(u16, Call)>,
    admins: u16,
) -> Result<Vec<Vec<Command>>, Memory>
    ensures { IfOk result (λ lists. AreCommandsBy (map called_of calls.items) admins (acts_of_each lists.items)) }
{
    let mut lists = no_commands(alloc, admins)?;
    for call in calls {
        if let Some(command) = command_of(call.1) {
            add_command(&mut lists, call.0, command)?;
        }
    }
    Ok(lists)
}

/// Removes the calls from the first Seal on from a list and returns them.
fn cut_at_seal(alloc: Global, calls: &mut Vec<(u16, Call)>) -> Result<Vec<(u16, Call)>, Memory>
    ensures front { OnOk result (map called_of calls.new.items ≡ opening_calls (map called_of calls.old.items)) }
    ensures following { IfOk result (λ following. map called_of following.items ≡ calls_from_seal (map called_of calls.old.items)) }
{
    match first_seal(calls.as_slice()) {
        Some(index) => Ok(calls.split_off(index)?),
        None => Ok(Vec::new(alloc)),
    }
}

/// Divides the calls at the first Seal, for `admins` administrators.
pub(crate) fn part_calls(
    alloc: Global,
    calls: Vec<(u16, Call)>,
    admins: u16,
) -> Result<Parted, Memory>
    ensures opening { IfOk result (λ made. map called_of made.opening.items ≡ opening_calls (map called_of calls.items)) }
    ensures commands { IfOk result (λ made. AreCommandsAfter (map called_of calls.items) admins (acts_of_each made.commands.items)) }
{
    let mut opening = calls;
    let following = cut_at_seal(alloc, &mut opening)?;
    let commands = commands_by(alloc, following, admins)?;
    Ok(Parted { opening, commands })
}
