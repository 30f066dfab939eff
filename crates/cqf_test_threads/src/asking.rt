//! Calls that administrators make while a run goes on.
use cqf_admission::Command;
use cqf_test_fixtures::{Asked, request};
use cqf_units::Memory;
use std::alloc::Global;

/// A call of an administrator: for a stream, or for the withdrawal of the stream with this name.
#[derive(Clone, Copy)]
pub(crate) enum Ask {
    Admit(Asked),
    Withdraw(&'static str),
}

/// A call as a command.
fn command_of(alloc: Global, ask: &Ask) -> Result<Command, Memory> {
    match *ask {
        Ask::Admit(asked) => Ok(Command::Admit(request(alloc, &asked)?)),
        Ask::Withdraw(name) => Ok(Command::Withdraw(String::from_str(alloc, name)?)),
    }
}

/// Appends the commands of these calls to others.
fn add_commands(alloc: Global, calls: &[Ask], commands: &mut Vec<Command>) -> Result<(), Memory> {
    for ask in calls {
        commands.push(command_of(alloc, ask)?)?;
    }
    Ok(())
}

/// Returns the commands of an administrator who makes its calls `times` times.
fn commands_of(alloc: Global, calls: &[Ask], times: u32) -> Result<Vec<Command>, Memory> {
    let mut commands = Vec::new(alloc);
    for _time in 0..times {
        add_commands(alloc, calls, &mut commands)?;
    }
    Ok(commands)
}

/// Returns the commands of administrators who each do so.
pub(crate) fn all_commands(
    alloc: Global,
    admins: &[&[Ask]],
    times: u32,
) -> Result<Vec<Vec<Command>>, Memory> {
    let mut all = Vec::new(alloc);
    for calls in admins {
        all.push(commands_of(alloc, calls, times)?)?;
    }
    Ok(all)
}
