//! Calls of administrators to the admission.
ghost use Rattle.std.specs.Prelude.{◌≡◌, ◌<◌, OnErr, OnOk};
ghost use Rattle.cqf_model.specs.History.{seals};
ghost use Rattle.cqf_admission.specs.Admission.{Answers};
ghost use Rattle.cqf_admission.specs.Commands.{act_of_command};
ghost use Rattle.cqf_world.specs.Parts.{ClosesInWorld};
ghost use Rattle.cqf_model.specs.Limits.{most_cycles};

use cqf_admission::{Admission, Command, SealFault, Table};
use cqf_model::{Receipt, Refused};
use cqf_units::Memory;
use std::alloc::AllocError;

/// Makes an administrator's call with a seat, and returns the answer.
pub(crate) fn ask(
    admission: &mut Admission,
    seat: u16,
    command: &Command,
) -> Result<Receipt, Refused>
    ensures { Answers admission.old admission.new seat (act_of_command command.now) result }
{
    match command {
        Command::Admit(request) => admission.admit(seat, request),
        Command::AdmitPaced(request) => admission.admit_shared(seat, request),
        Command::Withdraw(name) => admission.withdraw(seat, name.as_str()),
    }
}

/// Closes the next cycle, and appends its table to the others. Returns `Memory` if an allocation fails; the admission
/// is then unchanged.
pub(crate) fn close_cycle(
    admission: &mut Admission,
    tables: &mut Vec<Table>,
    seat: u16,
) -> Result<(), Memory>
    requires { seals admission.old.entries < most_cycles }
    ensures ok { OnOk result (ClosesInWorld admission.old admission.new seat tables.old.items tables.new.items) }
    ensures err { OnErr result (admission.new ≡ admission.old) }
{
    tables.reserve(1)?;
    match admission.seal(seat) {
        Ok(table) => {
            tables.push(table).unwrap();
            Ok(())
        }
        Err(SealFault::Memory) => Err(AllocError),
        Err(SealFault::CyclesSpent) => unreachable!(),
    }
}
