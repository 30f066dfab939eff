//! The calls of a scenario, applied in turn.
ghost use Rattle.std.specs.Prelude.{◌≡◌, ◌≢◌, ◌≤◌, ◌<◌, Err, IfOk, map, true};
ghost use Rattle.cqf_admission.specs.Admission.{act_of, is_entered};
ghost use Rattle.cqf_model.specs.History.{Seals, seals};
ghost use Rattle.cqf_program_scenario.specs.Calls.{HasRoom, HasRoomFor, with_call, with_calls};
ghost use Rattle.cqf_admission.specs.Script.{called_of};
ghost use Rattle.cqf_model.specs.Limits.{most_cycles};

use cqf_admission::{Admission, Call, Receipt, Refused, SealFault};
use cqf_laws_history::state_follows_history;
use cqf_units::Memory;
use std::alloc::AllocError;

/// Returns `Memory` if a call wasn't entered. The history wasn't full, so an allocation failed.
pub(crate) fn entered(answer: Result<Receipt, Refused>) -> Result<(), Memory>
    requires { answer ≢ Err Refused.HistoryFull }
    ensures { IfOk result (λ _. is_entered answer ≡ true) }
{
    match answer {
        Ok(_) => Ok(()),
        Err(refused) => match refused {
            Refused::HistoryFull => unreachable!(),
            Refused::Memory => Err(AllocError),
            _ => Ok(()),
        },
    }
}

/// Closes the next cycle to changes.
fn close(admission: &mut Admission, seat: u16) -> Result<(), Memory>
    requires { seals admission.old.entries < most_cycles }
    ensures domain { admission.new.domain ≡ admission.old.domain }
    ensures entries { IfOk result (λ _. admission.new.entries ≡ with_call admission.old.domain admission.old.entries (seat, Seals)) }
{
    match admission.seal(seat) {
        Ok(_table) => Ok(()),
        Err(SealFault::CyclesSpent) => unreachable!(),
        Err(SealFault::Memory) => Err(AllocError),
    }
}

/// Applies a call.
fn apply(admission: &mut Admission, seat: u16, call: &Call) -> Result<(), Memory>
    requires { HasRoomFor admission.old.entries (act_of call.now) }
    ensures domain { admission.new.domain ≡ admission.old.domain }
    ensures entries { IfOk result (λ _. admission.new.entries ≡ with_call admission.old.domain admission.old.entries (seat, act_of call.now)) }
{
    state_follows_history();
    match call {
        Call::Admit(request) => entered(admission.admit(seat, request)),
        Call::AdmitPaced(request) => entered(admission.admit_shared(seat, request)),
        Call::Withdraw(name) => entered(admission.withdraw(seat, name.as_str())),
        Call::Seal => close(admission, seat),
    }
}

/// Applies calls in turn.
pub(crate) fn apply_all(
    admission: &mut Admission,
    calls: &[(u16, Call)],
    cycles: u32,
) -> Result<(), Memory>
    requires short { cycles ≤ most_cycles }
    requires room { HasRoom cycles admission.old.entries (map called_of calls.now) }
    ensures domain { admission.new.domain ≡ admission.old.domain }
    ensures entries { IfOk result (λ _. admission.new.entries ≡ with_calls admission.old.domain admission.old.entries (map called_of calls.now)) }
    ensures few { IfOk result (λ _. seals admission.new.entries ≤ cycles) }
{
    state_follows_history();
    for call in calls {
        apply(admission, call.0, &call.1)?;
    }
    Ok(())
}
