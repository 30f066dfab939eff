//! An administrator on a thread of its own.
ghost use Rattle.std.specs.Prelude.{◌≡◌, ◌++◌, [], ◌∷◌, true, Err, IfErr, IfOk, OnOk};
ghost use Rattle.cqf_model.specs.Calls.{acts_of};
ghost use Rattle.cqf_admission.specs.Admission.{is_entered};
ghost use Rattle.cqf_admission.specs.Commands.{act_of_command};
ghost use Rattle.cqf_desk.specs.Desk.{Keeps};
ghost use Rattle.cqf_worker_loops.specs.Commands.{HasCalled, HasLeftOff, answer_of};

use crate::pace::Pace;
use cqf_admission::{Command, Receipt, Refused};
use cqf_desk::{Desk, Seat};
use std::sync::Wait;

/// Why an administrator doesn't make all its commands.
#[derive(Clone, Copy, Debug, PartialEq, Eq, Drop)]
pub enum CallFault {
    /// The history has no room for another call.
    HistoryFull,
    /// An allocation failed.
    Memory,
}

/// What an administrator returns when it gives up: the fault, and its seat with the calls made so far.
#[derive(Drop)]
pub struct Unmade {
    pub fault: CallFault,
    pub seat: Seat,
}

/// Returns `Ok` if the call has entered the history, whether it was granted or refused; else why it didn't enter.
fn settled(answer: Result<Receipt, Refused>) -> Result<(), CallFault>
    ensures ok { OnOk result (is_entered answer ≡ true) }
    ensures err { IfErr result (λ fault. answer ≡ Err (answer_of fault)) }
{
    match answer {
        Err(Refused::HistoryFull) => Err(CallFault::HistoryFull),
        Err(Refused::Memory) => Err(CallFault::Memory),
        Err(_) => Ok(()),
        Ok(_) => Ok(()),
    }
}

/// Makes a command at the desk. The seat then has the call after its other calls, unless the call didn't enter the history.
fn make_call<R: Wait>(
    rt: &R,
    desk: &Desk,
    seat: &mut Seat,
    command: &Command,
) -> Result<(), CallFault>
    ensures number { seat.new.number ≡ seat.old.number }
    ensures ok { OnOk result (acts_of seat.new.calls ≡ acts_of seat.old.calls ++ act_of_command command.now ∷ []) }
    ensures err { IfErr result (λ fault. Keeps seat.old seat.new (act_of_command command.now) (Err (answer_of fault))) }
{
    match command {
        Command::Admit(request) => settled(desk.admit(rt, seat, request)),
        Command::AdmitPaced(request) => settled(desk.admit_shared(rt, seat, request)),
        Command::Withdraw(name) => settled(desk.withdraw(rt, seat, name.as_str())),
    }
}

/// Makes an administrator's commands in order with its seat, which has no calls yet, and returns the seat with these calls. Before each
/// call it runs the pace's `before_call`, while no lock is held; `admin` serves only as its argument. A refused call enters the history,
/// and the next one is made. Returns `HistoryFull` or `Memory` at the first call that doesn't enter. The seat then comes back with the
/// calls before that one, which are in the history. It waits for the desk's lock.
pub fn make_calls<R: Wait, P: Pace>(
    rt: &R,
    pace: &P,
    desk: &Desk,
    admin: usize,
    seat: Seat,
    commands: Vec<Command>,
) -> Result<Seat, Unmade>
    requires fresh { seat.calls ≡ [] }
    ensures ok { IfOk result (λ done. HasCalled commands.items seat done) }
    ensures err { IfErr result (HasLeftOff commands.items seat) }
{
    let mut seat = seat;
    for index in 0..commands.as_slice().len() {
        pace.before_call(admin, index);
        match make_call(rt, desk, &mut seat, &commands[index]) {
            Ok(()) => {}
            Err(fault) => return Err(Unmade { fault, seat }),
        }
    }
    Ok(seat)
}
