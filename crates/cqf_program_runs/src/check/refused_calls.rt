//! The first refused call of a log, and what a check says of it.
ghost use Rattle.std.specs.Prelude.{◌≡◌, true, IfOk, map, string_bytes};
ghost use Rattle.cqf_admission.specs.Asking.{asked_paced};
ghost use Rattle.cqf_admission.specs.Ledger.{recorded_in};
ghost use Rattle.cqf_admission.specs.Orders.{StandsIn, act_in};
ghost use Rattle.cqf_program_runs.specs.Check.RefusedCalls.{act_text, is_refused, refused_call_line};
ghost use Rattle.cqf_program_runs.specs.Check.RefusedInLog.{is_call, refused_from};

use cqf_admission::{Logged, What, word_of};
use cqf_model::Reply;
use cqf_topology::PacedRequest;
use std::alloc::{AllocError, Global};

/// Returns whether an entry is a call; a Seal isn't.
fn is_call(logged: &Logged) -> bool
    ensures { result ≡ is_call logged.now.what }
{
    match logged.what {
        What::Admit(_) | What::Withdraw { .. } => true,
        What::Seal => false,
    }
}

/// Returns whether an answer refuses a call.
fn is_refused(logged: &Logged) -> bool
    ensures { result ≡ is_refused logged.now.reply }
{
    match logged.reply {
        Reply::Refused(_) => true,
        Reply::Accepted(_) | Reply::Sealed => false,
    }
}

/// Returns the first refused call of a log, with its number among the calls, from 1.
pub(crate) fn first_refused(log: &[Logged]) -> Option<(usize, Logged)>
    ensures { result ≡ refused_from 1 log.now }
{
    let mut number = 0;
    for logged in log {
        if is_call(logged) {
            number += 1;
            if is_refused(logged) {
                return Some((number, *logged));
            }
        }
    }
    None
}

/// Returns what was requested: the word, and the stream's name as it is.
fn call_text(
    alloc: Global,
    requests: &[PacedRequest],
    script: &[u8],
    what: What,
) -> Result<String, AllocError>
    requires { StandsIn (map asked_paced requests.now) script.now what }
    ensures { IfOk result (λ text. string_bytes text ≡ act_text (act_in (map asked_paced requests.now) script.now what)) }
{
    match what {
        What::Admit(index) => {
            let name = requests[index].name.as_str();
            let text = format!(in alloc; "admit {name}")?;
            Ok(text)
        }
        What::Withdraw { from, octets } => {
            let name = word_of(script, from, octets);
            let text = format!(in alloc; "withdraw {name}")?;
            Ok(text)
        }
        What::Seal => {
            let text = format!(in alloc; "seal")?;
            Ok(text)
        }
    }
}

/// Returns the line about a refused call with the given number, for these requests and the text of this script.
///
/// # Errors
/// `AllocError` if an allocation fails.
pub(crate) fn refused_line(
    alloc: Global,
    requests: &[PacedRequest],
    script: &[u8],
    number: usize,
    logged: &Logged,
) -> Result<String, AllocError>
    requires there { StandsIn (map asked_paced requests.now) script.now logged.now.what }
    requires refused { is_refused logged.now.reply ≡ true }
    ensures { IfOk result (λ line. string_bytes line
        ≡ refused_call_line (number, recorded_in (map asked_paced requests.now) script.now logged.now)) }
{
    let Reply::Refused(refused) = logged.reply else {
        unreachable!();
    };
    let text = call_text(alloc, requests, script, logged.what)?;
    let (call, seat) = (text.as_str(), logged.seat);
    let line = format!(in alloc;
        "cqf: check: call {number}, {call} by {seat}: refused {refused}\n"
    )?;
    Ok(line)
}
