//! The entries of a history.
ghost use Rattle.std.specs.Prelude.{◌≡◌, ◌<◌, ◌++◌, [], ◌∷◌, map, vec_len, vec_capacity, IfOk};
ghost use Rattle.cqf_admission.specs.Admission.{act_of, recorded_of, reply_of};

use crate::shared::SharedRequest;
use cqf_model::{Receipt, Refused, Reply};
use cqf_topology::Request;
use cqf_units::Memory;
use std::alloc::Global;
use std::sync::Arc;
use thiserror::Error;

/// A call by an administrator, other than a Seal.
#[derive(Debug, Drop)]
pub enum Command {
    /// To admit a stream that is offered in each cycle.
    Admit(Request),
    /// To admit a stream that is offered in some cycles. Calls for one stream share its request.
    AdmitPaced(Arc<SharedRequest>),
    /// To withdraw the stream with a name.
    Withdraw(String),
}

/// What a call is for.
#[derive(Debug, Drop)]
pub enum Call {
    /// To admit a stream that is offered in each cycle.
    Admit(Request),
    /// To admit a stream that is offered in some cycles. Calls for one stream share its request.
    AdmitPaced(Arc<SharedRequest>),
    /// To withdraw the stream with a name.
    Withdraw(String),
    /// To close the next cycle to changes.
    Seal,
}

/// An entry of a history.
#[derive(Debug, Drop)]
pub struct Entry {
    /// The seat of the caller.
    pub seat: u16,
    pub call: Call,
    /// The answer to the call.
    pub reply: Reply,
}

/// Why a cycle isn't closed. Nothing is changed then.
#[derive(Clone, Copy, Debug, PartialEq, Eq, Error)]
pub enum SealFault {
    /// 100,000 cycles are already closed.
    #[error("CyclesSpent")]
    CyclesSpent,
    /// An allocation failed.
    #[error("Memory")]
    Memory,
}

impl From<Memory> for SealFault {
    ghost use Rattle.cqf_admission.specs.declared.entries.SealFault.TheVariants as variant;

    ghost from_gives = { λ _ fault. fault ≡ variant.Memory };

    fn from(_refused: Memory) -> SealFault {
        SealFault::Memory
    }
}

/// Returns the answer to a request or a withdrawal, as an entry has it.
pub(crate) fn reply_of(answer: Result<Receipt, Refused>) -> Reply
    ensures { result ≡ reply_of answer }
{
    match answer {
        Ok(receipt) => Reply::Accepted(receipt),
        Err(refused) => Reply::Refused(refused),
    }
}

/// Appends an entry to a history that has room for it.
pub(crate) fn enter(history: &mut Vec<Entry>, seat: u16, call: Call, reply: Reply)
    requires { vec_len history.old < vec_capacity history.old }
    ensures { history.new.items ≡ history.old.items ++ record { seat = seat; call = call; reply = reply } ∷ [] }
{
    history.push(Entry { seat, call, reply }).unwrap();
}

/// Returns a copy of the call, or `Memory` if an allocation fails.
fn copied_call(alloc: Global, call: &Call) -> Result<Call, Memory>
    ensures { IfOk result (λ copy. act_of copy ≡ act_of call.now) }
{
    match call {
        Call::Admit(request) => Ok(Call::Admit(request.try_copy(alloc)?)),
        Call::AdmitPaced(request) => Ok(Call::AdmitPaced(Arc::try_clone(request)?)),
        Call::Withdraw(name) => Ok(Call::Withdraw(String::from_str(alloc, name.as_str())?)),
        Call::Seal => Ok(Call::Seal),
    }
}

/// Returns a copy of the entry, or `Memory` if an allocation fails.
fn copied_entry(alloc: Global, entry: &Entry) -> Result<Entry, Memory>
    ensures { IfOk result (λ copy. recorded_of copy ≡ recorded_of entry.now) }
{
    Ok(Entry {
        seat: entry.seat,
        call: copied_call(alloc, &entry.call)?,
        reply: entry.reply,
    })
}

/// Returns a copy of the entries, or `Memory` if an allocation fails.
pub(crate) fn copied_entries(alloc: Global, entries: &[Entry]) -> Result<Vec<Entry>, Memory>
    ensures { IfOk result (λ copies. map recorded_of copies.items ≡ map recorded_of entries.now) }
{
    let mut copies = Vec::with_capacity(alloc, entries.len())?;
    for entry in entries {
        copies.push(copied_entry(alloc, entry)?)?;
    }
    Ok(copies)
}
