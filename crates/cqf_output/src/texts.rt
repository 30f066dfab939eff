//! Text that was written to a list.
ghost use Rattle.std.specs.Prelude.{ℕ, ◌≡◌, [], List, IfOk, OnErr, Some, true};
ghost use Rattle.cqf_output.specs.Edge.{IsWritten, since};

use crate::checked::CheckedSink;
use std::alloc::AllocError;

/// Returns all of the text that was written to a list that was empty before.
///
/// # Errors
/// Returns `AllocError` if the list refused a part, which it does only if an allocation fails.
pub fn written_text(checked: CheckedSink<Vec<u8>>) -> Result<Vec<u8>, AllocError>
    ensures ok { IfOk result (λ list. (text : List ℕ) → IsWritten (since (λ list. Some list.items) (Some []) checked) text → list.items ≡ text) }
    ensures err { OnErr result (checked.refused ≡ true) }
{
    if checked.is_refused() {
        return Err(AllocError);
    }
    Ok(checked.into_writer())
}
