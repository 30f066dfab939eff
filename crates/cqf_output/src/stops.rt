//! Ends of the program before its work is done.
ghost use Rattle.std.specs.Prelude.{◌≡◌, ◌≢◌, [], IfOk, IfSome, MatchResult, codes, string_bytes};
ghost use Rattle.cqf_output.specs.Stops.{EndsWith, EndsJustWith, fault_line, line_of};

use std::alloc::{AllocError, Global};
use std::fmt::Display;
use std::io;

/// The request is done.
pub const DONE: u8 = 0;
/// The input is refused.
pub const REFUSED: u8 = 1;
/// The arguments aren't a command.
pub const USAGE: u8 = 2;
/// An allocation failed.
pub const NO_MEMORY: u8 = 3;
/// A read, a write or a run on threads failed.
pub const FAULT: u8 = 4;

/// An end before the work is done: the exit status, and the text that says why. With status 3 the text is empty, since
/// there may be no memory for it. With status 0, a request for help, the text goes to standard output, otherwise to
/// standard error.
#[derive(Debug, Drop)]
pub struct Stop {
    pub status: u8,
    pub text: Vec<u8>,
}

/// Returns the line of a fault in a part of the input. Returns `AllocError` only if an allocation fails.
fn line_of_fault<F: Display>(alloc: Global, part: &str, fault: &F) -> Result<String, AllocError>
    ensures { IfOk result (λ line. IfSome (F.output fault.now) (λ text. string_bytes line ≡ fault_line part.now text)) }
{
    let line = format!(in alloc; "cqf: {part}: {fault}\n")?;
    Ok(line)
}

impl Stop {
    /// Returns the end after a failed allocation: status 3 and no text.
    pub fn memory(alloc: Global) -> Stop
        ensures status { result.status ≡ 3 }
        ensures text { result.text.items ≡ [] }
    {
        Stop {
            status: NO_MEMORY,
            text: Vec::new(alloc),
        }
    }

    /// Returns the end with this status and line, or the end after a failed allocation if there is no memory for the
    /// line. The status isn't 3.
    pub fn with_line(alloc: Global, status: u8, line: &str) -> Stop
        requires { status ≢ 3 }
        ensures { EndsWith status line.now result }
    {
        match Vec::from_slice(alloc, line.as_bytes()) {
            Ok(text) => Stop { status, text },
            Err(_) => Stop::memory(alloc),
        }
    }

    /// Returns the end for arguments that can't be read: status 2 and the line `cqf: words` if they aren't text; the
    /// end after a failed allocation if there is no memory for them or for the line.
    pub fn without_words(alloc: Global, error: &io::Error) -> Stop
        ensures { EndsWith 2 (line_of (codes "cqf: words")) result }
    {
        if error.kind() == io::ErrorKind::OutOfMemory {
            Stop::memory(alloc)
        } else {
            Stop::with_line(alloc, USAGE, "cqf: words\n")
        }
    }

    /// Returns the end with this status and text, or the end after a failed allocation if the text couldn't be made.
    /// The status isn't 3.
    pub fn with_text(alloc: Global, status: u8, text: Result<String, AllocError>) -> Stop
        requires { status ≢ 3 }
        ensures checked { IfOk text (λ line. EndsJustWith status (string_bytes line) result) }
        ensures text { MatchResult text (λ line. EndsWith status (string_bytes line) result) (λ _. result.status ≡ 3) }
        ensures memory { result.status ≡ 3 → result.text.items ≡ [] }
    {
        match text {
            Ok(text) => Stop {
                status,
                text: text.into_bytes(),
            },
            Err(_) => Stop::memory(alloc),
        }
    }

    /// Returns the end for a part of the input that is refused for a fault: status 1, and the line `cqf: PART: FAULT`,
    /// with the fault as it is displayed. Returns the end after a failed allocation if there is no memory for the line.
    pub fn refused<F: Display>(alloc: Global, part: &str, fault: &F) -> Stop
        ensures { IfSome (F.output fault.now) (λ text. EndsWith 1 (fault_line part.now text) result) }
    {
        Stop::with_text(alloc, REFUSED, line_of_fault(alloc, part, fault))
    }
}
