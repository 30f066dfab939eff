//! The entries of a log.
ghost use Rattle.std.specs.Prelude.{◌≡◌, ◌<◌, ◌++◌, [], ◌∷◌, vec_len, vec_capacity};

use crate::What;
use cqf_model::Reply;

/// An entry of a log. It refers to the requests or to the script's text.
#[derive(Clone, Copy, Debug)]
pub struct Logged {
    /// The seat of the caller.
    pub seat: u16,
    pub what: What,
    /// The answer to the call.
    pub reply: Reply,
}

/// Appends an entry to a log that has room for it.
pub(crate) fn enter(log: &mut Vec<Logged>, seat: u16, what: What, reply: Reply)
    requires { vec_len log.old < vec_capacity log.old }
    ensures { log.new.items ≡ log.old.items ++ record { seat = seat; what = what; reply = reply } ∷ [] }
{
    log.push(Logged { seat, what, reply }).unwrap();
}
