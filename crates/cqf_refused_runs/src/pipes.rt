//! Pipes.
ghost use Rattle.std.specs.Prelude.{◌≡◌, length};

use cqf_refused_values::{Reported, looked_at, mark, once, twice};
use cqf_worker_loops::{PipeIn, PipeOut, pipe};
use std::alloc::Global;
use std::sync::Wait;

/// Whether the items 1, 2 and 3 are accepted.
fn puts_three<R: Wait>(rt: &R, into: &mut PipeIn<u32>) -> bool
    requires { length into.old.items ≡ 0 }
    ensures { into.new.pipe ≡ into.old.pipe }
{
    into.put(rt, 1).is_ok() && into.put(rt, 2).is_ok() && into.put(rt, 3).is_ok()
}

/// Whether 1 and then 2 come out.
fn takes_two<R: Wait>(rt: &R, out: &mut PipeOut<u32>) -> bool
    ensures { out.new.pipe ≡ out.old.pipe }
{
    out.take(rt) == Some(1) && out.take(rt) == Some(2)
}

/// Whether three items are accepted, two are returned in order, and one is left.
fn is_used<R: Wait>(rt: &R, mut into: PipeIn<u32>, mut out: PipeOut<u32>) -> bool
    requires new { length into.items ≡ 0 }
    requires pair { into.pipe ≡ out.pipe }
{
    let put = puts_three(rt, &mut into);
    let taken = takes_two(rt, &mut out);
    let left = into.close(out);
    put && taken && left == 1
}

/// Whether a pipe can be made and used in this way.
fn is_made<R: Wait>(rt: &R, alloc: Global) -> bool {
    match pipe::<u32>(alloc) {
        Ok((into, out)) => is_used(rt, into, out),
        Err(_) => false,
    }
}

pub(crate) fn pipe_reported<R: Wait>(rt: &R, alloc: Global) -> Option<Reported> {
    mark(alloc);
    let first = pipe::<u32>(alloc);
    mark(alloc);
    match first {
        Ok((into, out)) => Some(once(is_used(rt, into, out))),
        Err(_) => Some(twice(true, is_made(rt, alloc))),
    }
}

pub(crate) fn none_reported<R: Wait>(rt: &R, alloc: Global) -> Option<Reported> {
    match pipe::<u32>(alloc) {
        Ok((into, out)) => Some(looked_at!(alloc, is_used(rt, into, out))),
        Err(_) => None,
    }
}
