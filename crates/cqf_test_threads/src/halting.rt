//! Each thread that still takes gets exactly one notice that nothing follows.

use cqf_admission::Table;
use cqf_units::Memory;
use cqf_worker_loops::{Carried, LinkEnd, PipeOut, pipe, stop_each, stop_tables};
use std::alloc::Global;
use std::sync::Wait;

/// Returns whether a Stop arrives, and nothing after it.
fn is_reported<T: Drop, R: Wait>(rt: &R, end: &mut PipeOut<Carried<T>>) -> bool {
    match end.take(rt) {
        Some(Carried::Stop) => end.take(rt).is_none(),
        _ => false,
    }
}

/// Returns whether two workers get such a notice for their tables, past one that has ended.
fn workers_are_reported<R: Wait>(rt: &R, alloc: Global) -> Result<bool, Memory> {
    let (one, mut first) = pipe::<Carried<Table>>(alloc)?;
    let (other, ended) = pipe::<Carried<Table>>(alloc)?;
    let (another, mut last) = pipe::<Carried<Table>>(alloc)?;
    drop(ended);
    let mut tables = [one, other, another];
    stop_tables(rt, &mut tables);
    drop(tables);
    Ok(is_reported(rt, &mut first) && is_reported(rt, &mut last))
}

/// Returns whether two threads that take from a worker get such a notice, past one that has ended.
fn takers_are_reported<R: Wait>(rt: &R, alloc: Global) -> Result<bool, Memory> {
    let (one, mut first) = pipe::<Carried<u8>>(alloc)?;
    let (other, ended) = pipe::<Carried<u8>>(alloc)?;
    let (another, mut last) = pipe::<Carried<u8>>(alloc)?;
    drop(ended);
    let mut outs = [
        LinkEnd { link: 0, pipe: one },
        LinkEnd {
            link: 1,
            pipe: other,
        },
        LinkEnd {
            link: 2,
            pipe: another,
        },
    ];
    stop_each(rt, &mut outs);
    drop(outs);
    Ok(is_reported(rt, &mut first) && is_reported(rt, &mut last))
}

#[test]
fn each_that_still_takes_is_reported_once(rt: HostRuntime) {
    assert!(rt; matches!(workers_are_reported(&rt, rt.alloc()), Ok(true)));
    assert!(rt; matches!(takers_are_reported(&rt, rt.alloc()), Ok(true)));
}
