//! The rounds of a bridge's thread: each link goes on independently.
ghost use Rattle.std.specs.Prelude.{◌≡◌, ◌<◌, IfErr, IfOk, OnErr, OnOk, length};
ghost use Rattle.cqf_worker_loops.specs.GivingUp.{GivesUpFor};
ghost use Rattle.cqf_worker_loops.specs.Stepping.{EndsSo, EntersTable, GoesFurther, HandsOnAt, HasPutSegments, HasTable, KeepsBridgeTrace, SomeUnderWay};
ghost use Rattle.cqf_worker_loops.specs.declared.worker.WorkerFault.TheVariants.{Memory};

use crate::carried::Carried;
use crate::pace::Pace;
use crate::worker::{Worker, WorkerFault};
use crate::{FoundItem, NotPut};
use cqf_admission::Table;
use cqf_units::Cycle;
use std::alloc::Global;
use std::sync::Wait;

/// Makes the bridge take the table of its next cycle, which has arrived.
fn enter_table<P: Pace>(pace: &P, worker: &mut Worker, table: &Table) -> Result<(), WorkerFault>
    requires { HasTable table.now worker.old }
    ensures ok { OnOk result (EntersTable table.now worker.old worker.new) }
    ensures err { IfErr result (λ fault. fault ≡ Memory) }
    ensures outs { worker.new.outs ≡ worker.old.outs }
{
    let cycle = Cycle(worker.relay.tables());
    pace.before_step(usize::from(worker.relay.number()), cycle);
    let offers = worker.agenda.offers(cycle);
    worker.relay.take_table(table, offers)?;
    Ok(())
}

/// Takes the tables that have arrived, as long as the bridge wants another one.
fn look_for_tables<R: Wait, P: Pace>(
    rt: &R,
    pace: &P,
    worker: &mut Worker,
) -> Result<(), WorkerFault>
    requires { SomeUnderWay worker.old }
    ensures ok { OnOk result (GoesFurther worker.old worker.new) }
    ensures err { OnErr result (HasPutSegments worker.old worker.new) }
{
    for _table in worker.relay.tables()..worker.relay.cycles() {
        if !worker.relay.wants_table() {
            break;
        }
        match worker.tables.look(rt) {
            FoundItem::Item(Carried::Item(table)) => enter_table(pace, worker, &table)?,
            FoundItem::Nothing => break,
            _ => return Err(WorkerFault::Stopped),
        }
    }
    Ok(())
}

/// Takes the segments that have arrived through the inlet at this index, until none is left.
fn look_for_segments<R: Wait>(rt: &R, worker: &mut Worker, index: usize) -> Result<(), WorkerFault>
    requires under_way { SomeUnderWay worker.old }
    requires index { index < length worker.old.ins.items }
    ensures ok { OnOk result (GoesFurther worker.old worker.new) }
    ensures err { OnErr result (HasPutSegments worker.old worker.new) }
{
    for _segment in 0..u64::MAX {
        match worker.ins[index].pipe.look(rt) {
            FoundItem::Item(Carried::Item(segment)) => worker.relay.take_segment(index, &segment)?,
            FoundItem::Nothing => break,
            _ => return Err(WorkerFault::Stopped),
        }
    }
    Ok(())
}

/// Takes everything that has arrived.
fn look<R: Wait, P: Pace>(rt: &R, pace: &P, worker: &mut Worker) -> Result<(), WorkerFault>
    requires { SomeUnderWay worker.old }
    ensures ok { OnOk result (GoesFurther worker.old worker.new) }
    ensures err { OnErr result (HasPutSegments worker.old worker.new) }
{
    look_for_tables(rt, pace, worker)?;
    for index in 0..worker.ins.len() {
        look_for_segments(rt, worker, index)?;
    }
    Ok(())
}

/// Passes on what the link at index `index` has sent, to the bridge at its end, through the port at index `port`. If the pipe is full, the
/// bridge keeps it for later: the notifier rings when there is room.
fn report_on<R: Wait>(
    rt: &R,
    alloc: Global,
    worker: &mut Worker,
    index: usize,
    port: usize,
) -> Result<(), WorkerFault>
    requires under_way { SomeUnderWay worker.old }
    requires at { HandsOnAt index port worker.old }
    ensures ok { OnOk result (GoesFurther worker.old worker.new) }
    ensures err { OnErr result (HasPutSegments worker.old worker.new) }
{
    let reported = worker.relay.outlets()[index].reported();
    let segment = worker.relay.segment_of(alloc, index);
    match worker.outs[port].pipe.try_put(rt, Carried::Item(segment)) {
        Ok(()) => Ok(()),
        Err(NotPut::Full(Carried::Item(back))) => {
            worker.relay.keep_back(index, reported, back);
            Ok(())
        }
        Err(_) => Err(WorkerFault::Stopped),
    }
}

/// Passes on what the links have sent to the bridges at their ends, as far as there is room in their pipes.
fn report<R: Wait>(rt: &R, alloc: Global, worker: &mut Worker) -> Result<(), WorkerFault>
    requires { SomeUnderWay worker.old }
    ensures ok { OnOk result (GoesFurther worker.old worker.new) }
    ensures err { OnErr result (HasPutSegments worker.old worker.new) }
{
    let cycles = worker.relay.cycles();
    let mut port = 0;
    for index in 0..worker.relay.outlets().len() {
        let is_onward = worker.relay.outlets()[index].is_onward();
        if worker.relay.outlets()[index].has_news(cycles) {
            report_on(rt, alloc, worker, index, port)?;
        }
        if is_onward {
            port += 1;
        }
    }
    Ok(())
}

/// Takes what has arrived, lets each link go on as far as it can, and passes on what was sent. Returns whether a link went on.
fn go_on<R: Wait, P: Pace>(
    rt: &R,
    alloc: Global,
    pace: &P,
    worker: &mut Worker,
) -> Result<bool, WorkerFault>
    requires { SomeUnderWay worker.old }
    ensures ok { IfOk result (λ went. GoesFurther worker.old worker.new) }
    ensures err { OnErr result (HasPutSegments worker.old worker.new) }
{
    look(rt, pace, worker)?;
    let may_send = worker.relay.may_send();
    if may_send {
        worker.relay.send()?;
    }
    // a link that a new row now leads to has something to pass on, even if it can't go on itself
    report(rt, alloc, worker)?;
    Ok(may_send)
}

/// Moves what the bridge has sent and dropped to the worker's bridge trace.
fn keep(alloc: Global, worker: &mut Worker) -> Result<(), WorkerFault>
    ensures ok { OnOk result (KeepsBridgeTrace worker.old worker.new) }
    ensures err { IfErr result (λ fault. fault ≡ Memory) }
    ensures outs { worker.new.outs ≡ worker.old.outs }
{
    worker.bridge_trace = worker.relay.take_bridge_trace(alloc)?;
    Ok(())
}

/// Goes through all cycles. If no link can go on with what has arrived so far, it waits at its notifier. The notifier is rung for each table and
/// each segment, and when there is room for what couldn't be passed on. It waits nowhere else.
pub(crate) fn work_rounds<R: Wait, P: Pace>(
    rt: &R,
    alloc: Global,
    pace: &P,
    worker: &mut Worker,
) -> Result<(), WorkerFault>
    requires { SomeUnderWay worker.old }
    ensures ok { OnOk result (EndsSo worker.old worker.new) }
    ensures err { IfErr result (GivesUpFor worker.old.relay.cycles) }
    ensures put { OnErr result (HasPutSegments worker.old worker.new) }
{
    for _round in rt.forever() {
        if worker.relay.is_over() {
            break;
        }
        let went = go_on(rt, alloc, pace, worker)?;
        if !went && !worker.relay.is_over() {
            worker.notifier.wait(rt);
        }
    }
    keep(alloc, worker)
}
