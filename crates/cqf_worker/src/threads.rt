//! The threads of a run: one per bridge, one per administrator, and the conductor's own.
ghost use Rattle.std.specs.Prelude.{◌≡◌, ◌≤◌, [], All, IfErr, IfOk, List, Ok, Result, Some, map};
ghost use Rattle.std.specs.List.{AllZip};
ghost use Rattle.cqf_desk.specs.Desk.{Sitting};
ghost use Rattle.cqf_worker_loops.specs.Handing.{HasSealed};
ghost use Rattle.cqf_worker_loops.specs.Workers.{MayWork, Works};
ghost use Rattle.cqf_worker_loops.specs.declared.calling.Unmade.{Unmade};
ghost use Rattle.cqf_worker_loops.specs.declared.worker.GaveUp.{GaveUp};
ghost use Rattle.cqf_worker_loops.specs.declared.worker.Worker.{Worker};
ghost use Rattle.cqf_worker.specs.Faults.{IsClean, is_noted};
ghost use Rattle.cqf_worker.specs.Noting.{NotesFault, NotesAll, KeepsGiven, fault_of_caller, fault_of_conductor, fault_of_worker, noted, noted_with};
ghost use Rattle.cqf_worker.specs.Running.{AnswersWorker, BreaksOff, CallAnswers, CallsOf, IsEnded, IsReadyWorker, RunAnswers};
ghost use Rattle.cqf_worker.specs.Reporting.{IsStartFault, MayBeReported};
ghost use Rattle.cqf_model.specs.Limits.{most_cycles};

use crate::faults::{ConductFault, Faults};
use cqf_admission::{Command, Table};
use cqf_desk::{Desk, Seat};
use cqf_worker_loops::{
    CallFault, Carried, GaveUp, Pace, PipeIn, Sealed, SealingFault, Unmade, Worker, WorkerFault,
    make_calls, seal_all, stop_tables, work,
};
use std::alloc::Global;
use std::snapshot::Snapshot;
use std::sync::Wait;
use std::thread;
use std::thread::{Promise, PromisedHandle, Scope, Threads};

/// An administrator with its seat at the desk and the commands that it is to make.
#[derive(Drop)]
pub struct Administrator {
    pub seat: Seat,
    pub commands: Vec<Command>,
}

/// The initial state of a run's threads: the workers of all bridges and the ends at which their tables are put, both by number, the
/// administrators by number, and the conductor's seat.
#[derive(Drop)]
pub struct ReadyRun {
    pub workers: Vec<Worker>,
    pub tables: Vec<PipeIn<Carried<Table>>>,
    pub administrators: Vec<Administrator>,
    pub conductor: Seat,
}

/// The final state of a run's threads: the workers and the administrators' seats, both by number, and what the conductor has.
#[derive(Drop)]
pub struct EndedRun {
    pub workers: Vec<Worker>,
    pub seats: Vec<Seat>,
    pub sealed: Sealed,
}

/// What the threads of a run share: the pace, which they call before each call and step; the desk at which administrators call and cycles
/// are closed, and how many cycles each worker goes through.
struct Shared<'s, P> {
    pace: &'s P,
    desk: &'s Desk,
    cycles: u32,
}

/// The promise that a worker's thread does its part, or returns what a worker that gives up returns.
#[derive(Drop)]
pub struct OfWorker {
    /// How many cycles the worker goes through.
    pub cycles: u32,
    /// The worker in its initial state.
    pub worker: Snapshot<Worker>,
}

impl Promise<Result<Worker, GaveUp>> for OfWorker {
    ghost use Rattle.cqf_worker.specs.Running.{AnswersWorker};

    ghost kept_by = { λ p r. AnswersWorker p.cycles p.worker.value r };
}

/// The promise that an administrator's thread makes its commands with its seat.
#[derive(Drop)]
struct OfAdministrator {
    administrator: Snapshot<Administrator>,
}

impl Promise<Result<Seat, Unmade>> for OfAdministrator {
    ghost use Rattle.cqf_worker.specs.Running.{CallAnswers};

    ghost kept_by = { λ p r. CallAnswers p.administrator.value r };
}

/// A worker's thread.
pub type Working = PromisedHandle<Result<Worker, GaveUp>, OfWorker>;

/// An administrator's thread.
type Calling = PromisedHandle<Result<Seat, Unmade>, OfAdministrator>;

/// Starts a thread for each worker, to go through `cycles` cycles, and returns the handles in the workers' order. Returns `Spawn` if a
/// thread can't be started, and `Memory` if its handle can't be kept. The workers that weren't started are then dropped. Those that were
/// started go on, and their scope waits for them. So the caller must then notify them that no tables follow (`stop_tables`), or drop the
/// ends.
pub fn start_workers<'s, E, R: Threads + Wait + Sync, P: Pace>(
    alloc: Global,
    scope: &'s Scope<'s, E>,
    rt: &'s R,
    pace: &'s P,
    cycles: u32,
    workers: Vec<Worker>,
) -> Result<Vec<Working>, ConductFault>
    requires few { cycles ≤ most_cycles }
    requires new { All (MayWork cycles) workers.items }
    ensures of { IfOk result (λ handles. map (λ h. h.promise.worker.value) handles.items ≡ workers.items) }
    ensures cycles { IfOk result (λ handles. All (λ h. h.promise.cycles ≡ cycles) handles.items) }
    ensures err { IfErr result IsStartFault }
{
    let mut handles = Vec::new(alloc);
    for worker in workers {
        let promise = OfWorker {
            cycles,
            worker: Snapshot::of(&worker),
        };
        let Ok(handle) = scope.spawn_with(
            promise,
            move || -> Result<Worker, GaveUp>
                requires { (worker.relay.cycles ≤ most_cycles) × MayWork worker.relay.cycles worker }
                ensures { AnswersWorker worker.relay.cycles worker result }
            { work(rt, alloc, pace, worker) },
        ) else {
            return Err(ConductFault::Spawn);
        };
        handles.push(handle)?;
    }
    Ok(handles)
}

/// Makes all of an administrator's commands.
fn call_all<R: Wait, P: Pace>(
    rt: &R,
    pace: &P,
    desk: &Desk,
    administrator: Administrator,
) -> Result<Seat, Unmade>
    requires { administrator.seat.calls ≡ [] }
    ensures { CallAnswers administrator result }
{
    let Administrator { seat, commands } = administrator;
    let number = usize::from(seat.number());
    make_calls(rt, pace, desk, number, seat, commands)
}

/// Starts a thread for each administrator, and returns the handles in the administrators' order. Returns `Spawn` if a thread can't be
/// started, and `Memory` if its handle can't be kept. The administrators that weren't started are then dropped. Those that were started go
/// on, and their scope waits for them.
fn start_administrators<'s, E, R: Threads + Wait + Sync, P: Pace>(
    alloc: Global,
    scope: &'s Scope<'s, E>,
    rt: &'s R,
    pace: &'s P,
    desk: &'s Desk,
    administrators: Vec<Administrator>,
) -> Result<Vec<Calling>, ConductFault>
    requires fresh { All (λ a. a.seat.calls ≡ []) administrators.items }
    ensures of { IfOk result (λ handles. map (λ h. h.promise.administrator.value) handles.items ≡ administrators.items) }
    ensures err { IfErr result IsStartFault }
{
    let mut handles = Vec::new(alloc);
    for administrator in administrators {
        let promise = OfAdministrator {
            administrator: Snapshot::of(&administrator),
        };
        let Ok(handle) = scope.spawn_with(
            promise,
            move || -> Result<Seat, Unmade>
                requires { administrator.seat.calls ≡ [] }
                ensures { CallAnswers administrator result }
            { call_all(rt, pace, desk, administrator) },
        ) else {
            return Err(ConductFault::Spawn);
        };
        handles.push(handle)?;
    }
    Ok(handles)
}

/// Notes why a bridge's worker gave up. If it was stopped, it has no fault of its own, and a stop is noted.
fn note_worker(faults: &mut Faults, why: GaveUp)
    ensures some { IsClean faults.new → ⊥ }
    ensures reported { faults.new ≡ noted faults.old (fault_of_worker why) }
{
    match why.fault {
        WorkerFault::Memory => faults.note(ConductFault::Memory),
        WorkerFault::Stopped => faults.note_stop(),
    }
}

/// Notes why an administrator gave up.
fn note_caller(faults: &mut Faults, why: Unmade)
    ensures some { IsClean faults.new → ⊥ }
    ensures reported { faults.new ≡ noted faults.old (fault_of_caller why) }
{
    match why.fault {
        CallFault::HistoryFull => faults.note(ConductFault::DeskDisagrees),
        CallFault::Memory => faults.note(ConductFault::Memory),
    }
}

/// Notes why the conductor gave up. If a worker had ended before, the conductor has no fault of its own, and a stop is noted.
fn note_conductor(faults: &mut Faults, fault: SealingFault)
    ensures some { IsClean faults.new → ⊥ }
    ensures reported { faults.new ≡ noted faults.old (fault_of_conductor fault) }
{
    match fault {
        SealingFault::Memory => faults.note(ConductFault::Memory),
        SealingFault::CyclesSpent => faults.note(ConductFault::DeskDisagrees),
        SealingFault::Lost => faults.note_stop(),
    }
}

/// Appends what a thread returned to what others returned, or notes `Memory` if it can't be kept.
fn keep<T: Drop>(given: T, kept: &mut Vec<T>, faults: &mut Faults)
    ensures { KeepsGiven faults.old faults.new kept.old.items kept.new.items given }
{
    match kept.push(given) {
        Ok(()) => {}
        Err(_) => faults.note(ConductFault::Memory),
    }
}

/// Waits for a worker's thread. If it notes no fault, it appends the worker to the others.
fn join_worker<R: Threads + Wait>(
    rt: &R,
    handle: Working,
    workers: &mut Vec<Worker>,
    faults: &mut Faults,
)
    ensures { (answer : Result Worker GaveUp) × AnswersWorker handle.promise.cycles handle.promise.worker.value answer
        × NotesFault fault_of_worker faults.old faults.new workers.old.items workers.new.items answer }
{
    match handle.join(rt) {
        Ok(worker) => keep(worker, workers, faults),
        Err(why) => note_worker(faults, why),
    }
}

/// Waits for all workers' threads, and returns the workers that come back, in the handles' order. For each worker that gave up it notes, in
/// that order, the fault, or a stop if the worker has no fault of its own. It notes `Memory` if a worker can't be kept. If nothing has gone
/// wrong in the end, nothing had before, all workers are returned, and each has done its part.
pub fn join_workers<R: Threads + Wait>(
    rt: &R,
    alloc: Global,
    handles: Vec<Working>,
    faults: &mut Faults,
) -> Vec<Worker>
    ensures before { IsClean faults.new → IsClean faults.old }
    ensures done { IsClean faults.new → AllZip (λ h done. Works h.promise.cycles h.promise.worker.value done) handles.items result.items }
    ensures noted { (answers : List (Result Worker GaveUp))
        × AllZip (λ h answer. AnswersWorker h.promise.cycles h.promise.worker.value answer) handles.items answers
        × NotesAll fault_of_worker faults.old faults.new [] result.items answers }
{
    let mut workers = Vec::new(alloc);
    for handle in handles {
        join_worker(rt, handle, &mut workers, faults);
    }
    workers
}

/// Waits for an administrator's thread. If it notes no fault, it appends the seat to the others.
fn join_administrator<R: Threads + Wait>(
    rt: &R,
    handle: Calling,
    seats: &mut Vec<Seat>,
    faults: &mut Faults,
)
    ensures { (answer : Result Sitting Unmade) × CallAnswers handle.promise.administrator.value answer
        × NotesFault fault_of_caller faults.old faults.new seats.old.items seats.new.items answer }
{
    match handle.join(rt) {
        Ok(seat) => keep(seat, seats, faults),
        Err(why) => note_caller(faults, why),
    }
}

/// Waits for all administrators' threads, and returns the seats that come back, in the handles' order. For each administrator that gave up
/// it notes the fault, in that order. It notes `Memory` if a seat can't be kept.
fn join_administrators<R: Threads + Wait>(
    rt: &R,
    alloc: Global,
    handles: Vec<Calling>,
    faults: &mut Faults,
) -> Vec<Seat>
    ensures before { IsClean faults.new → IsClean faults.old }
    ensures done { IsClean faults.new → AllZip (λ h done. CallsOf h.promise.administrator.value done) handles.items result.items }
    ensures noted { (answers : List (Result Sitting Unmade))
        × AllZip (λ h answer. CallAnswers h.promise.administrator.value answer) handles.items answers
        × NotesAll fault_of_caller faults.old faults.new [] result.items answers }
{
    let mut seats = Vec::new(alloc);
    for handle in handles {
        join_administrator(rt, handle, &mut seats, faults);
    }
    seats
}

/// Starts a thread for each worker and each administrator, and returns their handles.
fn start_all<'s, E, R: Threads + Wait + Sync, P: Pace>(
    alloc: Global,
    scope: &'s Scope<'s, E>,
    rt: &'s R,
    shared: Shared<'s, P>,
    workers: Vec<Worker>,
    administrators: Vec<Administrator>,
) -> Result<(Vec<Working>, Vec<Calling>), ConductFault>
    requires few { shared.cycles ≤ most_cycles }
    requires new { All (MayWork shared.cycles) workers.items }
    requires fresh { All (λ a. a.seat.calls ≡ []) administrators.items }
    ensures workers { IfOk result (λ handles. map (λ h. h.promise.worker.value) handles.0.items ≡ workers.items) }
    ensures cycles { IfOk result (λ handles. All (λ h. h.promise.cycles ≡ shared.entry.cycles) handles.0.items) }
    ensures administrators { IfOk result (λ handles. map (λ h. h.promise.administrator.value) handles.1.items ≡ administrators.items) }
    ensures err { IfErr result IsStartFault }
{
    let Shared { pace, desk, cycles } = shared;
    let working = start_workers(alloc, scope, rt, pace, cycles, workers)?;
    let calling = start_administrators(alloc, scope, rt, pace, desk, administrators)?;
    Ok((working, calling))
}

/// Closes the cycles and passes their tables on. If this fails, it drops the conductor's seat and its ends of the pipes.
fn seal_each<R: Wait>(
    rt: &R,
    alloc: Global,
    desk: &Desk,
    conductor: Seat,
    tables: Vec<PipeIn<Carried<Table>>>,
    cycles: u32,
) -> Result<Sealed, SealingFault>
    requires few { cycles ≤ most_cycles }
    requires no_calls { conductor.calls ≡ [] }
    requires no_tables { conductor.tables ≡ [] }
    requires nothing_put { All (λ end. end.items ≡ []) tables.items }
    ensures ok { IfOk result (λ done. HasSealed cycles conductor done.seat tables.items done.tables.items) }
    ensures err { IfErr result (BreaksOff cycles conductor tables.items) }
{
    match seal_all(rt, alloc, desk, conductor, tables, cycles) {
        Ok(sealed) => Ok(sealed),
        Err(left) => Err(left.fault),
    }
}

/// Starts all threads, closes the cycles while they run, and waits for them. If a thread can't be started or an allocation fails, it
/// notifies the workers that no tables follow. The workers that were started then end; the scope waits for them.
fn run_in<'s, E, R: Threads + Wait + Sync, P: Pace>(
    alloc: Global,
    scope: &'s Scope<'s, E>,
    rt: &'s R,
    shared: Shared<'s, P>,
    ready: ReadyRun,
) -> Result<EndedRun, ConductFault>
    requires { IsReadyWorker shared.cycles ready }
    ensures ok { IfOk result (IsEnded shared.entry.cycles ready) }
    ensures err { IfErr result (MayBeReported shared.entry.cycles ready) }
{
    let ReadyRun {
        workers,
        mut tables,
        administrators,
        conductor,
    } = ready;
    let desk = shared.desk;
    let cycles = shared.cycles;
    let started = start_all(alloc, scope, rt, shared, workers, administrators);
    let (working, calling) = match started {
        Ok(threads) => threads,
        Err(fault) => {
            stop_tables(rt, tables.as_mut_slice());
            return Err(fault);
        }
    };
    let mut faults = Faults::none();
    let sealed = seal_each(rt, alloc, desk, conductor, tables, cycles);
    let seats = join_administrators(rt, alloc, calling, &mut faults);
    let workers = join_workers(rt, alloc, working, &mut faults);
    match all_ended(faults, workers, seats, sealed) {
        Ok(ended) => Ok(ended),
        Err(fault) => Err(fault),
    }
}

/// Returns what the threads have in the end, if nothing has gone wrong; else the first of the faults that were noted and the conductor's
/// fault.
fn all_ended(
    mut faults: Faults,
    workers: Vec<Worker>,
    seats: Vec<Seat>,
    sealed: Result<Sealed, SealingFault>,
) -> Result<EndedRun, ConductFault>
    ensures all { IfOk result (λ all. IsClean faults × (all.workers ≡ workers) × (all.seats ≡ seats) × (sealed ≡ Ok all.sealed)) }
    ensures reported { IfErr result (λ fault. is_noted (noted_with faults sealed) ≡ Some fault) }
{
    match sealed {
        Ok(sealed) => match faults.reported() {
            Some(fault) => Err(fault),
            None => Ok(EndedRun {
                workers,
                seats,
                sealed,
            }),
        },
        Err(fault) => {
            note_conductor(&mut faults, fault);
            match faults.reported() {
                Some(reported) => Err(reported),
                None => unreachable!(),
            }
        }
    }
}

/// Runs the threads. Each worker goes through all cycles and each administrator makes its commands on a thread of its own, while this
/// thread closes the cycles and passes their tables on. There are at most 100,000 cycles, and nothing is done yet: no seat has calls, and
/// nothing was put. It returns when all threads have ended. Returns `Spawn` if a thread couldn't be started, `Memory` if its handle
/// couldn't be kept, and else the first fault in the order of [`ConductFault`], if there is one. On failure everything in `ready` is dropped.
/// It waits for threads, pipes and locks.
pub fn run_threads<R: Threads + Wait + Sync, P: Pace>(
    rt: &R,
    alloc: Global,
    pace: &P,
    desk: &Desk,
    cycles: u32,
    ready: ReadyRun,
) -> Result<EndedRun, ConductFault>
    requires { IsReadyWorker cycles ready }
    ensures ok { IfOk result (IsEnded cycles ready) }
    ensures err { IfErr result (MayBeReported cycles ready) }
{
    thread::scope(
        thread::scope_env(),
        rt,
        move |scope| -> Result<EndedRun, ConductFault>
            requires { IsReadyWorker cycles ready }
            ensures { RunAnswers cycles ready result }
        {
            let shared = Shared { pace, desk, cycles };
            run_in(alloc, scope, rt, shared, ready)
        },
    )
}
