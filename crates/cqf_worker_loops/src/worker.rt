//! A bridge on a thread of its own.
ghost use Rattle.std.specs.Prelude.{◌≡◌, ◌<◌, ◌≤◌, All, IfErr, IfOk, length};
ghost use Rattle.cqf_worker_loops.specs.GivingUp.{HasGivenUp};
ghost use Rattle.cqf_worker_loops.specs.Rows.{wires_of};
ghost use Rattle.cqf_worker_loops.specs.Stops.{AreItems, AreItemsThenStop, AreStopped};
ghost use Rattle.cqf_worker_loops.specs.Workers.{MayWork, Works};
ghost use Rattle.cqf_model.specs.Limits.{most_cycles};
ghost use Rattle.cqf_worker_loops.specs.PipeRule.{most_items};

use crate::carried::Carried;
use crate::link_ends::LinkEnd;
use crate::pace::Pace;
use crate::rounds::work_rounds;
use crate::rows::stop_each;
use crate::{Notifier, PipeIn, PipeOut};
use cqf_admission::Table;
use cqf_agenda::Agenda;
use cqf_relay::{Relay, Segment};
use cqf_trace::BridgeTrace;
use cqf_units::Memory;
use std::alloc::Global;
use std::sync::Wait;

/// A bridge with all that it needs on a thread of its own.
#[derive(Drop)]
pub struct Worker {
    pub relay: Relay,
    /// Where it waits. The notifier is rung for each table and each segment that arrives, and for room in a pipe that was full.
    pub notifier: Notifier,
    /// The offers at the bridge, by cycle.
    pub agenda: Agenda,
    /// Where the table of each cycle arrives.
    pub tables: PipeOut<Carried<Table>>,
    /// The ends of the pipes on the links that end in the bridge, by link number.
    pub ins: Vec<LinkEnd<PipeOut<Carried<Segment>>>>,
    /// The ends of the pipes on the links that leave the bridge and end in another bridge, by link number.
    pub outs: Vec<LinkEnd<PipeIn<Carried<Segment>>>>,
    /// What the bridge has sent and dropped.
    pub bridge_trace: BridgeTrace,
}

/// Why a worker ends before its last cycle is over.
#[derive(Clone, Copy, Debug, PartialEq, Eq, Drop)]
pub enum WorkerFault {
    /// An allocation failed.
    Memory,
    /// A pipe carried a `Stop`, or its other end was gone. The cause isn't the worker itself.
    Stopped,
}

/// Converts a failed allocation into a fault.
impl From<Memory> for WorkerFault {
    ghost use Rattle.cqf_worker_loops.specs.declared.worker.WorkerFault.TheVariants as variant;

    ghost from_gives = { λ _ fault. fault ≡ variant.Memory };

    fn from(_refused: Memory) -> WorkerFault {
        WorkerFault::Memory
    }
}

/// What a worker returns when it gives up: the number of its bridge, from 0, the fault, and the ends at which it put items. At each of
/// these it put segments, and then at most one `Stop`.
#[derive(Drop)]
pub struct GaveUp {
    pub bridge: u16,
    pub fault: WorkerFault,
    pub outs: Vec<LinkEnd<PipeIn<Carried<Segment>>>>,
}

/// Drops a worker. It first drops the ends at which the worker takes, so that no thread that puts there waits for room any more. Then it
/// notifies the threads that take from the worker that no more items follow. Returns the ends at which a `Stop` was put after nothing but
/// segments.
fn let_go<R: Wait>(rt: &R, worker: Worker) -> Vec<LinkEnd<PipeIn<Carried<Segment>>>>
    requires room { All (λ port. length port.pipe.items < most_items) worker.outs.items }
    requires batches { All (λ port. AreItems port.pipe.items) worker.outs.items }
    ensures count { length result.items ≡ length worker.outs.items }
    ensures stopped { AreStopped worker.outs.items result.items }
    ensures outs { wires_of result.items ≡ wires_of worker.outs.items }
    ensures carried { All (λ port. AreItemsThenStop port.pipe.items) result.items }
{
    let Worker {
        tables,
        ins,
        mut outs,
        relay: _relay,
        notifier: _notifier,
        agenda: _agenda,
        bridge_trace: _bridge_trace,
    } = worker;
    drop(tables);
    drop(ins);
    stop_each(rt, outs.as_mut_slice());
    outs
}

/// Goes through all cycles of a run (at most 100,000) with a bridge on its thread. The worker has done nothing before. It comes back with
/// what went through its pipes, and with what its bridge sent and dropped in `bridge_trace`. The pace is called in each cycle once the
/// cycle's table has arrived, while no lock is held. The worker waits only at its notifier, unless it gives up.
///
/// Returns `Memory` if an allocation fails. Returns `Stopped` if the worker is stopped, which happens only if there are cycles. In both
/// cases it first notifies the threads that put items for it, and then those that take from it. The ends at which it put items come back.
/// Its bridge trace doesn't, so the run has no book then.
pub fn work<R: Wait, P: Pace>(
    rt: &R,
    alloc: Global,
    pace: &P,
    mut worker: Worker,
) -> Result<Worker, GaveUp>
    requires few { worker.relay.cycles ≤ most_cycles }
    requires new { MayWork worker.relay.cycles worker }
    ensures ok { IfOk result (λ done. Works worker.relay.cycles worker done) }
    ensures err { IfErr result (HasGivenUp worker.relay.cycles worker) }
{
    let bridge = worker.relay.number();
    match work_rounds(rt, alloc, pace, &mut worker) {
        Ok(()) => Ok(worker),
        Err(fault) => {
            let outs = let_go(rt, worker);
            Err(GaveUp {
                bridge,
                fault,
                outs,
            })
        }
    }
}
