//! Closing the pipes of a run after its threads have ended.
ghost use Rattle.std.specs.Prelude.{◌≡◌, ◌==◌, ◌++◌, Contains, IfNone, IfOk, IfSome, IsErrOf, OnErr, OnOk, map};
ghost use Rattle.std.specs.List.{flat_map, position};
ghost use Rattle.cqf_worker.specs.Closing.{AreFedBy, AreGivenBy, ArePartsOf, HasLostOne, HaveMore, IsPartner, bridge_trace_at};
ghost use Rattle.cqf_worker_loops.specs.Workers.{SegmentPort};
ghost use Rattle.cqf_worker.specs.Wires.{
  AreFedByWires,
  AreGiven,
  AreOn,
  AreWired,
  LackEnds,
  Wiring,
  count_on,
  ins_at,
  outs_at,
  pipe_of_tables,
  tables_pipe,
};

use cqf_admission::Table;
use cqf_relay::Segment;
use cqf_trace::BridgeTrace;
use cqf_units::Memory;
use cqf_worker_loops::{Carried, LinkEnd, PipeIn, PipeOut, Worker};
use std::alloc::Global;

/// Why the pipes of a run aren't closed.
#[derive(Clone, Copy, Debug, PartialEq, Eq, Drop)]
pub enum ClosingFault {
    /// An allocation failed.
    Memory,
    /// A taking end on a link has no putting end.
    ChannelLost,
}

/// Converts a failed allocation into a fault.
impl From<Memory> for ClosingFault {
    ghost use Rattle.cqf_worker.specs.declared.closing.ClosingFault.TheVariants as variant;

    ghost from_gives = { λ _ fault. fault ≡ variant.Memory };

    fn from(_refused: Memory) -> ClosingFault {
        ClosingFault::Memory
    }
}

/// The parts of workers: their ends on links, worker by worker, and one table end and one bridge trace per worker.
#[derive(Drop)]
struct Parts {
    ins: Vec<LinkEnd<PipeOut<Carried<Segment>>>>,
    outs: Vec<LinkEnd<PipeIn<Carried<Segment>>>>,
    tables: Vec<PipeOut<Carried<Table>>>,
    bridge_traces: Vec<BridgeTrace>,
}

/// Appends items to a list.
fn append<T: Drop>(list: &mut Vec<T>, more: Vec<T>) -> Result<(), Memory>
    ensures { OnOk result (list.new.items ≡ list.old.items ++ more.items) }
{
    for item in more {
        list.push(item)?;
    }
    Ok(())
}

/// Appends a worker's parts to those of the others.
fn add_parts(parts: &mut Parts, worker: Worker) -> Result<(), Memory>
    ensures { OnOk result (HaveMore parts.old parts.new worker) }
{
    let Worker {
        relay: _relay,
        notifier: _notifier,
        agenda: _agenda,
        tables,
        ins,
        outs,
        bridge_trace,
    } = worker;
    append(&mut parts.ins, ins)?;
    append(&mut parts.outs, outs)?;
    parts.tables.push(tables)?;
    parts.bridge_traces.push(bridge_trace)?;
    Ok(())
}

/// Returns the parts of all workers, in order.
fn take_apart(alloc: Global, workers: Vec<Worker>) -> Result<Parts, Memory>
    ensures { IfOk result (λ parts. ArePartsOf workers.items parts) }
{
    let mut parts = Parts {
        ins: Vec::new(alloc),
        outs: Vec::new(alloc),
        tables: Vec::new(alloc),
        bridge_traces: Vec::new(alloc),
    };
    for worker in workers {
        add_parts(&mut parts, worker)?;
    }
    Ok(parts)
}

/// Returns the index of the first putting end of a link.
fn index_of(outs: &[LinkEnd<PipeIn<Carried<Segment>>>], link: u16) -> Option<usize>
    ensures { result ≡ position (λ (out : SegmentPort). out.link == link) outs.now }
{
    outs.iter().position(|out| out.link == link)
}

/// Removes the first putting end of a link from a list and returns it.
fn take_partner(
    outs: &mut Vec<LinkEnd<PipeIn<Carried<Segment>>>>,
    link: u16,
) -> Option<PipeIn<Carried<Segment>>>
    ensures some { IfSome result (λ end. IsPartner outs.old.items link end) }
    ensures rest { (out : SegmentPort) → Contains outs.new.items out → Contains outs.old.items out }
    ensures one { IfSome result (λ end. HasLostOne link outs.old.items outs.new.items) }
    ensures none { IfNone result (count_on link outs.old.items ≡ 0) }
{
    match index_of(outs.as_slice(), link) {
        Some(index) => Some(outs.remove(index).pipe),
        None => None,
    }
}

/// Closes the pipes on links, each with its two ends.
fn close_links(
    ins: Vec<LinkEnd<PipeOut<Carried<Segment>>>>,
    outs: Vec<LinkEnd<PipeIn<Carried<Segment>>>>,
) -> Result<(), ClosingFault>
    requires { (wiring : Wiring) × AreOn wiring ins.items × AreOn wiring outs.items }
    ensures fed { OnOk result (AreFedBy outs.items ins.items) }
    ensures lost { OnErr result (LackEnds ins.items outs.items) }
{
    let mut left = outs;
    for taking in ins {
        let Some(putting) = take_partner(&mut left, taking.link) else {
            return Err(ClosingFault::ChannelLost);
        };
        let _under_way = putting.close(taking.pipe);
    }
    Ok(())
}

/// Closes the pipes for tables, the two ends at each index together.
fn close_tables(ins: Vec<PipeIn<Carried<Table>>>, outs: Vec<PipeOut<Carried<Table>>>)
    requires { map pipe_of_tables ins.items ≡ map pipe_of_tables outs.items }
    ensures { AreGivenBy ins.items outs.items }
{
    let mut others = outs.into_iter();
    for putting in ins {
        let Some(taking) = others.next() else {
            unreachable!()
        };
        let _under_way = putting.close(taking);
    }
}

/// Closes all pipes of a run after its threads have ended: those on links between bridges, whose ends the workers have, and those for
/// tables, whose putting ends are given by worker number. Returns the workers' bridge traces, by worker number. The workers' ends on a link
/// must be those of the link's pipe, and the ends for tables those of the workers' pipes, as `lay` returns them. Returns `Memory` if an
/// allocation fails, and `ChannelLost` if some link has fewer putting than taking ends; the ends and bridge traces are then dropped. It
/// doesn't block.
pub fn close_pipes(
    alloc: Global,
    tables: Vec<PipeIn<Carried<Table>>>,
    workers: Vec<Worker>,
) -> Result<Vec<BridgeTrace>, ClosingFault>
    requires wired { (wiring : Wiring) × AreWired wiring workers.items }
    requires tables { map pipe_of_tables tables.items ≡ map tables_pipe workers.items }
    ensures fed { OnOk result (AreFedByWires workers.items) }
    ensures given { OnOk result (AreGiven tables.items workers.items) }
    ensures bridge_traces { IfOk result (λ bridge_traces. bridge_traces.items ≡ map bridge_trace_at workers.items) }
    ensures lost { IsErrOf result ClosingFault.ChannelLost → LackEnds (flat_map ins_at workers.items) (flat_map outs_at workers.items) }
{
    let parts = take_apart(alloc, workers)?;
    let Parts {
        ins,
        outs,
        tables: takings,
        bridge_traces,
    } = parts;
    close_links(ins, outs)?;
    close_tables(tables, takings);
    Ok(bridge_traces)
}
