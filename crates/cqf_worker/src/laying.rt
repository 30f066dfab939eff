//! Laying the pipes of a run.
ghost use Rattle.std.specs.Arc.{arc_value};
ghost use Rattle.std.specs.Prelude.{◌≡◌, ◌<◌, ◌^◌, [], All, IfOk, OnOk, length, map};
ghost use Rattle.cqf_worker_loops.specs.Workers.{HasItsOffers, MayWork};
ghost use Rattle.cqf_model.specs.Run.{AreOffers};
ghost use Rattle.cqf_worker.specs.Laying.{AreBare, HasCycles, HasIn, HasOut, IsBare, LaysFirst, LaysLink, LaysPipe, cycles_at, traffic_of};
ghost use Rattle.cqf_worker.specs.Wires.{AreWired, AreWorkersOf, Wiring, pipe_of_tables, tables_pipe};

use cqf_admission::Table;
use cqf_agenda::Agenda;
use cqf_model::{Node, Offer};
use cqf_relay::{Relay, Segment};
use cqf_topology::Domain;
use cqf_trace::BridgeTrace;
use cqf_units::Memory;
use cqf_worker_loops::{
    Carried, LinkEnd, Notifier, PipeIn, PipeOut, Worker, pipe_between, pipe_to,
};
use std::alloc::Global;
use std::sync::Arc;

/// The initial state of a run's threads: a worker for each bridge, and the ends at which the workers' tables are put, both by bridge
/// number.
#[derive(Drop)]
pub struct Laid {
    pub workers: Vec<Worker>,
    pub tables: Vec<PipeIn<Carried<Table>>>,
}

/// Returns a bridge's offers by cycle. Background frames are left out: they are added to the traces at the end.
fn agenda_of(
    alloc: Global,
    domain: &Domain,
    offers: &[Offer],
    number: u16,
) -> Result<Agenda, Memory>
    requires { length offers.now < 2 ^ 32 }
    ensures { IfOk result (HasItsOffers (traffic_of domain.now offers.now) number) }
{
    let agenda = Agenda::new(alloc, domain, offers, &[], number)?;
    Ok(agenda)
}

/// Returns a bridge's worker with no ports, and the end at which its tables are put.
fn ready_worker(
    alloc: Global,
    domain: &Arc<Domain>,
    offers: &[Offer],
    number: u16,
    cycles: u32,
) -> Result<(Worker, PipeIn<Carried<Table>>), Memory>
    requires bridge { number < length (arc_value domain.now).bridges }
    requires few_offers { length offers.now < 2 ^ 32 }
    ensures worker { IfOk result (λ made. IsBare (traffic_of (arc_value domain.now) offers.now) number made.0) }
    ensures cycles { IfOk result (λ made. made.0.relay.cycles ≡ cycles) }
    ensures pipe { IfOk result (λ made. made.1.pipe ≡ tables_pipe made.0) }
    ensures nothing_put { IfOk result (λ made. made.1.items ≡ []) }
{
    let relay = Relay::new(alloc, domain, number, cycles)?;
    let agenda = agenda_of(alloc, domain, offers, number)?;
    let notifier = Notifier::new(alloc)?;
    let (putting, tables) = pipe_to(alloc, &notifier)?;
    let worker = Worker {
        relay,
        notifier,
        agenda,
        tables,
        ins: Vec::new(alloc),
        outs: Vec::new(alloc),
        bridge_trace: BridgeTrace {
            traces: Vec::new(alloc),
            drops: Vec::new(alloc),
        },
    };
    Ok((worker, putting))
}

/// Returns the workers of all bridges with no ports, and the ends at which their tables are put.
fn ready_workers(
    alloc: Global,
    domain: &Domain,
    offers: &[Offer],
    cycles: u32,
) -> Result<Laid, Memory>
    requires few_offers { length offers.now < 2 ^ 32 }
    ensures count { IfOk result (λ laid. length laid.workers.items ≡ length domain.now.bridges) }
    ensures workers { IfOk result (λ laid. AreBare (traffic_of domain.now offers.now) laid.workers.items) }
    ensures cycles { IfOk result (λ laid. All (HasCycles cycles) laid.workers.items) }
    ensures pipes { IfOk result (λ laid. map pipe_of_tables laid.tables.items ≡ map tables_pipe laid.workers.items) }
    ensures nothing_put { IfOk result (λ laid. All (λ end. end.items ≡ []) laid.tables.items) }
{
    let shared = domain.try_share(alloc)?;
    let mut workers = Vec::new(alloc);
    let mut tables = Vec::new(alloc);
    for number in 0..domain.bridges() {
        let (worker, putting) = ready_worker(alloc, &shared, offers, number, cycles)?;
        workers.push(worker)?;
        tables.push(putting)?;
    }
    Ok(Laid { workers, tables })
}

/// Adds to a worker a port at which it puts segments.
fn add_out(worker: &mut Worker, port: LinkEnd<PipeIn<Carried<Segment>>>) -> Result<(), Memory>
    ensures { OnOk result (HasOut worker.old worker.new port) }
{
    worker.outs.push(port)?;
    Ok(())
}

/// Adds to a worker a port at which it takes segments.
fn add_in(worker: &mut Worker, port: LinkEnd<PipeOut<Carried<Segment>>>) -> Result<(), Memory>
    ensures { OnOk result (HasIn worker.old worker.new port) }
{
    worker.ins.push(port)?;
    Ok(())
}

/// Lays a pipe on a link between two bridges.
fn lay_pipe(
    alloc: Global,
    workers: &mut Vec<Worker>,
    link: u16,
    from: u16,
    to: u16,
) -> Result<(), Memory>
    requires from { from < length workers.old.items }
    requires to { to < length workers.old.items }
    ensures laid { OnOk result (LaysPipe link from to workers.old.items workers.new.items) }
    ensures tables { OnOk result (map tables_pipe workers.new.items ≡ map tables_pipe workers.old.items) }
    ensures cycles { OnOk result (map cycles_at workers.new.items ≡ map cycles_at workers.old.items) }
{
    let putter = &workers[usize::from(from)].notifier;
    let taker = &workers[usize::from(to)].notifier;
    let (putting, taking) = pipe_between(alloc, putter, taker)?;
    let out = LinkEnd {
        link,
        pipe: putting,
    };
    add_out(&mut workers[usize::from(from)], out)?;
    let into = LinkEnd { link, pipe: taking };
    add_in(&mut workers[usize::from(to)], into)?;
    Ok(())
}

/// Lays a pipe on a link if the link ends in a bridge.
fn lay_link(
    alloc: Global,
    domain: &Domain,
    workers: &mut Vec<Worker>,
    link: u16,
) -> Result<(), Memory>
    requires link { link < length domain.now.links }
    requires workers { length workers.old.items ≡ length domain.now.bridges }
    ensures laid { OnOk result (LaysLink domain.now link workers.old.items workers.new.items) }
    ensures tables { OnOk result (map tables_pipe workers.new.items ≡ map tables_pipe workers.old.items) }
    ensures cycles { OnOk result (map cycles_at workers.new.items ≡ map cycles_at workers.old.items) }
{
    domain.know();
    let between = domain.link(link);
    match between.to {
        Node::Bridge(to) => lay_pipe(alloc, workers, link, between.from, to)?,
        Node::Station(_) => {}
    }
    Ok(())
}

/// Lays a pipe on each link between two bridges.
fn lay_links(alloc: Global, domain: &Domain, workers: &mut Vec<Worker>) -> Result<(), Memory>
    requires { length workers.old.items ≡ length domain.now.bridges }
    ensures laid { OnOk result (LaysFirst domain.now (length domain.now.links) workers.old.items workers.new.items) }
    ensures tables { OnOk result (map tables_pipe workers.new.items ≡ map tables_pipe workers.old.items) }
    ensures cycles { OnOk result (map cycles_at workers.new.items ≡ map cycles_at workers.old.items) }
{
    for link in 0..domain.links() {
        lay_link(alloc, domain, workers, link)?;
    }
    Ok(())
}

/// Returns the workers of all bridges of a domain, by number, which have done nothing and have `cycles` cycles to go through. On each link
/// between two bridges there is a pipe from one bridge's worker to the other's. Each worker also has a pipe for tables; the putting ends of
/// these are returned by number too. There are fewer than 2^32 offers, each at a bridge of the domain. Returns `Memory` if an allocation
/// fails.
pub fn lay(alloc: Global, domain: &Domain, offers: &[Offer], cycles: u32) -> Result<Laid, Memory>
    requires few_offers { length offers.now < 2 ^ 32 }
    requires offers { AreOffers domain.now offers.now }
    ensures count { IfOk result (λ laid. length laid.workers.items ≡ length domain.now.bridges) }
    ensures workers { IfOk result (λ laid. AreWorkersOf (traffic_of domain.now offers.now) laid.workers.items) }
    ensures may_work { IfOk result (λ laid. All (MayWork cycles) laid.workers.items) }
    ensures wired { IfOk result (λ laid. (wiring : Wiring) × AreWired wiring laid.workers.items) }
    ensures tables { IfOk result (λ laid. map pipe_of_tables laid.tables.items ≡ map tables_pipe laid.workers.items) }
    ensures nothing_put { IfOk result (λ laid. All (λ end. end.items ≡ []) laid.tables.items) }
{
    let mut laid = ready_workers(alloc, domain, offers, cycles)?;
    lay_links(alloc, domain, &mut laid.workers)?;
    Ok(laid)
}
