//! The conductor: a complete run on threads.
ghost use Rattle.std.specs.Prelude.{◌≡◌, ◌≤◌, ◌+◌, ◌*◌, IfErr, IfOk, OnOk, length, map};
ghost use Rattle.cqf_instants_run.specs.Taping.{BacksTheTraces, SomeTracedRun};
ghost use Rattle.cqf_desk.specs.Closing.{IsClosed};
ghost use Rattle.cqf_desk.specs.Desk.{fresh_seats};
ghost use Rattle.cqf_model.specs.History.{seals};
ghost use Rattle.cqf_model.specs.Run.{AreBackground, AreOffers};
ghost use Rattle.cqf_worker.specs.Wires.{AreWired, Wiring, pipe_of_tables, tables_pipe};
ghost use Rattle.cqf_worker.specs.Reporting.{IsStartFault};
ghost use Rattle.cqf_worker.specs.Account.{IsAccount, IsTracedAccount};
ghost use Rattle.cqf_worker.specs.Conducting.{AreLaidFor, AreSeatedFor, AreShut, IsDeskFault, IsPipeFault, IsPrepared, IsSettleFault, IsSettled};
ghost use Rattle.cqf_worker.specs.Closing.{bridge_trace_at};
ghost use Rattle.cqf_trace.specs.BridgeTraces.{AreBridgeTracesOf};
ghost use Rattle.cqf_worker.specs.Failing.{IsConductFault};
ghost use Rattle.cqf_model.specs.Limits.{most_cycles, most_offers};

use crate::account::{Account, TracedAccount};
use crate::{
    Administrator, ClosingFault, ConductFault, EndedRun, Laid, ReadyRun, close_pipes, lay,
    run_threads,
};
use cqf_admission::{Admission, Command, Table};
use cqf_desk::{CloseFault, Desk, History, Seat};
use cqf_instants_run::keep_background;
use cqf_laws_account::{seats_give_the_history, traces_give_the_book};
use cqf_laws_network::legal_network_exists;
use cqf_laws_relay::{backed_traces_are_the_books, relays_keep_the_traces, tables_may_come};
use cqf_laws_shift::book_of_history_says_the_shift;
use cqf_model::{Background, Offer};
use cqf_topology::Domain;
use cqf_trace::{BridgeTrace, Traces, book_of, gather};
use cqf_units::{Memory, Nanos};
use cqf_worker_loops::{Carried, Pace, PipeIn, Sealed, Worker};
use std::alloc::Global;
use std::sync::Wait;
use std::thread::Threads;

/// The inputs of a run besides its admission, its administrators and its cycles: a domain, the offers at its bridges, and the background
/// frames of its links.
#[derive(Clone, Copy)]
struct GivenRun<'d, 'o, 'b> {
    domain: &'d Domain,
    offers: &'o [Offer],
    background: &'b [Background],
}

/// A run that is ready to begin: its desk, and the initial state of its threads.
#[derive(Drop)]
struct PreparedRun {
    desk: Desk,
    ready: ReadyRun,
}

/// Returns a desk of the admission, with a seat for each administrator and one for the conductor.
fn open_desk(
    alloc: Global,
    admission: Admission,
    admins: usize,
) -> Result<(Desk, Vec<Seat>), ConductFault>
    ensures desk { IfOk result (λ made. made.0 ≡ record { opening = admission; seats = admins + 1 }) }
    ensures seats { IfOk result (λ made. made.1.items ≡ fresh_seats (admins + 1)) }
    ensures err { IfErr result IsStartFault }
{
    if admins >= usize::from(u16::MAX) {
        return Err(ConductFault::Spawn);
    }
    let Ok(seats) = u16::try_from(admins + 1) else {
        return Err(ConductFault::Spawn);
    };
    let made = Desk::new(alloc, admission, seats)?;
    Ok(made)
}

/// Gives each administrator its seat, and the conductor the next one.
fn seat_each(
    alloc: Global,
    seats: Vec<Seat>,
    admins: Vec<Vec<Command>>,
) -> Result<(Vec<Administrator>, Seat), ConductFault>
    requires { seats.items ≡ fresh_seats (length admins.items + 1) }
    ensures ok { IfOk result (λ seated. AreSeatedFor (map (λ c. c.items) admins.items) seated.0.items seated.1) }
    ensures err { IfErr result IsStartFault }
{
    let mut left = seats.into_iter();
    let mut administrators = Vec::new(alloc);
    for commands in admins {
        let Some(seat) = left.next() else {
            unreachable!()
        };
        let administrator = Administrator { seat, commands };
        administrators.push(administrator)?;
    }
    let Some(conductor) = left.next() else {
        unreachable!()
    };
    Ok((administrators, conductor))
}

/// Returns the workers of the domain's bridges, with pipes between them.
fn lay_all(alloc: Global, given: GivenRun<'_, '_, '_>, cycles: u32) -> Result<Laid, ConductFault>
    requires offers { AreOffers given.domain.now given.offers.now }
    requires few_offers { length given.offers.now ≤ most_offers }
    ensures ok { IfOk result (λ laid.
        AreLaidFor given.entry.domain.now given.entry.offers.now cycles laid.workers.items laid.tables.items) }
    ensures err { IfErr result IsStartFault }
{
    let laid = lay(alloc, given.domain, given.offers, cycles)?;
    Ok(laid)
}

/// Makes everything that a run needs to begin.
fn prepare(
    alloc: Global,
    given: GivenRun<'_, '_, '_>,
    admission: Admission,
    admins: Vec<Vec<Command>>,
    cycles: u32,
) -> Result<PreparedRun, ConductFault>
    requires domain { admission.domain ≡ given.domain.now }
    requires offers { AreOffers given.domain.now given.offers.now }
    requires few_offers { length given.offers.now ≤ most_offers }
    ensures ok { IfOk result (IsPrepared given.entry.domain.now admission.entries given.entry.offers.now cycles
        (map (λ c. c.items) admins.items)) }
    ensures err { IfErr result IsStartFault }
{
    let (desk, seats) = open_desk(alloc, admission, admins.len())?;
    let (administrators, conductor) = seat_each(alloc, seats, admins)?;
    let Laid { workers, tables } = lay_all(alloc, given, cycles)?;
    let ready = ReadyRun {
        workers,
        tables,
        administrators,
        conductor,
    };
    Ok(PreparedRun { desk, ready })
}

/// Closes a desk.
fn close_desk(desk: Desk, seats: Vec<Seat>) -> Result<History, ConductFault>
    ensures ok { IfOk result (λ history. IsClosed desk seats.items history) }
    ensures err { IfErr result (IsDeskFault desk seats.items) }
{
    match desk.close(seats) {
        Ok(history) => Ok(history),
        Err(CloseFault::Memory) => Err(ConductFault::Memory),
        Err(_) => Err(ConductFault::DeskDisagrees),
    }
}

/// Closes the pipes of a run.
fn shut_pipes(
    alloc: Global,
    tables: Vec<PipeIn<Carried<Table>>>,
    workers: Vec<Worker>,
) -> Result<Vec<BridgeTrace>, ConductFault>
    requires wired { (wiring : Wiring) × AreWired wiring workers.items }
    requires tables { map pipe_of_tables tables.items ≡ map tables_pipe workers.items }
    ensures ok { IfOk result (λ bridge_traces. AreShut tables.items workers.items bridge_traces.items) }
    ensures err { IfErr result (IsPipeFault workers.items) }
{
    match close_pipes(alloc, tables, workers) {
        Ok(bridge_traces) => Ok(bridge_traces),
        Err(ClosingFault::Memory) => Err(ConductFault::Memory),
        Err(ClosingFault::ChannelLost) => Err(ConductFault::ChannelLost),
    }
}

/// Returns the account of a run whose threads have ended: closes its pipes and its desk, and gathers its traces.
fn settle(
    alloc: Global,
    domain: &Domain,
    desk: Desk,
    ended: EndedRun,
) -> Result<TracedAccount, ConductFault>
    requires wired { (wiring : Wiring) × AreWired wiring ended.workers.items }
    requires tables { map pipe_of_tables ended.sealed.tables.items ≡ map tables_pipe ended.workers.items }
    requires bridge_traces { AreBridgeTracesOf domain.now (map bridge_trace_at ended.workers.items) }
    ensures ok { IfOk result (IsSettled domain.now desk ended) }
    ensures err { IfErr result (IsSettleFault desk ended) }
{
    let EndedRun {
        workers,
        mut seats,
        sealed,
    } = ended;
    let Sealed { seat, tables } = sealed;
    let bridge_traces = shut_pipes(alloc, tables, workers)?;
    seats.push(seat)?;
    let history = close_desk(desk, seats)?;
    let traces = gather(alloc, domain, bridge_traces)?;
    Ok(TracedAccount { history, traces })
}

/// Adds the background frames that the links start in the first `cycles` cycles to the traces of a run.
fn back(
    alloc: Global,
    given: GivenRun<'_, '_, '_>,
    cycles: u32,
    traces: &mut Traces,
) -> Result<(), Memory>
    requires short { cycles ≤ most_cycles }
    requires few { length given.background.now ≤ most_offers }
    requires run { SomeTracedRun given.domain.now (cycles * given.domain.now.cycle_time) given.background.now traces.old.links.items }
    ensures drops { traces.new.drops ≡ traces.old.drops }
    ensures traces { OnOk result (BacksTheTraces given.entry.domain.now (cycles * given.entry.domain.now.cycle_time) given.entry.background.now
        traces.old.links.items traces.new.links.items) }
{
    given.domain.know();
    let end = Nanos(u64::from(cycles) * given.domain.cycle_time().0);
    keep_background(
        alloc,
        given.domain,
        end,
        given.background,
        traces.links.as_mut_slice(),
    )
}

/// Runs a network under administration. There is a thread for each bridge of the domain and one for each administrator; the calling thread
/// closes the cycles. Administrator i makes its commands in order with seat i while the bridges run. The cycles are closed with the next
/// seat. Returns one history and the traces of one book. The book is the one that the compiled gate lists demand for that history, no matter
/// how the threads were scheduled (IEEE 802.1Q, Annex T). It can be read off the traces without sorting.
///
/// The admission is for that domain and has no Seal yet. `cycles` is at most 100,000. There are at most 16,777,215 offers, each at a bridge of
/// the domain, and at most 16,777,215 background frames, each on a link of it. The pace is called before each command and before each step
/// of a bridge, while no lock is held. It waits until all threads have ended.
///
/// On failure returns the first fault in the order given by [`ConductFault`]; the history and the traces are then dropped. `ChannelLost` is
/// never returned for a run of no cycles.
pub fn conduct_traces<R: Threads + Wait + Sync, P: Pace>(
    rt: &R,
    alloc: Global,
    domain: &Domain,
    admission: Admission,
    offers: &[Offer],
    background: &[Background],
    cycles: u32,
    admins: Vec<Vec<Command>>,
    pace: &P,
) -> Result<TracedAccount, ConductFault>
    requires domain { admission.domain ≡ domain.now }
    requires unsealed { seals admission.entries ≡ 0 }
    requires short { cycles ≤ most_cycles }
    requires offers { AreOffers domain.now offers.now }
    requires few_offers { length offers.now ≤ most_offers }
    requires background { AreBackground domain.now background.now }
    requires few_background { length background.now ≤ most_offers }
    ensures ok { IfOk result (IsTracedAccount domain.now admission.entries offers.now background.now cycles (map (λ c. c.items) admins.items)) }
    ensures err { IfErr result (IsConductFault domain.now admission.entries offers.now background.now cycles (map (λ c. c.items) admins.items)) }
{
    seats_give_the_history();
    legal_network_exists();
    tables_may_come();
    relays_keep_the_traces();
    backed_traces_are_the_books();
    book_of_history_says_the_shift();
    domain.know();
    let given = GivenRun {
        domain,
        offers,
        background,
    };
    let PreparedRun { desk, ready } = prepare(alloc, given, admission, admins, cycles)?;
    let ended = run_threads(rt, alloc, pace, &desk, cycles, ready)?;
    let mut account = settle(alloc, domain, desk, ended)?;
    back(alloc, given, cycles, &mut account.traces)?;
    Ok(account)
}

/// Runs a network as [`conduct_traces`] does, with the same inputs and the same faults, and returns the book in place of the traces. The book
/// is the one that the compiled gate lists demand for the history, no matter how the threads were scheduled (IEEE 802.1Q, Annex T). Also
/// returns `Memory` if the book can't be allocated; the history and the book are then dropped.
pub fn conduct<R: Threads + Wait + Sync, P: Pace>(
    rt: &R,
    alloc: Global,
    domain: &Domain,
    admission: Admission,
    offers: &[Offer],
    background: &[Background],
    cycles: u32,
    admins: Vec<Vec<Command>>,
    pace: &P,
) -> Result<Account, ConductFault>
    requires domain { admission.domain ≡ domain.now }
    requires unsealed { seals admission.entries ≡ 0 }
    requires short { cycles ≤ most_cycles }
    requires offers { AreOffers domain.now offers.now }
    requires few_offers { length offers.now ≤ most_offers }
    requires background { AreBackground domain.now background.now }
    requires few_background { length background.now ≤ most_offers }
    ensures ok { IfOk result (IsAccount domain.now admission.entries offers.now background.now cycles (map (λ c. c.items) admins.items)) }
    ensures err { IfErr result (IsConductFault domain.now admission.entries offers.now background.now cycles (map (λ c. c.items) admins.items)) }
{
    traces_give_the_book();
    domain.know();
    let TracedAccount { history, traces } = conduct_traces(
        rt, alloc, domain, admission, offers, background, cycles, admins, pace,
    )?;
    let book = book_of(alloc, domain, &traces, cycles)?;
    Ok(Account { history, book })
}
