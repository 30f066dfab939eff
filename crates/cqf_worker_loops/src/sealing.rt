//! What the conductor of a run does: it closes the cycles to changes, one by one, and passes their tables on.
ghost use Rattle.std.specs.Prelude.{◌≡◌, ◌+◌, ◌/◌, ◌<◌, ◌≤◌, [], ◌∷◌, false, true, All, IfErr, IfOk, length, map, min};
ghost use Rattle.cqf_worker_loops.specs.Handing.{
  ClosesSome,
  GivesEach,
  GivesSome,
  GivesTables,
  HasBrokenOff,
  HasClosed,
  HasSealed,
  LacksOne,
  MissesOne,
  SealsBlock,
  SealsMany,
  SealsOne,
  SealsSome,
  fault_of_seal,
  pipes_of,
  tables_handed,
};
ghost use Rattle.cqf_worker_loops.specs.Rows.{with_items};
ghost use Rattle.cqf_worker_loops.specs.Stops.{AreItemsThenStop};
ghost use Rattle.cqf_worker_loops.specs.declared.carried.Carried.TheVariants.{Item, Stop};
ghost use Rattle.cqf_model.specs.Limits.{most_cycles};
ghost use Rattle.cqf_worker_loops.specs.PipeRule.{most_items};

use crate::PipeIn;
use crate::carried::Carried;
use cqf_admission::{SealFault, Table};
use cqf_desk::{Desk, Seat};
use cqf_units::Memory;
use std::alloc::{AllocFailed, Global};
use std::collections::VecDeque;
use std::sync::Wait;

/// After this many closed cycles, the number of tables passed on at once grows by one.
const CLOSED_BY_ONE: u32 = 16;

/// The most tables that are passed on at once.
const MOST_AT_ONCE: u32 = 16;

/// Why the conductor doesn't close all cycles, or doesn't pass on all tables.
#[derive(Clone, Copy, Debug, PartialEq, Eq, Drop)]
pub enum SealingFault {
    /// An allocation failed.
    Memory,
    /// No more cycles can be closed.
    CyclesSpent,
    /// A worker ended before it was given all tables. All cycles are closed in this case.
    Lost,
}

/// Converts a failed allocation into a fault.
impl From<Memory> for SealingFault {
    ghost use Rattle.cqf_worker_loops.specs.declared.sealing.SealingFault.TheVariants as variant;

    ghost from_gives = { λ _ fault. fault ≡ variant.Memory };

    fn from(_refused: Memory) -> SealingFault {
        SealingFault::Memory
    }
}

/// Converts a failed allocation of a value into a fault.
impl<T: Drop> From<AllocFailed<T>> for SealingFault {
    ghost use Rattle.cqf_worker_loops.specs.declared.sealing.SealingFault.TheVariants as variant;

    ghost from_gives = { λ _ fault. fault ≡ variant.Memory };

    fn from(_refused: AllocFailed<T>) -> SealingFault {
        SealingFault::Memory
    }
}

/// Converts the reason of a refused Seal into a fault.
impl From<SealFault> for SealingFault {
    ghost from_gives = { λ refused fault. fault ≡ fault_of_seal refused };

    fn from(refused: SealFault) -> SealingFault {
        match refused {
            SealFault::CyclesSpent => SealingFault::CyclesSpent,
            SealFault::Memory => SealingFault::Memory,
        }
    }
}

/// What the conductor has in the end: its seat, and its ends of the workers' pipes for tables.
#[derive(Drop)]
pub struct Sealed {
    pub seat: Seat,
    pub tables: Vec<PipeIn<Carried<Table>>>,
}

/// What the conductor has if it doesn't close all cycles or doesn't pass on all tables, and why.
#[derive(Drop)]
pub struct Unsealed {
    pub fault: SealingFault,
    pub conductor: Sealed,
}

/// The tables of consecutive cycles, at least one, which are passed on together.
#[derive(Drop)]
pub(crate) struct Block {
    first: Table,
    following: Vec<Table>,
}

/// Returns how many cycles are closed before their tables are passed on together, if `closed` cycles are closed already. It is 1 at the
/// beginning of a run, so that administrators' requests take effect soon. It grows up to [`MOST_AT_ONCE`], so that workers are woken less
/// often.
fn tables_at_once(closed: u32) -> u32
    requires { closed ≤ most_cycles }
    ensures some { 0 < result }
    ensures count { result ≡ 1 + min (closed / 16) 15 }
{
    1 + (closed / CLOSED_BY_ONE).min(MOST_AT_ONCE - 1)
}

/// Puts messages in a pipe at once. Returns whether the other end still existed.
fn hand<R: Wait>(
    rt: &R,
    end: &mut PipeIn<Carried<Table>>,
    first: Carried<Table>,
    following: VecDeque<Carried<Table>>,
) -> bool
    requires room { length end.old.items + length following.items < most_items }
    ensures given { result ≡ true → end.new ≡ with_items end.old (first ∷ following.items) }
    ensures gone { result ≡ false → end.new ≡ end.old }
{
    match end.put_with(rt, first, following) {
        Ok(()) => true,
        Err(_) => false,
    }
}

/// Returns copies of tables, as a pipe carries them.
fn carried(alloc: Global, tables: &[Table]) -> Result<VecDeque<Carried<Table>>, Memory>
    ensures { IfOk result (λ copies. copies.items ≡ map Item tables.now) }
{
    let mut copies = VecDeque::new(alloc);
    for table in tables {
        copies.push_back(Carried::Item(table.try_copy(alloc)?))?;
    }
    Ok(copies)
}

/// Puts copies of the tables in each pipe, skipping those whose worker has ended. Returns whether every worker was given them.
fn hand_on<R: Wait>(
    rt: &R,
    alloc: Global,
    block: &Block,
    tables: &mut [PipeIn<Carried<Table>>],
) -> Result<bool, Memory>
    requires room { All (λ end. length end.items + length (tables_handed block.now) < most_items) tables.old }
    ensures pipes { pipes_of tables.new ≡ pipes_of tables.old }
    ensures some { GivesSome (map Item (tables_handed block.now)) tables.old tables.new }
    ensures given { IfOk result (λ all. all ≡ true → GivesEach (map Item (tables_handed block.now)) tables.old tables.new) }
    ensures missed { IfOk result (λ all. all ≡ false → MissesOne tables.old tables.new) }
{
    let mut all = true;
    for index in 0..tables.len() {
        let first = block.first.try_copy(alloc)?;
        let following = carried(alloc, block.following.as_slice())?;
        if !hand(rt, &mut tables[index], Carried::Item(first), following) {
            all = false;
        }
    }
    Ok(all)
}

/// Puts a `Stop` in a pipe. Returns whether the other end still existed.
fn report<R: Wait>(rt: &R, end: &mut PipeIn<Carried<Table>>) -> bool
    requires room { length end.old.items < most_items }
    ensures given { result ≡ true → end.new ≡ with_items end.old (Stop ∷ []) }
    ensures gone { result ≡ false → end.new ≡ end.old }
{
    match end.put(rt, Carried::Stop) {
        Ok(()) => true,
        Err(_) => false,
    }
}

/// Notifies each worker once that no more tables follow, skipping those that have ended. At each end fewer than 1,000,000 items were put
/// before. It waits while a pipe is full, and allocates no memory.
pub fn stop_tables<R: Wait>(rt: &R, tables: &mut [PipeIn<Carried<Table>>])
    requires room { All (λ end. length end.items < most_items) tables.old }
    ensures pipes { pipes_of tables.new ≡ pipes_of tables.old }
    ensures stopped { GivesSome (Stop ∷ []) tables.old tables.new }
{
    for index in 0..tables.len() {
        report(rt, &mut tables[index]);
    }
}

/// Closes the next cycle with the seat and returns its table.
fn seal_one<R: Wait>(
    rt: &R,
    alloc: Global,
    desk: &Desk,
    seat: &mut Seat,
) -> Result<Table, SealingFault>
    ensures ok { IfOk result (SealsOne seat.old seat.new) }
    ensures err { IfErr result (SealsSome 1 seat.old seat.new) }
{
    desk.seal(rt, seat)?;
    let Some(table) = seat.last_table() else {
        unreachable!()
    };
    let copy = table.try_copy(alloc)?;
    Ok(copy)
}

/// Closes the next `count` cycles with the seat and returns their tables.
fn seal_many<R: Wait>(
    rt: &R,
    alloc: Global,
    desk: &Desk,
    count: u32,
    seat: &mut Seat,
) -> Result<Vec<Table>, SealingFault>
    ensures ok { IfOk result (λ tables. SealsMany count seat.old seat.new tables.items) }
    ensures err { IfErr result (SealsSome count seat.old seat.new) }
{
    let mut tables = Vec::new(alloc);
    for _ in 0..count {
        let table = seal_one(rt, alloc, desk, seat)?;
        tables.push(table)?;
    }
    Ok(tables)
}

/// Closes the next `count` cycles with the seat, at least one, and returns their tables.
fn seal_block<R: Wait>(
    rt: &R,
    alloc: Global,
    desk: &Desk,
    count: u32,
    seat: &mut Seat,
) -> Result<Block, SealingFault>
    requires some { 0 < count }
    ensures ok { IfOk result (λ block. SealsMany count seat.old seat.new (tables_handed block)) }
    ensures err { IfErr result (SealsSome count seat.old seat.new) }
{
    let first = seal_one(rt, alloc, desk, seat)?;
    let following = seal_many(rt, alloc, desk, count - 1, seat)?;
    Ok(Block { first, following })
}

/// Closes the next `count` cycles with the seat and passes their tables on. Returns whether every worker was given them.
fn seal_next<R: Wait>(
    rt: &R,
    alloc: Global,
    desk: &Desk,
    count: u32,
    seat: &mut Seat,
    tables: &mut [PipeIn<Carried<Table>>],
) -> Result<bool, SealingFault>
    requires some { 0 < count }
    requires room { All (λ end. length end.items + count < most_items) tables.old }
    ensures pipes { pipes_of tables.new ≡ pipes_of tables.old }
    ensures some { GivesTables count tables.old tables.new }
    ensures ok { IfOk result (λ all. SealsBlock count seat.old seat.new tables.old tables.new all) }
    ensures err { IfErr result (SealsSome count seat.old seat.new) }
{
    let block = seal_block(rt, alloc, desk, count, seat)?;
    let all = hand_on(rt, alloc, &block, tables)?;
    Ok(all)
}

/// Closes `cycles` cycles to changes, one after the other, and passes the tables of all of them to every worker. Returns whether all
/// workers were given all tables; if a worker has ended, the others go on. If a Seal is refused or an allocation fails, it notifies the
/// workers that no more tables follow. What it puts for a worker is tables, and then at most one `Stop`.
fn seal_cycles<R: Wait>(
    rt: &R,
    alloc: Global,
    desk: &Desk,
    cycles: u32,
    conductor: &mut Sealed,
) -> Result<bool, SealingFault>
    requires few { cycles ≤ most_cycles }
    requires no_calls { conductor.old.seat.calls ≡ [] }
    requires no_tables { conductor.old.seat.tables ≡ [] }
    requires nothing_put { All (λ end. end.items ≡ []) conductor.old.tables.items }
    ensures pipes { pipes_of conductor.new.tables.items ≡ pipes_of conductor.old.tables.items }
    ensures put { All (λ end. AreItemsThenStop end.items) conductor.new.tables.items }
    ensures all { IfOk result (λ all. all ≡ true →
        HasSealed cycles conductor.old.seat conductor.new.seat conductor.old.tables.items conductor.new.tables.items) }
    ensures closed { IfOk result (λ all. HasClosed cycles conductor.old.seat conductor.new.seat) }
    ensures missed { IfOk result (λ all. all ≡ false → LacksOne conductor.new.tables.items cycles) }
    ensures err { IfErr result (ClosesSome cycles conductor.old.seat conductor.new.seat) }
{
    let mut all = true;
    let mut left = cycles;
    while left > 0 {
        let count = tables_at_once(cycles - left).min(left);
        let tables = conductor.tables.as_mut_slice();
        match seal_next(rt, alloc, desk, count, &mut conductor.seat, tables) {
            Ok(given) => all &= given,
            Err(fault) => {
                stop_tables(rt, conductor.tables.as_mut_slice());
                return Err(fault);
            }
        }
        left -= count;
    }
    Ok(all)
}

/// Closes `cycles` cycles to changes, at most 100,000, with a seat that has no calls and no tables yet, and passes the table of each to
/// every worker, at ends where nothing was put. Returns `CyclesSpent` if no more cycles can be closed, and `Memory` if an allocation fails;
/// each worker that still takes is then notified by a `Stop`. Returns `Lost` if a worker had ended before; all cycles are closed then, and
/// the other workers have all tables. With a fault the seat and the ends come back. It waits for the desk's lock and for room in the pipes.
pub fn seal_all<R: Wait>(
    rt: &R,
    alloc: Global,
    desk: &Desk,
    seat: Seat,
    tables: Vec<PipeIn<Carried<Table>>>,
    cycles: u32,
) -> Result<Sealed, Unsealed>
    requires few { cycles ≤ most_cycles }
    requires no_calls { seat.calls ≡ [] }
    requires no_tables { seat.tables ≡ [] }
    requires nothing_put { All (λ end. end.items ≡ []) tables.items }
    ensures ok { IfOk result (λ done. HasSealed cycles seat done.seat tables.items done.tables.items) }
    ensures err { IfErr result (HasBrokenOff cycles seat tables.items) }
{
    let mut conductor = Sealed { seat, tables };
    match seal_cycles(rt, alloc, desk, cycles, &mut conductor) {
        Ok(true) => Ok(conductor),
        Ok(false) => Err(Unsealed {
            fault: SealingFault::Lost,
            conductor,
        }),
        Err(fault) => Err(Unsealed { fault, conductor }),
    }
}
