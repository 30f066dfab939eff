//! A run of the network on one thread, from its beginning to its book.
ghost use Rattle.std.specs.Prelude.{◌≤◌, IfErr, IfOk, OnOk, length};
ghost use Rattle.cqf_model.specs.Book.{contents_of};
ghost use Rattle.cqf_model.specs.Network.{Network};
ghost use Rattle.cqf_model.specs.Run.{AreBackground, AreOffers, Run};
ghost use Rattle.cqf_plain.specs.SoFar.{IsAt, IsRunOver, StopsRun};
ghost use Rattle.cqf_plain.specs.Promise.{KeepsItOfHistory, WantsMemoryAlone};
ghost use Rattle.cqf_plain.specs.Run.{AreTablesNumbered, IsBookOfRun, IsRunFault, run_of};
ghost use Rattle.cqf_model.specs.Limits.{most_cycles, most_offers};

use crate::RunFault;
use crate::so_far::RunSoFar;
use crate::tables::are_numbered;
use cqf_admission::Table;
use cqf_bridge::new_bridge_follows;
use cqf_compile::Plan;
use cqf_laws_cycle::drops_are_of_the_cycle;
use cqf_laws_history::tables_are_orderly;
use cqf_laws_network::{book_is_unique, legal_network_exists, legal_network_is_unique};
use cqf_laws_shift::{book_says_the_shift, gates_mean_the_shift};
use cqf_model::{Background, Book, Offer};
use cqf_topology::Domain;
use std::alloc::Global;

/// Runs all cycles, each by its table.
fn go_all(
    alloc: Global,
    domain: &Domain,
    tables: &[Table],
    so_far: &mut RunSoFar,
) -> Result<(), RunFault>
    requires short { length tables.now ≤ most_cycles }
    requires numbered { AreTablesNumbered (length tables.now) tables.now }
    requires part { (run : Run) × (net : Network) × IsRunOver domain.now tables.now run net × IsAt run net 0 so_far.old }
    ensures goes { OnOk result ((run : Run) (net : Network) → IsRunOver domain.now tables.now run net → IsAt run net 0 so_far.old →
        IsAt run net (length tables.now) so_far.new) }
    ensures stops { IfErr result (λ fault. (run : Run) (net : Network) → IsRunOver domain.now tables.now run net → IsAt run net 0 so_far.old →
        StopsRun run fault) }
{
    for index in 0..tables.len() {
        match so_far.go_on(alloc, domain, &tables[index]) {
            Ok(()) => {}
            Err(fault) => return Err(fault),
        }
    }
    Ok(())
}

/// Runs the network of a plan with one table for each cycle.
fn run_numbered(
    alloc: Global,
    plan: &Plan,
    tables: &[Table],
    offers: &[Offer],
    background: &[Background],
) -> Result<Book, RunFault>
    requires short { length tables.now ≤ most_cycles }
    requires numbered { AreTablesNumbered (length tables.now) tables.now }
    requires offers { AreOffers plan.now offers.now }
    requires few_offers { length offers.now ≤ most_offers }
    requires background { AreBackground plan.now background.now }
    requires few_background { length background.now ≤ most_offers }
    ensures book { IfOk result (λ book. IsBookOfRun (run_of plan.now tables.now offers.now background.now) (contents_of book)) }
    ensures stops { IfErr result (StopsRun (run_of plan.now tables.now offers.now background.now)) }
{
    new_bridge_follows();
    legal_network_exists();
    legal_network_is_unique();
    book_is_unique();
    drops_are_of_the_cycle();
    plan.know();
    let mut so_far = RunSoFar::new(alloc, plan, offers, background)?;
    match go_all(alloc, plan.domain(), tables, &mut so_far) {
        Ok(()) => Ok(so_far.into_book()),
        Err(fault) => Err(fault),
    }
}

/// Runs the network of a plan for `cycles` cycles, from cycle 0 on, each by its table. Returns the run's book, the only one that the
/// compiled gate lists allow for these offers and background frames (IEEE 802.1Q, Annex T and 8.6.8; tables, offers and books are this
/// project's own).
///
/// `cycles` is at most 100,000. There are at most 16,777,215 offers, each at a bridge of the domain, and 16,777,215 background frames, each
/// on a link of it. With the tables of one history the book has each covered frame on each link in the cycle that the shift says, and
/// loads, instants and latencies are as promised.
///
/// Returns `WrongTables` if there isn't exactly one table for each cycle, numbered from 0. Returns `Inside` with the first frame that the
/// network loses inside, by cycle, then bridge, then the order in which the bridge takes frames; this never happens with the tables of one
/// history. Returns `Memory` if an allocation fails, which may be before a lost frame is reached.
pub fn run(
    alloc: Global,
    plan: &Plan,
    tables: &[Table],
    offers: &[Offer],
    background: &[Background],
    cycles: u32,
) -> Result<Book, RunFault>
    requires short { cycles ≤ most_cycles }
    requires offers { AreOffers plan.now offers.now }
    requires few_offers { length offers.now ≤ most_offers }
    requires background { AreBackground plan.now background.now }
    requires few_background { length background.now ≤ most_offers }
    ensures numbered { IfOk result (λ book. AreTablesNumbered cycles tables.now) }
    ensures book { IfOk result (λ book. IsBookOfRun (run_of plan.now tables.now offers.now background.now) (contents_of book)) }
    ensures fault { IfErr result (IsRunFault (run_of plan.now tables.now offers.now background.now) cycles tables.now) }
    ensures promise { IfOk result (λ book. KeepsItOfHistory plan.now tables.now offers.now background.now (contents_of book)) }
    ensures memory_alone { IfErr result (WantsMemoryAlone plan.now cycles tables.now) }
{
    book_says_the_shift();
    gates_mean_the_shift();
    tables_are_orderly();
    if !are_numbered(tables, cycles) {
        return Err(RunFault::WrongTables);
    }
    plan.know();
    match run_numbered(alloc, plan, tables, offers, background) {
        Ok(book) => Ok(book),
        Err(fault) => Err(fault),
    }
}
