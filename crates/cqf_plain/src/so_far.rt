//! A run, cycle by cycle.
ghost use Rattle.std.specs.Prelude.{◌≡◌, ◌+◌, ◌^◌, ◌<◌, IfErr, IfOk, OnOk, length, true};
ghost use Rattle.cqf_model.specs.Book.{contents_of};
ghost use Rattle.cqf_model.specs.Network.{Network};
ghost use Rattle.cqf_model.specs.Run.{Run};
ghost use Rattle.cqf_plain.specs.SoFar.{IsAt, IsHalfway, IsNewRun, IsQuietCycle, StopsRun, RunMayGoOn};
ghost use Rattle.cqf_model.specs.Limits.{most_cycles};

use crate::RunFault;
use crate::driven::{RunBridge, new_bridges};
use crate::due::{next_starts, none_before};
use crate::handing::pass_on;
use crate::quiet::{nothing_comes, pass_all};
use crate::receiving::receive_all;
use crate::sending::send_all;
use cqf_admission::Table;
use cqf_bridge::{receiving_follows, sending_follows, verdicts_are_the_runs};
use cqf_compile::Plan;
use cqf_laws_cycle::{frames_are_taken_in_order, run_is_its_cycles};
use cqf_laws_network::legal_part_is_legal;
use cqf_model::{Background, Book, Offer};
use cqf_topology::Domain;
use cqf_units::{Cycle, Memory, Nanos};
use std::alloc::Global;
use std::collections::BTreeMap;
use std::marker::Model;

/// The state of a run: its bridges, the next starts of their ports, and its book so far.
#[derive(Debug, Drop)]
pub(crate) struct RunSoFar {
    /// The bridges by number.
    bridges: Vec<RunBridge>,
    /// By instant, then link: the number of the bridge whose port starts a frame on the link then, if nothing more arrives at it.
    due: BTreeMap<(Nanos, u16), u16>,
    book: Book,
}

impl Model for RunSoFar {
    ghost use Rattle.cqf_model.specs.Book.{contents_of};
    ghost use Rattle.cqf_plain.specs.SoFar.{SoFarState};

    ghost Value = { SoFarState };

    ghost view = { λ c. record { bridges = c.bridges.items; due = c.due.entries; book = contents_of c.book } };
}

impl RunSoFar {
    /// Returns a run of a plan's network, before its first cycle.
    pub(crate) fn new(
        alloc: Global,
        plan: &Plan,
        offers: &[Offer],
        background: &[Background],
    ) -> Result<RunSoFar, Memory>
        requires few_offers { length offers.now < 2 ^ 32 }
        requires few_background { length background.now < 2 ^ 32 }
        ensures { IfOk result (IsNewRun plan.now offers.now background.now) }
    {
        let bridges = new_bridges(alloc, plan, offers, background)?;
        let due = next_starts(alloc, bridges.as_slice())?;
        Ok(RunSoFar {
            bridges,
            due,
            book: Book {
                starts: Vec::new(alloc),
                background: Vec::new(alloc),
                drops: Vec::new(alloc),
            },
        })
    }

    /// Sends the cycle of a table at all bridges, and hands what they sent along the links.
    fn send(&mut self, alloc: Global, domain: &Domain, table: &Table) -> Result<(), Memory>
        requires early { table.now.cycle < most_cycles }
        requires part { (run : Run) × (net : Network) × RunMayGoOn domain.now table.now self.old run net }
        ensures { OnOk result ((run : Run) (net : Network) → RunMayGoOn domain.now table.now self.old run net →
            IsHalfway run net table.now.cycle self.old self.new) }
    {
        let sent = send_all(alloc, &mut self.bridges, table.cycle())?;
        pass_on(alloc, domain, sent, &mut self.bridges, &mut self.book)?;
        Ok(())
    }

    /// Returns whether nothing happens in a cycle: the least of the ports' next starts isn't before its end, and there are no offers and no
    /// background frames in it.
    fn is_quiet(&self, domain: &Domain, cycle: Cycle) -> bool
        requires { cycle.0 < most_cycles }
        ensures { result ≡ true → IsQuietCycle domain.now cycle.0 self.now }
    {
        let end = Nanos((u64::from(cycle.0) + 1) * domain.cycle_time().0);
        if !none_before(&self.due, end) {
            return false;
        }
        nothing_comes(self.bridges.as_slice(), cycle)
    }

    /// Passes over the cycle of a table, in which nothing happens.
    fn pass(&mut self, domain: &Domain, table: &Table) -> Result<(), Memory>
        requires early { table.now.cycle < most_cycles }
        requires part { (run : Run) × (net : Network) × RunMayGoOn domain.now table.now self.old run net }
        requires quiet { IsQuietCycle domain.now table.now.cycle self.old }
        ensures { OnOk result ((run : Run) (net : Network) → RunMayGoOn domain.now table.now self.old run net →
            IsAt run net (table.now.cycle + 1) self.new) }
    {
        sending_follows();
        receiving_follows();
        verdicts_are_the_runs();
        frames_are_taken_in_order();
        legal_part_is_legal();
        run_is_its_cycles();
        domain.know();
        pass_all(&mut self.bridges, table.cycle())?;
        Ok(())
    }

    /// Runs the cycle of a table: the bridges send it, its batches go along the links, and the bridges receive it.
    fn work(&mut self, alloc: Global, domain: &Domain, table: &Table) -> Result<(), RunFault>
        requires early { table.now.cycle < most_cycles }
        requires part { (run : Run) × (net : Network) × RunMayGoOn domain.now table.now self.old run net }
        ensures goes { OnOk result ((run : Run) (net : Network) → RunMayGoOn domain.now table.now self.old run net →
            IsAt run net (table.now.cycle + 1) self.new) }
        ensures stops { IfErr result (λ fault. (run : Run) (net : Network) → RunMayGoOn domain.now table.now self.old run net → StopsRun run fault) }
    {
        run_is_its_cycles();
        self.send(alloc, domain, table)?;
        match receive_all(alloc, &mut self.bridges, table, &mut self.book.drops) {
            Ok(()) => {}
            Err(fault) => return Err(fault),
        }
        let due = next_starts(alloc, self.bridges.as_slice())?;
        self.due = due;
        Ok(())
    }

    /// Runs the cycle of a table, or passes over it if nothing happens in it.
    pub(crate) fn go_on(
        &mut self,
        alloc: Global,
        domain: &Domain,
        table: &Table,
    ) -> Result<(), RunFault>
        requires early { table.now.cycle < most_cycles }
        requires part { (run : Run) × (net : Network) × RunMayGoOn domain.now table.now self.old run net }
        ensures goes { OnOk result ((run : Run) (net : Network) → RunMayGoOn domain.now table.now self.old run net →
            IsAt run net (table.now.cycle + 1) self.new) }
        ensures stops { IfErr result (λ fault. (run : Run) (net : Network) → RunMayGoOn domain.now table.now self.old run net → StopsRun run fault) }
    {
        if self.is_quiet(domain, table.cycle()) {
            self.pass(domain, table)?;
            return Ok(());
        }
        match self.work(alloc, domain, table) {
            Ok(()) => Ok(()),
            Err(fault) => Err(fault),
        }
    }

    /// Returns the book of the cycles that were run.
    pub(crate) fn into_book(self) -> Book
        ensures { contents_of result ≡ self.book }
    {
        self.book
    }
}
