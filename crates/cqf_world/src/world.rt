//! The world.
ghost use Rattle.std.specs.Prelude.{◌≡◌, ◌<◌, ◌≤◌, IfOk, OnErr, OnOk, false, length, true};
ghost use Rattle.cqf_admission.specs.Admission.{calls};
ghost use Rattle.cqf_model.specs.History.{seals};
ghost use Rattle.cqf_model.specs.Run.{AreBackground, AreOffers};
ghost use Rattle.cqf_world.specs.Beginning.{new_world};
ghost use Rattle.cqf_world.specs.World.{ArePagesOfTheBook};
ghost use Rattle.cqf_world.specs.Events.{AnswersEvent, Happens, IsEnabled, MayBeGiven, MayPost, MayStep, MayTake};
ghost use Rattle.cqf_model.specs.Limits.{most_calls, most_cycles, most_offers};

use crate::calling::{ask, close_cycle};
use crate::events::{Applied, Event};
use crate::inbox::{bridge_at_end, is_quiet, move_batch};
use crate::making::{new_driven_bridges, new_lines};
use crate::parts::{Line, WorldBridge};
use crate::receiving::post_page;
use crate::sending::send_all;
use cqf_admission::{Admission, Command, MOST_CALLS, Table};
use cqf_book::Pages;
use cqf_bridge::{
    history_loses_nothing, longer_run_is_followed, new_bridge_follows, no_other_fault,
    page_follows, receiving_follows, sending_follows,
};
use cqf_compile::Plan;
use cqf_laws_cycle::longer_run_keeps_its_cycles;
use cqf_laws_history::{closed_tables_stay, state_follows_history, tables_are_orderly};
use cqf_laws_network::{legal_network_exists, shorter_book_is_the_beginning};
use cqf_model::{Background, Offer, Refused};
use cqf_units::Memory;
use std::alloc::{AllocError, Global};
use std::marker::Model;

/// The state of a running network: an admission and the tables of its Seals, the bridges with what they were given, the batches under way
/// on the links between them, and the pages that were posted.
#[derive(Debug, Drop)]
pub struct World<'a> {
    alloc: Global,
    offers: &'a [Offer],
    background: &'a [Background],
    cycles: u32,
    admission: Admission,
    /// The tables of the Seals, by cycle.
    tables: Vec<Table>,
    /// The bridges, by number.
    driven: Vec<WorldBridge>,
    /// The links, by number.
    lines: Vec<Line>,
    pages: Pages,
    /// Whether an allocation failed. It is also set while an event that allocates is carried out, so a failed allocation leaves the world
    /// stopped.
    stopped: bool,
}

impl<'a> Model for World<'a> {
    ghost use Rattle.std.specs.Prelude.{map};
    ghost use Rattle.cqf_world.specs.Parts.{IsWorld, given_of, sent_of_driven, taken_of};
    ghost use Rattle.cqf_world.specs.World.{WorldState};

    ghost Value = { WorldState };

    ghost view = { λ w. record {
      domain = w.admission.domain;
      offers = w.offers.now;
      background = w.background.now;
      cycles = w.cycles;
      entries = w.admission.entries;
      pages = w.pages;
      given = map given_of w.driven.items;
      sent = map sent_of_driven w.driven.items;
      taken = map taken_of w.lines.items;
      stopped = w.stopped;
    } };

    ghost invariant = { λ w. IsWorld (record {
      domain = w.admission.domain;
      offers = w.offers.now;
      background = w.background.now;
      cycles = w.cycles;
      entries = w.admission.entries;
      pages = w.pages;
      given = map given_of w.driven.items;
      sent = map sent_of_driven w.driven.items;
      taken = map taken_of w.lines.items;
      stopped = w.stopped;
    }) w.tables.items w.driven.items w.lines.items };
}

impl<'a> World<'a> {
    /// Returns a world of the plan's domain for `cycles` cycles, at most 100,000, with these offers and background frames. It begins with
    /// the history of an admission for that domain that has no Seal, and with no page. There are at most 16,777,215 offers, each at a
    /// bridge of the domain, and at most 16,777,215 background frames, each on a link of it. Returns `Memory` if an allocation fails; the
    /// admission is then dropped.
    pub fn new(
        alloc: Global,
        plan: &Plan,
        admission: Admission,
        offers: &'a [Offer],
        background: &'a [Background],
        cycles: u32,
    ) -> Result<World<'a>, Memory>
        requires domain { admission.domain ≡ plan.now }
        requires no_seal { seals admission.entries ≡ 0 }
        requires offers { AreOffers plan.now offers.now }
        requires few_offers { length offers.now ≤ most_offers }
        requires background { AreBackground plan.now background.now }
        requires few_background { length background.now ≤ most_offers }
        requires few_cycles { cycles ≤ most_cycles }
        ensures { IfOk result (λ world. world ≡ new_world admission offers.now background.now cycles) }
    {
        new_bridge_follows();
        legal_network_exists();
        admission.know();
        let domain = plan.domain();
        Ok(World {
            alloc,
            offers,
            background,
            cycles,
            admission,
            tables: Vec::new(alloc),
            driven: new_driven_bridges(alloc, plan, offers, background)?,
            lines: new_lines(alloc, domain)?,
            pages: Pages::new(alloc, domain.bridges(), cycles)?,
            stopped: false,
        })
    }
}

impl World<'_> {
    /// Returns the admission, with the history so far. It allocates no memory.
    pub fn admission(&self) -> &Admission
        ensures domain { result.now.domain ≡ self.now.domain }
        ensures entries { result.now.entries ≡ self.now.entries }
    {
        &self.admission
    }

    /// Returns the pages posted so far. Each of them is the same page of the single-threaded book of the history, over the cycles that are
    /// closed. It allocates no memory.
    pub fn pages(&self) -> &Pages
        ensures value { result.now ≡ self.now.pages }
        ensures of_the_book { ArePagesOfTheBook self.now }
    {
        &self.pages
    }

    /// Returns whether a bridge may be given the table of its cycle.
    fn may_give(&self, bridge: u16) -> bool
        requires { self.now.stopped ≡ false }
        ensures yes { result ≡ true → MayBeGiven self.now bridge }
        ensures no { result ≡ false → ¬ MayBeGiven self.now bridge }
    {
        let Some(bridge_driven) = self.driven.get(usize::from(bridge)) else {
            return false;
        };
        let cycle = bridge_driven.posted;
        if bridge_driven.given != cycle || cycle >= self.cycles {
            return false;
        }
        (cycle as usize) < self.tables.len()
    }

    /// Gives the table to the bridge.
    fn give(&mut self, bridge: u16)
        requires goes_on { self.old.stopped ≡ false }
        requires may { MayBeGiven self.old bridge }
        ensures { Happens self.old self.new (Event.Give bridge) }
    {
        let bridge_driven = &mut self.driven[usize::from(bridge)];
        bridge_driven.given = bridge_driven.posted + 1;
    }

    /// Makes an administrator's call.
    fn call(&mut self, seat: u16, command: &Command) -> Result<(), Memory>
        requires goes_on { self.old.stopped ≡ false }
        requires may { calls self.old.entries < most_calls }
        ensures ok { OnOk result (Happens self.old self.new (Event.Call seat command.now)) }
        ensures err { OnErr result (self.new ≡ record self.old { stopped = true }) }
    {
        state_follows_history();
        closed_tables_stay();
        let answer = ask(&mut self.admission, seat, command);
        self.admission.know();
        match answer {
            Err(Refused::HistoryFull) => unreachable!(),
            Err(Refused::Memory) => {
                self.stopped = true;
                Err(AllocError)
            }
            _ => Ok(()),
        }
    }

    /// Closes the next cycle to changes.
    fn seal(&mut self, seat: u16) -> Result<(), Memory>
        requires goes_on { self.old.stopped ≡ false }
        requires may { seals self.old.entries < self.old.cycles }
        ensures ok { OnOk result (Happens self.old self.new (Event.Seal seat)) }
        ensures err { OnErr result (self.new ≡ record self.old { stopped = true }) }
    {
        state_follows_history();
        closed_tables_stay();
        tables_are_orderly();
        shorter_book_is_the_beginning();
        legal_network_exists();
        longer_run_keeps_its_cycles();
        longer_run_is_followed();
        let closed = close_cycle(&mut self.admission, &mut self.tables, seat);
        self.admission.know();
        if closed.is_err() {
            self.stopped = true;
        }
        closed
    }

    /// Returns whether the bridge in which a link ends may take a batch from it.
    fn may_take(&self, link: u16) -> bool
        requires { self.now.stopped ≡ false }
        ensures yes { result ≡ true → MayTake self.now link }
        ensures no { result ≡ false → ¬ MayTake self.now link }
    {
        let Some(bridge) = bridge_at_end(self.admission.domain(), link) else {
            return false;
        };
        let bridge_driven = &self.driven[usize::from(bridge)];
        let line = &self.lines[usize::from(link)];
        if bridge_driven.sent == bridge_driven.posted || line.taken != bridge_driven.posted {
            return false;
        }
        !is_quiet(line)
    }

    /// Takes the oldest batch under way on the link.
    fn take(&mut self, link: u16) -> Result<(), Memory>
        requires goes_on { self.old.stopped ≡ false }
        requires may { MayTake self.old link }
        ensures ok { OnOk result (Happens self.old self.new (Event.Take link)) }
        ensures err { OnErr result (self.new ≡ record self.old { stopped = true }) }
    {
        let Some(bridge) = bridge_at_end(self.admission.domain(), link) else {
            unreachable!()
        };
        self.stopped = true;
        let bridge_driven = &mut self.driven[usize::from(bridge)];
        let line = &mut self.lines[usize::from(link)];
        move_batch(line, bridge_driven)?;
        self.stopped = false;
        Ok(())
    }

    /// Returns whether a bridge may send its cycle.
    fn may_step(&self, bridge: u16) -> bool
        requires { self.now.stopped ≡ false }
        ensures yes { result ≡ true → MayStep self.now bridge }
        ensures no { result ≡ false → ¬ MayStep self.now bridge }
    {
        let Some(bridge_driven) = self.driven.get(usize::from(bridge)) else {
            return false;
        };
        if bridge_driven.given == bridge_driven.posted {
            return false;
        }
        bridge_driven.sent == bridge_driven.posted
    }

    /// Sends the bridge's cycle.
    fn step(&mut self, bridge: u16) -> Result<(), Memory>
        requires goes_on { self.old.stopped ≡ false }
        requires may { MayStep self.old bridge }
        ensures ok { OnOk result (Happens self.old self.new (Event.Step bridge)) }
        ensures err { OnErr result (self.new ≡ record self.old { stopped = true }) }
    {
        new_bridge_follows();
        sending_follows();
        self.stopped = true;
        let bridge_driven = &mut self.driven[usize::from(bridge)];
        send_all(
            self.alloc,
            self.admission.domain(),
            bridge_driven,
            &mut self.lines,
        )?;
        self.stopped = false;
        Ok(())
    }

    /// Returns whether a bridge may receive its cycle and post its page.
    fn may_post(&self, bridge: u16) -> bool
        requires { self.now.stopped ≡ false }
        ensures yes { result ≡ true → MayPost self.now bridge }
        ensures no { result ≡ false → ¬ MayPost self.now bridge }
    {
        let Some(bridge_driven) = self.driven.get(usize::from(bridge)) else {
            return false;
        };
        if bridge_driven.sent == bridge_driven.posted {
            return false;
        }
        bridge_driven.taken.as_slice().len() == bridge_driven.incoming
    }

    /// Receives the bridge's cycle and posts the page.
    fn post(&mut self, bridge: u16) -> Result<(), Memory>
        requires goes_on { self.old.stopped ≡ false }
        requires may { MayPost self.old bridge }
        ensures ok { OnOk result (Happens self.old self.new (Event.Post bridge)) }
        ensures err { OnErr result (self.new ≡ record self.old { stopped = true }) }
    {
        tables_are_orderly();
        history_loses_nothing();
        new_bridge_follows();
        receiving_follows();
        no_other_fault();
        page_follows();
        self.stopped = true;
        let bridge_driven = &mut self.driven[usize::from(bridge)];
        let table = &self.tables[bridge_driven.posted as usize];
        post_page(self.alloc, bridge_driven, table, &mut self.pages)?;
        self.stopped = false;
        Ok(())
    }

    /// Returns whether another call may enter the history.
    fn may_call(&self) -> bool
        ensures yes { result ≡ true → calls self.now.entries < most_calls }
        ensures no { result ≡ false → most_calls ≤ calls self.now.entries }
    {
        let sealed = self.admission.next_cycle().0 as usize;
        self.admission.history().len() < MOST_CALLS + sealed
    }

    /// Returns whether the next cycle may be closed to changes.
    fn may_seal(&self) -> bool
        ensures yes { result ≡ true → seals self.now.entries < self.now.cycles }
        ensures no { result ≡ false → self.now.cycles ≤ seals self.now.entries }
    {
        self.admission.next_cycle().0 < self.cycles
    }

    /// Returns whether an event can happen: none after an allocation failed, and none at a bridge or link that the domain lacks.
    fn is_enabled(&self, event: &Event) -> bool
        ensures yes { result ≡ true → IsEnabled self.now event.now }
        ensures no { result ≡ false → ¬ IsEnabled self.now event.now }
    {
        if self.stopped {
            return false;
        }
        match event {
            Event::Call(_, _) => self.may_call(),
            Event::Seal(_) => self.may_seal(),
            Event::Give(bridge) => self.may_give(*bridge),
            Event::Step(bridge) => self.may_step(*bridge),
            Event::Take(link) => self.may_take(*link),
            Event::Post(bridge) => self.may_post(*bridge),
        }
    }

    /// Carries out an event that can happen.
    fn carry_out(&mut self, event: Event) -> Result<(), Memory>
        requires { IsEnabled self.old event }
        ensures ok { OnOk result (Happens self.old self.new event) }
        ensures err { OnErr result (self.new ≡ record self.old { stopped = true }) }
    {
        match event {
            Event::Call(seat, command) => self.call(seat, &command),
            Event::Seal(seat) => self.seal(seat),
            Event::Give(bridge) => {
                self.give(bridge);
                Ok(())
            }
            Event::Step(bridge) => self.step(bridge),
            Event::Take(link) => self.take(link),
            Event::Post(bridge) => self.post(bridge),
        }
    }

    /// Applies an event if it can happen now. The crate's page has the table of events; `specs/Events.antt` defines them completely.
    ///
    /// Returns [`Applied::NotEnabled`] if the event can't happen now, as for a bridge or link that the domain lacks. Nothing is changed
    /// then, and nothing was allocated. Returns `Memory` if an allocation fails: the history and the pages are then unchanged, and no event
    /// can happen any more.
    ///
    /// The state of each bridge follows from its own tables, offers and batches, no matter in which order the other bridges act. Once it
    /// has its table and its batches, it receives its cycle unless an allocation fails (`halfway` and `receives` of
    /// [`cqf_bridge::bridges_go_on`]).
    pub fn apply(&mut self, event: Event) -> Result<Applied, Memory>
        ensures { AnswersEvent self.old self.new event result }
    {
        if !self.is_enabled(&event) {
            return Ok(Applied::NotEnabled);
        }
        self.carry_out(event)?;
        Ok(Applied::Done)
    }
}
