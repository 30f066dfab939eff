//! The pages of all bridges.
ghost use Rattle.std.specs.Prelude.{◌≡◌, ◌<◌, ◌≤◌, ◌↔◌, [], Some, IfErr, IfNone, IfOk, IsErrOf, OnErr, OnOk, length, map, option_copied, replicate};
ghost use Rattle.cqf_book.specs.Pages.{ArePosted, AreWhole, IsDouble, IsNextPage, IsOfStrangeBridge, IsOfStrangeCycle, SkipsCycle};
ghost use Rattle.cqf_book.specs.Pages.{frames_posted, octets_posted, page_at, pages_of, with_page};
ghost use Rattle.cqf_book.specs.Shares.{said};
ghost use Rattle.cqf_book.specs.Whole.{IsLeastBelow};
ghost use Rattle.cqf_model.specs.Limits.{most_cycles};

use crate::bridge_pages::BridgePages;
use crate::faults::PageFault;
use crate::totals::{LinkTotals, Totals};
use cqf_model::Page;
use cqf_units::{Cycle, Memory};
use std::alloc::Global;
use std::marker::Model;

/// The pages that bridges have posted, each bridge's in order of cycle, and the totals on each link.
#[derive(Debug, Drop)]
pub struct Pages {
    bridges: u16,
    cycles: u32,
    /// The pages, by bridge.
    posted: Vec<BridgePages>,
    totals: LinkTotals,
}

impl Model for Pages {
    ghost use Rattle.cqf_book.specs.Pages.{Posted};
    ghost use Rattle.cqf_book.specs.Totals.{AreKeptTotals};

    ghost Value = { Posted };

    ghost view = { λ p. record { bridges = p.bridges; cycles = p.cycles; pages = p.posted.items } };

    ghost invariant = { λ p. AreKeptTotals (record { bridges = p.bridges; cycles = p.cycles; pages = p.posted.items }) p.totals.frames.items
        p.totals.octets.items };
}

impl Pages {
    /// Returns the pages of a number of bridges and cycles, at most 1,024 bridges and 100,000 cycles. No page has been
    /// posted yet. Returns `Memory` if an allocation fails.
    pub fn new(alloc: Global, bridges: u16, cycles: u32) -> Result<Pages, Memory>
        requires few_bridges { bridges ≤ 1024 }
        requires few_cycles { cycles ≤ most_cycles }
        ensures { IfOk result (λ pages. pages ≡ record { bridges = bridges; cycles = cycles; pages = replicate bridges [] }) }
    {
        Ok(Pages {
            bridges,
            cycles,
            posted: no_pages(alloc, bridges)?,
            totals: LinkTotals::new(alloc)?,
        })
    }

    /// Takes a bridge's next page. Each bridge posts its pages in order of cycle, from cycle 0 on; the bridges may post
    /// in any order among each other. A page that isn't taken is returned with the first reason of [`PageFault`] that
    /// applies, and nothing changes.
    pub fn post(&mut self, page: Page) -> Result<(), (PageFault, Page)>
        ensures strange_bridge { IsErrOf result (PageFault.StrangeBridge, page) ↔ IsOfStrangeBridge self.old page }
        ensures strange_cycle { IsErrOf result (PageFault.StrangeCycle, page) ↔ IsOfStrangeCycle self.old page }
        ensures double_page { IsErrOf result (PageFault.DoublePage, page) ↔ IsDouble self.old page }
        ensures cycle_skipped { IsErrOf result (PageFault.CycleSkipped, page) ↔ SkipsCycle self.old page }
        ensures memory { IsErrOf result (PageFault.Memory, page) → IsNextPage self.old page }
        ensures next { OnOk result (IsNextPage self.old page) }
        ensures ok { OnOk result (self.new ≡ with_page self.old page) }
        ensures err { OnErr result (self.new ≡ self.old) }
        ensures back { IfErr result (λ refused. refused.1 ≡ page) }
    {
        if let Some(fault) = self.refusal(&page) {
            return Err((fault, page));
        }
        let own = &mut self.posted[usize::from(page.bridge)];
        match own.push(page, &mut self.totals) {
            Ok(()) => Ok(()),
            Err(page) => Err((PageFault::Memory, page)),
        }
    }

    /// Returns why the page isn't the next one of its bridge, if it isn't. Allocates nothing.
    pub(crate) fn refusal(&self, page: &Page) -> Option<PageFault>
        ensures strange_bridge { (result ≡ Some PageFault.StrangeBridge) ↔ IsOfStrangeBridge self.now page.now }
        ensures strange_cycle { (result ≡ Some PageFault.StrangeCycle) ↔ IsOfStrangeCycle self.now page.now }
        ensures double_page { (result ≡ Some PageFault.DoublePage) ↔ IsDouble self.now page.now }
        ensures cycle_skipped { (result ≡ Some PageFault.CycleSkipped) ↔ SkipsCycle self.now page.now }
        ensures memory { (result ≡ Some PageFault.Memory) → ⊥ }
        ensures next { IfNone result (IsNextPage self.now page.now) }
    {
        if page.bridge >= self.bridges {
            return Some(PageFault::StrangeBridge);
        }
        if page.cycle.0 >= self.cycles {
            return Some(PageFault::StrangeCycle);
        }
        let own = &self.posted[usize::from(page.bridge)];
        let index = page.cycle.0 as usize;
        if index < own.len() {
            return Some(PageFault::DoublePage);
        }
        if index > own.len() {
            return Some(PageFault::CycleSkipped);
        }
        None
    }

    /// Returns the number of first cycles that every bridge has posted: the least number of pages that a bridge has, or
    /// all cycles if there is no bridge. Allocates nothing.
    pub fn whole_cycles(&self) -> u32
        ensures value { AreWhole self.now result }
        ensures facts { ArePosted self.now }
    {
        least_count(self.posted.as_slice(), self.cycles)
    }

    /// Returns the number of streams' frames that the pages have on the link, and their octets. The sums are stored;
    /// this allocates nothing.
    pub fn totals(&self, link: u16) -> Totals
        ensures frames { result.frames ≡ frames_posted link self.now.pages }
        ensures octets { result.octets ≡ octets_posted link self.now.pages }
        ensures facts { ArePosted self.now }
    {
        self.totals.at(link)
    }

    /// Returns the bridge's page of the cycle, if it has been posted. Allocates nothing.
    pub fn page(&self, bridge: u16, cycle: Cycle) -> Option<&Page>
        ensures { option_copied result ≡ page_at self.now bridge cycle.0 }
    {
        self.posted.get(usize::from(bridge))?.get(cycle.0 as usize)
    }

    /// Returns the number of bridges.
    pub(crate) fn bridges(&self) -> u16
        ensures { result ≡ self.now.bridges }
    {
        self.bridges
    }

    /// Does nothing. It lets a proof use the invariant: the pages of each bridge are in order, from cycle 0.
    pub(crate) fn know(&self)
        ensures facts { ArePosted self.now }
    {
        // a use of a field makes the invariant known
        let _ = &self.posted;
    }

    /// Returns the number of cycles.
    pub(crate) fn cycles(&self) -> u32
        ensures value { result ≡ self.now.cycles }
        ensures facts { ArePosted self.now }
    {
        self.cycles
    }

    /// Returns the bridge's pages, in order of cycle; none for a bridge that doesn't exist.
    pub(crate) fn of_bridge(&self, bridge: u16) -> &[Page]
        ensures { result.now ≡ pages_of self.now bridge }
    {
        match self.posted.get(usize::from(bridge)) {
            Some(pages) => pages.as_slice(),
            None => &[],
        }
    }

    /// Returns the same numbers of bridges and cycles with pages that say the same, or `Memory` if an allocation fails.
    pub(crate) fn try_copy(&self, alloc: Global) -> Result<Pages, Memory>
        ensures bridges { IfOk result (λ copy. copy.bridges ≡ self.now.bridges) }
        ensures cycles { IfOk result (λ copy. copy.cycles ≡ self.now.cycles) }
        ensures pages { IfOk result (λ copy. map (map said) copy.pages ≡ map (map said) self.now.pages) }
    {
        Ok(Pages {
            bridges: self.bridges,
            cycles: self.cycles,
            posted: copied_rows(alloc, self.posted.as_slice())?,
            totals: self.totals.try_copy()?,
        })
    }
}

/// Returns a copy of each bridge's pages, or `Memory` if an allocation fails.
fn copied_rows(alloc: Global, posted: &[BridgePages]) -> Result<Vec<BridgePages>, Memory>
    ensures { IfOk result (λ rows. map (map said) rows.items ≡ map (map said) posted.now) }
{
    let mut rows = Vec::new(alloc);
    for pages in posted {
        rows.push(pages.try_copy(alloc)?)?;
    }
    Ok(rows)
}

/// Returns an empty list of pages for each of the given number of bridges.
fn no_pages(alloc: Global, bridges: u16) -> Result<Vec<BridgePages>, Memory>
    ensures { IfOk result (λ posted. posted.items ≡ replicate bridges []) }
{
    let mut posted = Vec::new(alloc);
    for _bridge in 0..bridges {
        posted.push(BridgePages::new(alloc))?;
    }
    Ok(posted)
}

/// Returns the least number of pages that a bridge has, but at most the number of cycles.
fn least_count(posted: &[BridgePages], cycles: u32) -> u32
    ensures { IsLeastBelow posted.now cycles (length posted.now) result }
{
    let mut least = cycles as usize;
    for pages in posted {
        least = least.min(pages.len());
    }
    least as u32
}
