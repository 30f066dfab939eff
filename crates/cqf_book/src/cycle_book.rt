//! A book that bridges write from threads of their own, each through its share.
ghost use Rattle.std.specs.Prelude.{◌≡◌, ◌≢◌, ◌↔◌, ◌≤◌, ◌+◌, ◌⊎◌, IfErr, IfNone, IfOk, IsErrOf, OnErr, OnOk, Some, vec_len, vec_capacity};
ghost use Rattle.cqf_model.specs.Book.{contents_of};
ghost use Rattle.cqf_book.specs.Faults.{IsBookCloseFault, IsPostFault};
ghost use Rattle.cqf_book.specs.Pages.{ArePosted, AreTotalsOfSome, IsDouble, IsOfStrangeBridge, IsOfStrangeCycle};
ghost use Rattle.cqf_book.specs.Pages.{MayBeNext, MayBeWhole, SkipsCycle, frames_posted, octets_posted};
ghost use Rattle.cqf_book.specs.Shares.{Agree, AreOneEach, IsBookOfShares, new_shares, said, with_own, with_shares};

use crate::closing::{check_shares, closed};
use crate::faults::{BookClose, PageFault};
use crate::pages::Pages;
use crate::same_pages::copied_page;
use crate::totals::Totals;
use cqf_model::{Book, Page};
use cqf_units::Memory;
use std::alloc::Global;
use std::marker::Model;
use std::sync::{Mutex, Wait};

/// A bridge's part of a [`CycleBook`]: its number, and the pages that it has posted there.
#[derive(Debug, Drop)]
pub struct Share {
    bridge: u16,
    pages: Vec<Page>,
}

impl Model for Share {
    ghost use Rattle.cqf_book.specs.Shares.{Own};

    ghost Value = { Own };

    ghost view = { λ share. record { bridge = share.bridge; pages = share.pages.items } };
}

impl Share {
    /// Returns the number of the share's bridge.
    pub fn bridge(&self) -> u16
        ensures { result ≡ self.now.bridge }
    {
        self.bridge
    }

    /// Returns the pages that the bridge has posted through this share, in order.
    pub fn pages(&self) -> &[Page]
        ensures { result.now ≡ self.now.pages }
    {
        self.pages.as_slice()
    }
}

/// Returns the shares of the first bridges, in order of number, which have posted nothing.
fn one_each(alloc: Global, bridges: u16) -> Result<Vec<Share>, Memory>
    ensures { IfOk result (λ shares. shares.items ≡ new_shares bridges) }
{
    let mut shares = Vec::new(alloc);
    for bridge in 0..bridges {
        shares.push(Share {
            bridge,
            pages: Vec::new(alloc),
        })?;
    }
    Ok(shares)
}

/// Returns a page that says the same, and makes room for one more page in the list. Returns `Memory` if an allocation
/// fails; the list then has the same pages.
fn copy_with_room(pages: &mut Vec<Page>, page: &Page) -> Result<Page, Memory>
    ensures same { pages.new.items ≡ pages.old.items }
    ensures room { OnOk result (vec_len pages.new + 1 ≤ vec_capacity pages.new) }
    ensures copy { IfOk result (λ copy. said copy ≡ said page.now) }
{
    let copy = copied_page(page)?;
    pages.reserve(1)?;
    Ok(copy)
}

/// Returns the current totals, or the earlier ones if a current number is below the earlier one.
fn no_fewer(before: Totals, now: Totals) -> Totals
    ensures one { (result ≡ before) ⊎ (result ≡ now) }
    ensures frames { before.frames ≤ result.frames }
    ensures octets { before.octets ≤ result.octets }
{
    if now.frames < before.frames || now.octets < before.octets {
        before
    } else {
        now
    }
}

/// A book that several threads write, each for a bridge of its own: [`Pages`] under a lock. Contracts see it as the
/// pages that it was made from; what was posted since is known once the book is closed.
#[derive(Drop)]
pub struct CycleBook {
    alloc: Global,
    /// The pages that the book was made from.
    opening: Pages,
    /// The same pages, and those posted since.
    posted: Mutex<Pages>,
}

impl Model for CycleBook {
    ghost use Rattle.cqf_book.specs.Pages.{Posted};

    ghost Value = { Posted };

    ghost view = { λ book. book.opening };
}

impl CycleBook {
    /// Returns a book that begins with these pages, and a share for each of their bridges, in order of number, that has
    /// posted nothing. Returns `Memory` if an allocation fails; the pages are then gone.
    pub fn new(alloc: Global, pages: Pages) -> Result<(CycleBook, Vec<Share>), Memory>
        ensures opening { IfOk result (λ made. made.0 ≡ pages) }
        ensures shares { IfOk result (λ made. made.1.items ≡ new_shares pages.bridges) }
    {
        let shares = one_each(alloc, pages.bridges())?;
        let posted = Mutex::new(pages.try_copy(alloc)?);
        let book = CycleBook {
            alloc,
            opening: pages,
            posted,
        };
        Ok((book, shares))
    }

    /// Takes the next page of the share's bridge, and keeps it in the share too. A page of another bridge than the
    /// share's is a [`PageFault::StrangeBridge`]; otherwise the answer is that of [`Pages::post`] while the lock is
    /// held. A page that isn't taken is returned with the reason, and the book and the share are unchanged.
    ///
    /// Contracts know only the pages that the book was made from, not those posted since. `StrangeBridge`, for a page
    /// of the share's bridge, and `StrangeCycle` are returned if and only if that bridge or cycle doesn't exist. A page
    /// that the book was made from is a `DoublePage`, and `CycleSkipped` is returned only if the page's cycle is after
    /// the next one of these pages. May wait for the lock.
    pub fn post<R: Wait>(
        &self,
        rt: &R,
        share: &mut Share,
        page: Page,
    ) -> Result<(), (PageFault, Page)>
        ensures ok { OnOk result (share.new ≡ with_own share.old page) }
        ensures err { OnErr result (share.new ≡ share.old) }
        ensures back { IfErr result (λ refused. refused.1 ≡ page) }
        ensures another { page.bridge ≢ share.old.bridge → IsErrOf result (PageFault.StrangeBridge, page) }
        ensures strange_bridge { IsErrOf result (PageFault.StrangeBridge, page) ↔ ((page.bridge ≢ share.old.bridge) ⊎ IsOfStrangeBridge self.now page) }
        ensures strange_cycle { IsErrOf result (PageFault.StrangeCycle, page) ↔ ((page.bridge ≡ share.old.bridge) × IsOfStrangeCycle self.now page) }
        ensures fault { IfErr result (λ refused. IsPostFault self.now share.old.bridge page refused.0) }
        ensures next { OnOk result ((page.bridge ≡ share.old.bridge) × MayBeNext self.now page) }
    {
        if page.bridge != share.bridge {
            return Err((PageFault::StrangeBridge, page));
        }
        if let Some(fault) = self.never_next(&page) {
            return Err((fault, page));
        }
        let Ok(copy) = copy_with_room(&mut share.pages, &page) else {
            let fault = self.refusal(rt, &page);
            return Err((self.reported(&page, fault), page));
        };
        match self.take(rt, copy) {
            Ok(()) => {
                share.pages.push(page).unwrap();
                Ok(())
            }
            Err(fault) => Err((self.reported(&page, fault), page)),
        }
    }

    /// Returns why the page can't be the next one, judging by the pages that the book was made from, regardless of what
    /// was posted since.
    fn never_next(&self, page: &Page) -> Option<PageFault>
        ensures strange_bridge { (result ≡ Some PageFault.StrangeBridge) ↔ IsOfStrangeBridge self.now page.now }
        ensures strange_cycle { (result ≡ Some PageFault.StrangeCycle) ↔ IsOfStrangeCycle self.now page.now }
        ensures double_page { (result ≡ Some PageFault.DoublePage) ↔ IsDouble self.now page.now }
        ensures cycle_skipped { (result ≡ Some PageFault.CycleSkipped) → ⊥ }
        ensures memory { (result ≡ Some PageFault.Memory) → ⊥ }
        ensures may { IfNone result (MayBeNext self.now page.now) }
    {
        match self.opening.refusal(page) {
            Some(PageFault::CycleSkipped) => None,
            refusal => refusal,
        }
    }

    /// Returns why a page that may be the next one isn't taken, given the reason that the pages under the lock gave. A
    /// reason that the pages from which the book was made rule out becomes `Memory`, for example a skipped cycle if no
    /// cycle before the page's is missing.
    fn reported(&self, page: &Page, fault: PageFault) -> PageFault
        requires may { MayBeNext self.now page.now }
        ensures strange_bridge { result ≡ PageFault.StrangeBridge → ⊥ }
        ensures strange_cycle { result ≡ PageFault.StrangeCycle → ⊥ }
        ensures cycle_skipped { result ≡ PageFault.CycleSkipped → SkipsCycle self.now page.now }
    {
        let skips = self.opening.refusal(page).is_some();
        match fault {
            PageFault::DoublePage => PageFault::DoublePage,
            PageFault::CycleSkipped if skips => PageFault::CycleSkipped,
            _ => PageFault::Memory,
        }
    }

    /// Returns why the page isn't taken, if there is no memory for it.
    fn refusal<R: Wait>(&self, rt: &R, page: &Page) -> PageFault {
        self.posted
            .lock(rt)
            .refusal(page)
            .unwrap_or(PageFault::Memory)
    }

    /// Posts the page to the pages under the lock.
    fn take<R: Wait>(&self, rt: &R, page: Page) -> Result<(), PageFault> {
        match self.posted.lock(rt).post(page) {
            Ok(()) => Ok(()),
            Err((fault, _)) => Err(fault),
        }
    }

    /// Returns the number of first cycles that every bridge has posted, as [`Pages::whole_cycles`] does for the pages
    /// at one time. It is at least that of the pages that the book was made from, and at most the number of cycles. May
    /// wait for the lock, and allocates nothing.
    pub fn whole_cycles<R: Wait>(&self, rt: &R) -> u32
        ensures value { MayBeWhole self.now result }
        ensures facts { ArePosted self.now }
    {
        let before = self.opening.whole_cycles();
        let now = self.posted.lock(rt).whole_cycles();
        now.max(before).min(self.opening.cycles())
    }

    /// Returns the number of streams' frames on the link, and their octets, as [`Pages::totals`] does for the pages at
    /// one time. They are at least those of the pages that the book was made from. May wait for the lock, and allocates
    /// nothing.
    pub fn totals<R: Wait>(&self, rt: &R, link: u16) -> Totals
        ensures some { AreTotalsOfSome link result.frames result.octets }
        ensures frames { frames_posted link self.now.pages ≤ result.frames }
        ensures octets { octets_posted link self.now.pages ≤ result.octets }
    {
        let before = self.opening.totals(link);
        let now = self.posted.lock(rt).totals(link);
        no_fewer(before, now)
    }

    /// Returns the pages of the book: those that it was made from, each bridge's followed by those of its share.
    /// Returns the faults of [`CycleBook::close`] except `Memory`: it allocates nothing. Never waits.
    pub fn close_pages(self, shares: Vec<Share>) -> Result<Pages, BookClose>
        ensures missing { IsErrOf result BookClose.ShareMissing ↔ (AreOneEach self.bridges shares.items → ⊥) }
        ensures memory { IsErrOf result BookClose.Memory → ⊥ }
        ensures ok { IfOk result (λ pages. Agree self shares.items pages self.bridges) }
        ensures once { IfOk result (λ pages. ArePosted (with_shares self shares.items)) }
        ensures fault { IfErr result (λ fault. IsBookCloseFault self shares.items fault) }
    {
        let CycleBook {
            opening,
            posted,
            ..
        } = self;
        let posted = posted.into_inner();
        match check_shares(&opening, &posted, shares.as_slice()) {
            Ok(()) => Ok(posted),
            Err(fault) => Err(fault),
        }
    }

    /// Returns the book of the pages that it was made from, each bridge's followed by those of its share: the starts by
    /// cycle, then link, then instant, and the drops by cycle, then bridge, then frame; entries that agree in these
    /// three are in the order of the pages. Never waits.
    ///
    /// Takes one share of each bridge, in any order. Returns [`BookClose::ShareMissing`] for other shares, otherwise
    /// [`BookClose::SharesDisagree`] with the first bridge whose share doesn't have the pages that the book took of the
    /// bridge, otherwise `Memory` if an allocation fails. After a fault the pages are gone. On success none of the
    /// pages occurs twice and none is missing: each is of the bridge and the cycle at whose index it is.
    pub fn close(self, shares: Vec<Share>) -> Result<Book, BookClose>
        ensures missing { IsErrOf result BookClose.ShareMissing ↔ (AreOneEach self.bridges shares.items → ⊥) }
        ensures ok { IfOk result (λ book. IsBookOfShares self shares.items (contents_of book)) }
        ensures once { IfOk result (λ book. ArePosted (with_shares self shares.items)) }
        ensures fault { IfErr result (λ fault. IsBookCloseFault self shares.items fault) }
    {
        let CycleBook {
            alloc,
            opening,
            posted,
        } = self;
        let posted = posted.into_inner();
        closed(alloc, &opening, &posted, shares.as_slice())
    }
}
