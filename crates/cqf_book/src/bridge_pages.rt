//! The pages of one bridge.
ghost use Rattle.std.specs.Prelude.{◌≡◌, ◌++◌, [], ◌∷◌, IfErr, IfOk, OnErr, OnOk, length, map, option_copied, slice_get};
ghost use Rattle.cqf_book.specs.Shares.{said};
ghost use Rattle.cqf_book.specs.Totals.{AreAdded, AreFewTotals, HaveTotalsRoom};

use crate::same_pages::copied_pages;
use crate::totals::LinkTotals;
use cqf_model::Page;
use cqf_units::Memory;
use std::alloc::Global;
use std::marker::Model;

/// The pages that one bridge has posted, in order of cycle.
#[derive(Debug, Drop)]
pub(crate) struct BridgePages {
    pages: Vec<Page>,
}

impl Model for BridgePages {
    ghost use Rattle.std.specs.Prelude.{List};
    ghost use Rattle.cqf_model.specs.declared.frames.Page.{Page};

    ghost Value = { List Page };

    ghost view = { λ posted. posted.pages.items };
}

impl BridgePages {
    /// Returns an empty list of pages. Allocates nothing yet.
    pub(crate) fn new(alloc: Global) -> BridgePages
        ensures { result ≡ [] }
    {
        BridgePages {
            pages: Vec::new(alloc),
        }
    }

    /// Returns the number of pages.
    pub(crate) fn len(&self) -> usize
        ensures { result ≡ length self.now }
    {
        self.pages.len()
    }

    /// Returns the page at an index, if there is one.
    pub(crate) fn get(&self, index: usize) -> Option<&Page>
        ensures { option_copied result ≡ slice_get self.now index }
    {
        self.pages.get(index)
    }

    /// Returns the pages, in order of cycle.
    pub(crate) fn as_slice(&self) -> &[Page]
        ensures { result.now ≡ self.now }
    {
        self.pages.as_slice()
    }

    /// Returns pages that say the same, or `Memory` if an allocation fails.
    pub(crate) fn try_copy(&self, alloc: Global) -> Result<BridgePages, Memory>
        ensures { IfOk result (λ copy. map said copy ≡ map said self.now) }
    {
        Ok(BridgePages {
            pages: copied_pages(alloc, self.pages.as_slice())?,
        })
    }

    /// Appends the page, and adds its starts to the totals. If an allocation fails, the pages and the totals are
    /// unchanged, and the page is returned.
    pub(crate) fn push(&mut self, page: Page, totals: &mut LinkTotals) -> Result<(), Page>
        requires { HaveTotalsRoom totals.old.frames.items totals.old.octets.items }
        ensures ok { OnOk result (self.new ≡ self.old ++ page ∷ []) }
        ensures added { OnOk result (AreAdded page.starts.items totals.old.frames.items totals.old.octets.items
            totals.new.frames.items totals.new.octets.items) }
        ensures few { OnOk result (AreFewTotals page.starts.items) }
        ensures err { OnErr result (self.new ≡ self.old) }
        ensures same { OnErr result (totals.new ≡ totals.old) }
        ensures back { IfErr result (λ refused. refused ≡ page) }
    {
        if self.pages.reserve(1).is_err() {
            return Err(page);
        }
        totals.add(page.starts.as_slice());
        self.pages.push(page).unwrap();
        Ok(())
    }
}
