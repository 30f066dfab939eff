//! Pages that say the same.
ghost use Rattle.std.specs.Prelude.{◌≡◌, ◌↔◌, IfOk, map, true};
ghost use Rattle.cqf_book.specs.Shares.{said};

use cqf_model::{Dropped, Page, Started};
use cqf_units::Memory;
use std::alloc::Global;

/// Returns a page that says the same, or `Memory` if an allocation fails.
pub(crate) fn copied_page(page: &Page) -> Result<Page, Memory>
    ensures { IfOk result (λ copy. said copy ≡ said page.now) }
{
    Ok(Page {
        bridge: page.bridge,
        cycle: page.cycle,
        starts: page.starts.clone()?,
        background: page.background.clone()?,
        drops: page.drops.clone()?,
    })
}

/// Returns pages that say the same one by one, or `Memory` if an allocation fails.
pub(crate) fn copied_pages(alloc: Global, pages: &[Page]) -> Result<Vec<Page>, Memory>
    ensures { IfOk result (λ copies. map said copies.items ≡ map said pages.now) }
{
    let mut copies = Vec::new(alloc);
    for page in pages {
        copies.push(copied_page(page)?)?;
    }
    Ok(copies)
}

/// Returns whether the starts are the same.
fn are_same_starts(starts: &[Started], others: &[Started]) -> bool
    ensures { (result ≡ true) ↔ (starts.now ≡ others.now) }
{
    starts == others
}

/// Returns whether the drops are the same.
fn are_same_drops(drops: &[Dropped], others: &[Dropped]) -> bool
    ensures { (result ≡ true) ↔ (drops.now ≡ others.now) }
{
    drops == others
}

/// Returns whether two pages say the same.
fn is_same(page: &Page, other: &Page) -> bool
    ensures { (result ≡ true) ↔ (said page.now ≡ said other.now) }
{
    if page.bridge != other.bridge || page.cycle.0 != other.cycle.0 {
        return false;
    }
    if !are_same_starts(&page.starts, &other.starts) {
        return false;
    }
    if !are_same_starts(&page.background, &other.background) {
        return false;
    }
    are_same_drops(&page.drops, &other.drops)
}

/// Returns whether pages say the same one by one.
pub(crate) fn are_same(pages: &[Page], others: &[Page]) -> bool
    ensures { (result ≡ true) ↔ (map said pages.now ≡ map said others.now) }
{
    if pages.len() != others.len() {
        return false;
    }
    for index in 0..pages.len() {
        if !is_same(&pages[index], &others[index]) {
            return false;
        }
    }
    true
}
