//! The book of the posted pages, if the shares agree with them.
ghost use Rattle.std.specs.Prelude.{◌≡◌, ◌<◌, ◌↔◌, ◌++◌, IfErr, IfNone, IfOk, IfSome, IsErrOf, OnOk, count_by, find, map, option_copied, true};
ghost use Rattle.std.specs.List.{flat_map};
ghost use Rattle.cqf_model.specs.Book.{contents_of};
ghost use Rattle.cqf_book.specs.Faults.{IsBookCloseFault, IsFaultOver};
ghost use Rattle.cqf_book.specs.Pages.{ArePosted, pages_of};
ghost use Rattle.cqf_book.specs.Shares.{Agree, AreOneEach, IsBookOfPages, IsBookOfShares, IsLeastToDisagree};
ghost use Rattle.cqf_book.specs.Shares.{is_of, on_pages, pages_by, said, with_shares};

use crate::cycle_book::Share;
use crate::faults::BookClose;
use crate::pages::Pages;
use crate::same_pages::are_same;
use crate::{sort_drops, sort_starts};
use cqf_model::{Book, Page};
use cqf_units::Memory;
use std::alloc::Global;

/// Returns the number of the shares that are the bridge's.
fn count_of(shares: &[Share], bridge: u16) -> usize
    ensures { result ≡ count_by (is_of bridge) shares.now }
{
    shares
        .iter()
        .filter(|share| share.bridge() == bridge)
        .count()
}

/// Returns whether there is one share for each of the first bridges, and no other.
fn are_one_each(shares: &[Share], bridges: u16) -> bool
    ensures { (result ≡ true) ↔ AreOneEach bridges shares.now }
{
    if shares.len() != usize::from(bridges) {
        return false;
    }
    for bridge in 0..bridges {
        if count_of(shares, bridge) != 1 {
            return false;
        }
    }
    true
}

/// Returns the bridge's share, the first one if there are several.
fn share_of(shares: &[Share], bridge: u16) -> Option<&Share>
    ensures { option_copied result ≡ find (is_of bridge) shares.now }
{
    shares.iter().find(|share| share.bridge() == bridge)
}

/// Returns the pages in the bridge's share, or none if there is no such share.
fn share_pages(shares: &[Share], bridge: u16) -> &[Page]
    ensures { result.now ≡ pages_by shares.now bridge }
{
    match share_of(shares, bridge) {
        Some(share) => share.pages(),
        None => &[],
    }
}

/// Returns whether the pages say what the earlier and the later ones say, in this order.
fn continues(pages: &[Page], earlier: &[Page], later: &[Page]) -> bool
    ensures { (result ≡ true) ↔ (map said pages.now ≡ map said (earlier.now ++ later.now)) }
{
    if pages.len() < earlier.len() {
        return false;
    }
    let (before, following) = pages.split_at(earlier.len());
    if !are_same(before, earlier) {
        return false;
    }
    are_same(following, later)
}

/// Returns the first bridge whose pages aren't those from before followed by its share's, if there is one.
fn first_to_disagree(opening: &Pages, posted: &Pages, shares: &[Share]) -> Option<u16>
    ensures none { IfNone result (Agree opening.now shares.now posted.now opening.now.bridges) }
    ensures least { IfSome result (λ bridge. IsLeastToDisagree opening.now shares.now posted.now bridge) }
{
    for bridge in 0..opening.bridges() {
        let pages = posted.of_bridge(bridge);
        if pages.len() > opening.cycles() as usize {
            return Some(bridge);
        }
        if !continues(
            pages,
            opening.of_bridge(bridge),
            share_pages(shares, bridge),
        ) {
            return Some(bridge);
        }
    }
    None
}

/// Appends the contents of the pages to the book.
fn add_pages(book: &mut Book, pages: &[Page]) -> Result<(), Memory>
    ensures starts { OnOk result (book.new.starts.items ≡ book.old.starts.items ++ flat_map (λ page. page.starts.items) pages.now) }
    ensures background { OnOk result (book.new.background.items ≡ book.old.background.items ++ flat_map (λ page. page.background.items) pages.now) }
    ensures drops { OnOk result (book.new.drops.items ≡ book.old.drops.items ++ flat_map (λ page. page.drops.items) pages.now) }
{
    for page in pages {
        book.starts.extend_from_slice(page.starts.as_slice())?;
        book.background
            .extend_from_slice(page.background.as_slice())?;
        book.drops.extend_from_slice(page.drops.as_slice())?;
    }
    Ok(())
}

/// Returns the contents of the pages of the first bridges, bridge by bridge and page by page.
fn gathered(alloc: Global, posted: &Pages, bridges: u16) -> Result<Book, Memory>
    ensures starts { IfOk result (λ book. book.starts.items ≡ on_pages (λ page. page.starts.items) (pages_of posted.now) bridges) }
    ensures background { IfOk result (λ book. book.background.items ≡ on_pages (λ page. page.background.items) (pages_of posted.now) bridges) }
    ensures drops { IfOk result (λ book. book.drops.items ≡ on_pages (λ page. page.drops.items) (pages_of posted.now) bridges) }
{
    let mut book = Book {
        starts: Vec::new(alloc),
        background: Vec::new(alloc),
        drops: Vec::new(alloc),
    };
    for bridge in 0..bridges {
        add_pages(&mut book, posted.of_bridge(bridge))?;
    }
    Ok(book)
}

/// Returns the book of the pages of the first `bridges` bridges: their contents, in the order of a book. Returns
/// `Memory` if an allocation fails.
pub fn book_of(alloc: Global, posted: &Pages, bridges: u16) -> Result<Book, Memory>
    ensures { IfOk result (λ book. IsBookOfPages (pages_of posted.now) bridges (contents_of book)) }
{
    let mut book = gathered(alloc, posted, bridges)?;
    sort_starts(&mut book.starts)?;
    sort_starts(&mut book.background)?;
    sort_drops(&mut book.drops)?;
    Ok(book)
}

/// Returns a fault if the shares aren't one for each bridge, or don't agree with the posted pages. Requests no memory.
pub(crate) fn check_shares(
    opening: &Pages,
    posted: &Pages,
    shares: &[Share],
) -> Result<(), BookClose>
    ensures missing { IsErrOf result BookClose.ShareMissing ↔ (AreOneEach opening.now.bridges shares.now → ⊥) }
    ensures memory { IsErrOf result BookClose.Memory → ⊥ }
    ensures ok { OnOk result (Agree opening.now shares.now posted.now opening.now.bridges) }
    ensures once { OnOk result (ArePosted (with_shares opening.now shares.now)) }
    ensures each { OnOk result (AreOneEach opening.now.bridges shares.now) }
    ensures fault { IfErr result (λ fault. IsFaultOver opening.now shares.now posted.now fault) }
    ensures facts { ArePosted posted.now }
{
    opening.know();
    posted.know();
    if !are_one_each(shares, opening.bridges()) {
        return Err(BookClose::ShareMissing);
    }
    if let Some(bridge) = first_to_disagree(opening, posted, shares) {
        return Err(BookClose::SharesDisagree(bridge));
    }
    Ok(())
}

/// Returns the book of the posted pages, if the shares are one for each bridge and agree with the pages.
pub(crate) fn closed(
    alloc: Global,
    opening: &Pages,
    posted: &Pages,
    shares: &[Share],
) -> Result<Book, BookClose>
    ensures missing { IsErrOf result BookClose.ShareMissing ↔ (AreOneEach opening.now.bridges shares.now → ⊥) }
    ensures ok { IfOk result (λ book. IsBookOfShares opening.now shares.now (contents_of book)) }
    ensures once { IfOk result (λ book. ArePosted (with_shares opening.now shares.now)) }
    ensures fault { IfErr result (λ fault. IsBookCloseFault opening.now shares.now fault) }
{
    check_shares(opening, posted, shares)?;
    let book = book_of(alloc, posted, opening.bridges())?;
    Ok(book)
}
