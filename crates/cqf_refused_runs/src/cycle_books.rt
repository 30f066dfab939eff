//! Cycle books of three bridges and five cycles, and their shares.
use crate::pages::{drop_at, is_page, page_of, start_on};
use cqf_book::{BookClose, CycleBook, Page, PageFault, Pages, Share, Totals};
use cqf_model::Book;
use cqf_refused_values::{Reported, mark, once, twice};
use cqf_units::Memory;
use std::alloc::Global;
use std::sync::Wait;

/// A cycle book with its shares.
type BookAndShares = (CycleBook, Vec<Share>);

/// Whether a book has this number of starts on link 1, each of 64 octets, and no complete cycle.
fn has_frames<R: Wait>(rt: &R, book: &CycleBook, number: u128) -> bool {
    let totals = Totals {
        frames: number,
        octets: number.saturating_mul(64),
    };
    book.whole_cycles(rt) == 0 && book.totals(rt, 1) == totals
}

/// Whether a book has nothing in it.
fn is_empty(book: &Book) -> bool {
    book.starts.is_empty() && book.background.is_empty() && book.drops.is_empty()
}

/// Whether a new cycle book with three shares was made that closes to an empty book.
fn is_new<R: Wait>(rt: &R, made: Result<BookAndShares, Memory>) -> bool {
    match made {
        Ok((book, shares)) => {
            let is_open = has_frames(rt, &book, 0) && shares.len() == 3;
            let is_closed = match book.close(shares) {
                Ok(closed) => is_empty(&closed),
                Err(_) => false,
            };
            is_open && is_closed
        }
        Err(_) => false,
    }
}

/// Returns two collections of pages without a page.
fn two_pages(alloc: Global) -> Result<(Pages, Pages), Memory> {
    let first = Pages::new(alloc, 3, 5)?;
    Ok((first, Pages::new(alloc, 3, 5)?))
}

pub(crate) fn new_reported<R: Wait>(rt: &R, alloc: Global) -> Option<Reported> {
    let (pages, twin) = two_pages(alloc).ok()?;
    mark(alloc);
    let first = CycleBook::new(alloc, pages);
    mark(alloc);
    if first.is_ok() {
        drop(twin);
        return Some(once(is_new(rt, first)));
    }
    drop(first);
    Some(twice(true, is_new(rt, CycleBook::new(alloc, twin))))
}

/// Makes a new cycle book with its shares.
fn made(alloc: Global) -> Result<BookAndShares, Memory> {
    CycleBook::new(alloc, Pages::new(alloc, 3, 5)?)
}

/// Whether a share has posted the page, or none.
fn has_posted(share: &Share, is_there: bool) -> bool {
    match share.pages() {
        [] => !is_there,
        [page] => is_there && is_page(page, 1),
        _ => false,
    }
}

/// Posts again the page that was returned.
fn posted_again<R: Wait>(rt: &R, book: &CycleBook, share: &mut Share, page: Page) -> Reported {
    let stands = is_page(&page, 1) && has_frames(rt, book, 0) && has_posted(share, false);
    let is_ok = book.post(rt, share, page).is_ok();
    twice(
        stands,
        is_ok && has_frames(rt, book, 1) && has_posted(share, true),
    )
}

/// Tries to post a page by its bridge's share.
fn posted<R: Wait>(
    rt: &R,
    alloc: Global,
    book: &CycleBook,
    share: &mut Share,
    page: Page,
) -> Reported {
    mark(alloc);
    let first = book.post(rt, share, page);
    mark(alloc);
    match first {
        Ok(()) => once(has_frames(rt, book, 1) && has_posted(share, true)),
        Err((PageFault::Memory, back)) => posted_again(rt, book, share, back),
        Err(_) => once(false),
    }
}

/// Tries the same by the second of the shares.
fn posted_by_second<R: Wait>(
    rt: &R,
    alloc: Global,
    book: &CycleBook,
    shares: &mut [Share],
) -> Option<Reported> {
    let page = page_of(alloc, 1).ok()?;
    Some(posted(rt, alloc, book, shares.get_mut(1)?, page))
}

pub(crate) fn post_reported<R: Wait>(rt: &R, alloc: Global) -> Option<Reported> {
    let (book, mut shares) = made(alloc).ok()?;
    posted_by_second(rt, alloc, &book, shares.as_mut_slice())
}

/// Whether a page was returned as one that was already posted.
fn is_double(answer: &Result<(), (PageFault, Page)>) -> bool {
    match answer {
        Err((PageFault::DoublePage, page)) => is_page(page, 1),
        _ => false,
    }
}

/// Tries to post a page that the book has.
fn posted_twice<R: Wait>(
    rt: &R,
    alloc: Global,
    book: &CycleBook,
    share: &mut Share,
    pages: (Page, Page),
) -> Option<Reported> {
    let (page, another) = pages;
    if book.post(rt, share, page).is_err() {
        drop(another);
        return None;
    }
    mark(alloc);
    let first = book.post(rt, share, another);
    mark(alloc);
    Some(once(is_double(&first) && has_frames(rt, book, 1) && has_posted(share, true)))
}

/// Returns the page of the second bridge, twice.
fn two_of_second(alloc: Global) -> Result<(Page, Page), Memory> {
    let page = page_of(alloc, 1)?;
    Ok((page, page_of(alloc, 1)?))
}

/// Tries the same by the second of the shares.
fn posted_twice_by_second<R: Wait>(
    rt: &R,
    alloc: Global,
    book: &CycleBook,
    shares: &mut [Share],
) -> Option<Reported> {
    let pages = two_of_second(alloc).ok()?;
    posted_twice(rt, alloc, book, shares.get_mut(1)?, pages)
}

pub(crate) fn twice_reported<R: Wait>(rt: &R, alloc: Global) -> Option<Reported> {
    let (book, mut shares) = made(alloc).ok()?;
    posted_twice_by_second(rt, alloc, &book, shares.as_mut_slice())
}

/// Whether the share of a bridge accepts its page.
fn takes<R: Wait>(rt: &R, alloc: Global, book: &CycleBook, share: &mut Share, bridge: u16) -> bool {
    match page_of(alloc, bridge) {
        Ok(page) => book.post(rt, share, page).is_ok(),
        Err(_) => false,
    }
}

/// Whether the shares of the last two bridges accept their pages.
fn two_take<R: Wait>(rt: &R, alloc: Global, book: &CycleBook, shares: &mut [Share]) -> bool {
    match shares {
        [_, one, two] => takes(rt, alloc, book, two, 2) && takes(rt, alloc, book, one, 1),
        _ => false,
    }
}

/// Returns a cycle book with the pages of cycle 0 of two bridges.
fn filled<R: Wait>(rt: &R, alloc: Global) -> Option<BookAndShares> {
    let Ok((book, mut shares)) = made(alloc) else {
        return None;
    };
    if two_take(rt, alloc, &book, shares.as_mut_slice()) {
        Some((book, shares))
    } else {
        None
    }
}

/// Whether a book was closed with the contents of these two pages.
fn is_closed(closed: &Result<Book, BookClose>) -> bool {
    match closed {
        Ok(book) => {
            book.starts.as_slice() == [start_on(1), start_on(1)].as_slice()
                && book.background.as_slice() == [start_on(2), start_on(2)].as_slice()
                && book.drops.as_slice() == [drop_at(1), drop_at(2)].as_slice()
        }
        Err(_) => false,
    }
}

/// Tries to close a book; if that fails, closes its twin.
fn closed(alloc: Global, made: BookAndShares, twin: BookAndShares) -> Reported {
    let (book, shares) = made;
    let (other, others) = twin;
    mark(alloc);
    let first = book.close(shares);
    mark(alloc);
    match first {
        Err(BookClose::Memory) => twice(true, is_closed(&other.close(others))),
        ended => {
            drop(other);
            drop(others);
            once(is_closed(&ended))
        }
    }
}

pub(crate) fn close_reported<R: Wait>(rt: &R, alloc: Global) -> Option<Reported> {
    let made = filled(rt, alloc)?;
    let twin = filled(rt, alloc)?;
    Some(closed(alloc, made, twin))
}
