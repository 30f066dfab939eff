//! Observations of pages and books, which allocate no memory.
use crate::pages::{is_page, page_of};
use cqf_book::{CycleBook, Pages, Share, Totals};
use cqf_refused_values::{Reported, looked_at};
use cqf_units::Cycle;
use std::alloc::Global;
use std::sync::Wait;

/// One frame of 64 octets.
const ONE: Totals = Totals {
    frames: 1,
    octets: 64,
};

/// Whether pages have only that of the second bridge.
fn is_seen(pages: &Pages) -> bool {
    let is_there = match pages.page(1, Cycle(0)) {
        Some(page) => is_page(page, 1),
        None => false,
    };
    is_there
        && pages.page(9, Cycle(0)).is_none()
        && pages.whole_cycles() == 0
        && pages.totals(1) == ONE
}

/// Observes pages.
fn pages_seen(alloc: Global, pages: &Pages) -> Reported {
    looked_at!(alloc, is_seen(pages))
}

pub(crate) fn pages_reported(alloc: Global) -> Option<Reported> {
    let mut pages = Pages::new(alloc, 3, 5).ok()?;
    if pages.post(page_of(alloc, 1).ok()?).is_err() {
        return None;
    }
    Some(pages_seen(alloc, &pages))
}

/// Posts a page by the second share, and then observes the book.
fn book_seen<R: Wait>(
    rt: &R,
    alloc: Global,
    book: &CycleBook,
    shares: &mut [Share],
) -> Option<Reported> {
    let share = shares.get_mut(1)?;
    if book.post(rt, share, page_of(alloc, 1).ok()?).is_err() {
        return None;
    }
    Some(looked_at!(
        alloc,
        book.whole_cycles(rt) == 0 && book.totals(rt, 1) == ONE && share.bridge() == 1
    ))
}

pub(crate) fn book_reported<R: Wait>(rt: &R, alloc: Global) -> Option<Reported> {
    let pages = Pages::new(alloc, 3, 5).ok()?;
    let (book, mut shares) = CycleBook::new(alloc, pages).ok()?;
    book_seen(rt, alloc, &book, shares.as_mut_slice())
}
