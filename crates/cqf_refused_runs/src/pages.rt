//! Pages of three bridges and five cycles.
use cqf_book::{Page, PageFault, Pages, Totals};
use cqf_model::{Dropped, Reason, Started};
use cqf_refused_values::{Reported, mark, once, trial, twice};
use cqf_units::{Cycle, Memory, Nanos};
use std::alloc::Global;

/// Returns a start of 64 octets in cycle 0 on a link.
pub(crate) fn start_on(link: u16) -> Started {
    Started {
        cycle: Cycle(0),
        link,
        frame: 1,
        octets: 64,
        start: Nanos(0),
    }
}

/// Returns a drop of cycle 0 at the bridge.
pub(crate) fn drop_at(bridge: u16) -> Dropped {
    Dropped {
        cycle: Cycle(0),
        bridge,
        frame: 2,
        octets: 64,
        reason: Reason::Unknown,
    }
}

/// Returns a page of cycle 0 with a start on link 1, a background start on link 2, and a drop.
pub(crate) fn page_of(alloc: Global, bridge: u16) -> Result<Page, Memory> {
    Ok(Page {
        bridge,
        cycle: Cycle(0),
        starts: vec![in alloc; start_on(1)]?,
        background: vec![in alloc; start_on(2)]?,
        drops: vec![in alloc; drop_at(bridge)]?,
    })
}

/// Whether a page is that of the bridge.
pub(crate) fn is_page(page: &Page, bridge: u16) -> bool {
    page.bridge == bridge
        && page.cycle == Cycle(0)
        && page.starts.as_slice() == [start_on(1)].as_slice()
        && page.background.as_slice() == [start_on(2)].as_slice()
        && page.drops.as_slice() == [drop_at(bridge)].as_slice()
}

/// Whether, for the first bridges' first cycle, only the second bridge's page was posted, or none if `is_there` is
/// false.
fn has_posted(pages: &Pages, is_there: bool) -> bool {
    let second = match pages.page(1, Cycle(0)) {
        Some(page) => is_there && is_page(page, 1),
        None => !is_there,
    };
    let totals = if is_there {
        Totals {
            frames: 1,
            octets: 64,
        }
    } else {
        Totals {
            frames: 0,
            octets: 0,
        }
    };
    second
        && pages.page(0, Cycle(0)).is_none()
        && pages.page(2, Cycle(0)).is_none()
        && pages.whole_cycles() == 0
        && pages.totals(1) == totals
}

/// Whether pages were made, and none is posted.
fn are_new(made: &Result<Pages, Memory>) -> bool {
    match made {
        Ok(pages) => has_posted(pages, false),
        Err(_) => false,
    }
}

pub(crate) fn new_reported(alloc: Global) -> Option<Reported> {
    Some(trial!(
        alloc,
        Pages::new(alloc, 3, 5),
        Err(_),
        true,
        |answer| are_new(&answer)
    ))
}

/// Posts again the page that was returned.
fn posted_again(pages: &mut Pages, page: Page) -> Reported {
    let stands = is_page(&page, 1) && has_posted(pages, false);
    let is_ok = pages.post(page).is_ok();
    twice(stands, is_ok && has_posted(pages, true))
}

/// Tries to post a page.
fn posted(alloc: Global, pages: &mut Pages, page: Page) -> Reported {
    mark(alloc);
    let first = pages.post(page);
    mark(alloc);
    match first {
        Ok(()) => once(has_posted(pages, true)),
        Err((PageFault::Memory, back)) => posted_again(pages, back),
        Err(_) => once(false),
    }
}

pub(crate) fn post_reported(alloc: Global) -> Option<Reported> {
    let mut pages = Pages::new(alloc, 3, 5).ok()?;
    let page = page_of(alloc, 1).ok()?;
    Some(posted(alloc, &mut pages, page))
}
