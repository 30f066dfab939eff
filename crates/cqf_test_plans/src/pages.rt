//! Pages that are posted in some order, with values by hand.
use cqf_book::{Page, PageFault, Pages, Totals};
use cqf_model::Started;
use cqf_units::{Cycle, Memory, Nanos};
use std::alloc::Global;

/// Returns a transmission on link 1.
fn started(cycle: u32, octets: u32) -> Started {
    Started {
        cycle: Cycle(cycle),
        link: 1,
        frame: 1,
        octets,
        start: Nanos(0),
    }
}

/// Returns a page with one start of a stream's frame on link 1, of 100 octets, and a background frame of 1,522 octets there.
fn page_of(alloc: Global, bridge: u16, cycle: u32) -> Result<Page, Memory> {
    Ok(Page {
        bridge,
        cycle: Cycle(cycle),
        starts: vec![in alloc; started(cycle, 100)]?,
        background: vec![in alloc; started(cycle, 1522)]?,
        drops: Vec::new(alloc),
    })
}

/// A page by its bridge and cycle, the answer to it, and how many cycles are whole afterwards.
type Post = (u16, u32, Option<PageFault>, u32);

/// A page is taken once and in order of cycle.
const REFUSED: &[Post] = &[
    (1, 0, None, 0),
    (1, 0, Some(PageFault::DoublePage), 0),
    (9, 0, Some(PageFault::StrangeBridge), 0),
    (3, 7, Some(PageFault::StrangeBridge), 0),
    (1, 5, Some(PageFault::StrangeCycle), 0),
    (0, 1, Some(PageFault::CycleSkipped), 0),
    (1, 2, Some(PageFault::CycleSkipped), 0),
];

/// Fifteen pages fill three bridges and five cycles.
const FILLED: &[Post] = &[
    (2, 0, None, 0),
    (2, 1, None, 0),
    (0, 0, None, 0),
    (1, 0, None, 1),
    (1, 1, None, 1),
    (0, 1, None, 2),
    (0, 2, None, 2),
    (0, 3, None, 2),
    (0, 4, None, 2),
    (1, 2, None, 2),
    (2, 2, None, 3),
    (2, 3, None, 3),
    (1, 3, None, 4),
    (1, 4, None, 4),
    (2, 4, None, 5),
];

/// Returns whether a page is that of the bridge and cycle.
fn is_page(page: &Page, bridge: u16, cycle: u32) -> bool {
    page.bridge == bridge
        && page.cycle == Cycle(cycle)
        && page.starts.as_slice() == [started(cycle, 100)].as_slice()
}

/// Returns whether the pages have that of the bridge and cycle.
fn has_page(pages: &Pages, bridge: u16, cycle: u32) -> bool {
    match pages.page(bridge, Cycle(cycle)) {
        Some(page) => is_page(page, bridge, cycle),
        None => false,
    }
}

/// Returns whether the pages give this answer to a page: it is there only after it is taken, and otherwise returned.
fn answers(
    pages: &mut Pages,
    page: Page,
    bridge: u16,
    cycle: u32,
    fault: Option<PageFault>,
) -> bool {
    match pages.post(page) {
        Ok(()) => fault.is_none() && has_page(pages, bridge, cycle),
        Err((cause, back)) => fault == Some(cause) && is_page(&back, bridge, cycle),
    }
}

/// Returns whether the pages give this answer to a post.
fn posts(alloc: Global, pages: &mut Pages, post: &Post) -> bool {
    let (bridge, cycle, fault, whole) = *post;
    if fault.is_none() && pages.page(bridge, Cycle(cycle)).is_some() {
        return false;
    }
    match page_of(alloc, bridge, cycle) {
        Ok(page) => { answers(pages, page, bridge, cycle, fault) && pages.whole_cycles() == whole }
        Err(_) => false,
    }
}

/// No frame.
const NONE: Totals = Totals {
    frames: 0,
    octets: 0,
};

/// Returns whether the pages give these answers to all posts, and then have sent this many frames and octets on link 1, and none on link 0.
fn posts_all(alloc: Global, pages: &mut Pages, all: &[Post], sent: (u128, u128)) -> bool {
    for post in all {
        if !posts(alloc, pages, post) {
            return false;
        }
    }
    let (frames, octets) = sent;
    pages.totals(1) == Totals { frames, octets } && pages.totals(0) == NONE
}

/// Returns whether pages of three bridges and five cycles do so.
fn are_posted(alloc: Global, all: &[Post], sent: (u128, u128)) -> bool {
    match Pages::new(alloc, 3, 5) {
        Ok(mut pages) => posts_all(alloc, &mut pages, all, sent),
        Err(_) => false,
    }
}

#[test]
fn a_page_is_taken_once_and_in_order_of_cycle(rt: HostRuntime) {
    assert!(rt; are_posted(rt.alloc(), REFUSED, (1, 100)));
    assert!(rt; are_posted(rt.alloc(), FILLED, (15, 1500)));
}

/// Faults, and how they print.
const TEXTS: &[(PageFault, &str)] = &[
    (PageFault::StrangeBridge, "StrangeBridge"),
    (PageFault::StrangeCycle, "StrangeCycle"),
    (PageFault::DoublePage, "DoublePage"),
    (PageFault::CycleSkipped, "CycleSkipped"),
    (PageFault::Memory, "Memory"),
];

/// Returns whether the fault prints as this text.
fn prints(alloc: Global, fault: PageFault, wanted: &str) -> bool {
    match format!(in alloc; "{fault}") {
        Ok(text) => text.as_str() == wanted,
        Err(_) => false,
    }
}

#[test]
fn a_fault_prints_as_its_name(rt: HostRuntime) {
    for (fault, name) in TEXTS {
        assert!(rt; prints(rt.alloc(), *fault, name));
    }
}
