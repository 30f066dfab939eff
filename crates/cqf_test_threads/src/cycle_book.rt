//! Cycle books, their shares, and the books to which they close, with values computed by hand.
use cqf_book::{BookClose, CycleBook, Page, PageFault, Pages, Share, Totals, book_of};
use cqf_model::{Book, Dropped, Reason, Started};
use cqf_units::{Cycle, Memory, Nanos};
use std::alloc::Global;
use std::mem::swap;
use std::sync::Wait;
use std::thread::{Threads, join};

/// Returns a transmission of this many octets, at the cycle's first instant.
fn started(cycle: u32, link: u16, octets: u32) -> Started {
    Started {
        cycle: Cycle(cycle),
        link,
        frame: 1,
        octets,
        start: Nanos(u64::from(cycle) * 125_000),
    }
}

/// Returns an offer that was dropped.
fn dropped(cycle: u32, bridge: u16, frame: u32) -> Dropped {
    Dropped {
        cycle: Cycle(cycle),
        bridge,
        frame,
        octets: 64,
        reason: Reason::Unknown,
    }
}

/// Returns a page with one start of a stream's frame on the link, one of a background frame on the next link, and a drop.
fn page_with(alloc: Global, bridge: u16, cycle: u32, link: u16) -> Result<Page, Memory> {
    Ok(Page {
        bridge,
        cycle: Cycle(cycle),
        starts: vec![in alloc; started(cycle, link, 64)]?,
        background: vec![in alloc; started(cycle, link.wrapping_add(1), 1522)]?,
        drops: vec![in alloc; dropped(cycle, bridge, 7)]?,
    })
}

/// A page that is posted by the share at an index: its bridge and cycle, and the answer.
type Post = (usize, u16, u32, Option<PageFault>);

/// Returns whether a page comes back with this fault.
fn comes_back(
    refused: (PageFault, Page),
    expected: Option<PageFault>,
    bridge: u16,
    cycle: u32,
) -> bool {
    let (fault, page) = refused;
    expected == Some(fault) && page.bridge == bridge && page.cycle == Cycle(cycle)
}

/// Returns whether the book gives the expected answer to a page with one start on link 1; the page comes back if it isn't taken.
fn answers_of<R: Wait>(
    rt: &R,
    alloc: Global,
    book: &CycleBook,
    share: &mut Share,
    post: &Post,
) -> bool {
    let (_, bridge, cycle, expected) = *post;
    match page_with(alloc, bridge, cycle, 1) {
        Ok(page) => match book.post(rt, share, page) {
            Ok(()) => expected.is_none(),
            Err(refused) => comes_back(refused, expected, bridge, cycle),
        },
        Err(_) => false,
    }
}

/// Returns whether it does so for a post by the share at its index.
fn answers<R: Wait>(
    rt: &R,
    alloc: Global,
    book: &CycleBook,
    shares: &mut [Share],
    post: &Post,
) -> bool {
    match shares.get_mut(post.0) {
        Some(share) => answers_of(rt, alloc, book, share, post),
        None => false,
    }
}

/// Returns whether the book gives the expected answers to pages, one after the other.
fn answers_all<R: Wait>(
    rt: &R,
    alloc: Global,
    book: &CycleBook,
    shares: &mut [Share],
    posts: &[Post],
) -> bool {
    for post in posts {
        if !answers(rt, alloc, book, shares, post) {
            return false;
        }
    }
    true
}

/// Returns whether the starts are on these links in these cycles, each of this many octets.
fn are_starts(starts: &[Started], octets: u32, indices: &[(u32, u16)]) -> bool {
    if starts.len() != indices.len() {
        return false;
    }
    for index in 0..starts.len() {
        let (cycle, link) = indices[index];
        if starts[index] != started(cycle, link, octets) {
            return false;
        }
    }
    true
}

/// Returns whether the drops are those of these cycles and bridges.
fn are_drops(drops: &[Dropped], indices: &[(u32, u16)]) -> bool {
    if drops.len() != indices.len() {
        return false;
    }
    for index in 0..drops.len() {
        let (cycle, bridge) = indices[index];
        if drops[index] != dropped(cycle, bridge, 7) {
            return false;
        }
    }
    true
}

/// The content of a book: cycle and link of each start of a stream's frame and of each of a background frame, and cycle and bridge of each
/// drop.
type Lines = (
    &'static [(u32, u16)],
    &'static [(u32, u16)],
    &'static [(u32, u16)],
);

/// How a book is closed.
#[derive(Clone, Copy)]
enum By {
    /// At once.
    Close,
    /// To its pages, and then to the book of these.
    Pages,
}

/// Returns the book to which a cycle book of three bridges closes.
fn closed(alloc: Global, book: CycleBook, shares: Vec<Share>, by: By) -> Result<Book, BookClose> {
    match by {
        By::Close => book.close(shares),
        By::Pages => match book.close_pages(shares) {
            Ok(pages) => book_of(alloc, &pages, 3).map_err(|_| BookClose::Memory),
            Err(fault) => Err(fault),
        },
    }
}

/// Returns whether the book closes to a book with these lines.
fn closes_to(alloc: Global, book: CycleBook, shares: Vec<Share>, lines: &Lines, by: By) -> bool {
    let (starts, background, drops) = *lines;
    match closed(alloc, book, shares, by) {
        Ok(book) => {
            are_starts(&book.starts, 64, starts)
                && are_starts(&book.background, 1522, background)
                && are_drops(&book.drops, drops)
        }
        Err(_) => false,
    }
}

/// Returns whether the book doesn't close, for this reason.
fn is_refused(
    alloc: Global,
    book: CycleBook,
    shares: Vec<Share>,
    expected: BookClose,
    by: By,
) -> bool {
    match closed(alloc, book, shares, by) {
        Ok(_) => false,
        Err(fault) => fault == expected,
    }
}

/// Returns a book of three bridges and five cycles without a page, and its shares.
fn three_by_five(alloc: Global) -> Result<(CycleBook, Vec<Share>), Memory> {
    let pages = Pages::new(alloc, 3, 5)?;
    CycleBook::new(alloc, pages)
}

/// How a book gets shares that aren't its own.
#[derive(Clone, Copy)]
enum Wrong {
    /// The share of bridge 2 is missing.
    Missing,
    /// A second share of bridge 1 replaces that of bridge 2.
    Twice,
    /// The shares of these bridges are those of another book that took no page.
    Unused(&'static [usize]),
    /// The share of bridge 0 is of another book, whose page of cycle 0 has its start on link 2.
    OnAnotherLink,
}

/// Replaces the share at one index by the share at an index of the others.
fn put_other(shares: &mut [Share], index: usize, others: &mut [Share], other: usize) {
    if let (Some(share), Some(another)) = (shares.get_mut(index), others.get_mut(other)) {
        swap(share, another);
    }
}

/// Returns whether the book takes a page of the first share's bridge and cycle 0 with its start on link 2.
fn is_posted_on_link_2<R: Wait>(
    rt: &R,
    alloc: Global,
    book: &CycleBook,
    shares: &mut [Share],
) -> bool {
    match (shares.first_mut(), page_with(alloc, 0, 0, 2)) {
        (Some(share), Ok(page)) => book.post(rt, share, page).is_ok(),
        _ => false,
    }
}

/// Makes the shares wrong with those of another book.
fn make_wrong<R: Wait>(
    rt: &R,
    alloc: Global,
    shares: &mut Vec<Share>,
    other: &CycleBook,
    others: &mut [Share],
    wrong: Wrong,
) {
    match wrong {
        Wrong::Missing => shares.truncate(2),
        Wrong::Twice => put_other(shares.as_mut_slice(), 2, others, 1),
        Wrong::Unused(indices) => {
            for index in indices {
                put_other(shares.as_mut_slice(), *index, others, *index);
            }
        }
        Wrong::OnAnotherLink => {
            if is_posted_on_link_2(rt, alloc, other, others) {
                put_other(shares.as_mut_slice(), 0, others, 0);
            }
        }
    }
}

/// Makes the shares wrong with those of another book made for this.
fn make_wrong_by_another<R: Wait>(rt: &R, alloc: Global, shares: &mut Vec<Share>, wrong: Wrong) {
    if let Ok((other, mut others)) = three_by_five(alloc) {
        make_wrong(rt, alloc, shares, &other, others.as_mut_slice(), wrong);
    }
}

/// How a book closes: to a book with these lines, or not at all.
#[derive(Clone, Copy)]
enum Closing {
    To(Lines),
    Refused(BookClose),
}

/// Returns whether the book closes as expected.
fn closes(alloc: Global, book: CycleBook, shares: Vec<Share>, closing: &Closing, by: By) -> bool {
    match *closing {
        Closing::To(lines) => closes_to(alloc, book, shares, &lines, by),
        Closing::Refused(fault) => is_refused(alloc, book, shares, fault, by),
    }
}

/// The posts to a book of three bridges and five cycles, how many frames and octets link 1 has sent after them, how its shares are made
/// wrong, and how it closes.
struct Case {
    posts: &'static [Post],
    sent: (u128, u128),
    wrong: Option<Wrong>,
    closing: Closing,
}

/// Returns whether the book gives the expected answers to the posts, then has the expected totals on link 1, and no whole cycle.
fn takes_posts<R: Wait>(
    rt: &R,
    alloc: Global,
    book: &CycleBook,
    shares: &mut [Share],
    case: &Case,
) -> bool {
    let (frames, octets) = case.sent;
    let totals = Totals { frames, octets };
    answers_all(rt, alloc, book, shares, case.posts)
        && book.whole_cycles(rt) == 0
        && book.totals(rt, 1) == totals
}

/// Returns whether a book passes the case.
fn is_so<R: Wait>(rt: &R, alloc: Global, case: &Case, by: By) -> bool {
    match three_by_five(alloc) {
        Ok((book, mut shares)) => {
            let takes = takes_posts(rt, alloc, &book, shares.as_mut_slice(), case);
            if let Some(wrong) = case.wrong {
                make_wrong_by_another(rt, alloc, &mut shares, wrong);
            }
            takes && closes(alloc, book, shares, &case.closing, by)
        }
        Err(_) => false,
    }
}

/// A post of bridge 1 that is taken.
const ONE: &[Post] = &[(1, 1, 0, None)];

/// One post of each of two bridges.
const TWO: &[Post] = &[(2, 2, 0, None), (1, 1, 0, None)];

/// Books, and how they close.
const CASES: &[Case] = &[
    Case {
        posts: &[
            (1, 1, 0, None),
            (1, 1, 0, Some(PageFault::DoublePage)),
            (1, 9, 0, Some(PageFault::StrangeBridge)),
            (1, 2, 0, Some(PageFault::StrangeBridge)),
            (1, 1, 5, Some(PageFault::StrangeCycle)),
            (0, 0, 1, Some(PageFault::CycleSkipped)),
        ],
        sent: (1, 64),
        wrong: None,
        closing: Closing::To((&[(0, 1)], &[(0, 2)], &[(0, 1)])),
    },
    Case {
        posts: ONE,
        sent: (1, 64),
        wrong: Some(Wrong::Missing),
        closing: Closing::Refused(BookClose::ShareMissing),
    },
    Case {
        posts: ONE,
        sent: (1, 64),
        wrong: Some(Wrong::Twice),
        closing: Closing::Refused(BookClose::ShareMissing),
    },
    Case {
        posts: ONE,
        sent: (1, 64),
        wrong: Some(Wrong::Unused(&[1])),
        closing: Closing::Refused(BookClose::SharesDisagree(1)),
    },
    Case {
        posts: TWO,
        sent: (2, 128),
        wrong: Some(Wrong::Unused(&[2, 1])),
        closing: Closing::Refused(BookClose::SharesDisagree(1)),
    },
    Case {
        posts: TWO,
        sent: (2, 128),
        wrong: Some(Wrong::Unused(&[2])),
        closing: Closing::Refused(BookClose::SharesDisagree(2)),
    },
    // a page with different content is noticed
    Case {
        posts: &[(0, 0, 0, None)],
        sent: (1, 64),
        wrong: Some(Wrong::OnAnotherLink),
        closing: Closing::Refused(BookClose::SharesDisagree(0)),
    },
];

#[test]
fn a_book_closes_with_its_own_shares_alone(rt: HostRuntime) {
    for (index, case) in CASES.iter().enumerate() {
        assert!(rt; is_so(&rt, rt.alloc(), case, By::Close), "case {index}");
        assert!(rt;
            is_so(&rt, rt.alloc(), case, By::Pages),
            "case {index} by pages"
        );
    }
}

/// Returns whether the book takes the page with a start on the link with number 2 minus the bridge's number.
fn takes<R: Wait>(rt: &R, alloc: Global, book: &CycleBook, share: &mut Share, cycle: u32) -> bool {
    let bridge = share.bridge();
    match page_with(alloc, bridge, cycle, 2u16.saturating_sub(bridge)) {
        Ok(page) => book.post(rt, share, page).is_ok(),
        Err(_) => false,
    }
}

/// Returns whether the book takes the pages of the cycles from this one on.
fn fills<R: Wait>(rt: &R, alloc: Global, book: &CycleBook, share: &mut Share, from: u32) -> bool {
    for cycle in from..3 {
        if !takes(rt, alloc, book, share, cycle) {
            return false;
        }
    }
    true
}

/// Returns whether the book takes the pages of two bridges, each in a thread of its own.
fn fills_two<R: Threads + Wait + Sync>(
    rt: &R,
    alloc: Global,
    book: &CycleBook,
    one: &mut [Share],
    two: &mut [Share],
) -> bool {
    let (one, two) = join(
        rt,
        move || fills_first(rt, alloc, book, one, 1),
        move || fills_first(rt, alloc, book, two, 0),
    );
    one && two
}

/// Returns whether the book takes the pages of the first of these shares.
fn fills_first<R: Wait>(
    rt: &R,
    alloc: Global,
    book: &CycleBook,
    shares: &mut [Share],
    from: u32,
) -> bool {
    match shares.first_mut() {
        Some(share) => fills(rt, alloc, book, share, from),
        None => false,
    }
}

/// Returns whether the book takes the pages of three bridges, each in a thread of its own; of bridge 1 those from cycle 1 on.
fn fills_three<R: Threads + Wait + Sync>(
    rt: &R,
    alloc: Global,
    book: &CycleBook,
    shares: &mut [Share],
) -> bool {
    if shares.len() != 3 {
        return false;
    }
    let (zero, rest) = shares.split_at_mut(1);
    let (one, two) = rest.split_at_mut(1);
    let (zero, others) = join(
        rt,
        move || fills_first(rt, alloc, book, zero, 0),
        move || fills_two(rt, alloc, book, one, two),
    );
    zero && others
}

/// The lines of three bridges and three cycles.
const NINE_PAGES: Lines = (
    &[
        (0, 0),
        (0, 1),
        (0, 2),
        (1, 0),
        (1, 1),
        (1, 2),
        (2, 0),
        (2, 1),
        (2, 2),
    ],
    &[
        (0, 1),
        (0, 2),
        (0, 3),
        (1, 1),
        (1, 2),
        (1, 3),
        (2, 1),
        (2, 2),
        (2, 3),
    ],
    &[
        (0, 0),
        (0, 1),
        (0, 2),
        (1, 0),
        (1, 1),
        (1, 2),
        (2, 0),
        (2, 1),
        (2, 2),
    ],
);

/// Returns whether the pages take that of bridge 1 and cycle 0.
fn takes_first(alloc: Global, pages: &mut Pages) -> bool {
    match page_with(alloc, 1, 0, 1) {
        Ok(page) => pages.post(page).is_ok(),
        Err(_) => false,
    }
}

/// Returns whether three threads fill a book that begins with these pages, and it closes to the book of all pages.
fn fills_in_threads<R: Threads + Wait + Sync>(rt: &R, alloc: Global, pages: Pages, by: By) -> bool {
    match CycleBook::new(alloc, pages) {
        Ok((book, mut shares)) => {
            let fills = fills_three(rt, alloc, &book, shares.as_mut_slice());
            let whole = book.whole_cycles(rt);
            shares.reverse();
            let closes = closes_to(alloc, book, shares, &NINE_PAGES, by);
            fills && whole == 3 && closes
        }
        Err(_) => false,
    }
}

/// Returns whether they do so if the book begins with the page of bridge 1 and cycle 0.
fn fills_after_one_page<R: Threads + Wait + Sync>(rt: &R, alloc: Global, by: By) -> bool {
    match Pages::new(alloc, 3, 3) {
        Ok(mut pages) => {
            let begins = takes_first(alloc, &mut pages);
            let fills = fills_in_threads(rt, alloc, pages, by);
            begins && fills
        }
        Err(_) => false,
    }
}

#[test]
fn three_threads_write_one_book(rt: HostRuntime) {
    assert!(rt; fills_after_one_page(&rt, rt.alloc(), By::Close));
    assert!(rt; fills_after_one_page(&rt, rt.alloc(), By::Pages));
}

/// Faults, and how they print.
const TEXTS: &[(BookClose, &str)] = &[
    (BookClose::ShareMissing, "ShareMissing"),
    (BookClose::SharesDisagree(1), "SharesDisagree 1"),
    (BookClose::Memory, "Memory"),
];

/// Returns whether the fault prints so.
fn prints(alloc: Global, fault: BookClose, wanted: &str) -> bool {
    match format!(in alloc; "{fault}") {
        Ok(text) => text.as_str() == wanted,
        Err(_) => false,
    }
}

#[test]
fn a_fault_prints_as_its_name(rt: HostRuntime) {
    for (fault, name) in TEXTS {
        assert!(rt; prints(rt.alloc(), *fault, name));
    }
}
