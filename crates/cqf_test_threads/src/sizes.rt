//! The widest run: with as many bridges, links and administrators as possible.
use crate::asking::Ask;
use crate::running::{Scenario, account_of};
use cqf_admission::{Call, Entry};
use cqf_model::{Book, Offer, Receipt, Reply};
use cqf_test_fixtures::{Asked, Begun, are_begun, is_request, offers_of};
use cqf_topology::Domain;
use cqf_units::Cycle;
use cqf_worker::{Account, Free};
use std::alloc::Global;
use std::sync::Wait;
use std::thread::Threads;

/// 32 bridges and a station.
const BRIDGES: &str = r#"cycle = 125000
guard = 5000
bridges = ["b0", "b1", "b2", "b3", "b4", "b5", "b6", "b7", "b8", "b9", "b10", "b11", "b12", "b13", "b14", "b15",
    "b16", "b17", "b18", "b19", "b20", "b21", "b22", "b23", "b24", "b25", "b26", "b27", "b28", "b29", "b30", "b31"]
stations = ["s"]
"#;

/// The last link.
const LAST_LINK: &str = r#"
[[links]]
from = "b31"
to = "s"
rate = 1000
delay = 500
"#;

/// Appends a link from a bridge to another to a text.
fn add_link(alloc: Global, text: &mut String, from: u32, to: u32) -> bool {
    match format!(in alloc;
        "\n[[links]]\nfrom = \"b{from}\"\nto = \"b{to}\"\nrate = 1000\ndelay = 500\n"
    ) {
        Ok(link) => text.push_str(link.as_str()).is_ok(),
        Err(_) => false,
    }
}

/// Appends the links: 0 to 31 from each bridge to the next and from the last to the first, 32 to 62 back from each bridge except the first,
/// and 63 from the last bridge to the station.
fn add_links(alloc: Global, text: &mut String) -> bool {
    for bridge in 0..32 {
        if !add_link(alloc, text, bridge, (bridge + 1) % 32) {
            return false;
        }
    }
    for bridge in 0..31 {
        if !add_link(alloc, text, bridge + 1, bridge) {
            return false;
        }
    }
    text.push_str(LAST_LINK).is_ok()
}

/// Returns the domain of these bridges and links.
fn wide_domain(alloc: Global) -> Option<Domain> {
    let Ok(mut text) = String::from_str(alloc, BRIDGES) else {
        return None;
    };
    if !add_links(alloc, &mut text) {
        return None;
    }
    match Domain::read(alloc, text.as_str().as_bytes()) {
        Ok(domain) => Some(domain),
        Err(_) => None,
    }
}

/// The longest path: sixteen bridges.
const LONGEST: &[&[&str]] = &[&[
    "b16", "b17", "b18", "b19", "b20", "b21", "b22", "b23", "b24", "b25", "b26", "b27", "b28",
    "b29", "b30", "b31", "s",
]];

/// The stream that is admitted before the run.
const X: Asked = ("x", 64, LONGEST);

/// Eight administrators, each of whom admits and withdraws a stream of its own along the longest path.
const EIGHT: Scenario = Scenario {
    streams: &[X],
    admins: &[
        &[Ask::Admit(("n0", 64, LONGEST)), Ask::Withdraw("n0")],
        &[Ask::Admit(("n1", 64, LONGEST)), Ask::Withdraw("n1")],
        &[Ask::Admit(("n2", 64, LONGEST)), Ask::Withdraw("n2")],
        &[Ask::Admit(("n3", 64, LONGEST)), Ask::Withdraw("n3")],
        &[Ask::Admit(("n4", 64, LONGEST)), Ask::Withdraw("n4")],
        &[Ask::Admit(("n5", 64, LONGEST)), Ask::Withdraw("n5")],
        &[Ask::Admit(("n6", 64, LONGEST)), Ask::Withdraw("n6")],
        &[Ask::Admit(("n7", 64, LONGEST)), Ask::Withdraw("n7")],
    ],
    times: 1,
    cycles: 18,
};

/// A frame of the stream that is admitted before the run crosses one link per cycle, to the station.
const ALONG_SIXTEEN: &[Begun] = &[
    (1, 16, 1, 64, 125000),
    (2, 17, 1, 64, 250000),
    (3, 18, 1, 64, 375000),
    (4, 19, 1, 64, 500000),
    (5, 20, 1, 64, 625000),
    (6, 21, 1, 64, 750000),
    (7, 22, 1, 64, 875000),
    (8, 23, 1, 64, 1000000),
    (9, 24, 1, 64, 1125000),
    (10, 25, 1, 64, 1250000),
    (11, 26, 1, 64, 1375000),
    (12, 27, 1, 64, 1500000),
    (13, 28, 1, 64, 1625000),
    (14, 29, 1, 64, 1750000),
    (15, 30, 1, 64, 1875000),
    (16, 63, 1, 64, 2000000),
];

/// Returns how many entries of a history are Seals of the seat.
fn seals_of(entries: &[Entry], seat: u16) -> usize {
    entries
        .iter()
        .filter(|entry| entry.seat == seat && matches!(entry.call, Call::Seal))
        .count()
}

/// The opening entry's reply.
const OPENING: Reply = Reply::Accepted(Receipt {
    no: 0,
    effect: Cycle(0),
});

/// Returns whether the first entry is that of the stream that was admitted before the run.
fn is_opened(entries: &[Entry]) -> bool {
    match entries.first() {
        Some(entry) => {
            let asks = matches!(&entry.call, Call::Admit(request) if is_request(request, &X));
            asks && entry.seat == 0 && entry.reply == OPENING
        }
        None => false,
    }
}

/// Returns whether a book has only the starts of that frame.
fn is_along_sixteen(book: &Book) -> bool {
    are_begun(book.starts.as_slice(), ALONG_SIXTEEN)
        && book.background.is_empty()
        && book.drops.is_empty()
}

/// Returns whether an account is that of the eight: the opening call, two calls of each administrator, and one Seal per cycle by the ninth
/// seat.
fn is_of_eight(account: &Account) -> bool {
    let entries = account.history.entries.as_slice();
    account.history.opening == 1
        && is_opened(entries)
        && entries.len() == 35
        && seals_of(entries, 8) == 18
        && is_along_sixteen(&account.book)
}

/// Returns whether the eight have such an account with these offers.
fn eight_end<R: Threads + Wait + Sync>(
    rt: &R,
    alloc: Global,
    domain: &Domain,
    offers: &[Offer],
) -> bool {
    match account_of(rt, alloc, domain, &EIGHT, offers, &Free) {
        Some(account) => is_of_eight(&account),
        None => false,
    }
}

/// Returns whether they have it over the widest domain.
fn widest_ends<R: Threads + Wait + Sync>(rt: &R, alloc: Global) -> bool {
    let Ok(offers) = offers_of(alloc, &[(0, 16, "x", 64)]) else {
        return false;
    };
    match wide_domain(alloc) {
        Some(domain) => {
            let wide = domain.bridges() == 32 && domain.links() == 64;
            wide && eight_end(rt, alloc, &domain, offers.as_slice())
        }
        None => false,
    }
}

#[test]
fn the_widest_run_ends(rt: HostRuntime) {
    assert!(rt; widest_ends(&rt, rt.alloc()));
}
