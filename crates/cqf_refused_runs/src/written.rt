//! Writing of books, histories, starts and sums by link.
ghost use Rattle.std.specs.Prelude.{IfSome};
ghost use Rattle.cqf_report.specs.LinkSums.{AreSumsInOrder};

use crate::plain::{Given, along, make_given, may_run};
use cqf_admission::{Admission, Entry};
use cqf_model::{Book, Offer, Start};
use cqf_plain::run;
use cqf_refused_values::{Reported, X, domain_of, is_text, tables_of, trial};
use cqf_report::{books_are_in_order, write_book, write_history, write_links, write_starts};
use cqf_test_fixtures::{Asked, admission_of, line, one_link, request};
use cqf_topology::Domain;
use cqf_units::{Name, Nanos, Rate};
use std::alloc::Global;
use std::thread::Threads;

/// Returns the book of a run's input over `cycles` cycles, if there is one.
fn book_of(alloc: Global, given: &Given, cycles: u32) -> Option<Book>
    ensures { IfSome result (λ book. AreSumsInOrder book.starts.items) }
{
    books_are_in_order();
    if cycles > 100_000 || !may_run(given) {
        return None;
    }
    let made = run(
        alloc,
        &given.plan,
        given.tables.as_slice(),
        given.offers.as_slice(),
        given.background.as_slice(),
        cycles,
    );
    match made {
        Ok(book) => Some(book),
        Err(_) => None,
    }
}

/// The text of the run along the line.
const BOOK: &str = "what,cycle,where,frame,octets,detail\n\
    start,1,a>b,1,64,125000\nstart,2,b>c,1,64,250000\nstart,3,c>s,1,64,375000\n\
    background,0,b>c,1,1522,0\ndrop,0,b,2,64,other-bridge\n";

/// Tries to write a book.
fn book_written(alloc: Global, domain: &Domain, book: &Book) -> Reported {
    trial!(
        alloc,
        write_book(alloc, domain, book),
        Err(_),
        book.starts.len() == 3 && book.background.len() == 1 && book.drops.len() == 1,
        |answer| is_text(answer, BOOK)
    )
}

pub(crate) fn book_reported(alloc: Global) -> Option<Reported> {
    let given = along(alloc)?;
    let book = book_of(alloc, &given, 5)?;
    Some(book_written(alloc, given.plan.domain(), &book))
}

/// A history with a refusal and a Seal.
const HISTORY: &str =
    "0 admit x accepted 0 0\n1 seal\n0 admit x refused NameHeld\n0 withdraw x accepted 0 1\n";

/// Tries to write a history.
fn history_written(alloc: Global, entries: &[Entry]) -> Reported {
    trial!(
        alloc,
        write_history(alloc, entries),
        Err(_),
        entries.len() == 4,
        |answer| is_text(answer, HISTORY)
    )
}

/// Makes the calls of the history after the first one.
fn goes_on(alloc: Global, admission: &mut Admission) -> bool {
    match request(alloc, &X) {
        Ok(wanted) => {
            tables_of(alloc, admission, 1).is_some()
                && admission.admit(0, &wanted).is_err()
                && admission.withdraw(0, "x").is_ok()
        }
        Err(_) => false,
    }
}

/// Tries to write the history of an admission over a domain.
fn history_of(alloc: Global, domain: &Domain) -> Option<Reported> {
    let mut admission = admission_of(alloc, domain, &[X])?;
    if goes_on(alloc, &mut admission) {
        Some(history_written(alloc, admission.history()))
    } else {
        None
    }
}

pub(crate) fn history_reported(alloc: Global) -> Option<Reported> {
    let domain = domain_of(alloc, line())?;
    history_of(alloc, &domain)
}

/// The start of a frame of 64 octets.
const START: Start = Start {
    start: Nanos(125_000),
    class: 6,
    octets: 64,
    frame: 1,
};

pub(crate) fn starts_reported(alloc: Global) -> Option<Reported> {
    let text = "class,frame,start,end\n6,1,125000,125576\n";
    Some(trial!(
        alloc,
        write_starts(alloc, &[START], Rate::Mb1000),
        Err(_),
        true,
        |answer| is_text(answer, text)
    ))
}

/// Tries to write sums by link.
fn links_written(
    rt: &(impl Threads + Sync),
    alloc: Global,
    domain: &Domain,
    book: &Book,
    text: &str,
) -> Reported
    requires { AreSumsInOrder book.now.starts.items }
{
    let count = book.starts.len();
    trial!(
        alloc,
        write_links(rt, alloc, domain, book),
        Err(_),
        book.starts.len() == count,
        |answer| is_text(answer, text)
    )
}

/// Tries the same for a run's input over `cycles` cycles.
fn links_of(
    rt: &(impl Threads + Sync),
    alloc: Global,
    given: &Given,
    cycles: u32,
    text: &str,
) -> Option<Reported> {
    let book = book_of(alloc, given, cycles)?;
    Some(links_written(rt, alloc, given.plan.domain(), &book, text))
}

pub(crate) fn links_reported(rt: &(impl Threads + Sync), alloc: Global) -> Option<Reported> {
    let text = "link,frames,octets,most\na>b,1,64,64\nb>c,1,64,64\nc>s,1,64,64\n";
    let given = along(alloc)?;
    links_of(rt, alloc, &given, 5, text)
}

/// A stream that takes all of one link's octets: 178 frames of 64 octets per cycle.
const ALL: Asked = ("x", 11_440, &[&["a", "s"]]);

/// Appends an offer of a stream.
fn offers_one(offers: &mut Vec<Offer>, name: &Name, cycle: u32) -> bool {
    let Ok(stream) = name.clone() else {
        return false;
    };
    let offer = Offer {
        at: Nanos(u64::from(cycle) * 125_000),
        bridge: 0,
        stream,
        octets: 64,
    };
    offers.push(offer).is_ok()
}

/// Appends 178 offers of a cycle.
fn offers_cycle(offers: &mut Vec<Offer>, name: &Name, cycle: u32) -> bool {
    for _frame in 0..178 {
        if !offers_one(offers, name, cycle) {
            return false;
        }
    }
    true
}

/// Returns offers of 12 cycles: more frames than one thread sums on its own.
fn many_offers(alloc: Global, name: &Name) -> Option<Vec<Offer>> {
    let mut offers = Vec::new(alloc);
    for cycle in 0..12 {
        if !offers_cycle(&mut offers, name, cycle) {
            return None;
        }
    }
    Some(offers)
}

/// Returns the input of a run of 13 cycles with these offers.
fn given_many(alloc: Global) -> Option<Given> {
    let mut many = make_given(alloc, one_link(), &[ALL], 13, &[], &[])?;
    many.offers = many_offers(alloc, &Name::new(b"x")?)?;
    Some(many)
}

pub(crate) fn many_links_reported(rt: &(impl Threads + Sync), alloc: Global) -> Option<Reported> {
    let text = "link,frames,octets,most\na>s,2136,136704,11392\n";
    let many = given_many(alloc)?;
    links_of(rt, alloc, &many, 13, text)
}
