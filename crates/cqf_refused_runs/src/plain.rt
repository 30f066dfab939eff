//! Runs on one thread.
ghost use Rattle.std.specs.Prelude.{◌≡◌, ◌≤◌, length, true};
ghost use Rattle.cqf_model.specs.Run.{AreBackground, AreOffers};

use cqf_admission::Table;
use cqf_compile::Plan;
use cqf_model::{Background, Book, Offer, Reason, Started};
use cqf_plain::{RunFault, run};
use cqf_refused_values::{Reported, X, plan_of, tables_with, trial};
use cqf_test_fixtures::{
    Asked, Backing, Offering, are_background, are_begun, are_dropped, are_offers, background_of,
    line, offers_of,
};
use cqf_units::{Cycle, Nanos};
use std::alloc::Global;

/// The input of a run.
#[derive(Drop)]
pub(crate) struct Given {
    pub(crate) plan: Plan,
    pub(crate) tables: Vec<Table>,
    pub(crate) offers: Vec<Offer>,
    pub(crate) background: Vec<Background>,
}

/// Returns the input of a run of a domain's text with `cycles` cycles.
pub(crate) fn make_given(
    alloc: Global,
    text: &str,
    streams: &[Asked],
    cycles: u32,
    offering: &[Offering],
    backing: &[Backing],
) -> Option<Given> {
    let plan = plan_of(alloc, text)?;
    let tables = tables_with(alloc, &plan, streams, cycles)?;
    match (offers_of(alloc, offering), background_of(alloc, backing)) {
        (Ok(offers), Ok(background)) => Some(Given {
            plan,
            tables,
            offers,
            background,
        }),
        _ => None,
    }
}

/// Whether a run may be made with it.
pub(crate) fn may_run(given: &Given) -> bool
    ensures offers { result ≡ true → AreOffers given.now.plan given.now.offers.items }
    ensures few_offers { result ≡ true → length given.now.offers.items ≤ 1000000 }
    ensures background { result ≡ true → AreBackground given.now.plan given.now.background.items }
    ensures few_background { result ≡ true → length given.now.background.items ≤ 1000000 }
{
    let (offers, background) = (given.offers.as_slice(), given.background.as_slice());
    if offers.len() > 1_000_000 || background.len() > 1_000_000 {
        return false;
    }
    are_offers(given.plan.domain(), offers) && are_background(given.plan.domain(), background)
}

/// Makes a run over five cycles, if it may be made.
fn run_of(alloc: Global, given: &Given) -> Result<Book, RunFault> {
    if !may_run(given) {
        return Err(RunFault::WrongTables);
    }
    run(
        alloc,
        &given.plan,
        given.tables.as_slice(),
        given.offers.as_slice(),
        given.background.as_slice(),
        5,
    )
}

/// Whether a frame goes along the line, another one is dropped, and a background frame goes on its own.
fn is_book(made: &Result<Book, RunFault>) -> bool {
    let starts = [
        (1, 0, 1, 64, 125_000),
        (2, 1, 1, 64, 250_000),
        (3, 2, 1, 64, 375_000),
    ];
    match made {
        Ok(book) => {
            are_begun(book.starts.as_slice(), &starts)
                && are_begun(book.background.as_slice(), &[(0, 1, 1, 1522, 0)])
                && are_dropped(book.drops.as_slice(), &[(0, 1, 2, 64, Reason::OtherBridge)])
        }
        Err(_) => false,
    }
}

/// Which run it is.
#[derive(Clone, Copy)]
enum Which {
    Along,
    OfMany,
}

/// Whether its book was made.
fn is_made(made: &Result<Book, RunFault>, which: Which) -> bool {
    match which {
        Which::Along => is_book(made),
        Which::OfMany => is_of_many(made),
    }
}

/// Makes a run, and repeats it if it is refused for lack of memory.
fn ran(alloc: Global, given: &Given, which: Which) -> Reported {
    trial!(
        alloc,
        run_of(alloc, given),
        Err(RunFault::Memory),
        may_run(given),
        |answer| is_made(&answer, which)
    )
}

/// What is offered along the line.
const OFFERS: &[Offering] = &[(0, 0, "x", 64), (0, 1, "x", 64)];

/// Returns the input of the run along the line.
pub(crate) fn along(alloc: Global) -> Option<Given> {
    make_given(alloc, line(), &[X], 5, OFFERS, &[(0, 1, 0, 1522)])
}

pub(crate) fn run_reported(alloc: Global) -> Option<Reported> {
    let given = along(alloc)?;
    Some(ran(alloc, &given, Which::Along))
}

/// The number of frames that go along the line, more than are sorted without an allocation.
const MANY: usize = 22;

/// Whether the starts on one link in one cycle are those of all frames, one after the other: 84 octets on the wire take
/// 672 ns.
fn are_all(starts: &[Started], hop: u32) -> bool {
    let mut instant = u64::from(hop) * 125_000 + 125_000;
    let mut frame = 1u32;
    for start in starts {
        let is_so = start.cycle == Cycle(hop.saturating_add(1))
            && u32::from(start.link) == hop
            && start.frame == frame
            && start.start == Nanos(instant);
        if !is_so {
            return false;
        }
        instant = instant.saturating_add(672);
        frame = frame.saturating_add(1);
    }
    starts.len() == MANY
}

/// Whether they go along all three links.
fn go_along(starts: &[Started]) -> bool {
    let (first, rest) = starts.split_at(starts.len().min(MANY));
    let (second, third) = rest.split_at(rest.len().min(MANY));
    are_all(first, 0) && are_all(second, 1) && are_all(third, 2)
}

/// Whether the book has them.
fn is_of_many(made: &Result<Book, RunFault>) -> bool {
    match made {
        Ok(book) => go_along(book.starts.as_slice()) && book.drops.is_empty(),
        Err(_) => false,
    }
}

/// Their offers.
const OF_MANY: &[Offering] = &[(0, 0, "x", 64); MANY];

pub(crate) fn many_reported(alloc: Global) -> Option<Reported> {
    let given = make_given(alloc, line(), &[X], 5, OF_MANY, &[])?;
    Some(ran(alloc, &given, Which::OfMany))
}
