//! The book of a run computed in two ways: by exact instants, and by bridges with ports and gates.
ghost use Rattle.std.specs.Prelude.{◌≤◌, length};
ghost use Rattle.cqf_model.specs.Limits.{most_offers};
ghost use Rattle.cqf_laws_coverage.specs.Judged.{StandInOrder};
ghost use Rattle.cqf_model.specs.Run.{AreBackground, AreOffers};

use crate::administrations::{Administration, judged};
use cqf_admission::Admission;
use cqf_compile::compile;
use cqf_instants_run::{background_of_history, book_of_parts, drops_of, starts_of_history};
use cqf_model::{Background, Book, Offer, Started};
use cqf_plain::run;
use cqf_test_fixtures::{Begun, Fell, are_begun, are_dropped};
use cqf_units::Memory;
use std::alloc::Global;

/// The content of a book, computed by hand.
#[derive(Clone, Copy)]
pub(crate) struct Wanted {
    /// How many starts of streams' frames it has.
    pub(crate) many: usize,
    /// All starts on some links in some cycles.
    pub(crate) starts: &'static [Begun],
    /// All starts of background frames.
    pub(crate) background: &'static [Begun],
    /// All drops.
    pub(crate) drops: &'static [Fell],
}

/// Returns whether one of these rows has a start's cycle and link.
fn is_listed(start: &Started, rows: &[Begun]) -> bool {
    rows.iter()
        .any(|row| row.0 == start.cycle.0 && row.1 == start.link)
}

/// Returns the starts whose cycles and links occur in these rows.
fn listed(alloc: Global, starts: &[Started], rows: &[Begun]) -> Result<Vec<Started>, Memory> {
    let mut picked = Vec::new(alloc);
    for start in starts {
        if is_listed(start, rows) {
            picked.push(*start)?;
        }
    }
    Ok(picked)
}

/// Returns whether a book has the wanted number of starts, and the wanted ones on their links in their cycles.
fn has_starts(alloc: Global, book: &Book, wanted: &Wanted) -> bool {
    let starts = book.starts.as_slice();
    match listed(alloc, starts, wanted.starts) {
        Ok(picked) => starts.len() == wanted.many && are_begun(picked.as_slice(), wanted.starts),
        Err(_) => false,
    }
}

/// Returns whether a book has everything that is wanted.
fn is_wanted(alloc: Global, book: &Book, wanted: &Wanted) -> bool {
    has_starts(alloc, book, wanted)
        && are_begun(book.background.as_slice(), wanted.background)
        && are_dropped(book.drops.as_slice(), wanted.drops)
}

/// Returns whether two books are equal, start by start and drop by drop.
fn are_alike(one: &Book, other: &Book) -> bool {
    one.starts.as_slice() == other.starts.as_slice()
        && one.background.as_slice() == other.background.as_slice()
        && one.drops.as_slice() == other.drops.as_slice()
}

/// Returns the book of a run over `cycles` cycles of an administration, by exact instants.
fn exact_book(
    alloc: Global,
    admission: &Admission,
    cycles: u32,
    offers: &[Offer],
    background: &[Background],
) -> Result<Book, Memory>
    requires offers { AreOffers admission.now.domain offers.now }
    requires order { StandInOrder offers.now }
    requires few { length offers.now ≤ most_offers }
    requires background { AreBackground admission.now.domain background.now }
    requires few_background { length background.now ≤ most_offers }
{
    let domain = admission.domain();
    let (granted, covered) = judged(alloc, admission, cycles, offers)?;
    let rows = granted.as_slice();
    let edge_verdicts = covered.as_slice();
    let starts = starts_of_history(alloc, domain, cycles, rows, offers, edge_verdicts)?;
    let starting = starts.as_slice();
    let backed = background_of_history(alloc, domain, cycles, starting, background)?;
    let drops = drops_of(alloc, domain, cycles, offers, edge_verdicts)?;
    Ok(book_of_parts(starts, backed, drops))
}

/// Returns the book by ports and gates, from the tables of the administration.
fn plain_book(
    alloc: Global,
    administration: &Administration,
    cycles: u32,
    offers: &[Offer],
    background: &[Background],
) -> Option<Book>
    requires offers { AreOffers administration.now.admission.domain offers.now }
    requires few { length offers.now ≤ most_offers }
    requires background { AreBackground administration.now.admission.domain background.now }
    requires few_background { length background.now ≤ most_offers }
{
    let many = cycles as usize;
    let tables = administration.tables.as_slice();
    if cycles > 100_000 || tables.len() < many {
        return None;
    }
    let Ok(plan) = compile(alloc, administration.admission.domain()) else {
        return None;
    };
    match run(alloc, &plan, &tables[..many], offers, background, cycles) {
        Ok(book) => Some(book),
        Err(_) => None,
    }
}

/// Returns whether both ways give the same book of a run over `cycles` cycles of an administration, and it has what is wanted.
pub(crate) fn agree(
    alloc: Global,
    administration: &Administration,
    cycles: u32,
    offers: &[Offer],
    background: &[Background],
    wanted: &Wanted,
) -> bool
    requires offers { AreOffers administration.now.admission.domain offers.now }
    requires order { StandInOrder offers.now }
    requires few { length offers.now ≤ most_offers }
    requires background { AreBackground administration.now.admission.domain background.now }
    requires few_background { length background.now ≤ most_offers }
{
    let Ok(exact) = exact_book(alloc, &administration.admission, cycles, offers, background) else {
        return false;
    };
    let Some(plain) = plain_book(alloc, administration, cycles, offers, background) else {
        return false;
    };
    is_wanted(alloc, &exact, wanted) && are_alike(&exact, &plain)
}
