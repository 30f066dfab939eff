//! Runs of small histories, compared with results computed by hand.
ghost use Rattle.std.specs.Prelude.{◌≤◌, length};
ghost use Rattle.cqf_model.specs.Limits.{most_offers};
ghost use Rattle.cqf_laws_coverage.specs.Judged.{StandInOrder};
ghost use Rattle.cqf_model.specs.Run.{AreOffers};

use crate::administrations::{Administration, administered};
use crate::paths::{Wanted, agree};
use cqf_model::{Background, MOST_ROWS, Offer};
use cqf_report::{offers_are_read_in_order, read_offers};
use cqf_test_fixtures::{Backing, are_background, background_of};
use cqf_topology::Domain;
use std::alloc::Global;

/// A run of a small history, and the content of its book.
#[derive(Clone, Copy)]
pub(crate) struct Case {
    /// The text of the streams.
    pub(crate) streams: &'static str,
    /// The script; each of its calls is accepted.
    pub(crate) script: &'static str,
    /// The text of the offers.
    pub(crate) offers: &'static str,
    pub(crate) background: &'static [Backing],
    /// The number of cycles.
    pub(crate) cycles: u32,
    pub(crate) wanted: Wanted,
}

/// Returns whether both ways give the wanted book, if the background frames may be given to the run.
fn comes_out_with(
    alloc: Global,
    administration: &Administration,
    cycles: u32,
    offers: &[Offer],
    background: &[Background],
    wanted: &Wanted,
) -> bool
    requires offers { AreOffers administration.now.admission.domain offers.now }
    requires order { StandInOrder offers.now }
    requires few { length offers.now ≤ most_offers }
{
    background.len() <= MOST_ROWS as usize
        && are_background(administration.admission.domain(), background)
        && agree(alloc, administration, cycles, offers, background, wanted)
}

/// Returns whether a case has the wanted result.
fn comes_out(alloc: Global, domain: &Domain, case: &Case) -> bool {
    offers_are_read_in_order();
    let Ok(background) = background_of(alloc, case.background) else {
        return false;
    };
    let made = administered(alloc, domain, case.streams, case.script, case.cycles);
    let Some(administration) = made else {
        return false;
    };
    match read_offers(
        alloc,
        administration.admission.domain(),
        case.offers.as_bytes(),
    ) {
        Ok(offers) => comes_out_with(
            alloc,
            &administration,
            case.cycles,
            offers.as_slice(),
            background.as_slice(),
            &case.wanted,
        ),
        Err(_) => false,
    }
}

/// Returns the index of the first case over a domain that has another result, if there is one.
pub(crate) fn first_wrong(alloc: Global, text: &str, cases: &[Case]) -> Option<usize> {
    let Ok(domain) = Domain::read(alloc, text.as_bytes()) else {
        return Some(0);
    };
    for index in 0..cases.len() {
        if !comes_out(alloc, &domain, &cases[index]) {
            return Some(index);
        }
    }
    None
}
