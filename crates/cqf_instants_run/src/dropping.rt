//! The drops of edge bridges, in the order of a book.
ghost use Rattle.std.specs.Prelude.{◌≡◌, ◌++◌, ◌≤◌, ◌<◌, All, IfOk, OnOk, length};
ghost use Rattle.cqf_lists.specs.Lists.{each_below};
ghost use Rattle.cqf_model.specs.Run.{AreOffers};
ghost use Rattle.cqf_laws_coverage.specs.Judged.{StandInOrder};
ghost use Rattle.cqf_instants_run.specs.Drops.{AreDropsBy, drop_at, drop_judged, drop_within, where_any};
ghost use Rattle.cqf_model.specs.Limits.{end_of_offers, most_offers};

use crate::EdgeVerdict;
use cqf_book::sort_drops;
use cqf_model::{Dropped, Offer};
use cqf_topology::Domain;
use cqf_units::{Cycle, Memory, Nanos, cycle_of};
use std::alloc::Global;

/// Returns the drop of an offer in a cycle if its verdict is a drop.
fn drop_judged(
    cycle: Cycle,
    frame: u32,
    offer: &Offer,
    edge_verdict: EdgeVerdict,
) -> Option<Dropped>
    ensures { result ≡ drop_judged cycle.0 frame offer.now edge_verdict }
{
    match edge_verdict {
        EdgeVerdict::Covered(_) => None,
        EdgeVerdict::Dropped(reason) => Some(Dropped {
            cycle,
            bridge: offer.bridge,
            frame,
            octets: offer.octets,
            reason,
        }),
    }
}

/// Returns the drop of an offer if its verdict is a drop and its cycle is one of the first `cycles` cycles, else `None`.
fn drop_within(
    cycle_time: Nanos,
    cycles: u32,
    frame: u32,
    offer: &Offer,
    edge_verdict: EdgeVerdict,
) -> Option<Dropped>
    requires time { 10000 ≤ cycle_time.0 }
    requires early { offer.now.at.0 < end_of_offers }
    ensures { result ≡ drop_within cycle_time.0 cycles frame offer.now edge_verdict }
{
    let cycle = cycle_of(offer.at, cycle_time);
    if cycle.0 < cycles {
        drop_judged(cycle, frame, offer, edge_verdict)
    } else {
        None
    }
}

/// Appends a drop if there is one.
fn put(drops: &mut Vec<Dropped>, drop: Option<Dropped>) -> Result<(), Memory>
    ensures { OnOk result (drops.new.items ≡ drops.old.items ++ where_any drop) }
{
    if let Some(drop) = drop {
        drops.push(drop)?;
    }
    Ok(())
}

/// Returns the drops of the offers in the first `cycles` cycles, in order of the offers.
fn drops_by_index(
    alloc: Global,
    cycle_time: Nanos,
    cycles: u32,
    offers: &[Offer],
    edge_verdicts: &[EdgeVerdict],
) -> Result<Vec<Dropped>, Memory>
    requires time { 10000 ≤ cycle_time.0 }
    requires early { All (λ offer. offer.at.0 < end_of_offers) offers.now }
    requires few { length offers.now ≤ most_offers }
    requires judged { length edge_verdicts.now ≡ length offers.now }
    ensures { IfOk result (λ drops. drops.items ≡ each_below (drop_at cycle_time.0 cycles offers.now edge_verdicts.now) (length offers.now)) }
{
    let mut drops = Vec::new(alloc);
    for (index, offer) in offers.iter().enumerate() {
        let drop = drop_within(
            cycle_time,
            cycles,
            index as u32 + 1,
            offer,
            edge_verdicts[index],
        );
        put(&mut drops, drop)?;
    }
    Ok(drops)
}

/// Returns the drops of a run of a domain over the first `cycles` cycles, by cycle, then bridge, then frame. The drops are those of each
/// book of each legal history that judges the offers as the verdicts say. Offers of later cycles are in no book. There are at most
/// 16,777,215 offers, in order of instant, and each has a verdict at the same index.
///
/// The drops are collected in one pass over the offers, then sorted once. The time grows with the offers, and with n log n for n drops.
///
/// # Errors
/// Returns `Memory` if an allocation fails.
pub fn drops_of(
    alloc: Global,
    domain: &Domain,
    cycles: u32,
    offers: &[Offer],
    edge_verdicts: &[EdgeVerdict],
) -> Result<Vec<Dropped>, Memory>
    requires offers { AreOffers domain.now offers.now }
    requires order { StandInOrder offers.now }
    requires few { length offers.now ≤ most_offers }
    requires judged { length edge_verdicts.now ≡ length offers.now }
    ensures { IfOk result (λ drops. AreDropsBy domain.now offers.now cycles edge_verdicts.now drops.items) }
{
    cqf_laws_coverage::offers_are_judged();
    cqf_laws_shift::book_of_history_says_the_shift();
    let cycle_time = domain.cycle_time();
    let mut drops = drops_by_index(alloc, cycle_time, cycles, offers, edge_verdicts)?;
    sort_drops(&mut drops)?;
    Ok(drops)
}
