//! The verdicts on offers, in order.
ghost use Rattle.std.specs.Prelude.{◌≡◌, ◌≤◌, ◌<◌, IfOk, List, None, length, replicate};
ghost use Rattle.std.specs.BTreeMap.{get};
ghost use Rattle.std.specs.Cmp.Lexicographic.{slice_cmp};
ghost use Rattle.std.specs.Ordering.{nat_cmp};
ghost use Rattle.cqf_model.specs.History.{IsLegalHistory, Recorded, streams_of};
ghost use Rattle.cqf_model.specs.Run.{AreOffers};
ghost use Rattle.cqf_laws_coverage.specs.Judged.{StandInOrder};
ghost use Rattle.cqf_instants_run.specs.Begun.{LeadsToLast};
ghost use Rattle.cqf_instants_run.specs.Coverage.{AreJudged, IsJudged, used_after, used_in};

use crate::begun::{RowsBegun, begin, find_in_force};
use cqf_laws_coverage::{counters_step, offers_stand_in_order, rows_follow, rows_say_the_tables};
use cqf_model::{Offer, Reason, Row};
use cqf_topology::{Domain, begins_at};
use cqf_units::{Cycle, Memory, Octets, counted, cycle_of};
use std::alloc::Global;
use std::collections::BTreeMap;

/// The verdict on an offer at its edge bridge.
#[derive(Clone, Copy, Debug, PartialEq, Eq)]
pub enum EdgeVerdict {
    /// The row at this index covers the offer.
    Covered(usize),
    /// The offer is dropped for this reason.
    Dropped(Reason),
}

/// The octets of a row that covered offers have used in `cycle`, the last cycle in which one used any.
#[derive(Clone, Copy, Debug)]
pub(crate) struct Used {
    pub(crate) cycle: u32,
    pub(crate) octets: u32,
}

/// Returns the octets used of a row in a cycle after an offer that it covers, given the octets used before. Returns the first reason
/// against the offer if the row doesn't cover it.
fn used_after(
    domain: &Domain,
    row: &Row,
    cycle: Cycle,
    used: u32,
    offer: &Offer,
) -> Result<u32, Reason>
    ensures { result ≡ used_after domain.now row.now cycle.0 used offer.now }
{
    if !row.live(cycle) {
        return Err(Reason::Withdrawn);
    }
    if !begins_at(domain, row, offer.bridge) {
        return Err(Reason::OtherBridge);
    }
    let octets = counted(Octets(domain.overhead()), Octets(offer.octets));
    let (most, asked) = (
        u64::from(row.reserved_after(None, u64::from(cycle.0))),
        u64::from(used) + u64::from(octets.0),
    );
    if asked > most {
        return Err(Reason::Octets);
    }
    Ok(asked as u32)
}

/// Returns the octets used of a row in a cycle.
fn octets_in(used: &Used, cycle: Cycle) -> u32
    ensures { result ≡ used_in cycle.0 used.now }
{
    if used.cycle == cycle.0 {
        used.octets
    } else {
        0
    }
}

/// Judges an offer of a cycle, and counts the octets that it uses.
fn judge(
    domain: &Domain,
    begun: &RowsBegun<'_>,
    used: &mut Vec<Used>,
    cycle: Cycle,
    offer: &Offer,
) -> EdgeVerdict
    requires within { begun.now.count ≤ length begun.now.rows.now }
    requires leads { LeadsToLast begun.now.rows.now begun.now.count (λ name. get (slice_cmp nat_cmp) begun.now.last.now name) }
    requires counters { length used.old.items ≡ length begun.now.rows.now }
    ensures { IsJudged domain.now begun.now.rows.now begun.now.count cycle.0 offer.now used.old.items used.new.items result }
{
    let Some(index) = find_in_force(begun, &offer.stream, cycle) else {
        return EdgeVerdict::Dropped(Reason::Unknown);
    };
    let before = octets_in(&used[index], cycle);
    match used_after(domain, &begun.rows[index], cycle, before, offer) {
        Err(reason) => EdgeVerdict::Dropped(reason),
        Ok(octets) => {
            used[index] = Used {
                cycle: cycle.0,
                octets,
            };
            EdgeVerdict::Covered(index)
        }
    }
}

/// Returns an unused counter for each of `rows` rows.
fn no_use(alloc: Global, rows: usize) -> Result<Vec<Used>, Memory>
    ensures { IfOk result (λ used. used.items ≡ replicate rows (record { cycle = 0; octets = 0 })) }
{
    Ok(vec![in alloc; Used {
        cycle: 0,
        octets: 0
    }; rows]?)
}

/// Returns the verdict on each offer of a domain, by the rows that were ever granted in the domain, in order of number. The offers are in
/// order of instant. The row of the offer's name that is held in the offer's cycle covers the offer if it is live, begins at the offer's
/// bridge, and has enough octets left after the covered offers before it in this cycle. Else the offer is dropped for the first of these
/// reasons. The verdict on an offer says nothing if the history hasn't closed the offer's cycle. The time grows with the rows and the
/// offers.
///
/// # Errors
/// Returns `Memory` if an allocation fails.
pub fn cover(
    alloc: Global,
    domain: &Domain,
    rows: &[Row],
    offers: &[Offer],
) -> Result<Vec<EdgeVerdict>, Memory>
    requires offers { AreOffers domain.now offers.now }
    requires order { StandInOrder offers.now }
    ensures { IfOk result (λ edge_verdicts. (entries : List Recorded) → IsLegalHistory domain.now entries → streams_of domain.now entries ≡ rows.now →
        AreJudged domain.now entries rows.now offers.now (length offers.now) edge_verdicts.items) }
{
    rows_say_the_tables();
    rows_follow();
    offers_stand_in_order();
    counters_step();
    let cycle_time = domain.cycle_time();
    let mut last = BTreeMap::new(alloc);
    let mut used = no_use(alloc, rows.len())?;
    let mut edge_verdicts = Vec::with_capacity(alloc, offers.len())?;
    let mut count = 0;
    for offer in offers {
        let cycle = cycle_of(offer.at, cycle_time);
        count = begin(rows, count, &mut last, cycle)?;
        let begun = RowsBegun {
            rows,
            count,
            last: &last,
        };
        edge_verdicts.push(judge(domain, &begun, &mut used, cycle, offer))?;
    }
    Ok(edge_verdicts)
}
