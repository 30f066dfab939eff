//! The hops of covered offers, counted for each link.
ghost use Rattle.std.specs.Prelude.{ℕ, ◌≡◌, ◌+◌, ◌≤◌, ◌<◌, All, IfOk, length, sum_by};
ghost use Rattle.cqf_model.specs.Run.{AreOffers};
ghost use Rattle.cqf_model.specs.Policing.{numbered};
ghost use Rattle.cqf_laws_coverage.specs.Counted.{counts_frames, counts_in, hops_of};
ghost use Rattle.cqf_laws_coverage.specs.Judged.{StandInOrder};
ghost use Rattle.cqf_instants_run.specs.Coverage.{verdict_of};
ghost use Rattle.cqf_instants_run.specs.Columns.{AddsFrame, AreEmptyColumns, AreSumsBy, HaveColumnsRoom, HaveRoomFor, HaveWidth, IsWide, verdict_at};
ghost use Rattle.cqf_model.specs.Limits.{end_of_offers, most_offers};

use crate::EdgeVerdict;
use cqf_laws_coverage::Column;
use cqf_model::{Hop, Offer, Row};
use cqf_topology::Domain;
use cqf_units::{Cycle, Memory, Nanos, cycle_of};
use std::alloc::Global;

/// Each hop number of a tree is less than this.
const HOP_NUMBERS: u32 = 256;

/// Returns a column for each of the first `links` links, with `width` cycles and nothing counted.
fn empty_columns(alloc: Global, links: u16, width: u32) -> Result<Vec<Column>, Memory>
    ensures { IfOk result (λ columns. AreEmptyColumns columns.items links width) }
{
    let mut columns = Vec::with_capacity(alloc, usize::from(links))?;
    for _link in 0..links {
        let octets = vec![in alloc; 0; width as usize]?;
        columns.push(Column { frames: 0, octets })?;
    }
    Ok(columns)
}

/// Returns how many of the first `cycles` cycles the columns need. In later cycles no frame of these offers is sent.
fn width_of(offers: &[Offer], cycle_time: Nanos, cycles: u32) -> u32
    requires time { 10000 ≤ cycle_time.0 }
    requires early { All (λ offer. offer.at.0 < end_of_offers) offers.now }
    requires order { StandInOrder offers.now }
    ensures { IsWide cycle_time.0 cycles offers.now result }
{
    match offers.last() {
        None => 0,
        Some(last) => cycles.min(cycle_of(last.at, cycle_time).0 + HOP_NUMBERS),
    }
}

/// Returns the hops by which an offer with this verdict leaves.
fn hops_of(rows: &[Row], edge_verdict: EdgeVerdict) -> &[Hop]
    ensures hops { (cycle : ℕ) → result.now ≡ hops_of (verdict_of rows.now cycle edge_verdict) }
    ensures few { length result.now ≤ 200 }
{
    let none: &[Hop] = &[];
    match edge_verdict {
        EdgeVerdict::Dropped(_) => none,
        EdgeVerdict::Covered(index) => match rows.get(index) {
            Some(row) => row.tree.as_slice(),
            None => none,
        },
    }
}

/// Counts a frame that leaves by a link in a cycle, if the domain has the link and the cycle is one of the first `cycles` cycles.
fn add_hop(columns: &mut Vec<Column>, link: u16, cycle: u32, octets: u32, cycles: u32)
    requires width { cycle < cycles → HaveWidth columns.old.items (cycle + 1) }
    requires room { HaveRoomFor cycles columns.old.items (λ l. counts_frames l cycles link cycle octets) (λ l c. counts_in l c link cycle octets) }
    ensures { AddsFrame cycles columns.old.items columns.new.items (λ l. counts_frames l cycles link cycle octets) (λ l c. counts_in l c link cycle octets) }
{
    let index = usize::from(link);
    if cycle < cycles && index < columns.len() {
        let column = &mut columns[index];
        column.frames += 1;
        column.octets[cycle as usize] += octets;
    }
}

/// Counts a frame of an offer of this cycle at each of its hops.
fn add_hops(columns: &mut Vec<Column>, hops: &[Hop], cycle: Cycle, octets: u32, cycles: u32)
    requires early { cycle.0 ≤ 100000000 }
    requires width { (hop_number : ℕ) → hop_number < 256 → cycle.0 + hop_number < cycles → HaveWidth columns.old.items (cycle.0 + hop_number + 1) }
    requires room { HaveRoomFor cycles columns.old.items
        (λ l. sum_by (λ hop. counts_frames l cycles hop.link (cycle.0 + hop.hop_number) octets) hops.now)
        (λ l c. sum_by (λ hop. counts_in l c hop.link (cycle.0 + hop.hop_number) octets) hops.now) }
    ensures { AddsFrame cycles columns.old.items columns.new.items
        (λ l. sum_by (λ hop. counts_frames l cycles hop.link (cycle.0 + hop.hop_number) octets) hops.now)
        (λ l c. sum_by (λ hop. counts_in l c hop.link (cycle.0 + hop.hop_number) octets) hops.now) }
{
    for hop in hops {
        add_hop(
            columns,
            hop.link,
            cycle.0 + u32::from(hop.hop_number),
            octets,
            cycles,
        );
    }
}

/// Returns the frames and octets that each of a domain's links carries in the first `cycles` cycles, by link number, if each offer is
/// judged by the verdict at the same index. An offer that a row covers leaves by each link of the row's tree, as many cycles after its own
/// as the link's hop number. The offers are in order of instant, and each link carries less than 2^32 octets in each cycle. The time grows
/// with the hops of the covered offers and with the columns, which end at most 256 cycles after the last offer's cycle.
///
/// # Errors
/// Returns `Memory` if an allocation fails.
pub fn columns_of(
    alloc: Global,
    domain: &Domain,
    rows: &[Row],
    offers: &[Offer],
    edge_verdicts: &[EdgeVerdict],
    cycles: u32,
) -> Result<Vec<Column>, Memory>
    requires offers { AreOffers domain.now offers.now }
    requires order { StandInOrder offers.now }
    requires few { length offers.now ≤ most_offers }
    requires judged { length edge_verdicts.now ≡ length offers.now }
    requires room { HaveColumnsRoom domain.now cycles (verdict_at domain.now rows.now edge_verdicts.now) (numbered offers.now) }
    ensures { IfOk result (λ columns. AreSumsBy domain.now cycles (verdict_at domain.now rows.now edge_verdicts.now) offers.now columns.items) }
{
    let cycle_time = domain.cycle_time();
    let width = width_of(offers, cycle_time, cycles);
    let mut columns = empty_columns(alloc, domain.links(), width)?;
    for (index, offer) in offers.iter().enumerate() {
        let hops = hops_of(rows, edge_verdicts[index]);
        let cycle = cycle_of(offer.at, cycle_time);
        add_hops(&mut columns, hops, cycle, offer.octets, cycles);
    }
    Ok(columns)
}
