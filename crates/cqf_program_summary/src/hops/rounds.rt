//! The rounds in which frames are written, so that only those under way are kept.
ghost use Rattle.std.specs.Prelude.{ℕ, ◌≡◌, ◌≤◌, ◌<◌, ◌^◌, AllPairs, Contains, IfOk, Some, drop, length, slice_get, take};
ghost use Rattle.cqf_units.specs.Timing.{cycle_at};
ghost use Rattle.cqf_model.specs.declared.frames.Dropped.{Dropped as ADropped};
ghost use Rattle.cqf_model.specs.declared.frames.Offer.{Offer as AnOffer};
ghost use Rattle.cqf_model.specs.Run.{AreOffers};
ghost use Rattle.cqf_program_summary.specs.Hops.Rounds.{AreRounds, GoesOnFrom, IsNextRound, no_round};

use cqf_model::{Dropped, Offer};
use cqf_topology::Domain;
use cqf_units::{Memory, cycle_of};
use std::alloc::Global;

/// A round: how much is written after it.
#[derive(Clone, Copy, Debug, PartialEq, Eq)]
pub struct Round {
    /// The starts of this many first cycles are returned, or of all cycles if there are fewer.
    pub cycles: u64,
    /// The frames of this many first offers are written completely.
    pub frames: usize,
    /// The number of drops of these frames; they come first in the drops by frame.
    pub drops: usize,
}

/// More cycles than any run has, and than any offer's cycle.
const ALL_CYCLES: u64 = 0x0100_0000_0000;

/// Returns the round before the first one.
pub(crate) fn no_round() -> Round
    ensures { result ≡ no_round }
{
    Round {
        cycles: 0,
        frames: 0,
        drops: 0,
    }
}

/// Returns the cycle of the offer at an index.
fn cycle_there(domain: &Domain, offers: &[Offer], index: usize) -> u64
    requires offers { AreOffers domain.now offers.now }
    requires there { index < length offers.now }
    ensures is { (offer : AnOffer) → slice_get offers.now index ≡ Some offer → result ≡ cycle_at domain.now.cycle_time offer.at.0 }
    ensures small { result < 2 ^ 32 }
{
    u64::from(cycle_of(offers[index].at, domain.cycle_time()).0)
}

/// Returns the index of the first offer after the one at `from` whose cycle isn't before `end`; if there is none, the
/// number of offers.
fn index_after(domain: &Domain, offers: &[Offer], from: usize, end: u64) -> usize
    requires offers { AreOffers domain.now offers.now }
    requires inside { from < length offers.now }
    requires first { (offer : AnOffer) → slice_get offers.now from ≡ Some offer → cycle_at domain.now.cycle_time offer.at.0 < end }
    ensures later { from < result }
    ensures within { result ≤ length offers.now }
    ensures before { (index : ℕ) (offer : AnOffer) → from ≤ index → index < result → slice_get offers.now index ≡ Some offer →
        cycle_at domain.now.cycle_time offer.at.0 < end }
{
    for index in from + 1..offers.len() {
        if cycle_there(domain, offers, index) >= end {
            return index;
        }
    }
    offers.len()
}

/// Returns how many of the drops by frame are of the first `frames` frames. The first `from` drops are.
fn drops_before(drops: &[Dropped], from: usize, frames: usize) -> usize
    requires rise { AllPairs (λ (a b : ADropped). a.frame < b.frame) drops.now }
    requires inside { from ≤ length drops.now }
    requires first { (x : ADropped) → Contains (take from drops.now) x → x.frame ≤ frames }
    ensures later { from ≤ result }
    ensures within { result ≤ length drops.now }
    ensures before { (x : ADropped) → Contains (take result drops.now) x → x.frame ≤ frames }
    ensures following { (x : ADropped) → Contains (drop result drops.now) x → frames < x.frame }
{
    for at in from..drops.len() {
        if drops[at].frame as usize > frames {
            return at;
        }
    }
    drops.len()
}

/// Returns the round after another one, after which some offer is left. Its offers are those of as many cycles as a
/// frame can be under way, and one more.
fn next_round(
    domain: &Domain,
    hop_number: u8,
    offers: &[Offer],
    drops: &[Dropped],
    before: Round,
) -> Round
    requires offers { AreOffers domain.now offers.now }
    requires left { before.frames < length offers.now }
    requires after { GoesOnFrom domain.now hop_number offers.now drops.now before }
    requires early { before.cycles ≤ 2 ^ 33 }
    requires rise { AllPairs (λ (a b : ADropped). a.frame < b.frame) drops.now }
    ensures next { IsNextRound domain.now hop_number offers.now drops.now before result }
    ensures more { before.frames < result.frames }
    ensures soon { result.cycles ≤ 2 ^ 33 }
{
    let end = cycle_there(domain, offers, before.frames) + u64::from(hop_number) + 1;
    let frames = index_after(domain, offers, before.frames, end);
    Round {
        cycles: before.cycles.max(end + u64::from(hop_number)),
        frames,
        drops: drops_before(drops, before.drops, frames),
    }
}

/// Returns the rounds of a run over `cycles` cycles in which no frame is under way for more than `hop_number` cycles. All
/// offers of cycles that aren't run are in the last round.
///
/// # Errors
/// `Memory` if an allocation fails.
pub(crate) fn lay_rounds(
    alloc: Global,
    domain: &Domain,
    cycles: u32,
    hop_number: u8,
    offers: &[Offer],
    drops: &[Dropped],
) -> Result<Vec<Round>, Memory>
    requires offers { AreOffers domain.now offers.now }
    requires rise { AllPairs (λ (a b : ADropped). a.frame < b.frame) drops.now }
    requires some { (x : ADropped) → Contains drops.now x → 0 < x.frame }
    requires few { (x : ADropped) → Contains drops.now x → x.frame ≤ length offers.now }
    ensures { IfOk result (λ rounds. AreRounds domain.now hop_number offers.now drops.now rounds.items) }
{
    domain.know();
    let mut rounds = Vec::new(alloc);
    let mut last = no_round();
    while last.frames < offers.len() {
        if cycle_there(domain, offers, last.frames) >= u64::from(cycles) {
            break;
        }
        last = next_round(domain, hop_number, offers, drops, last);
        rounds.push(last)?;
    }
    rounds.push(Round {
        cycles: ALL_CYCLES,
        frames: offers.len(),
        drops: drops.len(),
    })?;
    Ok(rounds)
}
