//! Counts of how frames on a path to a listener end.
ghost use Rattle.std.specs.Prelude.{ℕ, ◌≡◌, ◌+◌, ◌≤◌, ◌<◌, Some, count_by, if◌then◌else◌, length};
ghost use Rattle.cqf_program_runs.specs.Deliveries.{fate_of};
ghost use Rattle.cqf_program_summary.specs.Summary.Counting.{TakenWithin, TallyWithin, counted, taken_more, taken_with, tally_with};
ghost use Rattle.cqf_program_summary.specs.Summary.Tallies.{is_dropped, mean_of, no_tally};

use cqf_program_runs::{Delivery, Fate, latency};
use cqf_units::Nanos;

/// The latencies of the frames that arrived, at least one, in nanoseconds from a frame's offer until it is whole.
#[derive(Clone, Copy, Debug, PartialEq, Eq)]
pub struct LatencySummary {
    pub least: u64,
    pub most: u64,
    /// The sum of all of them. It has room for some 3,372,000,000 latencies.
    pub total: u128,
    /// The number of frames that arrived after the first.
    pub following: u32,
}

/// How deliveries to a listener end.
#[derive(Clone, Copy, Debug, PartialEq, Eq)]
pub struct Tally {
    /// Those that are whole there, in time or without a deadline.
    pub delivered: u32,
    /// Those that are whole there after their deadline.
    pub late: u32,
    /// Those that don't start on their last link within the run.
    pub under_way: u32,
    /// The latencies of those that are whole there, late ones too; `None` if there are none.
    pub taken: Option<LatencySummary>,
}

/// Adds a latency.
fn taken_more(taken: Option<LatencySummary>, latency: u64) -> LatencySummary
    requires { TakenWithin 3372220214 taken }
    ensures taken { result ≡ taken_more latency taken }
    ensures more { (many : ℕ) → TakenWithin many taken → TakenWithin (many + 1) (Some result) }
{
    match taken {
        Some(taken) => LatencySummary {
            least: taken.least.min(latency),
            most: taken.most.max(latency),
            total: taken.total + u128::from(latency),
            following: taken.following + 1,
        },
        None => LatencySummary {
            least: latency,
            most: latency,
            total: u128::from(latency),
            following: 0,
        },
    }
}

/// Adds the latency of a frame, if it is whole.
fn taken_with(
    taken: Option<LatencySummary>,
    at: Nanos,
    whole: Option<Nanos>,
) -> Option<LatencySummary>
    requires { TakenWithin 3372220214 taken }
    ensures taken { result ≡ taken_with at.0 whole taken }
    ensures more { (many : ℕ) → TakenWithin many taken → TakenWithin (many + 1) result }
{
    match whole {
        Some(whole) => Some(taken_more(taken, latency(at, whole))),
        None => taken,
    }
}

impl LatencySummary {
    /// Returns the mean, rounded down.
    pub fn mean(self) -> u128
        ensures { result ≡ mean_of self }
    {
        self.total / (u128::from(self.following) + 1)
    }
}

impl Tally {
    /// Returns the tally of no deliveries.
    pub(crate) fn none() -> Tally
        ensures { result ≡ no_tally }
    {
        Tally {
            delivered: 0,
            late: 0,
            under_way: 0,
            taken: None,
        }
    }

    /// Counts how one more delivery ends.
    fn counted(self, ending: Fate) -> Tally
        requires { TallyWithin 3372220214 self }
        ensures { result ≡ counted ending self }
    {
        match ending {
            Fate::Delivered => Tally {
                delivered: self.delivered + 1,
                ..self
            },
            Fate::Late => Tally {
                late: self.late + 1,
                ..self
            },
            Fate::UnderWay => Tally {
                under_way: self.under_way + 1,
                ..self
            },
            Fate::Dropped(_) => self,
        }
    }

    /// Adds a delivery of a frame that is offered at an instant and, if `whole` is given, whole at that one.
    pub(crate) fn with(self, ending: Fate, at: Nanos, whole: Option<Nanos>) -> Tally
        requires { TallyWithin 3372220214 self }
        ensures tally { result ≡ tally_with ending at.0 whole self }
        ensures more { (many : ℕ) → TallyWithin many self → TallyWithin (many + 1) result }
    {
        let counted = self.counted(ending);
        Tally {
            taken: taken_with(counted.taken, at, whole),
            ..counted
        }
    }
}

/// Returns whether a delivery is a drop.
fn is_dropped(delivery: &Delivery) -> bool
    ensures { result ≡ is_dropped (fate_of delivery.now) }
{
    match delivery.fate() {
        Fate::Dropped(_) => true,
        Fate::Delivered | Fate::Late | Fate::UnderWay => false,
    }
}

/// Returns how many drops a delivery is: one or none.
pub(crate) fn drops_of(delivery: &Delivery) -> u32
    ensures drops { result ≡ (if is_dropped (fate_of delivery.now) then 1 else 0) }
    ensures one { result ≤ 1 }
{
    if is_dropped(delivery) { 1 } else { 0 }
}

/// Returns how many deliveries are drops.
pub(crate) fn count_dropped(deliveries: &[Delivery]) -> usize
    ensures counts { result ≡ count_by (λ x. is_dropped (fate_of x)) deliveries.now }
    ensures few { result ≤ length deliveries.now }
{
    deliveries
        .iter()
        .filter(|delivery| is_dropped(delivery))
        .count()
}
