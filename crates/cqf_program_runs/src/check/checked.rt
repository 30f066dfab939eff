//! Whether all goes well in a run, by its deliveries.
ghost use Rattle.std.specs.Prelude.{◌≡◌, ◌+◌, ◌≤◌, ◌++◌, ◌&&◌, ℕ, [], true, IfOk, List, length, count_by, find, option_copied, string_bytes};
ghost use Rattle.cqf_model.specs.Limits.{most_offers};
ghost use Rattle.cqf_program_runs.specs.Check.Checked.{complaint_line, complaint_of, counts_of, is_bad, is_delivered};
ghost use Rattle.cqf_program_runs.specs.Check.Checked.{is_finished, is_timed, is_under_way, none_come_line, none_offered_line, some_come_line};
ghost use Rattle.cqf_program_runs.specs.Check.Checked.{unfinished_line, well_line};
ghost use Rattle.cqf_program_runs.specs.Check.Counting.{AreCountsBefore};
ghost use Rattle.cqf_program_runs.specs.Deliveries.{fate_of};
ghost use Rattle.cqf_program_runs.specs.declared.check.checked.OfferCounts.{OfferCounts as SomeOffers};
ghost use Rattle.cqf_program_runs.specs.declared.deliveries.delivery.Delivery.{Delivery as ADelivery};

use crate::deliveries::delivery::{Delivery, Fate, Passage, latency};
use cqf_report::reason_name;
use std::alloc::{AllocError, Global};

/// The counts of the offers that a check makes.
#[derive(Clone, Copy, Debug, PartialEq, Eq)]
pub struct OfferCounts {
    /// How many offers there are.
    pub frames: usize,
    /// How many are of cycles that aren't run.
    pub later: usize,
    /// The number of cycles after which a frame of the latest offer has reached its listeners.
    pub enough: u64,
}

/// The counts that a check makes.
#[derive(Clone, Copy, Debug, PartialEq, Eq)]
pub struct CheckCounts {
    pub offers: OfferCounts,
    /// How many deliveries are under way.
    pub under_way: usize,
    /// How many deliveries have arrived, in time if they have a deadline.
    pub delivered: usize,
    /// How many of those have a deadline.
    pub timed: usize,
}

impl Fate {
    /// Returns whether the frame is dropped or late.
    pub fn is_bad(self) -> bool
        ensures { result ≡ is_bad self }
    {
        match self {
            Fate::Late | Fate::Dropped(_) => true,
            Fate::Delivered | Fate::UnderWay => false,
        }
    }
}

impl Passage {
    /// Returns whether the frame goes to a listener and has a deadline.
    fn is_timed(&self) -> bool
        ensures { result ≡ is_timed self.now }
    {
        match self {
            Passage::Dropped(_) => false,
            Passage::Goes(journey) => journey.deadline.is_some(),
        }
    }
}

/// Returns whether a frame is under way.
fn is_under_way(delivery: &Delivery) -> bool
    ensures { result ≡ is_under_way (fate_of delivery.now) }
{
    match delivery.fate() {
        Fate::UnderWay => true,
        Fate::Delivered | Fate::Late | Fate::Dropped(_) => false,
    }
}

/// Returns whether a frame has arrived, in time if it has a deadline.
fn is_delivered(delivery: &Delivery) -> bool
    ensures { result ≡ is_delivered (fate_of delivery.now) }
{
    match delivery.fate() {
        Fate::Delivered => true,
        Fate::UnderWay | Fate::Late | Fate::Dropped(_) => false,
    }
}

/// Returns how many deliveries are under way.
fn count_under_way(deliveries: &[Delivery]) -> usize
    ensures counts { result ≡ count_by (λ delivery. is_under_way (fate_of delivery)) deliveries.now }
    ensures few { result ≤ length deliveries.now }
{
    deliveries
        .iter()
        .filter(|delivery| is_under_way(delivery))
        .count()
}

/// Returns how many deliveries have arrived, in time if they have a deadline.
fn count_delivered(deliveries: &[Delivery]) -> usize
    ensures counts { result ≡ count_by (λ delivery. is_delivered (fate_of delivery)) deliveries.now }
    ensures few { result ≤ length deliveries.now }
{
    deliveries
        .iter()
        .filter(|delivery| is_delivered(delivery))
        .count()
}

/// Returns how many deliveries have a deadline and have arrived within it.
fn count_timed(deliveries: &[Delivery]) -> usize
    ensures counts { result ≡ count_by (λ delivery. is_delivered (fate_of delivery) && is_timed delivery.passage) deliveries.now }
    ensures few { result ≤ length deliveries.now }
{
    deliveries
        .iter()
        .filter(|delivery| is_delivered(delivery) && delivery.passage.is_timed())
        .count()
}

/// Returns the counts of no deliveries, together with those of the offers.
pub(crate) fn no_counts(offers: OfferCounts) -> CheckCounts
    ensures { result ≡ counts_of offers [] }
{
    CheckCounts {
        offers,
        under_way: 0,
        delivered: 0,
        timed: 0,
    }
}

impl CheckCounts {
    /// Adds the deliveries of one offer, at most 200, to the counts.
    pub(crate) fn with(self, here: &[Delivery]) -> CheckCounts
        requires few { length here.now ≤ 200 }
        requires early { AreCountsBefore most_offers self }
        ensures counts { (offers : SomeOffers) (done : List ADelivery) → self ≡ counts_of offers done →
            result ≡ counts_of offers (done ++ here.now) }
        ensures more { (index : ℕ) → AreCountsBefore index self → AreCountsBefore (index + 1) result }
    {
        CheckCounts {
            offers: self.offers,
            under_way: self.under_way + count_under_way(here),
            delivered: self.delivered + count_delivered(here),
            timed: self.timed + count_timed(here),
        }
    }

    /// Returns whether all offers are of cycles that are run, and no delivery is under way.
    pub fn is_finished(self) -> bool
        ensures { result ≡ is_finished self }
    {
        self.under_way == 0 && self.offers.later == 0
    }
}

/// Returns the first delivery that is dropped or late.
pub fn first_bad(deliveries: &[Delivery]) -> Option<&Delivery>
    ensures { option_copied result ≡ find (λ delivery. is_bad (fate_of delivery)) deliveries.now }
{
    deliveries.iter().find(|delivery| delivery.fate().is_bad())
}

/// Returns what a check says of a delivery that is dropped or late.
fn complaint_of(alloc: Global, delivery: &Delivery) -> Result<String, AllocError>
    requires { is_bad (fate_of delivery.now) ≡ true }
    ensures { IfOk result (λ text. string_bytes text ≡ complaint_of delivery.now.at.0 delivery.now.passage) }
{
    match &delivery.passage {
        Passage::Dropped(reason) => {
            let reason = reason_name(*reason);
            let text = format!(in alloc; "dropped, {reason}")?;
            Ok(text)
        }
        Passage::Goes(journey) => {
            let (Some(whole), Some(deadline)) = (journey.whole, journey.deadline) else {
                unreachable!();
            };
            let (listener, latency) = (&journey.listener, latency(delivery.at, whole));
            let text = format!(in alloc;
                "late at {listener}, {latency} after its offer, deadline {deadline}"
            )?;
            Ok(text)
        }
    }
}

/// Returns the line about a delivery that is dropped or late.
///
/// # Errors
/// `AllocError` if an allocation fails.
pub fn complaint_about(alloc: Global, delivery: &Delivery) -> Result<String, AllocError>
    requires { is_bad (fate_of delivery.now) ≡ true }
    ensures { IfOk result (λ line. string_bytes line ≡ complaint_line delivery.now) }
{
    let text = complaint_of(alloc, delivery)?;
    let complaint = text.as_str();
    let (frame, stream) = (delivery.frame, &delivery.stream);
    let (bridge, at) = (&delivery.bridge, delivery.at.0);
    let line = format!(in alloc;
        "cqf: check: frame {frame} of {stream}, offered to {bridge} at {at}: {complaint}\n"
    )?;
    Ok(line)
}

/// Returns the line that says that nothing is offered.
///
/// # Errors
/// `AllocError` if an allocation fails.
pub fn none_offered_line(alloc: Global) -> Result<String, AllocError>
    ensures { IfOk result (λ line. string_bytes line ≡ none_offered_line) }
{
    let line = format!(in alloc; "cqf: check: no frame is offered\n")?;
    Ok(line)
}

/// Returns the line that says that nothing has arrived, and how many cycles would be enough.
fn none_come_line(alloc: Global, counts: CheckCounts) -> Result<String, AllocError>
    ensures { IfOk result (λ line. string_bytes line ≡ none_come_line counts) }
{
    let enough = counts.offers.enough;
    let line = format!(in alloc; "cqf: check: no frame; {enough} cycles would do\n")?;
    Ok(line)
}

/// Returns the line that says that some deliveries are under way or some offers aren't run.
fn some_come_line(alloc: Global, counts: CheckCounts) -> Result<String, AllocError>
    ensures { IfOk result (λ line. string_bytes line ≡ some_come_line counts) }
{
    let (under_way, later) = (counts.under_way, counts.offers.later);
    let line = format!(in alloc;
        "cqf: check: unfinished, under way {under_way}, not run {later}\n"
    )?;
    Ok(line)
}

/// Returns the line for a check that isn't finished: that nothing has arrived, or how much is missing.
///
/// # Errors
/// `AllocError` if an allocation fails.
pub fn unfinished_line(alloc: Global, counts: CheckCounts) -> Result<String, AllocError>
    ensures { IfOk result (λ line. string_bytes line ≡ unfinished_line counts) }
{
    if counts.delivered == 0 {
        none_come_line(alloc, counts)
    } else {
        some_come_line(alloc, counts)
    }
}

/// Returns the line that says that all is well.
///
/// # Errors
/// `AllocError` if an allocation fails.
pub fn well_line(alloc: Global, counts: CheckCounts) -> Result<String, AllocError>
    ensures { IfOk result (λ line. string_bytes line ≡ well_line counts) }
{
    let (frames, delivered, timed) = (counts.offers.frames, counts.delivered, counts.timed);
    let line = format!(in alloc;
        "ok: {frames} frames, {delivered} deliveries, {timed} with a deadline\n"
    )?;
    Ok(line)
}
