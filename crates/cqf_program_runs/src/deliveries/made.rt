//! The deliveries of a run that is over, offer by offer.
ghost use Rattle.std.specs.Prelude.{ℕ, ◌≡◌, ◌+◌, ◌-◌, ◌≤◌, ◌<◌, [], Option, Some, None, if◌then◌else◌, length, option_copied};
ghost use Rattle.std.specs.Prelude.{slice_get};
ghost use Rattle.cqf_instants_run.specs.Coverage.{verdict_of};
ghost use Rattle.cqf_program_plans.specs.Latency.Text.{is_station};
ghost use Rattle.cqf_model.specs.declared.frames.Offered.{Offered as AnOffered};
ghost use Rattle.cqf_model.specs.Domain.{end_of};
ghost use Rattle.cqf_model.specs.Shift.{offer_cycle};
ghost use Rattle.cqf_model.specs.Policing.{numbered};
ghost use Rattle.cqf_program_runs.specs.Deliveries.Following.{CanFollow, IsFollowed};
ghost use Rattle.cqf_program_runs.specs.Deliveries.UnderWay.{WritesWhole, row_at, row_judged, whole_in};
ghost use Rattle.cqf_units.specs.declared.timing.Nanos.{Nanos as AnInstant};
ghost use Rattle.cqf_program_runs.specs.Deliveries.ByVerdict.{deliveries_for};
ghost use Rattle.cqf_program_runs.specs.Deliveries.{deliveries_to, delivery_of, delivery_to};
ghost use Rattle.cqf_program_runs.specs.Deliveries.Ending.{deliveries_at, due_of, known_over, over_of};
ghost use Rattle.cqf_program_runs.specs.Deliveries.Deadlines.{deadline_in};
ghost use Rattle.cqf_model.specs.Limits.{most_offers};

use crate::deliveries::delivery::{Delivery, Journey, Passage};
use crate::deliveries::few::Few;
use crate::deliveries::under_way::{UnderWay, whole_in};
use cqf_instants_run::EdgeVerdict;
use cqf_model::{Hop, Offer, Offered, Row};
use cqf_program_plans::listener_at;
use cqf_topology::{Domain, PacedRequest};
use cqf_units::{Nanos, cycle_of};

/// The data from which the deliveries of a run that is over are derived ([`Noted::over`](crate::Noted::over)).
#[derive(Clone, Copy)]
pub struct CompletedRun<'r> {
    pub domain: &'r Domain,
    /// How many cycles were run.
    pub cycles: u32,
    pub offers: &'r [Offer],
    /// The streams that were ever granted, by number.
    pub(crate) rows: &'r [Row],
    /// What becomes of each offer, by its index.
    pub(crate) edge_verdicts: &'r [EdgeVerdict],
    /// The requests of the scenario, and the deadlines of their frames, by the same indexes.
    pub(crate) requests: &'r [PacedRequest],
    pub(crate) deadlines: &'r [Option<u32>],
    /// The deadline of each offer's frame, by its index, as the requests and deadlines give it.
    pub(crate) dues: &'r [Option<u32>],
}

/// Returns the offer at an index, with its number.
fn offered(index: usize, offer: &Offer) -> Offered
    requires { index < most_offers }
    ensures { result ≡ record { frame = index + 1; offer = offer.now } }
{
    Offered {
        frame: index as u32 + 1,
        offer: Offer {
            at: offer.at,
            bridge: offer.bridge,
            stream: offer.stream.copied(),
            octets: offer.octets,
        },
    }
}

/// Returns an offer with what becomes of it.
fn delivery_of(domain: &Domain, x: &Offered, passage: Passage) -> Delivery
    requires { x.now.offer.bridge < length domain.now.bridges }
    ensures { result ≡ delivery_of domain.now x.now passage }
{
    Delivery {
        frame: x.frame,
        stream: x.offer.stream.copied(),
        octets: x.offer.octets,
        at: x.offer.at,
        bridge: domain.bridge_name(x.offer.bridge).copied(),
        passage,
    }
}

/// Returns the delivery to the end of a hop, if there is a listener, of a frame with the given deadline that is whole
/// there at the given instant. A hop by a link that the domain lacks has none.
fn delivery_to(
    domain: &Domain,
    whole: Option<Nanos>,
    deadline: Option<u32>,
    x: &Offered,
    hop: &Hop,
) -> Option<Delivery>
    requires { x.now.offer.bridge < length domain.now.bridges }
    ensures { result ≡ (if is_station (end_of domain.now hop.now.link)
        then Some (delivery_to domain.now (λ _. whole) deadline x.now hop.now) else None) }
{
    if hop.link >= domain.links() {
        return None;
    }
    let journey = Journey {
        listener: listener_at(domain, hop.link)?,
        whole,
        deadline,
    };
    Some(delivery_of(domain, x, Passage::Goes(journey)))
}

/// Puts the deliveries of a frame to the listeners of a row, by what is kept of the frame.
fn put_to_listeners(
    here: &mut Few,
    domain: &Domain,
    slot: &[Option<Nanos>],
    deadline: Option<u32>,
    x: &Offered,
    row: &Row,
)
    requires empty { here.old ≡ [] }
    requires bridge { x.now.offer.bridge < length domain.now.bridges }
    ensures { here.new ≡ deliveries_to domain.now (whole_in domain.now row.now slot.now) deadline x.now row.now }
{
    for hop in row.tree.as_slice() {
        let whole = whole_in(domain, row, slot, hop.link);
        if let Some(delivery) = delivery_to(domain, whole, deadline, x, hop) {
            here.push(delivery);
        }
    }
}

/// Returns the row at an index, if there is one.
fn row_there(rows: &[Row], index: usize) -> Option<&Row>
    ensures { option_copied result ≡ slice_get rows.now index }
{
    rows.get(index)
}

/// Returns the verdict at an index.
fn edge_verdict_there(edge_verdicts: &[EdgeVerdict], index: usize) -> EdgeVerdict
    requires { index < length edge_verdicts.now }
    ensures { slice_get edge_verdicts.now index ≡ Some result }
{
    edge_verdicts[index]
}

/// Puts the deliveries of an offer with this verdict, whose frame has this deadline, by what is kept of the frame.
fn put_judged(
    here: &mut Few,
    ended: &CompletedRun<'_>,
    slot: &[Option<Nanos>],
    deadline: Option<u32>,
    x: &Offered,
    edge_verdict: EdgeVerdict,
)
    requires empty { here.old ≡ [] }
    requires bridge { x.now.offer.bridge < length ended.now.domain.now.bridges }
    requires due { deadline ≡ deadline_in (due_of ended.now) x.now.offer.stream }
    ensures { (whole : ℕ → ℕ → Option AnInstant) →
        WritesWhole ended.now.domain.now (row_judged ended.now.rows.now edge_verdict) slot.now (whole x.now.frame) →
        here.new ≡ deliveries_for ended.now.domain.now (known_over (over_of ended.now whole)) x.now
        (verdict_of ended.now.rows.now (offer_cycle ended.now.domain.now x.now) edge_verdict) }
{
    match edge_verdict {
        EdgeVerdict::Dropped(reason) => {
            here.push(delivery_of(ended.domain, x, Passage::Dropped(reason)));
        }
        EdgeVerdict::Covered(index) => {
            if let Some(row) = row_there(ended.rows, index) {
                put_to_listeners(here, ended.domain, slot, deadline, x, row);
            }
        }
    }
}

/// Puts the deliveries of an offer of this cycle, whose frame has this deadline, by what is kept of the frame. Puts
/// none if its cycle isn't run.
fn put_offer(
    here: &mut Few,
    ended: &CompletedRun<'_>,
    slot: &[Option<Nanos>],
    deadline: Option<u32>,
    x: &Offered,
    cycle: u32,
)
    requires empty { here.old ≡ [] }
    requires bridge { x.now.offer.bridge < length ended.now.domain.now.bridges }
    requires cycle { cycle ≡ offer_cycle ended.now.domain.now x.now }
    requires first { 1 ≤ x.now.frame }
    requires last { x.now.frame ≤ length ended.now.edge_verdicts.now }
    requires due { deadline ≡ deadline_in (due_of ended.now) x.now.offer.stream }
    ensures { (whole : ℕ → ℕ → Option AnInstant) →
        WritesWhole ended.now.domain.now (row_at ended.now.rows.now ended.now.edge_verdicts.now (x.now.frame - 1)) slot.now (whole x.now.frame) →
        here.new ≡ deliveries_at (over_of ended.now whole) x.now }
{
    if cycle >= ended.cycles {
        return;
    }
    let edge_verdict = edge_verdict_there(ended.edge_verdicts, x.frame as usize - 1);
    put_judged(here, ended, slot, deadline, x, edge_verdict);
}

/// Replaces `here` by the deliveries of the offer at an index, from 0; there are none if its cycle isn't run.
/// `under_way` has the frames from this index on, and afterwards those from the next one on. Allocates no memory.
pub fn put_those_of(
    here: &mut Few,
    ended: &CompletedRun<'_>,
    under_way: &mut UnderWay,
    index: usize,
)
    requires followed { CanFollow ended.now index under_way.old }
    requires there { index < length ended.now.offers.now }
    ensures here { (whole : ℕ → ℕ → Option AnInstant) → IsFollowed (over_of ended.now whole) index under_way.old → (x : AnOffered) →
        slice_get (numbered ended.now.offers.now) index ≡ Some x → here.new ≡ deliveries_at (over_of ended.now whole) x }
    ensures next { (whole : ℕ → ℕ → Option AnInstant) → IsFollowed (over_of ended.now whole) index under_way.old →
        IsFollowed (over_of ended.now whole) (index + 1) under_way.new }
{
    here.clear();
    let x = offered(index, &ended.offers[index]);
    let cycle = cycle_of(x.offer.at, ended.domain.cycle_time()).0;
    under_way.write_up_to(
        ended,
        index,
        u64::from(cycle) + u64::from(under_way.hop_number),
    );
    put_offer(here, ended, under_way.first(), ended.dues[index], &x, cycle);
    under_way.go_on();
}
