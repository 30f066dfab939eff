//! The counts of all streams, found by name.
ghost use Rattle.std.specs.Prelude.{ℕ, ◌≡◌, ◌≤◌, ◌+◌, [], All, IfOk, length, map};
ghost use Rattle.cqf_admission.specs.Asking.{asked_paced};
ghost use Rattle.cqf_model.specs.Limits.{most_links};
ghost use Rattle.cqf_program_runs.specs.Deliveries.Deadlines.{deadline_in};
ghost use Rattle.cqf_program_summary.specs.Summary.Counting.{SummaryWithin, summary_with};
ghost use Rattle.cqf_program_summary.specs.Summary.Listing.{AreBounded, IsOfStream, fare_named};
ghost use Rattle.cqf_program_summary.specs.Summary.{summary_by};
ghost use Rattle.cqf_program_summary.specs.Summary.Written.{written_streams};

use crate::summary::fares::{Fares, Others};
use crate::summary::listing::{ListedStream, SummaryListing, list_streams};
use cqf_admission::CycleSums;
use cqf_program_runs::{Deadlines, Delivery};
use cqf_topology::{Domain, NameList, PacedRequest};
use cqf_units::{Memory, Name};
use std::alloc::Global;
use std::marker::Model;

/// The counts of each stream of the summary, and of the offers of other names.
#[derive(Drop)]
pub(crate) struct StreamSums {
    names: NameList,
    fares: Vec<Fares>,
    others: Others,
}

impl Model for StreamSums {
    ghost use Rattle.std.specs.Prelude.{◌≡◌, map};
    ghost use Rattle.cqf_program_summary.specs.Summary.{Summary};

    ghost Value = { Summary };

    ghost view = { λ s. record { fares = s.fares.items; others = s.others } };

    ghost invariant = { λ s. s.names.keys ≡ map (λ fare. fare.name) s.fares.items };
}

/// Returns the counts of listed streams with these deadlines before anything is offered.
fn fares_of(
    alloc: Global,
    domain: &Domain,
    costs: &CycleSums,
    streams: &[ListedStream],
    deadlines: &Deadlines<'_>,
) -> Result<Vec<Fares>, Memory>
    requires bounded { AreBounded costs.now }
    requires all { costs.now.links ≡ most_links }
    requires listed { All (IsOfStream domain.now) streams.now }
    ensures { IfOk result (λ fares. fares.items ≡ map (fare_named domain.now costs.now (deadline_in deadlines.now)) streams.now) }
{
    let mut fares = Vec::with_capacity(alloc, streams.len())?;
    for listed in streams {
        let deadline = deadlines.of(&listed.name);
        fares.push(Fares::new(alloc, domain, costs, listed, deadline)?)?;
    }
    Ok(fares)
}

impl StreamSums {
    /// Returns the counts of the requests' streams with these deadlines before anything is offered.
    pub(crate) fn new(
        alloc: Global,
        domain: &Domain,
        requests: &[PacedRequest],
        deadlines: &[Option<u32>],
    ) -> Result<StreamSums, Memory>
        ensures { let due = deadline_in (record { requests = requests.now; deadlines = deadlines.now }) in
            IfOk result (λ sums. sums ≡ summary_by domain.now (written_streams (map asked_paced requests.now)) due [] []) }
    {
        // the domain is accepted: it has no more links than can be represented
        domain.know();
        let listing = list_streams(alloc, domain, requests)?;
        let due = Deadlines::new(alloc, requests, deadlines)?;
        let fares = fares_of(
            alloc,
            domain,
            &listing.costs,
            listing.streams.as_slice(),
            &due,
        )?;
        let SummaryListing { names, .. } = listing;
        Ok(StreamSums {
            names,
            fares,
            others: Others {
                offered: 0,
                dropped: 0,
            },
        })
    }

    /// Adds an offer of a name, with its deliveries, at most 200, in a time that grows with the logarithm of the number
    /// of streams.
    pub(crate) fn add(&mut self, name: &Name, here: &[Delivery])
        requires few { length here.now ≤ 200 }
        requires within { SummaryWithin 3372220014 self.old }
        ensures sums { self.new ≡ summary_with name.now here.now self.old }
        ensures more { (many : ℕ) → SummaryWithin many self.old → SummaryWithin (many + 201) self.new }
    {
        match self.names.number_of(name) {
            Some(index) => self.fares[index].add_offer(here),
            None => self.others = self.others.with(here),
        }
    }

    /// Returns the counts of each stream, in order.
    pub(crate) fn fares(&self) -> &[Fares]
        ensures { result.now ≡ self.now.fares }
    {
        self.fares.as_slice()
    }

    /// Returns the counts of the offers of other names.
    pub(crate) fn others(&self) -> Others
        ensures { result ≡ self.now.others }
    {
        self.others
    }
}
