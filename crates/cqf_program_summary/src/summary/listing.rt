//! The streams of a summary, and their costs on links.
ghost use Rattle.std.specs.Prelude.{◌≡◌, ◌++◌, ◌∷◌, [], false, IfOk, List, map};
ghost use Rattle.cqf_admission.specs.Asking.{asked_paced};
ghost use Rattle.cqf_admission.specs.Rows.{IsSummable};
ghost use Rattle.cqf_admission.specs.ActiveCycles.{AreMoreIn};
ghost use Rattle.cqf_model.specs.Domain.{Domain as ADomain};
ghost use Rattle.cqf_model.specs.History.{Asked};
ghost use Rattle.cqf_model.specs.Limits.{most_links};
ghost use Rattle.cqf_topology.specs.DomainText.{is_among};
ghost use Rattle.cqf_units.specs.Timing.{cost_of};
ghost use Rattle.cqf_program_summary.specs.Summary.Listing.{AreBounded, CostsWith, IsListing, ListsOne, MayBeSummed};
ghost use Rattle.cqf_program_summary.specs.Summary.Written.{row_of_stream};

use cqf_admission::{CycleSums, count_indices, judge_paced};
use cqf_model::{MOST_LINKS, Row};
use cqf_program_plans::add_cost;
use cqf_topology::{Domain, NameList, PacedRequest};
use cqf_units::{Cycle, Memory, Name};
use std::alloc::{AllocError, Global};

/// The most streams that are listed; no memory has room for this number.
const MOST_LISTED: usize = 1 << 29;

/// A stream of the summary.
#[derive(Drop)]
pub(crate) struct ListedStream {
    pub(crate) name: Name,
    /// Its row, as if it were the first of all; none if its octets, pace or path are refused.
    pub(crate) row: Option<Row>,
}

/// The streams of a summary, of each name the first, and what those with a row cost of each link in each cycle, whether
/// or not they fit.
#[derive(Drop)]
pub(crate) struct SummaryListing {
    /// Their names, in order.
    pub(crate) names: NameList,
    pub(crate) streams: Vec<ListedStream>,
    /// In octets, by link and cycle.
    pub(crate) costs: CycleSums,
}

/// Adds what a row's stream costs to the costs of its links in its cycles.
fn add(costs: &mut CycleSums, row: &Row)
    requires summable { IsSummable most_links row.now }
    requires all { costs.old.links ≡ most_links }
    requires bounded { AreBounded costs.old }
    ensures { AreMoreIn costs.old row.now.tree.items row.now.pace (cost_of row.now.overhead row.now.octets) costs.new }
{
    add_cost(costs, row);
}

/// Adds what a stream costs, by link and cycle; nothing if it has no row.
fn costs_with(costs: CycleSums, row: &Option<Row>) -> CycleSums
    requires summable { MayBeSummed row.now }
    requires all { costs.links ≡ most_links }
    requires bounded { AreBounded costs }
    ensures { CostsWith costs row.now result }
{
    let mut costs = costs;
    if let Some(row) = row {
        add(&mut costs, row);
    }
    costs
}

/// Returns the row of a request, as if it were the first of all; `None` if its octets, pace or path are refused.
fn row_of_request(
    alloc: Global,
    domain: &Domain,
    request: &PacedRequest,
) -> Result<Option<Row>, Memory>
    ensures row { IfOk result (λ row. row ≡ row_of_stream domain.now (asked_paced request.now)) }
    ensures summable { IfOk result MayBeSummed }
{
    // the domain is accepted: it has no more links than can be represented
    domain.know();
    if count_indices(request.paths.as_slice()).is_none() {
        return Err(AllocError);
    }
    match judge_paced(domain, request) {
        Ok(judged) => Ok(Some(judged.into_row(alloc, request.octets, 0, Cycle(0))?)),
        Err(_) => Ok(None),
    }
}

impl SummaryListing {
    /// Returns an empty listing. Returns `Memory` if an allocation fails.
    fn new(alloc: Global) -> Result<SummaryListing, Memory>
        ensures { IfOk result (λ listing. (d : ADomain) → IsListing d [] listing) }
    {
        let costs = CycleSums::new(alloc, MOST_LINKS as u16)?;
        Ok(SummaryListing {
            names: NameList::new(alloc),
            streams: Vec::new(alloc),
            costs,
        })
    }

    /// Appends a stream with a name that isn't listed.
    fn push(self, name: Name, row: Option<Row>) -> Result<SummaryListing, Memory>
        requires free { is_among name self.names.keys ≡ false }
        requires summable { MayBeSummed row }
        requires all { self.costs.links ≡ most_links }
        requires bounded { AreBounded self.costs }
        ensures { IfOk result (ListsOne self name row) }
    {
        let SummaryListing {
            names,
            streams,
            costs,
        } = self;
        let (mut names, mut streams) = (names, streams);
        let costs = costs_with(costs, &row);
        names.add(&name)?;
        streams.push(ListedStream { name, row })?;
        Ok(SummaryListing {
            names,
            streams,
            costs,
        })
    }

    /// Appends the stream of a request, if the summary has it. No memory has room for [`MOST_LISTED`] streams.
    fn with(
        self,
        alloc: Global,
        domain: &Domain,
        request: &PacedRequest,
    ) -> Result<SummaryListing, Memory>
        requires { (before : List Asked) × IsListing domain.now before self }
        ensures { IfOk result (λ after. (before : List Asked) → IsListing domain.now before self →
            IsListing domain.now (before ++ asked_paced request.now ∷ []) after) }
    {
        let Some(name) = Name::new(request.name.as_bytes()) else {
            return Ok(self);
        };
        if self.names.contains(&name) {
            return Ok(self);
        }
        if self.names.len() >= MOST_LISTED {
            return Err(AllocError);
        }
        let row = row_of_request(alloc, domain, request)?;
        let after = self.push(name, row)?;
        Ok(after)
    }
}

/// Returns the listing of those of the requests' streams that a summary has.
pub(crate) fn list_streams(
    alloc: Global,
    domain: &Domain,
    requests: &[PacedRequest],
) -> Result<SummaryListing, Memory>
    ensures { IfOk result (IsListing domain.now (map asked_paced requests.now)) }
{
    let mut listing = SummaryListing::new(alloc)?;
    for request in requests {
        listing = listing.with(alloc, domain, request)?;
    }
    Ok(listing)
}
