//! The basis from which the starts of a history's run are computed.
ghost use Rattle.std.specs.Prelude.{◌≡◌, ◌≤◌, IfOk, length};
ghost use Rattle.cqf_model.specs.Run.{AreOffers};
ghost use Rattle.cqf_laws_coverage.specs.Judged.{StandInOrder};
ghost use Rattle.cqf_instants_run.specs.HistoryStarts.{IsBasisOfHistory, SomeHistory};
ghost use Rattle.cqf_model.specs.Limits.{most_offers};

use crate::EdgeVerdict;
use crate::entering::enter_offers;
use crate::laying::lay_streams;
use cqf_instants::Basis;
use cqf_model::{Link, Offer, Row};
use cqf_topology::Domain;
use cqf_units::{Memory, Nanos};
use std::alloc::Global;

/// Returns the links of a domain, by number.
fn links_of(alloc: Global, domain: &Domain) -> Result<Vec<Link>, Memory>
    ensures { IfOk result (λ links. links.items ≡ domain.now.links) }
{
    let mut links = Vec::new(alloc);
    for link in 0..domain.links() {
        links.push(domain.link(link))?;
    }
    Ok(links)
}

/// Lays out a run over the first `cycles` cycles of a domain, all closed by a legal history. The rows are the streams that the history ever
/// granted; their trees are laid. There are at most 16,777,215 offers, in order of instant; they are entered by their verdicts. The starts
/// of the run are computed from the result, and background frames change none of them. The time grows with the hops of the rows and with
/// the offers.
///
/// # Errors
/// Returns `Memory` if an allocation fails.
pub fn lay_run(
    alloc: Global,
    domain: &Domain,
    cycles: u32,
    rows: &[Row],
    offers: &[Offer],
    edge_verdicts: &[EdgeVerdict],
) -> Result<Basis, Memory>
    requires offers { AreOffers domain.now offers.now }
    requires order { StandInOrder offers.now }
    requires few { length offers.now ≤ most_offers }
    requires history { SomeHistory domain.now cycles rows.now offers.now edge_verdicts.now }
    ensures { IfOk result (IsBasisOfHistory domain.now cycles rows.now offers.now edge_verdicts.now) }
{
    cqf_laws_history::tables_are_orderly();
    cqf_laws_coverage::rows_say_the_tables();
    cqf_laws_coverage::offers_are_judged();
    cqf_laws_instants::what_a_cycle_queues();
    let cycle_time = domain.cycle_time();
    let end = Nanos(u64::from(cycles) * cycle_time.0);
    let links = links_of(alloc, domain)?;
    let (branches, groups) = lay_streams(alloc, cycles, rows)?;
    let offers = enter_offers(alloc, end, offers, edge_verdicts, groups.as_slice())?;
    Ok(Basis {
        links,
        cycle_time: cycle_time.0 as u32,
        guard: domain.guard().0 as u32,
        cycles,
        branches,
        offers,
    })
}
