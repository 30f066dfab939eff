//! How much of the links' budgets is held.
ghost use Rattle.std.specs.Prelude.{ℕ, ◌≡◌, ◌<◌, IfOk, fold, length, slice_index};
ghost use Rattle.cqf_admission.specs.ActiveCycles.{AreOfGoodPaces};
ghost use Rattle.cqf_lists.specs.Lists.{each_below};
ghost use Rattle.cqf_laws_history.specs.StateLaws.{AreHeld};
ghost use Rattle.cqf_model.specs.Domain.{budget};
ghost use Rattle.cqf_program_planning.specs.Judging.{greatest_of, larger, share_of, shares_of};

use cqf_admission::budget_on;
use cqf_model::Row;
use cqf_program_plans::link_costs;
use cqf_topology::Domain;
use cqf_units::Memory;
use std::alloc::Global;

/// Returns the greater of a share and that of a budget that is held, in thousandths, rounded down. A budget of 0 has none.
fn with_share(most: Option<u64>, budget: u32, held: u32) -> Option<u64>
    ensures { result ≡ fold larger most (share_of budget held) }
{
    if budget == 0 {
        return most;
    }
    let share = 1000 * u64::from(held) / u64::from(budget);
    match most {
        Some(greatest) => Some(greatest.max(share)),
        None => Some(share),
    }
}

/// Returns the greatest share of a link's budget that is held, in thousandths, rounded down, if these octets are held of the links, by
/// number.
fn greatest_by(domain: &Domain, held: &[u32]) -> Option<u64>
    requires { length held.now ≡ length domain.now.links }
    ensures { result ≡ greatest_of (each_below (λ l. share_of (budget domain.now l) (slice_index held.now l)) (length domain.now.links)) }
{
    let mut most = None;
    for link in 0..domain.links() {
        most = with_share(most, budget_on(domain, link).0, held[usize::from(link)]);
    }
    most
}

/// Returns the greatest share of a link's budget that the streams of these rows hold in a cycle, in thousandths, rounded down; none if no
/// link has a budget.
pub(crate) fn greatest_share(
    alloc: Global,
    domain: &Domain,
    rows: &[Row],
) -> Result<Option<u64>, Memory>
    requires held { (next : ℕ) × AreHeld domain.now rows.now next 0 }
    requires good { AreOfGoodPaces rows.now }
    ensures { IfOk result (λ used. used ≡ greatest_of (shares_of domain.now rows.now)) }
{
    let held = link_costs(alloc, domain, rows)?;
    Ok(greatest_by(domain, held.as_slice()))
}
