//! What the streams of a table's rows cost of each link.
ghost use Rattle.std.specs.Prelude.{ℕ, ◌≡◌, ◌<◌, ◌∷◌, [], Contains, IfOk, length};
ghost use Rattle.cqf_admission.specs.Costs.{most_cost};
ghost use Rattle.cqf_admission.specs.Rows.{IsCountable};
ghost use Rattle.cqf_admission.specs.ActiveCycles.{AreOfGoodPaces, IsOfGoodPace};
ghost use Rattle.cqf_laws_history.specs.StateLaws.{AreHeld};
ghost use Rattle.cqf_lists.specs.Lists.{each_below};
ghost use Rattle.cqf_model.specs.History.{most_beside};
ghost use Rattle.cqf_program_plans.specs.Latency.Output.{AreCostsOf, AreCountable};

use crate::row_costs::add_cost;
use cqf_admission::CycleSums;
use cqf_model::{Hop, Row};
use cqf_topology::Domain;
use cqf_units::Memory;
use std::alloc::Global;
use std::marker::Model;

/// The rows of a domain's table, and what their streams cost of each link in each cycle, in octets.
#[derive(Drop)]
pub(crate) struct Costs<'r> {
    domain: &'r Domain,
    rows: &'r [Row],
    costs: CycleSums,
}

impl<'r> Model for Costs<'r> {
    ghost use Rattle.cqf_program_plans.specs.Latency.Output.{AreCosts, DomainTable};

    ghost Value = { DomainTable };

    ghost view = { λ c. record { domain = c.domain.now; rows = c.rows.now } };

    ghost invariant = { λ c. AreCosts c.domain.now c.rows.now c.costs };
}

/// Returns what the rows' streams cost of each link in each cycle.
fn costs_of(alloc: Global, domain: &Domain, rows: &[Row]) -> Result<CycleSums, Memory>
    requires held { (next : ℕ) × AreHeld domain.now rows.now next 0 }
    requires good { AreOfGoodPaces rows.now }
    ensures { IfOk result (λ costs. AreCostsOf (length domain.now.links) rows.now costs) }
{
    domain.know();
    let mut costs = CycleSums::new(alloc, domain.links())?;
    for row in rows {
        add_cost(&mut costs, row);
    }
    Ok(costs)
}

/// Returns what the streams of these rows of a table of the domain cost of each link at most in a cycle, in octets, by link number.
///
/// # Errors
/// `Memory` if an allocation fails.
pub fn link_costs(alloc: Global, domain: &Domain, rows: &[Row]) -> Result<Vec<u32>, Memory>
    requires held { (next : ℕ) × AreHeld domain.now rows.now next 0 }
    requires good { AreOfGoodPaces rows.now }
    ensures { IfOk result (λ costs. costs.items ≡ each_below (λ l. most_cost rows.now l ∷ []) (length domain.now.links)) }
{
    // the domain is accepted: its cycle is short
    domain.know();
    let sums = costs_of(alloc, domain, rows)?;
    let mut costs = Vec::new(alloc);
    for link in 0..domain.links() {
        let most = sums.most_of(link);
        prove!(most <= 110_000_000);
        costs.push(most as u32)?;
    }
    Ok(costs)
}

impl<'r> Costs<'r> {
    /// Returns the costs of the streams of these rows of a table of the domain.
    pub(crate) fn new(
        alloc: Global,
        domain: &'r Domain,
        rows: &'r [Row],
    ) -> Result<Costs<'r>, Memory>
        requires held { (next : ℕ) × AreHeld domain.now rows.now next 0 }
        requires good { AreOfGoodPaces rows.now }
        ensures { IfOk result (λ costs. costs ≡ record { domain = domain.now; rows = rows.now }) }
    {
        // the domain is accepted: its cycle is short
        domain.know();
        let costs = costs_of(alloc, domain, rows)?;
        Ok(Costs {
            domain,
            rows,
            costs,
        })
    }

    /// Returns the domain.
    pub(crate) fn domain(&self) -> &Domain
        ensures { result.now ≡ self.now.domain }
    {
        self.domain
    }

    /// Returns the rows of the streams, by number.
    pub(crate) fn rows(&self) -> &[Row]
        ensures rows { result.now ≡ self.now.rows }
        ensures countable { AreCountable (length self.now.domain.links) self.now.rows }
        ensures good { AreOfGoodPaces self.now.rows }
    {
        self.rows
    }

    /// Returns what the streams cost of a hop's link at most, in octets, in the cycles in which the row's frames use the link.
    pub(crate) fn at_hop(&self, row: &Row, hop: &Hop) -> u32
        requires of_tree { Contains row.now.tree.items hop.now }
        requires countable { IsCountable (length self.now.domain.links) row.now }
        requires good { IsOfGoodPace row.now }
        ensures { result ≡ most_beside self.now.rows row.now.tree.items row.now.pace hop.now.link }
    {
        let most = self.costs.most_at(hop, row.pace);
        prove!(most <= 110_000_000);
        most as u32
    }
}
