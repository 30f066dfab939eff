//! The gate lists of a domain.
ghost use Rattle.std.specs.Prelude.{◌≡◌, ◌<◌, IfOk, length};
ghost use Rattle.cqf_model.specs.Domain.{IsAccepted};
ghost use Rattle.cqf_model.specs.Network.{compiled_lists};

use crate::gates::port_list_of;
use cqf_gates::TxList;
use cqf_topology::Domain;
use cqf_units::Memory;
use std::alloc::Global;
use std::marker::Model;

/// A domain with the gate list of the port of each of its links. To its users it is its domain, since that determines
/// the lists.
#[derive(Debug, Drop)]
pub struct Plan {
    domain: Domain,
    /// One list for each link, by number.
    lists: Vec<TxList>,
}

impl Model for Plan {
    ghost use Rattle.cqf_model.specs.Domain.{Domain as DomainValue};
    ghost use Rattle.cqf_compile.specs.Plan.{IsPlan};

    ghost Value = { DomainValue };

    ghost view = { λ plan. plan.domain };

    ghost invariant = { λ plan. IsPlan plan.domain plan.lists.items };
}

impl Plan {
    /// Does nothing. It lets a proof use what was checked when the plan's domain was read: it is accepted.
    pub fn know(&self)
        ensures accepted { IsAccepted self.now }
    {
        // a use of a field makes the invariant known
        let _ = &self.domain;
    }

    /// Returns the domain from which the plan was compiled. It is accepted.
    pub fn domain(&self) -> &Domain
        ensures value { result.now ≡ self.now }
        ensures accepted { IsAccepted self.now }
    {
        &self.domain
    }

    /// Returns the gate list of the port of a link of the domain: class 7 is open in even cycles, class 6 in odd ones,
    /// classes 0 to 5 in both, and no class in the link's guard band, which ends each cycle (IEEE 802.1Q, Annex T). The
    /// guard band and the classes are this project's own.
    pub fn list(&self, link: u16) -> &TxList
        requires { link < length self.now.links }
        ensures { result.now ≡ compiled_lists self.now link }
    {
        &self.lists[usize::from(link)]
    }
}

/// Returns the plan of a domain, with a copy of the domain. Returns `Memory` if an allocation fails.
pub fn compile(alloc: Global, domain: &Domain) -> Result<Plan, Memory>
    ensures { IfOk result (λ plan. plan ≡ domain.now) }
{
    domain.know();
    let mut lists = Vec::new(alloc);
    for link in 0..domain.links() {
        lists.push(port_list_of(domain, link))?;
    }
    Ok(Plan {
        domain: domain.try_copy(alloc)?,
        lists,
    })
}
