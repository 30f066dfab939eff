//! The offers of a run, with the positions of their first hops.
ghost use Rattle.std.specs.Prelude.{◌≡◌, IfOk, length};
ghost use Rattle.cqf_instants_run.specs.Entered.{AreEntered, group_for, group_until};

use crate::EdgeVerdict;
use cqf_instants::{Entering, Group};
use cqf_model::Offer;
use cqf_units::{Memory, Nanos};
use std::alloc::Global;

/// No hops.
const NONE: Group = Group { first: 0, many: 0 };

/// Returns the first hops of an offer with this verdict.
fn group_for(groups: &[Group], edge_verdict: EdgeVerdict) -> Group
    ensures { result ≡ group_for groups.now edge_verdict }
{
    match edge_verdict {
        EdgeVerdict::Covered(index) => match groups.get(index) {
            Some(group) => *group,
            None => NONE,
        },
        EdgeVerdict::Dropped(_) => NONE,
    }
}

/// Returns the first hops of an offer with this verdict if it is offered before `end`, and no hops if it is offered later.
fn group_until(end: Nanos, groups: &[Group], offer: &Offer, edge_verdict: EdgeVerdict) -> Group
    ensures { result ≡ group_until end.0 groups.now offer.now edge_verdict }
{
    if offer.at.0 < end.0 {
        group_for(groups, edge_verdict)
    } else {
        NONE
    }
}

/// Returns the offers in order, each with the hops by which it enters. An offer that a row covers has the group at the row's index. An
/// offer that is dropped, or is offered at `end` or later, has no hops. There are as many verdicts as offers. The time grows with the
/// offers.
///
/// # Errors
/// Returns `Memory` if an allocation fails.
pub fn enter_offers(
    alloc: Global,
    end: Nanos,
    offers: &[Offer],
    edge_verdicts: &[EdgeVerdict],
    groups: &[Group],
) -> Result<Vec<Entering>, Memory>
    requires { length edge_verdicts.now ≡ length offers.now }
    ensures { IfOk result (λ entering. AreEntered end.0 offers.now edge_verdicts.now groups.now (length offers.now) entering.items) }
{
    let mut entering = Vec::with_capacity(alloc, offers.len())?;
    for (index, offer) in offers.iter().enumerate() {
        let Group { first, many } = group_until(end, groups, offer, edge_verdicts[index]);
        entering.push(Entering {
            at: offer.at.0,
            octets: offer.octets,
            first,
            many,
        })?;
    }
    Ok(entering)
}
