//! The phase in which a stream makes its links least full.
ghost use Rattle.std.specs.Prelude.{◌≡◌, ◌+◌, ◌<◌, ◌≤◌, All, insert, length};
ghost use Rattle.arrayvec.specs.ArrayVec.{array_vec_len};
ghost use Rattle.cqf_admission.specs.Branches.{branches_of};
ghost use Rattle.cqf_admission.specs.ActiveCycles.{IsGoodPace};
ghost use Rattle.cqf_model.specs.declared.topology.Hop.{Hop as AHop};
ghost use Rattle.cqf_model.specs.History.{held_in, seals};
ghost use Rattle.cqf_program_placing.specs.Known.{IsBranched};
ghost use Rattle.cqf_program_placing.specs.ActiveCycles.{AreGoodActiveCycles, CostsSome, IsGoodEvery, IsLeastLoaded, IsPhaseAlong, are_less, is_less_full, loads_down, loads_with, put_down, share_at};

use crate::active_cycles::ActiveCycles;
use crate::branched::Branched;
use crate::rooms::pace_by;
use arrayvec::ArrayVec;
use cqf_admission::{Admission, budget_on};
use cqf_model::{Hop, Pace};
use cqf_topology::Domain;

/// How much of a link's budget is held, in octets per cycle.
#[derive(Clone, Copy, Debug, Default)]
pub(crate) struct BudgetShare {
    held: u64,
    budget: u32,
}

/// The shares of a tree's links, in descending order.
type Loads = ArrayVec<BudgetShare, 200>;

/// Returns whether a share is less than another.
fn is_less_full(share: BudgetShare, other: BudgetShare) -> bool
    ensures { result ≡ is_less_full share other }
{
    let ours = u128::from(share.held) * u128::from(other.budget);
    let theirs = u128::from(other.held) * u128::from(share.budget);
    ours < theirs
}

/// Returns the share of a hop's link that is held in the cycles of a pace, with what a stream costs in addition.
fn share_at(domain: &Domain, admission: &Admission, cost: u32, pace: Pace, hop: &Hop) -> BudgetShare
    requires domain { admission.now.domain ≡ domain.now }
    requires inside { hop.now.link < length domain.now.links }
    requires good { IsGoodPace pace }
    ensures { result ≡ share_at domain.now (held_in domain.now admission.now.entries (seals admission.now.entries)) cost pace hop.now }
{
    let most = budget_on(domain, hop.link).0;
    let left = admission.left_at(hop, pace).0;
    BudgetShare {
        held: u64::from(most - left) + u64::from(cost),
        budget: most,
    }
}

/// Returns the index of a share among others that are in descending order: after those that are no less.
fn index_of(share: BudgetShare, loads: &[BudgetShare]) -> usize
    ensures inside { result ≤ length loads.now }
    ensures value { insert loads.now result share ≡ put_down share loads.now }
{
    for index in 0..loads.len() {
        if is_less_full(loads[index], share) {
            return index;
        }
    }
    loads.len()
}

/// Puts a share among others that are in descending order.
fn put_down(share: BudgetShare, loads: &mut Loads)
    requires { array_vec_len loads.old < 200 }
    ensures items { loads.new.items ≡ put_down share loads.old.items }
    ensures len { array_vec_len loads.new ≡ array_vec_len loads.old + 1 }
{
    let index = index_of(share, loads.as_slice());
    loads.insert(index, share);
}

/// Returns the loads of a tree in the cycles of a pace, with what a stream costs in addition: how full its hops' links are, in descending
/// order.
fn loads_at(domain: &Domain, admission: &Admission, cost: u32, pace: Pace, tree: &[Hop]) -> Loads
    requires domain { admission.now.domain ≡ domain.now }
    requires inside { All (λ (hop : AHop). hop.link < length domain.now.links) tree.now }
    requires good { IsGoodPace pace }
    requires few { length tree.now ≤ 200 }
    ensures { let d = domain.now in let entries = admission.now.entries in
        result.items ≡ loads_down (share_at d (held_in d entries (seals entries)) cost pace) tree.now }
{
    let mut loads = Loads::new();
    for hop in tree {
        put_down(share_at(domain, admission, cost, pace, hop), &mut loads);
    }
    loads
}

/// Returns whether loads are less than others: the first two that differ are, or none differ and they are fewer.
fn are_less(loads: &[BudgetShare], others: &[BudgetShare]) -> bool
    ensures { result ≡ are_less loads.now others.now }
{
    for index in 0..others.len() {
        if index == loads.len() {
            return true;
        }
        if is_less_full(loads[index], others[index]) {
            return true;
        }
        if is_less_full(others[index], loads[index]) {
            return false;
        }
    }
    false
}

/// Returns the first phase below `every` in which the loads of a tree are the least.
fn least_loaded(domain: &Domain, admission: &Admission, cost: u32, every: u8, tree: &[Hop]) -> u8
    requires domain { admission.now.domain ≡ domain.now }
    requires inside { All (λ (hop : AHop). hop.link < length domain.now.links) tree.now }
    requires good { IsGoodEvery every }
    requires some { 1 ≤ cost }
    requires few { length tree.now ≤ 200 }
    ensures { let d = domain.now in let entries = admission.now.entries in
        IsLeastLoaded (loads_with d (held_in d entries (seals entries)) cost every tree.now) every result }
{
    let mut first = 0;
    let mut least = loads_at(domain, admission, cost, pace_by(every, 0), tree);
    for phase in 1..every {
        let loads = loads_at(domain, admission, cost, pace_by(every, phase), tree);
        if are_less(loads.as_slice(), least.as_slice()) {
            first = phase;
            least = loads;
        }
    }
    first
}

/// Returns the phase of a stream along some branches: the given one; or, if the phase is to be chosen, the first in which the loads of their
/// tree are the least, and 0 if they make no tree.
pub(crate) fn phase_along(
    domain: &Domain,
    admission: &Admission,
    cost: u32,
    active_cycles: ActiveCycles,
    branched: &Branched,
) -> u8
    requires domain { admission.now.domain ≡ domain.now }
    requires good { AreGoodActiveCycles active_cycles }
    requires some { CostsSome active_cycles cost }
    requires tree { IsBranched domain.now branched.now }
    ensures { let d = domain.now in let entries = admission.now.entries in
        IsPhaseAlong d (held_in d entries (seals entries)) cost (branches_of branched.now.paths.items) active_cycles result }
{
    match active_cycles {
        ActiveCycles::Given { phase, .. } => phase,
        ActiveCycles::Chosen { every } => match &branched.tree {
            Some(tree) => least_loaded(domain, admission, cost, every, tree.as_slice()),
            None => 0,
        },
    }
}
