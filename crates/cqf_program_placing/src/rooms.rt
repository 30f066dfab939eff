//! What links have left with the streams that are placed.
ghost use Rattle.std.specs.Prelude.{◌≡◌, ◌<◌, ◌≤◌, [], ◌==◌, All, IfOk, List, length, position};
ghost use Rattle.cqf_model.specs.declared.topology.Hop.{Hop as AHop};
ghost use Rattle.cqf_model.specs.declared.topology.Row.{Row};
ghost use Rattle.cqf_model.specs.History.{held_in, seals};
ghost use Rattle.cqf_model.specs.Table.{links_in};
ghost use Rattle.cqf_program_placing.specs.Known.{AreKnown, AreRenewed, IsFilled, IsKnown, IsKnownAt, TakesNothingOff};
ghost use Rattle.cqf_program_placing.specs.ActiveCycles.{IsGoodEvery, left_emptiest, lefts_on, pace_by};

use cqf_admission::Admission;
use cqf_model::{Hop, Pace};
use cqf_topology::Domain;
use cqf_units::Memory;
use std::alloc::Global;

/// Returns the pace of a stream that is offered in one of `every` cycles from `phase` on.
pub(crate) fn pace_by(every: u8, phase: u8) -> Pace
    requires { 1 ≤ every }
    ensures { result ≡ pace_by every phase }
{
    Pace {
        pause: every - 1,
        phase,
    }
}

/// Returns what a link has left with the streams that are placed, in octets per cycle, in its emptiest phase of `every`.
fn left_on(domain: &Domain, admission: &Admission, link: u16, every: u8) -> u32
    requires domain { admission.now.domain ≡ domain.now }
    requires inside { link < length domain.now.links }
    requires good { IsGoodEvery every }
    ensures { result ≡ left_emptiest domain.now (held_in domain.now admission.now.entries (seals admission.now.entries)) every link }
{
    let hop = Hop {
        link,
        hop_number: 0,
        from: None,
    };
    let mut most: u32 = 0;
    for phase in 0..every {
        let left = admission.left_at(&hop, pace_by(every, phase));
        most = most.max(left.0);
    }
    most
}

/// Returns what each link has left with the streams that are placed, in octets per cycle, in its emptiest phase of `every`, by number.
fn lefts(
    alloc: Global,
    domain: &Domain,
    admission: &Admission,
    every: u8,
) -> Result<Vec<u32>, Memory>
    requires domain { admission.now.domain ≡ domain.now }
    requires good { IsGoodEvery every }
    ensures { IfOk result (λ left. left.items ≡ lefts_on domain.now (held_in domain.now admission.now.entries (seals admission.now.entries)) every) }
{
    let mut left = Vec::new(alloc);
    for link in 0..domain.links() {
        left.push(left_on(domain, admission, link, every))?;
    }
    Ok(left)
}

/// What each link has left in its emptiest phase of `every`, by number.
#[derive(Debug, Drop)]
struct Emptiest {
    every: u8,
    left: Vec<u32>,
}

/// Recomputes what the links of a tree's hops have left.
fn renew_lefts(emptiest: &mut Emptiest, domain: &Domain, admission: &Admission, tree: &[Hop])
    requires domain { admission.now.domain ≡ domain.now }
    requires inside { All (λ (hop : AHop). hop.link < length domain.now.links) tree.now }
    requires filled { IsFilled domain.now emptiest.old }
    ensures every { emptiest.new.every ≡ emptiest.old.every }
    ensures left { let d = domain.now in let entries = admission.now.entries in
        AreRenewed (left_emptiest d (held_in d entries (seals entries)) emptiest.old.every) (links_in tree.now) emptiest.old.left.items emptiest.new.left.items }
{
    for hop in tree {
        let left = left_on(domain, admission, hop.link, emptiest.every);
        emptiest.left[usize::from(hop.link)] = left;
    }
}

/// What each link has left with the streams that are placed, in octets per cycle, in its emptiest phase of `every`, for each `every` that
/// was requested so far. When a stream is placed, only what its links have left is recomputed.
#[derive(Debug, Drop)]
pub(crate) struct Rooms {
    known: Vec<Emptiest>,
}

impl Rooms {
    /// Returns the state in which nothing is known yet. It allocates no memory.
    pub(crate) fn new(alloc: Global) -> Rooms
        ensures { result.known.items ≡ [] }
    {
        Rooms {
            known: Vec::new(alloc),
        }
    }

    /// Returns the index of what links have left in their emptiest phase of `every`, which is computed if it isn't known yet. Returns
    /// `Memory` if an allocation fails.
    pub(crate) fn find(
        &mut self,
        alloc: Global,
        domain: &Domain,
        admission: &Admission,
        every: u8,
    ) -> Result<usize, Memory>
        requires domain { admission.now.domain ≡ domain.now }
        requires good { IsGoodEvery every }
        requires known { AreKnown domain.now (held_in domain.now admission.now.entries (seals admission.now.entries)) self.old }
        ensures known { AreKnown domain.now (held_in domain.now admission.now.entries (seals admission.now.entries)) self.new }
        ensures there { IfOk result (IsKnownAt self.new every) }
    {
        let index = self
            .known
            .iter()
            .position(|emptiest| emptiest.every == every);
        if let Some(index) = index {
            return Ok(index);
        }
        let left = lefts(alloc, domain, admission, every)?;
        self.known.push(Emptiest { every, left })?;
        Ok(self.known.len() - 1)
    }

    /// Returns what is known at this index: what each link has left in its emptiest phase of `every`, by number.
    pub(crate) fn lefts_at(&self, index: usize, every: u8) -> &[u32]
        requires { IsKnownAt self.now every index }
        ensures { (d : Domain) (rows : List Row) → AreKnown d rows self.now → result.now ≡ lefts_on d rows every }
    {
        self.known[index].left.as_slice()
    }

    /// Recomputes what the links of a tree's hops have left, after a stream was placed along them.
    pub(crate) fn renew(&mut self, domain: &Domain, admission: &Admission, tree: &[Hop])
        requires domain { admission.now.domain ≡ domain.now }
        requires inside { All (λ (hop : AHop). hop.link < length domain.now.links) tree.now }
        requires filled { All (IsFilled domain.now) self.old.known.items }
        ensures { let d = domain.now in let entries = admission.now.entries in (before : List Row) → AreKnown d before self.old →
            TakesNothingOff before (held_in d entries (seals entries)) (links_in tree.now) → AreKnown d (held_in d entries (seals entries)) self.new }
    {
        for emptiest in self.known.iter_mut() {
            renew_lefts(emptiest, domain, admission, tree);
        }
    }
}
