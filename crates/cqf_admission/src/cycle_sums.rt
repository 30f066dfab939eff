//! Sums by link and cycle. A stream's number is added to the sum of each of its links in the cycles in which its frames use the link, and
//! removed later.
ghost use Rattle.std.specs.Prelude.{◌≡◌, ◌≢◌, ◌<◌, ◌≤◌, ◌+◌, ◌-◌, ◌^◌, ◌%◌, ◌==◌, All, AllPairs, IfOk, fold, length, map, max};
ghost use Rattle.cqf_admission.specs.ActiveCycles.{AreLessIn, AreMoreIn, AreNone, HasIn, HasRoomFor, most_at, most_of, sums_at};
ghost use Rattle.cqf_admission.specs.ActiveCycles.{AreLessWhere, AreMoreWhere, HaveIn, HaveRoomIn, most_where};
ghost use Rattle.cqf_model.specs.Limits.{most_every};
ghost use Rattle.cqf_model.specs.Paces.{is_active};
ghost use Rattle.cqf_model.specs.Table.{links_in};

use cqf_model::{Hop, MOST_EVERY, Pace};
use cqf_units::Memory;
use std::alloc::Global;
use std::marker::Model;

/// The number of sums of a link.
const CYCLES: usize = MOST_EVERY as usize;

/// Adds a number to each sum.
fn add_to_each(cycle_sums: &mut [u64], number: u64)
    requires room { All (λ sum. sum + number < 2 ^ 64) cycle_sums.old }
    ensures { cycle_sums.new ≡ map (λ sum. sum + number) cycle_sums.old }
{
    for sum in cycle_sums.iter_mut() {
        *sum += number;
    }
}

/// Subtracts a number from each sum.
fn take_from_each(cycle_sums: &mut [u64], number: u64)
    requires held { All (λ sum. number ≤ sum) cycle_sums.old }
    ensures { cycle_sums.new ≡ map (λ sum. sum - number) cycle_sums.old }
{
    for sum in cycle_sums.iter_mut() {
        *sum -= number;
    }
}

/// Adds a number to every `every`-th sum, starting with the one at index `first`.
fn add_to_some(cycle_sums: &mut [u64], first: usize, every: usize, number: u64)
    requires low { first < every }
    requires few { every ≤ most_every }
    requires of_link { length cycle_sums.old ≡ most_every }
    requires room { HaveRoomIn (λ active_cycle. first == active_cycle % every) cycle_sums.old number }
    ensures { AreMoreWhere (λ active_cycle. first == active_cycle % every) cycle_sums.old number cycle_sums.new }
{
    let mut active_cycle = first;
    while active_cycle < cycle_sums.len() {
        cycle_sums[active_cycle] += number;
        active_cycle += every;
    }
}

/// Subtracts a number from every `every`-th sum, starting with the one at index `first`.
fn take_from_some(cycle_sums: &mut [u64], first: usize, every: usize, number: u64)
    requires low { first < every }
    requires few { every ≤ most_every }
    requires of_link { length cycle_sums.old ≡ most_every }
    requires held { HaveIn (λ active_cycle. first == active_cycle % every) cycle_sums.old number }
    ensures { AreLessWhere (λ active_cycle. first == active_cycle % every) cycle_sums.old number cycle_sums.new }
{
    let mut active_cycle = first;
    while active_cycle < cycle_sums.len() {
        cycle_sums[active_cycle] -= number;
        active_cycle += every;
    }
}

/// Adds a number to the sums of a link in the cycles in which frames of this pace use a hop with this hop number. `most` is the greatest
/// sum before. Returns the greatest sum after.
fn add_in_active_cycles(
    cycle_sums: &mut [u64],
    most: u64,
    pace: Pace,
    hop_number: u8,
    number: u64,
) -> u64
    requires of_link { length cycle_sums.old ≡ most_every }
    requires good { most_every % (pace.pause + 1) ≡ 0 }
    requires room { HaveRoomIn (λ active_cycle. is_active pace hop_number active_cycle) cycle_sums.old number }
    requires most { most ≡ fold max 0 cycle_sums.old }
    ensures cycle_sums { AreMoreWhere (λ active_cycle. is_active pace hop_number active_cycle) cycle_sums.old number cycle_sums.new }
    ensures most { result ≡ fold max 0 cycle_sums.new }
{
    if pace.pause == 0 {
        add_to_each(cycle_sums, number);
        return most + number;
    }
    let every = usize::from(pace.pause) + 1;
    add_to_some(
        cycle_sums,
        (usize::from(pace.phase) + usize::from(hop_number)) % every,
        every,
        number,
    );
    most_of_all(cycle_sums)
}

/// Subtracts a number from the sums of a link in the cycles in which frames of this pace use a hop with this hop number. `most` is the
/// greatest sum before. Returns the greatest sum after.
fn take_in_active_cycles(
    cycle_sums: &mut [u64],
    most: u64,
    pace: Pace,
    hop_number: u8,
    number: u64,
) -> u64
    requires of_link { length cycle_sums.old ≡ most_every }
    requires good { most_every % (pace.pause + 1) ≡ 0 }
    requires held { HaveIn (λ active_cycle. is_active pace hop_number active_cycle) cycle_sums.old number }
    requires most { most ≡ fold max 0 cycle_sums.old }
    ensures cycle_sums { AreLessWhere (λ active_cycle. is_active pace hop_number active_cycle) cycle_sums.old number cycle_sums.new }
    ensures most { result ≡ fold max 0 cycle_sums.new }
{
    if pace.pause == 0 {
        take_from_each(cycle_sums, number);
        return most - number;
    }
    let every = usize::from(pace.pause) + 1;
    take_from_some(
        cycle_sums,
        (usize::from(pace.phase) + usize::from(hop_number)) % every,
        every,
        number,
    );
    most_of_all(cycle_sums)
}

/// Returns the greatest sum.
fn most_of_all(cycle_sums: &[u64]) -> u64
    ensures { result ≡ fold max 0 cycle_sums.now }
{
    let mut most = 0;
    for sum in cycle_sums {
        most = most.max(*sum);
    }
    most
}

/// Returns the greatest of every `every`-th sum, starting with the one at index `first`.
fn most_of_some(cycle_sums: &[u64], first: usize, every: usize) -> u64
    requires low { first < every }
    requires few { every ≤ most_every }
    requires of_link { length cycle_sums.now ≡ most_every }
    ensures { result ≡ most_where (λ active_cycle. first == active_cycle % every) cycle_sums.now }
{
    let mut most = 0;
    let mut active_cycle = first;
    while active_cycle < cycle_sums.len() {
        most = most.max(cycle_sums[active_cycle]);
        active_cycle += every;
    }
    most
}

/// Sums by link and cycle of the numbers of streams. All paces repeat after 80 cycles, so a link has a sum for each of these.
#[derive(Debug, Drop)]
pub struct CycleSums {
    links: usize,
    /// The sums link by link, and for each link by cycle.
    sums: Vec<u64>,
    /// The greatest sum of each link. A stream that is offered in each cycle needs and changes only this one.
    greatest: Vec<u64>,
}

impl Model for CycleSums {
    ghost use Rattle.cqf_admission.specs.ActiveCycles.{AreKept, SumsByCycle};

    ghost Value = { SumsByCycle };

    ghost view = { λ s. record { links = s.links; sums = s.sums.items } };

    ghost invariant = { λ s. AreKept (record { links = s.links; sums = s.sums.items }) s.greatest.items };
}

impl CycleSums {
    /// Returns sums of 0, for this number of links, or `Memory` if an allocation fails.
    pub fn new(alloc: Global, links: u16) -> Result<CycleSums, Memory>
        ensures { IfOk result (λ sums. AreNone sums links) }
    {
        let links = usize::from(links);
        Ok(CycleSums {
            links,
            sums: vec![in alloc; 0; links * CYCLES]?,
            greatest: vec![in alloc; 0; links]?,
        })
    }

    /// Adds the number of a stream. No two hops of its tree use the same link, each link has sums, its pace repeats after 80 cycles, and
    /// each sum stays below 2^64.
    pub fn add(&mut self, tree: &[Hop], pace: Pace, number: u32)
        requires inside { All (λ link. link < self.old.links) (links_in tree.now) }
        requires apart { AllPairs (λ a b. a ≢ b) (links_in tree.now) }
        requires good { most_every % (pace.pause + 1) ≡ 0 }
        requires room { HasRoomFor self.old tree.now pace number }
        ensures { AreMoreIn self.old tree.now pace number self.new }
    {
        let number = u64::from(number);
        for hop in tree {
            let link = usize::from(hop.link);
            let first = link * CYCLES;
            self.greatest[link] = add_in_active_cycles(
                &mut self.sums[first..first + CYCLES],
                self.greatest[link],
                pace,
                hop.hop_number,
                number,
            );
        }
    }

    /// Subtracts the number of a stream, under the conditions of [`CycleSums::add`]. Each of the sums concerned is at least the number.
    pub fn take(&mut self, tree: &[Hop], pace: Pace, number: u32)
        requires inside { All (λ link. link < self.old.links) (links_in tree.now) }
        requires apart { AllPairs (λ a b. a ≢ b) (links_in tree.now) }
        requires good { most_every % (pace.pause + 1) ≡ 0 }
        requires held { HasIn self.old tree.now pace number }
        ensures { AreLessIn self.old tree.now pace number self.new }
    {
        let number = u64::from(number);
        for hop in tree {
            let link = usize::from(hop.link);
            let first = link * CYCLES;
            self.greatest[link] = take_in_active_cycles(
                &mut self.sums[first..first + CYCLES],
                self.greatest[link],
                pace,
                hop.hop_number,
                number,
            );
        }
    }

    /// Returns the sums of a link, by cycle.
    fn sums_of(&self, link: u16) -> &[u64]
        requires { link < self.now.links }
        ensures value { result.now ≡ sums_at self.now link }
        ensures long { length (sums_at self.now link) ≡ most_every }
    {
        let first = usize::from(link) * CYCLES;
        &self.sums[first..first + CYCLES]
    }

    /// Returns the greatest sum of a hop's link in the cycles in which frames of this pace use the hop. The link has sums, and the pace
    /// repeats after 80 cycles.
    pub fn most_at(&self, hop: &Hop, pace: Pace) -> u64
        requires inside { hop.now.link < self.now.links }
        requires good { most_every % (pace.pause + 1) ≡ 0 }
        ensures { result ≡ most_at self.now hop.now.link pace hop.now.hop_number }
    {
        if pace.pause == 0 {
            return self.most_of(hop.link);
        }
        let every = usize::from(pace.pause) + 1;
        most_of_some(
            self.sums_of(hop.link),
            (usize::from(pace.phase) + usize::from(hop.hop_number)) % every,
            every,
        )
    }

    /// Returns the greatest sum in any cycle of a link that has sums.
    pub fn most_of(&self, link: u16) -> u64
        requires { link < self.now.links }
        ensures { result ≡ most_of self.now link }
    {
        self.greatest[usize::from(link)]
    }

    /// Returns a copy of the sums, or `Memory` if an allocation fails.
    pub fn try_copy(&self, alloc: Global) -> Result<CycleSums, Memory>
        ensures { IfOk result (λ copy. copy ≡ self.now) }
    {
        Ok(CycleSums {
            links: self.links,
            sums: Vec::from_slice(alloc, self.sums.as_slice())?,
            greatest: Vec::from_slice(alloc, self.greatest.as_slice())?,
        })
    }
}
