//! Candidates for a cycle time.
ghost use Rattle.std.specs.Prelude.{◌≡◌, ◌≤◌, ◌<◌, ◌+◌, ◌*◌, All, IfOk, length};

use cqf_units::Memory;
use std::alloc::Global;

/// Candidates for a cycle time, in nanoseconds: the first, and then each one a step longer, up to `last`, which need not be one of them.
/// There are 1 to 1,000, each 10,000 to 10,000,000.
#[derive(Clone, Copy, Debug, PartialEq, Eq)]
pub struct Candidates {
    pub first: u32,
    pub last: u32,
    pub step: u32,

    pub ghost shortest: { 10000 ≤ first },
    pub ghost longest: { last ≤ 10000000 },
    pub ghost ordered: { first ≤ last },
    pub ghost stepped: { 1 ≤ step },
    pub ghost few: { last < first + 1000 * step },
}

impl Candidates {
    ghost use Rattle.cqf_program_words.specs.Candidates.{count_of, times_of};

    /// Returns how many candidates there are.
    fn count(&self) -> u32
        ensures count { result ≡ count_of self.now }
        ensures some { 1 ≤ result }
        ensures few { result ≤ 1000 }
    {
        (self.last - self.first) / self.step + 1
    }

    /// Returns the candidate at an index, in nanoseconds.
    fn time_at(&self, position: u32) -> u32
        requires { position < count_of self.now }
        ensures time { result ≡ self.now.first + position * self.now.step }
        ensures longest { result ≤ 10000000 }
    {
        self.first + position * self.step
    }

    /// Returns the candidates as cycle times in nanoseconds, in their order: 1 to 1,000, each 10,000 to 10,000,000. Returns `Memory` if an
    /// allocation fails.
    pub fn list(&self, alloc: Global) -> Result<Vec<u32>, Memory>
        ensures times { IfOk result (λ times. times.items ≡ times_of self.now) }
        ensures some { IfOk result (λ times. 1 ≤ length times.items) }
        ensures few { IfOk result (λ times. length times.items ≤ 1000) }
        ensures each { IfOk result (λ times. All (λ time. (10000 ≤ time) × (time ≤ 10000000)) times.items) }
    {
        let mut times = Vec::new(alloc);
        for position in 0..self.count() {
            times.push(self.time_at(position))?;
        }
        Ok(times)
    }
}
