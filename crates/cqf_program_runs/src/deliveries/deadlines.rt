//! The deadlines of the frames of streams, by name.
ghost use Rattle.std.specs.Prelude.{◌≡◌, IfOk, None, slice_index_or};
ghost use Rattle.cqf_program_runs.specs.Deliveries.Deadlines.{deadline_in};

use cqf_admission::Names;
use cqf_topology::PacedRequest;
use cqf_units::{Memory, Name};
use std::alloc::Global;
use std::marker::Model;

/// Returns the deadline at an index; `None` past the end.
fn deadline_at(deadlines: &[Option<u32>], index: usize) -> Option<u32>
    ensures { result ≡ slice_index_or deadlines.now index None }
{
    match deadlines.get(index) {
        Some(deadline) => *deadline,
        None => None,
    }
}

/// Deadlines in nanoseconds, found by the names of their streams. A name refers to the first request with it.
#[derive(Drop)]
pub struct Deadlines<'r> {
    names: Names<'r>,
    deadlines: &'r [Option<u32>],
}

impl<'r> Model for Deadlines<'r> {
    ghost use Rattle.cqf_program_runs.specs.Deliveries.Deadlines.{Due};

    ghost Value = { Due };

    ghost view = { λ d. record { requests = d.names; deadlines = d.deadlines.now } };
}

impl<'r> Deadlines<'r> {
    /// Returns the deadlines of requests, by the same indexes. A request past the last deadline has none.
    ///
    /// # Errors
    /// `Memory` if an allocation fails.
    pub fn new(
        alloc: Global,
        requests: &'r [PacedRequest],
        deadlines: &'r [Option<u32>],
    ) -> Result<Deadlines<'r>, Memory>
        ensures { IfOk result (λ made. made ≡ record { requests = requests.now; deadlines = deadlines.now }) }
    {
        let names = Names::new(alloc, requests)?;
        Ok(Deadlines { names, deadlines })
    }

    /// Returns the deadline of the frames of a name, if they have one, in a time that doesn't grow with the streams.
    pub fn of(&self, stream: &Name) -> Option<u32>
        ensures { result ≡ deadline_in self.now stream.now }
    {
        match self.names.index_of(stream.as_str()) {
            Some(index) => deadline_at(self.deadlines, index),
            None => None,
        }
    }
}
