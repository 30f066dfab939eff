//! A book, given by its traces.
ghost use Rattle.std.specs.Prelude.{◌≡◌, ◌≤◌};
ghost use Rattle.cqf_model.specs.Limits.{most_cycles};
ghost use Rattle.cqf_trace.specs.Traces.{MayBeReported};

use cqf_topology::Domain;
use cqf_trace::Traces;
use std::marker::Model;

/// A book of some cycles of a domain, given by its traces. On each trace the transmissions are in order of instant.
#[derive(Drop)]
pub struct PagedBook {
    domain: Domain,
    cycles: u32,
    traces: Traces,
}

impl Model for PagedBook {
    ghost use Rattle.std.specs.Prelude.{◌≤◌};
    ghost use Rattle.cqf_model.specs.Limits.{most_cycles};
    ghost use Rattle.cqf_trace.specs.Traces.{MayBeReported};
    ghost use Rattle.cqf_program_threads.specs.PagedBooks.{ByTraces};

    ghost Value = { ByTraces };

    ghost view = { λ book. record { domain = book.domain; cycles = book.cycles; traces = book.traces } };

    ghost invariant = { λ book. (book.cycles ≤ most_cycles) × MayBeReported book.domain book.traces };
}

impl PagedBook {
    /// Returns the book of `cycles` cycles of the domain, at most 100,000, with these traces. On each trace the
    /// transmissions are in order of instant.
    pub fn new(domain: Domain, cycles: u32, traces: Traces) -> PagedBook
        requires few { cycles ≤ most_cycles }
        requires traces { MayBeReported domain traces }
        ensures { result ≡ record { domain = domain; cycles = cycles; traces = traces } }
    {
        PagedBook {
            domain,
            cycles,
            traces,
        }
    }

    /// Returns the domain.
    pub(crate) fn domain(&self) -> &Domain
        ensures { result.now ≡ self.now.domain }
    {
        &self.domain
    }

    /// Returns the number of cycles.
    pub(crate) fn cycles(&self) -> u32
        ensures value { result ≡ self.now.cycles }
        ensures few { result ≤ most_cycles }
    {
        self.cycles
    }

    /// Returns the traces.
    pub(crate) fn traces(&self) -> &Traces
        ensures value { result.now ≡ self.now.traces }
        ensures may { MayBeReported self.now.domain result.now }
    {
        &self.traces
    }
}
