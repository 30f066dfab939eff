//! Requests, found by their names.
ghost use Rattle.std.specs.Prelude.{◌≡◌, IfOk};
ghost use Rattle.cqf_admission.specs.Names.{index_named};

use cqf_topology::PacedRequest;
use cqf_units::Memory;
use std::alloc::Global;
use std::collections::BTreeMap;
use std::marker::Model;

/// The requests for streams that a script may admit, found by their names. A name means the first request that has it.
#[derive(Drop)]
pub struct Names<'r> {
    requests: &'r [PacedRequest],
    /// The index of the first request with each name.
    indices: BTreeMap<&'r str, usize>,
}

impl<'r> Model for Names<'r> {
    ghost use Rattle.std.specs.Prelude.{List};
    ghost use Rattle.cqf_topology.specs.declared.paced.PacedRequest.{PacedRequest};
    ghost use Rattle.cqf_admission.specs.Names.{LeadToFirst, index_under};

    ghost Value = { List PacedRequest };

    ghost view = { λ n. n.requests.now };

    ghost invariant = { λ n. LeadToFirst (index_under n.indices) n.requests.now };
}

impl<'r> Names<'r> {
    /// Returns the names of these requests. Each request is read once.
    ///
    /// # Errors
    /// `Memory` if an allocation fails.
    pub fn new(alloc: Global, requests: &'r [PacedRequest]) -> Result<Names<'r>, Memory>
        ensures { IfOk result (λ names. names ≡ requests.now) }
    {
        let mut indices = BTreeMap::new(alloc);
        for (index, request) in requests.iter().enumerate() {
            let name = request.name.as_str();
            if indices.contains_key(name) {
                continue;
            }
            indices.insert(name, index)?;
        }
        Ok(Names { requests, indices })
    }

    /// Returns the index of the first request with the name, or `None` if no request has it. The time grows with the logarithm of the
    /// number of requests.
    pub fn index_of(&self, name: &str) -> Option<usize>
        ensures { result ≡ index_named self.now name.now }
    {
        self.indices.get(name).copied()
    }
}
