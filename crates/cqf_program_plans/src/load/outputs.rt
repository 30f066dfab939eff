//! The output of `load`, before it is written.

use crate::load::access::AccessLoad;
use crate::load::listing::LoadListing;
use cqf_output::Buffer;
use cqf_topology::Domain;
use std::marker::Model;

/// The output of `load` before it is written: a domain, its streams, and a buffer.
#[derive(Drop)]
pub struct LoadOutput {
    pub(crate) domain: Domain,
    pub(crate) listing: LoadListing,
    pub(crate) access: Vec<AccessLoad>,
    pub(crate) buffer: Buffer,
}

impl Model for LoadOutput {
    ghost use Rattle.std.specs.Prelude.{All};
    ghost use Rattle.cqf_program_plans.specs.Load.Access.{TakesLittle};
    ghost use Rattle.cqf_program_plans.specs.Load.Written.{ListedPlan};

    ghost Value = { ListedPlan };

    ghost view = { λ o. record { domain = o.domain; rows = o.listing; access = o.access.items } };

    ghost invariant = { λ o. All TakesLittle o.access.items };
}
