//! The output of `compile --format json`, before it is written.

use cqf_addressing::{LinkInterfaces, StreamAddress};
use cqf_model::Row;
use cqf_output::Buffer;
use cqf_topology::Domain;
use std::marker::Model;

/// The output of `compile --format json` before it is written: a domain, the rows of its streams by number, for each bridge the indices of
/// the rows whose streams leave it, the addresses of streams and the interfaces of links by number, and a buffer.
#[derive(Drop)]
pub struct JsonOutput {
    pub(crate) domain: Domain,
    pub(crate) rows: Vec<Row>,
    pub(crate) indices: Vec<Vec<usize>>,
    pub(crate) addresses: Vec<StreamAddress>,
    pub(crate) links: Vec<LinkInterfaces>,
    pub(crate) buffer: Buffer,
}

impl Model for JsonOutput {
    ghost use Rattle.cqf_program_json.specs.Output.{AddressedPlan, IsReadyObject};
    ghost use Rattle.cqf_program_tc.specs.Rows.{indices_in};

    ghost Value = { AddressedPlan };

    ghost view = { λ o. record { domain = o.domain; rows = o.rows.items; addresses = o.addresses.items; links = o.links.items } };

    ghost invariant = { λ o. IsReadyObject o.domain o.rows.items (indices_in o.indices.items) };
}
