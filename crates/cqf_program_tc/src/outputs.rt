//! The outputs of `compile --format tc` and `compile --format env`, before they are written.
ghost use Rattle.std.specs.Prelude.{◌≡◌};

use crate::plan::Plan;
use cqf_addressing::{LinkInterfaces, StreamAddress};
use cqf_model::Row;
use cqf_output::Buffer;
use cqf_topology::Domain;
use std::marker::Model;

/// The data of both outputs: a domain, the rows of its streams by number, the interfaces and addresses of links and streams in real
/// bridges, for each bridge the indices of the rows whose streams leave it, and the variables of links and of streams.
#[derive(Drop)]
pub(crate) struct ReadyPlan {
    pub domain: Domain,
    pub rows: Vec<Row>,
    pub interfaces: Vec<LinkInterfaces>,
    pub addresses: Vec<StreamAddress>,
    pub indices: Vec<Vec<usize>>,
    pub links: Vec<Vec<u8>>,
    pub streams: Vec<Vec<u8>>,
}

impl ReadyPlan {
    /// Returns the plan in the form that the parts of a text take.
    pub(crate) fn as_plan(&self) -> Plan<'_>
        ensures domain { result.domain.now ≡ self.now.domain }
        ensures rows { result.rows.now ≡ self.now.rows.items }
        ensures addresses { result.addresses.now ≡ self.now.addresses.items }
        ensures links { result.links.now ≡ self.now.links.items }
        ensures streams { result.streams.now ≡ self.now.streams.items }
    {
        Plan {
            domain: &self.domain,
            rows: self.rows.as_slice(),
            addresses: self.addresses.as_slice(),
            links: self.links.as_slice(),
            streams: self.streams.as_slice(),
        }
    }
}

/// The output of `compile --format tc` before it is written: a plan, the words of the list of each stream's gate, whether the gates are in
/// software, and a buffer.
#[derive(Drop)]
pub struct TcOutput {
    pub(crate) plan: ReadyPlan,
    pub(crate) gate_words: Vec<u8>,
    pub(crate) software: bool,
    pub(crate) buffer: Buffer,
}

impl Model for TcOutput {
    ghost use Rattle.cqf_program_tc.specs.Output.{IsReadyScript, TcScript};
    ghost use Rattle.cqf_program_tc.specs.Rows.{indices_in};

    ghost Value = { TcScript };

    ghost view = { λ o. record { domain = o.plan.domain; rows = o.plan.rows.items; addresses = o.plan.addresses.items; software = o.software } };

    ghost invariant = { λ o. IsReadyScript o.plan.domain o.plan.rows.items (indices_in o.plan.indices.items) o.plan.links.items o.plan.streams.items
        o.gate_words.items };
}

/// The output of `compile --format env` before it is written: a plan, the number of a bridge, and a buffer.
#[derive(Drop)]
pub struct EnvOutput {
    pub(crate) plan: ReadyPlan,
    pub(crate) bridge: u16,
    pub(crate) buffer: Buffer,
}

impl Model for EnvOutput {
    ghost use Rattle.std.specs.Prelude.{◌<◌, length};
    ghost use Rattle.cqf_program_tc.specs.Output.{EnvFile, IsReadyFile};
    ghost use Rattle.cqf_program_tc.specs.Rows.{indices_in};

    ghost Value = { EnvFile };

    ghost view = { λ o. record {
      domain = o.plan.domain;
      rows = o.plan.rows.items;
      interfaces = o.plan.interfaces.items;
      addresses = o.plan.addresses.items;
      bridge = o.bridge;
    } };

    ghost invariant = { λ o. IsReadyFile o.plan.domain o.plan.rows.items (indices_in o.plan.indices.items) o.plan.links.items o.plan.streams.items
        o.bridge };
}
