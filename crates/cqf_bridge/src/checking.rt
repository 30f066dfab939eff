//! Checks whether batches are those of a bridge in a cycle. Only `links_into` allocates memory.
ghost use Rattle.std.specs.Prelude.{◌≡◌, ◌<◌, ◌==◌, ◌&&◌, false, IfOk, length, map, true};
ghost use Rattle.std.specs.List.{list_any};
ghost use Rattle.cqf_model.specs.Domain.{cycle_of, enters, leaves};
ghost use Rattle.cqf_model.specs.Table.{goes_on, same_ingress};
ghost use Rattle.cqf_model.specs.Policing.{whole_at};
ghost use Rattle.cqf_bridge.specs.Batch.{LinkBatch};
ghost use Rattle.cqf_agenda.specs.Links.{links_into};
ghost use Rattle.cqf_bridge.specs.Receiving.{AreBatchesOf, MayCome};
ghost use Rattle.cqf_bridge.specs.Taking.{IsBatchOf};
ghost use Rattle.cqf_model.specs.Limits.{end_of_starts, most_cycles};

use crate::Batch;
use crate::sending::end_of;
use arrayvec::ArrayVec;
use cqf_admission::Table;
use cqf_model::{Hop, Node, Row, Sent};
use cqf_topology::Domain;
use cqf_units::{Cycle, Memory, Nanos, Octets};
use std::alloc::Global;

/// Returns whether a frame that arrived by the link `ingress`, or at the edge if it is `None`, goes on by a hop, and the hop's link leaves the
/// bridge.
pub fn leads_by(domain: &Domain, hop: &Hop, ingress: Option<u16>, bridge: u16) -> bool
    ensures { result ≡ (same_ingress hop.now.from ingress && leaves domain.now hop.now.link bridge) }
{
    let same = match (hop.from, ingress) {
        (None, None) => true,
        (Some(link), Some(other)) => link == other,
        _ => false,
    };
    same && hop.link < domain.links() && domain.link(hop.link).from == bridge
}

/// Returns whether a frame that arrived by the link `ingress`, or at the edge if it is `None`, goes on from the bridge by one of these hops.
fn lead_on(domain: &Domain, hops: &[Hop], ingress: Option<u16>, bridge: u16) -> bool
    ensures { result ≡ list_any (λ hop. same_ingress hop.from ingress && leaves domain.now hop.link bridge) hops.now }
{
    hops.iter()
        .any(|hop| leads_by(domain, hop, ingress, bridge))
}

/// Returns whether a frame of a row's stream that arrived by the link `ingress`, or at the edge if it is `None`, goes on from the bridge.
pub(crate) fn leads_on(domain: &Domain, row: &Row, ingress: Option<u16>, bridge: u16) -> bool
    ensures { result ≡ goes_on domain.now row.now ingress bridge }
{
    lead_on(domain, row.tree.as_slice(), ingress, bridge)
}

/// Returns the instant at which a frame that a link sent is whole in the next node.
pub(crate) fn whole_in(domain: &Domain, link: u16, sent: Sent) -> Nanos
    requires inside { link < length domain.now.links }
    requires early { sent.start.0 < end_of_starts }
    ensures { result.0 ≡ whole_at domain.now link sent }
{
    let by = domain.link(link);
    let end = cqf_units::end_of(sent.start, Octets(sent.octets), by.rate);
    Nanos(end.0 + u64::from(by.delay))
}

/// Returns whether a frame that a link sent is whole in the next node within the cycle.
fn is_whole_within(domain: &Domain, cycle: Cycle, link: u16, sent: Sent) -> bool
    requires inside { link < length domain.now.links }
    requires early { cycle.0 < most_cycles }
    ensures { result ≡ (cycle_of domain.now (whole_at domain.now link sent) == cycle.0) }
{
    if sent.start.0 >= end_of(domain, cycle).0 {
        return false;
    }
    whole_in(domain, link, sent).0 / domain.cycle_time().0 == u64::from(cycle.0)
}

/// Returns whether a frame may arrive at a bridge by a link in a cycle.
fn may_come(
    domain: &Domain,
    number: u16,
    cycle: Cycle,
    table: &Table,
    link: u16,
    sent: Sent,
) -> bool
    requires inside { link < length domain.now.links }
    requires early { cycle.0 < most_cycles }
    ensures yes { result ≡ true → MayCome domain.now number cycle.0 table.now.rows link sent }
    ensures no { result ≡ false → ¬ MayCome domain.now number cycle.0 table.now.rows link sent }
{
    match table.row_of(sent.stream) {
        Some(row) => {
            let goes = leads_on(domain, row, Some(link), number);
            goes && is_whole_within(domain, cycle, link, sent)
        }
        None => false,
    }
}

/// Returns whether a batch is of the cycle, and each of its frames may arrive by its link.
fn is_batch_of(domain: &Domain, number: u16, cycle: Cycle, table: &Table, batch: &Batch) -> bool
    requires inside { batch.now.link < length domain.now.links }
    requires early { cycle.0 < most_cycles }
    ensures yes { result ≡ true → IsBatchOf domain.now number cycle.0 table.now.rows batch.now }
    ensures no { result ≡ false → ¬ IsBatchOf domain.now number cycle.0 table.now.rows batch.now }
{
    if batch.cycle() != cycle {
        return false;
    }
    for index in 0..batch.len() {
        if !may_come(domain, number, cycle, table, batch.link(), batch.get(index)) {
            return false;
        }
    }
    true
}

/// Returns whether a link ends in a bridge.
fn ends_in(domain: &Domain, link: u16, bridge: u16) -> bool
    requires { link < length domain.now.links }
    ensures { result ≡ enters domain.now link bridge }
{
    match domain.link(link).to {
        Node::Bridge(other) => other == bridge,
        Node::Station(_) => false,
    }
}

/// Returns the links that end in a bridge, by number. Requests no memory.
pub fn incoming_links(domain: &Domain, number: u16) -> ArrayVec<u16, 4096>
    ensures { result.items ≡ links_into domain.now number }
{
    let mut links = ArrayVec::new();
    domain.know();
    for link in 0..domain.links() {
        if ends_in(domain, link, number) {
            links.push(link);
        }
    }
    links
}

/// Returns the same links on the heap. Returns `Memory` if an allocation fails.
pub(crate) fn links_into(alloc: Global, domain: &Domain, number: u16) -> Result<Vec<u16>, Memory>
    ensures { IfOk result (λ links. links.items ≡ links_into domain.now number) }
{
    let links = incoming_links(domain, number);
    Vec::from_slice(alloc, links.as_slice())
}

/// Returns whether there is exactly one batch for each of these links, in this order.
fn are_of_links(batches: &[Batch], links: &[u16]) -> bool
    ensures yes { result ≡ true → map (λ (b : LinkBatch). b.link) batches.now ≡ links.now }
    ensures no { result ≡ false → ¬ (map (λ (b : LinkBatch). b.link) batches.now ≡ links.now) }
{
    if batches.len() != links.len() {
        return false;
    }
    for (index, batch) in batches.iter().enumerate() {
        if batch.link() != links[index] {
            return false;
        }
    }
    true
}

/// Returns whether batches are those of a bridge in a cycle: one for each link that ends in the bridge, by number, each of the cycle and
/// with frames that may arrive.
pub(crate) fn are_batches(
    domain: &Domain,
    number: u16,
    incoming: &[u16],
    cycle: Cycle,
    table: &Table,
    batches: &[Batch],
) -> bool
    requires incoming { incoming.now ≡ links_into domain.now number }
    requires early { cycle.0 < most_cycles }
    ensures yes { result ≡ true → AreBatchesOf domain.now number cycle.0 table.now.rows batches.now }
    ensures no { result ≡ false → ¬ AreBatchesOf domain.now number cycle.0 table.now.rows batches.now }
{
    if !are_of_links(batches, incoming) {
        return false;
    }
    for batch in batches {
        if !is_batch_of(domain, number, cycle, table, batch) {
            return false;
        }
    }
    true
}
