//! The frames that arrive at a bridge in a cycle, in the order in which it takes them.
ghost use Rattle.std.specs.Prelude.{◌≡◌, ◌*◌, ◌<◌, ◌++◌, IfOk, IsPermutation, OnErr, OnOk, Contains, length, map};
ghost use Rattle.cqf_model.specs.Policing.{Received, came_by, offer_received, sent_received};
ghost use Rattle.cqf_laws_cycle.specs.Gathered.{IsInOrderOf};
ghost use Rattle.cqf_bridge.specs.Batch.{LinkBatch};
ghost use Rattle.cqf_bridge.specs.Taking.{CanGather, gathered_by, ingress_taken, received_as};
ghost use Rattle.cqf_model.specs.Limits.{end_of_starts};

use crate::Batch;
use crate::checking::whole_in;
use cqf_model::{Offered, Sent};
use cqf_topology::Domain;
use cqf_units::{Memory, Name, Nanos};
use std::alloc::Global;

/// How a frame arrived at a bridge.
#[derive(Debug, Drop)]
pub enum Came {
    /// By the link of this number, with the number of its stream.
    ByLink(u16, u32),
    /// At the edge, with the name of the stream that it claims.
    AtEdge(Name),
}

impl Came {
    /// Returns the link by which the frame arrived, or `None` at the edge.
    pub fn link(&self) -> Option<u16>
        ensures { result ≡ came_by (ingress_taken self.now) }
    {
        match self {
            Came::ByLink(link, _) => Some(*link),
            Came::AtEdge(_) => None,
        }
    }
}

/// A frame that arrives at a bridge: the instant at which it is whole there, its octets, its number, and how it arrived.
#[derive(Debug, Drop)]
pub struct Incoming {
    pub at: Nanos,
    pub octets: u32,
    pub frame: u32,
    pub came: Came,
}

impl Incoming {
    /// Returns a frame that a link of the domain sent, as it arrives at the bridge in which the link ends. The frame is whole there when
    /// its last octet has arrived, after the link's delay. Its start is before 10,000,010,000,000 ns, the end of 1,000,001 cycles of the
    /// greatest length.
    pub fn by_link(domain: &Domain, link: u16, sent: Sent) -> Incoming
        requires inside { link < length domain.now.links }
        requires early { sent.start.0 < end_of_starts }
        ensures { received_as result ≡ sent_received domain.now link sent }
    {
        Incoming {
            at: whole_in(domain, link, sent),
            octets: sent.octets,
            frame: sent.frame,
            came: Came::ByLink(link, sent.stream),
        }
    }

    /// Returns a frame that is offered at the edge. It is whole at its offer's instant.
    pub fn at_edge(offered: &Offered) -> Incoming
        ensures { received_as result ≡ offer_received offered.now }
    {
        Incoming {
            at: offered.offer.at,
            octets: offered.offer.octets,
            frame: offered.frame,
            came: Came::AtEdge(offered.offer.stream.copied()),
        }
    }
}

/// Appends the frames of a batch, in order of start.
fn gather_batch(domain: &Domain, batch: &Batch, frames: &mut Vec<Incoming>) -> Result<(), Memory>
    requires { CanGather domain.now batch.now }
    ensures { OnOk result (map received_as frames.new.items
        ≡ map received_as frames.old.items ++ map (sent_received domain.now batch.now.link) batch.now.frames) }
{
    for index in 0..batch.len() {
        frames.push(Incoming::by_link(domain, batch.link(), batch.get(index)))?;
    }
    Ok(())
}

/// Appends offers to other frames, in the order of the list. Returns `Memory` if an allocation fails; the frames are unchanged then.
pub fn gather_offers(offers: &[Offered], frames: &mut Vec<Incoming>) -> Result<(), Memory>
    ensures ok { OnOk result (map received_as frames.new.items ≡ map received_as frames.old.items ++ map offer_received offers.now) }
    ensures err { OnErr result (frames.new.items ≡ frames.old.items) }
{
    frames.reserve(offers.len())?;
    for offered in offers {
        frames.push(Incoming::at_edge(offered)).unwrap();
    }
    Ok(())
}

/// Returns the frames of batches, batch by batch, followed by the offers.
fn gathered(
    alloc: Global,
    domain: &Domain,
    batches: &[Batch],
    offers: &[Offered],
) -> Result<Vec<Incoming>, Memory>
    requires { (b : LinkBatch) → Contains batches.now b → CanGather domain.now b }
    ensures { IfOk result (λ frames. map received_as frames.items ≡ gathered_by domain.now batches.now offers.now) }
{
    let mut frames = Vec::new(alloc);
    for batch in batches {
        gather_batch(domain, batch, &mut frames)?;
    }
    gather_offers(offers, &mut frames)?;
    Ok(frames)
}

/// Brings frames into the order in which a bridge takes them: by instant, keeping the order of frames of the same instant. Before, they are
/// by link, each link's frames as it sent them, followed by the offers by instant and index. Returns `Memory` if an allocation fails; the
/// frames then keep their order.
pub fn bring_in_order(frames: &mut Vec<Incoming>) -> Result<(), Memory>
    ensures ok { OnOk result (IsInOrderOf (λ (x : Received). x.at) (map received_as frames.old.items) (map received_as frames.new.items)) }
    ensures moved { IsPermutation frames.old.items frames.new.items }
    ensures err { OnErr result (frames.new.items ≡ frames.old.items) }
{
    frames.sort_by_key(|frame| frame.at.0)?;
    Ok(())
}

/// Returns the frames of batches and the offers in the order in which a bridge takes them: by instant, then by batch and index, with the
/// offers last.
pub(crate) fn in_order(
    alloc: Global,
    domain: &Domain,
    batches: &[Batch],
    offers: &[Offered],
) -> Result<Vec<Incoming>, Memory>
    requires { (b : LinkBatch) → Contains batches.now b → CanGather domain.now b }
    ensures { IfOk result (λ frames. IsInOrderOf (λ (x : Received). x.at) (gathered_by domain.now batches.now offers.now) (map received_as frames.items)) }
{
    let mut frames = gathered(alloc, domain, batches, offers)?;
    bring_in_order(&mut frames)?;
    Ok(frames)
}
