//! The frames that a link sends in a cycle.
ghost use Rattle.std.specs.Prelude.{◌≡◌, ◌+◌, ◌<◌, ◌^◌, [], ◌∷◌, ◌++◌, length, slice_get, Some, OnOk, OnErr};
ghost use Rattle.cqf_bridge.specs.Batch.{LinkBatch, octets_of_batch};

use cqf_lanes::octet_sum;
use cqf_model::Sent;
use cqf_units::{Cycle, Memory, Nanos};
use std::alloc::Global;
use std::marker::Model;

/// The streams' frames that a link sends in a cycle, in order of start, as the node at its end receives them. Background frames aren't in
/// it, since they end with their link.
#[derive(Debug, Drop)]
pub struct Batch {
    link: u16,
    cycle: Cycle,
    starts: Vec<Nanos>,
    frames: Vec<u32>,
    streams: Vec<u32>,
    octets: Vec<u32>,
}

impl Model for Batch {
    ghost use Rattle.cqf_bridge.specs.Batch.{AreColumns, LinkBatch, sents_across};

    ghost Value = { LinkBatch };

    ghost view = { λ b. record { link = b.link; cycle = b.cycle.0; frames = sents_across b.starts.items b.frames.items b.streams.items b.octets.items } };

    ghost invariant = { λ b. AreColumns b.starts.items b.frames.items b.streams.items b.octets.items };
}

/// Returns the element at an index of a column.
fn at<T: Copy>(column: &[T], index: usize) -> T
    requires { index < length column.now }
    ensures { slice_get column.now index ≡ Some result }
{
    column[index]
}

impl Batch {
    /// Returns the empty batch of a link in a cycle.
    pub(crate) fn new(alloc: Global, link: u16, cycle: Cycle) -> Batch
        ensures { result ≡ record { link = link; cycle = cycle.0; frames = [] } }
    {
        Batch {
            link,
            cycle,
            starts: Vec::new(alloc),
            frames: Vec::new(alloc),
            streams: Vec::new(alloc),
            octets: Vec::new(alloc),
        }
    }

    /// Appends a frame. Returns `Memory` if an allocation fails; the batch is then unchanged.
    pub(crate) fn push(&mut self, sent: Sent) -> Result<(), Memory>
        requires { length self.old.frames + 1 < 2 ^ 32 }
        ensures ok { OnOk result (self.new ≡ record self.old { frames = self.old.frames ++ sent ∷ [] }) }
        ensures err { OnErr result (self.new ≡ self.old) }
    {
        self.starts.reserve(1)?;
        self.frames.reserve(1)?;
        self.streams.reserve(1)?;
        self.octets.reserve(1)?;
        self.starts.push(sent.start).unwrap();
        self.frames.push(sent.frame).unwrap();
        self.streams.push(sent.stream).unwrap();
        self.octets.push(sent.octets).unwrap();
        Ok(())
    }

    /// Returns the number of the link.
    pub fn link(&self) -> u16
        ensures { result ≡ self.now.link }
    {
        self.link
    }

    /// Returns the cycle in which the frames start.
    pub fn cycle(&self) -> Cycle
        ensures { result.0 ≡ self.now.cycle }
    {
        self.cycle
    }

    /// Returns the number of frames.
    pub fn len(&self) -> usize
        ensures { result ≡ length self.now.frames }
    {
        self.starts.as_slice().len()
    }

    /// Returns the frame at an index, from 0 and below the number of frames, in order of start.
    pub fn get(&self, index: usize) -> Sent
        requires { index < length self.now.frames }
        ensures { slice_get self.now.frames index ≡ Some result }
    {
        Sent {
            start: at(self.starts.as_slice(), index),
            frame: at(self.frames.as_slice(), index),
            stream: at(self.streams.as_slice(), index),
            octets: at(self.octets.as_slice(), index),
        }
    }

    /// Returns the sum of the frames' octets. Requests no memory.
    pub fn octets(&self) -> u64
        ensures { result ≡ octets_of_batch self.now }
    {
        octet_sum(self.octets.as_slice())
    }
}
