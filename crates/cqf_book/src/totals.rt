//! The numbers of streams' frames and octets, by link.
ghost use Rattle.std.specs.Prelude.{◌≡◌, ◌+◌, ◌^◌, ◌<◌, IfOk, length, replicate, slice_index, slice_set};
ghost use Rattle.cqf_book.specs.Totals.{AreAdded, AreFewTotals, HaveTotalsRoom};

use cqf_model::Started;
use cqf_units::Memory;
use std::alloc::Global;

/// The number of streams' frames that a link has sent, and their total octets.
#[derive(Clone, Copy, Debug, PartialEq, Eq)]
pub struct Totals {
    pub frames: u128,
    pub octets: u128,
}

/// The totals of each link, by the link's number.
#[derive(Debug, Drop)]
pub(crate) struct LinkTotals {
    frames: Vec<u128>,
    octets: Vec<u128>,
}

/// Returns this many zeros.
fn zeros(alloc: Global, count: usize) -> Result<Vec<u128>, Memory>
    ensures { IfOk result (λ zeros. zeros.items ≡ replicate count 0) }
{
    let zeros = vec![in alloc; 0; count]?;
    Ok(zeros)
}

impl LinkTotals {
    /// Returns the totals of links that have sent nothing.
    pub(crate) fn new(alloc: Global) -> Result<LinkTotals, Memory>
        ensures frames { IfOk result (λ totals. totals.frames.items ≡ replicate 65536 0) }
        ensures octets { IfOk result (λ totals. totals.octets.items ≡ replicate 65536 0) }
    {
        Ok(LinkTotals {
            frames: zeros(alloc, 65_536)?,
            octets: zeros(alloc, 65_536)?,
        })
    }

    /// Returns a copy of the totals, or `Memory` if an allocation fails.
    pub(crate) fn try_copy(&self) -> Result<LinkTotals, Memory>
        ensures frames { IfOk result (λ copy. copy.frames.items ≡ self.now.frames.items) }
        ensures octets { IfOk result (λ copy. copy.octets.items ≡ self.now.octets.items) }
    {
        Ok(LinkTotals {
            frames: self.frames.clone()?,
            octets: self.octets.clone()?,
        })
    }

    /// Returns the totals of the link.
    pub(crate) fn at(&self, link: u16) -> Totals
        requires frames { length self.now.frames.items ≡ 65536 }
        requires octets { length self.now.octets.items ≡ 65536 }
        ensures frames { result.frames ≡ slice_index self.now.frames.items link }
        ensures octets { result.octets ≡ slice_index self.now.octets.items link }
    {
        let link = usize::from(link);
        Totals {
            frames: self.frames[link],
            octets: self.octets[link],
        }
    }

    /// Adds a frame of these octets on the link.
    fn add_frame(&mut self, link: u16, octets: u32)
        requires all_frames { length self.old.frames.items ≡ 65536 }
        requires all_octets { length self.old.octets.items ≡ 65536 }
        requires frames { slice_index self.old.frames.items link + 1 < 2 ^ 128 }
        requires octets { slice_index self.old.octets.items link + 2 ^ 32 < 2 ^ 128 }
        ensures frames { self.new.frames.items ≡ slice_set self.old.frames.items link (slice_index self.old.frames.items link + 1) }
        ensures octets { self.new.octets.items ≡ slice_set self.old.octets.items link (slice_index self.old.octets.items link + octets) }
        ensures short { octets < 2 ^ 32 }
    {
        let link = usize::from(link);
        self.frames[link] += 1;
        self.octets[link] += u128::from(octets);
    }

    /// Adds the frames of a page's starts.
    pub(crate) fn add(&mut self, starts: &[Started])
        requires { HaveTotalsRoom self.old.frames.items self.old.octets.items }
        ensures added { AreAdded starts.now self.old.frames.items self.old.octets.items self.new.frames.items self.new.octets.items }
        ensures few { AreFewTotals starts.now }
    {
        for start in starts {
            self.add_frame(start.link, start.octets);
        }
    }
}
