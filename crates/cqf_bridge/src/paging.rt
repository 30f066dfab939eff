//! A bridge's page of a book for one cycle.
//!
//! The caller has a bridge's batches until they are passed on: [`starts_of`] lists the frames in them before. When the bridge has received
//! the cycle too, [`page_with`] makes the page from these starts, the drops, and the background frames that the bridge started.

ghost use Rattle.std.specs.Prelude.{◌≡◌, ◌++◌, IfOk, OnOk};
ghost use Rattle.std.specs.List.{flat_map};
ghost use Rattle.cqf_model.specs.Book.{started};
ghost use Rattle.cqf_book.specs.Shares.{said};
ghost use Rattle.cqf_bridge.specs.Cycles.{starts_of_batch};

use crate::{Batch, Bridge};
use cqf_model::{Dropped, Page, Sent, Started};
use cqf_units::{Cycle, Memory};
use std::alloc::Global;

/// Returns the page's entry for a frame that a link sent.
fn as_started(cycle: Cycle, link: u16, sent: Sent) -> Started
    ensures { result ≡ started cycle.0 link sent }
{
    Started {
        cycle,
        link,
        frame: sent.frame,
        octets: sent.octets,
        start: sent.start,
    }
}

/// Appends the entries of a batch's frames.
fn list_batch(batch: &Batch, starts: &mut Vec<Started>) -> Result<(), Memory>
    ensures { OnOk result (starts.new.items ≡ starts.old.items ++ starts_of_batch batch.now) }
{
    for index in 0..batch.len() {
        starts.push(as_started(batch.cycle(), batch.link(), batch.get(index)))?;
    }
    Ok(())
}

/// Returns the page's entries for the frames of batches, batch by batch. Returns `Memory` if an allocation fails.
pub fn starts_of(alloc: Global, batches: &[Batch]) -> Result<Vec<Started>, Memory>
    ensures { IfOk result (λ starts. starts.items ≡ flat_map starts_of_batch batches.now) }
{
    let mut starts = Vec::new(alloc);
    for batch in batches {
        list_batch(batch, &mut starts)?;
    }
    Ok(starts)
}

/// Returns the page of a bridge and a cycle, with these starts of streams' frames, these drops, and the background frames that the bridge
/// started in the cycle that it sent last. Returns `Memory` if an allocation fails; the starts and drops are lost then.
pub fn page_with(
    alloc: Global,
    bridge: &Bridge,
    cycle: Cycle,
    starts: Vec<Started>,
    drops: Vec<Dropped>,
) -> Result<Page, Memory>
    ensures { IfOk result (λ page. said page ≡ record {
      bridge = bridge.now.number;
      cycle = cycle.0;
      contents = record { starts = starts.items; background = bridge.now.background; drops = drops.items };
    }) }
{
    let background = Vec::from_slice(alloc, bridge.background_starts())?;
    Ok(Page {
        bridge: bridge.number(),
        cycle,
        starts,
        background,
        drops,
    })
}
