//! The frames that wait for a link.
ghost use Rattle.std.specs.Prelude.{◌≡◌, ◌+◌, ◌*◌, ◌++◌, OnOk};
ghost use Rattle.cqf_relay.specs.Logs.{ByCycle};
ghost use Rattle.cqf_relay.specs.Queues.{AreByCycle, AreLeads, goes_from, key_of_queued, queue_of};

use crate::inlet::Inlet;
use crate::leads::{By, Leads};
use crate::log::{ArrivedFrame, SourceLog};
use cqf_units::Memory;

/// The source number of the edge, greater than all link numbers.
const EDGE: u16 = 4096;

/// A frame that waits for a link, with its source: the number of the link by which it arrived, or 4096 for an offer.
#[derive(Clone, Copy, Debug)]
pub(crate) struct Queued {
    pub(crate) source: u16,
    pub(crate) came: ArrivedFrame,
}

/// Returns an instant, a source and a frame as one number.
fn one_of(at: u32, source: u16, frame: u32) -> u128
    ensures { result ≡ (at * 8192 + source) * 16777216 + frame }
{
    (u128::from(at) * 8192 + u128::from(source)) * 16_777_216 + u128::from(frame)
}

/// Returns the number that orders a queue: by instant, then source, then frame.
pub(crate) fn key(queued: &Queued) -> u128
    ensures { result ≡ key_of_queued queued.now }
{
    one_of(queued.came.at, queued.source, queued.came.frame)
}

/// Appends to a queue the frames that one source brought in a cycle and that go on by the queue's link.
fn gather_from(
    leads: &Leads,
    by: By,
    source: u16,
    log: &SourceLog,
    cycle: u32,
    queue: &mut Vec<Queued>,
) -> Result<(), Memory>
    ensures { OnOk result (ByCycle log.now.frames.items →
        queue.new.items ≡ queue.old.items ++ goes_from leads.now.rows.items by source cycle log.now.frames.items) }
{
    for came in log.of_cycle(cycle) {
        if leads.has(came.row, by) {
            queue.push(Queued {
                source,
                came: *came,
            })?;
        }
    }
    Ok(())
}

/// Appends to a queue the frames of a cycle that go on by the queue's link, source by source. Returns `Memory` if an allocation fails.
pub(crate) fn gather(
    leads: &Leads,
    inlets: &[Inlet],
    edge: &SourceLog,
    cycle: u32,
    queue: &mut Vec<Queued>,
) -> Result<(), Memory>
    ensures { OnOk result (AreByCycle inlets.now edge.now → AreLeads leads.now →
        queue.new.items ≡ queue.old.items ++ queue_of leads.now inlets.now edge.now cycle) }
{
    if !leads.used() {
        return Ok(());
    }
    for inlet in inlets {
        if leads.needs(inlet.link) {
            let by = By::Link(inlet.link);
            gather_from(leads, by, inlet.link, &inlet.log, cycle, queue)?;
        }
    }
    gather_from(leads, By::Edge, EDGE, edge, cycle, queue)?;
    Ok(())
}
