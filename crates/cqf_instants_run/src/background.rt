//! The starts of a history's background frames.
ghost use Rattle.std.specs.Prelude.{◌≤◌, IfOk, List, length};
ghost use Rattle.cqf_model.specs.declared.frames.Offer.{Offer};
ghost use Rattle.cqf_model.specs.History.{Recorded};
ghost use Rattle.cqf_model.specs.Run.{AreBackground};
ghost use Rattle.cqf_instants_run.specs.Parts.{AreBackgroundOfHistory, AreStartsOfHistory};
ghost use Rattle.cqf_instants_run.specs.BackgroundStarts.{SomeStarts};
ghost use Rattle.cqf_model.specs.Limits.{most_offers};

use crate::feeding::feed_links;
use crate::frames::frames_before;
use crate::law::port_starts_the_background;
use crate::reporting::report_links;
use cqf_model::{Background, Started};
use cqf_topology::Domain;
use cqf_units::{Memory, Nanos};
use std::alloc::Global;

/// Returns the starts of background frames in the first `cycles` cycles of a domain, by cycle, then link, then instant. A legal history of
/// the domain must have closed all these cycles. The result holds for each legal network of a run in which streams' frames start as given.
/// There are at most 16,777,215 background frames, each for a link of the domain.
///
/// The time grows with the starts of streams' frames, and with n log n for n background frames and their starts, since these are sorted. A
/// cycle in which nothing starts takes no time.
///
/// # Errors
/// Returns `Memory` if an allocation fails.
pub fn background_of_history(
    alloc: Global,
    domain: &Domain,
    cycles: u32,
    starts: &[Started],
    background: &[Background],
) -> Result<Vec<Started>, Memory>
    requires background { AreBackground domain.now background.now }
    requires few { length background.now ≤ most_offers }
    requires starts { SomeStarts domain.now cycles starts.now }
    ensures { IfOk result (λ backed. (entries : List Recorded) (offers : List Offer) →
        AreStartsOfHistory domain.now entries offers background.now cycles starts.now →
        AreBackgroundOfHistory domain.now entries offers background.now cycles backed.items) }
{
    cqf_laws_cycle::gate_gives_class();
    cqf_laws_history::tables_are_orderly();
    cqf_laws_network::legal_network_exists();
    port_starts_the_background();
    let cycle_time = domain.cycle_time();
    let links = domain.links();
    let end = Nanos(u64::from(cycles) * cycle_time.0);
    let frames = frames_before(alloc, background, end)?;
    let lists = feed_links(alloc, links, frames.as_slice(), starts)?;
    // the ports have these frames now
    drop(frames);
    let mut backed = report_links(alloc, domain, end, lists)?;
    backed.sort_by_key(|start| start.cycle.0)?;
    Ok(backed)
}
