//! The state of a pass, and how it goes on by a cycle.
ghost use Rattle.std.specs.Prelude.{◌≡◌, ◌+◌, ◌<◌, [], IfOk};
ghost use Rattle.cqf_instants.specs.Laws.{TheLaws};
ghost use Rattle.cqf_instants.specs.Meaning.{Given};
ghost use Rattle.cqf_instants.specs.Progress.{IsBasisOf, IsUnderWay, SomeBasis, starts_of_cycle};

use crate::basis::Basis;
use crate::cycle::report_links;
use crate::link::TimedCycle;
use crate::offers::put_offers;
use crate::queues::Waiting;
use crate::rooms::{empty_queues, frames_in_all};
use cqf_model::Started;
use cqf_units::{Cycle, Memory};
use std::alloc::Global;

/// The state of a pass before a cycle.
#[derive(Debug, Drop)]
pub(crate) struct Standing {
    /// A queue for each link, with what it sends in the next cycle.
    pub(crate) now: Vec<Vec<Waiting>>,
    /// A queue for each link, with what it sends in the cycle after that: nothing yet.
    pub(crate) next: Vec<Vec<Waiting>>,
    /// The index of the first offer of the next cycle or a later one.
    pub(crate) from: usize,
    /// The instant at which the next cycle begins, in nanoseconds.
    pub(crate) begins: u64,
    /// The starts of the last computed cycle.
    pub(crate) starts: Vec<Started>,
}

/// Proves the laws that a pass relies on.
fn the_laws()
    ensures { TheLaws }
{
    cqf_laws_instants::batch_is_due();
    cqf_laws_instants::queue_has_room();
    cqf_laws_instants::what_a_cycle_queues();
    cqf_laws_instants::gathered_is_queued();
}

/// Returns the state of a pass before its first cycle, with all the memory that it will need. Returns `Memory` if an allocation
/// fails.
pub(crate) fn stand_at_first(alloc: Global, basis: &Basis) -> Result<Standing, Memory>
    requires { SomeBasis basis.now }
    ensures under_way { IfOk result (IsUnderWay basis.now 0) }
    ensures none { IfOk result (λ standing. standing.starts.items ≡ []) }
{
    the_laws();
    let links = basis.links.as_slice();
    let entering = basis.offers.as_slice();
    let offers = entering.len();
    let now = empty_queues(alloc, links, basis.cycle_time, basis.guard, offers)?;
    let next = empty_queues(alloc, links, basis.cycle_time, basis.guard, offers)?;
    let frames = frames_in_all(links, basis.cycle_time, basis.guard, offers);
    let starts = Vec::with_capacity(alloc, frames)?;
    Ok(Standing {
        now,
        next,
        from: 0,
        begins: 0,
        starts,
    })
}

/// Computes the starts of a cycle, and moves the state to the next one.
pub(crate) fn report_cycle(basis: &Basis, cycle: u32, standing: &mut Standing)
    requires under_way { IsUnderWay basis.now cycle standing.old }
    requires in_run { cycle < basis.now.cycles }
    ensures under_way { IsUnderWay basis.now (cycle + 1) standing.new }
    ensures starts { (given : Given) → IsBasisOf given basis.now → standing.new.starts.items ≡ starts_of_cycle given cycle }
{
    the_laws();
    let begins = standing.begins;
    let ends = begins + u64::from(basis.cycle_time);
    let branches = basis.branches.as_slice();
    standing.starts.clear();
    report_links(
        basis.links.as_slice(),
        TimedCycle {
            number: Cycle(cycle),
            begins,
        },
        branches,
        &mut standing.now,
        &mut standing.next,
        &mut standing.starts,
    );
    standing.from = put_offers(
        basis.offers.as_slice(),
        standing.from,
        begins,
        ends,
        branches,
        &mut standing.next,
    );
    std::mem::swap(&mut standing.now, &mut standing.next);
    standing.begins = ends;
}
