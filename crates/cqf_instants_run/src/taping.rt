//! The starts of background frames, added to the links' traces after a run.
ghost use Rattle.std.specs.Prelude.{◌≡◌, ◌++◌, ◌<◌, ◌≤◌, ◌^◌, ℕ, [], OnOk, length, map, slice_index_or};
ghost use Rattle.cqf_lists.specs.ByNumber.{lists_of};
ghost use Rattle.cqf_model.specs.Limits.{most_offers};
ghost use Rattle.cqf_port.specs.PortState.{AreTaken};
ghost use Rattle.cqf_trace.specs.Traces.{first_links, links_of, starts_at};
ghost use Rattle.cqf_instants_run.specs.Feeding.{fed};
ghost use Rattle.cqf_instants_run.specs.Taping.{BacksTheTraces, SomeTracedRun, TakeBackground, TakesBackground, arrival_of_mark};

use crate::feeding::{class_of_cycle, feed_frames};
use crate::frames::frames_before;
use crate::law::port_starts_the_background;
use crate::reporting::{is_low, starts_of_port};
use cqf_model::{Arrival, Background};
use cqf_topology::Domain;
use cqf_trace::{Mark, Trace};
use cqf_units::{Memory, Nanos};
use std::alloc::Global;

/// Returns the arrival of a stream's frame at the instant at which it starts, with the class that its cycle sends.
fn arrival_of_mark(domain: &Domain, mark: Mark) -> Arrival
    ensures { result ≡ arrival_of_mark domain.now mark }
{
    Arrival {
        at: mark.start,
        class: class_of_cycle(mark.start.0 / domain.cycle_time().0),
        octets: mark.octets,
        frame: mark.frame,
    }
}

/// Appends a trace's streams' frames to its port's arrivals, each at the instant at which it starts.
fn put_marks(domain: &Domain, marks: &[Mark], arrivals: &mut Vec<Arrival>) -> Result<(), Memory>
    ensures { OnOk result (arrivals.new.items ≡ arrivals.old.items ++ map (arrival_of_mark domain.now) marks.now) }
{
    for mark in marks {
        arrivals.push(arrival_of_mark(domain, *mark))?;
    }
    Ok(())
}

/// Adds to a trace the starts of these background frames by its link's port up to `end`. The streams' frames on the trace stay. A link
/// without background frames needs no port.
fn keep_on(
    alloc: Global,
    domain: &Domain,
    end: Nanos,
    frames: Vec<Arrival>,
    trace: &mut Trace,
) -> Result<(), Memory>
    requires link { trace.old.link < length domain.now.links }
    requires early { end.0 < 2 ^ 62 }
    requires taken { AreTaken (fed frames.items (map (arrival_of_mark domain.now) trace.old.starts.items)) }
    ensures { OnOk result (TakesBackground domain.now end.0 frames.items trace.old trace.new) }
{
    if frames.is_empty() {
        return Ok(());
    }
    let mut arrivals = frames;
    put_marks(domain, trace.starts.as_slice(), &mut arrivals)?;
    let made = starts_of_port(alloc, domain, trace.link, end, arrivals)?;
    for start in made.as_slice() {
        if is_low(start) {
            trace.background.push(Mark {
                start: start.start,
                frame: start.frame,
                octets: start.octets,
            })?;
        }
    }
    Ok(())
}

/// Adds to each trace the starts by its link's port of the background frames in the list at the same index. Each list is freed after its
/// port has run.
fn keep_on_each(
    alloc: Global,
    domain: &Domain,
    end: Nanos,
    lists: Vec<Vec<Arrival>>,
    traces: &mut [Trace],
) -> Result<(), Memory>
    requires links { links_of traces.old ≡ first_links (length domain.now.links) }
    requires one_each { length lists.items ≡ length domain.now.links }
    requires few { length lists.items < 2 ^ 16 }
    requires early { end.0 < 2 ^ 62 }
    requires taken { (l : ℕ) → l < length lists.items →
        AreTaken (fed (slice_index_or (lists_of lists.items) l []) (map (arrival_of_mark domain.now) (starts_at traces.old l))) }
    ensures { OnOk result (TakeBackground domain.now end.0 (λ l. slice_index_or (lists_of lists.items) l []) traces.old traces.new) }
{
    let mut index = 0;
    for frames in lists {
        keep_on(alloc, domain, end, frames, &mut traces[index])?;
        index += 1;
    }
    Ok(())
}

/// Adds to the traces of a run's links, which are in order of link number, the starts of background frames until the run's end. There are
/// at most 16,777,215 background frames. The streams' frames on the traces stay. The starts are those of each legal network of a run in
/// which streams' frames start as on the traces.
///
/// The time grows with n log n for n background frames, since these are sorted, and with the starts of all links that have background
/// frames.
///
/// # Errors
/// Returns `Memory` if an allocation fails. Some traces may have their background frames then.
pub fn keep_background(
    alloc: Global,
    domain: &Domain,
    end: Nanos,
    background: &[Background],
    traces: &mut [Trace],
) -> Result<(), Memory>
    requires few { length background.now ≤ most_offers }
    requires run { SomeTracedRun domain.now end.0 background.now traces.old }
    ensures { OnOk result (BacksTheTraces domain.now end.0 background.now traces.old traces.new) }
{
    cqf_laws_cycle::gate_gives_class();
    port_starts_the_background();
    let links = domain.links();
    let frames = frames_before(alloc, background, end)?;
    let lists = feed_frames(alloc, links, frames.as_slice())?;
    // the ports have these frames now
    drop(frames);
    keep_on_each(alloc, domain, end, lists, traces)?;
    Ok(())
}
