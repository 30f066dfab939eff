//! The streams of a plan; or the line that says why there is no plan.
ghost use Rattle.std.specs.Prelude.{◌≡◌, ◌++◌, ◌<◌, ◌≤◌, All, IfOk, OnOk, Some, length, map, string_bytes};
ghost use Rattle.cqf_admission.specs.Asking.{asked_paced};
ghost use Rattle.cqf_model.specs.Limits.{longest_cycle, most_every};
ghost use Rattle.cqf_program_placing.specs.Placing.{BeginsEarly, outcome_value};
ghost use Rattle.cqf_program_placing.specs.Settled.{settled_value};
ghost use Rattle.cqf_traffic.specs.FlowsText.{flow_text};
ghost use Rattle.cqf_traffic.specs.Keys.{bound_of};
ghost use Rattle.cqf_program_planning.specs.Choosing.{IsBad, line_of_nearest};
ghost use Rattle.cqf_program_planning.specs.Judging.{flow_of, flows_placed, traffic_written};
ghost use Rattle.cqf_program_planning.specs.PlanOutput.{AreChoicesOf, offset_before, offset_written, taken_by};
ghost use Rattle.cqf_program_planning.specs.Steps.{AreTurned, IsTurned, flows_by};

use crate::candidates::Candidate;
use cqf_edge::AccessTimes;
use cqf_network_text::FilledStream;
use cqf_program_placing::{PlacingOutcome, Settled};
use cqf_topology::{PacedRequest, Planned};
use cqf_traffic::{Flow, Traffic, TrafficKey};
use cqf_units::{Memory, Nanos};
use std::alloc::Global;

/// Returns the traffic of a stream that is placed on a cycle time in this phase, as the plan has it.
fn traffic_written(stream: &Settled, cycle_time: Nanos, phase: u32) -> Option<Traffic>
    requires some { 0 < cycle_time.0 }
    requires short { cycle_time.0 ≤ longest_cycle }
    requires early { phase < most_every }
    ensures { result ≡ traffic_written cycle_time.0 (settled_value stream.now) phase }
{
    if !stream.is_chosen_on(cycle_time) {
        return stream.traffic;
    }
    let Some(traffic) = stream.traffic else {
        return None;
    };
    let begins = u64::from(phase) * cycle_time.0 + traffic.offset().0 % cycle_time.0;
    Some(traffic.from_instant(Nanos(begins)))
}

/// Returns a stream that is placed on a cycle time with a request, as the plan has it.
fn flow_of(stream: &Settled, cycle_time: Nanos, request: PacedRequest) -> Flow
    requires some { 0 < cycle_time.0 }
    requires short { cycle_time.0 ≤ longest_cycle }
    requires early { request.phase < most_every }
    ensures { flow_text result ≡ flow_of cycle_time.0 (settled_value stream.now) (asked_paced request) }
{
    let traffic = traffic_written(stream, cycle_time, request.phase);
    Flow {
        planned: Planned {
            request,
            deadline: stream.deadline,
        },
        traffic,
    }
}

/// Puts a stream after others, as the plan has it, if the stream is placed.
fn put_flow(
    alloc: Global,
    flows: &mut Vec<Flow>,
    stream: &Settled,
    cycle_time: Nanos,
    outcome: &PlacingOutcome,
) -> Result<(), Memory>
    requires some { 0 < cycle_time.0 }
    requires short { cycle_time.0 ≤ longest_cycle }
    requires early { BeginsEarly (outcome_value outcome.now) }
    ensures { OnOk result (map flow_text flows.new.items
        ≡ map flow_text flows.old.items ++ flows_by cycle_time.0 (settled_value stream.now) (outcome_value outcome.now)) }
{
    match outcome {
        PlacingOutcome::Placed(request) => {
            let copy = request.try_copy(alloc)?;
            flows.push(flow_of(stream, cycle_time, copy))?;
        }
        PlacingOutcome::Unplaced(_) => {}
    }
    Ok(())
}

/// Returns those of some streams that are placed on a cycle time, as the plan has them.
pub(crate) fn flows_placed(
    alloc: Global,
    streams: &[Settled],
    cycle_time: Nanos,
    outcomes: &[PlacingOutcome],
) -> Result<Vec<Flow>, Memory>
    requires some { 0 < cycle_time.0 }
    requires short { cycle_time.0 ≤ longest_cycle }
    requires each { length outcomes.now ≡ length streams.now }
    requires early { All BeginsEarly (map outcome_value outcomes.now) }
    ensures { IfOk result (λ flows. map flow_text flows.items
        ≡ flows_placed cycle_time.0 (map settled_value streams.now) (map outcome_value outcomes.now)) }
{
    let mut flows = Vec::new(alloc);
    for (index, stream) in streams.iter().enumerate() {
        put_flow(alloc, &mut flows, stream, cycle_time, &outcomes[index])?;
    }
    Ok(flows)
}

/// Returns the instant at which a talker's offers begin, in nanoseconds, if its stream's grid begins at an instant at its edge bridge, its
/// stream is offered in one of `every` cycles, and its frames take at least `taken` nanoseconds to that bridge. It is the least one that is
/// so, up to `every` cycles.
fn offset_before(at_edge: Nanos, taken: u64, cycle_time: Nanos, every: u32) -> u32
    requires some { 0 < cycle_time.0 }
    requires short { cycle_time.0 ≤ longest_cycle }
    requires active_cycles { 0 < every }
    requires few { every ≤ most_every }
    requires early { at_edge.0 ≤ bound_of TrafficKey.Offset }
    ensures { result ≡ offset_before at_edge.0 taken cycle_time.0 every }
{
    let round = u64::from(every) * cycle_time.0;
    let late = taken % round;
    ((at_edge.0 + round - late) % round) as u32
}

/// Returns how long the frames of a stream take to its edge bridge at least, in nanoseconds.
fn taken_by(times: Option<AccessTimes>) -> u64
    ensures { result ≡ taken_by times }
{
    match times {
        Some(times) => u64::from(times.least),
        None => 0,
    }
}

/// Returns the instant at which the offers of a stream begin at its talker, if the cycles in which it is offered were chosen, by its traffic
/// at its edge bridge.
fn offset_written(
    stream: &Settled,
    cycle_time: Nanos,
    flow: &Flow,
    times: Option<AccessTimes>,
) -> Option<u32>
    requires some { 0 < cycle_time.0 }
    requires short { cycle_time.0 ≤ longest_cycle }
    requires turned { IsTurned (flow_text flow.now) }
    ensures { result ≡ offset_written cycle_time.0 (settled_value stream.now) (flow_text flow.now) times }
{
    if !stream.is_chosen_on(cycle_time) {
        return None;
    }
    let Some(traffic) = flow.traffic else {
        return None;
    };
    let every = flow.planned.request.every;
    Some(offset_before(traffic.offset(), taken_by(times), cycle_time, every))
}

/// Returns what was chosen for streams that are all placed on a cycle time, by how their flows come to their edge bridges and how long they
/// take there.
pub(crate) fn choices_of(
    alloc: Global,
    streams: &[Settled],
    cycle_time: Nanos,
    flows: Vec<Flow>,
    times: &[Option<AccessTimes>],
) -> Result<Vec<FilledStream>, Memory>
    requires some { 0 < cycle_time.0 }
    requires short { cycle_time.0 ≤ longest_cycle }
    requires turned { AreTurned (map settled_value streams.now) (map flow_text flows.items) }
    requires taken { length times.now ≡ length streams.now }
    ensures { IfOk result (λ filled. AreChoicesOf cycle_time.0 (map settled_value streams.now) (map flow_text flows.items) times.now filled.items) }
{
    let mut filled = Vec::with_capacity(alloc, flows.len())?;
    for flow in flows {
        let index = filled.len();
        let offset = offset_written(&streams[index], cycle_time, &flow, times[index]);
        filled.push(FilledStream {
            request: flow.planned.request,
            offset,
        })?;
    }
    Ok(filled)
}

/// Returns the line that says why none of `count` candidates is good, by the nearest of them.
pub(crate) fn line_of_nearest(
    alloc: Global,
    count: usize,
    nearest: &Candidate,
) -> Result<String, Memory>
    requires { IsBad nearest.now }
    ensures { IfOk result (λ line. string_bytes line ≡ line_of_nearest count (Some nearest.now)) }
{
    let Some(fault) = &nearest.fault else {
        unreachable!();
    };
    let cycle_time = nearest.cycle_time;
    if count == 1 {
        let line = format!(in alloc; "cqf: plan: {fault}\n")?;
        return Ok(line);
    }
    let line = format!(in alloc;
        "cqf: plan: no cycle of {count} is good; at {cycle_time} {fault}\n"
    )?;
    Ok(line)
}
