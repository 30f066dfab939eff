//! The verdicts on the frames that arrive at a bridge, one after the other.
ghost use Rattle.std.specs.Prelude.{◌≡◌, Bool, IfOk, List, OnErr, Some};
ghost use Rattle.cqf_model.specs.declared.topology.Row.{Row as ARow};
ghost use Rattle.cqf_model.specs.Domain.{cycle_of};
ghost use Rattle.cqf_model.specs.Table.{table_of};
ghost use Rattle.cqf_model.specs.Policing.{AtEdge as Offering, Policed, Relayed, edge_verdict};
ghost use Rattle.cqf_bridge.specs.Gates.{HaveCounted};
ghost use Rattle.cqf_bridge.specs.Taking.{IsPolicedAfter, PassesGate, Polices, ingress_taken, received_as, verdict_unless};

use crate::StreamGates;
use crate::checking::leads_on;
use crate::gathering::{Came, Incoming};
use crate::phases::ReceivePhase;
use cqf_admission::Table;
use cqf_gates::Passed;
use cqf_laws_cycle::gate_counts_cycles;
use cqf_model::{Reason, Row};
use cqf_topology::Domain;
use cqf_units::{Cycle, Memory, Name, Octets, counted};

/// The verdict on a frame that arrives at a bridge (after IEEE 802.1Q, 8.6.5.1).
#[derive(Clone, Copy, Debug)]
pub enum FrameVerdict<'a> {
    /// The frame goes on with its stream's row. It waits in this class at each port of the bridge by whose link the stream goes on.
    GoesOn(&'a Row, u8),
    /// The frame was offered at the edge, and is dropped for this reason, the first that applies.
    Dropped(Reason),
    /// The frame arrived by a link and is lost inside: there is no row of its stream, or the row's tree doesn't go on from this bridge
    /// after that link.
    LacksRow,
    /// The frame arrived by a link and is lost inside: its stream's gate has fewer octets left.
    ExceedsGate,
}

/// Passes a frame to its stream's gate. Returns the class in which the frame waits, or `None` if it doesn't pass.
fn pass_gate(
    domain: &Domain,
    cycle: Cycle,
    row: &Row,
    frame: &Incoming,
    gates: &mut StreamGates,
) -> Result<Option<u8>, Memory>
    requires in_cycle { cycle_of domain.now frame.now.at.0 ≡ cycle.0 }
    ensures passes { IfOk result (λ class. PassesGate domain.now cycle.0 (received_as frame.now) row.now gates.old gates.new class) }
    ensures err { OnErr result (gates.new ≡ gates.old) }
{
    gate_counts_cycles();
    domain.know();
    let ingress = frame.came.link();
    let octets = counted(Octets(domain.overhead()), Octets(frame.octets));
    match gates.pass(domain, row, ingress, frame.at, octets)? {
        Passed::Class(class) => Ok(Some(class)),
        Passed::OverOctets => Ok(None),
    }
}

/// Returns why an offer with the name of a row's stream is dropped, apart from its gate. Returns `None` if only the gate decides.
fn refused(domain: &Domain, number: u16, cycle: Cycle, row: &Row) -> Option<Reason>
    ensures { (passes : ARow → Bool) → edge_verdict domain.now number cycle.0 passes (Some row.now) ≡ verdict_unless result (passes row.now) row.now }
{
    if !row.live(cycle) {
        return Some(Reason::Withdrawn);
    }
    if !leads_on(domain, row, None, number) {
        return Some(Reason::OtherBridge);
    }
    None
}

/// Returns the verdict on an offer: it goes on, or is dropped for the first reason that applies.
fn police_offer<'a>(
    phase: ReceivePhase<'_, 'a>,
    frame: &Incoming,
    name: &Name,
    gates: &mut StreamGates,
) -> Result<FrameVerdict<'a>, Memory>
    requires ingress { ingress_taken frame.now.came ≡ Offering name.now }
    requires in_cycle { cycle_of phase.domain.now frame.now.at.0 ≡ phase.cycle.0 }
    ensures polices { IfOk result (λ outcome. Polices phase.entry.domain.now phase.entry.table.now.rows phase.entry.number phase.entry.cycle.0
        (received_as frame.now) gates.old gates.new outcome) }
    ensures err { OnErr result (gates.new ≡ gates.old) }
{
    let Some(row) = phase.table.row_named(name) else {
        return Ok(FrameVerdict::Dropped(Reason::Unknown));
    };
    if let Some(reason) = refused(phase.domain, phase.number, phase.cycle, row) {
        return Ok(FrameVerdict::Dropped(reason));
    }
    match pass_gate(phase.domain, phase.cycle, row, frame, gates)? {
        Some(class) => Ok(FrameVerdict::GoesOn(row, class)),
        None => Ok(FrameVerdict::Dropped(Reason::Octets)),
    }
}

/// Returns the verdict on a frame that arrived by a link: it goes on, or is lost inside.
fn police_inside<'a>(
    phase: ReceivePhase<'_, 'a>,
    frame: &Incoming,
    link: u16,
    stream: u32,
    gates: &mut StreamGates,
) -> Result<FrameVerdict<'a>, Memory>
    requires ingress { ingress_taken frame.now.came ≡ Relayed link stream }
    requires in_cycle { cycle_of phase.domain.now frame.now.at.0 ≡ phase.cycle.0 }
    ensures polices { IfOk result (λ outcome. Polices phase.entry.domain.now phase.entry.table.now.rows phase.entry.number phase.entry.cycle.0
        (received_as frame.now) gates.old gates.new outcome) }
    ensures err { OnErr result (gates.new ≡ gates.old) }
{
    let Some(row) = phase.table.row_of(stream) else {
        return Ok(FrameVerdict::LacksRow);
    };
    if !leads_on(phase.domain, row, Some(link), phase.number) {
        return Ok(FrameVerdict::LacksRow);
    }
    match pass_gate(phase.domain, phase.cycle, row, frame, gates)? {
        Some(class) => Ok(FrameVerdict::GoesOn(row, class)),
        None => Ok(FrameVerdict::ExceedsGate),
    }
}

/// Returns the verdict on a frame at the bridge of this number, by the table of its cycle and after the frames that the gates have counted.
/// If the frame goes on, its stream's gate counts it (after IEEE 802.1Q, 8.6.5.1). The frame is whole within the cycle. Returns `Memory` if
/// an allocation fails; the gates are unchanged then.
pub fn police<'a>(
    domain: &Domain,
    number: u16,
    cycle: Cycle,
    table: &'a Table,
    frame: &Incoming,
    gates: &mut StreamGates,
) -> Result<FrameVerdict<'a>, Memory>
    requires in_cycle { cycle_of domain.now frame.now.at.0 ≡ cycle.0 }
    ensures police { IfOk result (λ outcome. Polices domain.now table.now.rows number cycle.0 (received_as frame.now) gates.old gates.new outcome) }
    ensures following { IfOk result (λ outcome. (tables : List (List ARow)) (policed : List Policed) → table_of tables cycle.0 ≡ table.now.rows →
        HaveCounted domain.now cycle.0 policed gates.old →
        IsPolicedAfter domain.now tables number cycle.0 (received_as frame.now) policed gates.new outcome) }
    ensures err { OnErr result (gates.new ≡ gates.old) }
{
    gate_counts_cycles();
    // a fact that `know` gives: the domain is accepted
    domain.know();
    let phase = ReceivePhase {
        domain,
        number,
        cycle,
        table,
    };
    match &frame.came {
        Came::ByLink(link, stream) => {
            let outcome = police_inside(phase, frame, *link, *stream, gates)?;
            Ok(outcome)
        }
        Came::AtEdge(name) => {
            let outcome = police_offer(phase, frame, name, gates)?;
            Ok(outcome)
        }
    }
}
