//! The two phases of a cycle at a bridge (IEEE 802.1Q, Annex T), and their inputs.
use cqf_admission::Table;
use cqf_model::Backed;
use cqf_topology::Domain;
use cqf_units::Cycle;

/// The transmit phase of a cycle: the ports run to the end of the cycle.
#[derive(Clone, Copy)]
pub(crate) struct TransmitPhase<'d, 'b> {
    pub(crate) domain: &'d Domain,
    pub(crate) cycle: Cycle,
    /// The bridge's background frames of the cycle, in order of instant, then index.
    pub(crate) background: &'b [Backed],
}

/// The receive phase of a cycle: frames are policed by the table of the cycle.
#[derive(Clone, Copy)]
pub(crate) struct ReceivePhase<'d, 't> {
    pub(crate) domain: &'d Domain,
    /// The bridge's number among the domain's.
    pub(crate) number: u16,
    pub(crate) cycle: Cycle,
    pub(crate) table: &'t Table,
}
