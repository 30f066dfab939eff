//! The main law.
ghost use Rattle.cqf_laws_shift.specs.MainLaw.{GatesMeanTheShift};

use crate::run_beside_is_run_alone;

/// Proves that the gates mean the shift: for every accepted domain, the tables of a history and any offers, beside any background
/// frames.
///
/// The legal network sends the covered frames exactly when the shift says, each once on each link of its tree, and loses none
/// inside. Each offer that isn't covered is dropped at its edge for the first reason that applies. Loads, instants and latencies
/// are as promised (IEEE 802.1Q, Annex T, and this project's own rules).
pub fn gates_mean_the_shift()
    ensures { GatesMeanTheShift }
{
    cqf_laws_cycle::port_is_one_cycle_late();
    cqf_laws_cycle::streams_are_sent_as_alone();
    cqf_laws_cycle::gate_gives_class();
    cqf_laws_cycle::gate_counts_cycles();
    run_beside_is_run_alone();
}
