//! Laws about the stream gates of inner bridges: they change nothing, so gates at the edge alone will do.
//!
//! A stream's frames meet a stream gate at each bridge (PSFP; IEEE 802.1Q, 8.6.5.1). At the edge, where they are offered, the gate passes
//! what the reservation covers and drops the rest. After that no gate has anything to drop: a bridge sends in a cycle no more of a stream
//! than it queued in the cycle before. So an inner gate may be left out, count to a larger number, or be closed late, if each bridge still
//! gives frames their class by the cycle in which they arrive (IEEE 802.1Q, Annex T).
//!
//! `specs/InnerGates.antt` defines networks in which inner bridges have any gates, and which gates are lenient. Each law is a function that
//! ends at once. Its contract is a statement of `specs/LenientLaws.antt`.
//!
//! - [`own_gates_are_the_models`]: with the streams' own gates at inner bridges, the definitions are those of `cqf_model`.
//! - [`these_are_lenient`]: gates that are lenient.
//! - [`inner_gates_are_redundant`]: with lenient inner gates, a network may do exactly what the network with the streams' own gates may do.
//! - [`lenient_gates_keep_the_book`]: so its book is that of the run.
//! - [`edge_gates_mean_the_shift`]: the same if clocks differ and delays vary.
//!
//! ```
//! // from here on, a proof knows that inner bridges need no stream gates
//! cqf_laws_gates::inner_gates_are_redundant();
//! ```
#![tactic(auto)]

ghost use Rattle.cqf_laws_gates.specs.LenientLaws.{AccountsHoldForLenientGates, EdgeGatesMeanTheShift, InnerGatesAreRedundant};
ghost use Rattle.cqf_laws_gates.specs.LenientLaws.{LenientGatesKeepTheBook, LooseInnerGatesAreRedundant, OwnGatesAreTheModels};
ghost use Rattle.cqf_laws_gates.specs.LenientLaws.{TheseAreLenient, VerdictsAreOfOwnGates};

/// Proves that a network whose inner bridges have the streams' own gates is a network of the model, and the other way round.
pub fn own_gates_are_the_models()
    ensures { OwnGatesAreTheModels }
{}

/// Proves that these inner gates are lenient: the streams' own, no gates, and gates that count to at least what the streams reserve.
pub fn these_are_lenient()
    ensures { TheseAreLenient }
{
    cqf_laws_cycle::gate_counts_cycles();
}

/// Proves that lenient inner gates are redundant. A network with lenient inner gates may do exactly what the network with the streams' own
/// gates may do, with the same verdicts at each bridge. This holds for every accepted domain, the tables of a history and any offers,
/// beside any background frames.
pub fn inner_gates_are_redundant()
    ensures networks { InnerGatesAreRedundant }
    ensures verdicts { VerdictsAreOfOwnGates }
{
    cqf_laws_network::late_arrival_changes_nothing();
    cqf_laws_network::legal_part_is_legal();
    cqf_laws_cycle::port_is_one_cycle_late();
    cqf_laws_cycle::streams_are_sent_as_alone();
    cqf_laws_cycle::gate_gives_class();
    cqf_laws_cycle::gate_counts_cycles();
    cqf_laws_cycle::port_list_is_open();
}

/// Proves that the book of a legal history is the book of each network with lenient inner gates, and of no other. So what is promised of a
/// run and its book (`IsAccountOf` of `cqf_model/specs/Headline.antt`) is promised of each such network.
pub fn lenient_gates_keep_the_book()
    ensures book { LenientGatesKeepTheBook }
    ensures account { AccountsHoldForLenientGates }
{
    inner_gates_are_redundant();
    cqf_laws_history::tables_are_orderly();
    cqf_laws_network::book_is_unique();
}

/// Proves the same for networks whose clocks differ and whose delays vary: lenient inner gates are redundant there too, so the gates at the
/// edge alone mean the shift, for each legal history.
pub fn edge_gates_mean_the_shift()
    ensures networks { LooseInnerGatesAreRedundant }
    ensures shift { EdgeGatesMeanTheShift }
{
    inner_gates_are_redundant();
    cqf_laws_history::tables_are_orderly();
    cqf_laws_loose::loose_history_means_the_shift();
}
