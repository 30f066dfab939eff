//! The edge of the domain.
ghost use Rattle.cqf_laws_shift.specs.Edge.{EdgeIsCovered, GateIsReservation, TakenIsCovered};

/// Proves that the stream gate of a reservation lets a frame pass exactly if the reservation has the frame's octets left in the
/// frame's cycle.
pub fn gate_is_reservation()
    ensures { GateIsReservation }
{
    cqf_laws_cycle::gate_counts_cycles();
}

/// Proves that at any bridge, regardless of what the links bring, the gates decide on each offer what the definitions say: it goes
/// on if it is covered, and otherwise it is dropped for the first reason that applies.
pub fn edge_is_covered()
    ensures { EdgeIsCovered }
{
    gate_is_reservation();
}

/// Proves that what is taken of a row's reservation in a cycle before an offer, the number by which "covered" is defined, is the
/// octets of the offers before it that the row covers in that cycle.
pub fn taken_is_covered()
    ensures { TakenIsCovered }
{}
