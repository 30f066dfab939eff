//! What reservations cost of a link.
ghost use Rattle.cqf_laws_shift.specs.Cost.{WireWithinCost};

/// Proves that frames within a reservation take no more of the wire in a cycle than the reservation's cost.
pub fn wire_within_cost()
    ensures { WireWithinCost }
{}
