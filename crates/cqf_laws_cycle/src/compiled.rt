//! What the compiled gate lists do in a cycle.
ghost use Rattle.cqf_laws_cycle.specs.Compiled.{PortListIsOpen, PortListSends, GateGivesClass, GateCountsCycles, ClassesAlternate};

/// Proves which gates a port has open: class 7 in even cycles and class 6 in odd ones, and in each cycle classes 0 to 5, all until the
/// guard band begins, and no other class at any instant (IEEE 802.1Q, 8.6.8.4 and Annex T).
pub fn port_list_is_open()
    ensures { PortListIsOpen }
{}

/// Proves that a frame may start in a cycle exactly if it has the cycle's class of streams or one of classes 0 to 5, and its
/// sending ends no later than the guard band begins.
pub fn port_list_sends()
    ensures { PortListSends }
{}

/// Proves that the gate of a reservation gives class 6 in even cycles and class 7 in odd ones (IEEE 802.1Q, 8.6.5.1 and Annex T).
pub fn gate_gives_class()
    ensures { GateGivesClass }
{}

/// Proves that the gate of a reservation counts the octets of each cycle separately.
pub fn gate_counts_cycles()
    ensures { GateCountsCycles }
{}

/// Proves that what is queued in a cycle has the class that the next cycle sends.
pub fn classes_alternate()
    ensures { ClassesAlternate }
{}
