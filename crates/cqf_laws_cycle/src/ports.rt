//! What a port does in one cycle.
ghost use Rattle.cqf_laws_cycle.specs.PortCycle.{ClosedArrivalsChangeNothing, PortGoesOn, PortStartsTheBatch};
ghost use Rattle.cqf_laws_cycle.specs.PortCycle.{QueuedFramesWait, QueuedInItsCycle, SendsWhatCameBefore};

/// Proves that arrivals after the others change nothing up to an instant, if the gate of each is closed from its arrival until that
/// instant (IEEE 802.1Q, 8.6.8.4).
pub fn closed_arrivals_change_nothing()
    ensures { ClosedArrivalsChangeNothing }
{
    cqf_laws_network::late_arrival_changes_nothing();
}

/// Proves that a stream's frame that is queued in a cycle has a class that the compiled gate list doesn't open before the cycle's
/// end.
pub fn queued_frames_wait()
    ensures { QueuedFramesWait }
{
    crate::gate_gives_class();
    crate::port_list_is_open();
}

/// Proves that what arrives at a port by the end of a cycle is what arrived before the cycle, then the background frames of the
/// cycle, then what its bridge queues to it in the cycle.
pub fn port_goes_on()
    ensures queued { QueuedInItsCycle }
    ensures goes_on { PortGoesOn }
{}

/// Proves that what a port sends of either kind up to the end of a cycle depends only on what arrived at it before the cycle and on
/// the background frames of the cycle: it is legal for these. A port that has only these frames, and starts what is legal, starts
/// in the cycle what its link sends in it (IEEE 802.1Q, Annex T).
pub fn port_sends_what_came_before()
    ensures sends { SendsWhatCameBefore }
    ensures starts { PortStartsTheBatch }
{
    cqf_laws_network::shorter_run_is_the_beginning();
    cqf_laws_network::the_past_alone_matters();
    cqf_laws_network::legal_starts_are_unique();
    crate::gate_gives_class();
    crate::port_list_is_open();
}
