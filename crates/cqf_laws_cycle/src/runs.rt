//! A run that goes on cycle by cycle.
ghost use Rattle.cqf_laws_cycle.specs.RunSteps.{LastTableWaits, LongerRunKeepsItsCycles, LossesAreOfCycles, RunBegins, RunGoesOn, RunIsItsCycles};

/// Proves that a run of no cycles sends nothing, and how a run goes on. The network of a run with one more cycle is legal if each link
/// sends in that cycle what its gate list demands: for what arrived at its port before the cycle, and for the background frames of the
/// cycle (IEEE 802.1Q, Annex T).
pub fn run_goes_on()
    ensures begins { RunBegins }
    ensures goes_on { RunGoesOn }
{
    cqf_laws_network::legal_starts_exist();
    cqf_laws_network::late_arrival_changes_nothing();
    cqf_laws_network::the_past_alone_matters();
    crate::gate_gives_class();
    crate::port_list_is_open();
}

/// Proves that what is sent in a cycle depends only on the tables of the cycles before it: with another table in its last cycle,
/// the network of a run is the same (IEEE 802.1Q, Annex T).
pub fn last_table_waits()
    ensures { LastTableWaits }
{
    cqf_laws_network::late_arrival_changes_nothing();
    cqf_laws_network::shorter_run_is_the_beginning();
    cqf_laws_network::the_past_alone_matters();
    crate::gate_gives_class();
    crate::port_list_is_open();
}

/// Proves that a longer run with the same tables in the cycles of a shorter one sends the same in each of those cycles, and that
/// the same arrives at each bridge and each port.
pub fn longer_run_keeps_its_cycles()
    ensures { LongerRunKeepsItsCycles }
{
    cqf_laws_network::shorter_run_is_the_beginning();
    cqf_laws_network::the_past_alone_matters();
}

/// Proves that a bridge's verdicts on all that arrives in a run are its verdicts in the run's cycles. A frame is lost inside the network in
/// a run exactly if it is lost in one of the cycles.
pub fn run_is_its_cycles()
    ensures cycles { RunIsItsCycles }
    ensures losses { LossesAreOfCycles }
{}
