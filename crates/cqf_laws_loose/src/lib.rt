//! Laws of networks whose bridges' clocks differ and whose links' delays vary: the gates mean the shift there too.
#![tactic(auto)]

ghost use Rattle.cqf_laws_loose.specs.LagLaws.{LaggingIsLoose};
ghost use Rattle.cqf_laws_loose.specs.LooseLaws.{AcceptedHasItsSlack, ExactHasItsSlack, ExactIsLoose, LooseFramesAreTimely, LooseGatesMeanTheShift};
ghost use Rattle.cqf_laws_loose.specs.LooseLaws.{LooseHistoryMeansTheShift, LooseLatencyIsWithin};
ghost use Rattle.cqf_laws_loose.specs.LooseLaws.{LooseNetworkIsUnique};
ghost use Rattle.cqf_laws_loose.specs.LooseLaws.{LooseNetworkExists, LooseNetworkLeavesByTheBook, SlackChangesNoCycle};

/// Proves that in every loose network of an accepted domain the gates mean the shift.
pub fn loose_gates_mean_the_shift()
    ensures { LooseGatesMeanTheShift }
{
    cqf_laws_cycle::port_is_one_cycle_late();
    cqf_laws_cycle::streams_are_sent_as_alone();
    cqf_laws_cycle::gate_gives_class();
    cqf_laws_cycle::gate_counts_cycles();
}

/// Proves that neither background frames nor delays nor clocks change the cycle in which a stream's frame leaves.
pub fn slack_changes_no_cycle()
    ensures { SlackChangesNoCycle }
{
    loose_gates_mean_the_shift();
}

/// Proves that a network in which all clocks agree and each link takes its greatest delay is a loose network. This holds for any
/// slack with which the domain is accepted and whose least delays are at most the greatest, so it holds for the slack that the
/// domain states.
pub fn exact_is_loose()
    ensures any { ExactIsLoose }
    ensures stated { ExactHasItsSlack }
    ensures accepted { AcceptedHasItsSlack }
{
    cqf_laws_cycle::port_is_one_cycle_late();
    cqf_laws_cycle::streams_are_sent_as_alone();
    cqf_laws_cycle::gate_gives_class();
    cqf_laws_cycle::gate_counts_cycles();
}

/// Proves bounds of the instant at which a frame has fully arrived at a link's end, and of its latency. They depend on the cost that was
/// held when the frame was queued, and on the slack.
pub fn loose_frames_are_timely()
    ensures whole { LooseFramesAreTimely }
    ensures latency { LooseLatencyIsWithin }
{
    cqf_laws_cycle::port_is_one_cycle_late();
    cqf_laws_cycle::streams_are_sent_as_alone();
    cqf_laws_cycle::gate_gives_class();
    cqf_laws_cycle::gate_counts_cycles();
}

/// Proves that in every loose network of a legal history the gates mean the shift.
pub fn loose_history_means_the_shift()
    ensures { LooseHistoryMeansTheShift }
{
    loose_gates_mean_the_shift();
    cqf_laws_history::tables_are_orderly();
}

/// Proves that for any way in which frames can arrive within the bounds, there is a network in which they arrive in this way.
pub fn loose_network_exists()
    ensures { LooseNetworkExists }
{
    cqf_laws_network::legal_starts_exist();
    cqf_laws_network::late_arrival_changes_nothing();
    cqf_laws_network::the_past_alone_matters();
    cqf_laws_cycle::port_is_one_cycle_late();
    cqf_laws_cycle::streams_are_sent_as_alone();
    cqf_laws_cycle::gate_gives_class();
    cqf_laws_cycle::gate_counts_cycles();
    cqf_laws_cycle::port_list_is_open();
}

/// Proves that what leaves in a loose network, and in which cycle, is what the run's book says.
pub fn loose_network_leaves_by_the_book()
    ensures { LooseNetworkLeavesByTheBook }
{
    loose_gates_mean_the_shift();
    cqf_laws_shift::book_says_the_shift();
}

/// Proves that for one choice of transits, the streams' frames that the links of a loose network carry are uniquely determined.
pub fn loose_network_is_unique()
    ensures { LooseNetworkIsUnique }
{
    cqf_laws_network::legal_starts_exist();
    cqf_laws_network::late_arrival_changes_nothing();
    cqf_laws_network::the_past_alone_matters();
    cqf_laws_cycle::port_is_one_cycle_late();
    cqf_laws_cycle::streams_are_sent_as_alone();
    cqf_laws_cycle::gate_gives_class();
    cqf_laws_cycle::gate_counts_cycles();
    cqf_laws_cycle::port_list_is_open();
}

/// Proves that a network whose ports start each frame later than exact ports do, by the frame's own lag up to a bound, is a loose
/// network if the greatest delays have room for that bound.
pub fn lagging_network_is_loose()
    ensures { LaggingIsLoose }
{}
