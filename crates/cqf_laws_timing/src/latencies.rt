//! Laws about how long frames take.
ghost use Rattle.cqf_laws_timing.specs.Latency.{BookIsTimely, BoundsAreShort, FramesAreWholeWithinHeld};
ghost use Rattle.cqf_laws_timing.specs.Latency.{FramesAreWholeWithinQueued, LatencyIsWithinHeld};
ghost use Rattle.cqf_laws_timing.specs.Latency.{StartsAreWholeWithinHeld};
ghost use Rattle.cqf_laws_timing.specs.Listeners.{BranchesEnd, HopNumbersAreBridges};
ghost use Rattle.cqf_laws_timing.specs.LooseStreams.{LooseHistoryIsInTime, LooseHistoryIsTimely, LooseVerdictsHold};
ghost use Rattle.cqf_laws_timing.specs.Streams.{AdmitsOnlyGoesOn, AdmittedHaveNames, HistoryIsTimely};
ghost use Rattle.cqf_laws_timing.specs.Streams.{ListCostsItsTable, NoneAdmitsOnly, OneOfAName, RowsAreOfList};
ghost use Rattle.cqf_laws_timing.specs.Streams.{TablesCostNoMore};
ghost use Rattle.cqf_laws_timing.specs.Verdicts.{VerdictsHold};

/// Proves bounds of the instant at which a frame has fully arrived in the next node: by the cost of the streams that are held in the cycle
/// of its start, and by the cost of those that are held in the cycle in which it was queued. So the latency of each frame, and of each
/// start of a book, is within its bounds. If the streams fit into the link's budget, the least bound is at most the greatest, and the
/// greatest is less than one cycle time more than the hop number's cycle times.
pub fn frames_are_timely()
    ensures whole { FramesAreWholeWithinHeld }
    ensures queued { FramesAreWholeWithinQueued }
    ensures latency { LatencyIsWithinHeld }
    ensures starts { StartsAreWholeWithinHeld }
    ensures book { BookIsTimely }
    ensures short { BoundsAreShort }
{
    cqf_laws_cycle::port_is_one_cycle_late();
    cqf_laws_cycle::streams_are_sent_as_alone();
    cqf_laws_cycle::gate_gives_class();
    cqf_laws_cycle::gate_counts_cycles();
    cqf_laws_shift::run_beside_is_run_alone();
    cqf_laws_shift::gates_mean_the_shift();
}

/// Proves that a list of streams bounds the costs of a history that admits only streams of the list: each row of its tables is one
/// of the list's, and no table costs more of a link than the whole list.
///
/// An empty history admits only streams of the list, and this still holds after a call that requests no other stream. A list that is
/// admitted before cycle 0 costs exactly what the table of cycle 0 costs, and the names of its streams differ.
pub fn lists_bound_costs()
    ensures none { NoneAdmitsOnly }
    ensures more { AdmitsOnlyGoesOn }
    ensures rows { RowsAreOfList }
    ensures tables { TablesCostNoMore }
    ensures admitted { ListCostsItsTable }
    ensures names { AdmittedHaveNames }
    ensures one { OneOfAName }
{
    cqf_laws_history::tables_are_orderly();
    cqf_laws_history::state_follows_history();
}

/// Proves that the frames of such a history take no less than the least and no more than the most that is reported for the list,
/// and that the verdicts on deadlines hold.
pub fn lists_bound_latencies()
    ensures timely { HistoryIsTimely }
    ensures verdicts { VerdictsHold }
{
    cqf_laws_cycle::port_is_one_cycle_late();
    cqf_laws_cycle::streams_are_sent_as_alone();
    cqf_laws_cycle::gate_gives_class();
    cqf_laws_cycle::gate_counts_cycles();
    cqf_laws_shift::run_beside_is_run_alone();
    cqf_laws_shift::gates_mean_the_shift();
    cqf_laws_history::tables_are_orderly();
}

/// Proves the same for every loose network of the history. For any clocks and delays within what the domain states, frames take no less
/// than the least and no more than the most that is reported for the list, and the verdicts on deadlines hold. With any other slack with
/// which the domain is accepted, frames arrive within the list's bounds for that slack.
pub fn loose_history_is_timely()
    ensures timely { LooseHistoryIsTimely }
    ensures verdicts { LooseVerdictsHold }
    ensures in_time { LooseHistoryIsInTime }
{
    cqf_laws_history::tables_are_orderly();
    cqf_laws_loose::loose_frames_are_timely();
}

/// Proves that a branch of a request that isn't refused ends, by a link of the request's tree, in its listener's station, and that
/// the hop number of that link is the number of bridges on the path.
pub fn branches_end_at_listeners()
    ensures ends { BranchesEnd }
    ensures hop_numbers { HopNumbersAreBridges }
{
    cqf_laws_history::granted_is_a_tree();
}
