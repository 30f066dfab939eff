//! Laws that connect the commands: what `latency` and `plan` say about a plan holds in each run of it.
//!
//! Each law is a function that returns at once. Its contract is a statement of `specs/`, and its proof shows that the statement holds.
//!
//! ```
//! // from here on, a proof knows that no delivery of a script over a plan is late if `latency` says `in-time`
//! cqf_program_laws::written_verdicts_hold();
//! ```
#![tactic(auto)]

ghost use Rattle.cqf_program_laws.specs.CostLaws.{HeldCostsRepeat, ListedCostsRepeat};
ghost use Rattle.cqf_program_laws.specs.OutputLaws.{DeliveriesAreAsWritten, RunsKeepWrittenPlans, ThreadsAreAsWritten, ThreadsKeepWrittenPlans};
ghost use Rattle.cqf_program_laws.specs.OutputLaws.{WrittenLatenciesAreBounded, WrittenOffersCountOnce, WrittenRowsAddUp};
ghost use Rattle.cqf_program_laws.specs.PlanLaws.{PlansKeepTheirWord, PlansKeepTheirWordLoosely, PlansKeepTheirWordOnThreads, PlansKeepTheirWordToScripts};
ghost use Rattle.cqf_program_laws.specs.ReaderLaws.{EdgesArePlanned, FlowsArePlanned, NetworkFlowsAreFlows, PlannedPartsArePaced};
ghost use Rattle.cqf_program_laws.specs.ReaderLaws.{PlannedScenariosAreScenarios, PlannedStreamsArePaced, ReadersAgreeOnParts, ScenariosMayBeRun};
ghost use Rattle.cqf_program_laws.specs.ScriptLaws.{AccountsAdmitOnly, HistoriesAdmitOnly, HistoriesAreLegal};
ghost use Rattle.cqf_program_laws.specs.ScriptLaws.{PlannedScenariosAskOnly, ScenariosAskOnly, ScriptsAskOnly};
ghost use Rattle.cqf_program_laws.specs.SummaryLaws.{EachListenerHasARow, EachOfferCountsOnce, LatenciesAreBounded, RowsAddUp};
ghost use Rattle.cqf_program_laws.specs.TalkerLaws.{NetworksKeepTheirWord, NetworksKeepTheirWordLoosely, NetworksKeepTheirWordOnThreads};
ghost use Rattle.cqf_program_laws.specs.TalkerLaws.{NetworksKeepTheirWordToScripts, WordsHoldFromTalkers};
ghost use Rattle.cqf_program_laws.specs.WrittenPlans.{WrittenPlansRun};
ghost use Rattle.cqf_program_laws.specs.VerdictLaws.{VerdictsHoldOfAccounts, VerdictsHoldOfDeliveries, VerdictsHoldOfScripts};

/// The calls of a script request no stream but those of its streams text. So its history admits no other, on one thread and in each account
/// of its run on threads. If there is room for the calls, the history is legal.
pub fn scripts_admit_only()
    ensures scripts { ScriptsAskOnly }
    ensures scenarios { ScenariosAskOnly }
    ensures planned { PlannedScenariosAskOnly }
    ensures histories { HistoriesAdmitOnly }
    ensures accounts { AccountsAdmitOnly }
    ensures legal { HistoriesAreLegal }
{
    cqf_laws_timing::histories_admit_only();
    cqf_laws_history::state_follows_history();
}

/// If the verdict on the latency from a stream's edge bridge to a listener is `in-time`, no delivery of a frame of that stream to that listener is late; if
/// it is `late`, each delivery that has arrived is late. This holds in the book of each history that admits streams of the plan alone, as those
/// of a script over them do, on one thread and on threads, with any withdrawals, offers and background frames.
pub fn written_verdicts_hold()
    ensures deliveries { VerdictsHoldOfDeliveries }
    ensures scripts { VerdictsHoldOfScripts }
    ensures accounts { VerdictsHoldOfAccounts }
{
    scripts_admit_only();
    cqf_laws_timing::reported_bounds_hold();
    cqf_laws_timing::lists_bound_costs();
    cqf_laws_history::tables_are_orderly();
    cqf_laws_shift::book_of_history_says_the_shift();
    cqf_program_runs::arrivals_are_the_shift();
}

/// A plan keeps its word if its streams are all admitted before cycle 0, each reserves as much as its talker needs in a cycle, and none may
/// miss its deadline. Take a run that admits streams of the plan alone, with any withdrawals, any offers of others and any background
/// frames. Take a frame of one of these streams that a talker which keeps its own word offers at the edge bridge, in a cycle in which the
/// stream is offered, while it is live. The frame is covered, so it leaves on each link of its tree. It is whole at each of the stream's
/// listeners within its deadline after its offer, if the run is long enough. The same holds in each script over the plan, on one thread and
/// on threads.
///
/// If no access link is full, and the streams make such a plan at their edge bridges, the network keeps its word from the hand-over. Take a
/// station that hands frames of its streams to an access link as the file promises. The link sends them one after the other, in any order,
/// and is never idle while one waits. The station may send other frames, which no stream promises. At most one of these is under way at a
/// time, and it is no larger than the file allows. Each frame that is whole at its edge bridge in a cycle of its stream, while the stream is
/// live, is covered. It is whole at each listener within the deadline in the file, counted from its hand-over, if the run is long enough. So
/// it doesn't matter what the station's other streams, other stations and administrators do.
pub fn written_plans_keep_their_word()
    ensures runs { PlansKeepTheirWord }
    ensures scripts { PlansKeepTheirWordToScripts }
    ensures accounts { PlansKeepTheirWordOnThreads }
    ensures talkers { WordsHoldFromTalkers }
    ensures networks { NetworksKeepTheirWord }
    ensures network_scripts { NetworksKeepTheirWordToScripts }
    ensures network_accounts { NetworksKeepTheirWordOnThreads }
{
    scripts_admit_only();
    cqf_laws_history::state_follows_history();
    cqf_laws_timing::lists_bound_costs();
    cqf_laws_timing::branches_end_at_listeners();
    cqf_laws_timing::conforming_stream_is_covered();
    cqf_laws_timing::conforming_stream_is_in_time();
    cqf_access::access_link_bounds_queueing();
    cqf_access::edge_conforms_closer();
    cqf_edge::streams_come_by_links();
}

/// The same holds in every loose network, in which clocks and delays vary within the bounds that the domain states. If all offers of a
/// stream's name keep its talker's word, each of them in a cycle of the stream while it is live is whole at each of its listeners, by the
/// clock there, within the plan's deadline after its offer by the edge bridge's clock, if the run is long enough. If they come by an access
/// link, each is there within the deadline in the file, counted from its hand-over by the edge bridge's clock.
pub fn written_plans_keep_their_word_loosely()
    ensures edges { PlansKeepTheirWordLoosely }
    ensures talkers { NetworksKeepTheirWordLoosely }
{
    cqf_laws_history::state_follows_history();
    cqf_laws_timing::lists_bound_costs();
    cqf_laws_timing::branches_end_at_listeners();
    cqf_laws_timing::conforming_stream_is_heard_in_time();
    cqf_access::access_link_bounds_queueing();
    cqf_access::edge_conforms_closer();
    cqf_edge::streams_come_by_links();
}

/// The offers that a row of `summary` counts are as many as the delivered, late, dropped and under-way ones at the row's listener together.
/// This holds for every script over the streams of the file, with any admissions, withdrawals, offers and background frames.
pub fn summaries_add_up()
    ensures { RowsAddUp }
{
    scripts_admit_only();
    cqf_laws_timing::lists_bound_costs();
    cqf_laws_history::tables_are_orderly();
    cqf_program_runs::each_is_written_once();
}

/// Each number of a row of `summary` is the number of the stream's offers that end that way at the row's listener, and each of these offers
/// ends in exactly one of the four ways: delivered, late, dropped or under way. Each listener to which a covered offer goes has a row.
pub fn each_offer_counts_once()
    ensures once { EachOfferCountsOnce }
    ensures rows { EachListenerHasARow }
{
    scripts_admit_only();
    cqf_laws_timing::lists_bound_costs();
    cqf_laws_history::tables_are_orderly();
    cqf_program_runs::each_is_written_once();
}

/// The times that frames took to the listener of a row of `summary` are between the least that `latency` has for the last link of their
/// path and the row's bound, in every such script.
pub fn summaries_are_within_bounds()
    ensures { LatenciesAreBounded }
{
    scripts_admit_only();
    cqf_laws_timing::lists_bound_costs();
    cqf_laws_timing::lists_bound_latencies();
    cqf_laws_history::tables_are_orderly();
    cqf_program_runs::arrivals_are_the_shift();
}

/// What a command reads in a text, those that read fewer of its keys read there too. A streams text that is read with its deadlines is read without
/// them as the same requests, in a network with access links too. So an input that `deliveries`, `check` and `summary` accept is accepted by `run`,
/// `report` and `run --threads` as the same scenario. Each scenario that is accepted may be run: its domain is well-formed, there is room for its calls,
/// its frames are frames of the domain, and its offers are in order.
pub fn readers_agree()
    ensures talkers { NetworkFlowsAreFlows }
    ensures flows { FlowsArePlanned }
    ensures streams { PlannedStreamsArePaced }
    ensures edges { EdgesArePlanned }
    ensures paced { PlannedPartsArePaced }
    ensures parts { ReadersAgreeOnParts }
    ensures inputs { PlannedScenariosAreScenarios }
    ensures may_run { ScenariosMayBeRun }
{}

/// Each text that `plan` writes is read by every command as a network with nothing left to choose, within the same limits. Its domain is well-formed,
/// and no access link is full. Its streams are those that were placed, with the same deadlines at their edge bridges. They are all admitted before cycle 0,
/// each reserves as much as its talker needs in a cycle, and none may miss its deadline. So the laws about plans that keep their word need only that
/// `plan` wrote the text, that cycle times which it was given are in their range, and that its file's tables are nested no deeper than 80.
pub fn written_plans_run()
    ensures { WrittenPlansRun }
{
    cqf_program_planning::written_plans_read_back();
}

/// A plan keeps its word in each output of `run` and of `run --threads` whose input begins with a text, for its domain and its streams, that `plan`
/// wrote within the same limits. Cycle times that `plan` was given are in their range, and its file's tables are nested no deeper than 80; nothing else
/// is required of the plan or of the scenario.
/// Each frame that the plan promises is covered, and whole at each of its stream's listeners in time, if the run is long enough: from its offer at its
/// edge bridge, and from its hand-over to an access link. A run has at most 100,000 cycles.
pub fn outputs_keep_written_plans()
    ensures runs { RunsKeepWrittenPlans }
    ensures threads { ThreadsKeepWrittenPlans }
{
    readers_agree();
    written_plans_run();
    written_plans_keep_their_word();
}

/// What an output of `latency` says about a domain's text and its streams holds for each output of `deliveries` whose input begins with these
/// texts: no delivery is late for which it says `in-time`, and each one that arrives is late for which it says `late`. Each that is whole within the run
/// takes no less than `least` and no more than `most` from the hand-over, if its access link took no less and no more than it may. A run of `deliveries`
/// has at most 100,000 cycles. The same holds for the deliveries in the book of each output of `run --threads`.
pub fn deliveries_are_as_written()
    ensures deliveries { DeliveriesAreAsWritten }
    ensures threads { ThreadsAreAsWritten }
{
    cqf_edge::streams_come_by_links();
    readers_agree();
    written_verdicts_hold();
}

/// Each number of a row of an output of `summary` is that of the offers that end in one way, each of these ends in exactly one, and the times are
/// within the bounds of `latency`. A run has at most 100,000 cycles.
pub fn summaries_are_as_written()
    ensures rows { WrittenRowsAddUp }
    ensures once { WrittenOffersCountOnce }
    ensures bounds { WrittenLatenciesAreBounded }
{
    readers_agree();
    summaries_add_up();
    each_offer_counts_once();
    summaries_are_within_bounds();
}

/// What streams that `load` lists cost of a link repeats after 80 cycles. So the greatest cost of 80 cycles, which is written as held, is the
/// greatest of all cycles. The same holds of the streams that a legal history holds.
pub fn costs_repeat()
    ensures listed { ListedCostsRepeat }
    ensures held { HeldCostsRepeat }
{}
