//! Laws about what is reported for a plan's streams: it holds for the frames of each stream.
ghost use Rattle.cqf_laws_timing.specs.Asking.{CallsAdmitOnly, SeatsAdmitOnly};
ghost use Rattle.cqf_laws_timing.specs.Reported.{LooseReportedBoundsHold, NamesIdentifyStreams, ReportedBoundsHold, RowsArePlanned};

/// Proves that calls that request only streams of a list make a history that admits only these streams: calls made one after the
/// other, and calls at seats, in any interleaving of the seats' calls and the Seals.
pub fn histories_admit_only()
    ensures calls { CallsAdmitOnly }
    ensures seats { SeatsAdmitOnly }
{}

/// Proves that what is reported for a hop of a plan's row holds for each frame of that row's stream, in every history that admits
/// only streams of the plan.
///
/// The row is that of the stream at its number. A row of the same name in the history is of the same stream. A start on the hop's
/// link is as the verdict on any deadline says. This holds in every loose network too, with the slack that the domain states.
pub fn reported_bounds_hold()
    ensures planned { RowsArePlanned }
    ensures names { NamesIdentifyStreams }
    ensures reported { ReportedBoundsHold }
    ensures loose { LooseReportedBoundsHold }
{
    cqf_laws_history::state_follows_history();
    cqf_laws_history::tables_are_orderly();
    crate::lists_bound_costs();
    crate::lists_bound_latencies();
    crate::loose_history_is_timely();
}
