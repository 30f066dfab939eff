//! What is written of a plan holds in every run over it.
ghost use Rattle.cqf_program_plans.specs.Latency.Laws.{WrittenLatenciesHold, WrittenLatenciesHoldLoosely};

use cqf_laws_timing::{lists_bound_costs, lists_bound_latencies, loose_history_is_timely};

/// Proves that, if all streams of a plan are admitted, none of their frames takes less time than the least or more than the most that is
/// written, and each verdict is true of it. This holds in every run whose calls admit only streams of the plan, for all offers and with any
/// background frames.
pub fn written_latencies_hold()
    ensures { WrittenLatenciesHold }
{
    lists_bound_costs();
    lists_bound_latencies();
}

/// Proves the same for every loose network, with all clocks and delays within what the domain states. The time is measured from a frame's
/// offer by its edge bridge's clock until all of the frame has arrived, by the clock at the link's end.
pub fn written_latencies_hold_loosely()
    ensures { WrittenLatenciesHoldLoosely }
{
    lists_bound_costs();
    loose_history_is_timely();
}
