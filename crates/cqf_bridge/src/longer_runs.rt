//! A bridge that follows a run which becomes longer.
ghost use Rattle.cqf_bridge.specs.LongerRuns.{LongerRunIsFollowedHalfway, LongerRunIsFollowed, TablesToComeDontCountHalfway, TablesToComeDontCount};

/// Proves laws about longer runs. A bridge that follows the network of a run follows it for any tables of the cycles that the bridge hasn't
/// received yet. A bridge that follows a run's network, or has sent a cycle of it, does the same for each longer run with the same tables
/// in the shorter run's cycles. So a run may go on cycle by cycle, if each table is closed before the bridges receive its cycle.
pub fn longer_run_is_followed()
    ensures tables { TablesToComeDontCount }
    ensures tables_halfway { TablesToComeDontCountHalfway }
    ensures longer { LongerRunIsFollowed }
    ensures longer_halfway { LongerRunIsFollowedHalfway }
{
    cqf_laws_network::the_past_alone_matters();
    cqf_laws_cycle::longer_run_keeps_its_cycles();
}
