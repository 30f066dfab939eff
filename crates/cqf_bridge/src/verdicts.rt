//! The verdicts on the frames that a bridge takes in a cycle.
ghost use Rattle.cqf_bridge.specs.Verdicts.{EachCycleIsAnew, UnlostBatchesMayCome, VerdictsAreTheRuns};

/// Proves laws about verdicts (IEEE 802.1Q, Annex T). If a bridge is given the network's batches of a cycle, its verdicts on the cycle's
/// frames are those of the run, since its stream gates count each cycle anew. If it loses none of these frames, it may be given these
/// batches. The laws say nothing about other bridges or cycles; these may lose frames.
pub fn verdicts_are_the_runs()
    ensures anew { EachCycleIsAnew }
    ensures verdicts { VerdictsAreTheRuns }
    ensures batches { UnlostBatchesMayCome }
{
    cqf_laws_cycle::cycle_brings_its_batches();
    cqf_laws_shift::gate_is_reservation();
}
