//! Laws about the instants at which a link sends the frames of a cycle.
//!
//! Each law is a function that ends at once. Its contract is a statement of `specs/` about the definitions of `cqf_model`, and its
//! proof shows that the statement holds. To use a law, another proof calls the function.
//!
//! ```
//! // from here on, a proof knows at which instants the frames of a cycle start
//! cqf_laws_instants::batch_is_due();
//! ```

ghost use Rattle.cqf_laws_instants.specs.Instants.{BatchIsDue, BatchIsShort, FirstBatchIsEmpty, QueueHasRoom, StartsAreInTurn};

/// Proves that a link sends in each cycle what was queued to it in the cycle before, in turn: the first frame starts when the cycle
/// begins, and each other frame when the one before it and the gap after that are over. In the first cycle the link sends nothing
/// (IEEE 802.1Q, Annex T, and this project's own rules).
pub fn batch_is_due()
    ensures due { BatchIsDue }
    ensures starts { StartsAreInTurn }
    ensures first { FirstBatchIsEmpty }
{
    cqf_laws_cycle::port_is_one_cycle_late();
    cqf_laws_cycle::streams_are_sent_as_alone();
    cqf_laws_cycle::gate_gives_class();
    cqf_laws_cycle::gate_counts_cycles();
    cqf_laws_shift::run_beside_is_run_alone();
}

/// Proves that a link sends no more frames in a cycle than its budget has room for.
pub fn batch_is_short()
    ensures { BatchIsShort }
{
    cqf_laws_cycle::port_is_one_cycle_late();
    cqf_laws_cycle::streams_are_sent_as_alone();
    cqf_laws_cycle::gate_gives_class();
    cqf_laws_cycle::gate_counts_cycles();
    cqf_laws_shift::run_beside_is_run_alone();
    cqf_laws_shift::gates_mean_the_shift();
}

/// Proves that what is queued to a link in a cycle of the run has room there: all of it is sent before the guard band of the next
/// cycle, if the run has that cycle.
pub fn queue_has_room()
    ensures { QueueHasRoom }
{
    cqf_laws_cycle::port_is_one_cycle_late();
    cqf_laws_cycle::streams_are_sent_as_alone();
    cqf_laws_cycle::gate_gives_class();
    cqf_laws_cycle::gate_counts_cycles();
    cqf_laws_shift::run_beside_is_run_alone();
}
