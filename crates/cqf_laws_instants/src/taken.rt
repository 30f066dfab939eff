//! Laws about the order in which a bridge takes the frames of a cycle, and about what it queues to its links.
//!
//! - The frames of a cycle are taken in order of their keys, and no two have the same key, so any sort will do
//!   ([`sorted_is_taken`]).
//! - Whether a cycle queues a frame to a link is decided for each frame alone ([`what_a_cycle_queues`]).
//! - So a link's queue, its queue for the next cycle, is what the cycle queues to the link. The queue is gathered link by link and then offer
//!   by offer, and sorted by one number for each frame. Each frame is in it according to its stream's tree ([`gathered_is_queued`]).
//!
//! ```
//! // from here on, a proof knows that the frames of a cycle, sorted by their keys, are in the order in which they are taken
//! cqf_laws_instants::sorted_is_taken();
//! ```

ghost use Rattle.cqf_laws_instants.specs.GatheredLaws.{CoveredGoByTheirTree, GatheredIsQueued, RelayedGoByTheirTree, UncoveredGoNowhere};
ghost use Rattle.cqf_laws_instants.specs.QueueLaws.{CoveringCovers, SortedIsQueued, WhatACycleQueues};
ghost use Rattle.cqf_laws_instants.specs.TakenLaws.{CycleIsTakenInOrder, SortedIsTaken};

/// Proves that the frames of a cycle are taken in order of instant, then link number, with an offer after every link, then frame
/// number, and that no two tie. So any sort of them gives this order.
pub fn sorted_is_taken()
    ensures order { CycleIsTakenInOrder }
    ensures sorted { SortedIsTaken }
{
    cqf_laws_cycle::cycle_brings_its_batches();
    cqf_laws_cycle::frames_keep_their_order();
}

/// Proves that a cycle queues to a link exactly those frames arriving at its bridge that go on by it: a covered offer goes on by
/// the links of hop number 1, and a frame that a link brought goes on by the links that follow that link in its stream's tree.
pub fn what_a_cycle_queues()
    ensures covering { CoveringCovers }
    ensures queues { WhatACycleQueues }
    ensures sorted { SortedIsQueued }
{
    cqf_laws_cycle::port_goes_on();
    cqf_laws_cycle::run_is_its_cycles();
    cqf_laws_history::relayed_frames_are_queued_or_lost();
    cqf_laws_shift::gates_mean_the_shift();
    sorted_is_taken();
}

/// Proves that a link's queue, its queue for the next cycle, sorted by keys, is what a cycle queues to the link. A frame is in it exactly if
/// the frame goes on by the link in its stream's tree.
pub fn gathered_is_queued()
    ensures queue { GatheredIsQueued }
    ensures relayed { RelayedGoByTheirTree }
    ensures covered { CoveredGoByTheirTree }
    ensures uncovered { UncoveredGoNowhere }
{
    cqf_laws_cycle::cycle_brings_its_batches();
    cqf_laws_cycle::frames_keep_their_order();
    cqf_laws_history::relayed_frames_are_queued_or_lost();
    cqf_laws_shift::gates_mean_the_shift();
    cqf_laws_cycle::run_is_its_cycles();
    what_a_cycle_queues();
}
