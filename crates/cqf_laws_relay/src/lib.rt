//! Laws about bridges whose links go on separately, as in `cqf_relay`.
//!
//! Each law is a function that returns at once. Its contract is a statement of `specs/` about the definitions of `cqf_model`, and its proof
//! shows that the statement holds. A proof elsewhere uses the law by calling the function.
//!
//! - The offers that a bridge keeps, judging one after the other, are those that the run's rows cover ([`kept_are_covered`]).
//! - The offers that it drops are the drops of the run's book ([`dropped_are_the_runs`]).
//! - If everything has arrived at each bridge, and each link has gone on over all cycles, all have sent what the network sends
//!   ([`relays_follow_the_network`]).
//! - The traces gathered from their bridge traces have what the network sends ([`relays_keep_the_traces`]). With its background frames they
//!   are those of the run's book ([`backed_traces_are_the_books`]).
//! - The tables of a history may be given to such bridges ([`tables_may_come`]).
//! - As long as some link has not reached the end of a run, one of these links can go on ([`some_link_can_go_on`]).
//!
//! ```
//! // from here on, a proof knows that bridges whose links go on separately send what the gates require
//! cqf_laws_relay::relays_follow_the_network();
//! ```
#![tactic(auto)]

ghost use Rattle.cqf_laws_relay.specs.Following.{DroppedAreTheRuns, KeptAreCovered, RelaysFollowTheNetwork, TablesMayCome};
ghost use Rattle.cqf_laws_relay.specs.Hindmost.{SomeLinkCanGoOn};
ghost use Rattle.cqf_laws_relay.specs.Traced.{BackedTracesAreTheBooks, RelaysKeepTheTraces};

/// Proves that the offers of a cycle that a bridge keeps, judging one after the other by what is used of their rows, are those that the
/// run's rows cover, each with its row.
pub fn kept_are_covered()
    ensures { KeptAreCovered }
{
    cqf_laws_shift::taken_is_covered();
    cqf_laws_instants::what_a_cycle_queues();
}

/// Proves that the offers that such a bridge drops in a cycle, by frame, are the drops of the run's book at the bridge in the cycle.
pub fn dropped_are_the_runs()
    ensures { DroppedAreTheRuns }
{
    cqf_laws_history::relayed_frames_are_queued_or_lost();
    cqf_laws_shift::taken_is_covered();
    cqf_laws_shift::gates_mean_the_shift();
}

/// Proves that each link has sent what the network sends (IEEE 802.1Q, Annex T). Everything of a run has arrived at each bridge, and each
/// link has gone on over all cycles by what arrived at its bridge. It doesn't matter in which order the links took turns. The run has fewer
/// than 16,777,216 offers.
pub fn relays_follow_the_network()
    ensures { RelaysFollowTheNetwork }
{
    cqf_laws_cycle::cycle_brings_its_batches();
    cqf_laws_shift::gates_mean_the_shift();
    cqf_laws_instants::gathered_is_queued();
    cqf_laws_instants::batch_is_due();
    cqf_laws_instants::queue_has_room();
    kept_are_covered();
}

/// Proves that the traces gathered from the bridge traces of bridges whose links have gone on in this way have the streams' frames that the
/// network sends, and the drops of its book. The run has fewer than 16,777,216 offers.
pub fn relays_keep_the_traces()
    ensures { RelaysKeepTheTraces }
{
    dropped_are_the_runs();
    relays_follow_the_network();
}

/// Proves that such traces, with the background frames that the network starts appended at each link, are those of its book.
pub fn backed_traces_are_the_books()
    ensures { BackedTracesAreTheBooks }
{}

/// Proves that the tables of a legal history have their new rows by number, after those of all earlier tables.
pub fn tables_may_come()
    ensures { TablesMayCome }
{
    cqf_laws_history::tables_are_orderly();
    cqf_laws_coverage::rows_say_the_tables();
    cqf_laws_coverage::rows_follow();
}

/// Proves that as long as some link has not reached the end of a run, one of these links can go on: it waits for no other.
pub fn some_link_can_go_on()
    ensures { SomeLinkCanGoOn }
{}
