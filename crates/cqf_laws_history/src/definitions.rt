//! Laws that say in a planner's words what the most-read definitions of `cqf_model` mean: why an offer is dropped, how long a
//! withdrawn stream is held, when a frame has fully arrived in the next node.
//!
//! Each law is a function that does nothing. Its contract is a statement of `specs/`, and its proof shows that the statement holds
//! for each domain. To use a law, another proof calls the function.
//!
//! - Frames at a bridge: [`verdicts_have_their_reason`], [`queued_frames_leave_their_bridge`],
//!   [`frames_go_to_each_port`], [`relayed_frames_are_queued_or_lost`].
//! - Streams and tables: [`trees_say_where_streams_go`], [`streams_let_go_in_time`], [`closed_tables_stay`].
//! - Background frames: [`background_is_reported`].
//! - Times: [`delay_counts`].
//! - Paces and limits by an example: [`second_stream_is_judged`].
//!
//! ```
//! // from here on, a proof knows that an offer is dropped as unknown exactly if no row has its stream's name
//! cqf_laws_history::verdicts_have_their_reason();
//! ```

ghost use Rattle.cqf_laws_history.specs.BackgroundLaws.{BackgroundIsNumberedByIndex, BooksSayTheBackground, PortsSayTheirBackground};
ghost use Rattle.cqf_laws_history.specs.Example.{IsSaidOfTheSecond};
ghost use Rattle.cqf_laws_history.specs.TableLaws.{
  WithdrawnIsHeldForItsTree,
  OtherwiseItIsHeldOn,
  WithdrawnIsLiveUntilThen,
  OtherwiseItIsLive,
  ClosedTablesStay,
};
ghost use Rattle.cqf_laws_history.specs.TimingLaws.{DelayCounts, EndingIsCounted, GapIsCounted, ShortestFrame, WholeOctetsAreExact};
ghost use Rattle.cqf_laws_history.specs.TrafficLaws.{
  VerdictsHaveTheirReason,
  VerdictsInsideHaveTheirReason,
  QueuedFramesLeaveTheirBridge,
  FramesGoToEachPort,
  FramesGoToNoOtherPort,
  OtherFramesGoNowhere,
  RelayedFramesAreQueuedOrLost,
};
ghost use Rattle.cqf_laws_history.specs.TreeLaws.{
  FramesGoOnByTheirTree,
  FramesGoOnWhereALinkLeaves,
  GatesStandWhereLinksLeave,
  OneGateABridge,
  ResidenceIsTheGreatestHopNumber,
  StreamsCostOnceALink,
  StreamsCostNothingElsewhere,
};

/// Proves that a frame gets a verdict exactly if that verdict is due.
///
/// At the edge, the first reason that applies drops the frame: no row has its name, the stream isn't live, its tree begins at
/// another bridge, or it has too many octets. Inside the domain, a frame lacks a row or exceeds its gate (after IEEE Std
/// 802.1Q-2018, 8.6.5.1).
pub fn verdicts_have_their_reason()
    ensures edge { VerdictsHaveTheirReason }
    ensures inside { VerdictsInsideHaveTheirReason }
{}

/// Proves that a frame goes on from a bridge only if its stream's tree leaves that bridge after the link by which the frame came,
/// or, for an offer, at the edge.
pub fn queued_frames_leave_their_bridge()
    ensures { QueuedFramesLeaveTheirBridge }
{
    verdicts_have_their_reason();
}

/// Proves that a frame that goes on is queued once at each port whose link its stream takes next, and at no other port. A frame
/// that is dropped or lost is queued nowhere.
pub fn frames_go_to_each_port()
    ensures each { FramesGoToEachPort }
    ensures no_other { FramesGoToNoOtherPort }
    ensures nowhere { OtherFramesGoNowhere }
{}

/// Proves what a stream's tree means.
///
/// - From a bridge, a frame goes on by the tree's links that follow the link by which it came and that leave this bridge.
/// - A stream has exactly one gate at each bridge that its links leave.
/// - The stream's residence, in cycles, is the greatest hop number of its links.
/// - On each link of its tree, and in each cycle in which its frames go by that link, a stream costs the cost of its reservation,
///   once. In every other cycle it costs nothing there, and on a link outside its tree it costs nothing.
pub fn trees_say_where_streams_go()
    ensures goes_on { FramesGoOnByTheirTree }
    ensures bridges { FramesGoOnWhereALinkLeaves }
    ensures gates { GatesStandWhereLinksLeave }
    ensures one_gate { OneGateABridge }
    ensures greatest_hop_number { ResidenceIsTheGreatestHopNumber }
    ensures costs { StreamsCostOnceALink }
    ensures costs_nothing { StreamsCostNothingElsewhere }
{}

/// Proves that a stream is live from the cycle of its admission up to the cycle of its withdrawal, exclusive. It is then held for as many
/// more cycles as the greatest hop number of its links.
pub fn streams_let_go_in_time()
    ensures held_for { WithdrawnIsHeldForItsTree }
    ensures held_on { OtherwiseItIsHeldOn }
    ensures live_until { WithdrawnIsLiveUntilThen }
    ensures live_on { OtherwiseItIsLive }
{}

/// Proves when a frame has fully arrived in the next node: after 8 octets of preamble and start delimiter, its own octets and the
/// link's delay. Its link is free 12 octets of gap after the frame's end.
///
/// The preamble, the start delimiter and the gap are those of IEEE Std 802.3. That the delay counts from the frame's end is this
/// project's own rule.
pub fn delay_counts()
    ensures whole { DelayCounts }
    ensures over { EndingIsCounted }
    ensures free { GapIsCounted }
    ensures exact { WholeOctetsAreExact }
    ensures shortest { ShortestFrame }
{}

/// Proves that background frames are numbered by their positions, from 1.
///
/// Among the frames that a port starts, exactly those of no stream are its background frames. A book has every background frame
/// that the links send in the run, with its cycle, link, number, octets and instant.
pub fn background_is_reported()
    ensures numbers { BackgroundIsNumberedByIndex }
    ensures ports { PortsSayTheirBackground }
    ensures books { BooksSayTheBackground }
{}

/// Proves that no later call changes the table of a closed cycle.
pub fn closed_tables_stay()
    ensures { ClosedTablesStay }
{}

/// Proves that a frame that came by a link is either queued with the row of its stream or lost.
pub fn relayed_frames_are_queued_or_lost()
    ensures { RelayedFramesAreQueuedOrLost }
{
    verdicts_have_their_reason();
}

/// Proves some worked examples. A link carries a stream of every 16 cycles that takes most of the link's budget in its cycles. The examples
/// give periods and phases with which a second stream of that size is granted or refused, and lower limits that refuse it.
pub fn second_stream_is_judged()
    ensures { IsSaidOfTheSecond }
{}
