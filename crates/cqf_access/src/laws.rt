//! Laws about a talker's access link.
ghost use Rattle.cqf_access.specs.Access.{AccessLinkBoundsQueueing};
ghost use Rattle.cqf_access.specs.Arriving.{EdgeConforms, EdgeConformsByClocks, FramesAreWholeWithin, GridIsShifted, GridsAreKept, GridsConform};
ghost use Rattle.cqf_access.specs.Closer.{EdgeConformsCloser, EdgeConformsCloserByClocks};
ghost use Rattle.cqf_access.specs.InStep.{EdgeComesInActiveCycles, EdgeKeepsStep};
ghost use Rattle.cqf_access.specs.Reached.{LeastBoundIsReached};

use cqf_laws_timing::conforming_offers_fit_a_cycle;

/// Proves that a talker that hands frames over by a regular grid, each late by at most the jitter, keeps its promise (after IEEE Std
/// 802.1Q-2018, 46.2.3.5).
pub fn grids_conform()
    ensures conforms { GridsConform }
    ensures kept { GridsAreKept }
{}

/// Proves that no frame of a stream waits longer on its talker's access link than a bound allows, in any order in which the link sends. The
/// bound is computed from the promises of all the station's streams. So the frame is whole at the edge bridge within a time that follows
/// from the bound.
pub fn access_link_bounds_queueing()
    ensures waits { AccessLinkBoundsQueueing }
    ensures whole { FramesAreWholeWithin }
{
    conforming_offers_fit_a_cycle();
}

/// Proves that if the least bound plus each stream's jitter is at most the stream's interval, there is a link on which a frame waits as
/// long as the bound allows.
pub fn least_bound_is_reached()
    ensures { LeastBoundIsReached }
{}

/// Proves that a talker that keeps its promise at the hand-over keeps one at the edge bridge, also by the clock there: the same promise
/// with a greater jitter, and on a grid that begins later.
pub fn edge_conforms()
    ensures conforms { EdgeConforms }
    ensures clocks { EdgeConformsByClocks }
    ensures grid { GridIsShifted }
{
    access_link_bounds_queueing();
}

/// Proves that if that jitter leaves each frame in its cycle, by each clock that is possible at the edge bridge, all that a talker hands
/// over on a grid comes there in its cycle on the grid. So it comes in every `every`-th cycle if its interval is a multiple of `every`
/// cycles long.
pub fn edge_keeps_step()
    ensures step { EdgeKeepsStep }
    ensures active_cycles { EdgeComesInActiveCycles }
{
    access_link_bounds_queueing();
}

/// Proves that if the link sends a stream's frames one after the other, the jitter at the edge bridge doesn't include the part of a wait
/// for the stream's own frames that is the same in each interval. It includes only the possible difference in their lengths.
pub fn edge_conforms_closer()
    ensures conforms { EdgeConformsCloser }
    ensures clocks { EdgeConformsCloserByClocks }
{
    conforming_offers_fit_a_cycle();
    access_link_bounds_queueing();
}
