//! Laws about streams at their edge bridges.
ghost use Rattle.cqf_edge.specs.EdgeLaws.{EdgesAreByIndices, OthersBeginAtEdges, StreamsComeByLinks};
ghost use Rattle.cqf_edge.specs.WrittenLaws.{ReadFlowsAreWritten, ReadStreamsAreWritten};

/// Proves that the streams that are read from a text have a jitter and an offset as [`edge_flows`] and [`edge_streams`] require.
///
/// [`edge_flows`]: crate::edge_flows
/// [`edge_streams`]: crate::edge_streams
pub fn read_streams_are_written()
    ensures flows { ReadFlowsAreWritten }
    ensures streams { ReadStreamsAreWritten }
{}

/// Proves that a stream that a station hands to an access link has the same name, reservation and paths at its edge bridge. If no access
/// link is full, its link has a bound, and with this bound its promise there is the one of
/// [`edge_conforms_closer`](cqf_access::edge_conforms_closer). Any other stream of the network is at its edge bridge as its text has it.
pub fn streams_come_by_links()
    ensures come { StreamsComeByLinks }
    ensures others { OthersBeginAtEdges }
    ensures indices { EdgesAreByIndices }
{}
