//! What arrives at a bridge and at a port.
ghost use Rattle.cqf_laws_cycle.specs.ArrivalLaws.{BridgesReceiveWhatComes, PortsGetWhatComes, VerdictsAreOnWhatComes};

/// Proves exactly which frames arrive at a bridge and at a port, each frame once.
///
/// At a bridge arrive the offers at it, at their instants, and the frames of the links that end in it. A link's frame arrives after
/// its start by the transmission time of `octets + 8` octets plus the link's delay. Frames are ordered by instant, then link, then
/// position, with the offers after the links.
///
/// At a port arrive the background frames of its link, at their instants, and those of the bridge's frames that go on by the link,
/// at the instants at which they arrived at the bridge. Frames of one kind are ordered by instant, the streams' frames in the order
/// in which the bridge received them. So frames of one class are ordered by instant as well, since no background frame of a run has
/// a class of streams (IEEE 802.1Q, 8.6.6; the rest is this project's own rule).
pub fn arrivals_are_exact()
    ensures bridges { BridgesReceiveWhatComes }
    ensures verdicts { VerdictsAreOnWhatComes }
    ensures ports { PortsGetWhatComes }
{}
