//! What a bridge takes in one cycle.
ghost use Rattle.cqf_laws_cycle.specs.BridgeCycle.{BatchIsWholeInItsCycle, BridgeGoesOn, CycleBringsItsBatches, DropsAreOfTheCycle, FramesKeepTheirOrder};
ghost use Rattle.cqf_laws_cycle.specs.Gathered.{BackgroundStandsInOrder, DropsAreByFrame, FramesAreTakenInOrder, OffersStandInOrder, PortsGetTheirBackground};

/// Proves that a bridge goes on from cycle to cycle: its verdicts on all that arrived by the end of a cycle are its verdicts on
/// what arrived before the cycle, followed by those on the cycle's frames.
pub fn bridge_goes_on()
    ensures { BridgeGoesOn }
{}

/// Proves that what a link sends in a cycle has fully arrived in the next node within that cycle. So what arrives at a bridge in a
/// cycle is what its incoming links send in it and what is offered in it (IEEE 802.1Q, Annex T).
pub fn cycle_brings_its_batches()
    ensures whole { BatchIsWholeInItsCycle }
    ensures brings { CycleBringsItsBatches }
{
    crate::port_list_sends();
}

/// Proves that the streams' frames of a link arrive in the next node at different instants, in the order in which they were sent.
pub fn frames_keep_their_order()
    ensures { FramesKeepTheirOrder }
{}

/// Proves that the drops of a cycle at a bridge are those among the frames that arrive in the cycle. The bridge's page lists them
/// by frame: a stable sort by frame of the drops among the cycle's verdicts gives the page's drops.
pub fn drops_are_of_the_cycle()
    ensures among { DropsAreOfTheCycle }
    ensures sorted { DropsAreByFrame }
{}

/// Proves that a stable sort by instant gives the order in which a bridge takes the frames of a cycle, if they are gathered by link
/// and then by offer. It also gives the order in which the bridge's offers of the cycle are gathered.
pub fn frames_are_taken_in_order()
    ensures offers { OffersStandInOrder }
    ensures taken { FramesAreTakenInOrder }
{}

/// Proves that a stable sort by instant gives the order in which a bridge's ports get the background frames of a cycle: each port
/// gets those of its link.
pub fn background_comes_in_order()
    ensures sorted { BackgroundStandsInOrder }
    ensures ports { PortsGetTheirBackground }
{}
