//! A bridge that follows the network, cycle by cycle.
ghost use Rattle.cqf_bridge.specs.Cycles.{BackgroundIsOfTheBridge, NewBridgeFollows, OffersAreOfTheBridge, PageFollows, ReceivingFollows, SendingFollows};

/// Proves that a bridge that has done nothing follows the network of each run of its domain, and that it may be given a run's background
/// frames and offers for the bridge in a cycle.
pub fn new_bridge_follows()
    ensures follows { NewBridgeFollows }
    ensures background { BackgroundIsOfTheBridge }
    ensures offers { OffersAreOfTheBridge }
{}

/// Proves what sending does. A bridge follows the legal network of a run, and sends the next cycle with the run's background frames. Then
/// it appends what the network sends in the cycle on each link that leaves the bridge, by number, and keeps the background frames that
/// start on these links in the cycle. After it, the bridge has sent as the network does (IEEE 802.1Q, Annex T).
pub fn sending_follows()
    ensures { SendingFollows }
{
    cqf_laws_cycle::background_comes_in_order();
    cqf_laws_cycle::port_sends_what_came_before();
}

/// Proves what receiving does. A bridge has sent a cycle as the network does, and receives it with what the network sends on each link that
/// ends in the bridge, by number. Then it drops what the network drops there in the cycle, by frame, and follows the network, one cycle
/// further. What its stream gates passed in earlier cycles doesn't matter, since they count each cycle anew (IEEE 802.1Q, Annex T).
pub fn receiving_follows()
    ensures { ReceivingFollows }
{
    cqf_laws_cycle::cycle_brings_its_batches();
    cqf_laws_cycle::port_goes_on();
    cqf_laws_cycle::queued_frames_wait();
    cqf_laws_cycle::closed_arrivals_change_nothing();
    cqf_laws_shift::gate_is_reservation();
}

/// Proves that a bridge's output in a cycle is its page of the run's book: the frames of its batches, its background frames and its drops.
pub fn page_follows()
    ensures { PageFollows }
{
    cqf_laws_cycle::page_is_of_its_bridge();
    cqf_laws_cycle::drops_are_of_the_cycle();
    cqf_laws_network::legal_network_is_unique();
}
