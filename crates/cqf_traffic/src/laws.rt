//! Laws about what streams offer.
ghost use Rattle.cqf_traffic.specs.Conforming.{OffersComeInActiveCycles, OffersConform};

use cqf_laws_timing::conforming_offers_fit_a_cycle;

/// Proves that what is offered of a stream keeps its talker's promise, for every seed and without one (after IEEE Std 802.1Q-2018,
/// 46.2.3.5). No two streams have the same name.
pub fn offers_conform()
    ensures { OffersConform }
{
    conforming_offers_fit_a_cycle();
}

/// Proves that what is offered of a stream comes only in every `every`-th cycle, for every seed and without one. This holds if no two
/// streams have the same name, if its interval is a multiple of `every` cycles long, and if no frame is so late that it comes in a later
/// cycle than on the grid. It holds by each clock that differs from the talker's so little that each frame stays in its cycle.
pub fn offers_come_in_active_cycles()
    ensures { OffersComeInActiveCycles }
{}
