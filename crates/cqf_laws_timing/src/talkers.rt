//! Laws about conforming talkers: what they send of a stream is covered, and in time.
ghost use Rattle.cqf_laws_timing.specs.Covered.{ConformingOwnIsCovered, ConformingStreamGoesOn, ConformingStreamIsCovered};
ghost use Rattle.cqf_laws_timing.specs.InTime.{ConformingOwnIsInTime, ConformingStreamIsInTime, PlannedStreamIsInTime};
ghost use Rattle.cqf_laws_timing.specs.LooseInTime.{LooseConformingIsInTime, LoosePlannedIsInTime};
ghost use Rattle.cqf_laws_timing.specs.Traffic.{BlocksConform, ConformingOffersFitACycle, NeededIsReached, SkippingConforms};

/// Proves that a cycle can hold no more of a conforming talker's stream than is needed, and that it can hold as much. A talker that
/// leaves out some of its frames still conforms (after IEEE Std 802.1Q-2018, 46.2.3.5).
pub fn conforming_offers_fit_a_cycle()
    ensures fits { ConformingOffersFitACycle }
    ensures skips { SkippingConforms }
    ensures blocks { BlocksConform }
    ensures reached { NeededIsReached }
{}

/// Proves that a row that reserves as much as is needed covers each offer of a conforming talker that is made at the stream's first
/// bridge while the stream is live.
pub fn conforming_stream_is_covered()
    ensures named { ConformingStreamIsCovered }
    ensures own { ConformingOwnIsCovered }
    ensures goes_on { ConformingStreamGoesOn }
{
    cqf_laws_shift::edge_is_covered();
}

/// Proves that a conforming talker loses nothing, in each run that admits only streams of a list, regardless of withdrawals, of
/// other offers and of background frames.
///
/// This concerns each frame that it offers at the stream's first bridge while the stream is live, if the stream's row reserves as much as
/// is needed in the frame's cycle. If the run lasts long enough, the frame arrives fully at each of the stream's listeners, no sooner than
/// the least and no later than the most that is reported for the list. So it arrives within each deadline that is surely kept there.
pub fn conforming_stream_is_in_time()
    ensures named { ConformingStreamIsInTime }
    ensures own { ConformingOwnIsInTime }
    ensures planned { PlannedStreamIsInTime }
{
    cqf_laws_shift::book_of_history_says_the_shift();
    crate::lists_bound_costs();
    crate::lists_bound_latencies();
    crate::branches_end_at_listeners();
}

/// Proves the same for every loose network, for any clocks and delays within what the domain states, regardless of withdrawals and
/// of offers under other names.
///
/// All offers of the stream's name have to conform, and its row has to reserve as much as is needed. Then each frame that is offered at the
/// stream's first bridge while the stream is live leaves on each link of its tree in its cycle. It arrives fully at each listener, by the
/// clock there, within the least and the most that is reported for the list, if the run lasts long enough. So it arrives within each
/// deadline that is surely kept there.
pub fn conforming_stream_is_heard_in_time()
    ensures named { LooseConformingIsInTime }
    ensures planned { LoosePlannedIsInTime }
{
    cqf_laws_history::tables_are_orderly();
    cqf_laws_loose::loose_history_means_the_shift();
    crate::lists_bound_costs();
    crate::loose_history_is_timely();
    crate::branches_end_at_listeners();
}
