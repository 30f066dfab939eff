//! What a port sends of streams beside background frames.
ghost use Rattle.cqf_laws_cycle.specs.Beside.{StreamsAreSentAsAlone, StreamsStartAsAlone};

/// Proves that background frames change nothing for streams: if the streams' frames that arrive in each cycle are within the link's
/// budget, their starts beside any background frames are legal for the streams' frames alone.
pub fn streams_start_as_alone()
    ensures { StreamsStartAsAlone }
{}

/// Proves the same for a link: what it sends of streams beside background frames is what it may send if the streams' frames arrive
/// alone.
pub fn streams_are_sent_as_alone()
    ensures { StreamsAreSentAsAlone }
{}
