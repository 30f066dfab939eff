//! What the definitions of the readers mean, in terms of indexes alone.
ghost use Rattle.cqf_topology.specs.FirstFaults.{TakenIsFirstRepeated, TwiceIsFirstTwin};

/// Proves that the name reported as taken is at the least index whose name occurred earlier. If none is reported, no name occurred earlier.
pub fn taken_is_first_repeated()
    ensures { TakenIsFirstRepeated }
{}

/// Proves that the link reported as occurring twice has the least number with an earlier twin. If none is reported, no link has a twin.
pub fn twice_is_first_twin()
    ensures { TwiceIsFirstTwin }
{}
