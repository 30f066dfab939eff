//! Laws of addressing.
ghost use Rattle.cqf_addressing.specs.Laws.{GateIndexesAreApart, MacsReadBack};

/// Proves that in an accepted text no two streams have gates with the same index.
pub fn gate_indexes_are_apart()
    ensures { GateIndexesAreApart }
{}

/// Proves that an address that is written reads back as itself.
pub fn macs_read_back()
    ensures { MacsReadBack }
{}
