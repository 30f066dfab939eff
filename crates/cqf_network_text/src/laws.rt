//! Laws: readers find what was written.
ghost use Rattle.cqf_network_text.specs.NetworkLaws.{FilledNetworksReadBack};
ghost use Rattle.cqf_network_text.specs.Plans.{ReadStreamsAreExpressible, WrittenPlansReadBack};

/// Proves that the text of an accepted domain and of streams whose numbers fit in a text is read as exactly that domain and these streams.
/// This holds for each reader: with deadlines and traffic, with deadlines only, as requests with their cycles, and as requests without
/// cycles. So every command reads what was written.
pub fn written_plans_read_back()
    ensures { WrittenPlansReadBack }
{}

/// Proves that the numbers of streams that are read from a text fit in a text. So a plan that is read and written again is read as the same
/// plan.
pub fn read_streams_are_expressible()
    ensures { ReadStreamsAreExpressible }
{}

/// Proves that every reader finds in the text of a planned network the network of its file, with the chosen cycle time, and the file's
/// streams, with what was chosen for each. So every command reads what was planned.
pub fn filled_networks_read_back()
    ensures { FilledNetworksReadBack }
{}
