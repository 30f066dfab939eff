//! Laws about what is compiled for streams and bridges: it is what the network demands.
ghost use Rattle.cqf_compile.specs.WrittenGates.{EachBridgeHasAGate, FramesComeThatWay, WrittenGatesPassTheSame};

/// Proves that the gate in the configuration of a stream at a bridge is the network's gate there, for a stream with a
/// tree and a positive cycle time. Each frame that goes on from the bridge came by the link for which the gate is
/// written, or was offered there if there is none. The gate passes the same frames of at least one octet as
/// `gate_list_after`, with the same class, at each instant and regardless of what passed before. Each bridge from which
/// frames of the stream go on has such a gate.
pub fn written_gates_are_the_networks()
    ensures ingresses { FramesComeThatWay }
    ensures passes { WrittenGatesPassTheSame }
    ensures each { EachBridgeHasAGate }
{
    cqf_gates::spans_pass_the_same();
}
