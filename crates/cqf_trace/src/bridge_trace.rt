//! The transmissions and drops of one bridge.

use crate::trace::Trace;
use cqf_model::Dropped;

/// The traces of the links that leave a bridge, by link number, and the bridge's drops, by cycle, then frame.
#[derive(Debug, Drop)]
pub struct BridgeTrace {
    pub traces: Vec<Trace>,
    pub drops: Vec<Dropped>,
}
