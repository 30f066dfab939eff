//! The outcome for a stream on a cycle time.

use crate::PlanFault;
use cqf_topology::PacedRequest;

/// The outcome for a stream on a cycle time.
#[derive(Debug, Drop)]
pub enum PlacingOutcome {
    /// The stream is placed, with this request.
    Placed(PacedRequest),
    /// It isn't placed, and holds nothing.
    Unplaced(PlanFault),
}
