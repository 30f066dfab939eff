//! One port at which streams' frames arrive in cycles, beside any background frames.
ghost use Rattle.cqf_laws_cycle.specs.LatePort.{LatePortIsOneCycleLate};
ghost use Rattle.cqf_laws_cycle.specs.OnePort.{BackgroundYields, PortIsOneCycleLate};

/// Proves that a port with the compiled gate list is one cycle late: if the streams' frames that arrive in each cycle are within
/// the link's budget, each leaves in the cycle after its own, after those that arrived before it in its cycle, regardless of
/// background frames (IEEE 802.1Q, Annex T).
pub fn port_is_one_cycle_late()
    ensures { PortIsOneCycleLate }
{}

/// Proves that at such a port a background frame starts only after the streams' frames of earlier cycles, and is sent before the
/// guard band begins.
pub fn background_yields()
    ensures { BackgroundYields }
{}

/// Proves that a port whose starts lag, each by its own time up to a bound, is also one cycle late. For this, the streams' frames that
/// arrive in each cycle are within the budget with their lags, and the bound fits into the guard band together with the gap.
pub fn late_port_is_one_cycle_late()
    ensures { LatePortIsOneCycleLate }
{}
