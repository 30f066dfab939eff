//! The background frames that a port starts.
ghost use Rattle.cqf_instants_run.specs.Sending.{PortStartsTheBackground};

/// Proves that a port under the compiled gate list starts the same background frames at the same instants if each stream's frame arrives
/// only when it starts, with the class that its cycle sends, and not earlier. If no background frame arrives, the port starts none (IEEE
/// 802.1Q, 8.6.8).
pub fn port_starts_the_background()
    ensures { PortStartsTheBackground }
{
    cqf_laws_cycle::port_list_sends();
}
