//! The gate lists that a domain and a reservation determine.
ghost use Rattle.std.specs.Prelude.{◌≡◌, ◌<◌, length};
ghost use Rattle.cqf_model.specs.Network.{compiled_lists};
ghost use Rattle.cqf_compile.specs.BridgeGates.{gate_at};
ghost use Rattle.cqf_admission.specs.ActiveCycles.{IsGoodPace};

use crate::leaving::ingress_at;
use cqf_admission::guard_on;
use cqf_gates::{StreamList, TxList, compiled_list, gate_of_reservation};
use cqf_model::Row;
use cqf_topology::Domain;
use cqf_units::Octets;

/// Returns the gate list of the port of a link of the domain: class 7 is open in even cycles, class 6 in odd ones,
/// classes 0 to 5 in both, and no class in the link's guard band (IEEE 802.1Q, 8.6.8.4 and Annex T).
pub fn port_list_of(domain: &Domain, link: u16) -> TxList
    requires { link < length domain.now.links }
    ensures { result ≡ compiled_lists domain.now link }
{
    compiled_list(domain.cycle_time(), guard_on(domain, link))
}

/// Returns the gate of a stream at a bridge of its tree. The stream's pace is good. In the stream's own cycles there,
/// which come as many cycles after those of its offers as the hop number says, the reserved octets pass, with class 6
/// in even cycles and class 7 in odd ones; in the others nothing passes. By [`crate::written_gates_are_the_networks`]
/// it passes what the network's gate `gate_list_after` passes (IEEE 802.1Q, Annex T). The classes and the octet maximum are
/// this project's own.
pub fn gate_of(domain: &Domain, row: &Row, bridge: u16) -> StreamList
    requires { IsGoodPace row.now.pace }
    ensures { result ≡ gate_at domain.now row.now bridge }
{
    let hop_number = row.hop_number_after(ingress_at(domain, row, bridge));
    gate_of_reservation(
        domain.cycle_time(),
        Octets(row.octets),
        row.pace,
        hop_number,
    )
}
