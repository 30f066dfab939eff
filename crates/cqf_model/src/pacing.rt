//! The cycles in which a stream's frames are on their way, and what it reserves there.
ghost use Rattle.std.specs.Prelude.{◌≡◌, ◌==◌, find, option_copied};
ghost use Rattle.cqf_model.specs.declared.topology.Hop.{Hop as AHop};
ghost use Rattle.cqf_model.specs.Paces.{is_active};
ghost use Rattle.cqf_model.specs.Table.{hop_number_after, reserved_in};

use crate::{Hop, Pace, Row};

/// Returns whether a stream's frames are at this hop number in the cycle: they are offered in the cycles of the
/// stream's phase, and leave on a link as many cycles later as its hop number says.
fn is_active(pace: Pace, hop_number: u8, cycle: u64) -> bool
    ensures { result ≡ is_active pace hop_number cycle }
{
    let every = u64::from(pace.pause) + 1;
    (u64::from(pace.phase) + u64::from(hop_number)) % every == cycle % every
}

/// Returns the hop by this link in a row's tree.
fn hop_by(row: &Row, link: u16) -> Option<&Hop>
    ensures { option_copied result ≡ find (λ (hop : AHop). hop.link == link) row.now.tree.items }
{
    row.tree.as_slice().iter().find(|hop| hop.link == link)
}

impl Row {
    /// Returns the hop number that a frame of the stream has reached: 0 at its edge bridge, for which `ingress` is `None`,
    /// otherwise the hop number of the link that it came by (0 if the tree doesn't have the link).
    pub fn hop_number_after(&self, ingress: Option<u16>) -> u8
        ensures { result ≡ hop_number_after self.now ingress }
    {
        let Some(link) = ingress else {
            return 0;
        };
        match hop_by(self, link) {
            Some(hop) => hop.hop_number,
            None => 0,
        }
    }

    /// Returns the octets that the stream reserves in this cycle for frames that came by the link `ingress`, or that were
    /// offered at the edge bridge if `ingress` is `None`. It is 0 in cycles in which none of the stream's frames are there.
    pub fn reserved_after(&self, ingress: Option<u16>, cycle: u64) -> u32
        ensures { result ≡ reserved_in self.now (hop_number_after self.now ingress) cycle }
    {
        // a stream that is offered in each cycle reserves in each, at every hop number
        if self.pace.pause == 0 {
            return self.octets;
        }
        if is_active(self.pace, self.hop_number_after(ingress), cycle) {
            self.octets
        } else {
            0
        }
    }
}
