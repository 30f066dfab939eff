//! VLANs of frames.
ghost use Rattle.std.specs.Prelude.{◌≡◌, option_map};
ghost use Rattle.cqf_addressing.specs.Values.{IsVlan, is_vlan, vlan_of};

use std::marker::Model;

/// The VLAN of frames, a number from 1 to 4,094 (IEEE Std 802.1Q-2018, 9.6).
#[derive(Clone, Copy, Debug)]
pub struct VlanId {
    number: u16,
}

impl Model for VlanId {
    ghost use Rattle.std.specs.Prelude.{ℕ};
    ghost use Rattle.cqf_addressing.specs.Values.{IsVlan};

    ghost Value = { ℕ };

    ghost view = { λ v. v.number };

    ghost invariant = { λ v. IsVlan v.number };

    ghost inverse = { λ number. record { number = number } };
}

impl VlanId {
    /// Returns the VLAN with a number, or `None` if the number is 0 or above 4,094.
    pub fn new(number: u16) -> Option<VlanId>
        ensures { result ≡ vlan_of number }
    {
        if number >= 1 && number <= 4094 {
            Some(VlanId { number })
        } else {
            None
        }
    }

    /// Returns the number of the VLAN, from 1 to 4,094.
    pub fn number(self) -> u16
        ensures value { result ≡ self }
        ensures range { IsVlan self }
    {
        self.number
    }
}
