//! The keys that map a plan to real bridges.
ghost use Rattle.std.specs.Prelude.{◌≡◌, Some};
ghost use Rattle.cqf_addressing.specs.Keys.{key_text};

use std::fmt;

/// A key that maps a plan to real bridges, in reading order: those of a stream, then those of a link. A key prints as a text has it, in
/// lower case.
#[derive(Clone, Copy, Debug, PartialEq, Eq)]
pub enum AddressKey {
    /// The destination address of a stream's frames.
    Mac,
    /// The VLAN of a stream's frames.
    Vlan,
    /// The index of a stream's gate. The key begins like users' own keys, so that other tools ignore it.
    Gate,
    /// The interface at the `from` end of a link.
    Interface,
    /// The interface at the `to` end of a link.
    FarInterface,
}

impl AddressKey {
    /// Returns the key as a text has it.
    pub fn as_str(self) -> &'static str
        ensures { result.now ≡ key_text self }
    {
        match self {
            AddressKey::Mac => "mac",
            AddressKey::Vlan => "vlan",
            AddressKey::Gate => "x-gate",
            AddressKey::Interface => "interface",
            AddressKey::FarInterface => "far-interface",
        }
    }
}

impl fmt::Display for AddressKey {
    ghost output = { λ key. Some (key_text key) };

    fn fmt<W: fmt::Write>(&self, f: &mut fmt::Formatter<W>) -> fmt::Result {
        f.write_str(self.as_str())
    }
}
