//! The keys of the texts.
ghost use Rattle.std.specs.Prelude.{◌≡◌, Some};
ghost use Rattle.cqf_topology.specs.Fields.{key_text, substitute_of};

use std::fmt;

/// A key of a domain text or of a streams text. It prints as it is written there, in lower case.
#[derive(Clone, Copy, Debug, PartialEq, Eq, Hash)]
pub enum Key {
    Cycle,
    Guard,
    Sync,
    GateOverhead,
    Bridges,
    Stations,
    Links,
    From,
    To,
    Rate,
    Delay,
    Streams,
    Name,
    Octets,
    Path,
    Paths,
    Deadline,
    Every,
    Phase,
}

impl Key {
    /// Returns the key as a text has it.
    pub fn as_str(self) -> &'static str
        ensures { result.now ≡ key_text self }
    {
        match self {
            Key::Cycle => "cycle",
            Key::Guard => "guard",
            Key::Sync => "sync",
            Key::GateOverhead => "gate-overhead",
            Key::Bridges => "bridges",
            Key::Stations => "stations",
            Key::Links => "links",
            Key::From => "from",
            Key::To => "to",
            Key::Rate => "rate",
            Key::Delay => "delay",
            Key::Streams => "streams",
            Key::Name => "name",
            Key::Octets => "octets",
            Key::Path => "path",
            Key::Paths => "paths",
            Key::Deadline => "deadline",
            Key::Every => "every",
            Key::Phase => "phase",
        }
    }

    /// Returns the key that can replace this one: `paths` replaces `path`.
    pub(crate) fn substitute(self) -> Option<Key>
        ensures { result ≡ substitute_of self }
    {
        match self {
            Key::Path => Some(Key::Paths),
            _ => None,
        }
    }
}

impl fmt::Display for Key {
    ghost output = { λ key. Some (key_text key) };

    fn fmt<W: fmt::Write>(&self, f: &mut fmt::Formatter<W>) -> fmt::Result {
        f.write_str(self.as_str())
    }
}
