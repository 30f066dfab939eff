//! The kinds of elements, and the keys whose values are compared.
ghost use Rattle.std.specs.Prelude.{◌≡◌, [], length, map, slice_index_or};
ghost use Rattle.cqf_program_diff.specs.Kinds.{keys_of, name_of_kind};

/// The kind of an element of a network.
#[derive(Clone, Copy, Debug, PartialEq, Eq)]
pub(crate) enum Kind {
    /// The network itself.
    Network,
    Bridge,
    Station,
    /// A link, also an access link.
    Link,
    Stream,
}

/// The keys of the network itself.
const NETWORK: [&str; 4] = ["cycle", "guard", "sync", "gate-overhead"];

/// The keys of a link.
const LINK: [&str; 4] = ["rate", "delay", "guard", "other"];

/// The keys of a stream.
const STREAM: [&str; 12] = [
    "path",
    "octets",
    "every",
    "phase",
    "deadline",
    "from",
    "least-size",
    "interval",
    "frames",
    "size",
    "jitter",
    "offset",
];

impl Kind {
    /// Returns the kind as it is written.
    pub(crate) fn name(self) -> &'static str
        ensures { result.now ≡ name_of_kind self }
    {
        match self {
            Kind::Network => "network",
            Kind::Bridge => "bridge",
            Kind::Station => "station",
            Kind::Link => "link",
            Kind::Stream => "stream",
        }
    }

    /// Returns the keys of a network file whose values are compared, in the order of an element's values.
    fn keys(self) -> &'static [&'static str]
        ensures { map (λ key. key.now) result.now ≡ keys_of self }
    {
        match self {
            Kind::Network => &NETWORK,
            Kind::Bridge | Kind::Station => &[],
            Kind::Link => &LINK,
            Kind::Stream => &STREAM,
        }
    }

    /// Returns the number of these keys.
    pub(crate) fn count(self) -> usize
        ensures { result ≡ length (keys_of self) }
    {
        self.keys().len()
    }

    /// Returns the key at an index; an empty text if there is none.
    pub(crate) fn key(self, index: usize) -> &'static str
        ensures { result.now ≡ slice_index_or (keys_of self) index [] }
    {
        match self.keys().get(index) {
            Some(key) => *key,
            None => "",
        }
    }
}
