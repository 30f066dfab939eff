//! The limits of a run and of its input, as in `specs/Limits.antt`: the fixed ones, the bounds up to which plans can be
//! represented, and those that are set for a plan.
ghost use Rattle.std.specs.Prelude.{◌≡◌};
ghost use Rattle.cqf_model.specs.Limits.{
  profile,
  limits_where,
  bridges_within,
  stations_within,
  links_within,
  nodes_within,
  hops_within,
  streams_within,
  rows_within,
};

/// The most cycles of a run.
pub const MOST_CYCLES: u64 = 100_000;

/// The most Seals among the entries of a history: one for each cycle of a run.
pub const MOST_SEALS: u32 = 100_000;

/// The most entries of a history, or lines of a script, other than Seals.
pub const MOST_CALLS: usize = 100_000;

/// The fewest octets that a stream may reserve in a cycle.
pub const LEAST_OCTETS: u32 = 64;

/// The most octets that a stream may reserve in a cycle.
pub const MOST_OCTETS: u32 = 1_000_000;

/// The most octets of a frame that a gate may leave uncounted.
pub const MOST_OVERHEAD: u32 = 22;

/// The number of cycles in which all paces repeat: a stream is offered in one of every n cycles, for a divisor n of this.
pub const MOST_EVERY: u32 = 80;

/// The longest cycle, guard band and link delay, in nanoseconds.
pub const LONGEST_CYCLE: u32 = 10_000_000;

/// The instant up to which a port runs at most, in nanoseconds. Its arrivals are no later.
pub const LAST_UNTIL: u64 = 100_000_000;

/// The most bridges of a domain that can be represented.
pub const MOST_BRIDGES: usize = 1024;

/// The most stations of a domain that can be represented.
pub const MOST_STATIONS: usize = 4096;

/// The most links of a domain that can be represented.
pub const MOST_LINKS: usize = 4096;

/// The most nodes of a branch that can be represented: its bridges and a station.
pub const MOST_NODES: usize = 65;

/// The most hops of a tree that can be represented.
pub const MOST_HOPS: usize = 200;

/// The most streams held at once that can be represented.
pub const MOST_STREAMS: usize = 16_384;

/// The most rows of a table of arrivals, offers or background frames that can be represented.
pub const MOST_ROWS: u32 = 16_777_215;

/// The limits that are set for a plan.
#[derive(Clone, Copy, Debug, PartialEq, Eq)]
pub struct Limits {
    pub bridges: usize,
    pub stations: usize,
    pub links: usize,
    /// The nodes of a branch.
    pub nodes: usize,
    /// The hops of a tree.
    pub hops: usize,
    /// The streams that are held at once.
    pub streams: usize,
    /// The rows of a table.
    pub rows: u32,
}

/// The limits of a plan for which none are set.
pub const PROFILE: Limits = Limits {
    bridges: 32,
    stations: 64,
    links: 64,
    nodes: 17,
    hops: 64,
    streams: 1024,
    rows: 1_000_000,
};

/// The limits of large plans: the bounds of representation, except for rows.
pub const LARGE: Limits = Limits {
    bridges: MOST_BRIDGES,
    stations: MOST_STATIONS,
    links: MOST_LINKS,
    nodes: MOST_NODES,
    hops: MOST_HOPS,
    streams: MOST_STREAMS,
    rows: 10_000_000,
};

impl Limits {
    /// Returns the limits of a plan for which none are set.
    pub fn of_profile() -> Limits
        ensures { result ≡ profile }
    {
        PROFILE
    }

    /// Returns the limits of a plan, by whether it is declared large.
    pub fn where_large(is_large: bool) -> Limits
        ensures { result ≡ limits_where is_large }
    {
        if is_large { LARGE } else { PROFILE }
    }

    /// Returns the number of bridges that a domain may have: the limit that is set, but at most what can be represented.
    pub fn bridges_within(&self) -> usize
        ensures { result ≡ bridges_within self.now }
    {
        self.bridges.min(MOST_BRIDGES)
    }

    /// Returns the number of stations that a domain may have: the limit that is set, but at most what can be
    /// represented.
    pub fn stations_within(&self) -> usize
        ensures { result ≡ stations_within self.now }
    {
        self.stations.min(MOST_STATIONS)
    }

    /// Returns the number of links that a domain may have: the limit that is set, but at most what can be represented.
    pub fn links_within(&self) -> usize
        ensures { result ≡ links_within self.now }
    {
        self.links.min(MOST_LINKS)
    }

    /// Returns the number of nodes that a branch may have: the limit that is set, but at most what can be represented.
    pub fn nodes_within(&self) -> usize
        ensures { result ≡ nodes_within self.now }
    {
        self.nodes.min(MOST_NODES)
    }

    /// Returns the number of hops that a tree may have: the limit that is set, but at most what can be represented.
    pub fn hops_within(&self) -> usize
        ensures { result ≡ hops_within self.now }
    {
        self.hops.min(MOST_HOPS)
    }

    /// Returns the number of streams that may be held at once: the limit that is set, but at most what can be
    /// represented.
    pub fn streams_within(&self) -> usize
        ensures { result ≡ streams_within self.now }
    {
        self.streams.min(MOST_STREAMS)
    }

    /// Returns the number of rows that a table may have: the limit that is set, but at most what can be represented.
    pub fn rows_within(&self) -> u32
        ensures { result ≡ rows_within self.now }
    {
        self.rows.min(MOST_ROWS)
    }
}
