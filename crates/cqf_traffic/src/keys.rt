//! The keys of a stream's traffic.
ghost use Rattle.std.specs.Prelude.{◌≡◌, Some};
ghost use Rattle.cqf_traffic.specs.Keys.{default_of, key_text, least_of, most_of};

use std::fmt;

/// A key of a stream's traffic, in reading order. The terms are those of IEEE Std 802.1Q-2018, 46.2.3.5. A key prints as a text has it, in
/// lower case.
#[derive(Clone, Copy, Debug, PartialEq, Eq)]
pub enum TrafficKey {
    /// An interval of the talker's clock, in nanoseconds (Interval).
    Interval,
    /// The most frames that the talker sends in each interval (MaxFramesPerInterval).
    Frames,
    /// The most octets of a frame, with header, tag and FCS (MaxFrameSize leaves these out).
    Size,
    /// How late a frame can be at its edge bridge compared with the regular grid, in nanoseconds.
    Jitter,
    /// The instant at which the stream's offers begin, in nanoseconds.
    Offset,
}

/// All keys, in reading order.
pub const TRAFFIC_KEYS: [TrafficKey; 5] = [
    TrafficKey::Interval,
    TrafficKey::Frames,
    TrafficKey::Size,
    TrafficKey::Jitter,
    TrafficKey::Offset,
];

impl TrafficKey {
    /// Returns the key as a text has it.
    pub fn as_str(self) -> &'static str
        ensures { result.now ≡ key_text self }
    {
        match self {
            TrafficKey::Interval => "interval",
            TrafficKey::Frames => "frames",
            TrafficKey::Size => "size",
            TrafficKey::Jitter => "jitter",
            TrafficKey::Offset => "offset",
        }
    }

    /// Returns the least number allowed at the key, in nanoseconds, frames or octets.
    pub fn least(self) -> u32
        ensures { result ≡ least_of self }
    {
        match self {
            TrafficKey::Interval | TrafficKey::Frames => 1,
            TrafficKey::Size => 64,
            TrafficKey::Jitter | TrafficKey::Offset => 0,
        }
    }

    /// Returns the greatest number allowed at the key, in nanoseconds, frames or octets.
    pub fn most(self) -> u32
        ensures { result ≡ most_of self }
    {
        match self {
            TrafficKey::Frames => 1_000,
            TrafficKey::Size => 1_522,
            TrafficKey::Interval | TrafficKey::Jitter | TrafficKey::Offset => 1_000_000_000,
        }
    }

    /// Returns the default if the key is absent, or `None` if the key must be there.
    pub fn default(self) -> Option<u32>
        ensures { result ≡ default_of self }
    {
        match self {
            TrafficKey::Interval | TrafficKey::Size => None,
            TrafficKey::Frames => Some(1),
            TrafficKey::Jitter | TrafficKey::Offset => Some(0),
        }
    }
}

impl fmt::Display for TrafficKey {
    ghost output = { λ key. Some (key_text key) };

    fn fmt<W: fmt::Write>(&self, f: &mut fmt::Formatter<W>) -> fmt::Result {
        f.write_str(self.as_str())
    }
}
