//! Frames on a link (IEEE Std 802.3).
ghost use Rattle.std.specs.Prelude.{◌≡◌, ◌+◌, ◌*◌, ◌^◌, ◌<◌, ◌≤◌};
ghost use Rattle.cqf_units.specs.Timing.{ticks_of_octet, time_of, wire_of, slot_of, ending_of, idle_after};

/// An instant or a duration, in nanoseconds.
#[derive(Clone, Copy, Debug, PartialEq, Eq, PartialOrd, Ord, Hash)]
pub struct Nanos(pub u64);

/// A number of octets.
#[derive(Clone, Copy, Debug, PartialEq, Eq, PartialOrd, Ord, Hash)]
pub struct Octets(pub u32);

/// The rate of a link, from 10 Mb/s to 100 Gb/s.
#[derive(Clone, Copy, Debug, PartialEq, Eq, Hash)]
pub enum Rate {
    /// 10 Mb/s: an octet takes 800 ns.
    Mb10,
    /// 100 Mb/s: an octet takes 80 ns.
    Mb100,
    /// 1,000 Mb/s: an octet takes 8 ns.
    Mb1000,
    /// 2,500 Mb/s: an octet takes 3.2 ns.
    Mb2500,
    /// 5,000 Mb/s: an octet takes 1.6 ns.
    Mb5000,
    /// 10,000 Mb/s: an octet takes 0.8 ns.
    Mb10000,
    /// 25,000 Mb/s: an octet takes 0.32 ns.
    Mb25000,
    /// 40,000 Mb/s: an octet takes 0.2 ns.
    Mb40000,
    /// 100,000 Mb/s: an octet takes 0.08 ns.
    Mb100000,
}

/// Returns the time of one octet at the rate, in ticks of 40 picoseconds; a nanosecond has 25 of them (IEEE 802.3).
pub fn octet_ticks(rate: Rate) -> u64
    ensures value { result ≡ ticks_of_octet rate }
    ensures range { result ≤ 20000 }
    ensures some { 2 ≤ result }
{
    match rate {
        Rate::Mb10 => 20_000,
        Rate::Mb100 => 2000,
        Rate::Mb1000 => 200,
        Rate::Mb2500 => 80,
        Rate::Mb5000 => 40,
        Rate::Mb10000 => 20,
        Rate::Mb25000 => 8,
        Rate::Mb40000 => 5,
        Rate::Mb100000 => 2,
    }
}

/// Returns the time that `octets` octets take at the rate, in nanoseconds, rounded up to a whole one. There are at most
/// 2^33 octets, and each takes at most 800 ns.
pub fn time_of(octets: u64, rate: Rate) -> u64
    requires { octets ≤ 2 ^ 33 }
    ensures value { result ≡ time_of octets (ticks_of_octet rate) }
    ensures range { result ≤ 800 * octets }
    ensures least { 2 * octets ≤ 25 * result }
{
    (octets * octet_ticks(rate)).div_ceil(25)
}

/// Returns the same as [`time_of`] for octets that take `octet_ticks` ticks each. The caller keeps their total below
/// 2^63 ticks.
pub fn time_in_ticks(octets: u64, octet_ticks: u64) -> u64
    requires { octets * octet_ticks < 2 ^ 63 }
    ensures { result ≡ time_of octets octet_ticks }
{
    (octets * octet_ticks).div_ceil(25)
}

/// Returns the octets that a frame takes on the wire: its own, 8 of preamble and start delimiter, and 12 of minimum gap
/// (IEEE 802.3). The caller keeps the sum below 2^32.
pub fn wire(frame: Octets) -> Octets
    requires { frame.0 + 20 < 2 ^ 32 }
    ensures { result.0 ≡ wire_of frame.0 }
{
    Octets(frame.0 + 20)
}

/// Returns a frame's slot: the time, in nanoseconds, that its octets on the wire take, rounded up to a whole one. It is
/// at most 800 ns for each of them.
pub fn slot(frame: Octets, rate: Rate) -> u64
    ensures value { result ≡ slot_of frame.0 (ticks_of_octet rate) }
    ensures range { result ≤ 800 * (frame.0 + 20) }
{
    time_of(u64::from(frame.0) + 20, rate)
}

/// Returns the instant at which a frame that starts at `start` has ended: preamble, start delimiter and frame have been
/// sent (IEEE 802.3). The caller keeps it below 2^64 ns.
pub fn end_of(start: Nanos, frame: Octets, rate: Rate) -> Nanos
    requires { ending_of start.0 frame.0 (ticks_of_octet rate) < 2 ^ 64 }
    ensures { result.0 ≡ ending_of start.0 frame.0 (ticks_of_octet rate) }
{
    Nanos(start.0 + time_of(u64::from(frame.0) + 8, rate))
}

/// Returns the instant from which the port may start the next frame after one that starts at `start`: the minimum gap
/// after the frame has passed too (IEEE 802.3). The caller keeps it below 2^64 ns.
pub fn idle_from(start: Nanos, frame: Octets, rate: Rate) -> Nanos
    requires { idle_after start.0 frame.0 (ticks_of_octet rate) < 2 ^ 64 }
    ensures { result.0 ≡ idle_after start.0 frame.0 (ticks_of_octet rate) }
{
    Nanos(start.0 + slot(frame, rate))
}
