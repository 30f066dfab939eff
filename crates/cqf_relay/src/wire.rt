//! The time that frames take on a link.
ghost use Rattle.std.specs.Prelude.{◌≡◌, ◌<◌, ◌^◌, ◌*◌, ◌+◌};
ghost use Rattle.cqf_units.specs.Timing.{slot_of};
ghost use Rattle.cqf_relay.specs.Sending.{has_room_on, time_on};

use cqf_units::time_in_ticks;

/// The time that frames take on a link, in nanoseconds.
#[derive(Clone, Copy, Debug, PartialEq, Eq)]
pub struct Wire {
    /// The time of an octet, in ticks of 40 picoseconds.
    pub octet_time: u32,
    pub delay: u32,
    /// The cycle time.
    pub cycle_time: u32,
    /// Whether the link ends in another bridge.
    pub onward: bool,
}

impl Wire {
    /// Returns the time in nanoseconds from the start of a frame of `octets` octets until it is whole at the link's end.
    pub(crate) fn time_of(&self, octets: u32) -> u64
        requires { octets < 2 ^ 16 }
        ensures { result ≡ time_on self.now octets }
    {
        time_in_ticks(u64::from(octets) + 8, u64::from(self.octet_time)) + u64::from(self.delay)
    }

    /// Returns whether a frame is whole within a cycle if it starts `offset` nanoseconds from the cycle's beginning. Frames that the gates
    /// of a run pass always are.
    pub(crate) fn has_room(&self, offset: u64, octets: u32) -> bool
        requires { offset < 2 ^ 40 }
        ensures { result ≡ has_room_on self.now offset octets }
    {
        octets <= u32::from(u16::MAX) && offset + self.time_of(octets) < u64::from(self.cycle_time)
    }

    /// Returns the time in nanoseconds that a frame of `octets` octets and the gap after it take.
    pub(crate) fn taken_by(&self, octets: u32) -> u64
        requires { octets < 2 ^ 16 }
        ensures value { result ≡ slot_of octets self.now.octet_time }
        ensures ticks { self.now.octet_time < 2 ^ 32 }
    {
        let Wire { octet_time, .. } = *self;
        time_in_ticks(u64::from(octets) + 20, u64::from(octet_time))
    }
}
