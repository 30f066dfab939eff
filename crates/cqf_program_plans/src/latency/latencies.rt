//! How long frames take to a listener, and whether they keep a deadline.
ghost use Rattle.std.specs.Prelude.{◌≡◌};
ghost use Rattle.cqf_laws_timing.specs.Verdicts.{sure_of};
ghost use Rattle.cqf_program_plans.specs.Latency.Text.{is_not_sure, name_of_verdict, said_of_latency, verdict_on_deadline};

use cqf_units::Name;

/// Whether the frames of a stream are certain to keep its deadline.
#[derive(Clone, Copy, Debug, PartialEq, Eq)]
pub enum Verdict {
    /// Each frame keeps it.
    InTime,
    /// No frame keeps it.
    Late,
    /// A frame may miss it.
    MayBeLate,
}

impl Verdict {
    /// Returns the verdict as it is written: `in-time`, `late` or `may-be-late`.
    pub fn name(self) -> &'static str
        ensures { result.now ≡ name_of_verdict self }
    {
        match self {
            Verdict::InTime => "in-time",
            Verdict::Late => "late",
            Verdict::MayBeLate => "may-be-late",
        }
    }
}

/// How long the frames of a stream take to one of its listeners, in nanoseconds: from the instant of a frame's offer, or of its hand-over to
/// its talker's access link, to its being whole in the listener's station.
#[derive(Debug, Drop)]
pub struct Latency {
    /// The stream's name.
    pub stream: Name,
    /// The name of the listener's station.
    pub listener: Name,
    /// The number of bridges on the path.
    pub bridges: u8,
    /// The least time that a frame takes.
    pub least: u64,
    /// The most time that a frame takes.
    pub most: u64,
    /// How far apart the arrivals of one cycle's frames can be.
    pub window: u64,
    /// The most time that a frame is allowed to take, if the stream has a deadline.
    pub deadline: Option<u32>,
}

/// Returns the verdict on a deadline, from the least and the most time that a frame takes.
fn verdict_on(least: u64, most: u64, deadline: u64) -> Verdict
    ensures { result ≡ said_of_latency (sure_of least most deadline) }
{
    if most <= deadline {
        Verdict::InTime
    } else if deadline < least {
        Verdict::Late
    } else {
        Verdict::MayBeLate
    }
}

impl Latency {
    /// Returns whether the frames keep their deadline, or `None` if the stream has no deadline.
    pub fn verdict(&self) -> Option<Verdict>
        ensures { result ≡ verdict_on_deadline self.now }
    {
        match self.deadline {
            Some(deadline) => Some(verdict_on(self.least, self.most, u64::from(deadline))),
            None => None,
        }
    }

    /// Returns whether a frame may miss its deadline.
    pub fn is_not_sure(&self) -> bool
        ensures { result ≡ is_not_sure self.now }
    {
        match self.verdict() {
            Some(Verdict::Late | Verdict::MayBeLate) => true,
            Some(Verdict::InTime) | None => false,
        }
    }
}
