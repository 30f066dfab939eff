//! The verdict on a candidate for the cycle time.
ghost use Rattle.std.specs.Prelude.{◌≡◌, Some};
ghost use Rattle.cqf_program_planning.specs.Choosing.{candidate_fault_text};
ghost use Rattle.cqf_program_planning.specs.Judging.{shut_candidate};

use cqf_program_placing::PlanFault;
use cqf_units::Name;
use std::fmt;

/// Why a candidate isn't good.
#[derive(Debug, Drop)]
pub enum CandidateFault {
    /// It isn't longer than every guard band.
    GuardTooLong,
    /// The stream of this name isn't placed, or may be late.
    Stream(Name, PlanFault),
}

/// How much of a deadline is left.
#[derive(Debug, Drop)]
pub struct Slack {
    /// The name of its stream.
    pub stream: Name,
    /// In nanoseconds.
    pub deadline: u32,
    /// The longest time that a frame takes, in nanoseconds. What is left is the deadline less this.
    pub most: u64,
}

/// The verdict on a candidate for the cycle time.
#[derive(Debug, Drop)]
pub struct Candidate {
    /// In nanoseconds.
    pub cycle_time: u32,
    /// How many streams are placed.
    pub placed: usize,
    /// The greatest share of a link's budget that is held, in thousandths, rounded down; none if no link has a budget, or if the cycle time
    /// isn't longer than every guard band.
    pub used: Option<u64>,
    /// For how many streams and listeners a frame may be late.
    pub late: usize,
    /// The first of the deadlines with the least time left.
    pub tightest: Option<Slack>,
    /// Why it isn't good.
    pub fault: Option<CandidateFault>,
}

/// The text of the fault: the fault of a stream follows the stream's name.
impl fmt::Display for CandidateFault {
    ghost output = { λ fault. Some (candidate_fault_text fault) };

    fn fmt<W: fmt::Write>(&self, f: &mut fmt::Formatter<W>) -> fmt::Result {
        match self {
            CandidateFault::GuardTooLong => f.write_str("GuardTooLong"),
            CandidateFault::Stream(name, fault) => write!(f, "{name}: {fault}"),
        }
    }
}

impl Candidate {
    /// Returns the verdict on a cycle time, in nanoseconds, that isn't longer than every guard band: nothing is placed.
    pub(crate) fn shut(cycle_time: u32) -> Candidate
        ensures { result ≡ shut_candidate cycle_time }
    {
        Candidate {
            cycle_time,
            placed: 0,
            used: None,
            late: 0,
            tightest: None,
            fault: Some(CandidateFault::GuardTooLong),
        }
    }
}
