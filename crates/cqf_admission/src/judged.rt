//! The judgement of a request by itself, regardless of what is held.
ghost use Rattle.std.specs.Prelude.{◌≡◌, ◌<◌, ◌≤◌, ◌^◌, IfOk, MatchOption, false};
ghost use Rattle.cqf_model.specs.History.{is_pace};
ghost use Rattle.cqf_model.specs.Limits.{most_overhead, most_reserved};
ghost use Rattle.cqf_admission.specs.Branches.{branches_of, indices_of};
ghost use Rattle.cqf_admission.specs.Asking.{asked_of, asked_paced, asked_with};
ghost use Rattle.cqf_admission.specs.Judging.{IsJudgedOf, IsPaceOf, Judges, row_by};

use crate::find_tree;
use crate::trees::fitted;
use arrayvec::ArrayVec;
use cqf_model::{Hop, LEAST_OCTETS, MOST_EVERY, MOST_OCTETS, Pace, Refused, Row, Tree};
use cqf_topology::{Domain, PacedRequest, Request};
use cqf_units::{Cycle, Memory, Name, Octets, cost};
use std::alloc::Global;

/// A request of good form: its name, its cost on each link of its tree in octets in a cycle of its own, the octets of a frame that its gates
/// don't count, its pace, and its tree.
#[derive(Debug, Drop)]
pub struct JudgedRequest {
    pub name: Name,
    pub cost: Octets,
    pub overhead: u32,
    pub pace: Pace,
    pub tree: ArrayVec<Hop, 200>,
}

impl JudgedRequest {
    /// Returns the request of good form that has this row, regardless of the row's number and cycles.
    pub(crate) fn of_row(row: &Row) -> JudgedRequest
        requires octets { row.now.octets ≤ most_reserved }
        requires overhead { row.now.overhead ≤ most_overhead }
        ensures { IsJudgedOf row.now result }
    {
        JudgedRequest {
            name: row.name.copied(),
            cost: cost(Octets(row.overhead), Octets(row.octets)),
            overhead: row.overhead,
            pace: row.pace,
            tree: fitted(row.tree.as_slice()),
        }
    }

    /// Returns the row of the stream, with its reservation, its number, and the cycle from which it is live, or `Memory` if an allocation
    /// fails.
    pub fn into_row(
        self,
        alloc: Global,
        octets: u32,
        no: u32,
        admitted: Cycle,
    ) -> Result<Row, Memory>
        ensures { IfOk result (λ row. row ≡ row_by self octets no admitted) }
    {
        Ok(Row {
            no,
            octets,
            overhead: self.overhead,
            pace: self.pace,
            tree: Tree::new(alloc, self.tree.as_slice())?,
            name: self.name,
            admitted,
            withdrawn: None,
        })
    }
}

/// Returns the pace of a stream that is offered in one of every `every` cycles, first in the cycle `phase`, or `None` if this is no pace.
fn pace_of(every: u32, phase: u32) -> Option<Pace>
    ensures { MatchOption result (is_pace every phase ≡ false) (IsPaceOf every phase) }
{
    if every == 0 || every > MOST_EVERY {
        return None;
    }
    if MOST_EVERY % every != 0 || phase >= every {
        return None;
    }
    Some(Pace {
        pause: (every - 1) as u8,
        phase: phase as u8,
    })
}

/// Judges a request by itself, given its parts.
fn judge_parts(
    domain: &Domain,
    name: &str,
    octets: u32,
    every: u32,
    phase: u32,
    paths: &[Vec<String>],
) -> Result<JudgedRequest, Refused>
    requires { indices_of (branches_of paths.now) < 2 ^ 64 }
    ensures { Judges domain.now (asked_with name.now octets every phase (branches_of paths.now)) result }
{
    let Some(name) = Name::new(name.as_bytes()) else {
        return Err(Refused::BadName);
    };
    if octets < LEAST_OCTETS || octets > MOST_OCTETS {
        return Err(Refused::BadOctets);
    }
    let Some(pace) = pace_of(every, phase) else {
        return Err(Refused::BadPace);
    };
    let tree = find_tree(domain, paths)?;
    let overhead = domain.overhead();
    Ok(JudgedRequest {
        name,
        cost: cost(Octets(overhead), Octets(octets)),
        overhead,
        pace,
        tree,
    })
}

/// Judges a request by itself, for a stream that is offered in each cycle. The caller ensures that its branches have fewer than 2^64 names
/// together.
///
/// # Errors
/// The first reason against its form: `BadName`, `BadOctets`, `UnknownNode`, `BrokenPath`, `LoopingPath`, `NotATree`, each over all
/// branches before the next, and `TooManyHops`.
pub fn judge(domain: &Domain, request: &Request) -> Result<JudgedRequest, Refused>
    requires { indices_of (branches_of request.now.paths.items) < 2 ^ 64 }
    ensures { Judges domain.now (asked_of request.now) result }
{
    let (name, paths) = (request.name.as_str(), request.paths.as_slice());
    judge_parts(domain, name, request.octets, 1, 0, paths)
}

/// Judges a request by itself, for a stream that is offered in some cycles. The caller ensures that its branches have fewer than 2^64 names
/// together.
///
/// # Errors
/// As for [`judge`]. After `BadOctets` comes `BadPace`, if `every` doesn't divide 80 or `phase` isn't below `every`.
pub fn judge_paced(domain: &Domain, request: &PacedRequest) -> Result<JudgedRequest, Refused>
    requires { indices_of (branches_of request.now.paths.items) < 2 ^ 64 }
    ensures { Judges domain.now (asked_paced request.now) result }
{
    let (name, paths) = (request.name.as_str(), request.paths.as_slice());
    judge_parts(
        domain,
        name,
        request.octets,
        request.every,
        request.phase,
        paths,
    )
}
