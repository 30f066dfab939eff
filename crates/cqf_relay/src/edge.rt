//! The offers at the bridge: those that go on, and those that are dropped.
ghost use Rattle.std.specs.Prelude.{◌≡◌, All, IfOk, None, OnOk, []};
ghost use Rattle.cqf_relay.specs.Offering.{Counts, DropsOf, IsOfCycle, JudgesOne, JudgesRow, TakesOffers, came_offered, used_in};

use crate::log::{ArrivedFrame, SourceLog};
use cqf_admission::Table;
use cqf_model::{Dropped, Offered, Reason, Row};
use cqf_topology::{Domain, begins_at};
use cqf_units::{Cycle, Memory, Octets, counted};
use std::alloc::Global;

/// The octets of a row that covered offers have used in `cycle`, the last cycle in which one used any.
#[derive(Clone, Copy, Debug)]
struct Used {
    cycle: u32,
    octets: u32,
}

/// The edge of the bridge with this number.
#[derive(Debug, Drop)]
pub(crate) struct Edge {
    number: u16,
    /// The octets used, by row number.
    used: Vec<Used>,
    /// The offers that go on.
    pub(crate) log: SourceLog,
    /// The drops, by cycle, then frame.
    pub(crate) drops: Vec<Dropped>,
    /// Working memory for the drops of a cycle.
    fresh: Vec<Dropped>,
}

/// Returns the octets used of a row in a cycle.
fn octets_in(used: &Used, cycle: u32) -> u32
    ensures { result ≡ used_in cycle used.now }
{
    if used.cycle == cycle { used.octets } else { 0 }
}

/// Counts octets for the row of a number in a cycle, unless more than `most` would be used with them. Returns whether they were counted.
fn count(
    used: &mut Vec<Used>,
    number: u32,
    cycle: u32,
    octets: u32,
    most: u32,
) -> Result<bool, Memory>
    ensures { IfOk result (Counts number cycle octets most used.old.items used.new.items) }
{
    for _between in used.len()..number as usize + 1 {
        used.push(Used {
            cycle: 0,
            octets: 0,
        })?;
    }
    let index = number as usize;
    let sum = u64::from(octets_in(&used[index], cycle)) + u64::from(octets);
    if sum > u64::from(most) {
        return Ok(false);
    }
    used[index] = Used {
        cycle,
        octets: sum as u32,
    };
    Ok(true)
}

/// Returns the first reason against an offer with the name of a row's stream, for a cycle at a bridge, given the octets that gates count of
/// it. If there is none, these octets are counted.
fn judge_row(
    domain: &Domain,
    bridge: u16,
    used: &mut Vec<Used>,
    row: &Row,
    cycle: Cycle,
    octets: u32,
) -> Result<Option<Reason>, Memory>
    ensures { IfOk result (JudgesRow domain.now bridge row.now cycle.0 octets used.old.items used.new.items) }
{
    if !row.live(cycle) {
        return Ok(Some(Reason::Withdrawn));
    }
    if !begins_at(domain, row, bridge) {
        return Ok(Some(Reason::OtherBridge));
    }
    let most = row.reserved_after(None, u64::from(cycle.0));
    if !count(used, row.no, cycle.0, octets, most)? {
        return Ok(Some(Reason::Octets));
    }
    Ok(None)
}

/// Returns the arrival of an offer of a row in a cycle.
fn came(domain: &Domain, cycle: Cycle, offered: &Offered, row: u32) -> ArrivedFrame
    requires { IsOfCycle domain.now cycle.0 offered.now }
    ensures { result ≡ came_offered domain.now cycle.0 offered.now row }
{
    domain.know();
    let begins = u64::from(cycle.0) * domain.cycle_time().0;
    ArrivedFrame {
        cycle: cycle.0,
        at: (offered.offer.at.0 - begins) as u32,
        frame: offered.frame,
        row,
        octets: offered.offer.octets,
    }
}

impl Edge {
    /// Returns the edge of a bridge at which nothing was offered. Requests no memory.
    pub(crate) fn new(alloc: Global, number: u16) -> Edge
        ensures number { result.number ≡ number }
        ensures used { result.used.items ≡ [] }
        ensures log { result.log.frames.items ≡ [] }
        ensures drops { result.drops.items ≡ [] }
    {
        Edge {
            number,
            used: Vec::new(alloc),
            log: SourceLog::new(alloc),
            drops: Vec::new(alloc),
            fresh: Vec::new(alloc),
        }
    }

    /// Drops an offer of a cycle.
    fn drop_for(&mut self, cycle: Cycle, offered: &Offered, reason: Reason) -> Result<(), Memory>
        ensures { OnOk result (DropsOf cycle.0 offered.now reason self.old self.new) }
    {
        self.fresh.push(Dropped {
            cycle,
            bridge: self.number,
            frame: offered.frame,
            octets: offered.offer.octets,
            reason,
        })?;
        Ok(())
    }

    /// Keeps an offer of a cycle if the row of its name covers it, and else drops it.
    fn judge(
        &mut self,
        domain: &Domain,
        cycle: Cycle,
        table: &Table,
        offered: &Offered,
    ) -> Result<(), Memory>
        requires { IsOfCycle domain.now cycle.0 offered.now }
        ensures { OnOk result (JudgesOne domain.now cycle.0 table.now.rows offered.now self.old self.new) }
    {
        let octets = counted(Octets(domain.overhead()), Octets(offered.offer.octets)).0;
        let Some(row) = table.row_named(&offered.offer.stream) else {
            return self.drop_for(cycle, offered, Reason::Unknown);
        };
        match judge_row(domain, self.number, &mut self.used, row, cycle, octets)? {
            Some(reason) => self.drop_for(cycle, offered, reason),
            None => self.log.keep(came(domain, cycle, offered, row.no)),
        }
    }

    /// Takes the offers of a cycle with its table: keeps those that are covered, and drops the others. Returns `Memory` if an allocation
    /// fails.
    pub(crate) fn take(
        &mut self,
        domain: &Domain,
        cycle: Cycle,
        table: &Table,
        offers: &[Offered],
    ) -> Result<(), Memory>
        requires { All (IsOfCycle domain.now cycle.0) offers.now }
        ensures { OnOk result (TakesOffers domain.now cycle.0 table.now.rows offers.now self.old self.new) }
    {
        self.fresh.clear();
        for offered in offers {
            self.judge(domain, cycle, table, offered)?;
        }
        // offers are by instant, and drops by frame
        self.fresh.sort_unstable_by_key(|dropped| dropped.frame);
        self.drops.extend_from_slice(self.fresh.as_slice())?;
        Ok(())
    }
}
