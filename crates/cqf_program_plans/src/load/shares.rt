//! What each stream takes of access links, and the order in which streams are written.
ghost use Rattle.std.specs.Prelude.{ℕ, ◌≡◌, ◌≤◌, ◌+◌, ◌-◌, ◌++◌, IfOk, OnOk};
ghost use Rattle.cqf_model.specs.declared.topology.Row.{Row as ARow};
ghost use Rattle.cqf_model.specs.Limits.{most_reserved};
ghost use Rattle.cqf_program_plans.specs.declared.load.shares.AccessShare.{AccessShare as AShare};
ghost use Rattle.cqf_program_plans.specs.Load.Access.{most_taken, taken_by};
ghost use Rattle.cqf_program_plans.specs.Load.Streams.{access_shares, greatest_first, shares_of};

use crate::load::access::{MOST_TAKEN, handed_at, taken_by};
use cqf_edge::Handed;
use cqf_model::{MOST_OCTETS, Row};
use cqf_topology::Domain;
use cqf_units::{Memory, Name};
use std::alloc::Global;

/// What a stream takes of an access link.
#[derive(Drop)]
pub(crate) struct AccessShare {
    /// The link's index among the network's access links.
    pub(crate) index: usize,
    /// The name of the stream.
    pub(crate) stream: Name,
    /// The octets of a cycle that it takes, with preambles and gaps.
    pub(crate) taken: u64,
}

/// Returns n if a row's stream reserves in one of n cycles.
pub(crate) fn every_of(row: &Row) -> u32
    ensures { result ≡ row.now.pace.pause + 1 }
{
    u32::from(row.pace.pause) + 1
}

/// Returns the octets of a cycle that a row's stream takes of its access link.
fn taken_of(domain: &Domain, handed: &Handed, row: &Row) -> u64
    ensures { result ≡ taken_by domain.now.overhead domain.now.cycle_time handed.now row.now.octets (row.now.pace.pause + 1) }
{
    let (overhead, cycle_time) = (domain.overhead(), domain.cycle_time());
    let taken = taken_by(overhead, cycle_time, handed, row.octets, every_of(row));
    taken as u64
}

/// Adds what a row's stream takes of an access link, if it hands its frames to one.
fn push_share(
    shares: &mut Vec<AccessShare>,
    domain: &Domain,
    handed: &[Option<Handed>],
    row: &Row,
) -> Result<(), Memory>
    ensures { OnOk result (shares.new.items ≡ shares.old.items ++ shares_of domain.now.overhead domain.now.cycle_time handed.now row.now) }
{
    let Some(one) = handed_at(handed, row.no as usize) else {
        return Ok(());
    };
    shares.push(AccessShare {
        index: one.index,
        stream: row.name.copied(),
        taken: taken_of(domain, one, row),
    })?;
    Ok(())
}

/// Returns what the streams of rows take of access links, in the order of the rows. `handed` has what each stream hands over, by number.
///
/// # Errors
/// `Memory` if an allocation fails.
pub(crate) fn access_shares(
    alloc: Global,
    domain: &Domain,
    handed: &[Option<Handed>],
    rows: &[Row],
) -> Result<Vec<AccessShare>, Memory>
    ensures { IfOk result (λ shares. shares.items ≡ access_shares domain.now.overhead domain.now.cycle_time handed.now rows.now) }
{
    let mut shares = Vec::new(alloc);
    for row in rows {
        push_share(&mut shares, domain, handed, row)?;
    }
    Ok(shares)
}

/// Returns by how many octets a row reserves less than a stream may reserve.
fn below_most(row: &Row) -> u32
    ensures { result ≡ most_reserved - row.now.octets }
{
    MOST_OCTETS.saturating_sub(row.octets)
}

/// Returns by how many octets a share is less than the most that a stream can take.
fn below_most_taken(share: &AccessShare) -> u64
    ensures { result ≡ most_taken - share.now.taken }
{
    MOST_TAKEN.saturating_sub(share.taken)
}

/// Sorts rows by what they reserve, the greatest reservation first. Equal ones keep their order.
///
/// # Errors
/// `Memory` if an allocation fails.
pub(crate) fn sort_rows(rows: &mut Vec<Row>) -> Result<(), Memory>
    ensures { OnOk result (rows.new.items ≡ greatest_first most_reserved (λ (row : ARow). row.octets) rows.old.items) }
{
    rows.sort_by_key(|row| below_most(row))?;
    Ok(())
}

/// Sorts shares by the octets that they take, the greatest first. Equal ones keep their order.
///
/// # Errors
/// `Memory` if an allocation fails.
pub(crate) fn sort_shares(shares: &mut Vec<AccessShare>) -> Result<(), Memory>
    ensures { OnOk result (shares.new.items ≡ greatest_first most_taken (λ (share : AShare). share.taken) shares.old.items) }
{
    shares.sort_by_key(|share| below_most_taken(share))?;
    Ok(())
}
