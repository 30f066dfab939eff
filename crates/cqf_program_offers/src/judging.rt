//! Streams that are judged one after the other, as `load` judges them.
ghost use Rattle.std.specs.Prelude.{◌≡◌, ◌++◌, ◌∷◌, [], ◌<◌, ◌^◌, List, IfErr, IfOk, false, map, string_bytes};
ghost use Rattle.cqf_admission.specs.Asking.{asked_paced};
ghost use Rattle.cqf_admission.specs.Branches.{branches_of, indices_of};
ghost use Rattle.std.specs.List.{list_any};
ghost use Rattle.cqf_model.specs.Domain.{is_text};
ghost use Rattle.cqf_model.specs.History.{Asked};
ghost use Rattle.cqf_model.specs.declared.topology.Row.{Row as ARow};
ghost use Rattle.cqf_topology.specs.DomainText.{is_among};
ghost use Rattle.cqf_program_plans.specs.Load.Listing.{Weighs};
ghost use Rattle.cqf_program_plans.specs.Load.Output.{listed_from};
ghost use Rattle.cqf_output.specs.Stops.{IsRefused};

use cqf_admission::{JudgedRequest, count_indices, judge_paced};
use cqf_model::{Refused, Row};
use cqf_output::Stop;
use cqf_program_plans::stream_stop;
use cqf_topology::{Domain, NameList, PacedRequest};
use cqf_units::{Cycle, Name};
use std::alloc::Global;

/// Returns whether one of some streams of these names has the name.
fn has_name(names: &NameList, rows: &[Row], name: &Name) -> bool
    requires { names.now.keys ≡ map (λ (row : ARow). row.name) rows.now }
    ensures { result ≡ list_any (λ (row : ARow). is_text row.name name.now) rows.now }
{
    names.contains(name)
}

/// Weighs a request of fewer than 2^64 nodes in its paths together with others of these names. Returns the first reason to refuse it, except that a
/// link has no room; or else what it is by itself.
fn weigh(
    domain: &Domain,
    names: &NameList,
    rows: &[Row],
    request: &PacedRequest,
) -> Result<JudgedRequest, Refused>
    requires indices { indices_of (branches_of request.now.paths.items) < 2 ^ 64 }
    requires named { names.now.keys ≡ map (λ (row : ARow). row.name) rows.now }
    ensures { Weighs domain.now rows.now (asked_paced request.now) result }
{
    // the domain is accepted: its gates leave few octets uncounted
    domain.know();
    let judged = judge_paced(domain, request)?;
    if has_name(names, rows, &judged.name) {
        return Err(Refused::NameHeld);
    }
    if rows.len() >= domain.limits().streams_within() {
        return Err(Refused::TooManyStreams);
    }
    Ok(judged)
}

/// Returns the row of a request that follows others of these names, or the end if it is refused.
pub(crate) fn row_of(
    alloc: Global,
    domain: &Domain,
    names: &NameList,
    rows: &[Row],
    request: &PacedRequest,
) -> Result<Row, Stop>
    requires { names.now.keys ≡ map (λ (row : ARow). row.name) rows.now }
    ensures ok { IfOk result (λ row. (more : List Asked) →
        listed_from domain.now rows.now (asked_paced request.now ∷ more) ≡ listed_from domain.now (rows.now ++ row ∷ []) more) }
    ensures named { IfOk result (λ row. row.name ≡ string_bytes request.now.name) }
    ensures free { IfOk result (λ row. is_among row.name names.now.keys ≡ false) }
    ensures err { IfErr result (λ stop. (more : List Asked) → IsRefused (listed_from domain.now rows.now (asked_paced request.now ∷ more)) stop) }
{
    if count_indices(request.paths.as_slice()).is_none() {
        return Err(Stop::memory(alloc));
    }
    match weigh(domain, names, rows, request) {
        Ok(judged) => {
            match judged.into_row(alloc, request.octets, rows.len() as u32, Cycle(0)) {
                Ok(row) => Ok(row),
                Err(_) => Err(Stop::memory(alloc)),
            }
        }
        Err(refused) => Err(stream_stop(alloc, rows.len() + 1, refused)),
    }
}
