//! Comparisons of what a seat kept with a history.
ghost use Rattle.std.specs.Arc.{arc_value};
ghost use Rattle.std.specs.Prelude.{◌≡◌, ◌↔◌, true, map};
ghost use Rattle.cqf_admission.specs.Admission.{act_of, recorded_of};
ghost use Rattle.cqf_admission.specs.Asking.{asked_of, asked_paced};
ghost use Rattle.cqf_admission.specs.Branches.{branches_of};

use cqf_admission::{Call, Entry, Row, SharedRequest, Table};
use cqf_model::Hop;
use cqf_topology::{PacedRequest, Request};
use std::sync::Arc;

/// Returns whether two texts are the same.
fn is_same_text(one: &str, other: &str) -> bool
    ensures { (result ≡ true) ↔ (one.now ≡ other.now) }
{
    one == other
}

/// Returns whether two lists of branches have the same names.
fn are_same_paths(these: &[Vec<String>], those: &[Vec<String>]) -> bool
    ensures { (result ≡ true) ↔ (branches_of these.now ≡ branches_of those.now) }
{
    these == those
}

/// Returns whether two requests are for the same.
fn is_same_request(one: &Request, other: &Request) -> bool
    ensures { (result ≡ true) ↔ (asked_of one.now ≡ asked_of other.now) }
{
    if !is_same_text(one.name.as_str(), other.name.as_str()) {
        return false;
    }
    if one.octets != other.octets {
        return false;
    }
    are_same_paths(one.paths.as_slice(), other.paths.as_slice())
}

/// Returns whether two requests have the same branches. This is fast if both were checked.
fn have_same_branches(one: &SharedRequest, other: &SharedRequest) -> bool
    ensures { (result ≡ true) ↔ (branches_of one.now.paths.items ≡ branches_of other.now.paths.items) }
{
    if let Some(same) = one.has_same_branches(other) {
        return same;
    }
    let (these, those) = (one.request(), other.request());
    are_same_paths(these.paths.as_slice(), those.paths.as_slice())
}

/// Returns whether two requests with paces are for the same.
fn is_same_shared(one: &SharedRequest, other: &SharedRequest) -> bool
    ensures { (result ≡ true) ↔ (asked_paced one.now ≡ asked_paced other.now) }
{
    let (this, that) = (one.request(), other.request());
    if !is_same_text(this.name.as_str(), that.name.as_str()) {
        return false;
    }
    if this.octets != that.octets || this.every != that.every || this.phase != that.phase {
        return false;
    }
    have_same_branches(one, other)
}

/// Returns whether a request with a pace is for a stream that is offered in each cycle, and for the same as the other request.
fn is_plainly(one: &PacedRequest, other: &Request) -> bool
    ensures { (result ≡ true) ↔ (asked_paced one.now ≡ asked_of other.now) }
{
    if !is_same_text(one.name.as_str(), other.name.as_str()) {
        return false;
    }
    if one.octets != other.octets || one.every != 1 || one.phase != 0 {
        return false;
    }
    are_same_paths(one.paths.as_slice(), other.paths.as_slice())
}

/// Returns whether two calls are for the same.
fn is_same_call(one: &Call, other: &Call) -> bool
    ensures { (result ≡ true) ↔ (act_of one.now ≡ act_of other.now) }
{
    match (one, other) {
        (Call::Admit(asked), Call::Admit(again)) => is_same_request(asked, again),
        (Call::AdmitPaced(asked), Call::AdmitPaced(again)) => is_same_shared(asked, again),
        (Call::AdmitPaced(asked), Call::Admit(again)) => is_plainly(asked.request(), again),
        (Call::Admit(asked), Call::AdmitPaced(again)) => is_plainly(again.request(), asked),
        (Call::Withdraw(name), Call::Withdraw(again)) => is_same_text(
            name.as_str(),
            again.as_str(),
        ),
        (Call::Seal, Call::Seal) => true,
        _ => false,
    }
}

/// Returns whether two entries have the same seat, call and answer.
pub(crate) fn is_same_entry(one: &Entry, other: &Entry) -> bool
    ensures { (result ≡ true) ↔ (recorded_of one.now ≡ recorded_of other.now) }
{
    if one.seat != other.seat {
        return false;
    }
    if one.reply != other.reply {
        return false;
    }
    is_same_call(&one.call, &other.call)
}

/// Returns whether two lists have the same entries.
pub(crate) fn are_same_entries(these: &[Entry], those: &[Entry]) -> bool
    ensures { (result ≡ true) ↔ (map recorded_of these.now ≡ map recorded_of those.now) }
{
    if these.len() != those.len() {
        return false;
    }
    for index in 0..these.len() {
        if !is_same_entry(&these[index], &those[index]) {
            return false;
        }
    }
    true
}

/// Returns whether two lists have the same bytes.
fn are_same_bytes(these: &[u8], those: &[u8]) -> bool
    ensures { (result ≡ true) ↔ (these.now ≡ those.now) }
{
    these == those
}

/// Returns whether two hops are the same.
fn is_same_hop(one: &Hop, other: &Hop) -> bool
    ensures { (result ≡ true) ↔ (one.now ≡ other.now) }
{
    one.link == other.link && one.hop_number == other.hop_number && one.from == other.from
}

/// Returns whether two lists have the same hops.
fn are_same_hops(these: &[Hop], those: &[Hop]) -> bool
    ensures { (result ≡ true) ↔ (these.now ≡ those.now) }
{
    if these.len() != those.len() {
        return false;
    }
    for index in 0..these.len() {
        if !is_same_hop(&these[index], &those[index]) {
            return false;
        }
    }
    true
}

/// Returns whether two rows are the same.
fn is_same_row(one: &Row, other: &Row) -> bool
    ensures { (result ≡ true) ↔ (one.now ≡ other.now) }
{
    if one.no != other.no || one.octets != other.octets {
        return false;
    }
    if one.overhead != other.overhead || one.pace != other.pace {
        return false;
    }
    if !are_same_bytes(one.name.as_bytes(), other.name.as_bytes()) {
        return false;
    }
    if one.admitted != other.admitted || one.withdrawn != other.withdrawn {
        return false;
    }
    are_same_hops(one.tree.as_slice(), other.tree.as_slice())
}

/// Returns whether two lists have the same rows.
fn are_same_rows(these: &[Arc<Row>], those: &[Arc<Row>]) -> bool
    ensures { (result ≡ true) ↔ (map (λ row. arc_value row) these.now ≡ map (λ row. arc_value row) those.now) }
{
    if these.len() != those.len() {
        return false;
    }
    for index in 0..these.len() {
        if !is_same_row(&these[index], &those[index]) {
            return false;
        }
    }
    true
}

/// Returns whether two tables are of the same cycle, with the same rows.
pub(crate) fn is_same_table(one: &Table, other: &Table) -> bool
    ensures { (result ≡ true) ↔ (one.now ≡ other.now) }
{
    one.cycle() == other.cycle() && are_same_rows(one.rows(), other.rows())
}
