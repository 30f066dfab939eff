//! Requests that calls share.
ghost use Rattle.std.specs.Arc.{arc_value};
ghost use Rattle.std.specs.Prelude.{◌≡◌, ◌↔◌, ◌<◌, ◌^◌, IfOk, IfSome, true};
ghost use Rattle.cqf_admission.specs.Asking.{asked_paced, asked_shared};
ghost use Rattle.cqf_admission.specs.Branches.{branches_of, indices_of};
ghost use Rattle.cqf_admission.specs.Forms.{IsFormOf};
ghost use Rattle.cqf_admission.specs.Judging.{Judges};
ghost use Rattle.cqf_admission.specs.Spelled.{spelled};

use crate::count_indices;
use crate::forms::{RequestForm, look_over};
use crate::judged::{JudgedRequest, judge_paced};
use crate::spelling::spell;
use cqf_model::Refused;
use cqf_topology::{Domain, PacedRequest};
use cqf_units::Memory;
use std::alloc::Global;
use std::marker::Model;
use std::sync::Arc;

/// A request that the calls for its stream share. If it was checked for a domain, none of these calls checks it again there.
#[derive(Debug, Drop)]
pub struct SharedRequest {
    request: PacedRequest,
    found: Option<FoundForm>,
}

/// The result of checking a request for a domain.
#[derive(Debug, Drop)]
struct FoundForm {
    domain: Arc<Domain>,
    form: RequestForm,
    /// The request's branches as one list, so that they are compared quickly.
    text: Vec<u8>,
}

impl Model for SharedRequest {
    ghost use Rattle.cqf_topology.specs.declared.paced.PacedRequest.{PacedRequest};
    ghost use Rattle.cqf_admission.specs.Shared.{IsFoundOf};

    ghost Value = { PacedRequest };

    ghost view = { λ s. s.request };

    ghost invariant = { λ s. IsFoundOf s.request s.found };
}

/// Returns whether a request has so few names that checking it is faster than comparing two domains.
fn is_short(domain: &Domain, request: &PacedRequest) -> bool {
    let nodes = usize::from(domain.bridges()) + usize::from(domain.stations());
    match count_indices(request.paths.as_slice()) {
        Some(indices) => indices.saturating_mul(indices) < nodes + usize::from(domain.links()),
        None => false,
    }
}

/// Returns whether two lists have the same octets.
fn is_same_text(one: &[u8], other: &[u8]) -> bool
    ensures { (result ≡ true) ↔ (one.now ≡ other.now) }
{
    one == other
}

impl SharedRequest {
    /// Returns a request that wasn't checked: each call checks it.
    pub fn new(request: PacedRequest) -> SharedRequest
        ensures { result ≡ request }
    {
        SharedRequest {
            request,
            found: None,
        }
    }

    /// Returns a request that was checked for a domain.
    ///
    /// # Errors
    /// `Memory` if an allocation fails, or if a `usize` can't hold the number of names in its branches.
    pub fn judged(
        alloc: Global,
        domain: &Arc<Domain>,
        request: PacedRequest,
    ) -> Result<SharedRequest, Memory>
        ensures { IfOk result (λ shared. shared ≡ request) }
    {
        let form = look_over(alloc, domain, &request)?;
        let text = spell(alloc, request.paths.as_slice())?;
        let domain = Arc::try_clone(domain)?;
        let found = FoundForm { domain, form, text };
        Ok(SharedRequest {
            request,
            found: Some(found),
        })
    }

    /// Returns the request.
    pub fn request(&self) -> &PacedRequest
        ensures { result.now ≡ self.now }
    {
        &self.request
    }

    /// Returns the branches as one list, if the request was checked.
    fn text(&self) -> Option<&[u8]>
        ensures { IfSome result (λ text. text.now ≡ spelled (branches_of self.now.paths.items)) }
    {
        let Some(found) = &self.found else {
            return None;
        };
        Some(found.text.as_slice())
    }

    /// Returns whether another request has the same branches, or `None` unless both were checked. They aren't compared name by name.
    pub fn has_same_branches(&self, other: &SharedRequest) -> Option<bool>
        ensures { IfSome result (λ same. (same ≡ true) ↔ (branches_of self.now.paths.items ≡ branches_of other.now.paths.items)) }
    {
        let Some(own) = self.text() else {
            return None;
        };
        let Some(text) = other.text() else {
            return None;
        };
        Some(is_same_text(own, text))
    }

    /// Returns the result of checking the request, if it was checked for a domain that equals this one. Returns `None` if another check is
    /// faster than comparing the domains.
    fn form_for(&self, domain: &Domain) -> Option<&RequestForm>
        ensures { IfSome result (λ form. IsFormOf domain.now (asked_paced self.now) form.now) }
    {
        if is_short(domain, &self.request) {
            return None;
        }
        let Some(found) = &self.found else {
            return None;
        };
        if !found.domain.is_same(domain) {
            return None;
        }
        Some(&found.form)
    }

    /// Judges the request by itself in a domain, as [`judge_paced`](crate::judge_paced) does. It isn't checked again if it was checked for
    /// a domain that equals this one, unless that is faster than comparing the two.
    pub(crate) fn judge(&self, domain: &Domain) -> Result<JudgedRequest, Refused>
        requires { indices_of (branches_of self.now.paths.items) < 2 ^ 64 }
        ensures { Judges domain.now (asked_paced self.now) result }
    {
        let Some(form) = self.form_for(domain) else {
            return judge_paced(domain, &self.request);
        };
        domain.know();
        match form {
            RequestForm::Good(row) => Ok(JudgedRequest::of_row(row)),
            RequestForm::Bad(refused) => Err(*refused),
            RequestForm::Unseen => judge_paced(domain, &self.request),
        }
    }
}

/// Returns a copy of a request that calls for its stream can share, or `Memory` if an allocation fails.
pub(crate) fn shared_request(
    alloc: Global,
    request: &PacedRequest,
) -> Result<Arc<SharedRequest>, Memory>
    ensures { IfOk result (λ copy. asked_shared copy ≡ asked_paced request.now) }
{
    let copy = request.try_copy(alloc)?;
    let shared = Arc::new(alloc, SharedRequest::new(copy))?;
    Ok(shared)
}

/// Returns a copy of a request that calls for its stream can share, and that was checked for a domain.
///
/// # Errors
/// As for [`SharedRequest::judged`].
pub(crate) fn judged_request(
    alloc: Global,
    domain: &Arc<Domain>,
    request: &PacedRequest,
) -> Result<Arc<SharedRequest>, Memory>
    ensures { IfOk result (λ copy. asked_shared copy ≡ asked_paced request.now) }
{
    let copy = request.try_copy(alloc)?;
    let judged = SharedRequest::judged(alloc, domain, copy)?;
    let shared = Arc::new(alloc, judged)?;
    Ok(shared)
}
