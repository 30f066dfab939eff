//! The judgement of requests by themselves, each checked once.
ghost use Rattle.std.specs.Prelude.{◌≡◌, IfOk, OnOk, length};
ghost use Rattle.cqf_admission.specs.Asking.{asked_paced};
ghost use Rattle.cqf_admission.specs.Forms.{AreUnseen, IsFormOf, IsSeen};

use crate::count_indices;
use crate::judged::judge_paced;
use cqf_model::{Refused, Row};
use cqf_topology::{Domain, PacedRequest};
use cqf_units::{Cycle, Memory};
use std::alloc::{AllocError, Global};

/// What is known of a request's form.
#[derive(Debug, Drop)]
pub(crate) enum RequestForm {
    /// The request wasn't checked yet.
    Unseen,
    /// The first reason against the request.
    Bad(Refused),
    /// Nothing is against the request. This is its row, as if it had number 0 and were admitted in cycle 0.
    Good(Row),
}

/// Checks the form of a request.
///
/// # Errors
/// `Memory` if an allocation fails, or if a `usize` can't hold the number of names in its branches.
pub(crate) fn look_over(
    alloc: Global,
    domain: &Domain,
    request: &PacedRequest,
) -> Result<RequestForm, Memory>
    ensures seen { IfOk result IsSeen }
    ensures form { IfOk result (IsFormOf domain.now (asked_paced request.now)) }
{
    if count_indices(request.paths.as_slice()).is_none() {
        return Err(AllocError);
    }
    match judge_paced(domain, request) {
        Ok(judged) => {
            let row = judged.into_row(alloc, request.octets, 0, Cycle(0))?;
            Ok(RequestForm::Good(row))
        }
        Err(refused) => Ok(RequestForm::Bad(refused)),
    }
}

/// Checks the form of a request, unless it is already known.
///
/// # Errors
/// As for [`look_over`].
pub(crate) fn see(
    alloc: Global,
    domain: &Domain,
    request: &PacedRequest,
    form: &mut RequestForm,
) -> Result<(), Memory>
    requires { IsFormOf domain.now (asked_paced request.now) form.old }
    ensures form { IsFormOf domain.now (asked_paced request.now) form.new }
    ensures seen { OnOk result (IsSeen form.new) }
{
    if let RequestForm::Unseen = form {
        *form = look_over(alloc, domain, request)?;
    }
    Ok(())
}

/// Returns the forms of requests that weren't checked yet, or `Memory` if an allocation fails.
pub(crate) fn unseen(alloc: Global, requests: usize) -> Result<Vec<RequestForm>, Memory>
    ensures many { IfOk result (λ forms. length forms.items ≡ requests) }
    ensures unseen { IfOk result (λ forms. AreUnseen forms.items) }
{
    let mut forms = Vec::with_capacity(alloc, requests)?;
    for _ in 0..requests {
        forms.push(RequestForm::Unseen)?;
    }
    Ok(forms)
}
