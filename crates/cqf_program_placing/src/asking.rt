//! Requests for streams.
ghost use Rattle.std.specs.Prelude.{ℕ, ◌≡◌, ◌<◌, IfOk, length};
ghost use Rattle.cqf_admission.specs.Admission.{calls};
ghost use Rattle.cqf_admission.specs.Asking.{asked_paced};
ghost use Rattle.cqf_model.specs.History.{held_in, refusal_of, seals};
ghost use Rattle.cqf_model.specs.Limits.{most_calls};
ghost use Rattle.cqf_program_plans.specs.Compile.Output.{with_asked};
ghost use Rattle.cqf_program_placing.specs.Placing.{answered, fault_of_refusal, outcome_value};

use crate::branches::{end_of_link, start_of_link};
use crate::{PlacingOutcome, PlanFault};
use cqf_admission::{Admission, Refused};
use cqf_topology::{Domain, PacedRequest};
use cqf_units::Memory;
use std::alloc::AllocError;

/// The administrator that requests streams.
const SEAT: u16 = 0;

/// Returns a refusal as the fault of a stream, with the names of the ends of a link that lacks room.
fn fault_of_refusal(domain: &Domain, refused: Refused) -> PlanFault
    requires { (link left : ℕ) → refused ≡ Refused.BudgetShort link left → link < length domain.now.links }
    ensures { result ≡ fault_of_refusal domain.now refused }
{
    match refused {
        Refused::BudgetShort { link, left } => PlanFault::Short {
            from: start_of_link(domain, link),
            to: end_of_link(domain, link),
            left,
        },
        _ => PlanFault::Refused(refused),
    }
}

/// Requests a stream, and returns the outcome: admission's answer. Returns `Memory` if an allocation fails.
pub(crate) fn ask(
    domain: &Domain,
    admission: &mut Admission,
    request: PacedRequest,
) -> Result<PlacingOutcome, Memory>
    requires domain { admission.old.domain ≡ domain.now }
    requires free { calls admission.old.entries < most_calls }
    ensures domain { admission.new.domain ≡ domain.now }
    ensures answered { let d = domain.now in let entries = admission.old.entries in IfOk result (λ outcome. outcome_value outcome
        ≡ answered d (asked_paced request) (refusal_of d (held_in d entries (seals entries)) (asked_paced request))) }
    ensures entered { IfOk result (λ _. admission.new.entries ≡ with_asked domain.now admission.old.entries (asked_paced request)) }
{
    match admission.admit_paced(SEAT, &request) {
        Ok(_) => Ok(PlacingOutcome::Placed(request)),
        Err(refused) => match refused {
            Refused::Memory => Err(AllocError),
            Refused::HistoryFull => unreachable!(),
            _ => Ok(PlacingOutcome::Unplaced(fault_of_refusal(domain, refused))),
        },
    }
}
