//! Admissions that have admitted some streams.
ghost use Rattle.std.specs.Prelude.{◌≡◌, IfSome};
ghost use Rattle.cqf_model.specs.History.{seals};

use crate::asked::{Asked, request};
use cqf_admission::Admission;
use cqf_topology::Domain;
use std::alloc::Global;

/// Returns whether a stream is admitted for seat 0.
fn admits(alloc: Global, admission: &mut Admission, asked: &Asked) -> bool
    ensures { admission.new.domain ≡ admission.old.domain }
{
    match request(alloc, asked) {
        Ok(wanted) => admission.admit(0, &wanted).is_ok(),
        Err(_) => false,
    }
}

/// Returns whether all streams are admitted for seat 0.
fn admits_all(alloc: Global, admission: &mut Admission, streams: &[Asked]) -> bool
    ensures { admission.new.domain ≡ admission.old.domain }
{
    for asked in streams {
        if !admits(alloc, admission, asked) {
            return false;
        }
    }
    true
}

/// Returns an admission for a domain that has admitted the streams for seat 0 and closed no cycle, or `None` if a stream isn't admitted.
pub fn admission_of(alloc: Global, domain: &Domain, streams: &[Asked]) -> Option<Admission>
    ensures domain { IfSome result (λ admission. admission.domain ≡ domain.now) }
    ensures unsealed { IfSome result (λ admission. seals admission.entries ≡ 0) }
{
    let Ok(mut admission) = Admission::new(alloc, domain) else {
        return None;
    };
    if admits_all(alloc, &mut admission, streams) && admission.next_cycle().0 == 0 {
        Some(admission)
    } else {
        None
    }
}
