//! New worlds.
use cqf_admission::Admission;
use cqf_compile::{Plan, compile};
use cqf_model::{Background, Offer};
use cqf_test_fixtures::{are_background, are_offers};
use cqf_topology::Domain;
use cqf_world::World;
use std::alloc::Global;

/// Returns the plan of a domain's text.
pub(crate) fn plan_of(alloc: Global, text: &str) -> Option<Plan> {
    let Ok(domain) = Domain::read(alloc, text.as_bytes()) else {
        return None;
    };
    match compile(alloc, &domain) {
        Ok(plan) => Some(plan),
        Err(_) => None,
    }
}

/// Returns a world of the plan without any call, if it may be made.
pub(crate) fn begin<'a>(
    alloc: Global,
    plan: &Plan,
    offers: &'a [Offer],
    background: &'a [Background],
    cycles: u32,
) -> Option<World<'a>> {
    let few = cycles <= 100_000 && offers.len() <= 1_000_000 && background.len() <= 1_000_000;
    if !few || !are_offers(plan.domain(), offers) || !are_background(plan.domain(), background) {
        return None;
    }
    let Ok(admission) = Admission::new(alloc, plan.domain()) else {
        return None;
    };
    match World::new(alloc, plan, admission, offers, background, cycles) {
        Ok(world) => Some(world),
        Err(_) => None,
    }
}
