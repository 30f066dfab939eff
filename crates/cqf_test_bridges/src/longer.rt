//! A thousand cycles of the line's bridges. In each cycle a frame is offered that its stream covers. The frame goes one link further in
//! each later cycle, and nothing is dropped.
use crate::runs::{Start, Traffic, Written, bridges_of, go_through};
use crate::tables::{ONE_BRANCH, admit, plan_of};
use cqf_admission::{Admission, Table};
use cqf_bridge::Bridge;
use cqf_compile::Plan;
use cqf_test_fixtures::{line, offers_of};
use cqf_units::Memory;
use std::alloc::Global;

/// Returns the expected starts in a cycle. Each link that frames have reached starts the frame that was offered as many cycles before as
/// the link's hop number. The frame's number is 1, since it is the only offer of its list.
fn reported_in(alloc: Global, cycle: u32) -> Result<Vec<Start>, Memory> {
    let mut reported = Vec::new(alloc);
    for link in 0..3u16 {
        if cycle > u32::from(link) {
            reported.push((cycle, link, 1, 64, u64::from(cycle) * 125_000))?;
        }
    }
    Ok(reported)
}

/// Returns whether the bridges go through the cycle of a table with these starts and no drops.
fn go_on(alloc: Global, bridges: &mut Vec<Bridge>, table: &Table) -> bool {
    let cycle = table.cycle().0;
    let Ok(reported) = reported_in(alloc, cycle) else {
        return false;
    };
    let Ok(offers) = offers_of(alloc, &[(u64::from(cycle) * 125_000, 0, "x", 64)]) else {
        return false;
    };
    let traffic = Traffic {
        offers: offers.as_slice(),
        background: None,
    };
    let mut written = Written::new(alloc);
    go_through(
        alloc,
        bridges,
        table,
        &traffic,
        reported.as_slice(),
        &mut written,
    ) && written.starts.as_slice() == reported.as_slice()
        && written.others.is_empty()
        && written.drops.is_empty()
}

/// Returns whether they go through a thousand cycles, which an admission closes one by one.
fn go_on_and_on(alloc: Global, bridges: &mut Vec<Bridge>, asked: &mut Admission) -> bool {
    for _cycle in 0..1000 {
        match asked.seal(0) {
            Ok(table) => {
                if !go_on(alloc, bridges, &table) {
                    return false;
                }
            }
            Err(_) => return false,
        }
    }
    true
}

/// Returns whether they do with a plan in which the stream is held.
fn go_on_over(alloc: Global, plan: &Plan) -> bool {
    let Ok(mut bridges) = bridges_of(alloc, plan) else {
        return false;
    };
    match Admission::new(alloc, plan.domain()) {
        Ok(mut asked) => {
            admit(alloc, &mut asked, 64, ONE_BRANCH)
                && go_on_and_on(alloc, &mut bridges, &mut asked)
        }
        Err(_) => false,
    }
}

/// Returns whether they do with the line.
fn go_on_over_line(alloc: Global) -> bool {
    match plan_of(alloc, line()) {
        Some(plan) => go_on_over(alloc, &plan),
        None => false,
    }
}

#[test]
fn a_thousand_frames_pass_and_none_is_dropped(rt: HostRuntime) {
    assert!(rt; go_on_over_line(rt.alloc()));
}
