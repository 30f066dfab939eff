//! Properties that no contract states: each kernel agrees with its plain form at every length of a tail, and on rows of concrete values.
use cqf_lanes::{
    eligible, eligible_plain, highest, highest_plain, masked_sum, masked_sum_plain, octet_sum,
    octet_sum_plain, open_run, open_run_plain,
};
use std::alloc::Global;

/// The longest list that is tried.
const LONGEST: usize = 70;

/// The first and last bits of the two halves of a mask.
const BITS: &[u32] = &[0, 31, 32, 63];

/// Appends costs and masks that are spread over their ranges, and gate states that are open except for class 3 at index 70.
fn spread(costs: &mut Vec<u32>, masks: &mut Vec<u64>, states: &mut Vec<u8>) -> bool {
    let mut number: u64 = 1;
    for index in 0..2 * LONGEST + 1 {
        number = number
            .wrapping_mul(6_364_136_223_846_793_005)
            .wrapping_add(1);
        let state = if index == LONGEST { 0xF7 } else { 0xFF };
        if costs.push((number >> 32) as u32).is_err()
            || masks.push(number ^ (number >> 31)).is_err()
            || states.push(state).is_err()
        {
            return false;
        }
    }
    true
}

/// Returns whether the sums are those of their plain forms.
fn sums_agree(costs: &[u32], masks: &[u64]) -> bool {
    if costs.len() != masks.len() || costs.len() > LONGEST {
        return false;
    }
    for bit in BITS {
        if *bit > 63 || masked_sum(costs, masks, *bit) != masked_sum_plain(costs, masks, *bit) {
            return false;
        }
    }
    octet_sum(costs) == octet_sum_plain(costs)
}

/// Returns whether the run among `many` states, with the state at index `closed` closed, is that of its plain form.
fn runs_agree(states: &[u8], many: usize, closed: usize) -> bool {
    let from = LONGEST.saturating_sub(closed);
    match states.get(from..from.saturating_add(many)) {
        Some(some) => open_run(some, 3) == open_run_plain(some, 3),
        None => false,
    }
}

/// Returns whether each kernel agrees with its plain form on the first `many` of these.
fn tail_agrees(costs: &[u32], masks: &[u64], states: &[u8], many: usize) -> bool {
    for closed in 0..=many {
        if !runs_agree(states, many, closed) {
            return false;
        }
    }
    match (costs.get(..many), masks.get(..many)) {
        (Some(costs), Some(masks)) => sums_agree(costs, masks),
        _ => false,
    }
}

/// Returns the first length at which a kernel doesn't agree with its plain form, if there is one. Returns the longest length plus one if
/// memory is refused.
fn first_wrong_tail(alloc: Global) -> Option<usize> {
    let mut costs = Vec::new(alloc);
    let mut masks = Vec::new(alloc);
    let mut states = Vec::new(alloc);
    if !spread(&mut costs, &mut masks, &mut states) {
        return Some(LONGEST + 1);
    }
    for many in 0..=LONGEST {
        if !tail_agrees(&costs, &masks, &states, many) {
            return Some(many);
        }
    }
    None
}

#[test]
fn every_tail(rt: HostRuntime) {
    assert!(rt; first_wrong_tail(rt.alloc()) == None);
}

/// The need of each class, and the numbers tried as what is left.
const NEED: [u32; 8] = [1, 2, 3, 4, 5, 6, 7, u32::MAX];

const LEFT: &[u32] = &[0, 3, 4, 7, u32::MAX];

/// Returns whether the classes of these gates are chosen as by the plain forms.
fn choices_agree(gates: u8) -> bool {
    for most in LEFT {
        let left = [*most; 8];
        if eligible(gates, &NEED, &left) != eligible_plain(gates, &NEED, &left) {
            return false;
        }
    }
    highest(gates) == highest_plain(gates)
}

#[test]
fn each_choice(rt: HostRuntime) {
    for gates in 0..=255u8 {
        assert!(rt; choices_agree(gates));
    }
}

/// 17 frames of 1,522 octets.
const SEVENTEEN: [u32; 17] = [1522; 17];

/// Costs, and their masks: 1 + 3 + .. + 9 have bit 0, and 2 + .. + 8 bit 1.
const COSTS: [u32; 9] = [1, 2, 3, 4, 5, 6, 7, 8, 9];

const MASKS: [u64; 9] = [1, 2, 1, 2, 1, 2, 1, 2, 1];

#[test]
fn octets_and_costs_are_summed(rt: HostRuntime) {
    assert!(rt; octet_sum(&[]) == 0);
    assert!(rt; octet_sum(&SEVENTEEN) == 25_874);
    assert!(rt; masked_sum(&COSTS, &MASKS, 0) == 25);
    assert!(rt; masked_sum(&COSTS, &MASKS, 1) == 20);
}

/// Gate states, and how many of them, from the first on, open class 7.
const RUNS: &[(&[u8], usize)] = &[
    (&[0x80, 0xC0, 0x40], 2),
    (
        &[
            0x80, 0x40, 0x80, 0x40, 0x80, 0x80, 0x80, 0x80, 0x80, 0x80, 0x80, 0x80, 0x80, 0x80,
            0x80, 0x80,
        ],
        1,
    ),
];

#[test]
fn a_run_ends_where_the_class_is_closed(rt: HostRuntime) {
    for (states, many) in RUNS {
        assert!(rt; open_run(states, 7) == *many);
    }
}

/// The need of each class, and what is left to it: one nanosecond too little for class 7, and enough.
const NEEDED: [u32; 8] = [0, 0, 0, 0, 0, 0, 576, 12_240];

const ONE_SHORT: [u32; 8] = [0, 0, 0, 0, 0, 0, 1000, 12_239];

const ENOUGH: [u32; 8] = [0, 0, 0, 0, 0, 0, 1000, 12_240];

#[test]
fn the_highest_class_goes_that_needs_just_what_is_left(rt: HostRuntime) {
    assert!(rt; eligible(0xC0, &NEEDED, &ONE_SHORT) == 0x40);
    assert!(rt; eligible(0xC0, &NEEDED, &ENOUGH) == 0xC0);
    assert!(rt; highest(0xC0) == Some(7));
    assert!(rt; highest(0) == None);
}
