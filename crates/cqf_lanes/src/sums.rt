//! Sums of octets and of costs.
ghost use Rattle.std.specs.Prelude.{◌≡◌, ◌+◌, ◌-◌, ◌*◌, ◌^◌, ◌<◌, ◌≤◌, ℕ, length, map, sum, if◌then◌else◌};
ghost use Rattle.std.specs.List.{zip};
ghost use Rattle.std.specs.Simd.Lanes.{chunk, sum_l};
ghost use Rattle.cqf_lanes.specs.Kernels.{has_bit, masked_total};

use std::simd::prelude::*;

/// The number of lanes that are added at a time.
const LANES: usize = 8;

/// Returns the sum of the octets of at most 4,294,967,295 frames.
pub fn octet_sum(octets: &[u32]) -> u64
    requires { length octets.now < 2 ^ 32 }
    ensures { result ≡ sum octets.now }
{
    let mut lanes = u64x8::splat(0);
    let mut done = 0;
    while octets.len() - done >= LANES {
        lanes = lanes.strict_add(eight_from(octets, done));
        done += LANES;
    }
    lanes.strict_reduce_sum() + octet_sum_plain(&octets[done..])
}

/// Does the same as [`octet_sum`], one frame after the other.
pub fn octet_sum_plain(octets: &[u32]) -> u64
    requires { length octets.now < 2 ^ 32 }
    ensures { result ≡ sum octets.now }
{
    let mut total: u64 = 0;
    for frame in octets {
        total += u64::from(*frame);
    }
    total
}

/// Returns the sum of those costs whose mask, at the same index, has this bit set. Bits count from 0, the lowest, to
/// 63. The two lists have the same length, at most 4,294,967,295.
pub fn masked_sum(costs: &[u32], masks: &[u64], bit: u32) -> u64
    requires side_by_side { length costs.now ≡ length masks.now }
    requires few { length costs.now < 2 ^ 32 }
    requires low { bit < 64 }
    ensures { result ≡ masked_total bit costs.now masks.now }
{
    let mut lanes = u64x8::splat(0);
    let mut done = 0;
    while costs.len() - done >= LANES {
        lanes = lanes.strict_add(eight_masked(costs, masks, bit, done));
        done += LANES;
    }
    lanes.strict_reduce_sum() + masked_sum_plain(&costs[done..], &masks[done..], bit)
}

/// Does the same as [`masked_sum`], one index after the other.
pub fn masked_sum_plain(costs: &[u32], masks: &[u64], bit: u32) -> u64
    requires side_by_side { length costs.now ≡ length masks.now }
    requires few { length costs.now < 2 ^ 32 }
    requires low { bit < 64 }
    ensures { result ≡ masked_total bit costs.now masks.now }
{
    let mut total: u64 = 0;
    for index in 0..costs.len() {
        if masks[index] & (1 << bit) != 0 {
            total += u64::from(costs[index]);
        }
    }
    total
}

/// Returns the eight values from index `index` on, each in a lane of 64 bits.
fn eight_from(values: &[u32], index: usize) -> u64x8
    requires { index + 8 ≤ length values.now }
    ensures lanes { result ≡ chunk index 8 values.now }
    ensures small { sum_l result ≤ 8 * (2 ^ 32 - 1) }
{
    u32x8::from_slice(&values[index..]).cast::<u64>()
}

/// Returns the eight costs from index `index` on, each in a lane of 64 bits, with 0 for each whose mask doesn't have
/// the bit.
fn eight_masked(costs: &[u32], masks: &[u64], bit: u32, index: usize) -> u64x8
    requires inside { index + 8 ≤ length costs.now }
    requires side_by_side { length costs.now ≡ length masks.now }
    requires low { bit < 64 }
    ensures lanes { result ≡ map (λ (x : ℕ × ℕ). if has_bit x.1 bit then x.0 else 0) (zip (chunk index 8 costs.now) (chunk index 8 masks.now)) }
    ensures small { sum_l result ≤ 8 * (2 ^ 32 - 1) }
{
    let marked = u64x8::from_slice(&masks[index..]) & u64x8::splat(1 << bit);
    let unmarked = marked.simd_eq(u64x8::splat(0));
    unmarked.select(u64x8::splat(0), eight_from(costs, index))
}
