//! Which classes are eligible, and which of them is the highest.
ghost use Rattle.std.specs.Prelude.{◌≡◌, ◌<◌, MatchOption};
ghost use Rattle.cqf_lanes.specs.Kernels.{AreEligible, IsHighest};

use std::simd::prelude::*;

/// Returns the mask of the classes whose bit is set in `gates` and that need at most what is left to them. `need` and
/// `left` are in the same unit, by class. Bit 0 is class 0, and the highest bit is class 7.
pub fn eligible(gates: u8, need: &[u32; 8], left: &[u32; 8]) -> u8
    ensures { AreEligible gates need.now left.now result }
{
    let in_time = u32x8::from_array(*need).simd_le(u32x8::from_array(*left));
    gates & in_time.to_bitmask() as u8
}

/// Does the same as [`eligible`], one class after the other.
pub fn eligible_plain(gates: u8, need: &[u32; 8], left: &[u32; 8]) -> u8
    ensures { AreEligible gates need.now left.now result }
{
    let mut classes = gates;
    for class in 0..8 {
        if need[class] > left[class] {
            classes &= !(1 << class);
        }
    }
    classes
}

/// Returns the number of the highest bit that is set, 0 to 7, or `None` if the mask is 0. With a mask of classes, this
/// is the class that strict priority selects (IEEE 802.1Q, 8.6.8.1).
pub fn highest(mask: u8) -> Option<u8>
    ensures { MatchOption result (mask ≡ 0) (IsHighest mask) }
{
    if mask == 0 {
        return None;
    }
    Some(7 - mask.leading_zeros() as u8)
}

/// Does the same as [`highest`], one bit after the other.
pub fn highest_plain(mask: u8) -> Option<u8>
    ensures { MatchOption result (mask ≡ 0) (IsHighest mask) }
{
    for above in 0..8 {
        let bit = 7 - above;
        if mask & (1 << bit) != 0 {
            return Some(bit);
        }
    }
    None
}
