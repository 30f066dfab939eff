//! Runs of entries that open a class.
ghost use Rattle.std.specs.Prelude.{◌≡◌, ◌+◌, ◌<◌, ◌≤◌, length, map, not};
ghost use Rattle.std.specs.Simd.Lanes.{chunk, mask_l};
ghost use Rattle.cqf_lanes.specs.Kernels.{has_bit, open_run_of};

use std::simd::prelude::*;

/// The number of gate states that are tested at a time.
const LANES: usize = 16;

/// Returns the number of gate states at the beginning of the list that open the class. The class is 0 to 7; its bit in a state is set if
/// its gate is open.
pub fn open_run(states: &[u8], class: u8) -> usize
    requires { class < 8 }
    ensures { result ≡ open_run_of class states.now }
{
    let mut done = 0;
    while states.len() - done >= LANES {
        let closed = closed_from(states, done, class);
        if closed != 0 {
            return done + closed.trailing_zeros() as usize;
        }
        done += LANES;
    }
    done + open_run_plain(&states[done..], class)
}

/// Does the same as [`open_run`], one gate state after the other.
pub fn open_run_plain(states: &[u8], class: u8) -> usize
    requires { class < 8 }
    ensures { result ≡ open_run_of class states.now }
{
    for (index, gates) in states.iter().enumerate() {
        if *gates & (1 << class) == 0 {
            return index;
        }
    }
    states.len()
}

/// Returns the mask of those of the sixteen gate states from `index` on that close the class. Bit 0 is the first of them.
fn closed_from(states: &[u8], index: usize, class: u8) -> u64
    requires inside { index + 16 ≤ length states.now }
    requires gate { class < 8 }
    ensures { result ≡ mask_l (map (λ gates. not (has_bit gates class)) (chunk index 16 states.now)) }
{
    let opened = u8x16::from_slice(&states[index..]) & u8x16::splat(1 << class);
    opened.simd_eq(u8x16::splat(0)).to_bitmask()
}
