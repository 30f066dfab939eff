//! Gate indexes that two streams have.
ghost use Rattle.std.specs.Prelude.{◌≡◌, ◌+◌, ◌<◌, ◌^◌, slice_index_or, slice_set, true, false};
ghost use Rattle.cqf_addressing.specs.Streams.{first_gate_twice, gate_of};

use crate::StreamAddress;

/// Returns the gate index of the stream at an index, from 0.
fn gate_of(index: usize, address: &StreamAddress) -> usize
    requires { index + 1 < 2 ^ 64 }
    ensures value { result ≡ gate_of index address.now }
    ensures range { 65535 < result → result ≡ index + 1 }
{
    match address.gate {
        Some(gate) => usize::from(gate),
        None => index + 1,
    }
}

/// Returns whether the gate index was seen. One above any that a text can give was never seen.
fn is_seen(seen: &[bool; 65536], gate: usize) -> bool
    ensures { result ≡ slice_index_or seen.now gate false }
{
    match seen.get(gate) {
        Some(is_seen) => *is_seen,
        None => false,
    }
}

/// Records that the gate index was seen, if a text can give it.
fn note(seen: &mut [bool; 65536], gate: usize)
    ensures { seen.new ≡ slice_set seen.old gate true }
{
    if gate < 65536 {
        seen[gate] = true;
    }
}

/// Returns the first stream whose gate has the index of an earlier one: its position, from 1, and the gate index. The time grows only with
/// the number of streams.
pub(crate) fn first_gate_twice(addresses: &[StreamAddress]) -> Option<(usize, usize)>
    ensures { result ≡ first_gate_twice addresses.now }
{
    let mut seen = [false; 65536];
    for (index, address) in addresses.iter().enumerate() {
        let gate = gate_of(index, address);
        if is_seen(&seen, gate) {
            return Some((index + 1, gate));
        }
        note(&mut seen, gate);
    }
    None
}
