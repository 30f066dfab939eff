//! Marks that are visible to the allocator.
use std::alloc::Global;

/// The number of octets that a mark allocates; nothing else allocates this number.
const OCTETS: usize = 7_777_777;

/// Allocates memory of an unusual size, and frees it. A program that intercepts allocations sees it, without a race and
/// without a write.
pub fn mark(alloc: Global) {
    if let Ok(mut room) = Vec::with_capacity(alloc, OCTETS) {
        fill(&mut room);
    }
}

/// Writes an octet, so that the memory is used.
fn fill(room: &mut Vec<u8>) {
    let _filled = room.push(1);
}
