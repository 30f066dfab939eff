//! Comparisons of a book's starts and drops with what is expected.

use cqf_model::{Dropped, Reason, Started};

/// A start: its cycle, its link, its frame, its octets and its instant.
pub type Begun = (u32, u16, u32, u32, u64);

/// A drop: its cycle, its bridge, its frame, its octets and its reason.
pub type Fell = (u32, u16, u32, u32, Reason);

/// Returns whether starts have these values.
pub fn are_begun(starts: &[Started], rows: &[Begun]) -> bool {
    starts.len() == rows.len()
        && starts.iter().zip(rows).all(|(start, row)| {
            (
                start.cycle.0,
                start.link,
                start.frame,
                start.octets,
                start.start.0,
            ) == *row
        })
}

/// Returns whether drops have these values.
pub fn are_dropped(drops: &[Dropped], rows: &[Fell]) -> bool {
    drops.len() == rows.len()
        && drops.iter().zip(rows).all(|(drop, row)| {
            (
                drop.cycle.0,
                drop.bridge,
                drop.frame,
                drop.octets,
                drop.reason,
            ) == *row
        })
}
