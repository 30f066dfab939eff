//! The result of closing a desk.

use cqf_admission::Entry;

/// The history of a closed desk.
#[derive(Debug, Drop)]
pub struct History {
    /// The number of entries when the desk was made.
    pub opening: usize,
    /// All entries, those of the opening part first.
    pub entries: Vec<Entry>,
}
