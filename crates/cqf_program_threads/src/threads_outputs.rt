//! The output of `run --threads`, before it is written.

use crate::PagedBook;
use cqf_desk::History;
use cqf_output::Buffer;

/// The data of the output of `run --threads`: the history of a run, its book by the traces that the bridges kept, and a
/// buffer.
#[derive(Drop)]
pub struct ThreadsOutput {
    pub(crate) history: History,
    pub(crate) book: PagedBook,
    pub(crate) buffer: Buffer,
}
