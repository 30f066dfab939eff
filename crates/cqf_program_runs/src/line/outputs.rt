//! The output of `line`, before it is written.

use cqf_output::Buffer;
use cqf_program_scenario::ExactBook;
use cqf_topology::Domain;

/// The data of the output of `line`: the line's domain, its book that is ready to be written, and a buffer.
#[derive(Drop)]
pub struct LineOutput {
    pub(crate) domain: Domain,
    pub(crate) book: ExactBook,
    pub(crate) buffer: Buffer,
}
