//! Ends of pipes, each with the number of its link.

/// An end of a pipe, with the number in the domain, from 0, of the link whose batches go through it.
#[derive(Drop)]
pub struct LinkEnd<P> {
    pub link: u16,
    pub pipe: P,
}
