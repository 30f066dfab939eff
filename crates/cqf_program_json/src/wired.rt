//! The domain and the addressing of an object.

use cqf_addressing::{LinkInterfaces, StreamAddress};
use cqf_topology::Domain;

/// A domain, the addresses by which its streams are identified, by number, and the interfaces of its links, by number.
#[derive(Clone, Copy)]
pub(crate) struct Wired<'p> {
    pub domain: &'p Domain,
    pub addresses: &'p [StreamAddress],
    pub links: &'p [LinkInterfaces],
}
