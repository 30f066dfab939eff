//! Streams that are requested.

use cqf_topology::Request;
use cqf_units::Memory;
use std::alloc::Global;

/// A stream: its name, its octets a cycle, and its branches.
pub type Asked = (&'static str, u32, &'static [&'static [&'static str]]);

/// Returns the names of nodes as texts.
fn names(alloc: Global, nodes: &[&str]) -> Result<Vec<String>, Memory> {
    let mut list = Vec::new(alloc);
    for node in nodes {
        list.push(String::from_str(alloc, node)?)?;
    }
    Ok(list)
}

/// Returns a request for a stream, or `Memory` if an allocation fails.
pub fn request(alloc: Global, asked: &Asked) -> Result<Request, Memory> {
    let (name, octets, branches) = *asked;
    let mut paths = Vec::new(alloc);
    for nodes in branches {
        paths.push(names(alloc, nodes)?)?;
    }
    Ok(Request {
        name: String::from_str(alloc, name)?,
        octets,
        paths,
    })
}

/// Returns whether a path has these nodes.
fn is_along(path: &[String], nodes: &[&str]) -> bool {
    path.len() == nodes.len()
        && path
            .iter()
            .zip(nodes)
            .all(|(node, name)| node.as_str() == *name)
}

/// Returns whether a request is for a stream with these values.
pub fn is_request(request: &Request, asked: &Asked) -> bool {
    let (name, octets, branches) = *asked;
    request.name.as_str() == name
        && request.octets == octets
        && request.paths.len() == branches.len()
        && request
            .paths
            .iter()
            .zip(branches)
            .all(|(path, nodes)| is_along(path.as_slice(), nodes))
}
