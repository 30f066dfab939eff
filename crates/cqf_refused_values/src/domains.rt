//! Reading of domains and streams.
use crate::{Reported, X, trial};
use cqf_test_fixtures::{Asked, line};
use cqf_topology::{Domain, DomainFault, Link, Node, Request, StreamsFault, read_streams};
use cqf_units::Rate;
use std::alloc::Global;

/// Returns a link of the line to a node.
fn link_to(from: u16, to: Node) -> Link {
    Link {
        from,
        to,
        rate: Rate::Mb1000,
        delay: 500,
        least: 500,
        guard: None,
    }
}

/// Whether a domain has the nodes of the line.
fn has_nodes(domain: &Domain) -> bool {
    domain.bridges() == 3
        && domain.stations() == 1
        && domain.find("a") == Some(Node::Bridge(0))
        && domain.find("b") == Some(Node::Bridge(1))
        && domain.find("c") == Some(Node::Bridge(2))
        && domain.find("s") == Some(Node::Station(0))
        && domain.find("q") == None
}

/// Whether a domain has the links of the line.
fn has_links(domain: &Domain) -> bool {
    domain.links() == 3
        && domain.link(0) == link_to(0, Node::Bridge(1))
        && domain.link(1) == link_to(1, Node::Bridge(2))
        && domain.link(2) == link_to(2, Node::Station(0))
}

/// Whether a domain is the line.
pub(crate) fn is_line(domain: &Domain) -> bool {
    domain.cycle_time().0 == 125_000
        && domain.guard().0 == 5_000
        && has_nodes(domain)
        && has_links(domain)
}

/// Whether the line was read.
fn is_read(read: &Result<Domain, DomainFault>) -> bool {
    match read {
        Ok(domain) => is_line(domain),
        Err(_) => false,
    }
}

pub(crate) fn read_reported(alloc: Global) -> Option<Reported> {
    let text = line().as_bytes();
    Some(trial!(
        alloc,
        Domain::read(alloc, text),
        Err(DomainFault::Memory),
        true,
        |answer| is_read(&answer)
    ))
}

/// The line with its first link a second time, at the end.
const TWICE: &str = "cycle = 125000\nguard = 5000\nbridges = [\"a\", \"b\"]\nstations = [\"s\"]\n\
    \n[[links]]\nfrom = \"a\"\nto = \"b\"\nrate = 1000\ndelay = 500\n\
    \n[[links]]\nfrom = \"b\"\nto = \"s\"\nrate = 1000\ndelay = 500\n\
    \n[[links]]\nfrom = \"a\"\nto = \"b\"\nrate = 10\ndelay = 9\n";

/// Whether a reader reported the link that occurs twice.
fn is_reported(read: &Result<Domain, DomainFault>) -> bool {
    matches!(read, Err(DomainFault::LinkTwice(2)))
}

pub(crate) fn twice_reported(alloc: Global) -> Option<Reported> {
    let text = TWICE.as_bytes();
    Some(trial!(
        alloc,
        Domain::read(alloc, text),
        Err(DomainFault::Memory),
        true,
        |answer| is_reported(&answer)
    ))
}

/// Whether a branch has these nodes.
fn is_path(path: &[String], nodes: &[&str]) -> bool {
    path.len() == nodes.len()
        && path
            .iter()
            .zip(nodes)
            .all(|(name, node)| name.as_str() == *node)
}

/// Whether a request is for the stream.
pub(crate) fn is_request(wanted: &Request, asked: &Asked) -> bool {
    let (name, octets, paths) = *asked;
    wanted.name.as_str() == name
        && wanted.octets == octets
        && wanted.paths.len() == paths.len()
        && wanted
            .paths
            .iter()
            .zip(paths)
            .all(|(path, nodes)| is_path(path.as_slice(), nodes))
}

/// Whether this one stream was read.
fn is_stream(read: &Result<Vec<Request>, StreamsFault>, asked: &Asked) -> bool {
    match read {
        Ok(requests) => match requests.as_slice() {
            [wanted] => is_request(wanted, asked),
            _ => false,
        },
        Err(_) => false,
    }
}

/// Tries to read the text of a stream.
fn streams_read(alloc: Global, text: &[u8], asked: &Asked) -> Reported {
    trial!(
        alloc,
        read_streams(alloc, text),
        Err(StreamsFault::Memory),
        true,
        |answer| is_stream(&answer, asked)
    )
}

pub(crate) fn streams_reported(alloc: Global) -> Option<Reported> {
    let text = "[[streams]]\nname = \"x\"\noctets = 1500\npath = [\"a\", \"b\", \"c\", \"s\"]\n";
    Some(streams_read(alloc, text.as_bytes(), &X))
}

/// A stream with two branches.
const FORKED: Asked = ("x", 1500, &[&["a", "b", "c", "s"], &["a", "b", "t"]]);

pub(crate) fn branches_reported(alloc: Global) -> Option<Reported> {
    let text =
        "[[streams]]\nname = \"x\"\noctets = 1500\npaths = [[\"a\", \"b\", \"c\", \"s\"], [\"a\", \"b\", \"t\"]]\n";
    Some(streams_read(alloc, text.as_bytes(), &FORKED))
}
