//! The cost of admission: rounds of 1,000 admissions, 1,000 withdrawals and 5 Seals over a ring of 32 bridges, each
//! with its own station, and so 64 links. `bench/admit` runs it and reports time and memory.
//!
//! The word after the program's name is the number of rounds, 1 to 50, by default 2. A withdrawn stream of three
//! bridges is held for three more cycles, so no stream is held when the next round begins, and each of its calls is
//! accepted.
#![tactic(auto)]

use cqf_admission::Admission;
use cqf_topology::{Domain, Request};
use std::alloc::{AllocError, Global};
use std::env::Env;
use std::io;

/// The streams of a round.
const STREAMS: u32 = 1_000;

/// Appends the names of the 32 nodes of a kind, with quotes and commas.
fn push_names(alloc: Global, text: &mut String, kind: &str) -> Result<(), AllocError> {
    for number in 0..32u32 {
        let name = format!(in alloc; "\"{kind}{number}\", ")?;
        text.push_str(name.as_str())?;
    }
    Ok(())
}

/// Appends the links of the 32 bridges.
fn push_links(alloc: Global, text: &mut String) -> Result<(), AllocError> {
    for bridge in 0..32u32 {
        let links = links_of(alloc, bridge)?;
        text.push_str(links.as_str())?;
    }
    Ok(())
}

/// Appends the ring of 32 bridges and 32 stations.
fn push_domain(alloc: Global, text: &mut String) -> Result<(), AllocError> {
    text.push_str("cycle = 10000000\nguard = 10000\nbridges = [")?;
    push_names(alloc, text, "b")?;
    text.push_str("]\nstations = [")?;
    push_names(alloc, text, "s")?;
    text.push_str("]\n")?;
    push_links(alloc, text)
}

/// Returns the links of a bridge: to the next bridge and to its station.
fn links_of(alloc: Global, bridge: u32) -> Result<String, AllocError> {
    let next = (bridge % 32 + 1) % 32;
    format!(in alloc;
        "[[links]]\nfrom = \"b{bridge}\"\nto = \"b{next}\"\nrate = 1000\ndelay = 500\n[[links]]\nfrom = \"b{bridge}\"\nto = \"s{bridge}\"\nrate = 1000\ndelay = 500\n"
    )
}

/// Returns the name of a stream.
fn name_of(alloc: Global, stream: u32) -> Result<String, AllocError> {
    format!(in alloc; "stream-{stream}")
}

/// Appends the name of a node of a kind.
fn push_node(
    alloc: Global,
    path: &mut Vec<String>,
    kind: &str,
    number: u32,
) -> Result<(), AllocError> {
    let name = format!(in alloc; "{kind}{number}")?;
    path.push(name)?;
    Ok(())
}

/// Appends the path of a stream: three bridges of the ring, and the station of the last.
fn push_path(alloc: Global, path: &mut Vec<String>, stream: u32) -> Result<(), AllocError> {
    let first = stream % 32;
    push_node(alloc, path, "b", first)?;
    push_node(alloc, path, "b", (first + 1) % 32)?;
    let last = (first + 2) % 32;
    push_node(alloc, path, "b", last)?;
    push_node(alloc, path, "s", last)
}

/// Returns the only path of a stream.
fn paths_of(alloc: Global, stream: u32) -> Result<Vec<Vec<String>>, AllocError> {
    let mut path = Vec::new(alloc);
    push_path(alloc, &mut path, stream)?;
    let mut paths = Vec::new(alloc);
    paths.push(path)?;
    Ok(paths)
}

/// Returns a request for a stream.
fn request_of(alloc: Global, stream: u32) -> Result<Request, AllocError> {
    let name = name_of(alloc, stream)?;
    let paths = paths_of(alloc, stream)?;
    Ok(Request {
        name,
        octets: 64,
        paths,
    })
}

/// Admits the streams of a round, and returns how many were accepted.
fn admit_all(alloc: Global, admission: &mut Admission) -> Result<u32, AllocError> {
    let mut accepted = 0u32;
    for stream in 0..STREAMS {
        let request = request_of(alloc, stream)?;
        if admission.admit(0, &request).is_ok() {
            accepted = accepted.saturating_add(1);
        }
    }
    Ok(accepted)
}

/// Withdraws the streams of a round, and returns how many were accepted.
fn withdraw_all(alloc: Global, admission: &mut Admission) -> Result<u32, AllocError> {
    let mut accepted = 0u32;
    for stream in 0..STREAMS {
        let name = name_of(alloc, stream)?;
        if admission.withdraw(0, name.as_str()).is_ok() {
            accepted = accepted.saturating_add(1);
        }
    }
    Ok(accepted)
}

/// Closes five cycles.
fn seal_five(admission: &mut Admission) {
    for _cycle in 0..5 {
        let _sealed = admission.seal(1);
    }
}

/// Returns the number of rounds that a word requests.
fn rounds_of(word: Option<String>) -> u32 {
    match word {
        Some(word) => word.as_str().parse().unwrap_or(2u32).clamp(1, 50),
        None => 2,
    }
}

/// Returns the number of rounds that the process's words request.
fn rounds<R: Env + AllocGlobal>(rt: &R) -> io::Result<u32> {
    let mut words = std::env::args(rt)?;
    let _program = words.next();
    let word = words.next();
    Ok(rounds_of(word))
}

/// Makes the calls of `rounds` rounds, and returns how many were accepted.
fn run_rounds(alloc: Global, admission: &mut Admission, rounds: u32) -> Result<u32, AllocError> {
    let mut accepted = 0u32;
    for _round in 0..rounds {
        let admitted = admit_all(alloc, admission)?;
        let withdrawn = withdraw_all(alloc, admission)?;
        accepted = accepted.saturating_add(admitted).saturating_add(withdrawn);
        seal_five(admission);
    }
    Ok(accepted)
}

/// Returns how many calls of `rounds` rounds over the domain are accepted.
fn count_accepted(alloc: Global, domain: &Domain, rounds: u32) -> Result<u32, AllocError> {
    let mut admission = Admission::new(alloc, domain)?;
    let accepted = run_rounds(alloc, &mut admission, rounds);
    drop(admission);
    accepted
}

/// Returns the same over the domain of a text; `None` if the domain is refused.
fn count_over(alloc: Global, text: &str, rounds: u32) -> Result<Option<u32>, AllocError> {
    let Ok(domain) = Domain::read(alloc, text.as_bytes()) else {
        return Ok(None);
    };
    let accepted = count_accepted(alloc, &domain, rounds);
    drop(domain);
    Ok(Some(accepted?))
}

/// Returns the same over the ring.
fn count_over_ring(alloc: Global, rounds: u32) -> Result<Option<u32>, AllocError> {
    let mut text = String::new(alloc);
    push_domain(alloc, &mut text)?;
    count_over(alloc, text.as_str(), rounds)
}

fn main(rt: HostRuntime) -> io::Result<()> {
    let rounds = rounds(&rt)?;
    match count_over_ring(rt.alloc(), rounds)? {
        Some(accepted) => {
            let calls = rounds.saturating_mul(2_000);
            println!(rt; "{calls} calls, {accepted} accepted")
        }
        None => rt.println("the domain is refused"),
    }
}
