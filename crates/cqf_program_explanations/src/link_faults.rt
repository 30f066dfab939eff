//! Links that `plan --without` names and the network doesn't have.

use crate::given::CommandInput;
use crate::network::Network;
use crate::planning::is_duplex;
use crate::reported::ReportedLines;
use std::alloc::{AllocError, Global};

/// How many links a line names.
const MOST_NAMED: usize = 8;

/// Returns the nodes to which links lead from a node, in the order of the links.
fn ends_from<'p>(
    alloc: Global,
    network: &Network<'p>,
    from: &str,
) -> Result<Vec<&'p str>, AllocError> {
    let mut ends = Vec::new(alloc);
    for link in &network.links {
        if link.from == from {
            ends.push(link.to)?;
        } else if link.to == from && is_duplex(link) {
            ends.push(link.from)?;
        }
    }
    Ok(ends)
}

/// Returns the links from a node to others, with commas between.
fn links_text(alloc: Global, from: &str, ends: &[&str]) -> Result<String, AllocError> {
    let mut text = String::new(alloc);
    for end in ends.iter().take(MOST_NAMED) {
        let between = if text.is_empty() { "" } else { ", " };
        let more = format!(in alloc; "{between}{from}>{end}")?;
        text.push_str(more.as_str())?;
    }
    if ends.len() > MOST_NAMED {
        text.push_str(", ..")?;
    }
    Ok(text)
}

/// Returns the words about a name that no node has; `None` if a node has it.
fn no_node_words(
    alloc: Global,
    network: &Network<'_>,
    name: &str,
) -> Result<Option<String>, AllocError> {
    if network.is_node(name) {
        return Ok(None);
    }
    let question = network.node_question(alloc, name)?;
    let words = format!(in alloc; "no bridge or station {name}{question}")?;
    Ok(Some(words))
}

/// Returns the words about a link between two names that the network doesn't have.
fn no_link_words(
    alloc: Global,
    network: &Network<'_>,
    from: &str,
    to: &str,
) -> Result<String, AllocError> {
    if let Some(words) = no_node_words(alloc, network, from)? {
        return Ok(words);
    }
    if let Some(words) = no_node_words(alloc, network, to)? {
        return Ok(words);
    }
    let ends = ends_from(alloc, network, from)?;
    if ends.is_empty() {
        return format!(in alloc; "no link leads from {from}");
    }
    let links = links_text(alloc, from, ends.as_slice())?;
    format!(in alloc; "no link leads from {from} to {to}; the links from {from} are {links}")
}

/// Reports a link that the network doesn't have, with those that lead from its first node.
pub(crate) fn report_no_link(
    given: &CommandInput<'_>,
    reported: &mut ReportedLines,
    link: &str,
) -> Result<(), AllocError> {
    let Some((from, to)) = link.split_once('>') else {
        return Ok(());
    };
    let network = given.network()?;
    let words = no_link_words(given.alloc, &network, from, to)?;
    reported.report(words)
}
