//! The network of a plan: its nodes and links by name.

use crate::words::question;
use crate::written::{FoundKey, KeyOwner, WrittenItem, WrittenNetwork};
use cqf_topology::LinkTimes;
use std::alloc::{AllocError, Global};
use std::collections::BTreeMap;

/// A link as it is written; ends that are missing are empty.
#[derive(Clone, Copy)]
pub(crate) struct WrittenLink<'p> {
    pub item: WrittenItem<'p>,
    pub from: &'p str,
    pub to: &'p str,
    /// What else it says, if that is accepted.
    pub times: Option<LinkTimes>,
}

/// The nodes and links of a plan.
#[derive(Drop)]
pub(crate) struct Network<'p> {
    pub bridges: Vec<&'p str>,
    pub nodes: Vec<&'p str>,
    pub links: Vec<WrittenLink<'p>>,
    /// Whether the node of a name is a bridge.
    are_bridges: BTreeMap<&'p str, bool>,
}

/// Appends the texts of an array to others.
fn put_texts<'p>(texts: &mut Vec<&'p str>, names: &[FoundKey<'p>]) -> Result<(), AllocError> {
    for name in names {
        if let Some(text) = name.value.as_str() {
            texts.push(text)?;
        }
    }
    Ok(())
}

/// Returns a link as it is written.
fn link_of<'p>(item: &WrittenItem<'p>) -> WrittenLink<'p> {
    WrittenLink {
        item: *item,
        from: item.text("from").unwrap_or(""),
        to: item.text("to").unwrap_or(""),
        times: item.times(),
    }
}

/// Returns the network that files have.
pub(crate) fn network_of<'p>(
    alloc: Global,
    written: &'p WrittenNetwork<'_>,
) -> Result<Network<'p>, AllocError> {
    let (bridge_names, station_names) = (written.names("bridges")?, written.names("stations")?);
    let (mut bridges, mut nodes) = (Vec::new(alloc), Vec::new(alloc));
    put_texts(&mut bridges, bridge_names.as_slice())?;
    put_texts(&mut nodes, bridge_names.as_slice())?;
    put_texts(&mut nodes, station_names.as_slice())?;
    let mut network = nodes_alone(alloc, bridges, nodes)?;
    for item in &written.items(KeyOwner::Link)? {
        network.links.push(link_of(item))?;
    }
    Ok(network)
}

/// Returns a network of nodes, beginning with the bridges, without links.
fn nodes_alone<'p>(
    alloc: Global,
    bridges: Vec<&'p str>,
    nodes: Vec<&'p str>,
) -> Result<Network<'p>, AllocError> {
    let mut are_bridges = BTreeMap::new(alloc);
    for (place, node) in nodes.iter().enumerate() {
        if !are_bridges.contains_key(*node) {
            are_bridges.insert(*node, place < bridges.len())?;
        }
    }
    Ok(Network {
        bridges,
        nodes,
        links: Vec::new(alloc),
        are_bridges,
    })
}

/// Returns the nodes of the smallest network, which the command `line` has: a bridge and a station.
pub(crate) fn smallest_network<'p>(alloc: Global) -> Result<Network<'p>, AllocError> {
    let (bridges, nodes) = (vec![in alloc; "a"]?, vec![in alloc; "a", "s"]?);
    nodes_alone(alloc, bridges, nodes)
}

impl Network<'_> {
    /// Returns whether the name is one of a bridge.
    pub(crate) fn is_bridge(&self, name: &str) -> bool {
        self.are_bridges.get(name).copied().unwrap_or(false)
    }

    /// Returns the bridge at which an access link ends; the link is one, or one of its directions is.
    pub(crate) fn edge_of<'l>(&self, link: &WrittenLink<'l>) -> &'l str {
        if self.is_bridge(link.from) {
            link.from
        } else {
            link.to
        }
    }

    /// Returns whether the name is one of a bridge or a station.
    pub(crate) fn is_node(&self, name: &str) -> bool {
        self.are_bridges.contains_key(name)
    }

    /// Returns the question whether a bridge was meant.
    pub(crate) fn bridge_question(&self, alloc: Global, name: &str) -> Result<String, AllocError> {
        question(alloc, name, self.bridges.as_slice())
    }

    /// Returns the question whether a node was meant.
    pub(crate) fn node_question(&self, alloc: Global, name: &str) -> Result<String, AllocError> {
        question(alloc, name, self.nodes.as_slice())
    }
}
