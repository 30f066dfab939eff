//! The reader of streams with their traffic.
ghost use Rattle.std.specs.Prelude.{◌≡◌, Ok, IfErr, IfOk, map};
ghost use Rattle.cqf_program_offers.specs.OffersOutput.{flows_input, flows_of_network, flows_of_part, flows_of_parts};
ghost use Rattle.cqf_output.specs.Stops.{IsRefused};
ghost use Rattle.cqf_traffic.specs.FlowsText.{flow_text};

use cqf_model::Limits;
use cqf_network::NetworkDomain;
use cqf_output::Stop;
use cqf_program_plans::open_edges_part;
use cqf_program_scenario::{domain_of, network_part, two_parts};
use cqf_topology::Domain;
use cqf_traffic::Flow;
use std::alloc::Global;

/// Returns the streams of a part of a network at their edge bridges, with the rest of their deadlines and the traffic that they
/// have there. Returns `Err` with status 1 and the line of the part's first fault, or of the first access link that is full; with status 3
/// if an allocation fails.
pub(crate) fn flows_part(
    alloc: Global,
    network: &NetworkDomain,
    text: &[u8],
) -> Result<Vec<Flow>, Stop>
    ensures ok { IfOk result (λ flows. flows_of_part network.now text.now ≡ Ok (map flow_text flows.items)) }
    ensures err { IfErr result (IsRefused (flows_of_part network.now text.now)) }
{
    let edge = open_edges_part(alloc, network, text)?;
    Ok(edge.flows)
}

/// Returns the domain of a network and the streams of a part for it. Returns `Err` as [`flows_part`].
fn flows_of_network(
    alloc: Global,
    network: &NetworkDomain,
    streams: &[u8],
) -> Result<(Domain, Vec<Flow>), Stop>
    ensures ok { IfOk result (λ found. flows_of_network network.now streams.now ≡ Ok (found.0, map flow_text found.1.items)) }
    ensures err { IfErr result (IsRefused (flows_of_network network.now streams.now)) }
{
    let flows = flows_part(alloc, network, streams)?;
    let domain = domain_of(alloc, network)?;
    Ok((domain, flows))
}

/// Returns the domain and the streams of two parts, read within some limits. Returns `Err` with status 1 and the line of the first fault: of
/// the domain, or of the streams; with status 3 if an allocation fails.
pub(crate) fn flows_of_parts(
    alloc: Global,
    limits: Limits,
    domain: &[u8],
    streams: &[u8],
) -> Result<(Domain, Vec<Flow>), Stop>
    ensures ok { IfOk result (λ found. flows_of_parts limits domain.now streams.now ≡ Ok (found.0, map flow_text found.1.items)) }
    ensures err { IfErr result (IsRefused (flows_of_parts limits domain.now streams.now)) }
{
    let network = network_part(alloc, limits, domain)?;
    flows_of_network(alloc, &network, streams)
}

/// Returns the domain and the streams of the input, read within some limits. Returns `Err` with status 1 and the line of the first fault:
/// of its parts, of the domain, or of the streams; with status 3 if an allocation fails.
pub(crate) fn flows_input(
    alloc: Global,
    limits: Limits,
    input: &[u8],
) -> Result<(Domain, Vec<Flow>), Stop>
    ensures ok { IfOk result (λ found. flows_input limits input.now ≡ Ok (found.0, map flow_text found.1.items)) }
    ensures err { IfErr result (IsRefused (flows_input limits input.now)) }
{
    let (domain_text, streams_text) = two_parts(alloc, input)?;
    flows_of_parts(alloc, limits, domain_text, streams_text)
}
