//! Streams as their talkers see them.
ghost use Rattle.std.specs.Prelude.{◌≡◌, ◌++◌, ◌∷◌, [], IfErr, IfOk, Ok, OnOk, false, map, string_bytes, option_map};
ghost use Rattle.cqf_output.specs.Stops.{EndsWith, IsRefused};
ghost use Rattle.cqf_admission.specs.Branches.{branches_of};
ghost use Rattle.cqf_program_offers.specs.OffersOutput.{edge_of, first_name, sender_of, senders_of};
ghost use Rattle.cqf_topology.specs.DomainText.{is_among};
ghost use Rattle.cqf_traffic.specs.FlowsText.{flow_text};

use crate::judging::row_of;
use cqf_model::{Node, Row};
use cqf_output::Stop;
use cqf_topology::{Domain, NameList};
use cqf_traffic::{Flow, TalkerStream};
use cqf_units::Name;
use std::alloc::Global;

/// Returns the first name of some branches.
fn first_name(paths: &[Vec<String>]) -> Option<&str>
    ensures { option_map (λ name. name.now) result ≡ first_name (branches_of paths.now) }
{
    match paths {
        [path, ..] => match path.as_slice() {
            [name, ..] => Some(name.as_str()),
            [] => None,
        },
        [] => None,
    }
}

/// Returns the bridge with which some branches begin.
fn edge_of(domain: &Domain, paths: &[Vec<String>]) -> u16
    ensures { result ≡ edge_of domain.now (branches_of paths.now) }
{
    let Some(name) = first_name(paths) else {
        return 0;
    };
    match domain.find(name) {
        Some(Node::Bridge(bridge)) => bridge,
        _ => 0,
    }
}

/// Returns a stream of this name as its talker sees it.
fn sender_of(domain: &Domain, flow: &Flow, name: Name) -> TalkerStream
    requires { name ≡ string_bytes flow.now.planned.request.name }
    ensures { result ≡ sender_of domain.now (flow_text flow.now) }
{
    TalkerStream {
        name,
        bridge: edge_of(domain, flow.planned.request.paths.as_slice()),
        traffic: flow.traffic,
    }
}

/// Puts a stream after others, by its name, as its row and as its talker sees it. Returns `Err` with status 3 if an allocation fails.
fn put_stream(
    alloc: Global,
    sender: TalkerStream,
    row: Row,
    names: &mut NameList,
    rows: &mut Vec<Row>,
    senders: &mut Vec<TalkerStream>,
) -> Result<(), Stop>
    requires { is_among row.name names.old.keys ≡ false }
    ensures names { OnOk result (names.new.keys ≡ names.old.keys ++ row.name ∷ []) }
    ensures rows { OnOk result (rows.new.items ≡ rows.old.items ++ row ∷ []) }
    ensures senders { OnOk result (senders.new.items ≡ senders.old.items ++ sender ∷ []) }
    ensures memory { IfErr result (EndsWith 3 []) }
{
    if names.add(&row.name).is_err() {
        return Err(Stop::memory(alloc));
    }
    if rows.push(row).is_err() {
        return Err(Stop::memory(alloc));
    }
    match senders.push(sender) {
        Ok(()) => Ok(()),
        Err(_) => Err(Stop::memory(alloc)),
    }
}

/// Returns streams as their talkers see them, each judged as if those before it had been accepted, regardless of the room that links have.
///
/// # Errors
/// With status 1 and the line of the first stream that is refused; with status 3 if an allocation fails.
pub fn senders_of(alloc: Global, domain: &Domain, flows: &[Flow]) -> Result<Vec<TalkerStream>, Stop>
    ensures ok { IfOk result (λ senders. senders_of domain.now (map flow_text flows.now) ≡ Ok senders.items) }
    ensures err { IfErr result (IsRefused (senders_of domain.now (map flow_text flows.now))) }
{
    let mut names = NameList::new(alloc);
    let mut rows = Vec::new(alloc);
    let mut senders = Vec::new(alloc);
    for flow in flows {
        let request = &flow.planned.request;
        let row = match row_of(alloc, domain, &names, rows.as_slice(), request) {
            Ok(row) => row,
            Err(stop) => return Err(stop),
        };
        let sender = sender_of(domain, flow, row.name.copied());
        put_stream(alloc, sender, row, &mut names, &mut rows, &mut senders)?;
    }
    Ok(senders)
}
