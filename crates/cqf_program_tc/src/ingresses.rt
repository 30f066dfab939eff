//! The interfaces over which streams arrive at a bridge.
ghost use Rattle.std.specs.Prelude.{ℕ, ◌≡◌, ◌<◌, ◌++◌, ◌∷◌, [], List, Some};
ghost use Rattle.cqf_model.specs.declared.topology.Row.{Row as ARow};
ghost use Rattle.cqf_program_tc.specs.Bridge.{ingress_at};
ghost use Rattle.cqf_program_tc.specs.Ingresses.{IsSeenIngress, NotesIngress, is_unseen};

use cqf_compile::first_hop;
use cqf_model::Row;
use cqf_topology::Domain;

/// Returns whether no stream was noted that arrives this way.
fn is_unseen(seen: &[bool; 65536], ingress: Option<u16>) -> bool
    ensures value { result ≡ is_unseen seen.now ingress }
    ensures range { (link : ℕ) → ingress ≡ Some link → link < 65536 }
{
    match ingress {
        Some(link) => !seen[usize::from(link)],
        None => true,
    }
}

/// Notes that a stream arrives over a link.
fn mark(seen: &mut [bool; 65536], link: u16)
    ensures { NotesIngress seen.old (Some link) seen.new }
{
    seen[usize::from(link)] = true;
}

/// Notes that a stream arrives this way.
fn note(seen: &mut [bool; 65536], ingress: Option<u16>)
    ensures { NotesIngress seen.old ingress seen.new }
{
    match ingress {
        Some(link) => mark(seen, link),
        None => (),
    }
}

/// Returns the ingress by which the row's stream arrives at the bridge, and whether no stream before arrived that way; `None` if the stream
/// doesn't leave the bridge. The ingress is noted.
pub(crate) fn ingress_of(
    domain: &Domain,
    bridge: u16,
    seen: &mut [bool; 65536],
    row: &Row,
) -> Option<(Option<u16>, bool)>
    ensures ingress { (before : List ARow) → IsSeenIngress domain.now bridge before seen.old → result ≡ ingress_at domain.now bridge before row.now }
    ensures noted { (before : List ARow) → IsSeenIngress domain.now bridge before seen.old → IsSeenIngress domain.now bridge (before ++ row.now ∷ []) seen.new }
{
    let hop = first_hop(domain, row, bridge)?;
    let is_new = is_unseen(seen, hop.from);
    note(seen, hop.from);
    Some((hop.from, is_new))
}
