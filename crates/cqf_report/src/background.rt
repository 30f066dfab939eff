//! The background frames of a run, read from a text.

ghost use Rattle.std.specs.Prelude.{◌≡◌, ◌≤◌, IfOk, IfErr, Ok, length};
ghost use Rattle.cqf_model.specs.Run.{AreBackground};
ghost use Rattle.cqf_report.specs.OtherColumns.{in_five-other};
ghost use Rattle.csv.specs.Records.{fields_of};
ghost use Rattle.cqf_report.specs.Table.{IsFaultOf, in_five, is_header};
ghost use Rattle.cqf_report.specs.BackgroundFrames.{background_frames_of, background_header, background_instant, background_of_table, link_named, node_in};
ghost use Rattle.cqf_model.specs.Limits.{most_offers};

use crate::rows::{RowFormat, read_table};
use crate::tables::{OfferFault, five_fields, is_header_of_five, read_number};
use cqf_model::{Background, Node};
use cqf_text::read_decimal;
use cqf_topology::Domain;
use cqf_units::{Name, Nanos};
use csv::ByteRecord;
use std::alloc::Global;

/// Returns the node that a field names, or `None` if there is no such node.
fn read_node(domain: &Domain, field: &[u8]) -> Option<Node>
    ensures { result ≡ node_in domain.now field.now }
{
    match Name::new(field) {
        Some(name) => domain.find(name.as_str()),
        None => None,
    }
}

/// Returns the link from one node to another that two fields name, or `None` if there is no such link.
fn read_link(domain: &Domain, from: &[u8], to: &[u8]) -> Option<u16>
    ensures { result ≡ link_named domain.now from.now to.now }
{
    let Some(from) = read_node(domain, from) else {
        return None;
    };
    let Some(to) = read_node(domain, to) else {
        return None;
    };
    match from {
        Node::Bridge(bridge) => domain.find_link(bridge, to),
        Node::Station(_) => None,
    }
}

/// Returns the background frame of a domain that five fields write, or `None` if they write none.
fn read_frame(
    domain: &Domain,
    at: &[u8],
    from: &[u8],
    to: &[u8],
    class: &[u8],
    octets: &[u8],
) -> Option<Background>
    ensures { result ≡ background_of_table domain.now at.now from.now to.now class.now octets.now }
{
    let Some(at) = read_decimal(at, 0, 999_999_999_999) else {
        return None;
    };
    let Some(link) = read_link(domain, from, to) else {
        return None;
    };
    let Some(class) = read_number(class, 0, 5) else {
        return None;
    };
    let Some(octets) = read_number(octets, 64, 1522) else {
        return None;
    };
    Some(Background {
        at: Nanos(at),
        link,
        class: class as u8,
        octets,
    })
}

/// The format of rows of background frames of a domain.
#[derive(Clone, Copy)]
struct BackgroundRows<'d> {
    domain: &'d Domain,
}

impl RowFormat for BackgroundRows<'_> {
    type RowValue = Background;

    ghost header = { background_header };

    ghost row_of = { λ rows. in_five (background_of_table rows.domain.now) };

    ghost instant_of = { background_instant };

    ghost no_row_of_others = { λ rows. in_five-other (background_of_table rows.domain.now) };

    fn names_columns(fields: &ByteRecord) -> bool
        ensures { result ≡ is_header background_header (fields_of fields.now) }
    {
        let names = (
            b"at".as_slice(),
            b"from".as_slice(),
            b"to".as_slice(),
            b"class".as_slice(),
            b"octets".as_slice(),
        );
        is_header_of_five(fields, names)
    }

    fn read_row(&self, fields: &ByteRecord) -> Option<Background> {
        let Some((at, from, to, class, octets)) = five_fields(fields) else {
            return None;
        };
        read_frame(self.domain, at, from, to, class, octets)
    }

    fn instant(row: &Background) -> Nanos
        ensures { result.0 ≡ background_instant row.now }
    {
        row.at
    }
}

/// Returns the background frames that the text writes for the domain's links, in order.
///
/// The header is `at,from,to,class,octets`. A frame's instant is before 1,000,000,000,000 ns, `from` and `to` are the names of the ends of
/// one of the domain's links, its class is 0 to 5, and its size 64 to 1,522 octets (IEEE 802.3). No row's instant is before that of the
/// previous row. The text may have all that the crate `csv` accepts: quotes, CR LF, and a last row without its line end.
///
/// # Errors
/// As for `read_offers`: `BadHeader`; then the first fault of the rows in their order, `TooMany` at the first row beyond the domain's
/// limit, `BadRow`, or `OutOfOrder`; `Memory` if an allocation fails. If a pair of names isn't a link, its row is `BadRow`.
pub fn read_background(
    alloc: Global,
    domain: &Domain,
    text: &[u8],
) -> Result<Vec<Background>, OfferFault>
    ensures ok { IfOk result (λ frames. background_frames_of domain.now text.now ≡ Ok frames.items) }
    ensures good { IfOk result (λ frames. AreBackground domain.now frames.items) }
    ensures few { IfOk result (λ frames. length frames.items ≤ most_offers) }
    ensures err { IfErr result (λ fault. IsFaultOf (background_frames_of domain.now text.now) fault) }
{
    let most = domain.limits().rows_within();
    read_table(alloc, &BackgroundRows { domain }, most, text)
}
