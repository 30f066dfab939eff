//! The offers of a run, read from a text.

ghost use Rattle.std.specs.Prelude.{◌≡◌, ◌≤◌, IfOk, IfErr, Ok, length};
ghost use Rattle.cqf_model.specs.Run.{AreOffers};
ghost use Rattle.cqf_report.specs.OtherColumns.{in_four-other};
ghost use Rattle.csv.specs.Records.{fields_of};
ghost use Rattle.cqf_report.specs.Table.{IsFaultOf, in_four, is_header};
ghost use Rattle.cqf_report.specs.Offers.{bridge_named, name_in, offer_header, offer_instant, offer_of, offers_of};
ghost use Rattle.cqf_model.specs.Limits.{most_offers};

use crate::rows::{RowFormat, read_table};
use crate::tables::{OfferFault, four_fields, is_header_of, read_number};
use cqf_model::{Node, Offer};
use cqf_text::read_decimal;
use cqf_topology::Domain;
use cqf_units::{Name, Nanos};
use csv::ByteRecord;
use std::alloc::Global;

/// Returns the bridge that a field names, or `None` if there is no such bridge.
fn read_bridge(domain: &Domain, field: &[u8]) -> Option<u16>
    ensures { result ≡ bridge_named domain.now field.now }
{
    let name = Name::new(field)?;
    match domain.find(name.as_str()) {
        Some(Node::Bridge(bridge)) => Some(bridge),
        Some(Node::Station(_)) => None,
        None => None,
    }
}

/// Returns the name that a field is, if it has the form of a name.
fn read_name(field: &[u8]) -> Option<Name>
    ensures { result ≡ name_in field.now }
{
    Name::new(field)
}

/// Returns the offer to a domain that four fields write, or `None` if they write none.
fn read_offer(
    domain: &Domain,
    at: &[u8],
    bridge: &[u8],
    stream: &[u8],
    octets: &[u8],
) -> Option<Offer>
    ensures { result ≡ offer_of domain.now at.now bridge.now stream.now octets.now }
{
    let Some(at) = read_decimal(at, 0, 999_999_999_999) else {
        return None;
    };
    let Some(bridge) = read_bridge(domain, bridge) else {
        return None;
    };
    let Some(stream) = read_name(stream) else {
        return None;
    };
    let Some(octets) = read_number(octets, 64, 1522) else {
        return None;
    };
    Some(Offer {
        at: Nanos(at),
        bridge,
        stream,
        octets,
    })
}

/// The format of rows of offers to a domain.
#[derive(Clone, Copy)]
struct OfferRows<'d> {
    domain: &'d Domain,
}

impl RowFormat for OfferRows<'_> {
    type RowValue = Offer;

    ghost header = { offer_header };

    ghost row_of = { λ rows. in_four (offer_of rows.domain.now) };

    ghost instant_of = { offer_instant };

    ghost no_row_of_others = { λ rows. in_four-other (offer_of rows.domain.now) };

    fn names_columns(fields: &ByteRecord) -> bool
        ensures { result ≡ is_header offer_header (fields_of fields.now) }
    {
        let names = (
            b"at".as_slice(),
            b"bridge".as_slice(),
            b"stream".as_slice(),
            b"octets".as_slice(),
        );
        is_header_of(fields, names)
    }

    fn read_row(&self, fields: &ByteRecord) -> Option<Offer> {
        let Some((at, bridge, stream, octets)) = four_fields(fields) else {
            return None;
        };
        read_offer(self.domain, at, bridge, stream, octets)
    }

    fn instant(row: &Offer) -> Nanos
        ensures { result.0 ≡ offer_instant row.now }
    {
        row.at
    }
}

/// Returns the offers that the text writes for the domain, in order.
///
/// The header is `at,bridge,stream,octets`. An offer's instant is before 1,000,000,000,000 ns, its bridge is one of the domain's by name,
/// its stream has the form of a name, and its size is 64 to 1,522 octets (IEEE 802.3). No row's instant is before that of the previous row.
/// The text may have all that the crate `csv` accepts: quotes, CR LF, and a last row without its line end.
///
/// # Errors
/// As for `read_arrivals`: `BadHeader`; then the first fault of the rows in their order, `TooMany` at the first row beyond the domain's
/// limit, `BadRow`, or `OutOfOrder`; `Memory` if an allocation fails.
pub fn read_offers(alloc: Global, domain: &Domain, text: &[u8]) -> Result<Vec<Offer>, OfferFault>
    ensures ok { IfOk result (λ offers. offers_of domain.now text.now ≡ Ok offers.items) }
    ensures good { IfOk result (λ offers. AreOffers domain.now offers.items) }
    ensures few { IfOk result (λ offers. length offers.items ≤ most_offers) }
    ensures err { IfErr result (λ fault. IsFaultOf (offers_of domain.now text.now) fault) }
{
    let most = domain.limits().rows_within();
    read_table(alloc, &OfferRows { domain }, most, text)
}
