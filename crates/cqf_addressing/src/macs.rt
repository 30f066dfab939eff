//! Destination addresses of frames.
ghost use Rattle.std.specs.Prelude.{◌≡◌, ◌<◌, ◌+◌, length, slice_index};
ghost use Rattle.std.specs.Char.{digit_value};
ghost use Rattle.std.specs.Option.{SomeIff};
ghost use Rattle.cqf_output.specs.Writer.{Puts};
ghost use Rattle.cqf_addressing.specs.Mac.{IsMac, has_colons, hex_digit, hex_pair, is_forwarded, mac_of_text, mac_text, octet_at};

use cqf_output::{Sink, Writer};
use std::marker::Model;

/// The destination address of frames: six octets (IEEE Std 802). Bridges forward to it: it isn't 00:00:00:00:00:00, which no station has,
/// nor one of 01:80:c2:00:00:00 to 01:80:c2:00:00:0f (IEEE Std 802.1Q-2018, 8.6.3).
#[derive(Debug, Drop)]
pub struct MacAddress {
    octets: [u8; 6],
}

impl Model for MacAddress {
    ghost use Rattle.std.specs.Prelude.{ℕ, List};
    ghost use Rattle.cqf_addressing.specs.Mac.{IsMac};

    ghost Value = { List ℕ };

    ghost view = { λ m. m.octets };

    ghost invariant = { λ m. IsMac m.octets };

    ghost inverse = { λ octets. record { octets = octets } };
}

/// The address of no station.
const NOBODY: [u8; 6] = [0, 0, 0, 0, 0, 0];

/// The first octets of the addresses to which bridges don't forward, if the last octet is below 16.
const RESERVED: [u8; 5] = [0x01, 0x80, 0xc2, 0x00, 0x00];

/// Returns the value of a hexadecimal digit of either case, or `None` if the byte isn't one.
fn hex_value(byte: u8) -> Option<u8>
    ensures { SomeIff result (digit_value byte < 16) (digit_value byte) }
{
    match byte {
        b'0'..=b'9' => Some(byte - b'0'),
        b'A'..=b'F' => Some(byte - b'A' + 10),
        b'a'..=b'f' => Some(byte - b'a' + 10),
        _ => None,
    }
}

/// Returns the octet that is written as two hexadecimal digits at an index.
fn octet_at(text: &[u8], index: usize) -> Option<u8>
    requires { index + 1 < length text.now }
    ensures { result ≡ octet_at text.now index }
{
    let high = hex_value(text[index])?;
    let low = hex_value(text[index + 1])?;
    Some(16 * high + low)
}

/// Returns whether there is a `:` between any two neighboring octets.
fn has_colons(text: &[u8]) -> bool
    requires { length text.now ≡ 17 }
    ensures { result ≡ has_colons text.now }
{
    text[2] == b':' && text[5] == b':' && text[8] == b':' && text[11] == b':' && text[14] == b':'
}

/// Returns whether bridges forward frames with these octets as their destination address.
fn is_forwarded(octets: &[u8]) -> bool
    requires { length octets.now ≡ 6 }
    ensures { result ≡ is_forwarded octets.now }
{
    if octets == NOBODY.as_slice() {
        return false;
    }
    if !octets.starts_with(&RESERVED) {
        return true;
    }
    octets[5] >= 16
}

impl MacAddress {
    /// Returns the address that a text writes: six pairs of hexadecimal digits of either case, separated by `:`. Returns `None` if the text
    /// has another form, or if bridges don't forward to the address.
    pub fn parse(text: &[u8]) -> Option<MacAddress>
        ensures { result ≡ mac_of_text text.now }
    {
        if text.len() != 17 {
            return None;
        }
        if !has_colons(text) {
            return None;
        }
        let octets = [
            octet_at(text, 0)?,
            octet_at(text, 3)?,
            octet_at(text, 6)?,
            octet_at(text, 9)?,
            octet_at(text, 12)?,
            octet_at(text, 15)?,
        ];
        if is_forwarded(&octets) {
            Some(MacAddress { octets })
        } else {
            None
        }
    }

    /// Returns the octets of the address, in the order in which they are sent.
    pub fn octets(&self) -> &[u8]
        ensures value { result.now ≡ self.now }
        ensures form { IsMac self.now }
    {
        &self.octets
    }
}

/// Returns the lower case hexadecimal digit of a number below 16.
fn hex_digit(number: u8) -> u8
    requires { number < 16 }
    ensures { result ≡ hex_digit number }
{
    if number < 10 {
        b'0' + number
    } else {
        b'a' + (number - 10)
    }
}

/// Writes an octet as two lower case hexadecimal digits.
fn put_octet<W: Sink>(writer: &mut Writer<'_, W>, octet: u8)
    ensures { Puts W.contents writer.old writer.new (hex_pair octet) }
{
    writer.put_byte(hex_digit(octet / 16));
    writer.put_byte(hex_digit(octet % 16));
}

/// Writes six octets, separated by `:`.
fn put_octets<W: Sink>(writer: &mut Writer<'_, W>, octets: &[u8])
    requires { length octets.now ≡ 6 }
    ensures { Puts W.contents writer.old writer.new (mac_text octets.now) }
{
    put_octet(writer, octets[0]);
    writer.put_byte(b':');
    put_octet(writer, octets[1]);
    writer.put_byte(b':');
    put_octet(writer, octets[2]);
    writer.put_byte(b':');
    put_octet(writer, octets[3]);
    writer.put_byte(b':');
    put_octet(writer, octets[4]);
    writer.put_byte(b':');
    put_octet(writer, octets[5]);
}

/// Writes an address: each octet as two lower case hexadecimal digits, separated by `:`. It reads back as itself ([`MacAddress::parse`]).
pub fn put_mac<W: Sink>(writer: &mut Writer<'_, W>, mac: &MacAddress)
    ensures { Puts W.contents writer.old writer.new (mac_text mac.now) }
{
    let octets = mac.octets();
    put_octets(writer, octets);
}
