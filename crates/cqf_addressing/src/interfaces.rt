//! Names of interfaces.
ghost use Rattle.std.specs.Prelude.{◌≡◌, ◌≤◌, IsTrue, length};
ghost use Rattle.std.specs.List.{list_all};
ghost use Rattle.cqf_output.specs.Writer.{Puts};
ghost use Rattle.cqf_addressing.specs.Interface.{interface_of, is_alphanumeric, is_interface, is_interface_byte};

use arrayvec::ArrayVec;
use cqf_output::{Sink, Writer};
use std::marker::Model;

/// The name of an interface of a bridge: 1 to 15 bytes, each `a` to `z`, `A` to `Z`, `0` to `9`, `.`, `_`, `-` or `@`. The first byte is a
/// letter or a digit. Linux allows each of these names, and no shell has to quote one.
#[derive(Drop)]
pub struct InterfaceName {
    bytes: ArrayVec<u8, 15>,
}

impl Model for InterfaceName {
    ghost use Rattle.std.specs.Prelude.{ℕ, List, IsTrue};
    ghost use Rattle.cqf_addressing.specs.Interface.{is_interface};

    ghost Value = { List ℕ };

    ghost view = { λ n. n.bytes.items };

    ghost invariant = { λ n. IsTrue (is_interface n.bytes.items) };
}

/// Returns whether the byte is a letter or a digit.
fn is_alphanumeric(byte: u8) -> bool
    ensures { result ≡ is_alphanumeric byte }
{
    byte.is_ascii_lowercase() || byte.is_ascii_uppercase() || byte.is_ascii_digit()
}

/// Returns whether the byte may be in the name of an interface.
fn is_interface_byte(byte: u8) -> bool
    ensures { result ≡ is_interface_byte byte }
{
    is_alphanumeric(byte) || byte == b'.' || byte == b'_' || byte == b'-' || byte == b'@'
}

/// Returns whether each of the bytes may be in the name of an interface.
fn are_interface_bytes(bytes: &[u8]) -> bool
    ensures { result ≡ list_all is_interface_byte bytes.now }
{
    bytes.iter().all(|byte| is_interface_byte(*byte))
}

/// Returns whether the bytes have the form of the name of an interface.
fn is_interface(bytes: &[u8]) -> bool
    ensures { result ≡ is_interface bytes.now }
{
    let Some((first, rest)) = bytes.split_first() else {
        return false;
    };
    if !is_alphanumeric(*first) {
        return false;
    }
    if rest.len() > 14 {
        return false;
    }
    are_interface_bytes(rest)
}

/// Returns a copy of the bytes in an array of fixed size.
fn kept(bytes: &[u8]) -> ArrayVec<u8, 15>
    requires { length bytes.now ≤ 15 }
    ensures { result.items ≡ bytes.now }
{
    let mut kept = ArrayVec::new();
    for byte in bytes {
        kept.push(*byte);
    }
    kept
}

impl InterfaceName {
    /// Returns the name with these bytes, or `None` if they don't have the form of the name of an interface.
    pub fn new(bytes: &[u8]) -> Option<InterfaceName>
        ensures { result ≡ interface_of bytes.now }
    {
        if !is_interface(bytes) {
            return None;
        }
        Some(InterfaceName { bytes: kept(bytes) })
    }

    /// Returns the name's bytes.
    pub fn as_bytes(&self) -> &[u8]
        ensures value { result.now ≡ self.now }
        ensures form { IsTrue (is_interface self.now) }
    {
        self.bytes.as_slice()
    }
}

/// Writes the name of an interface as it is.
pub fn put_interface<W: Sink>(writer: &mut Writer<'_, W>, name: &InterfaceName)
    ensures { Puts W.contents writer.old writer.new name.now }
{
    writer.put(name.as_bytes());
}
