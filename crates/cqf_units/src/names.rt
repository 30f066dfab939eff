//! Names of bridges, stations and streams.
ghost use Rattle.std.specs.Prelude.{◌≡◌, ◌≤◌, ◌↔◌, ⊤, IsTrue, Some, IsSome, IfSome, length};
ghost use Rattle.std.specs.List.{list_all};
ghost use Rattle.cqf_units.specs.Name.{is_name, is_name_byte};

use arrayvec::ArrayVec;
use std::alloc::AllocError;
use std::fmt;
use std::marker::Model;

/// The name of a bridge, a station or a stream: 1 to 32 bytes of `a` to `z`, `0` to `9`, `-` and `_`. Names are ordered
/// by their bytes.
#[derive(PartialEq, Eq, PartialOrd, Ord, Hash, Drop)]
pub struct Name {
    bytes: ArrayVec<u8, 32>,
}

impl Model for Name {
    ghost use Rattle.std.specs.Prelude.{ℕ, List, IsTrue};
    ghost use Rattle.cqf_units.specs.Name.{is_name};

    ghost Value = { List ℕ };

    ghost view = { λ n. n.bytes.items };

    ghost invariant = { λ n. IsTrue (is_name n.bytes.items) };

    ghost inverse = { λ bytes. record { bytes = record { items = bytes } } };
}

/// Returns whether the byte may occur in a name.
fn is_byte_of_name(byte: u8) -> bool
    ensures { result ≡ is_name_byte byte }
{
    byte.is_ascii_lowercase() || byte.is_ascii_digit() || byte == b'-' || byte == b'_'
}

/// Returns whether each of the bytes may occur in a name.
fn are_bytes_of_name(bytes: &[u8]) -> bool
    ensures { result ≡ list_all is_name_byte bytes.now }
{
    bytes.iter().all(|byte| is_byte_of_name(*byte))
}

/// Returns whether the bytes have the form of a name.
fn has_form(bytes: &[u8]) -> bool
    ensures { result ≡ is_name bytes.now }
{
    let not_empty = 1 <= bytes.len();
    let not_too_long = bytes.len() <= 32;
    not_empty && not_too_long && are_bytes_of_name(bytes)
}

/// Returns a copy of the bytes, at most 32, that needs no allocation.
fn kept(bytes: &[u8]) -> ArrayVec<u8, 32>
    requires { length bytes.now ≤ 32 }
    ensures { result.items ≡ bytes.now }
{
    let mut kept = ArrayVec::new();
    for byte in bytes {
        kept.push(*byte);
    }
    kept
}

impl Name {
    /// Returns the name with these bytes, or `None` if they aren't 1 to 32 bytes that may occur in a name.
    pub fn new(bytes: &[u8]) -> Option<Name>
        ensures form { IsSome result ↔ IsTrue (is_name bytes.now) }
        ensures value { IfSome result (λ name. name ≡ bytes.now) }
    {
        if !has_form(bytes) {
            return None;
        }
        Some(Name { bytes: kept(bytes) })
    }

    /// Returns a copy of the name. A name needs no allocation, so this can't fail.
    pub fn copied(&self) -> Name
        ensures { result ≡ self.now }
    {
        Name {
            bytes: kept(self.bytes.as_slice()),
        }
    }

    /// Returns the name's bytes.
    pub fn as_bytes(&self) -> &[u8]
        ensures value { result.now ≡ self.now }
        ensures form { IsTrue (is_name self.now) }
    {
        self.bytes.as_slice()
    }

    /// Returns the name as text; its bytes are ASCII.
    pub fn as_str(&self) -> &str
        ensures value { result.now ≡ self.now }
        ensures form { IsTrue (is_name self.now) }
    {
        match std::str::from_utf8(self.as_bytes()) {
            Ok(text) => text,
            Err(_) => unreachable!(),
        }
    }
}

/// A clone equals its source and can't fail.
impl Clone for Name {
    ghost is_clone = { λ name clone. clone ≡ name };

    ghost is_infallible = { λ _. ⊤ };

    fn clone(&self) -> Result<Name, AllocError> {
        Ok(self.copied())
    }
}

/// The name's text.
impl fmt::Display for Name {
    ghost output = { λ name. Some name };

    fn fmt<W: fmt::Write>(&self, f: &mut fmt::Formatter<W>) -> fmt::Result {
        f.write_str(self.as_str())
    }
}

/// The name's text.
impl fmt::Debug for Name {
    fn fmt<W: fmt::Write>(&self, f: &mut fmt::Formatter<W>) -> fmt::Result {
        fmt::Display::fmt(self, f)
    }
}
