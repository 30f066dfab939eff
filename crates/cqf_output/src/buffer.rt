//! A buffer for text that is written out a buffer at a time.
ghost use Rattle.std.specs.Prelude.{ℕ, ◌≡◌, ◌≤◌, ◌++◌, ◌∷◌, List, [], IfOk, length, vec_capacity};

use std::alloc::{AllocError, Global};
use std::marker::Model;

/// The size of a full buffer, in bytes. A buffer with more bytes is written out before more text is put on it.
pub(crate) const BUFFER_SIZE: usize = 65_536;

/// The largest number of bytes that are put at once.
pub(crate) const MOST_PUT: usize = 512;

/// Text that hasn't been written out yet, with room for a buffer and one more piece.
#[derive(Drop)]
pub struct Buffer {
    bytes: Vec<u8>,
}

impl Model for Buffer {
    ghost Value = { List ℕ };

    ghost view = { λ buffer. buffer.bytes.items };

    ghost invariant = { λ buffer. 66048 ≤ vec_capacity buffer.bytes };
}

impl Buffer {
    /// Returns an empty buffer. Only this allocates memory.
    pub fn new(alloc: Global) -> Result<Buffer, AllocError>
        ensures { IfOk result (λ buffer. buffer ≡ []) }
    {
        let bytes = Vec::with_capacity(alloc, BUFFER_SIZE + MOST_PUT)?;
        Ok(Buffer { bytes })
    }

    /// Returns the number of bytes on the buffer.
    pub(crate) fn len(&self) -> usize
        ensures { result ≡ length self.now }
    {
        self.bytes.len()
    }

    /// Returns the text on the buffer.
    pub(crate) fn text(&self) -> &[u8]
        ensures { result.now ≡ self.now }
    {
        self.bytes.as_slice()
    }

    /// Removes all text.
    pub(crate) fn clear(&mut self)
        ensures { self.new ≡ [] }
    {
        self.bytes.clear();
    }

    /// Appends at most 512 bytes to the text, which has at most 65,536.
    pub(crate) fn put(&mut self, bytes: &[u8])
        requires room { length self.old ≤ 65536 }
        requires few { length bytes.now ≤ 512 }
        ensures { self.new ≡ self.old ++ bytes.now }
    {
        let _within = self.bytes.extend_from_slice(bytes);
    }

    /// Appends a byte to the text, which has at most 65,536.
    pub(crate) fn put_byte(&mut self, byte: u8)
        requires { length self.old ≤ 65536 }
        ensures { self.new ≡ self.old ++ byte ∷ [] }
    {
        self.bytes.push_reserved(byte);
    }
}
