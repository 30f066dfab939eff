//! A buffered writer: text is put on a buffer, and each full buffer is written out.
ghost use Rattle.std.specs.Prelude.{◌≡◌, ◌≤◌, ◌∷◌, [], length};
ghost use Rattle.cqf_output.specs.Writer.{ClosesBuffer, Opens, Puts};

use crate::buffer::{BUFFER_SIZE, Buffer, MOST_PUT};
use crate::checked::CheckedSink;
use crate::outputs::{flush_out, write_on};
use crate::sinks::Sink;
use itoa::Integer;

/// A buffer of text, and the writer that it is written to.
#[derive(Drop)]
pub struct Writer<'o, W: Sink> {
    checked: &'o mut CheckedSink<W>,
    buffer: Buffer,
}

impl<'o, W: Sink> Writer<'o, W> {
    /// Returns a buffered writer that writes to `checked` by this buffer, which is emptied first.
    pub fn new(checked: &'o mut CheckedSink<W>, buffer: Buffer) -> Writer<'o, W>
        ensures same { result.checked.ghost_name ≡ checked.entry.ghost_name }
        ensures opens { Opens checked.old result }
    {
        let mut buffer = buffer;
        buffer.clear();
        Writer { checked, buffer }
    }

    /// Writes the buffer to the writer, and empties it.
    fn write_buffer(&mut self)
        ensures puts { Puts W.contents self.old self.new [] }
        ensures empty { self.new.buffer ≡ [] }
    {
        write_on(self.checked, self.buffer.text());
        self.buffer.clear();
    }

    /// Writes the buffer to the writer and empties it if it is full.
    fn make_room(&mut self)
        ensures puts { Puts W.contents self.old self.new [] }
        ensures room { length self.new.buffer ≤ 65536 }
    {
        if self.buffer.len() > BUFFER_SIZE {
            self.write_buffer();
        }
    }

    /// Appends at most 512 bytes to the text, on a buffer with room for them.
    fn put_few(&mut self, bytes: &[u8])
        requires { length bytes.now ≤ 512 }
        ensures { Puts W.contents self.old self.new bytes.now }
    {
        self.make_room();
        self.buffer.put(bytes);
    }

    /// Writes the buffer to the writer, and then these bytes, which are too many for the buffer.
    fn put_many(&mut self, bytes: &[u8])
        ensures { Puts W.contents self.old self.new bytes.now }
    {
        self.write_buffer();
        self.write_past(bytes);
    }

    /// Writes bytes directly to the writer. The buffer is empty.
    fn write_past(&mut self, bytes: &[u8])
        requires { self.old.buffer ≡ [] }
        ensures { Puts W.contents self.old self.new bytes.now }
    {
        write_on(self.checked, bytes);
    }

    /// Appends any number of bytes to the text.
    pub fn put(&mut self, bytes: &[u8])
        ensures { Puts W.contents self.old self.new bytes.now }
    {
        if bytes.len() <= MOST_PUT {
            self.put_few(bytes);
        } else {
            self.put_many(bytes);
        }
    }

    /// Appends a byte to the text.
    pub fn put_byte(&mut self, byte: u8)
        ensures { Puts W.contents self.old self.new (byte ∷ []) }
    {
        self.make_room();
        self.buffer.put_byte(byte);
    }

    /// Appends a number to the text, in decimal.
    pub fn put_number<I: Integer>(&mut self, number: I)
        ensures { Puts W.contents self.old self.new (I.text number) }
    {
        let mut digits = itoa::Buffer::new();
        self.put(digits.format(number).as_bytes());
    }

    /// Writes the rest of the text, flushes the writer unless it has refused something, and returns the writer.
    pub fn close(self) -> &'o mut CheckedSink<W>
        ensures same { result.ghost_name ≡ self.entry.checked.ghost_name }
        ensures closes { ClosesBuffer W.contents self.entry result.now }
    {
        let Writer { checked, buffer } = self;
        write_on(checked, buffer.text());
        flush_out(checked);
        checked
    }
}
