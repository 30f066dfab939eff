//! Text that is written in buffers, to writers in memory and to some that refuse a write.

ghost use Rattle.std.specs.Prelude.{⊤};

use cqf_output::{Buffer, CheckedSink, Sink, Writer};
use std::alloc::Global;
use std::io;
use std::io::{ErrorKind, Write};
use std::test::Fail;

/// A writer that counts its writes, bytes and flushes, and refuses only the write with this number, from 0.
#[derive(Drop)]
struct Refuses {
    at: u32,
    writes: u32,
    bytes: usize,
    flushes: u32,
}

impl Refuses {
    /// Returns a writer that has taken nothing yet.
    fn new(at: u32) -> Refuses {
        Refuses {
            at,
            writes: 0,
            bytes: 0,
            flushes: 0,
        }
    }
}

impl Write for Refuses {
    fn write(&mut self, buf: &[u8]) -> io::Result<usize> {
        let this = self.writes;
        self.writes = self.writes.saturating_add(1);
        if this == self.at {
            return Err(io::Error::from(ErrorKind::BrokenPipe));
        }
        self.bytes = self.bytes.saturating_add(buf.len());
        Ok(buf.len())
    }

    fn flush(&mut self) -> io::Result<()> {
        self.flushes = self.flushes.saturating_add(1);
        Ok(())
    }
}

/// It may refuse with any error.
impl Sink for Refuses {
    ghost refuses = { λ _. ⊤ };

    fn write_some(&mut self, bytes: &[u8]) -> io::Result<usize> {
        self.write(bytes)
    }

    fn hand_on(&mut self) -> io::Result<()> {
        self.flush()
    }
}

/// Writes `many` numbers from 100,000 on, each on its own line.
fn write_numbers<W: Sink>(reported: &mut CheckedSink<W>, buffer: Buffer, many: u64) {
    let mut writer = Writer::new(reported, buffer);
    for number in 0..many {
        writer.put_number(number.saturating_add(100_000));
        writer.put_byte(b'\n');
    }
    let _written = writer.close();
}

/// Returns what a writer writes for pieces of each kind.
fn pieces(alloc: Global, long: &[u8]) -> Result<Vec<u8>, Fail> {
    let mut reported = CheckedSink::new(Vec::new(alloc));
    let mut writer = Writer::new(&mut reported, Buffer::new(alloc)?);
    writer.put(b"at ");
    writer.put_number(0u8);
    writer.put_byte(b',');
    writer.put_number(18_446_744_073_709_551_615u64);
    writer.put_byte(b'\n');
    writer.put(long);
    writer.put(b"end\n");
    let _written = writer.close();
    Ok(reported.into_writer())
}

#[test]
fn pieces_are_written_in_their_order(rt: HostRuntime) -> Result<(), Fail> {
    assert!(rt;
        pieces(rt.alloc(), b"")?.as_slice() == b"at 0,18446744073709551615\nend\n".as_slice()
    );
    Ok(())
}

/// A text that is longer than the longest piece is written between what was put before and after it.
#[test]
fn long_text_is_written_past_the_buffer(rt: HostRuntime) -> Result<(), Fail> {
    let text = pieces(rt.alloc(), &[b'x'; 700])?;
    assert_eq!(rt; text.len(), 730);
    assert!(rt;
        text.as_slice()
            .starts_with(b"at 0,18446744073709551615\nxxx")
    );
    assert!(rt; text.as_slice().ends_with(b"xxxend\n"));
    Ok(())
}

/// 20,000 lines of 7 bytes are three buffers: two of some 65,540 bytes, and the rest.
#[test]
fn text_is_written_in_buffers(rt: HostRuntime) -> Result<(), Fail> {
    let mut reported = CheckedSink::new(Refuses::new(9));
    write_numbers(&mut reported, Buffer::new(rt.alloc())?, 20_000);
    assert!(rt; !reported.is_refused());
    assert_eq!(rt; reported.writer().writes, 3);
    assert_eq!(rt; reported.writer().bytes, 140_000);
    assert_eq!(rt; reported.writer().flushes, 1);
    Ok(())
}

/// After a refused write there is no other write, and no flush.
#[test]
fn nothing_is_written_after_a_refusal(rt: HostRuntime) -> Result<(), Fail> {
    for at in 0..3 {
        let mut reported = CheckedSink::new(Refuses::new(at));
        write_numbers(&mut reported, Buffer::new(rt.alloc())?, 20_000);
        assert!(rt; reported.is_refused());
        assert_eq!(rt; reported.writer().writes, at + 1);
        assert_eq!(rt; reported.writer().flushes, 0);
    }
    Ok(())
}
