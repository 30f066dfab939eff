//! Runs whose reads and writes are interrupted by signals.

ghost use Rattle.std.specs.Prelude.{⊤};

use cqf_program_engine::{CheckedSink, Heard, Sink, Source, engine};
use std::io;
use std::io::{ErrorKind, Read, Write};

/// A frame of the smallest network, and its book.
const OFFERS: &str = "at,bridge,stream,octets\n124999,a,x,64\n";

const BOOK: &str = "what,cycle,where,frame,octets,detail\nstart,1,a>s,1,64,125000\n";

/// A reader that returns a text in pieces of at most 7 octets, each of them at the second try: a signal interrupts the
/// first.
#[derive(Drop)]
struct Interrupted {
    text: &'static [u8],
    tried: bool,
}

impl Read for Interrupted {
    fn read(&mut self, buf: &mut [u8]) -> io::Result<usize> {
        self.tried = !self.tried;
        if self.tried {
            return Err(io::Error::from(ErrorKind::Interrupted));
        }
        let (mut piece, rest) = self.text.split_at(self.text.len().min(7).min(buf.len()));
        self.text = rest;
        piece.read(buf)
    }
}

/// It may fail with any error.
impl Source for Interrupted {
    ghost fails = { λ _. ⊤ };

    fn read_some(&mut self, buffer: &mut [u8]) -> io::Result<usize> {
        self.read(buffer)
    }
}

/// A writer that takes at most 7 octets at a time, and is flushed, each at the second try.
#[derive(Drop)]
struct Interrupting {
    taken: Vec<u8>,
    tried: bool,
}

impl Write for Interrupting {
    fn write(&mut self, buf: &[u8]) -> io::Result<usize> {
        self.tried = !self.tried;
        if self.tried {
            return Err(io::Error::from(ErrorKind::Interrupted));
        }
        self.taken.write(&buf[..buf.len().min(7)])
    }

    fn flush(&mut self) -> io::Result<()> {
        self.tried = !self.tried;
        if self.tried {
            return Err(io::Error::from(ErrorKind::Interrupted));
        }
        Ok(())
    }
}

/// It may refuse with any error.
impl Sink for Interrupting {
    ghost refuses = { λ _. ⊤ };

    fn write_some(&mut self, bytes: &[u8]) -> io::Result<usize> {
        self.write(bytes)
    }

    fn hand_on(&mut self) -> io::Result<()> {
        self.flush()
    }
}

#[test]
fn reads_and_writes_that_signals_interrupt_are_made_again(rt: HostRuntime) {
    let alloc = rt.alloc();
    let mut input = Heard::new(
        alloc,
        Interrupted {
            text: OFFERS.as_bytes(),
            tried: false,
        },
    );
    let mut output = CheckedSink::new(Interrupting {
        taken: Vec::new(alloc),
        tried: false,
    });
    let mut faults = CheckedSink::new(Vec::new(alloc));
    let words = ["line", "--cycles", "3"];
    let status = engine(&rt, alloc, &words, &mut input, &mut output, &mut faults);
    assert!(rt; status == 0);
    assert!(rt; output.writer().taken.as_slice() == BOOK.as_bytes());
    assert!(rt; faults.writer().is_empty());
}
