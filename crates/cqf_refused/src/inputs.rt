//! Reading of bytes.
ghost use Rattle.std.specs.Prelude.{⊤};

use crate::program::is_wanting;
use cqf_output::Stop;
use cqf_program_engine::{Heard, MOST_BYTES, Source, read_input};
use cqf_refused_values::{Reported, mark, once, twice};
use std::alloc::Global;
use std::io;
use std::io::Read;

/// A reader that returns a number of bytes of value 1.
#[derive(Drop)]
struct Ones {
    left: usize,
}

impl Read for Ones {
    fn read(&mut self, buf: &mut [u8]) -> io::Result<usize> {
        let count = self.left.min(buf.len());
        self.left -= count;
        buf[..count].fill(1);
        Ok(count)
    }
}

/// It may fail with any error.
impl Source for Ones {
    ghost fails = { λ _. ⊤ };

    fn read_some(&mut self, buffer: &mut [u8]) -> io::Result<usize> {
        self.read(buffer)
    }
}

/// Whether all of this number of bytes were read.
fn is_heard(heard: &Heard<Ones>, read: &Result<(), Stop>, count: usize) -> bool {
    read.is_ok() && heard.bytes().len() == count && heard.bytes().iter().all(|byte| *byte == 1)
}

/// Whether the bytes of a fresh reader are read.
fn is_heard_again(alloc: Global, count: usize) -> bool {
    let mut input = Heard::new(alloc, Ones { left: count });
    let read = read_input(alloc, MOST_BYTES, &mut input);
    is_heard(&input, &read, count)
}

/// Tries to read this number of bytes. If memory is lacking, some of them are kept.
fn heard(alloc: Global, count: usize) -> Reported {
    let mut input = Heard::new(alloc, Ones { left: count });
    mark(alloc);
    let first = read_input(alloc, MOST_BYTES, &mut input);
    mark(alloc);
    if is_wanting(&first) {
        let stands = input.bytes().len() <= count && input.bytes().iter().all(|byte| *byte == 1);
        return twice(stands, is_heard_again(alloc, count));
    }
    once(is_heard(&input, &first, count))
}

pub(crate) fn input_reported(alloc: Global) -> Reported {
    heard(alloc, 70_000)
}

pub(crate) fn long_reported(alloc: Global) -> Reported {
    heard(alloc, 3_500_000)
}
