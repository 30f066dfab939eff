//! The program over readers and writers that fail, and over each prefix of its input: a frame of one stream goes along
//! three bridges.

ghost use Rattle.std.specs.Prelude.{⊤};

use cqf_program_engine::{CheckedSink, Heard, Sink, Source, engine};
use std::alloc::Global;
use std::io;
use std::io::{ErrorKind, Read, Write};
use std::sync::Wait;
use std::thread::Threads;

/// The input, with the words in its first line.
const RUN: &str =
    "run --cycles 5\ncycle = 125000\nguard = 5000\nbridges = [\"a\", \"b\", \"c\"]\nstations = [\"s\"]\n\
    \n[[links]]\nfrom = \"a\"\nto = \"b\"\nrate = 1000\ndelay = 500\n\
    \n[[links]]\nfrom = \"b\"\nto = \"c\"\nrate = 1000\ndelay = 500\n\
    \n[[links]]\nfrom = \"c\"\nto = \"s\"\nrate = 1000\ndelay = 500\n\
    %%\n[[streams]]\nname = \"x\"\noctets = 1500\npath = [\"a\", \"b\", \"c\", \"s\"]\n\
    %%\n0 admit x\n%%\nat,bridge,stream,octets\n0,a,x,64\n";

/// Its output.
const WRITTEN: &str = "0 admit x accepted 0 0\n1 seal\n1 seal\n1 seal\n1 seal\n1 seal\n%%\n\
    what,cycle,where,frame,octets,detail\n\
    start,1,a>b,1,64,125000\nstart,2,b>c,1,64,250000\nstart,3,c>s,1,64,375000\n";

/// The output if nothing is offered.
const NOTHING_OFFERED: &str = "0 admit x accepted 0 0\n1 seal\n1 seal\n1 seal\n1 seal\n1 seal\n%%\n\
    what,cycle,where,frame,octets,detail\n";

/// The words in the first line.
const WORDS: &[&str] = &["run", "--cycles", "5"];

/// The number of bytes of the words and the end of their line.
const WORDS_END: usize = 15;

/// The words for the sums by link.
const REPORT: &[&str] = &["report", "--cycles", "5"];

/// The sums by link.
const SUMS: &str = "link,frames,octets,most\na>b,1,64,64\nb>c,1,64,64\nc>s,1,64,64\n";

/// A reader that returns a text in pieces of at most 7 bytes, and fails after a number of reads.
#[derive(Drop)]
struct Breaks {
    text: &'static [u8],
    reads: usize,
}

impl Read for Breaks {
    fn read(&mut self, buf: &mut [u8]) -> io::Result<usize> {
        if self.reads == 0 {
            return Err(io::Error::from(ErrorKind::Other));
        }
        self.reads -= 1;
        let (mut piece, rest) = self.text.split_at(self.text.len().min(7).min(buf.len()));
        self.text = rest;
        piece.read(buf)
    }
}

/// It may fail with any error.
impl Source for Breaks {
    ghost fails = { λ _. ⊤ };

    fn read_some(&mut self, buffer: &mut [u8]) -> io::Result<usize> {
        self.read(buffer)
    }
}

/// A reader that never ends.
#[derive(Drop)]
struct Endless;

impl Read for Endless {
    fn read(&mut self, buf: &mut [u8]) -> io::Result<usize> {
        Ok(buf.len())
    }
}

/// It may fail with any error.
impl Source for Endless {
    ghost fails = { λ _. ⊤ };

    fn read_some(&mut self, buffer: &mut [u8]) -> io::Result<usize> {
        self.read(buffer)
    }
}

/// How a writer refuses once it has no room: it fails, takes nothing without failing, or fails only when it is flushed.
#[derive(Clone, Copy)]
enum Refusal {
    Fails,
    TakesNothing,
    FailsWhenFlushed,
}

/// A writer that takes a number of bytes, and then refuses.
#[derive(Drop)]
struct Narrow {
    room: usize,
    refusal: Refusal,
    taken: Vec<u8>,
}

impl Write for Narrow {
    fn write(&mut self, buf: &[u8]) -> io::Result<usize> {
        let count = self.room.min(buf.len());
        if count == 0 && matches!(self.refusal, Refusal::Fails) {
            return Err(io::Error::from(ErrorKind::BrokenPipe));
        }
        self.room -= count;
        self.taken.write(&buf[..count])
    }

    fn flush(&mut self) -> io::Result<()> {
        match self.refusal {
            Refusal::FailsWhenFlushed => Err(io::Error::from(ErrorKind::Other)),
            _ => Ok(()),
        }
    }
}

/// It may refuse with any error.
impl Sink for Narrow {
    ghost refuses = { λ _. ⊤ };

    fn write_some(&mut self, bytes: &[u8]) -> io::Result<usize> {
        self.write(bytes)
    }

    fn hand_on(&mut self) -> io::Result<()> {
        self.flush()
    }
}

/// More bytes than any text here has.
const WIDE: usize = 100_000;

/// The expected end of a run: its status, the text on its output, whether the output has refused anything, and the text
/// on the writer of faults. If no text of faults is given, there is one if and only if the status isn't 0.
#[derive(Clone, Copy)]
struct End {
    status: u8,
    output: &'static str,
    is_refused: bool,
    faults: Option<&'static str>,
}

/// All is written.
const DONE: End = End {
    status: 0,
    output: WRITTEN,
    is_refused: false,
    faults: Some(""),
};

/// A read fails.
const INPUT_FAULT: End = End {
    status: 4,
    output: "",
    faults: Some("cqf: input fault\n"),
    ..DONE
};

/// A write or a flush fails.
const OUTPUT_FAULT: End = End {
    status: 4,
    is_refused: true,
    faults: Some("cqf: output fault\n"),
    ..DONE
};

/// The input is refused, with any line.
const REFUSED: End = End {
    status: 1,
    output: "",
    faults: None,
    ..DONE
};

/// Whether a run ended as expected.
fn is_end(
    status: u8,
    output: &CheckedSink<Narrow>,
    faults: &CheckedSink<Narrow>,
    wanted: End,
) -> bool {
    let line = faults.writer().taken.as_slice();
    let is_written = match wanted.faults {
        Some(text) => line == text.as_bytes(),
        None => line.is_empty() == (status == 0),
    };
    is_written
        && status == wanted.status
        && output.is_refused() == wanted.is_refused
        && output.writer().taken.as_slice() == wanted.output.as_bytes()
}

/// Whether a run ends as expected, if its output and its writer of faults have this room, and its output refuses in
/// this way.
fn ends<R: Source + Drop>(
    rt: &(impl Threads + Wait + Sync),
    alloc: Global,
    words: &[&str],
    input: R,
    writers: (usize, Refusal, usize),
    wanted: End,
) -> bool {
    let (room, refusal, room_for_faults) = writers;
    let mut input = Heard::new(alloc, input);
    let mut output = CheckedSink::new(Narrow {
        room,
        refusal,
        taken: Vec::new(alloc),
    });
    let mut faults = CheckedSink::new(Narrow {
        room: room_for_faults,
        refusal: Refusal::Fails,
        taken: Vec::new(alloc),
    });
    let status = engine(rt, alloc, words, &mut input, &mut output, &mut faults);
    is_end(status, &output, &faults, wanted)
}

/// Writers that take everything.
const OPEN: (usize, Refusal, usize) = (WIDE, Refusal::Fails, WIDE);

/// Returns how a run over the input without its last `missing` bytes ends. There is a table of offers if its header is
/// complete, and an offer if its octets are 64.
fn end_without(missing: usize) -> End {
    match missing {
        // the line feed of the last row may be missing
        0 | 1 => DONE,
        // so may the row, and also the line feed of the header
        9 | 10 => End {
            output: NOTHING_OFFERED,
            ..DONE
        },
        _ => REFUSED,
    }
}

/// Returns how a run over the first `cut` bytes of the input ends. If the words are cut short, they are a mistake.
fn end_of_front(cut: usize) -> End {
    if cut < WORDS_END - 1 {
        return End {
            status: 2,
            ..REFUSED
        };
    }
    end_without(RUN.len().saturating_sub(cut))
}

#[test]
fn each_front_of_the_input_ends_with_its_first_fault(rt: HostRuntime) {
    let input = RUN.as_bytes();
    for cut in 0..=input.len() {
        let end = end_of_front(cut);
        assert!(rt;
            ends(&rt, rt.alloc(), &[], &input[..cut], OPEN, end),
            "at {cut}"
        );
    }
}

#[test]
fn each_front_of_the_parts_ends_with_its_first_fault(rt: HostRuntime) {
    let input = &RUN.as_bytes()[WORDS_END..];
    for cut in 0..=input.len() {
        let end = end_without(input.len() - cut);
        assert!(rt;
            ends(&rt, rt.alloc(), WORDS, &input[..cut], OPEN, end),
            "at {cut}"
        );
    }
}

/// The number of reads that return all of the input, 368 bytes, and then its end.
const READS: usize = 54;

/// Whether a run with this number of reads ends as expected.
fn read_ends(
    rt: &(impl Threads + Wait + Sync),
    alloc: Global,
    words: &[&str],
    reads: usize,
    wanted: End,
) -> bool {
    let from = if words.is_empty() { 0 } else { WORDS_END };
    let text = &RUN.as_bytes()[from..];
    ends(rt, alloc, words, Breaks { text, reads }, OPEN, wanted)
}

#[test]
fn a_reader_that_fails_at_each_place_is_written(rt: HostRuntime) {
    for reads in 0..READS {
        assert!(rt;
            read_ends(&rt, rt.alloc(), &[], reads, INPUT_FAULT),
            "at {reads}"
        );
    }
    assert!(rt; read_ends(&rt, rt.alloc(), &[], READS, DONE));
    for reads in 0..3 {
        assert!(rt;
            read_ends(&rt, rt.alloc(), WORDS, reads, INPUT_FAULT),
            "at {reads}"
        );
    }
}

#[test]
fn a_reader_that_never_ends_is_left(rt: HostRuntime) {
    let end = End {
        faults: Some("cqf: input too long\n"),
        ..REFUSED
    };
    assert!(rt; ends(&rt, rt.alloc(), &["compile"], Endless, OPEN, end));
}

/// Returns how a run ends whose output has this room and whose whole output is this text.
fn end_in_room(room: usize, text: &'static str) -> End {
    match text.get(..room) {
        Some(front) if room < text.len() => End {
            output: front,
            ..OUTPUT_FAULT
        },
        _ => End {
            output: text,
            ..DONE
        },
    }
}

/// Whether a run whose output refuses in this way, at any index, leaves exactly the prefix of this text up to that
/// index.
fn leaves_each_front(
    rt: &(impl Threads + Wait + Sync),
    alloc: Global,
    words: &[&str],
    refusal: Refusal,
    text: &'static str,
) -> bool {
    let input = &RUN.as_bytes()[WORDS_END..];
    for room in 0..=text.len() {
        let writers = (room, refusal, WIDE);
        if !ends(rt, alloc, words, input, writers, end_in_room(room, text)) {
            return false;
        }
    }
    true
}

#[test]
fn a_writer_that_refuses_at_each_place_is_written(rt: HostRuntime) {
    for refusal in [Refusal::Fails, Refusal::TakesNothing] {
        assert!(rt; leaves_each_front(&rt, rt.alloc(), WORDS, refusal, WRITTEN));
        assert!(rt; leaves_each_front(&rt, rt.alloc(), REPORT, refusal, SUMS));
    }
}

#[test]
fn a_flush_that_fails_is_written(rt: HostRuntime) {
    let writers = (WIDE, Refusal::FailsWhenFlushed, WIDE);
    assert!(rt; ends(&rt, rt.alloc(), &[], RUN.as_bytes(), writers, OUTPUT_FAULT));
}

#[test]
fn a_writer_of_faults_that_fails_changes_no_status(rt: HostRuntime) {
    let end = End {
        faults: Some(""),
        ..REFUSED
    };
    let writers = (WIDE, Refusal::Fails, 0);
    assert!(rt; ends(&rt, rt.alloc(), WORDS, b"%%\n".as_slice(), writers, end));
}

#[test]
fn wrong_words_come_before_what_fails(rt: HostRuntime) {
    let reader = Breaks {
        text: b"",
        reads: 0,
    };
    let end = End {
        status: 2,
        ..REFUSED
    };
    let words = ["port", "--until", "0"];
    let writers = (0, Refusal::Fails, WIDE);
    assert!(rt; ends(&rt, rt.alloc(), &words, reader, writers, end));
}
