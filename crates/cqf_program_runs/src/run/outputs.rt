//! The output of `run`, before it is written.
ghost use Rattle.std.specs.Prelude.{ℕ, List, codes, map};
ghost use Rattle.cqf_admission.specs.Asking.{asked_paced};
ghost use Rattle.cqf_admission.specs.Running.{AreThere};
ghost use Rattle.cqf_model.specs.Book.{Contents};
ghost use Rattle.cqf_output.specs.Edge.{IsWritten, writing};
ghost use Rattle.cqf_output.specs.Writer.{Puts};
ghost use Rattle.cqf_output.specs.Stops.{line_of};
ghost use Rattle.cqf_program_runs.specs.Run.Output.{run_text};
ghost use Rattle.cqf_program_runs.specs.Run.Written.{IsRunWritten};
ghost use Rattle.cqf_program_scenario.specs.ExactBooks.{AreExactParts};
ghost use Rattle.cqf_program_scenario.specs.Logged.{entries_in};

use cqf_admission::Logged;
use cqf_output::{Buffer, CheckedSink, Sink, Writer};
use cqf_program_scenario::{ExactBook, RunInput};
use cqf_report::put_log;
use std::marker::Model;

/// The data of the output of `run`: a scenario with the log of its history and its book, and a buffer.
#[derive(Drop)]
pub struct RunOutput {
    pub(crate) given: RunInput,
    /// The log's entries, which refer to the scenario's own requests and script.
    pub(crate) entries: Vec<Logged>,
    pub(crate) book: ExactBook,
    pub(crate) buffer: Buffer,
}

impl Model for RunOutput {
    ghost use Rattle.std.specs.Prelude.{map};
    ghost use Rattle.cqf_admission.specs.Asking.{asked_paced};
    ghost use Rattle.cqf_admission.specs.Running.{AreThere};
    ghost use Rattle.cqf_program_runs.specs.Run.Written.{RunToWrite};

    ghost Value = { RunToWrite };

    ghost view = { λ o. record { given = o.given; entries = o.entries.items; book = o.book } };

    ghost invariant = { λ o. AreThere (map asked_paced o.given.requests.items) o.given.script.items o.entries.items };
}

/// Puts the line `%%`.
fn put_parting<W: Sink>(writer: &mut Writer<'_, W>)
    ensures { Puts W.contents writer.old writer.new (line_of (codes "%%")) }
{
    writer.put(b"%%\n");
}

/// Puts the text of the history of a scenario's log and of a book that is ready to be written, separated by a line
/// `%%`.
fn put_run<W: Sink>(
    writer: &mut Writer<'_, W>,
    given: &RunInput,
    entries: &[Logged],
    book: ExactBook,
)
    requires { AreThere (map asked_paced given.now.requests.items) given.now.script.items entries.now }
    ensures { (of_parts : Contents) → AreExactParts book of_parts →
        Puts W.contents writer.old writer.new (run_text given.now.domain (entries_in given.now entries.now) of_parts) }
{
    let requests = given.requests.as_slice();
    let script = given.script.as_slice();
    put_log(writer, requests, script, entries);
    put_parting(writer);
    book.put(writer, &given.domain);
}

impl RunOutput {
    /// Writes the output: the history of the scenario, a line `%%`, and the one-thread book of that history. Allocates
    /// no memory.
    pub fn write<W: Sink>(self, reported: &mut CheckedSink<W>)
        ensures { (text : List ℕ) → IsRunWritten self text → IsWritten (writing W.contents reported.old reported.new) text }
    {
        let RunOutput {
            given,
            entries,
            book,
            buffer,
        } = self;
        let mut writer = Writer::new(reported, buffer);
        put_run(&mut writer, &given, entries.as_slice(), book);
        let _written = writer.close();
    }
}
