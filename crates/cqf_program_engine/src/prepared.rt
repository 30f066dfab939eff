//! An output, before it is written.
ghost use Rattle.std.specs.Prelude.{ℕ, ◌≡◌, ◌≤◌, List};
ghost use Rattle.cqf_program_engine.specs.Prepared.{IsTextOf, is_of_diff, status_after};
ghost use Rattle.cqf_output.specs.Edge.{IsWritten, writing};

use cqf_output::{CheckedSink, DONE, REFUSED, Sink, write_out};
use cqf_program_json::JsonOutput;
use cqf_program_plans::{ConfigOutput, LatencyOutput, LoadOutput, PortOutput, StreamLoadsOutput};
use cqf_program_runs::{DeliveriesOutput, LineOutput, RunOutput};
use cqf_program_summary::{HopsOutput, SummaryOutput};
use cqf_program_tc::{EnvOutput, TcOutput};
use cqf_program_threads::ThreadsOutput;

/// The data from which an output is written, with all the memory that this needs.
#[derive(Drop)]
pub enum PreparedOutput {
    /// The output itself.
    Text(Vec<u8>),
    /// That of `diff`, itself: what differs.
    Differences(Vec<u8>),
    /// That of `port`: the starts of a port.
    Port(PortOutput),
    /// That of `line`: a book.
    Line(LineOutput),
    /// That of `compile`: a domain, its streams and the gate list of each port.
    Config(ConfigOutput),
    /// That of `compile --format tc`: the same, for a script.
    Script(TcOutput),
    /// That of `compile --format env`: the same, for what the script reads at a bridge.
    Variables(EnvOutput),
    /// That of `compile --format json`: the same, for an object.
    Object(JsonOutput),
    /// That of `load`: a domain and its streams.
    Load(LoadOutput),
    /// That of `load --streams`: what each stream takes of each link.
    StreamLoads(StreamLoadsOutput),
    /// That of `latency`: a domain, its streams and their deadlines.
    Latency(LatencyOutput),
    /// That of `run`: a history and a book.
    Run(RunOutput),
    /// That of `run --threads`: the history and the book of an account.
    Account(ThreadsOutput),
    /// That of `deliveries`: what becomes of each offer at each listener.
    Deliveries(DeliveriesOutput),
    /// That of `summary`: counts of what becomes of frames.
    Summary(SummaryOutput),
    /// That of `hops`: frames' starts and drops.
    Hops(HopsOutput),
}

impl PreparedOutput {
    /// Returns the status after the output was written: 1 for that of `diff` if something differs, 0 for any other.
    pub(crate) fn status(&self) -> u8
        ensures value { (text : List ℕ) → IsTextOf self.now text → result ≡ status_after (is_of_diff self.now) text }
        ensures few { result ≤ 1 }
    {
        match self {
            PreparedOutput::Differences(text) if !text.is_empty() => REFUSED,
            _ => DONE,
        }
    }

    /// Writes the output: all of it or, if the writer refuses a part, its beginning. Allocates no memory.
    pub fn write<W: Sink>(self, reported: &mut CheckedSink<W>)
        ensures { (text : List ℕ) → IsTextOf self text → IsWritten (writing W.contents reported.old reported.new) text }
    {
        match self {
            PreparedOutput::Text(text) | PreparedOutput::Differences(text) => {
                write_out(reported, text.as_slice())
            }
            PreparedOutput::Port(output) => output.write(reported),
            PreparedOutput::Line(output) => output.write(reported),
            PreparedOutput::Config(output) => output.write(reported),
            PreparedOutput::Script(output) => output.write(reported),
            PreparedOutput::Variables(output) => output.write(reported),
            PreparedOutput::Object(output) => output.write(reported),
            PreparedOutput::Load(output) => output.write(reported),
            PreparedOutput::StreamLoads(output) => output.write(reported),
            PreparedOutput::Latency(output) => output.write(reported),
            PreparedOutput::Run(output) => output.write(reported),
            PreparedOutput::Account(output) => output.write(reported),
            PreparedOutput::Deliveries(output) => output.write(reported),
            PreparedOutput::Summary(output) => output.write(reported),
            PreparedOutput::Hops(output) => output.write(reported),
        }
    }
}
