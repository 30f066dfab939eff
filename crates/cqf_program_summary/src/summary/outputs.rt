//! The output of `summary`, before it is written.
ghost use Rattle.cqf_output.specs.Edge.{IsWritten, writing};
ghost use Rattle.cqf_program_summary.specs.Summary.Text.{text_of_summary};

use crate::summary::lines::put_summary;
use crate::summary::sums::StreamSums;
use cqf_output::{Buffer, CheckedSink, Sink, Writer};
use std::marker::Model;

/// The data of the output of `summary`: the counts of each stream, and a buffer. In contracts it is the summary.
#[derive(Drop)]
pub struct SummaryOutput {
    pub(crate) sums: StreamSums,
    pub(crate) buffer: Buffer,
}

impl Model for SummaryOutput {
    ghost use Rattle.cqf_program_summary.specs.Summary.{Summary};

    ghost Value = { Summary };

    ghost view = { λ o. o.sums };
}

impl SummaryOutput {
    /// Writes the output: a row for each stream and listener, in order, and one of other names. Allocates no memory.
    pub fn write<W: Sink>(self, reported: &mut CheckedSink<W>)
        ensures { IsWritten (writing W.contents reported.old reported.new) (text_of_summary self) }
    {
        let SummaryOutput { sums, buffer } = self;
        let mut writer = Writer::new(reported, buffer);
        put_summary(&mut writer, &sums);
        let _written = writer.close();
    }
}
