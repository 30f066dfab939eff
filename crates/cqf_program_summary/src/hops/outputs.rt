//! The output of `hops`, before it is written.
ghost use Rattle.std.specs.Prelude.{ℕ, List};
ghost use Rattle.cqf_output.specs.Edge.{IsWritten, writing};
ghost use Rattle.cqf_program_summary.specs.Hops.Rounds.{IsWrittenText};

use crate::hops::lines::put_rounds;
use crate::hops::preparing::Prepared;
use crate::hops::steps::{HopsRun, LegsUnderWay};
use cqf_model::Offer;
use cqf_output::{Buffer, CheckedSink, Sink, Writer};
use cqf_topology::Domain;
use std::marker::Model;

/// The data of the output of `hops`: a domain, the offers, what was prepared for their frames, and a buffer.
#[derive(Drop)]
pub struct HopsOutput {
    pub(crate) domain: Domain,
    pub(crate) offers: Vec<Offer>,
    pub(crate) prepared: Prepared,
    pub(crate) buffer: Buffer,
}

impl Model for HopsOutput {
    ghost use Rattle.cqf_program_summary.specs.Hops.Prepared.{written_with};
    ghost use Rattle.cqf_program_summary.specs.Hops.Rounds.{SomeCanBeWritten, WrittenHops};

    ghost Value = { WrittenHops };

    ghost view = { λ o. written_with o.domain o.offers.items o.prepared };

    ghost invariant = { λ o. SomeCanBeWritten (written_with o.domain o.offers.items o.prepared) };
}

impl HopsOutput {
    /// Writes the output: the starts and drops of frames, in order. Allocates no memory.
    pub fn write<W: Sink>(self, reported: &mut CheckedSink<W>)
        ensures { (text : List ℕ) → IsWrittenText self text → IsWritten (writing W.contents reported.old reported.new) text }
    {
        let HopsOutput {
            domain,
            offers,
            prepared,
            buffer,
        } = self;
        let Prepared {
            wanted,
            drops,
            rounds,
            pass,
            kept,
            here,
        } = prepared;
        let run = HopsRun {
            offers: offers.as_slice(),
            choice: wanted.choice(),
            drops: drops.as_slice(),
        };
        let under_way = LegsUnderWay::at_first(pass, kept, here);
        let mut writer = Writer::new(reported, buffer);
        put_rounds(&mut writer, &domain, &run, rounds.as_slice(), under_way);
        let _written = writer.close();
    }
}
