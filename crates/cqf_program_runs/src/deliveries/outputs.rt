//! The output of `deliveries`, before it is written.
ghost use Rattle.std.specs.Prelude.{ℕ, List};
ghost use Rattle.cqf_output.specs.Edge.{IsWritten, writing};
ghost use Rattle.cqf_program_runs.specs.Deliveries.Following.{AreDeliveriesWritten};

use crate::deliveries::few::Few;
use crate::deliveries::lines::put_deliveries;
use crate::deliveries::noted::Noted;
use crate::deliveries::reading::PlannedGiven;
use crate::deliveries::under_way::UnderWay;
use cqf_output::{Buffer, CheckedSink, Sink, Writer};
use std::marker::Model;

/// The data of the output of `deliveries`: a scenario with its notes, its frames under way, room for the deliveries of
/// one offer, and a buffer.
#[derive(Drop)]
pub struct DeliveriesOutput {
    pub(crate) planned: PlannedGiven,
    pub(crate) cycles: u32,
    pub(crate) noted: Noted,
    pub(crate) under_way: UnderWay,
    pub(crate) here: Few,
    pub(crate) buffer: Buffer,
}

impl Model for DeliveriesOutput {
    ghost use Rattle.cqf_program_runs.specs.Deliveries.Following.{CanBeWritten, Ending};

    ghost Value = { Ending };

    ghost view = { λ o. record { planned = o.planned; cycles = o.cycles; noted = o.noted; under_way = o.under_way } };

    ghost invariant = { λ o. CanBeWritten (record { planned = o.planned; cycles = o.cycles; noted = o.noted; under_way = o.under_way }) };
}

impl DeliveriesOutput {
    /// Writes the output: the deliveries, in their order. Allocates no memory.
    pub fn write<W: Sink>(self, reported: &mut CheckedSink<W>)
        ensures { (text : List ℕ) → AreDeliveriesWritten self text → IsWritten (writing W.contents reported.old reported.new) text }
    {
        let DeliveriesOutput {
            planned,
            cycles,
            noted,
            under_way,
            here,
            buffer,
        } = self;
        let mut writer = Writer::new(reported, buffer);
        put_deliveries(&mut writer, here, under_way, &noted.over(&planned, cycles));
        let _written = writer.close();
    }
}
