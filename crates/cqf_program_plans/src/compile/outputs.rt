//! The output of `compile`.
ghost use Rattle.cqf_program_plans.specs.Compile.Written.{text_of_config};
ghost use Rattle.cqf_output.specs.Edge.{IsWritten, writing};

use cqf_compile::{Plan, put_config};
use cqf_model::Row;
use cqf_output::{Buffer, CheckedSink, Sink, Writer};
use std::marker::Model;

/// The output of `compile` before it is written: the plan of a domain, the rows of its streams by number, and a buffer.
#[derive(Drop)]
pub struct ConfigOutput {
    pub(crate) plan: Plan,
    pub(crate) rows: Vec<Row>,
    pub(crate) buffer: Buffer,
}

impl Model for ConfigOutput {
    ghost use Rattle.cqf_compile.specs.ConfigLines.{IsReadyConfig};
    ghost use Rattle.cqf_program_plans.specs.Compile.Written.{ConfiguredPlan};

    ghost Value = { ConfiguredPlan };

    ghost view = { λ o. record { domain = o.plan; rows = o.rows.items } };

    ghost invariant = { λ o. IsReadyConfig o.plan o.rows.items };
}

impl ConfigOutput {
    /// Writes the output: the configuration, as `cqf_compile::write_config` gives it. It allocates no memory.
    pub fn write<W: Sink>(self, reported: &mut CheckedSink<W>)
        ensures { IsWritten (writing W.contents reported.old reported.new) (text_of_config self) }
    {
        let ConfigOutput { plan, rows, buffer } = self;
        let mut writer = Writer::new(reported, buffer);
        put_config(&mut writer, &plan, rows.as_slice());
        let _written = writer.close();
    }
}
