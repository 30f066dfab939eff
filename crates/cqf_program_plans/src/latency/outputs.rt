//! The output of `latency`, before it is written.

use crate::latency::latencies::Latency;
use cqf_output::Buffer;
use std::marker::Model;

/// The output of `latency` before it is written: the latencies, and a buffer. Contracts see only the latencies.
#[derive(Drop)]
pub struct LatencyOutput {
    pub(crate) latencies: Vec<Latency>,
    pub(crate) buffer: Buffer,
}

impl Model for LatencyOutput {
    ghost use Rattle.std.specs.Prelude.{List};
    ghost use Rattle.cqf_program_plans.specs.declared.latency.latencies.Latency.{Latency as ALatency};

    ghost Value = { List ALatency };

    ghost view = { λ o. o.latencies.items };
}
