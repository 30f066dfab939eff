//! The output of `port`, before it is written.

use cqf_output::Buffer;
use cqf_port::Port;
use cqf_units::Rate;
use std::marker::Model;

/// The output of `port` before it is written: a port with its starts, the rate of its link, and a buffer.
#[derive(Drop)]
pub struct PortOutput {
    pub(crate) port: Port,
    pub(crate) rate: Rate,
    pub(crate) buffer: Buffer,
}

impl Model for PortOutput {
    ghost use Rattle.std.specs.Prelude.{map};
    ghost use Rattle.cqf_port.specs.PortState.{start_of};
    ghost use Rattle.cqf_program_plans.specs.Port.Written.{StartsAtRate};
    ghost use Rattle.cqf_program_scenario.specs.PortLines.{AreExpressible};

    ghost Value = { StartsAtRate };

    ghost view = { λ o. record { starts = map (start_of o.port.arrivals) o.port.starts; rate = o.rate } };

    ghost invariant = { λ o. AreExpressible o.port.arrivals o.port.starts };
}
