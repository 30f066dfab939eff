//! The starts of a port, written line by line.

ghost use Rattle.std.specs.Prelude.{◌<◌, ◌^◌, length, map};
ghost use Rattle.cqf_port.specs.PortState.{start_of};
ghost use Rattle.cqf_output.specs.Writer.{Puts};
ghost use Rattle.cqf_report.specs.Starts.{lines_of_port, start_fields, text_of_starts};
ghost use Rattle.cqf_report.specs.Written.{line_of_fields};
ghost use Rattle.cqf_program_scenario.specs.PortLines.{AreExpressible};
ghost use Rattle.cqf_units.specs.Timing.{ticks_of_octet};

use cqf_model::{Arrival, Start};
use cqf_output::{Sink, Writer};
use cqf_report::{put_port_header, put_port_start};
use cqf_units::{Nanos, Rate};

/// Puts the line of a start, given by the index of its arrival and its instant, with the instant at which its frame ends at this rate.
fn put_start_at<W: Sink>(
    writer: &mut Writer<'_, W>,
    arrivals: &[Arrival],
    start: (usize, u64),
    rate: Rate,
)
    requires inside { start.0 < length arrivals.now }
    requires early { start.1 < 2 ^ 63 }
    ensures { Puts W.contents writer.old writer.new (line_of_fields (start_fields (ticks_of_octet rate) (start_of arrivals.now start))) }
{
    let (index, instant) = start;
    let arrival = arrivals[index];
    let started = Start {
        start: Nanos(instant),
        class: arrival.class,
        octets: arrival.octets,
        frame: arrival.frame,
    };
    put_port_start(writer, &started, rate);
}

/// Puts a line for each start.
fn put_each<W: Sink>(
    writer: &mut Writer<'_, W>,
    arrivals: &[Arrival],
    starts: &[(usize, u64)],
    rate: Rate,
)
    requires { AreExpressible arrivals.now starts.now }
    ensures { Puts W.contents writer.old writer.new (lines_of_port (ticks_of_octet rate) (map (start_of arrivals.now) starts.now)) }
{
    for start in starts {
        put_start_at(writer, arrivals, *start, rate);
    }
}

/// Puts the text of a port's starts at a rate, as `cqf_report::write_starts` gives it. Each start is given by the index of its arrival
/// among the arrivals, from 0, and its instant, before 2^63 ns.
pub fn put_starts_of_port<W: Sink>(
    writer: &mut Writer<'_, W>,
    arrivals: &[Arrival],
    starts: &[(usize, u64)],
    rate: Rate,
)
    requires { AreExpressible arrivals.now starts.now }
    ensures { Puts W.contents writer.old writer.new (text_of_starts (ticks_of_octet rate) (map (start_of arrivals.now) starts.now)) }
{
    put_port_header(writer);
    put_each(writer, arrivals, starts, rate);
}
