//! The command `port`: the starts of one output port before an instant.
ghost use Rattle.std.specs.Prelude.{◌≡◌, ◌≢◌, ◌<◌, ◌^◌, [], Ok, IfOk, IfErr};
ghost use Rattle.cqf_gates.specs.TxText.{list_of_text};
ghost use Rattle.cqf_output.specs.Edge.{IsWritten, writing};
ghost use Rattle.cqf_report.specs.Arrivals.{arrivals_of_table};
ghost use Rattle.cqf_port.specs.PortState.{rules_of};
ghost use Rattle.cqf_output.specs.Stops.{EndsWith, IsRefused, or_line};
ghost use Rattle.cqf_program_plans.specs.Port.Output.{arrivals_line, list_line, port_input, AreOfferable, IsStartsText, IsPortOutput};
ghost use Rattle.cqf_program_plans.specs.Port.Written.{text_of_port};

use crate::port::outputs::PortOutput;
use cqf_gates::{TextFault, TxList, read_tx};
use cqf_output::{Buffer, CheckedSink, Sink, Stop, Writer};
use cqf_port::{Arrival, Port};
use cqf_program_scenario::{put_starts_of_port, two_parts};
use cqf_report::{TableFault, read_arrivals};
use cqf_units::{Memory, Nanos, Rate};
use std::alloc::Global;

/// Returns the end of a command whose gate list is refused.
fn list_stop(alloc: Global, fault: TextFault) -> Stop
    ensures { EndsWith 1 (list_line fault) result }
{
    Stop::refused(alloc, "list", &fault)
}

/// Reads the gate list of a part.
fn list_part(alloc: Global, text: &[u8]) -> Result<TxList, Stop>
    ensures ok { IfOk result (λ list. list_of_text text.now ≡ Ok list) }
    ensures err { IfErr result (IsRefused (or_line list_line (list_of_text text.now))) }
{
    match read_tx(text) {
        Ok(list) => Ok(list),
        Err(fault) => Err(list_stop(alloc, fault)),
    }
}

/// Returns the end of a command whose arrivals are refused.
fn arrivals_stop(alloc: Global, fault: TableFault) -> Stop
    ensures refused { fault ≢ TableFault.Memory → EndsWith 1 (arrivals_line fault) result }
    ensures memory { fault ≡ TableFault.Memory → EndsWith 3 [] result }
{
    match fault {
        TableFault::Memory => Stop::memory(alloc),
        _ => Stop::refused(alloc, "arrivals", &fault),
    }
}

/// Reads the arrivals of a part.
fn arrivals_part(alloc: Global, text: &[u8]) -> Result<Vec<Arrival>, Stop>
    ensures ok { IfOk result (λ arrivals. arrivals_of_table text.now ≡ Ok arrivals.items) }
    ensures order { IfOk result (λ arrivals. AreOfferable arrivals.items) }
    ensures err { IfErr result (IsRefused (or_line arrivals_line (arrivals_of_table text.now))) }
{
    match read_arrivals(alloc, text) {
        Ok(arrivals) => Ok(arrivals),
        Err(fault) => Err(arrivals_stop(alloc, fault)),
    }
}

/// Reads the gate list and the arrivals of the input.
fn read_port(alloc: Global, input: &[u8]) -> Result<(TxList, Vec<Arrival>), Stop>
    ensures ok { IfOk result (λ found. port_input input.now ≡ Ok (found.0, found.1.items)) }
    ensures order { IfOk result (λ found. AreOfferable found.1.items) }
    ensures err { IfErr result (IsRefused (port_input input.now)) }
{
    let (list_text, arrivals_text) = two_parts(alloc, input)?;
    let list = list_part(alloc, list_text)?;
    let arrivals = arrivals_part(alloc, arrivals_text)?;
    Ok((list, arrivals))
}

/// Returns the starts before the instant, ready to be written.
fn starts_ready(
    alloc: Global,
    list: TxList,
    rate: Rate,
    arrivals: Vec<Arrival>,
    until: u64,
) -> Result<PortOutput, Memory>
    requires early { until < 2 ^ 62 }
    requires offerable { AreOfferable arrivals.items }
    ensures { IfOk result (λ output. IsStartsText (rules_of list rate) arrivals.items until rate (text_of_port output)) }
{
    let mut port = Port::with_arrivals(alloc, list, rate, arrivals);
    port.run_to(Nanos(until))?;
    let buffer = Buffer::new(alloc)?;
    Ok(PortOutput { port, rate, buffer })
}

impl PortOutput {
    /// Writes the output: the starts before the instant. It allocates no memory.
    pub fn write<W: Sink>(self, reported: &mut CheckedSink<W>)
        ensures { IsWritten (writing W.contents reported.old reported.new) (text_of_port self) }
    {
        let PortOutput { port, rate, buffer } = self;
        let mut writer = Writer::new(reported, buffer);
        put_starts_of_port(&mut writer, port.arrivals(), port.starts(), rate);
        let _written = writer.close();
    }
}

/// Returns the output of `port`, ready to be written: the starts before `until` nanoseconds, which is below 2^62.
///
/// # Errors
/// With status 1 and the line of the first fault of the input: of its parts, of the gate list, or of the arrivals. With status 3 if an allocation
/// fails.
pub fn port_output(alloc: Global, until: u64, rate: Rate, input: &[u8]) -> Result<PortOutput, Stop>
    requires { until < 2 ^ 62 }
    ensures ok { IfOk result (λ output. IsPortOutput until rate input.now (text_of_port output)) }
    ensures err { IfErr result (IsRefused (port_input input.now)) }
{
    let (list, arrivals) = read_port(alloc, input)?;
    match starts_ready(alloc, list, rate, arrivals, until) {
        Ok(output) => Ok(output),
        Err(_) => Err(Stop::memory(alloc)),
    }
}
