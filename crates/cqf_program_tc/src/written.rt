//! The script, written line by line.
ghost use Rattle.cqf_addressing.specs.Streams.{gate_index};
ghost use Rattle.cqf_output.specs.Edge.{IsWritten, writing};
ghost use Rattle.cqf_output.specs.Writer.{Puts};
ghost use Rattle.cqf_program_tc.specs.Output.{IsReadyPlan, text_of_tc};
ghost use Rattle.cqf_program_tc.specs.Rows.{indices_in};
ghost use Rattle.cqf_program_tc.specs.Text.{bridges_text, functions_text, tc_text};
ghost use Rattle.cqf_program_tc.specs.Words.{gate_words};
ghost use Rattle.std.specs.Prelude.{◌≡◌};

use crate::bridges::put_bridge_function;
use crate::checks::put_checks;
use crate::frame::{
    put_choice, put_gate_function, put_given, put_link_function, put_link_note,
    put_no_gates_function, put_notes, put_old_gates_function, put_opening, put_usage,
};
use crate::lists::put_list_gates;
use crate::outputs::TcOutput;
use crate::plan::Plan;
use crate::program::put_program;
use cqf_model::Row;
use cqf_output::{CheckedSink, Sink, Writer};
use cqf_topology::Domain;

/// Puts one function per bridge.
fn put_bridges<W: Sink>(writer: &mut Writer<'_, W>, plan: Plan<'_>, indices: &[Vec<usize>])
    requires { IsReadyPlan plan.domain.now plan.rows.now (indices_in indices.now) plan.links.now plan.streams.now }
    ensures { Puts W.contents writer.old writer.new
        (bridges_text plan.entry.domain.now (gate_index plan.entry.addresses.now) plan.entry.rows.now) }
{
    for bridge in 0..plan.domain.bridges() {
        let here = indices[usize::from(bridge)].as_slice();
        put_bridge_function(writer, plan, bridge, here);
    }
}

/// Puts the functions that bridges call, with the words of the lists of gates.
fn put_functions<W: Sink>(
    writer: &mut Writer<'_, W>,
    domain: &Domain,
    software: bool,
    rows: &[Row],
    gate_list: &[u8],
)
    requires { gate_list.now ≡ gate_words domain.now.cycle_time }
    ensures { Puts W.contents writer.old writer.new (functions_text domain.now software rows.now) }
{
    put_checks(writer);
    put_program(writer, domain, software);
    put_link_note(writer, domain);
    put_link_function(writer, domain, software);
    put_old_gates_function(writer, domain);
    put_no_gates_function(writer);
    put_gate_function(writer, domain, software, gate_list);
    put_list_gates(writer, software, rows);
}

/// Puts the script of a plan, with the words of the lists of gates. It is known which streams leave each bridge.
fn put_script<W: Sink>(
    writer: &mut Writer<'_, W>,
    plan: Plan<'_>,
    software: bool,
    indices: &[Vec<usize>],
    gate_list: &[u8],
)
    requires ready { IsReadyPlan plan.domain.now plan.rows.now (indices_in indices.now) plan.links.now plan.streams.now }
    requires words { gate_list.now ≡ gate_words plan.domain.now.cycle_time }
    ensures { Puts W.contents writer.old writer.new
        (tc_text plan.entry.domain.now software (gate_index plan.entry.addresses.now) plan.entry.rows.now) }
{
    put_usage(writer, plan.domain, plan.rows);
    put_notes(writer, plan.domain, software);
    put_opening(writer, plan.domain);
    put_given(writer, plan.domain, plan.rows);
    put_functions(writer, plan.domain, software, plan.rows, gate_list);
    put_bridges(writer, plan, indices);
    put_choice(writer, plan.domain, software);
}

impl TcOutput {
    /// Writes the output: the script. It allocates no memory.
    pub fn write<W: Sink>(self, written: &mut CheckedSink<W>)
        ensures { IsWritten (writing W.contents written.old written.new) (text_of_tc self) }
    {
        let TcOutput {
            plan,
            gate_words,
            software,
            buffer,
        } = self;
        let mut writer = Writer::new(written, buffer);
        put_script(
            &mut writer,
            plan.as_plan(),
            software,
            plan.indices.as_slice(),
            gate_words.as_slice(),
        );
        let _written = writer.close();
    }
}
