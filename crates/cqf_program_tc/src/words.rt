//! Gate lists as words of `tc`.
ghost use Rattle.std.specs.Prelude.{ℕ, ◌≡◌, ◌<◌, ◌^◌, ◌++◌, IfOk, Ok, Some, codes, string_bytes};
ghost use Rattle.cqf_gates.specs.GateListText.{line_of_gates};
ghost use Rattle.cqf_model.specs.Paces.{each_cycle};
ghost use Rattle.cqf_gates.specs.ReservedSpans.{reserved_spans};
ghost use Rattle.cqf_output.specs.Writer.{Puts};
ghost use Rattle.cqf_program_tc.specs.Words.{gate_of_words, gate_words, tx_of_words, tx_words};

use cqf_compile::put_gates;
use cqf_gates::TxList;
use cqf_output::{Sink, Writer};
use cqf_units::Memory;
use std::alloc::{AllocError, Global};

/// Puts the words of an entry of a port's list.
fn put_entry<W: Sink>(writer: &mut Writer<'_, W>, states: u8, interval: u32)
    ensures words { Puts W.contents writer.old writer.new (codes " sched-entry S " ++ line_of_gates (states, interval)) }
    ensures ranges { (states < 256) × (interval < 2 ^ 32) }
{
    writer.put(b" sched-entry S ");
    put_gates(writer, states, interval);
}

/// Puts the words of `tc` that set the list of a port, each after a space: for each entry `sched-entry S`, the states in two upper-case
/// hexadecimal digits, in which bit k is class k, and the interval in nanoseconds. Read back, they give the same list (man tc-taprio).
pub(crate) fn put_tx_words<W: Sink>(writer: &mut Writer<'_, W>, list: &TxList)
    ensures words { Puts W.contents writer.old writer.new (tx_words list.now) }
    ensures again { tx_of_words (tx_words list.now) ≡ Some (Ok list.now) }
{
    for entry in list.entries() {
        put_entry(writer, entry.0, entry.1);
    }
}

/// Returns the words of the list of a stream's gate, as a text.
fn gate_words_of(alloc: Global, cycle_time: u32) -> Result<String, AllocError>
    ensures words { IfOk result (λ words. string_bytes words ≡ gate_words cycle_time) }
    ensures range { cycle_time < 2 ^ 32 }
{
    let words = format!(in alloc;
        " sched-entry open {cycle_time} 6 \"$5\" sched-entry open {cycle_time} 7 \"$5\""
    )?;
    Ok(words)
}

/// Returns the words of `tc` that set the list of a stream's gate, in the script's function whose fifth parameter is the reservation in
/// octets. For each of two cycles, of `cycle_time` nanoseconds, there are `sched-entry open`, the cycle's length, the internal priority
/// value and that parameter, each after a space. With the octets of a reservation they are read back as the list to which the gate of a
/// stream that is offered in each cycle is compiled (man tc-gate). Returns `Memory` if an allocation fails.
pub fn write_gate_words(alloc: Global, cycle_time: u32) -> Result<Vec<u8>, Memory>
    ensures words { IfOk result (λ words. words.items ≡ gate_words cycle_time) }
    ensures again { IfOk result (λ words. (octets : ℕ) → gate_of_words octets words.items ≡ Some (reserved_spans cycle_time octets each_cycle 0)) }
{
    let words = gate_words_of(alloc, cycle_time)?;
    Ok(Vec::from_slice(alloc, words.as_bytes())?)
}
