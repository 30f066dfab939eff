//! The gates of streams that pause, in the script.
ghost use Rattle.std.specs.Prelude.{◌≡◌, ◌<◌};
ghost use Rattle.std.specs.List.{list_any};
ghost use Rattle.cqf_output.specs.Writer.{Puts};
ghost use Rattle.cqf_program_tc.specs.Bridge.{pauses};
ghost use Rattle.cqf_program_tc.specs.Text.{by_list_command, by_list_text, class_words, filter_words, list_gates_text, rounds_in};
ghost use Rattle.cqf_program_tc.specs.Words.{closed_words, entry_words, list_words, octets_word, open_words};

use cqf_gates::{StreamEntry, StreamList, is_shut};
use cqf_model::{MOST_EVERY, Row};
use cqf_output::{Sink, Writer};

/// After how many cycles the lists of ports and of streams of each cycle begin anew.
const ROUND: u64 = 2;

/// Returns whether the stream pauses between two of its own cycles.
pub(crate) fn pauses(row: &Row) -> bool
    ensures { result ≡ pauses row.now }
{
    row.pace.pause != 0
}

/// Returns whether one of the streams pauses.
fn some_pauses(rows: &[Row]) -> bool
    ensures { result ≡ list_any pauses rows.now }
{
    rows.iter().any(|row| pauses(row))
}

/// Returns after how many cycles all lists begin anew.
pub(crate) fn rounds_in(rows: &[Row]) -> u64
    ensures value { result ≡ rounds_in rows.now }
    ensures few { result < 81 }
{
    if some_pauses(rows) {
        u64::from(MOST_EVERY)
    } else {
        ROUND
    }
}

/// Puts octets, or -1 if there is no limit.
fn put_octets<W: Sink>(writer: &mut Writer<'_, W>, octet_max: Option<u32>)
    ensures { Puts W.contents writer.old writer.new (octets_word octet_max) }
{
    match octet_max {
        Some(most) => writer.put_number(most),
        None => writer.put(b"-1"),
    }
}

/// Puts the words of an entry in which frames may pass.
fn put_open_words<W: Sink>(writer: &mut Writer<'_, W>, entry: StreamEntry)
    ensures { Puts W.contents writer.old writer.new (open_words entry) }
{
    writer.put(b" sched-entry open ");
    writer.put_number(entry.interval);
    writer.put(b" ");
    writer.put_number(entry.ipv);
    writer.put(b" ");
    put_octets(writer, entry.octet_max);
}

/// Puts the words of an entry in which no frames may pass.
fn put_closed_words<W: Sink>(writer: &mut Writer<'_, W>, interval: u32)
    ensures { Puts W.contents writer.old writer.new (closed_words interval) }
{
    writer.put(b" sched-entry close ");
    writer.put_number(interval);
    writer.put(b" -1 -1");
}

/// Puts the words of an entry.
fn put_entry_words<W: Sink>(writer: &mut Writer<'_, W>, entry: StreamEntry)
    ensures { Puts W.contents writer.old writer.new (entry_words entry) }
{
    if is_shut(entry.octet_max) {
        put_closed_words(writer, entry.interval);
    } else {
        put_open_words(writer, entry);
    }
}

/// Puts the words of a gate's list, each after a space.
pub(crate) fn put_list_words<W: Sink>(writer: &mut Writer<'_, W>, gate: &StreamList)
    ensures { Puts W.contents writer.old writer.new (list_words gate.now) }
{
    for entry in gate.entries() {
        put_entry_words(writer, *entry);
    }
}

/// Returns the words of a filter between its kind and its keys.
pub(crate) fn filter_words(software: bool) -> &'static [u8]
    ensures { result.now ≡ filter_words software }
{
    if software {
        b"".as_slice()
    } else {
        b" skip_sw".as_slice()
    }
}

/// Returns the words of a filter's action before its gate.
pub(crate) fn class_words(software: bool) -> &'static [u8]
    ensures { result.now ≡ class_words software }
{
    if software {
        b" action bpf object-file \"$object\" section tc pipe".as_slice()
    } else {
        b"".as_slice()
    }
}

/// Puts the command that sets a stream's gate by the list passed to its function.
fn put_by_list_command<W: Sink>(writer: &mut Writer<'_, W>, software: bool)
    ensures { Puts W.contents writer.old writer.new (by_list_command software) }
{
    writer.put(
        b"    $tc filter add dev \"$gate_at\" ingress chain \"$chain\" protocol 802.1Q pref \"$gate_no\" handle \"$gate_no\" flower",
    );
    writer.put(filter_words(software));
    writer.put(b" dst_mac \"$gate_mac\" vlan_id \"$gate_vlan\"");
    writer.put(class_words(software));
    writer.put(b" action gate index \"$gate_no\" base-time \"$BASE\" \"$@\"");
}

/// Puts the function that sets a stream's gate by the list passed to it.
fn put_by_list<W: Sink>(writer: &mut Writer<'_, W>, software: bool)
    ensures { Puts W.contents writer.old writer.new (by_list_text software) }
{
    writer.put(
        b"# stream gate $2 at the interface $1: address $3, VLAN $4, and then the entries of its list\ngate_by_list() {\n",
    );
    writer.put(b"    gate_at=$1 gate_no=$2 gate_mac=$3 gate_vlan=$4\n    shift 4\n");
    put_by_list_command(writer, software);
    writer.put(
        b"\n    undo=\"filter del dev $gate_at ingress chain $chain protocol 802.1Q pref $gate_no handle $gate_no flower/$undo\"\n}\n\n",
    );
}

/// Puts that function if a stream pauses.
pub(crate) fn put_list_gates<W: Sink>(writer: &mut Writer<'_, W>, software: bool, rows: &[Row])
    ensures { Puts W.contents writer.old writer.new (list_gates_text software rows.now) }
{
    if some_pauses(rows) {
        put_by_list(writer, software);
    }
}
