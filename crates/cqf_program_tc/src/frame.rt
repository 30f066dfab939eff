//! The parts of the script that are the same for each bridge.
ghost use Rattle.std.specs.Prelude.{◌≡◌, if◌then◌else◌, length};
ghost use Rattle.std.specs.List.{list_any};
ghost use Rattle.cqf_lists.specs.Lists.{each_below};
ghost use Rattle.cqf_output.specs.Writer.{Puts};
ghost use Rattle.cqf_program_tc.specs.Text.{choice_line, choice_text, common_words, gate_command, given_text, given_words, link_note, link_text, list_command};
ghost use Rattle.cqf_program_tc.specs.Text.{less_notes, making_text, notes_by, offload_notes, port_end, port_words, removing_text, software_notes, whole_notes};
ghost use Rattle.cqf_program_tc.specs.Text.{last_gate, multiple, name_text, names_text, no_gates_text, notes_text, old_gates_text};
ghost use Rattle.cqf_program_tc.specs.Text.{opening_text, tc_gate_text, usage_text};
ghost use Rattle.cqf_program_tc.specs.Bridge.{has_own_guard};
ghost use Rattle.cqf_program_tc.specs.Words.{gate_words};

use crate::bridges::has_own_list;
use crate::lists::{class_words, filter_words, rounds_in};
use crate::words::put_tx_words;
use cqf_gates::compiled_list;
use cqf_model::Row;
use cqf_output::{Sink, Writer};
use cqf_topology::{Domain, put_bridge};

/// Puts the time after which all lists begin anew, in nanoseconds.
fn put_multiple<W: Sink>(writer: &mut Writer<'_, W>, domain: &Domain, rows: &[Row])
    ensures { Puts W.contents writer.old writer.new (multiple domain.now rows.now) }
{
    writer.put_number(rounds_in(rows) * domain.cycle_time().0);
}

/// Puts what the script is, and its variables.
pub(crate) fn put_usage<W: Sink>(writer: &mut Writer<'_, W>, domain: &Domain, rows: &[Row])
    ensures { Puts W.contents writer.old writer.new (usage_text domain.now rows.now) }
{
    writer.put(
        b"#!/bin/sh\n# Written by cqf compile --format tc. Each bridge runs it as root with its own name as the only argument, its links up and\n",
    );
    writer.put(b"# its clock in step with the others'.\n");
    writer.put(
        b"#   OUT_A_B   the interface of A where the link from A to B begins, and IN_A_B the one of B where it ends\n",
    );
    writer.put(
        b"#   TALKER_S  the interface that receives stream S from its talker, if S begins at that bridge\n",
    );
    writer.put(
        b"#   MAC_S and VLAN_S   the destination address and the VLAN of the frames of stream S, which the talker has to tag\n",
    );
    writer.put(
        b"#   BASE      an instant of the PTP clock in ns, the same at each bridge: the lists begin at the first multiple of ",
    );
    put_multiple(writer, domain, rows);
    writer.put(
        b" at or\n#             after it, which the script prints. An even cycle begins there\n",
    );
    writer.put(
        b"#   TC, IP and CHAIN   may be set: commands in place of tc and ip, the filter chain of the gates. TC=echo shows what would be\n",
    );
    writer.put(b"#             done; interfaces are then looked up only if IP is set\n");
    writer.put(
        b"# A variable has _ for each - of a name. If an earlier link or stream has the same, _N with its own number follows, as in\n",
    );
    writer.put(b"# OUT_A_B_N7; each variable is explained where it is used.\n");
    writer.put(
        b"# An interface has one neighbour. So OUT_A_B and IN_B_A may be the same, TALKER_R and TALKER_S if one talker has both\n",
    );
    writer.put(b"# streams, OUT_A_B and TALKER_S if B is the talker of S; no others may.\n");
    writer.put(
        b"# All of this is checked before anything is changed. If a command fails then, what this run has set is taken back; what it\n",
    );
    writer.put(
        b"# replaced is gone.\n# Forwarding is yours: a stream may leave a bridge by the interfaces that its line here names, and by no others.\n",
    );
}

/// Puts the notes on gates in hardware.
fn put_offload_notes<W: Sink>(writer: &mut Writer<'_, W>)
    ensures { Puts W.contents writer.old writer.new offload_notes }
{
    writer.put(
        b"# A gate in software doesn't give frames the class in its list (IPV), so the filters are for hardware alone (skip_sw). If\n",
    );
    writer.put(
        b"# an interface can't offload taprio, the script fails, and it undoes what it has set.\n",
    );
}

/// Puts the notes on gates in software.
fn put_software_notes<W: Sink>(writer: &mut Writer<'_, W>)
    ensures { Puts W.contents writer.old writer.new software_notes }
{
    writer.put(
        b"# A gate in software doesn't give frames the class in its list (IPV), so a program before each gate does, by the cycle. It\n",
    );
    writer.put(
        b"# needs Linux 6.1, a little-endian machine and a tc with libbpf, and the interfaces need eight transmit queues.\n",
    );
}

/// Puts the notes on gates of this kind.
fn put_kind_notes<W: Sink>(writer: &mut Writer<'_, W>, software: bool)
    ensures { Puts W.contents writer.old writer.new (if software then software_notes else offload_notes) }
{
    if software {
        put_software_notes(writer);
    } else {
        put_offload_notes(writer);
    }
}

/// Puts the notes on what gates count, if they count whole frames.
fn put_whole_notes<W: Sink>(writer: &mut Writer<'_, W>)
    ensures { Puts W.contents writer.old writer.new whole_notes }
{
    writer.put(
        b"# Octets of a gate are those of whole frames, from the destination address to the FCS. Linux counts 22 fewer a frame, without\n",
    );
    writer.put(
        b"# the header's 14, the tag's 4 and the FCS's 4: frames of 1500, 1500 and 64 octets pass a gate of 3000. One that it drops counts.\n",
    );
}

/// Puts the notes on what gates count, if they don't count whole frames.
fn put_less_notes<W: Sink>(writer: &mut Writer<'_, W>)
    ensures { Puts W.contents writer.old writer.new less_notes }
{
    writer.put(
        b"# Octets of a gate are those of frames, from the destination address to the FCS, without those of gate-overhead. Linux leaves out\n",
    );
    writer.put(
        b"# 22 of each: the header's 14, the tag's 4 and the FCS's 4. A frame that it drops counts.\n",
    );
}

/// Puts the notes on what gates count.
fn put_counting_notes<W: Sink>(writer: &mut Writer<'_, W>, whole: bool)
    ensures { Puts W.contents writer.old writer.new (if whole then whole_notes else less_notes) }
{
    if whole {
        put_whole_notes(writer);
    } else {
        put_less_notes(writer);
    }
}

/// Puts the notes on the gates of Linux.
fn put_notes_by<W: Sink>(writer: &mut Writer<'_, W>, whole: bool, software: bool)
    ensures { Puts W.contents writer.old writer.new (notes_by whole software) }
{
    put_counting_notes(writer, whole);
    put_kind_notes(writer, software);
    writer.put(
        b"# What the bridge itself sends, as IPv6 neighbour discovery and MLD, may have class 7: keep it off these interfaces.\n",
    );
    writer.put(
        b"# If CHAIN isn't 0, only a filter of yours in chain 0 with goto chain CHAIN leads frames to the gates.\n",
    );
}

/// Puts the notes on the gates of Linux, for a domain.
pub(crate) fn put_notes<W: Sink>(writer: &mut Writer<'_, W>, domain: &Domain, software: bool)
    ensures { Puts W.contents writer.old writer.new (notes_text domain.now software) }
{
    put_notes_by(writer, domain.overhead() == 0, software);
}

/// Puts the name of a bridge, after a space.
fn put_name<W: Sink>(writer: &mut Writer<'_, W>, domain: &Domain, bridge: u16)
    ensures { Puts W.contents writer.old writer.new (name_text domain.now bridge) }
{
    writer.put(b" ");
    put_bridge(writer, domain, bridge);
}

/// Puts the names of the bridges, each after a space.
fn put_names<W: Sink>(writer: &mut Writer<'_, W>, domain: &Domain)
    ensures { Puts W.contents writer.old writer.new (names_text domain.now) }
{
    for bridge in 0..domain.bridges() {
        put_name(writer, domain, bridge);
    }
}

/// Puts the commands, the names of the bridges, and the variables in which the script records interfaces, gates and streams.
pub(crate) fn put_opening<W: Sink>(writer: &mut Writer<'_, W>, domain: &Domain)
    ensures { Puts W.contents writer.old writer.new (opening_text domain.now) }
{
    writer.put(b"set -euf\nexport LC_ALL=C\ntc=${TC:-tc} ip=${IP:-} chain=${CHAIN:-0} bridges=\"");
    put_names(writer, domain);
    writer.put(
        b" \"\nused=\"\" ways=\"\" old=\"\" streams=\"\" gates=\"\" undo=\"\" object=\"\"\n\n# ends the script before anything is changed\nrefuse() {\n",
    );
    writer.put(b"    printf '%s\\n' \"$*\" >&2\n    exit 1\n}\n\n");
}

/// Puts the lines that end the script if a bridge or an instant isn't given, and that compute the next multiple of the time after which all
/// lists begin anew, from the instant on.
pub(crate) fn put_given<W: Sink>(writer: &mut Writer<'_, W>, domain: &Domain, rows: &[Row])
    ensures { Puts W.contents writer.old writer.new (given_text domain.now rows.now) }
{
    writer.put(b"[ \"$#\" -eq 1 ] || refuse \"name one bridge:$bridges\"\ncase ${BASE:=} in\n");
    writer.put(
        b"\"\" | *[!0-9]* | 0?* | 9?????????????????? | ????????????????????*) refuse \"BASE: '$BASE' is no instant in ns",
    );
    writer.put(b" below 9000000000000000000\" ;;\nesac\nBASE=$((BASE + (");
    put_multiple(writer, domain, rows);
    writer.put(b" - BASE % ");
    put_multiple(writer, domain, rows);
    writer.put(b") % ");
    put_multiple(writer, domain, rows);
    writer.put(
        b"))\ncase $chain in\n*[!0-9]* | 0?* | ??????????*) refuse \"CHAIN: '$chain' is no number of a chain\" ;;\nesac\n",
    );
    writer.put(b"[ -n \"$ip\" ] || if [ \"$tc\" = echo ]; then ip=:; else ip=ip; fi\n");
    writer.put(b"command -v \"${tc%% *}\" >/dev/null || refuse \"TC: there is no command $tc\"\n");
    writer.put(
        b"command -v \"${ip%% *}\" >/dev/null || refuse \"IP: there is no command $ip\"\n\n",
    );
}

/// Returns the words after a port's list.
fn port_end(software: bool) -> &'static [u8]
    ensures { result.now ≡ port_end software }
{
    if software {
        b" clockid CLOCK_TAI".as_slice()
    } else {
        b" flags 0x2".as_slice()
    }
}

/// Returns whether some link has a guard band of its own, and so a list of its own.
fn has_own_guards(domain: &Domain) -> bool
    ensures { result ≡ list_any has_own_guard domain.now.links }
{
    for link in 0..domain.links() {
        if has_own_list(domain, link) {
            return true;
        }
    }
    false
}

/// Puts the words of the list of each link that has no guard band of its own.
fn put_common_words<W: Sink>(writer: &mut Writer<'_, W>, domain: &Domain)
    ensures { Puts W.contents writer.old writer.new (common_words domain.now) }
{
    let list = compiled_list(domain.cycle_time(), domain.guard());
    put_tx_words(writer, &list);
}

/// Puts the words of the second parameter, if it is given, and else those of that list.
fn put_given_words<W: Sink>(writer: &mut Writer<'_, W>, domain: &Domain)
    ensures { Puts W.contents writer.old writer.new (given_words domain.now) }
{
    writer.put(b" ${2:-");
    put_common_words(writer, domain);
    writer.put(b"}");
}

/// Puts the words of the list in the command: if some link has a guard band of its own, those of the second parameter, if it is given.
fn put_port_words<W: Sink>(writer: &mut Writer<'_, W>, domain: &Domain)
    ensures { Puts W.contents writer.old writer.new (port_words domain.now) }
{
    if has_own_guards(domain) {
        put_given_words(writer, domain);
    } else {
        put_common_words(writer, domain);
    }
}

/// Puts the command that sets the transmission gates of an interface.
fn put_list_command<W: Sink>(writer: &mut Writer<'_, W>, domain: &Domain, software: bool)
    ensures { Puts W.contents writer.old writer.new (list_command domain.now software) }
{
    writer.put(
        b"    $tc qdisc replace dev \"$1\" parent root handle 100: taprio num_tc 8 map 0 1 2 3 4 5 6 7 0 0 0 0 0 0 0 0",
    );
    writer.put(b" queues 1@0 1@1 1@2 1@3 1@4 1@5 1@6 1@7 base-time \"$BASE\"");
    put_port_words(writer, domain);
    writer.put(port_end(software));
}

/// Puts a comment for script checkers if some link has a guard band of its own: the link's list is passed as one parameter.
pub(crate) fn put_link_note<W: Sink>(writer: &mut Writer<'_, W>, domain: &Domain)
    ensures { Puts W.contents writer.old writer.new (link_note domain.now) }
{
    if has_own_guards(domain) {
        writer.put(b"# shellcheck disable=SC2086\n");
    }
}

/// Puts the function that sets the transmission gates of an interface.
pub(crate) fn put_link_function<W: Sink>(
    writer: &mut Writer<'_, W>,
    domain: &Domain,
    software: bool,
)
    ensures { Puts W.contents writer.old writer.new (link_text domain.now software) }
{
    writer.put(b"# the transmission gates of the interface $1\nlink() {\n");
    put_list_command(writer, domain, software);
    writer.put(b"\n");
    writer.put(b"    undo=\"qdisc del dev $1 root/$undo\"");
    writer.put(b"\n}\n\n");
}

/// Returns the greatest index of a gate of an earlier plan, as a text.
fn last_gate(domain: &Domain) -> &'static [u8]
    ensures { result.now ≡ last_gate domain.now }
{
    if domain.limits().streams_within() <= 1024 {
        b"1024".as_slice()
    } else {
        b"16384".as_slice()
    }
}

/// Puts the function that finds the gates of an earlier plan.
pub(crate) fn put_old_gates_function<W: Sink>(writer: &mut Writer<'_, W>, domain: &Domain)
    ensures { Puts W.contents writer.old writer.new (old_gates_text (last_gate domain.now)) }
{
    let last = last_gate(domain);
    writer.put(
        b"# the stream gates of an earlier plan at the interface $1, a line each, in words of tc: the filters whose action is a gate, alone or\n",
    );
    writer.put(b"# after a program of bpf, and whose pref is the gate's index, 1 to ");
    writer.put(last);
    writer.put(b"\nold_gates() {\n");
    writer.put(
        b"    $tc filter show dev \"$1\" ingress chain \"$chain\" 2>/dev/null | awk '\n        function tell() {\n",
    );
    writer.put(
        b"            if ((actions == 1 || actions == 2 && first == \"bpf\") && kind == \"gate\" && pref == number && pref >= 1 && pref <= ",
    );
    writer.put(last);
    writer.put(b" && handle != \"\")\n");
    writer.put(
        b"                print \"pref\", pref, \"protocol\", protocol, \"handle\", handle, filter\n        }\n        $1 == \"filter\" {\n",
    );
    writer.put(
        b"            tell()\n            actions = 0; kind = \"\"; number = 0; pref = 0; handle = \"\"\n            for (i = 2; i < NF; i++) {\n",
    );
    writer.put(
        b"                if ($i == \"protocol\") protocol = $(i + 1)\n                if ($i == \"pref\") { pref = $(i + 1); filter = $(i + 2) }\n",
    );
    writer.put(
        b"                if ($i == \"handle\") handle = $(i + 1)\n            }\n        }\n",
    );
    writer.put(
        b"        $1 == \"action\" && $2 == \"order\" { actions++; first = kind; kind = $4 }\n",
    );
    writer.put(
        b"        $1 == \"number\" && kind == \"\" && /gate-state/ { kind = \"gate\" }\n        $1 == \"index\" { number = $2 }\n",
    );
    writer.put(b"        END { tell() }'\n}\n\n");
}

/// Puts the function that removes the gates of an earlier plan from an interface.
pub(crate) fn put_no_gates_function<W: Sink>(writer: &mut Writer<'_, W>)
    ensures { Puts W.contents writer.old writer.new no_gates_text }
{
    writer.put(b"# takes the stream gates of an earlier plan off the interface $1\nno_gates() {\n");
    writer.put(
        b"    if $tc qdisc add dev \"$1\" clsact 2>/dev/null; then undo=\"qdisc del dev $1 clsact/$undo\"; fi\n",
    );
    writer.put(
        b"    old_gates \"$1\" | while read -r words; do\n        # shellcheck disable=SC2086\n",
    );
    writer.put(
        b"        $tc filter del dev \"$1\" ingress chain \"$chain\" $words </dev/null\n    done\n}\n\n",
    );
}

/// Puts the command that sets a stream's gate at an interface.
fn put_gate_command<W: Sink>(
    writer: &mut Writer<'_, W>,
    domain: &Domain,
    software: bool,
    words: &[u8],
)
    requires { words.now ≡ gate_words domain.now.cycle_time }
    ensures { Puts W.contents writer.old writer.new (gate_command domain.now software) }
{
    writer.put(
        b"    $tc filter add dev \"$1\" ingress chain \"$chain\" protocol 802.1Q pref \"$2\" handle \"$2\" flower",
    );
    writer.put(filter_words(software));
    writer.put(b" dst_mac \"$3\" vlan_id \"$4\"");
    writer.put(class_words(software));
    writer.put(b" action gate index \"$2\" base-time \"$BASE\"");
    writer.put(words);
}

/// Puts the function that sets a stream's gate at an interface.
pub(crate) fn put_gate_function<W: Sink>(
    writer: &mut Writer<'_, W>,
    domain: &Domain,
    software: bool,
    words: &[u8],
)
    requires { words.now ≡ gate_words domain.now.cycle_time }
    ensures { Puts W.contents writer.old writer.new (tc_gate_text domain.now software) }
{
    writer.put(
        b"# stream gate $2 at the interface $1: address $3, VLAN $4, at most $5 octets a cycle\ngate() {\n",
    );
    put_gate_command(writer, domain, software, words);
    writer.put(b"\n");
    writer.put(
        b"    undo=\"filter del dev $1 ingress chain $chain protocol 802.1Q pref $2 handle $2 flower/$undo\"",
    );
    writer.put(b"\n}\n\n");
}

/// Puts the line that chooses a bridge by its name.
fn put_choice_line<W: Sink>(writer: &mut Writer<'_, W>, domain: &Domain, bridge: u16)
    ensures { Puts W.contents writer.old writer.new (choice_line domain.now bridge) }
{
    writer.put(b"\"");
    put_bridge(writer, domain, bridge);
    writer.put(b"\") bridge_");
    writer.put_number(bridge);
    writer.put(b" ;;\n");
}

/// Puts one line per bridge that chooses it by its name.
fn put_choice_lines<W: Sink>(writer: &mut Writer<'_, W>, domain: &Domain)
    ensures { Puts W.contents writer.old writer.new (each_below (choice_line domain.now) (length domain.now.bridges)) }
{
    for bridge in 0..domain.bridges() {
        put_choice_line(writer, domain, bridge);
    }
}

/// Returns the lines that put the program of bpf into a file, if gates are in software.
fn making_text(software: bool) -> &'static [u8]
    ensures { result.now ≡ making_text software }
{
    if software {
        b"\nobject=$(mktemp)\ntrap 'rm -f \"$object\"' EXIT\nprogram >\"$object\"\n".as_slice()
    } else {
        b"".as_slice()
    }
}

/// Returns the line that removes the file.
fn removing_text(software: bool) -> &'static [u8]
    ensures { result.now ≡ removing_text software }
{
    if software {
        b"rm -f \"$object\"\n".as_slice()
    } else {
        b"".as_slice()
    }
}

/// Puts the choice of a bridge by the given name.
pub(crate) fn put_choice<W: Sink>(writer: &mut Writer<'_, W>, domain: &Domain, software: bool)
    ensures { Puts W.contents writer.old writer.new (choice_text domain.now software) }
{
    writer.put(making_text(software));
    writer.put(b"\ncase \"$1\" in\n");
    put_choice_lines(writer, domain);
    writer.put(b"*) refuse \"there is no bridge $1:$bridges\" ;;\nesac\n");
    writer.put(removing_text(software));
    writer.put(b"trap - EXIT\n");
}
