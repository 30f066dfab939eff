//! The script's functions that check everything before anything is changed, and that undo what was set.
ghost use Rattle.cqf_output.specs.Writer.{Puts};
ghost use Rattle.cqf_program_tc.specs.Checks.{agree_text, checks_text, frames_text, jump_text, port_text, ready_text, take_back_text};

use cqf_output::{Sink, Writer};

/// Puts the function that returns whether one interface may lead to two nodes.
fn put_agree<W: Sink>(writer: &mut Writer<'_, W>)
    ensures { Puts W.contents writer.old writer.new agree_text }
{
    writer.put(
        b"# whether one interface may lead to the nodes $1 and $2. A talker is a station, and its name is empty\nagree() {\n",
    );
    writer.put(
        b"    [ \"$1\" != \"$2\" ] || return 0\n    case $bridges in\n    *\" $1 \"* | *\" $2 \"*) return 1 ;;\n    esac\n",
    );
    writer.put(b"    [ -z \"$1\" ] || [ -z \"$2\" ]\n}\n\n");
}

/// Puts the function that requires a jump to the gates' chain.
fn put_jump<W: Sink>(writer: &mut Writer<'_, W>)
    ensures { Puts W.contents writer.old writer.new jump_text }
{
    writer.put(
        b"# if CHAIN isn't 0, a filter of chain 0 at the interface $2, which is $1, has to go on to it\njump() {\n",
    );
    writer.put(b"    if [ \"$chain\" = 0 ] || [ \"$tc\" = echo ]; then return 0; fi\n");
    writer.put(
        b"    $tc filter show dev \"$2\" ingress chain 0 2>/dev/null | grep -Eq \"goto chain $chain( |\\$)\" ||\n",
    );
    writer.put(
        b"        refuse \"$1: no filter of chain 0 at $2 has goto chain $chain, so no frame would reach a gate: add one\"\n}\n\n",
    );
}

/// Puts the function that requires an interface.
fn put_port<W: Sink>(writer: &mut Writer<'_, W>)
    ensures { Puts W.contents writer.old writer.new port_text }
{
    writer.put(
        b"# the variable $1 has to be the interface $2, which is there and leads to the node $3 and nowhere else: $4\nport() {\n    case $2 in\n",
    );
    writer.put(
        b"    \"\") refuse \"$1 isn't set: $4\" ;;\n    *[[:space:]/]*) refuse \"$1: '$2' is no interface\" ;;\n    esac\n",
    );
    writer.put(
        b"    shown=$($ip link show dev \"$2\" 2>/dev/null) || refuse \"$1: there is no interface $2\"\n    case $shown in\n",
    );
    writer.put(
        b"    [0-9]*:*) at=${shown%%:*} ;;\n    *) at=$2 ;;\n    esac\n    for use in $used; do\n        case $use in\n",
    );
    writer.put(
        b"        \"$at/\"*) agree \"${use##*/}\" \"$3\" || { use=${use#*/}; refuse \"$1: $2 is ${use%/*}'s interface, and leads to another node\"; }",
    );
    writer.put(
        b" ;;\n        esac\n    done\n    used=\"$used $at/$1/$3\"\n    case $1/$ways in\n    OUT_* | *\" $at \"*) ;;\n    *)\n",
    );
    writer.put(
        b"        jump \"$1\" \"$2\"\n        ways=\"$ways $at \" old=\"$old\n$(old_gates \"$2\")\"\n",
    );
    writer.put(b"        ;;\n    esac\n}\n\n");
}

/// Puts the function that requires the address and the VLAN of a stream's frames.
fn put_frames<W: Sink>(writer: &mut Writer<'_, W>)
    ensures { Puts W.contents writer.old writer.new frames_text }
{
    writer.put(
        b"# the frames of stream $4 have to have an address MAC_$1, $2, and a VLAN VLAN_$1, $3, which no other stream has both. Their gate is $5\n",
    );
    writer.put(b"frames() {\n");
    writer.put(
        b"    [ -n \"$2\" ] || refuse \"MAC_$1 isn't set: destination address of $4\"\n    [ -n \"$3\" ] || refuse \"VLAN_$1 isn't set: VLAN of $4\"\n",
    );
    writer.put(
        b"    two='[0-9A-Fa-f][0-9A-Fa-f]'\n    # shellcheck disable=SC2254\n    case $2 in\n",
    );
    writer.put(
        b"    00:00:00:00:00:00 | 01:80:[Cc]2:00:00:0?) refuse \"MAC_$1: $2 is no address that bridges forward to\" ;;\n",
    );
    writer.put(
        b"    $two:$two:$two:$two:$two:$two) ;;\n    *) refuse \"MAC_$1: '$2' is no address as 01:00:5e:00:00:01\" ;;\n    esac\n    case $3 in\n",
    );
    writer.put(
        b"    [1-9] | [1-9][0-9] | [1-9][0-9][0-9] | [1-3][0-9][0-9][0-9] | 40[0-8][0-9] | 409[0-4]) ;;\n",
    );
    writer.put(
        b"    *) refuse \"VLAN_$1: '$3' is no VLAN, 1 to 4094\" ;;\n    esac\n    both=$(printf '%s' \"$2\" | tr A-F a-f)/$3\n    case $streams in\n",
    );
    writer.put(
        b"    *\" $both \"*) refuse \"MAC_$1 and VLAN_$1 are another stream's too: $2 and $3\" ;;\n    esac\n",
    );
    writer.put(b"    streams=\"$streams $both \" gates=\"$gates $5\"\n}\n\n");
}

/// Puts the function that ends the checks.
fn put_ready<W: Sink>(writer: &mut Writer<'_, W>)
    ensures { Puts W.contents writer.old writer.new ready_text }
{
    writer.put(
        b"# no filter but those of an earlier plan may have a gate. From here on, what is set is taken back if a command fails\nready() {\n",
    );
    writer.put(
        b"    for index in $gates; do\n        shown=$($tc actions get action gate index \"$index\" 2>/dev/null || :)\n        case $shown in\n",
    );
    writer.put(
        b"        *gate-state*) shown=${shown##* ref } ;;\n        *) continue ;;\n        esac\n",
    );
    writer.put(
        b"        [ \"${shown%% *}\" = \"$(printf '%s\\n' \"$old\" | grep -c \"^pref $index \")\" ] || refuse \"gate $index belongs to another",
    );
    writer.put(
        b" filter\"\n    done\n    echo \"# BASE is $BASE\"\n    trap take_back EXIT\n    trap 'exit 1' HUP INT TERM\n}\n\n",
    );
}

/// Puts the function that undoes what was set.
fn put_take_back<W: Sink>(writer: &mut Writer<'_, W>)
    ensures { Puts W.contents writer.old writer.new take_back_text }
{
    writer.put(
        b"# takes back what this run has set, the last first\ntake_back() {\n    trap '' HUP INT TERM\n    set +e\n",
    );
    writer.put(
        b"    end=\"what this run had set is taken back; what it replaced is gone\"\n    while [ -n \"$undo\" ]; do\n",
    );
    writer.put(
        b"        # shellcheck disable=SC2086\n        $tc ${undo%%/*} || end=\"not all that this run had set is taken back\"\n",
    );
    writer.put(
        b"        undo=${undo#*/}\n    done\n    [ -z \"$object\" ] || rm -f \"$object\"\n    echo \"failed: $end\" >&2\n    exit 1\n}\n\n",
    );
}

/// Puts the functions that check everything before anything is changed, and that undo what was set.
pub(crate) fn put_checks<W: Sink>(writer: &mut Writer<'_, W>)
    ensures { Puts W.contents writer.old writer.new checks_text }
{
    put_agree(writer);
    put_jump(writer);
    put_port(writer);
    put_frames(writer);
    put_ready(writer);
    put_take_back(writer);
}
