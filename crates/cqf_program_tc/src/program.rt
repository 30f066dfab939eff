//! The program of bpf in a script whose gates are in software.
ghost use Rattle.cqf_output.specs.Writer.{Puts};
ghost use Rattle.cqf_program_tc.specs.Program.{object_text, octal, octal_word, program_text};

use cqf_output::{Sink, Writer};
use cqf_topology::Domain;

/// Puts an octet as three octal digits after a backslash.
fn put_octal<W: Sink>(writer: &mut Writer<'_, W>, octet: u8)
    ensures { Puts W.contents writer.old writer.new (octal octet) }
{
    writer.put_byte(b'\\');
    writer.put_byte(b'0' + octet / 64);
    writer.put_byte(b'0' + octet / 8 % 8);
    writer.put_byte(b'0' + octet % 8);
}

/// Puts the four octets of a number likewise, the lowest first.
fn put_octal_word<W: Sink>(writer: &mut Writer<'_, W>, number: u32)
    ensures { Puts W.contents writer.old writer.new (octal_word number) }
{
    put_octal(writer, (number % 256) as u8);
    put_octal(writer, (number / 256 % 256) as u8);
    put_octal(writer, (number / 65536 % 256) as u8);
    put_octal(writer, (number / 16777216 % 256) as u8);
}

/// Puts the function that writes the object of the program, for cycles of `cycle_time` nanoseconds.
fn put_object<W: Sink>(writer: &mut Writer<'_, W>, cycle_time: u32)
    ensures { Puts W.contents writer.old writer.new (object_text cycle_time) }
{
    writer.put(
        b"# the program that gives a frame its class, as an object of bpf: 6, and 1 more in an odd cycle\nprogram() {\n    # the head of the file\n",
    );
    writer.put(
        b"    printf '\\177ELF\\2\\1\\1\\0\\0\\0\\0\\0\\0\\0\\0\\0\\1\\0\\367\\0\\1\\0\\0\\0\\0\\0\\0\\0\\0\\0\\0\\0\\0\\0\\0\\0\\0\\0\\0\\0'\n",
    );
    writer.put(
        b"    printf '\\310\\0\\0\\0\\0\\0\\0\\0\\0\\0\\0\\0@\\0\\0\\0\\0\\0@\\0\\4\\0\\3\\0'\n",
    );
    writer.put(
        b"    # r6 = the frame, r0 = the time by bpf_ktime_get_tai_ns\n    printf '\\277\\26\\0\\0\\0\\0\\0\\0\\205\\0\\0\\0\\320\\0\\0\\0'\n",
    );
    writer.put(b"    # r0 /= the cycle time, r0 &= 1, r0 += 6\n    printf '7\\0\\0\\0");
    put_octal_word(writer, cycle_time);
    writer.put(b"W\\0\\0\\0\\1\\0\\0\\0\\7\\0\\0\\0\\6\\0\\0\\0'\n");
    writer.put(
        b"    # the frame's priority = r0, r0 = -1, the end\n    printf 'c\\6 \\0\\0\\0\\0\\0\\267\\0\\0\\0\\377\\377\\377\\377\\225\\0\\0\\0\\0\\0\\0\\0'\n",
    );
    writer.put(
        b"    # symbols, names\n    printf '\\0\\0\\0\\0\\0\\0\\0\\0\\0\\0\\0\\0\\0\\0\\0\\0\\0\\0\\0\\0\\0\\0\\0\\0\\1\\0\\0\\0\\22\\0\\1\\0\\0\\0\\0\\0\\0\\0\\0\\0@\\0\\0\\0\\0\\0\\0\\0'\n",
    );
    writer.put(
        b"    printf '\\0tc\\0.symtab\\0.strtab\\0\\0\\0\\0\\0'\n    # sections: none, tc, .symtab, .strtab\n",
    );
    writer.put(
        b"    printf '\\0\\0\\0\\0\\0\\0\\0\\0\\0\\0\\0\\0\\0\\0\\0\\0\\0\\0\\0\\0\\0\\0\\0\\0\\0\\0\\0\\0\\0\\0\\0\\0'\n",
    );
    writer.put(
        b"    printf '\\0\\0\\0\\0\\0\\0\\0\\0\\0\\0\\0\\0\\0\\0\\0\\0\\0\\0\\0\\0\\0\\0\\0\\0\\0\\0\\0\\0\\0\\0\\0\\0'\n",
    );
    writer.put(
        b"    printf '\\1\\0\\0\\0\\1\\0\\0\\0\\6\\0\\0\\0\\0\\0\\0\\0\\0\\0\\0\\0\\0\\0\\0\\0@\\0\\0\\0\\0\\0\\0\\0'\n",
    );
    writer.put(
        b"    printf '@\\0\\0\\0\\0\\0\\0\\0\\0\\0\\0\\0\\0\\0\\0\\0\\10\\0\\0\\0\\0\\0\\0\\0\\0\\0\\0\\0\\0\\0\\0\\0'\n",
    );
    writer.put(
        b"    printf '\\4\\0\\0\\0\\2\\0\\0\\0\\0\\0\\0\\0\\0\\0\\0\\0\\0\\0\\0\\0\\0\\0\\0\\0\\200\\0\\0\\0\\0\\0\\0\\0'\n",
    );
    writer.put(
        b"    printf '\\60\\0\\0\\0\\0\\0\\0\\0\\3\\0\\0\\0\\1\\0\\0\\0\\10\\0\\0\\0\\0\\0\\0\\0\\30\\0\\0\\0\\0\\0\\0\\0'\n",
    );
    writer.put(
        b"    printf '\\14\\0\\0\\0\\3\\0\\0\\0\\0\\0\\0\\0\\0\\0\\0\\0\\0\\0\\0\\0\\0\\0\\0\\0\\260\\0\\0\\0\\0\\0\\0\\0'\n",
    );
    writer.put(
        b"    printf '\\30\\0\\0\\0\\0\\0\\0\\0\\0\\0\\0\\0\\0\\0\\0\\0\\1\\0\\0\\0\\0\\0\\0\\0\\0\\0\\0\\0\\0\\0\\0\\0'\n}\n\n",
    );
}

/// Puts that function for a domain.
fn put_object_of<W: Sink>(writer: &mut Writer<'_, W>, domain: &Domain)
    ensures { Puts W.contents writer.old writer.new (object_text domain.now.cycle_time) }
{
    put_object(writer, domain.cycle_time().0 as u32);
}

/// Puts that function if gates are in software.
pub(crate) fn put_program<W: Sink>(writer: &mut Writer<'_, W>, domain: &Domain, software: bool)
    ensures { Puts W.contents writer.old writer.new (program_text domain.now software) }
{
    if software {
        put_object_of(writer, domain);
    }
}
