//! The pieces from which arrays and members are written.
ghost use Rattle.std.specs.Prelude.{◌≡◌, option_map};
ghost use Rattle.cqf_output.specs.Writer.{Puts};
ghost use Rattle.cqf_program_json.specs.Arrays.{end_text, front_text, name_or_null, number_or_null, quoted};

use cqf_addressing::{InterfaceName, put_interface};
use cqf_output::{Sink, Writer};

/// Puts what precedes an element: the end of the line before, and a comma if that line ends another element.
pub(crate) fn put_front<W: Sink>(writer: &mut Writer<'_, W>, is_first: bool)
    ensures { Puts W.contents writer.old writer.new (front_text is_first) }
{
    if is_first {
        writer.put(b"\n");
    } else {
        writer.put(b",\n");
    }
}

/// Puts the end of an array; if the array has elements, on a line of its own after these blanks.
pub(crate) fn put_end<W: Sink>(writer: &mut Writer<'_, W>, is_empty: bool, blanks: &[u8])
    ensures { Puts W.contents writer.old writer.new (end_text blanks.now is_empty) }
{
    if is_empty {
        writer.put(b"]");
    } else {
        writer.put(b"\n");
        writer.put(blanks);
        writer.put(b"]");
    }
}

/// Puts the name of an interface in quotation marks. It has no byte that JSON escapes.
fn put_quoted<W: Sink>(writer: &mut Writer<'_, W>, name: &InterfaceName)
    ensures { Puts W.contents writer.old writer.new (quoted name.now) }
{
    writer.put(b"\"");
    put_interface(writer, name);
    writer.put(b"\"");
}

/// Puts the name of an interface, or `null` if there is none.
pub(crate) fn put_name_or_null<W: Sink>(writer: &mut Writer<'_, W>, name: Option<&InterfaceName>)
    ensures { Puts W.contents writer.old writer.new (name_or_null (option_map (λ name. name.now) name.entry)) }
{
    match name {
        Some(name) => put_quoted(writer, name),
        None => writer.put(b"null"),
    }
}

/// Puts a number, or `null` if there is none.
pub(crate) fn put_number_or_null<W: Sink>(writer: &mut Writer<'_, W>, number: Option<u32>)
    ensures { Puts W.contents writer.old writer.new (number_or_null number) }
{
    match number {
        Some(number) => writer.put_number(number),
        None => writer.put(b"null"),
    }
}
