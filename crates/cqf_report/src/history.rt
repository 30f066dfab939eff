//! The history of a run as a text, line by line.

ghost use Rattle.std.specs.Prelude.{◌≡◌, ◌++◌, IfOk, codes, decimal, map};
ghost use Rattle.cqf_admission.specs.Admission.{act_of, recorded_of};
ghost use Rattle.cqf_model.specs.Refusals.{text_of_refusal};
ghost use Rattle.cqf_output.specs.Writer.{Puts};
ghost use Rattle.cqf_report.specs.HistoryText.{entry_text, history_text, line_of_entry, reply_text};
ghost use Rattle.cqf_report.specs.CallTexts.{named_text};

use cqf_admission::{Call, Entry};
use cqf_model::{Receipt, Refused, Reply};
use cqf_output::{Buffer, CheckedSink, Sink, Writer, written_text};
use cqf_units::Memory;
use std::alloc::Global;

/// Writes a word, followed by a number.
fn put_numbered<W: Sink>(writer: &mut Writer<'_, W>, word: &[u8], number: usize)
    ensures { Puts W.contents writer.old writer.new (word.now ++ decimal number) }
{
    writer.put(word);
    writer.put_number(number);
}

/// Writes that a link's budget has too few octets left.
fn put_short<W: Sink>(writer: &mut Writer<'_, W>, link: u16, left: u32)
    ensures { Puts W.contents writer.old writer.new (text_of_refusal (Refused.BudgetShort link left)) }
{
    writer.put(b"BudgetShort ");
    writer.put_number(link);
    writer.put(b" ");
    writer.put_number(left);
}

/// Writes the name of a refusal, followed by its values.
fn put_refusal<W: Sink>(writer: &mut Writer<'_, W>, refused: Refused)
    ensures { Puts W.contents writer.old writer.new (text_of_refusal refused) }
{
    match refused {
        Refused::BadName => writer.put(b"BadName"),
        Refused::BadOctets => writer.put(b"BadOctets"),
        Refused::UnknownNode(index) => put_numbered(writer, b"UnknownNode ", index),
        Refused::BrokenPath(index) => put_numbered(writer, b"BrokenPath ", index),
        Refused::LoopingPath(index) => put_numbered(writer, b"LoopingPath ", index),
        Refused::NotATree(branch) => put_numbered(writer, b"NotATree ", branch),
        Refused::NameHeld => writer.put(b"NameHeld"),
        Refused::TooManyHops => writer.put(b"TooManyHops"),
        Refused::BadPace => writer.put(b"BadPace"),
        Refused::TooManyStreams => writer.put(b"TooManyStreams"),
        Refused::BudgetShort { link, left } => put_short(writer, link, left),
        Refused::NotHeld => writer.put(b"NotHeld"),
        Refused::AlreadyWithdrawn => writer.put(b"AlreadyWithdrawn"),
        Refused::HistoryFull => writer.put(b"HistoryFull"),
        Refused::Memory => writer.put(b"Memory"),
    }
}

/// Writes the stream's number and the effect cycle.
fn put_receipt<W: Sink>(writer: &mut Writer<'_, W>, receipt: Receipt)
    ensures { Puts W.contents writer.old writer.new (reply_text (Reply.Accepted receipt)) }
{
    writer.put(b"accepted ");
    writer.put_number(receipt.no);
    writer.put(b" ");
    writer.put_number(receipt.effect.0);
}

/// Writes why a call is refused.
fn put_refused<W: Sink>(writer: &mut Writer<'_, W>, refused: Refused)
    ensures { Puts W.contents writer.old writer.new (reply_text (Reply.Refused refused)) }
{
    writer.put(b"refused ");
    put_refusal(writer, refused);
}

/// Writes an answer.
fn put_reply<W: Sink>(writer: &mut Writer<'_, W>, reply: Reply)
    ensures { Puts W.contents writer.old writer.new (reply_text reply) }
{
    match reply {
        Reply::Accepted(receipt) => put_receipt(writer, receipt),
        Reply::Refused(refused) => put_refused(writer, refused),
        Reply::Sealed => writer.put(b"sealed"),
    }
}

/// Writes the line of a call that names a stream, without its end.
pub(crate) fn put_call<W: Sink>(
    writer: &mut Writer<'_, W>,
    seat: u16,
    word: &[u8],
    name: &str,
    reply: Reply,
)
    ensures { Puts W.contents writer.old writer.new (named_text seat word.now name.now reply) }
{
    writer.put_number(seat);
    writer.put(word);
    writer.put(name.as_bytes());
    writer.put(b" ");
    put_reply(writer, reply);
}

/// Writes the line of a Seal, without its end.
pub(crate) fn put_seal<W: Sink>(writer: &mut Writer<'_, W>, seat: u16)
    ensures { Puts W.contents writer.old writer.new (decimal seat ++ codes " seal") }
{
    writer.put_number(seat);
    writer.put(b" seal");
}

/// Writes the line of an entry, without its end.
fn put_text<W: Sink>(writer: &mut Writer<'_, W>, entry: &Entry)
    ensures { Puts W.contents writer.old writer.new (entry_text entry.now.seat (act_of entry.now.call) entry.now.reply) }
{
    match &entry.call {
        Call::Admit(request) => {
            let name = request.name.as_str();
            put_call(writer, entry.seat, b" admit ", name, entry.reply);
        }
        Call::AdmitPaced(request) => {
            let name = request.request().name.as_str();
            put_call(writer, entry.seat, b" admit ", name, entry.reply);
        }
        Call::Withdraw(name) => {
            put_call(
                writer,
                entry.seat,
                b" withdraw ",
                name.as_str(),
                entry.reply,
            );
        }
        Call::Seal => put_seal(writer, entry.seat),
    }
}

/// Writes the line of an entry.
fn put_entry<W: Sink>(writer: &mut Writer<'_, W>, entry: &Entry)
    ensures { Puts W.contents writer.old writer.new (line_of_entry (recorded_of entry.now)) }
{
    put_text(writer, entry);
    writer.put_byte(b'\n');
}

/// Writes the text of a history, as [`write_history`] returns it.
pub fn put_history<W: Sink>(writer: &mut Writer<'_, W>, entries: &[Entry])
    ensures { Puts W.contents writer.old writer.new (history_text (map recorded_of entries.now)) }
{
    for entry in entries {
        put_entry(writer, entry);
    }
}

/// Returns the text of a history, with one line for each entry, in their order, or `Memory` if an allocation fails. The line of a call is
/// `SEAT admit NAME REPLY` or `SEAT withdraw NAME REPLY`, with the name as it was requested. The line of a Seal is `SEAT seal`. REPLY is
/// `accepted NO EFFECT`, with the stream's number and the cycle from which the call has its effect, or `refused FAULT`, with the refusal's
/// name and its values.
pub fn write_history(alloc: Global, entries: &[Entry]) -> Result<Vec<u8>, Memory>
    ensures { IfOk result (λ text. text.items ≡ history_text (map recorded_of entries.now)) }
{
    let mut reported = CheckedSink::new(Vec::new(alloc));
    let mut writer = Writer::new(&mut reported, Buffer::new(alloc)?);
    put_history(&mut writer, entries);
    let _written = writer.close();
    written_text(reported)
}
