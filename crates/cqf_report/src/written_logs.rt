//! The log of a ledger, written line by line as a history.

ghost use Rattle.std.specs.Prelude.{map};
ghost use Rattle.cqf_admission.specs.Asking.{asked_paced};
ghost use Rattle.cqf_admission.specs.Ledger.{recorded_in};
ghost use Rattle.cqf_admission.specs.Running.{AreThere};
ghost use Rattle.cqf_output.specs.Writer.{Puts};
ghost use Rattle.cqf_report.specs.HistoryText.{entry_text, history_text, line_of_entry};
ghost use Rattle.cqf_admission.specs.Orders.{StandsIn, act_in};

use crate::history::{put_call, put_seal};
use cqf_admission::{Logged, What, word_of};
use cqf_output::{Sink, Writer};
use cqf_topology::PacedRequest;

/// Writes the line of an entry, without its end.
fn put_text<W: Sink>(
    writer: &mut Writer<'_, W>,
    requests: &[PacedRequest],
    script: &[u8],
    logged: &Logged,
)
    requires { StandsIn (map asked_paced requests.now) script.now logged.now.what }
    ensures { Puts W.contents writer.old writer.new
        (entry_text logged.now.seat (act_in (map asked_paced requests.now) script.now logged.now.what) logged.now.reply) }
{
    match logged.what {
        What::Admit(index) => {
            let name = requests[index].name.as_str();
            put_call(writer, logged.seat, b" admit ", name, logged.reply);
        }
        What::Withdraw { from, octets } => {
            let name = word_of(script, from, octets);
            put_call(writer, logged.seat, b" withdraw ", name, logged.reply);
        }
        What::Seal => put_seal(writer, logged.seat),
    }
}

/// Writes the line of an entry.
fn put_logged<W: Sink>(
    writer: &mut Writer<'_, W>,
    requests: &[PacedRequest],
    script: &[u8],
    logged: &Logged,
)
    requires { StandsIn (map asked_paced requests.now) script.now logged.now.what }
    ensures { Puts W.contents writer.old writer.new (line_of_entry (recorded_in (map asked_paced requests.now) script.now logged.now)) }
{
    put_text(writer, requests, script, logged);
    writer.put_byte(b'\n');
}

/// Writes the text of the history that a log represents, given the requests and the script's text to which the log's
/// entries refer.
pub fn put_log<W: Sink>(
    writer: &mut Writer<'_, W>,
    requests: &[PacedRequest],
    script: &[u8],
    log: &[Logged],
)
    requires { AreThere (map asked_paced requests.now) script.now log.now }
    ensures { Puts W.contents writer.old writer.new (history_text (map (recorded_in (map asked_paced requests.now) script.now) log.now)) }
{
    for logged in log {
        put_logged(writer, requests, script, logged);
    }
}
