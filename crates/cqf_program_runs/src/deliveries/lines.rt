//! Deliveries, written line by line.
ghost use Rattle.std.specs.Prelude.{ℕ, ◌≡◌, ◌∷◌, [], Option};
ghost use Rattle.cqf_output.specs.Writer.{Puts};
ghost use Rattle.cqf_report.specs.Written.{line_of_fields};
ghost use Rattle.cqf_program_runs.specs.Deliveries.Text.{passage_fields, deliveries_header, delivery_fields};
ghost use Rattle.cqf_program_runs.specs.Deliveries.Text.{lines_of_deliveries, name_of_fate, text_of_deliveries};
ghost use Rattle.cqf_program_runs.specs.Deliveries.Text.{text_of_instant, text_of_listeners_latency};
ghost use Rattle.cqf_program_runs.specs.Deliveries.Ending.{deliveries_over, over_of};
ghost use Rattle.cqf_program_runs.specs.Deliveries.Following.{CanFollow, IsFollowed};
ghost use Rattle.cqf_units.specs.declared.timing.Nanos.{Nanos as AnInstant};

use crate::deliveries::delivery::{Delivery, Fate, Journey, Passage, latency};
use crate::deliveries::few::Few;
use crate::deliveries::made::{CompletedRun, put_those_of};
use crate::deliveries::under_way::UnderWay;
use cqf_output::{Sink, Writer};
use cqf_program_plans::put_deadline;
use cqf_report::reason_name;
use cqf_units::Nanos;

impl Fate {
    /// Returns the word for the fate: `delivered`, `late`, `under-path`, or the reason of a drop as in a book.
    pub fn name(self) -> &'static str
        ensures { result.now ≡ name_of_fate self }
    {
        match self {
            Fate::Delivered => "delivered",
            Fate::Late => "late",
            Fate::UnderWay => "under-way",
            Fate::Dropped(reason) => reason_name(reason),
        }
    }
}

/// Puts the header of deliveries.
fn put_header<W: Sink>(writer: &mut Writer<'_, W>)
    ensures { Puts W.contents writer.old writer.new (line_of_fields deliveries_header) }
{
    writer.put(b"frame,stream,octets,at,listener,whole,latency,deadline,what\n");
}

/// Puts the instant at which a frame is whole, if there is one.
fn put_instant<W: Sink>(writer: &mut Writer<'_, W>, whole: Option<Nanos>)
    ensures { Puts W.contents writer.old writer.new (text_of_instant whole) }
{
    if let Some(whole) = whole {
        writer.put_number(whole.0);
    }
}

/// Puts how long the frame takes, if it is whole.
fn put_latency<W: Sink>(writer: &mut Writer<'_, W>, at: Nanos, whole: Option<Nanos>)
    ensures { Puts W.contents writer.old writer.new (text_of_listeners_latency at.0 whole) }
{
    if let Some(whole) = whole {
        writer.put_number(latency(at, whole));
    }
}

/// Puts the fields of a frame that goes to a listener, and the last field.
fn put_journey<W: Sink>(writer: &mut Writer<'_, W>, at: Nanos, journey: &Journey, last: &[u8])
    ensures { Puts W.contents writer.old writer.new (line_of_fields (passage_fields at.0 (Passage.Goes journey.now) (last.now ∷ []))) }
{
    writer.put(journey.listener.as_bytes());
    writer.put_byte(b',');
    put_instant(writer, journey.whole);
    writer.put_byte(b',');
    put_latency(writer, at, journey.whole);
    writer.put_byte(b',');
    put_deadline(writer, journey.deadline);
    writer.put_byte(b',');
    writer.put(last);
    writer.put_byte(b'\n');
}

/// Puts the empty fields of a dropped frame, and the last field.
fn put_drop<W: Sink>(writer: &mut Writer<'_, W>, last: &[u8])
    ensures { Puts W.contents writer.old writer.new (line_of_fields ([] ∷ [] ∷ [] ∷ [] ∷ last.now ∷ [])) }
{
    writer.put(b",,,,");
    writer.put(last);
    writer.put_byte(b'\n');
}

/// Puts the fields of a frame's passage, and the last field.
fn put_passage<W: Sink>(writer: &mut Writer<'_, W>, at: Nanos, passage: &Passage, last: &[u8])
    ensures { Puts W.contents writer.old writer.new (line_of_fields (passage_fields at.0 passage.now (last.now ∷ []))) }
{
    match passage {
        Passage::Dropped(_) => put_drop(writer, last),
        Passage::Goes(journey) => put_journey(writer, at, journey, last),
    }
}

/// Puts the line of a delivery.
fn put_delivery<W: Sink>(writer: &mut Writer<'_, W>, delivery: &Delivery)
    ensures { Puts W.contents writer.old writer.new (line_of_fields (delivery_fields delivery.now)) }
{
    writer.put_number(delivery.frame);
    writer.put_byte(b',');
    writer.put(delivery.stream.as_bytes());
    writer.put_byte(b',');
    writer.put_number(delivery.octets);
    writer.put_byte(b',');
    writer.put_number(delivery.at.0);
    writer.put_byte(b',');
    let last = delivery.fate().name();
    put_passage(writer, delivery.at, &delivery.passage, last.as_bytes());
}

/// Puts a line for each delivery.
fn put_each<W: Sink>(writer: &mut Writer<'_, W>, deliveries: &[Delivery])
    ensures { Puts W.contents writer.old writer.new (lines_of_deliveries deliveries.now) }
{
    for delivery in deliveries {
        put_delivery(writer, delivery);
    }
}

/// Puts a line for each delivery of a run that is over, whose frames are followed from the first offer on.
fn put_all<W: Sink>(
    writer: &mut Writer<'_, W>,
    here: Few,
    under_way: UnderWay,
    ended: &CompletedRun<'_>,
)
    requires { CanFollow ended.now 0 under_way }
    ensures { (whole : ℕ → ℕ → Option AnInstant) → IsFollowed (over_of ended.now whole) 0 under_way →
        Puts W.contents writer.old writer.new (lines_of_deliveries (deliveries_over (over_of ended.now whole))) }
{
    let (mut here, mut under_way) = (here, under_way);
    for index in 0..ended.offers.len() {
        put_those_of(&mut here, ended, &mut under_way, index);
        put_each(writer, here.as_slice());
    }
}

/// Puts the text of the deliveries of a run that is over, whose frames are followed from the first offer on. `here` is
/// room for the deliveries of one offer; what it had is discarded.
pub(crate) fn put_deliveries<W: Sink>(
    writer: &mut Writer<'_, W>,
    here: Few,
    under_way: UnderWay,
    ended: &CompletedRun<'_>,
)
    requires { CanFollow ended.now 0 under_way }
    ensures { (whole : ℕ → ℕ → Option AnInstant) → IsFollowed (over_of ended.now whole) 0 under_way →
        Puts W.contents writer.old writer.new (text_of_deliveries (deliveries_over (over_of ended.now whole))) }
{
    put_header(writer);
    put_all(writer, here, under_way, ended);
}
