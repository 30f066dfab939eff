//! The starts and drops of frames, written line by line.
ghost use Rattle.std.specs.Prelude.{◌≡◌, ◌≤◌, ◌<◌, ◌^◌, ◌∷◌, [], All, List, length, min};
ghost use Rattle.cqf_model.specs.declared.frames.Started.{Started as AStart};
ghost use Rattle.cqf_instants.specs.Progress.{AreStartsOf};
ghost use Rattle.cqf_model.specs.Domain.{delay_of, octet_time_of};
ghost use Rattle.cqf_laws_timing.specs.Latency.{whole_of};
ghost use Rattle.cqf_output.specs.Writer.{Puts};
ghost use Rattle.cqf_report.specs.Written.{line_of_fields};
ghost use Rattle.cqf_program_summary.specs.Hops.Gathered.{IsLegInTime};
ghost use Rattle.cqf_program_summary.specs.declared.hops.legs.Leg.{Leg as ALeg};
ghost use Rattle.cqf_program_summary.specs.Hops.Rounds.{AreWrittenLegs, CanBeWritten, IsLater, RoundCanBeWritten, SomeCanBeWritten, SomeRoundCanBeWritten};
ghost use Rattle.cqf_program_summary.specs.Hops.Rounds.{StandsAt, WritesRound, no_round, source_of, written_from};
ghost use Rattle.cqf_program_summary.specs.Hops.Text.{dropped_fields, end_of_start, hops_header, leg_fields};
ghost use Rattle.cqf_program_summary.specs.Hops.Text.{lines_of_legs, started_fields, text_of_legs};

use crate::hops::legs::Leg;
use crate::hops::rounds::Round;
use crate::hops::steps::{HopsRun, LegsUnderWay};
use crate::hops::wanting::stream_of;
use cqf_model::{Dropped, Offer, Started};
use cqf_output::{Sink, Writer};
use cqf_report::reason_name;
use cqf_topology::{Domain, put_bridge, put_link};
use cqf_units::{octet_ticks, time_in_ticks};

/// Returns the time of an octet on a link, in ticks of 40 picoseconds; 0 for a link that the domain lacks.
fn octet_time_of(domain: &Domain, link: u16) -> u64
    ensures value { result ≡ octet_time_of domain.now link }
{
    if link >= domain.links() {
        return 0;
    }
    octet_ticks(domain.link(link).rate)
}

/// Returns a link's delay, in nanoseconds; 0 for a link that the domain lacks.
fn delay_of(domain: &Domain, link: u16) -> u64
    ensures { result ≡ delay_of domain.now link }
{
    if link >= domain.links() {
        return 0;
    }
    u64::from(domain.link(link).delay)
}

/// Returns the instant, in nanoseconds, at which a frame that starts has left the bridge.
fn end_of(domain: &Domain, started: &Started) -> u64
    requires { whole_of domain.now started.now < 2 ^ 64 }
    ensures { result ≡ end_of_start domain.now started.now }
{
    let octets = u64::from(started.octets) + 8;
    started.start.0 + time_in_ticks(octets, octet_time_of(domain, started.link))
}

/// Returns the instant, in nanoseconds, at which a frame that starts is whole at the link's end.
fn whole_of(domain: &Domain, started: &Started) -> u64
    requires { whole_of domain.now started.now < 2 ^ 64 }
    ensures { result ≡ whole_of domain.now started.now }
{
    end_of(domain, started) + delay_of(domain, started.link)
}

/// Puts the line of a start of a stream's frame.
fn put_started<W: Sink>(
    writer: &mut Writer<'_, W>,
    domain: &Domain,
    stream: &str,
    started: &Started,
)
    requires { whole_of domain.now started.now < 2 ^ 64 }
    ensures { Puts W.contents writer.old writer.new (line_of_fields (started_fields domain.now stream.now started.now)) }
{
    writer.put_number(started.frame);
    writer.put_byte(b',');
    writer.put(stream.as_bytes());
    writer.put_byte(b',');
    writer.put_number(started.octets);
    writer.put_byte(b',');
    writer.put_number(started.cycle.0);
    writer.put_byte(b',');
    put_link(writer, domain, started.link);
    writer.put_byte(b',');
    writer.put_number(started.start.0);
    writer.put_byte(b',');
    writer.put_number(end_of(domain, started));
    writer.put_byte(b',');
    writer.put_number(whole_of(domain, started));
    writer.put_byte(b',');
    writer.put_byte(b'\n');
}

/// Puts the fields of a drop after its bridge.
fn put_reason<W: Sink>(writer: &mut Writer<'_, W>, reason: &[u8])
    ensures { Puts W.contents writer.old writer.new (line_of_fields ([] ∷ [] ∷ [] ∷ reason.now ∷ [])) }
{
    writer.put(b",,,");
    writer.put(reason);
    writer.put_byte(b'\n');
}

/// Puts the line of a drop of a stream's frame.
fn put_dropped<W: Sink>(
    writer: &mut Writer<'_, W>,
    domain: &Domain,
    stream: &str,
    dropped: &Dropped,
)
    ensures { Puts W.contents writer.old writer.new (line_of_fields (dropped_fields domain.now stream.now dropped.now)) }
{
    writer.put_number(dropped.frame);
    writer.put_byte(b',');
    writer.put(stream.as_bytes());
    writer.put_byte(b',');
    writer.put_number(dropped.octets);
    writer.put_byte(b',');
    writer.put_number(dropped.cycle.0);
    writer.put_byte(b',');
    put_bridge(writer, domain, dropped.bridge);
    writer.put_byte(b',');
    let reason = reason_name(dropped.reason);
    put_reason(writer, reason.as_bytes());
}

/// Puts the line of a start or a drop of one of the offers' frames.
fn put_leg<W: Sink>(writer: &mut Writer<'_, W>, domain: &Domain, offers: &[Offer], leg: &Leg)
    requires { IsLegInTime domain.now leg.now }
    ensures { Puts W.contents writer.old writer.new (line_of_fields (leg_fields domain.now offers.now leg.now)) }
{
    match leg {
        Leg::Started(started) => {
            put_started(writer, domain, stream_of(offers, started.frame), started)
        }
        Leg::Dropped(dropped) => {
            put_dropped(writer, domain, stream_of(offers, dropped.frame), dropped)
        }
    }
}

/// Puts the header.
fn put_header<W: Sink>(writer: &mut Writer<'_, W>)
    ensures { Puts W.contents writer.old writer.new (line_of_fields hops_header) }
{
    writer.put(b"frame,stream,octets,cycle,where,start,end,whole,dropped\n");
}

/// Puts the lines.
fn put_each<W: Sink>(writer: &mut Writer<'_, W>, domain: &Domain, offers: &[Offer], legs: &[Leg])
    requires { All (IsLegInTime domain.now) legs.now }
    ensures { Puts W.contents writer.old writer.new (lines_of_legs domain.now offers.now legs.now) }
{
    for leg in legs {
        put_leg(writer, domain, offers, leg);
    }
}

/// Puts the legs of a round, in order.
fn put_round<W: Sink>(
    writer: &mut Writer<'_, W>,
    domain: &Domain,
    run: &HopsRun<'_>,
    round: &Round,
    under_way: &mut LegsUnderWay,
)
    requires reported { under_way.old.pass.reported ≡ min under_way.old.at.cycles under_way.old.pass.basis.cycles }
    requires next { IsLater under_way.old.at round.now }
    requires drops { round.now.drops ≤ length run.now.drops.now }
    requires can { SomeRoundCanBeWritten domain.now (source_of run.now) round.now under_way.old }
    ensures { (starts : List AStart) → RoundCanBeWritten starts domain.now (source_of run.now) round.now under_way.old →
        WritesRound starts domain.now (source_of run.now) round.now under_way.old under_way.new (Puts W.contents writer.old writer.new) }
{
    match under_way.go_through(run, round) {
        Ok(()) => {}
        Err(_) => unreachable!(),
    }
    under_way.sort_here();
    put_each(writer, domain, run.offers, under_way.here.as_slice());
}

/// Puts the text of frames' starts and drops, round by round.
pub(crate) fn put_rounds<W: Sink>(
    writer: &mut Writer<'_, W>,
    domain: &Domain,
    run: &HopsRun<'_>,
    rounds: &[Round],
    under_way: LegsUnderWay,
)
    requires first { under_way.at ≡ no_round }
    requires stands { (starts : List AStart) → AreStartsOf under_way.pass.basis starts → StandsAt starts (source_of run.now) under_way }
    requires can { SomeCanBeWritten (written_from domain.now run.now rounds.now under_way) }
    ensures { (starts : List AStart) (legs : List ALeg) → CanBeWritten starts (written_from domain.now run.now rounds.now under_way) →
        AreWrittenLegs starts (written_from domain.now run.now rounds.now under_way) legs →
        Puts W.contents writer.old writer.new (text_of_legs domain.now run.now.offers.now legs) }
{
    let mut under_way = under_way;
    put_header(writer);
    for round in rounds {
        put_round(writer, domain, run, round, &mut under_way);
    }
}
