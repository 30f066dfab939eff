//! A port of a bridge, with the frames that the bridge recorded at it.
ghost use Rattle.std.specs.Prelude.{◌≡◌, ◌+◌, ◌^◌, ◌<◌, [], ◌∷◌, ◌++◌, All, IfOk, OnOk, OnErr, length, map};
ghost use Rattle.std.specs.List.{flat_map};
ghost use Rattle.cqf_model.specs.Book.{started_backed};
ghost use Rattle.cqf_model.specs.Network.{backed_by, backed_of, sent_by, sent_of};
ghost use Rattle.cqf_model.specs.Port.{Transmission};
ghost use Rattle.cqf_port.specs.PortState.{IsLate, IsOutOfOrder, IsPort};
ghost use Rattle.cqf_bridge.specs.PortRecord.{RunsTo, frames_of, new_record, with_frames};
ghost use Rattle.cqf_bridge.specs.Quiet.{IsNextStartOf, IsQuiet, rested};

use crate::Batch;
use cqf_compile::Plan;
use cqf_model::{Arrival, Sent, Started};
use cqf_port::{Port, PortFault};
use cqf_units::{Cycle, Memory, Nanos};
use std::alloc::{AllocError, Global};
use std::marker::Model;

/// The port of an outgoing link, with the stream of each arrival that it took.
#[derive(Debug, Drop)]
pub(crate) struct Outgoing {
    link: u16,
    port: Port,
    /// For each arrival, the number of its stream; `None` for a background frame.
    streams: Vec<Option<u32>>,
}

impl Model for Outgoing {
    ghost use Rattle.std.specs.Prelude.{◌≡◌, length};
    ghost use Rattle.cqf_bridge.specs.PortRecord.{PortRecord};

    ghost Value = { PortRecord };

    ghost view = { λ o. record { link = o.link; port = o.port; streams = o.streams.items } };

    ghost invariant = { λ o. length o.streams.items ≡ length o.port.arrivals };
}

impl Outgoing {
    /// Returns the port of a link, with nothing recorded.
    pub(crate) fn new(alloc: Global, plan: &Plan, link: u16) -> Outgoing
        requires { link < length plan.now.links }
        ensures { result ≡ new_record plan.now link }
    {
        Outgoing {
            link,
            port: Port::new(
                alloc,
                plan.list(link).copied(),
                plan.domain().link(link).rate,
            ),
            streams: Vec::new(alloc),
        }
    }

    /// Returns the number of the link.
    pub(crate) fn link(&self) -> u16
        ensures link { result ≡ self.now.link }
        ensures beside { length self.now.streams ≡ length self.now.port.arrivals }
        ensures facts { IsPort self.now.port }
    {
        self.port.know();
        self.link
    }

    /// Records a frame: a stream's, or a background frame if `stream` is `None`.
    pub(crate) fn record(&mut self, arrival: Arrival, stream: Option<u32>) -> Result<(), Memory>
        requires gate { arrival.class < 8 }
        requires early { arrival.at.0 < 2 ^ 62 }
        requires in_time { ¬ IsLate self.old.port arrival }
        requires in_order { ¬ IsOutOfOrder self.old.port arrival }
        ensures ok { OnOk result (self.new ≡ with_frames self.old (record { arrival = arrival; stream = stream } ∷ [])) }
        ensures err { OnErr result (self.new ≡ self.old) }
    {
        self.streams.reserve(1)?;
        match self.port.offer(arrival) {
            Ok(()) => {}
            Err(PortFault::Memory) => return Err(AllocError),
            Err(PortFault::Late) => unreachable!(),
            Err(PortFault::OutOfOrder) => unreachable!(),
        }
        self.streams.push(stream).unwrap();
        Ok(())
    }

    /// Runs the port to the end of a cycle. Returns the batch of the cycle, with the streams' frames that start by then. The background
    /// frames that start are appended to `background`.
    pub(crate) fn run_to(
        &mut self,
        alloc: Global,
        cycle: Cycle,
        end: Nanos,
        background: &mut Vec<Started>,
    ) -> Result<Batch, Memory>
        requires later { self.old.port.reached < end.0 }
        requires near { end.0 < self.old.port.reached + 2 ^ 31 }
        requires early { end.0 < 2 ^ 62 }
        ensures { IfOk result (λ batch. RunsTo self.old self.new cycle.0 end.0 batch background.old.items background.new.items) }
    {
        let kept = self.port.starts().len();
        self.port.run_to(end)?;
        let mut batch = Batch::new(alloc, self.link, cycle);
        hand_all(
            self.streams.as_slice(),
            self.port.arrivals(),
            &self.port.starts()[kept..],
            &mut batch,
            background,
        )?;
        Ok(batch)
    }

    /// Returns the instant of the port's next start, and the link, if nothing more is recorded. Returns `None` if there would be no start.
    pub(crate) fn next_start(&self) -> Option<(Nanos, u16)>
        ensures { IsNextStartOf self.now result }
    {
        match self.port.next_start() {
            Some(instant) => Some((instant, self.link)),
            None => None,
        }
    }

    /// Runs the port to an instant before which nothing starts.
    pub(crate) fn rest_to(&mut self, until: Nanos) -> Result<(), Memory>
        requires later { self.old.port.reached < until.0 }
        requires early { until.0 < 2 ^ 62 }
        requires quiet { IsQuiet until.0 self.old }
        ensures { OnOk result (self.new ≡ rested until.0 self.old) }
    {
        self.port.run_to(until)?;
        Ok(())
    }
}

/// Adds the start of an arrival to the batch, or to the background frames if it is of no stream.
fn hand_one(
    stream: Option<u32>,
    arrival: &Arrival,
    start: Nanos,
    batch: &mut Batch,
    background: &mut Vec<Started>,
) -> Result<(), Memory>
    requires { length batch.old.frames + 1 < 2 ^ 32 }
    ensures batch { OnOk result (batch.new ≡ record batch.old { frames = batch.old.frames ++ sent_by start.0 arrival.now stream }) }
    ensures background { OnOk result (background.new.items ≡ background.old.items
        ++ map (started_backed batch.old.cycle batch.old.link) (backed_by start.0 arrival.now stream)) }
{
    match stream {
        Some(stream) => batch.push(Sent {
            start,
            frame: arrival.frame,
            stream,
            octets: arrival.octets,
        })?,
        None => background.push(Started {
            cycle: batch.cycle(),
            link: batch.link(),
            frame: arrival.frame,
            octets: arrival.octets,
            start,
        })?,
    }
    Ok(())
}

/// Adds the start of each of these transmissions to the batch or the background frames.
fn hand_all(
    streams: &[Option<u32>],
    arrivals: &[Arrival],
    made: &[(usize, u64)],
    batch: &mut Batch,
    background: &mut Vec<Started>,
) -> Result<(), Memory>
    requires beside { length streams.now ≡ length arrivals.now }
    requires inside { All (λ (x : Transmission). x.0 < length arrivals.now) made.now }
    requires few { length batch.old.frames + length made.now < 2 ^ 32 }
    ensures batch { OnOk result (batch.new ≡ record batch.old {
      frames = batch.old.frames ++ flat_map (sent_of (frames_of arrivals.now streams.now)) made.now;
    }) }
    ensures background { OnOk result (background.new.items ≡ background.old.items
        ++ map (started_backed batch.old.cycle batch.old.link) (flat_map (backed_of (frames_of arrivals.now streams.now)) made.now)) }
{
    for sent in made {
        let (index, start) = *sent;
        hand_one(
            streams[index],
            &arrivals[index],
            Nanos(start),
            batch,
            background,
        )?;
    }
    Ok(())
}
