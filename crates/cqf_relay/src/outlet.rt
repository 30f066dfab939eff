//! A link that leaves the bridge.
ghost use Rattle.std.specs.Prelude.{◌≡◌, ◌==◌, ◌≤◌, ◌<◌, ◌^◌, ◌-◌, IfOk, OnOk, true, false};
ghost use Rattle.std.specs.List.{list_any};
ghost use Rattle.cqf_relay.specs.Sending.{IsNewOutlet, KeepsSegmentBack, LearnsOf, SendsCycles, SendsOne, SendsOneCycle, SendsQueue, TakesPending, most_of};

use crate::inlet::Inlet;
use crate::leads::Leads;
use crate::log::{ArrivedFrame, SourceLog};
use crate::moving::{Moving, Segment};
use crate::pending::Pending;
use crate::queue::{Queued, gather, key};
use crate::wire::Wire;
use cqf_model::{Link, Row};
use cqf_trace::{Mark, Trace};
use cqf_units::{Memory, Nanos, octet_ticks};
use std::alloc::Global;
use std::mem::replace;

/// The greatest number of cycles that a link sends at once. If frames wait to be handed on, the cycles are counted from that of the first
/// of them. So only few frames wait, and a segment's cycles can be counted in 16 bits.
const STRIDE: u32 = 256;

/// A link that leaves the bridge: which rows lead to it, how far it has sent, and what it has sent and not yet handed on.
#[derive(Debug, Drop)]
pub struct Outlet {
    wire: Wire,
    leads: Leads,
    /// The cycle up to which it has sent, exclusive, and the cycle up to which it has handed on what it sent, exclusive.
    sent: u32,
    reported: u32,
    pending: Pending,
    trace: Trace,
}

impl Outlet {
    /// Returns the link of a number, which has sent nothing. Requests no memory.
    pub(crate) fn new(
        alloc: Global,
        cycle_time: Nanos,
        number: u16,
        link: Link,
        onward: bool,
    ) -> Outlet
        requires { cycle_time.0 < 2 ^ 32 }
        ensures { IsNewOutlet cycle_time.0 number link onward result }
    {
        Outlet {
            wire: Wire {
                octet_time: octet_ticks(link.rate) as u32,
                delay: link.delay,
                cycle_time: cycle_time.0 as u32,
                onward,
            },
            leads: Leads::new(alloc),
            sent: 0,
            reported: 0,
            pending: Pending::new(alloc),
            trace: Trace::new(alloc, number),
        }
    }

    /// Returns the number of the link.
    pub fn link(&self) -> u16
        ensures { result ≡ self.now.trace.link }
    {
        self.trace.link
    }

    /// Returns the cycle up to which the link has sent, exclusive.
    pub fn sent(&self) -> u32
        ensures { result ≡ self.now.sent }
    {
        self.sent
    }

    /// Returns the cycle up to which the link has handed on what it sent, exclusive.
    pub fn reported(&self) -> u32
        ensures { result ≡ self.now.reported }
    {
        self.reported
    }

    /// Returns whether the link ends in another bridge.
    pub fn is_onward(&self) -> bool
        ensures { result ≡ self.now.wire.onward }
    {
        self.wire.onward
    }

    /// Returns whether the link has something to hand on that the bridge at its end may need: what it sent, if a row leads to the link, or,
    /// after the last of `cycles` cycles, that it is over.
    pub fn has_news(&self, cycles: u32) -> bool
        ensures onward { result ≡ true → self.now.wire.onward ≡ true }
        ensures more { result ≡ true → self.now.reported < self.now.sent }
    {
        self.wire.onward && self.sent > self.reported && (self.leads.used() || self.sent == cycles)
    }

    /// Returns whether the link has sent all of `cycles` cycles, and has handed them on if it ends in another bridge.
    pub(crate) fn is_over(&self, cycles: u32) -> bool
        ensures sent { result ≡ true → cycles ≤ self.now.sent }
        ensures reported { result ≡ true → self.now.wire.onward ≡ true → cycles ≤ self.now.reported }
        ensures some { result ≡ false → 0 < cycles }
    {
        self.sent >= cycles && (!self.wire.onward || self.reported >= cycles)
    }

    /// Returns the link's own limit: the cycle up to which it may send now, exclusive, even if everything that it needs has arrived.
    pub(crate) fn most(&self) -> u32
        ensures { result ≤ most_of self.now }
    {
        if self.pending.frames.is_empty() {
            self.sent.saturating_add(STRIDE)
        } else {
            self.pending.base.saturating_add(STRIDE)
        }
    }

    /// Returns whether a row leads from a link to this one.
    pub(crate) fn needs(&self, link: u16) -> bool
        ensures { result ≡ list_any (λ it. it == link) self.now.leads.needs.items }
    {
        self.leads.needs(link)
    }

    /// Learns a row, after those that it knows. Returns `Memory` if an allocation fails.
    pub(crate) fn learn(&mut self, row: &Row) -> Result<(), Memory>
        ensures { OnOk result (LearnsOf row.now self.old self.new) }
    {
        self.leads
            .learn(row.no, row.tree.as_slice(), self.trace.link)
    }

    /// Sends a frame in a cycle, `offset` nanoseconds from the cycle's beginning, if there is room. Returns the offset at which the next
    /// frame may start.
    fn send_one(&mut self, cycle: u32, offset: u64, came: ArrivedFrame) -> Result<u64, Memory>
        requires { offset < 2 ^ 40 }
        ensures { IfOk result (SendsOne cycle offset came self.old self.new) }
    {
        if !self.wire.has_room(offset, came.octets) {
            return Ok(offset);
        }
        let begins = u64::from(cycle) * u64::from(self.wire.cycle_time);
        self.trace.keep(Mark {
            start: Nanos(begins + offset),
            frame: came.frame,
            octets: came.octets,
        })?;
        if self.wire.onward {
            let moving = Moving {
                at: (offset + self.wire.time_of(came.octets)) as u32,
                frame: came.frame,
                row: came.row,
                octets: came.octets as u16,
                after: 0,
            };
            self.pending.hand(cycle, moving)?;
        }
        Ok(offset + self.wire.taken_by(came.octets))
    }

    /// Sends frames in a cycle, one after the other, from its beginning.
    fn send_queue(&mut self, cycle: u32, queue: &[Queued]) -> Result<(), Memory>
        ensures { OnOk result (SendsQueue cycle queue.now self.old self.new) }
    {
        let mut offset = 0;
        for queued in queue {
            offset = self.send_one(cycle, offset, queued.came)?;
        }
        Ok(())
    }

    /// Sends in the next cycle what arrived in the cycle before it.
    fn send_cycle(
        &mut self,
        inlets: &[Inlet],
        edge: &SourceLog,
        queue: &mut Vec<Queued>,
    ) -> Result<(), Memory>
        requires { self.old.sent < 2 ^ 32 - 1 }
        ensures { OnOk result (SendsOneCycle inlets.now edge.now self.old self.new) }
    {
        queue.clear();
        if let Some(before) = self.sent.checked_sub(1) {
            gather(&self.leads, inlets, edge, before, queue)?;
        }
        queue.sort_unstable_by_key(|queued| key(queued));
        self.send_queue(self.sent, queue.as_slice())?;
        self.sent += 1;
        Ok(())
    }

    /// Sends up to a cycle, exclusive: in each of these cycles what arrived in the cycle before it. Returns `Memory` if an allocation
    /// fails.
    pub(crate) fn send_to(
        &mut self,
        until: u32,
        inlets: &[Inlet],
        edge: &SourceLog,
        queue: &mut Vec<Queued>,
    ) -> Result<(), Memory>
        ensures { OnOk result (SendsCycles until inlets.now edge.now self.old self.new) }
    {
        for _cycle in self.sent..until {
            self.send_cycle(inlets, edge, queue)?;
        }
        Ok(())
    }

    /// Returns what was sent since the last segment, as one segment. Requests no memory.
    pub(crate) fn segment(&mut self, alloc: Global) -> Segment
        ensures { TakesPending self.old self.new result }
    {
        self.reported = self.sent;
        Segment {
            from: self.pending.base,
            upto: self.sent,
            frames: replace(&mut self.pending.frames, Vec::new(alloc)),
        }
    }

    /// Takes back the last segment, which couldn't be handed on. `reported` is the cycle up to which the link had handed on before that segment
    /// was taken. Afterwards the link is as it was then.
    pub(crate) fn keep_back(&mut self, reported: u32, segment: Segment)
        ensures { KeepsSegmentBack reported segment self.old self.new }
    {
        self.reported = reported;
        self.pending = Pending {
            base: segment.from,
            frames: segment.frames,
        };
    }

    /// Returns what the link has sent.
    pub(crate) fn into_trace(self) -> Trace
        ensures { result ≡ self.trace }
    {
        self.trace
    }
}
