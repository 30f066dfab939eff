//! A bridge, cycle by cycle.
ghost use Rattle.std.specs.Prelude.{◌≡◌, ◌+◌, ◌<◌, IfErr, IfOk, OnErr, OnOk, false, length};
ghost use Rattle.cqf_model.specs.Run.{Run};
ghost use Rattle.cqf_bridge.specs.BridgeState.{AreBackedOf, IsBridge, IsNextToSend, IsSpentBy, SendsCycle, new_bridge};
ghost use Rattle.cqf_bridge.specs.Faults.{IsSendFault};
ghost use Rattle.cqf_bridge.specs.Quiet.{IsNextAt, MayPass, passed};
ghost use Rattle.cqf_bridge.specs.Receiving.{CanReceive, IsReceiveFault, IsRunOfBridge, ReceivesCycle};
ghost use Rattle.cqf_model.specs.Limits.{most_cycles};

use crate::checking::{are_batches, links_into};
use crate::outgoing::Outgoing;
use crate::phases::{ReceivePhase, TransmitPhase};
use crate::quiet::rest_ports;
use crate::receiving::receive_frames;
use crate::sending::{end_of, send_ports};
use crate::{Batch, BridgeFault, StreamGates};
use cqf_admission::Table;
use cqf_compile::Plan;
use cqf_model::{Backed, Dropped, Offered, Started};
use cqf_topology::Domain;
use cqf_units::{Cycle, Memory, Nanos};
use std::alloc::Global;
use std::marker::Model;

/// A bridge of a domain, with one port for each link that leaves it (IEEE 802.1Q, Annex T). In each cycle it first sends, then receives.
#[derive(Debug, Drop)]
pub struct Bridge {
    domain: Domain,
    number: u16,
    /// The links that end in it, by number.
    incoming: Vec<u16>,
    /// How many cycles it has sent, and received.
    sent: u32,
    received: u32,
    spent: bool,
    /// The ports by link number.
    ports: Vec<Outgoing>,
    /// The gates of the streams whose frames arrived, kept from cycle to cycle.
    gates: StreamGates,
    /// The background frames that started in the cycle last sent.
    background: Vec<Started>,
}

impl Model for Bridge {
    ghost use Rattle.cqf_bridge.specs.BridgeState.{BridgeState};
    ghost use Rattle.cqf_bridge.specs.Taking.{IsKept};

    ghost Value = { BridgeState };

    ghost view = { λ b. record {
      domain = b.domain;
      number = b.number;
      sent = b.sent;
      received = b.received;
      spent = b.spent;
      ports = b.ports.items;
      background = b.background.items;
    } };

    ghost invariant = { λ b. IsKept (record {
      domain = b.domain;
      number = b.number;
      sent = b.sent;
      received = b.received;
      spent = b.spent;
      ports = b.ports.items;
      background = b.background.items;
    }) b.gates b.incoming.items };
}

/// Returns the ports of the links that leave a bridge, by link number.
fn ports_from(alloc: Global, plan: &Plan, number: u16) -> Result<Vec<Outgoing>, Memory>
    ensures { IfOk result (λ ports. ports.items ≡ (new_bridge plan.now number).ports) }
{
    let mut ports = Vec::new(alloc);
    for link in 0..plan.domain().links() {
        if plan.domain().link(link).from == number {
            ports.push(Outgoing::new(alloc, plan, link))?;
        }
    }
    Ok(ports)
}

impl Bridge {
    /// Returns the bridge of this number in a plan's domain, before cycle 0. Returns `Memory` if an allocation fails.
    pub fn new(alloc: Global, plan: &Plan, number: u16) -> Result<Bridge, Memory>
        requires { number < length plan.now.bridges }
        ensures { IfOk result (λ bridge. bridge ≡ new_bridge plan.now number) }
    {
        let incoming = links_into(alloc, plan.domain(), number)?;
        Ok(Bridge {
            domain: plan.domain().try_copy(alloc)?,
            number,
            incoming,
            sent: 0,
            received: 0,
            spent: false,
            ports: ports_from(alloc, plan, number)?,
            gates: StreamGates::new(alloc),
            background: Vec::new(alloc),
        })
    }

    /// Returns the domain of the bridge.
    pub fn domain(&self) -> &Domain
        ensures value { result.now ≡ self.now.domain }
        ensures facts { IsBridge self.now }
    {
        &self.domain
    }

    /// Returns the bridge's number in the domain.
    pub fn number(&self) -> u16
        ensures { result ≡ self.now.number }
    {
        self.number
    }

    /// Sends a cycle, the next one after those that were received. The ports get the bridge's background frames of the cycle, and run to
    /// the end of the cycle. One batch for each link that leaves the bridge is appended to `batches`, by link number; a batch may be empty.
    /// The caller must ensure that `background` are the bridge's background frames of the cycle in order of instant, then index, and that
    /// the cycle is below 100,000 if it is the next one.
    ///
    /// Returns `Spent` if the bridge is spent, else `WrongCycle` if the cycle isn't the next one or was already sent; nothing is changed
    /// then. Returns `Memory` if an allocation fails; then the bridge is spent, and the batches are unchanged.
    pub fn send(
        &mut self,
        alloc: Global,
        cycle: Cycle,
        background: &[Backed],
        batches: &mut Vec<Batch>,
    ) -> Result<(), BridgeFault>
        requires early { self.old.spent ≡ false → IsNextToSend self.old cycle.0 → cycle.0 < most_cycles }
        requires frames { AreBackedOf self.old.domain self.old.number cycle.0 background.now }
        ensures next { OnOk result ((self.old.spent ≡ false) × IsNextToSend self.old cycle.0) }
        ensures sends { OnOk result (SendsCycle self.old self.new cycle.0 background.now batches.old.items batches.new.items) }
        ensures fault { IfErr result (λ fault. IsSendFault self.old self.new cycle.0 fault) }
        ensures given { OnErr result (batches.new.items ≡ batches.old.items) }
    {
        if self.spent {
            return Err(BridgeFault::Spent);
        }
        if cycle.0 != self.received || self.sent != self.received {
            return Err(BridgeFault::WrongCycle);
        }
        let kept = batches.len();
        let mut started = Vec::new(alloc);
        let phase = TransmitPhase {
            domain: &self.domain,
            cycle,
            background,
        };
        let sent = send_ports(alloc, phase, &mut self.ports, batches, &mut started);
        match sent {
            Ok(()) => {
                self.sent += 1;
                self.background = started;
                Ok(())
            }
            Err(_) => {
                batches.truncate(kept);
                self.spent = true;
                Err(BridgeFault::Memory)
            }
        }
    }

    /// Receives a cycle, the one that was sent last, and returns the drops, by frame. The frames of the batches and the offers are taken in
    /// order of instant: at one instant the links' frames first, by link number, then the offers. A frame that goes on waits at the ports
    /// by whose links its stream goes on, in the class that the stream's gate gives it (IEEE 802.1Q, Annex T). There is one batch for each
    /// link that ends in the bridge, by link number, and the table is the cycle's. The caller must ensure that the offers are those at the
    /// bridge in the cycle, by instant, then index.
    ///
    /// Returns the first of these that applies, and changes nothing then:
    ///
    /// - `Spent` if the bridge is spent.
    /// - `WrongCycle` if the cycle isn't the one sent and not yet received, or the table is of another cycle.
    /// - `StrangeBatch` if the batches aren't these, or have a frame that the table and its link exclude, or that isn't whole here within
    ///   the cycle.
    ///
    /// Otherwise returns `OverOctets` for the first frame that arrived by a link and exceeds the octets that its stream's gate has left,
    /// and `Memory` if an allocation fails; the bridge is spent then.
    pub fn receive(
        &mut self,
        alloc: Global,
        cycle: Cycle,
        table: &Table,
        batches: &[Batch],
        offers: &[Offered],
    ) -> Result<Vec<Dropped>, BridgeFault>
        requires offers { (run : Run) × IsRunOfBridge self.old.domain self.old.number cycle.0 table.now.rows offers.now run }
        ensures next { OnOk result (CanReceive self.old cycle.0 (record { table_cycle = table.now.cycle; rows = table.now.rows; batches = batches.now })) }
        ensures receives { IfOk result (λ drops. (run : Run) → IsRunOfBridge self.old.domain self.old.number cycle.0 table.now.rows offers.now run →
            ReceivesCycle run self.old self.new cycle.0 batches.now drops.items) }
        ensures fault { IfErr result (λ fault. (run : Run) → IsRunOfBridge self.old.domain self.old.number cycle.0 table.now.rows offers.now run →
            IsReceiveFault run self.old self.new cycle.0 (record { table_cycle = table.now.cycle; rows = table.now.rows; batches = batches.now }) fault) }
    {
        if self.spent {
            return Err(BridgeFault::Spent);
        }
        if cycle.0 != self.received || self.sent == self.received || table.cycle().0 != cycle.0 {
            return Err(BridgeFault::WrongCycle);
        }
        let incoming = self.incoming.as_slice();
        if !are_batches(&self.domain, self.number, incoming, cycle, table, batches) {
            return Err(BridgeFault::StrangeBatch);
        }
        let phase = ReceivePhase {
            domain: &self.domain,
            number: self.number,
            cycle,
            table,
        };
        let received = receive_frames(
            alloc,
            phase,
            batches,
            offers,
            &mut self.gates,
            &mut self.ports,
        );
        match received {
            Ok(drops) => {
                self.received += 1;
                Ok(drops)
            }
            Err(fault) => {
                self.spent = true;
                Err(fault)
            }
        }
    }

    /// Returns the background frames that started in the cycle last sent, by link, then instant; none before the first cycle. A refused
    /// call doesn't change them. Requests no memory.
    pub fn background_starts(&self) -> &[Started]
        ensures { result.now ≡ self.now.background }
    {
        self.background.as_slice()
    }

    /// Returns the number of links that leave the bridge.
    pub fn links(&self) -> usize
        ensures { result ≡ length self.now.ports }
    {
        self.ports.len()
    }

    /// Returns the instant of the next start on one of the links that leave the bridge, and the link's number; `index` is the link's index
    /// among these links, by number. Starts that were already sent don't count, and nothing more must arrive. Returns `None` if there would
    /// be no start. Requests no memory.
    pub fn next_start(&self, index: usize) -> Option<(Nanos, u16)>
        requires { index < length self.now.ports }
        ensures { IsNextAt self.now.ports index result }
    {
        self.ports[index].next_start()
    }

    /// Passes over cycles in which the bridge does nothing, from the next one to this one. Its ports run to the end of the cycle without a
    /// start, as if it had sent and received each of these cycles empty. The caller must ensure that nothing arrives at the bridge in them.
    ///
    /// Returns `Memory` if an allocation fails; the bridge is spent then.
    pub fn pass(&mut self, cycle: Cycle) -> Result<(), Memory>
        requires { MayPass self.old cycle.0 }
        ensures passes { OnOk result (self.new ≡ passed cycle.0 self.old) }
        ensures refused { OnErr result (IsSpentBy self.old self.new) }
    {
        let end = end_of(&self.domain, cycle);
        match rest_ports(&mut self.ports, end) {
            Ok(()) => {
                self.sent = cycle.0 + 1;
                self.received = cycle.0 + 1;
                self.background.clear();
                Ok(())
            }
            Err(refused) => {
                self.spent = true;
                Err(refused)
            }
        }
    }
}
