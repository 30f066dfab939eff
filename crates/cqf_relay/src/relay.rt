//! A bridge whose links go on separately.
ghost use Rattle.cqf_relay.specs.Sending.{IsTidy};
ghost use Rattle.std.specs.Arc.{arc_value};
ghost use Rattle.std.specs.Prelude.{◌≡◌, ◌<◌, ◌≤◌, All, IfOk, OnOk, [], length, map, true, false};
ghost use Rattle.cqf_model.specs.Domain.{node_is};
ghost use Rattle.cqf_relay.specs.Standing.{AreNewInlets, AreNewOutlets, AreOfCycle, GoesOnAlone, HandsOn, IsOver, KeepsBack, LearnOnEach, LearnsRows, LetsGo, MayReach};
ghost use Rattle.cqf_relay.specs.Standing.{NeedsHaveCome, SendsOn, StandsSo, TakesSegment, TakesTable, is_bridge, nothing_yet};

use crate::edge::Edge;
use crate::inlet::Inlet;
use crate::moving::Segment;
use crate::outlet::Outlet;
use crate::queue::Queued;
use cqf_admission::Table;
use cqf_model::{Dropped, Node, Offered, Row};
use cqf_topology::Domain;
use cqf_trace::{BridgeTrace, Trace};
use cqf_units::{Cycle, Memory};
use std::alloc::Global;
use std::mem::replace;
use std::sync::Arc;

/// A bridge takes tables of at most this many cycles beyond those that all its links have sent. So cycles aren't closed far ahead of what
/// is sent.
const AHEAD: u32 = 64;

/// A bridge of a run of `cycles` cycles: how many tables it has taken, its links by number, and its edge.
#[derive(Drop)]
pub struct Relay {
    /// The relays of a run share one domain.
    domain: Arc<Domain>,
    number: u16,
    cycles: u32,
    tables: u32,
    /// The links that end in the bridge.
    inlets: Vec<Inlet>,
    edge: Edge,
    /// The links that leave the bridge.
    outlets: Vec<Outlet>,
    /// One more than the number of the last known row; 0 if no row is known.
    known: u64,
    /// Working memory for the frames that a link sends in a cycle.
    queue: Vec<Queued>,
}

/// Returns whether a node is the bridge of this number.
fn is_bridge(node: Node, number: u16) -> bool
    ensures { result ≡ node_is node number }
{
    match node {
        Node::Bridge(bridge) => bridge == number,
        Node::Station(_) => false,
    }
}

/// Returns whether a node is a bridge.
fn is_some_bridge(node: Node) -> bool
    ensures { result ≡ is_bridge node }
{
    match node {
        Node::Bridge(_) => true,
        Node::Station(_) => false,
    }
}

/// Returns the links that end in a bridge, by number, which have brought nothing yet.
fn new_inlets(alloc: Global, domain: &Domain, number: u16) -> Result<Vec<Inlet>, Memory>
    ensures { IfOk result (λ inlets. AreNewInlets domain.now number inlets.items) }
{
    let mut inlets = Vec::new(alloc);
    for link in 0..domain.links() {
        if is_bridge(domain.link(link).to, number) {
            inlets.push(Inlet::new(alloc, link))?;
        }
    }
    Ok(inlets)
}

/// Returns the links that leave a bridge, by number, which have sent nothing yet.
fn new_outlets(alloc: Global, domain: &Domain, number: u16) -> Result<Vec<Outlet>, Memory>
    ensures { IfOk result (λ outlets. AreNewOutlets domain.now number outlets.items) }
{
    domain.know();
    let mut outlets = Vec::new(alloc);
    for index in 0..domain.links() {
        let link = domain.link(index);
        if link.from == number {
            let onward = is_some_bridge(link.to);
            let cycle_time = domain.cycle_time();
            outlets.push(Outlet::new(alloc, cycle_time, index, link, onward))?;
        }
    }
    Ok(outlets)
}

/// Makes each link learn a row.
fn learn_on_each(outlets: &mut [Outlet], row: &Row) -> Result<(), Memory>
    ensures { OnOk result (LearnOnEach row.now outlets.old outlets.new) }
{
    for index in 0..outlets.len() {
        outlets[index].learn(row)?;
    }
    Ok(())
}

impl Relay {
    /// Returns the bridge of this number in a run of `cycles` cycles, before it has done anything. It shares the domain with the caller.
    /// Returns `Memory` if an allocation fails.
    pub fn new(
        alloc: Global,
        domain: &Arc<Domain>,
        number: u16,
        cycles: u32,
    ) -> Result<Relay, Memory>
        ensures number { IfOk result (λ relay. relay.number ≡ number) }
        ensures cycles { IfOk result (λ relay. relay.cycles ≡ cycles) }
        ensures drops { IfOk result (λ relay. relay.edge.drops.items ≡ []) }
        ensures stands { IfOk result (StandsSo (arc_value domain.now) nothing_yet (λ l. [])) }
        ensures tidy { IfOk result (λ relay. All IsTidy relay.outlets.items) }
    {
        Ok(Relay {
            domain: Arc::try_clone(domain)?,
            number,
            cycles,
            tables: 0,
            inlets: new_inlets(alloc, domain, number)?,
            edge: Edge::new(alloc, number),
            outlets: new_outlets(alloc, domain, number)?,
            known: 0,
            queue: Vec::new(alloc),
        })
    }

    /// Returns the number of the bridge.
    pub fn number(&self) -> u16
        ensures { result ≡ self.now.number }
    {
        self.number
    }

    /// Returns the domain.
    pub fn domain(&self) -> &Domain
        ensures { result.now ≡ arc_value self.now.domain }
    {
        &self.domain
    }

    /// Returns the number of cycles of the run.
    pub fn cycles(&self) -> u32
        ensures { result ≡ self.now.cycles }
    {
        self.cycles
    }

    /// Returns how many tables were taken. The next table is that of the cycle of this number.
    pub fn tables(&self) -> u32
        ensures { result ≡ self.now.tables }
    {
        self.tables
    }

    /// Returns the links that leave the bridge, by number.
    pub fn outlets(&self) -> &[Outlet]
        ensures { result.now ≡ self.now.outlets.items }
    {
        self.outlets.as_slice()
    }

    /// Returns what a link that leaves the bridge has sent since its last segment was taken. `index` is the link's index among these links.
    pub fn segment_of(&mut self, alloc: Global, index: usize) -> Segment
        requires { index < length self.old.outlets.items }
        ensures { HandsOn index self.old self.new result }
    {
        self.outlets[index].segment(alloc)
    }

    /// Takes back the last segment of a link, which couldn't be handed on. `index` is the link's index among the links that leave the
    /// bridge, and `reported` is the cycle up to which the link had handed on before that segment was taken.
    pub fn keep_back(&mut self, index: usize, reported: u32, segment: Segment)
        requires { index < length self.old.outlets.items }
        ensures { KeepsBack index reported segment self.old self.new }
    {
        self.outlets[index].keep_back(reported, segment);
    }

    /// Learns the new rows of the next table. By number they follow the known rows.
    fn learn_rows(&mut self, table: &Table) -> Result<(), Memory>
        ensures { OnOk result (LearnsRows table.now.rows self.old self.new) }
    {
        let known = self.known;
        let rows = table.rows();
        let first = rows.partition_point(|row| u64::from(row.no) < known);
        for row in &rows[first..] {
            learn_on_each(self.outlets.as_mut_slice(), row)?;
            self.known = u64::from(row.no) + 1;
        }
        Ok(())
    }

    /// Returns whether the bridge takes a table now: there is a next one, and each link has sent more than `tables() - AHEAD` cycles.
    pub fn wants_table(&self) -> bool
        ensures { result ≡ true → self.now.tables < self.now.cycles }
    {
        self.tables < self.cycles
            && self
                .outlets
                .iter()
                .all(|it| self.tables < it.sent().saturating_add(AHEAD))
    }

    /// Takes the table of the next cycle, with the bridge's offers of the cycle, by instant, then index. Returns `Memory` if an allocation
    /// fails.
    pub fn take_table(&mut self, table: &Table, offers: &[Offered]) -> Result<(), Memory>
        requires early { self.old.tables < self.old.cycles }
        requires offers { AreOfCycle (arc_value self.old.domain) self.old.tables offers.now }
        ensures { OnOk result (TakesTable table.now.rows offers.now self.old self.new) }
    {
        self.learn_rows(table)?;
        let cycle = Cycle(self.tables);
        self.edge.take(&self.domain, cycle, table, offers)?;
        self.tables += 1;
        Ok(())
    }

    /// Takes the next segment that the inlet at an index brought. Returns `Memory` if an allocation fails.
    pub fn take_segment(&mut self, index: usize, segment: &Segment) -> Result<(), Memory>
        requires { index < length self.old.inlets.items }
        ensures { OnOk result (TakesSegment index segment.now self.old self.new) }
    {
        self.inlets[index].take(segment)
    }

    /// Returns the cycle up to which everything that a link needs has arrived, exclusive.
    fn has_come(&self, index: usize) -> u32
        requires { index < length self.now.outlets.items }
        ensures tables { result ≤ self.now.tables }
        ensures needed { NeedsHaveCome index result self.now }
    {
        let mut have = self.tables;
        for inlet in self.inlets.as_slice() {
            if inlet.upto < have && self.outlets[index].needs(inlet.link) {
                have = inlet.upto;
            }
        }
        have
    }

    /// Returns the cycle up to which a link may send, exclusive: one more than has arrived, within the run and the link's own limit.
    fn reach(&self, index: usize) -> u32
        requires { index < length self.now.outlets.items }
        ensures { MayReach index result self.now }
    {
        let most = self.outlets[index].most();
        self.has_come(index)
            .saturating_add(1)
            .min(self.cycles)
            .min(most)
    }

    /// Returns whether some link may go on.
    pub fn may_send(&self) -> bool {
        for index in 0..self.outlets.len() {
            if self.reach(index) > self.outlets[index].sent() {
                return true;
            }
        }
        false
    }

    /// Makes a link send as far as it may.
    fn send_on(&mut self, index: usize) -> Result<(), Memory>
        requires { index < length self.old.outlets.items }
        ensures { OnOk result (SendsOn index self.old self.new) }
    {
        let until = self.reach(index);
        self.outlets[index].send_to(
            until,
            self.inlets.as_slice(),
            &self.edge.log,
            &mut self.queue,
        )
    }

    /// Removes what arrived in cycles that no link needs any more.
    fn let_go(&mut self)
        ensures { LetsGo self.old self.new }
    {
        let mut least = self.tables;
        for outlet in self.outlets.as_slice() {
            least = least.min(outlet.sent().saturating_sub(1));
        }
        for index in 0..self.inlets.len() {
            self.inlets[index].log.let_go(least);
        }
        self.edge.log.let_go(least);
    }

    /// Makes each link send as far as it may. Returns `Memory` if an allocation fails.
    pub fn send(&mut self) -> Result<(), Memory>
        ensures { OnOk result (GoesOnAlone self.old self.new) }
    {
        for index in 0..self.outlets.len() {
            self.send_on(index)?;
        }
        self.let_go();
        Ok(())
    }

    /// Returns whether all is over: each table and each segment was taken, and each link has sent all cycles, and handed them on if it ends
    /// in another bridge.
    pub fn is_over(&self) -> bool
        ensures over { result ≡ true → IsOver self.now }
        ensures some { result ≡ false → 0 < self.now.cycles }
    {
        self.tables >= self.cycles
            && self.outlets.iter().all(|it| it.is_over(self.cycles))
            && self.inlets.iter().all(|it| it.upto >= self.cycles)
    }

    /// Returns what the bridge has sent and dropped, and removes it from the bridge. Returns `Memory` if an allocation fails.
    pub fn take_bridge_trace(&mut self, alloc: Global) -> Result<BridgeTrace, Memory>
        ensures traces { IfOk result (λ bridge_trace. bridge_trace.traces.items ≡ map (λ outlet. outlet.trace) self.old.outlets.items) }
        ensures drops { IfOk result (λ bridge_trace. bridge_trace.drops ≡ self.old.edge.drops) }
    {
        let outlets = replace(&mut self.outlets, Vec::new(alloc));
        let drops: Vec<Dropped> = replace(&mut self.edge.drops, Vec::new(alloc));
        let mut traces: Vec<Trace> = Vec::new(alloc);
        for outlet in outlets {
            traces.push(outlet.into_trace())?;
        }
        Ok(BridgeTrace { traces, drops })
    }
}
