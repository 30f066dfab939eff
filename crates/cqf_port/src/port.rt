//! An output port.
ghost use Rattle.std.specs.Prelude.{◌≡◌, ◌+◌, ◌++◌, ◌^◌, ◌<◌, ◌≤◌, ◌↔◌, [], ◌∷◌, ◌==◌, count_by, MatchOption, IsOk, IsErrOf, OnErr, OnOk};
ghost use Rattle.cqf_model.specs.declared.ports.Arrival.{Arrival};
ghost use Rattle.cqf_port.specs.NextStart.{StartsNext, StartsNoMore};
ghost use Rattle.cqf_port.specs.Progress.{IsKeptByAll};
ghost use Rattle.cqf_port.specs.PortState.{Advances, AreOnly, AreTaken, IsLate, IsOutOfOrder, IsPort, RunsUpTo, rules_of, waiting_of};

use crate::egress::Egress;
use crate::late::was_open;
use crate::next::next_ready;
use crate::progress::{Progress, after_arrival};
use crate::run::{hand_on, run_or_stay};
use crate::spans::Schedule;
use cqf_gates::TxList;
use cqf_laws_network::legal_starts_are_unique;
use cqf_model::{Arrival, Start};
use cqf_units::{Memory, Nanos, Rate};
use std::alloc::{AllocError, Global};
use std::marker::Model;

/// Why a port doesn't take an arrival. The port is then unchanged.
#[derive(Clone, Copy, Debug, PartialEq, Eq, Drop, thiserror::Error)]
pub enum PortFault {
    /// The arrival's class was open at some instant from the arrival's own on that the port has passed.
    #[error("the frame comes after its class was open")]
    Late,
    /// The arrival is before the last one taken of its class.
    #[error("the frame comes before the last one of its class")]
    OutOfOrder,
    /// An allocation failed.
    #[error("out of memory")]
    Memory,
}

/// Want of memory, as a port's fault.
impl From<Memory> for PortFault {
    ghost use Rattle.cqf_port.specs.declared.port.PortFault.TheVariants as variant;

    ghost from_gives = { λ _ fault. fault ≡ variant.Memory };

    fn from(_refused: Memory) -> PortFault {
        PortFault::Memory
    }
}

/// Returns what a port at instant 0 knows after taking these arrivals: its progress, and by class the instant of the
/// last arrival.
fn taken_in_turn(arrivals: &[Arrival]) -> (Progress, [Nanos; 8])
    requires { AreTaken arrivals.now }
    ensures { IsKeptByAll arrivals.now result.0 result.1 }
{
    let mut progress = Progress {
        idle_from: Nanos(0),
        heads: [None; 8],
    };
    let mut newest = [Nanos(0); 8];
    for (index, arrival) in arrivals.iter().enumerate() {
        progress = after_arrival(index, arrival.class, progress);
        newest[usize::from(arrival.class)] = arrival.at;
    }
    (progress, newest)
}

/// An output port: a gate control list, eight queues, and the transmissions that strict priority selects from them
/// (IEEE 802.1Q, 8.6.8.1 and 8.6.8.4).
#[derive(Debug, Drop)]
pub struct Port {
    schedule: Schedule,
    rate: Rate,
    /// The instant up to which the port has run.
    reached: Nanos,
    progress: Progress,
    /// By class, the instant of the last arrival, or 0 if there is none.
    newest: [Nanos; 8],
    arrivals: Vec<Arrival>,
    /// The starts in order, each with the index of its arrival and its instant.
    starts: Vec<(usize, u64)>,
}

impl Model for Port {
    ghost use Rattle.cqf_port.specs.PortState.{PortState, rules_of};
    ghost use Rattle.cqf_port.specs.Progress.{IsKept};

    ghost Value = { PortState };

    ghost view = { λ p. record { rules = rules_of p.schedule p.rate; reached = p.reached.0; arrivals = p.arrivals.items; starts = p.starts.items } };

    ghost invariant = { λ p. IsKept (rules_of p.schedule p.rate) p.arrivals.items p.reached.0 p.starts.items p.progress p.newest };
}

impl Port {
    /// Returns a port at instant 0 with this gate control list, which sends on a link of this rate. Allocates nothing
    /// yet.
    pub fn new(alloc: Global, list: TxList, rate: Rate) -> Port
        ensures { result ≡ record { rules = rules_of list rate; reached = 0; arrivals = []; starts = [] } }
    {
        Port {
            schedule: Schedule::new(list),
            rate,
            reached: Nanos(0),
            progress: Progress {
                idle_from: Nanos(0),
                heads: [None; 8],
            },
            newest: [Nanos(0); 8],
            arrivals: Vec::new(alloc),
            starts: Vec::new(alloc),
        }
    }

    /// Returns a port at instant 0 that has taken these arrivals, in their order, without copying them. Each has a
    /// class from 0 to 7 and an instant below 2^62 ns, and none is before an earlier arrival of its class. The port has
    /// this gate control list and sends on a link of this rate. It is the same as a new one to which [`Port::offer`] is
    /// applied for each arrival in turn. Allocates nothing.
    pub fn with_arrivals(alloc: Global, list: TxList, rate: Rate, arrivals: Vec<Arrival>) -> Port
        requires { AreTaken arrivals.items }
        ensures { result ≡ record { rules = rules_of list rate; reached = 0; arrivals = arrivals.items; starts = [] } }
    {
        let (progress, newest) = taken_in_turn(arrivals.as_slice());
        Port {
            schedule: Schedule::new(list),
            rate,
            reached: Nanos(0),
            progress,
            newest,
            arrivals,
            starts: Vec::new(alloc),
        }
    }

    /// Does nothing. It lets a proof use the invariant: what the port has started is legal for the arrivals that it has taken.
    pub fn know(&self)
        ensures facts { IsPort self.now }
    {
        // a use of a field makes the invariant known
        let _ = &self.reached;
    }

    /// Returns the instant up to but excluding which the port has run, at first 0. What it has started by then is legal
    /// for the arrivals that it has taken.
    pub fn now(&self) -> Nanos
        ensures value { result.0 ≡ self.now.reached }
        ensures facts { IsPort self.now }
    {
        self.reached
    }

    /// Returns the instant of the next start from now on, if nothing more is offered, or `None` if none would come.
    /// Allocates nothing. The work grows with the time until then, not with the number of starts so far.
    pub fn next_start(&self) -> Option<Nanos>
        ensures { MatchOption result (StartsNoMore self.now) (λ t. StartsNext self.now t.0) }
    {
        let from = Nanos(self.reached.0.max(self.progress.idle_from.0));
        let egress = Egress {
            schedule: &self.schedule,
            rate: self.rate,
            arrivals: self.arrivals.as_slice(),
        };
        next_ready(&egress, &self.progress.heads, from)
    }

    /// Returns the starts so far, in order, each with the index of its arrival among those taken, from 0, and its
    /// instant in nanoseconds.
    pub fn starts(&self) -> &[(usize, u64)]
        ensures { result.now ≡ self.now.starts }
    {
        self.starts.as_slice()
    }

    /// Returns the arrivals that the port has taken, in order.
    pub fn arrivals(&self) -> &[Arrival]
        ensures { result.now ≡ self.now.arrivals }
    {
        self.arrivals.as_slice()
    }

    /// Returns the number of arrivals of the class, 0 to 7, that haven't started.
    pub fn waiting(&self, class: u8) -> usize
        requires { class < 8 }
        ensures { result ≡ waiting_of self.now.arrivals self.now.starts class }
    {
        match self.progress.heads[usize::from(class)] {
            Some(head) => count_of_class(&self.arrivals.as_slice()[head..], class),
            None => 0,
        }
    }

    /// Takes an arrival of a class from 0 to 7 (8.6.6) with an instant below 2^62 ns. Returns `Late` if the class was
    /// open at some instant from the arrival's own on that the port has passed; otherwise `OutOfOrder` if the arrival
    /// is before the last one taken of its class; otherwise `Memory` if an allocation fails. After an error the port is
    /// unchanged.
    pub fn offer(&mut self, arrival: Arrival) -> Result<(), PortFault>
        requires gate { arrival.class < 8 }
        requires early { arrival.at.0 < 2 ^ 62 }
        ensures late { IsErrOf result PortFault.Late ↔ IsLate self.old arrival }
        ensures out_of_order { IsErrOf result PortFault.OutOfOrder ↔ ((¬ IsLate self.old arrival) × IsOutOfOrder self.old arrival) }
        ensures ok { OnOk result (self.new ≡ record self.old { arrivals = self.old.arrivals ++ arrival ∷ [] }) }
        ensures err { OnErr result (self.new ≡ self.old) }
        ensures facts { IsPort self.new }
    {
        if was_open(&self.schedule, arrival.class, arrival.at, self.reached) {
            return Err(PortFault::Late);
        }
        if arrival.at < self.newest[usize::from(arrival.class)] {
            return Err(PortFault::OutOfOrder);
        }
        self.take(arrival)?;
        Ok(())
    }

    /// Takes an arrival of a class from 0 to 7, with an instant below 2^62 ns, that is known to be neither late nor out
    /// of order for [`Port::offer`]; neither is tested. Returns `Memory` if an allocation fails; the port is then
    /// unchanged.
    pub fn take(&mut self, arrival: Arrival) -> Result<(), Memory>
        requires gate { arrival.class < 8 }
        requires early { arrival.at.0 < 2 ^ 62 }
        requires in_time { ¬ IsLate self.old arrival }
        requires in_order { ¬ IsOutOfOrder self.old arrival }
        ensures ok { OnOk result (self.new ≡ record self.old { arrivals = self.old.arrivals ++ arrival ∷ [] }) }
        ensures err { OnErr result (self.new ≡ self.old) }
        ensures facts { IsPort self.new }
    {
        let class = usize::from(arrival.class);
        let index = self.arrivals.len();
        if self.arrivals.push(arrival).is_err() {
            return Err(AllocError);
        }
        self.newest[class] = arrival.at;
        self.progress = after_arrival(index, arrival.class, self.progress);
        Ok(())
    }

    /// Runs the port up to but excluding an instant, which is below 2^62 ns. [`Port::starts`] lists what it starts on
    /// the way, after what it started before. Nothing changes if the instant isn't after the port's current one.
    /// Returns `Memory` if an allocation fails; the port is then unchanged.
    pub fn run_to(&mut self, until: Nanos) -> Result<(), Memory>
        requires { until.0 < 2 ^ 62 }
        ensures ok { OnOk result (self.old.reached < until.0 → RunsUpTo until.0 self.old self.new) }
        ensures past { until.0 ≤ self.old.reached → IsOk result × (self.new ≡ self.old) }
        ensures err { OnErr result (self.new ≡ self.old) }
        ensures facts { IsPort self.new }
        ensures only { AreOnly self.new }
    {
        legal_starts_are_unique();
        if until <= self.reached {
            return Ok(());
        }
        let egress = Egress {
            schedule: &self.schedule,
            rate: self.rate,
            arrivals: self.arrivals.as_slice(),
        };
        let progress = run_or_stay(
            &egress,
            self.reached,
            until,
            self.progress,
            &mut self.starts,
        )?;
        self.progress = progress;
        self.reached = until;
        Ok(())
    }

    /// Runs the port up to but excluding an instant, which is below 2^62 ns, and appends what it starts on the way to
    /// `given`, in order. Nothing changes if the instant isn't after the port's current one. Returns `Memory` if an
    /// allocation fails; the port and the list are then unchanged.
    pub fn advance(&mut self, until: Nanos, given: &mut Vec<Start>) -> Result<(), Memory>
        requires { until.0 < 2 ^ 62 }
        ensures ok { OnOk result (self.old.reached < until.0 → Advances self.old self.new until.0 given.old.items given.new.items) }
        ensures past { until.0 ≤ self.old.reached → IsOk result × (self.new ≡ self.old) × (given.new.items ≡ given.old.items) }
        ensures err { OnErr result ((self.new ≡ self.old) × (given.new.items ≡ given.old.items)) }
        ensures facts { IsPort self.new }
        ensures only { AreOnly self.new }
    {
        legal_starts_are_unique();
        if until <= self.reached {
            return Ok(());
        }
        let kept = self.starts.len();
        let egress = Egress {
            schedule: &self.schedule,
            rate: self.rate,
            arrivals: self.arrivals.as_slice(),
        };
        let progress = run_or_stay(
            &egress,
            self.reached,
            until,
            self.progress,
            &mut self.starts,
        )?;
        let made = &self.starts.as_slice()[kept..];
        if let Err(refused) = hand_on(self.arrivals.as_slice(), made, given) {
            self.starts.truncate(kept);
            return Err(refused);
        }
        self.progress = progress;
        self.reached = until;
        Ok(())
    }
}

/// Returns the number of the arrivals of the class.
fn count_of_class(arrivals: &[Arrival], class: u8) -> usize
    ensures { result ≡ count_by (λ (x : Arrival). x.class == class) arrivals.now }
{
    arrivals
        .iter()
        .filter(|arrival| arrival.class == class)
        .count()
}
