//! Notes on streams of a plan that reserve much more than they send.
ghost use Rattle.std.specs.Prelude.{All, IfOk, map};
ghost use Rattle.cqf_edge.specs.EdgeStreams.{IsWrittenStream};
ghost use Rattle.cqf_network.specs.StreamsText.{stream_text};
ghost use Rattle.cqf_program_explanations.specs.Explanations.{AreNotes};

use crate::explaining::NamedFile;
use crate::given::given_of;
use crate::planning::is_in_step;
use crate::reading::read_streams;
use crate::reported::ReportedLines;
use crate::written::{KeyOwner, WrittenItem};
use cqf_edge::{EdgeFault, EdgeStreams, edge_streams};
use cqf_model::{LEAST_OCTETS, LONGEST_CYCLE, Limits};
use cqf_network::{NetworkDomain, NetworkFault, Pacing, Stream, WantedPath};
use cqf_topology::DomainFault;
use cqf_traffic::Traffic;
use cqf_units::{Octets, counted};
use std::alloc::{AllocError, Global};
use std::fmt;

/// A stream that reserves more than this many times what it sends is noted.
const MOST_TIMES: u64 = 8;

/// A rate: octets in each interval of a number of nanoseconds.
#[derive(Clone, Copy, Debug)]
struct DataRate {
    octets: u64,
    nanos: u64,
}

impl DataRate {
    /// Returns the rate in Mb/s times `parts`, rounded to the nearest whole number.
    fn megabits(self, parts: u64) -> u64 {
        let bits = self.octets.saturating_mul(8000).saturating_mul(parts);
        let half = self.nanos.checked_div(2).unwrap_or(0);
        bits.saturating_add(half)
            .checked_div(self.nanos)
            .unwrap_or(0)
    }

    /// Returns whether this is more than a number of times the other.
    fn is_above(self, times: u64, other: DataRate) -> bool {
        let (own, least) = (
            self.octets.saturating_mul(other.nanos),
            other.octets.saturating_mul(self.nanos),
        );
        own > least.saturating_mul(times)
    }
}

/// In Mb/s, or below 1 Mb/s in kb/s; below 10 of these with one decimal.
impl fmt::Display for DataRate {
    fn fmt<W: fmt::Write>(&self, f: &mut fmt::Formatter<W>) -> fmt::Result {
        let is_slow = self.megabits(10) < 10;
        let (parts, unit) = if is_slow { (1000, "kb/s") } else { (1, "Mb/s") };
        let tenths = self.megabits(10 * parts);
        if tenths < 100 {
            let (whole, rest) = (tenths / 10, tenths % 10);
            write!(f, "{whole}.{rest} {unit}")
        } else {
            let whole = self.megabits(parts);
            write!(f, "{whole} {unit}")
        }
    }
}

/// A plan as it is read: its streams at their edge bridges, and what their talkers promise at the hand-over, both by stream number.
#[derive(Drop)]
struct ReadPlan {
    /// In nanoseconds.
    cycle: u64,
    /// How far any two clocks may differ, in nanoseconds.
    sync: u64,
    /// The octets of a frame that gates don't count.
    overhead: u32,
    promised: Vec<Option<Traffic>>,
    edge: EdgeStreams,
}

/// A stream of a plan at its edge bridge; times in nanoseconds.
#[derive(Drop)]
struct PlannedStream {
    /// The cycle time, and how far any two clocks may differ.
    cycle: u64,
    sync: u64,
    /// What it reserves in one of `every` cycles.
    octets: u32,
    every: u32,
    /// Its interval, the octets that it sends in one, and those of them that gates count.
    interval: u64,
    sent: u64,
    counted: u64,
    /// How late its frames may be there, and at the hand-over.
    jitter: u64,
    own_jitter: u64,
    /// When its first frame is due at the hand-over.
    offset: u64,
    /// The least and the greatest time from the hand-over to there.
    least: u64,
    most: u64,
    /// What is left there of its deadline.
    deadline: Option<u32>,
    /// How many bridges its longest path has.
    bridges: u64,
}

/// Returns what the talkers of streams promise.
fn promises_of(alloc: Global, streams: &[Stream]) -> Result<Vec<Option<Traffic>>, AllocError> {
    let mut promised = Vec::new(alloc);
    for stream in streams {
        promised.push(stream.traffic)?;
    }
    Ok(promised)
}

/// Returns streams at their edge bridges; `None` if one doesn't enter the network.
fn at_edges(
    alloc: Global,
    network: &NetworkDomain,
    streams: Vec<Stream>,
) -> Result<Option<EdgeStreams>, AllocError>
    requires { All IsWrittenStream (map stream_text streams.items) }
{
    match edge_streams(alloc, network, streams) {
        Ok(edge) => Ok(Some(edge)),
        Err(EdgeFault::Memory) => Err(AllocError),
        Err(_) => Ok(None),
    }
}

/// Returns a plan as it is read; `None` if it is refused.
fn read_plan(alloc: Global, limits: Limits, plan: &[u8]) -> Result<Option<ReadPlan>, AllocError> {
    let network = match NetworkDomain::read_one(alloc, plan, limits) {
        Ok(network) => network,
        Err(NetworkFault::Domain(DomainFault::Memory)) => return Err(AllocError),
        Err(_) => return Ok(None),
    };
    let streams = read_streams(alloc, plan)?;
    let promised = promises_of(alloc, streams.as_slice())?;
    let Some(edge) = at_edges(alloc, &network, streams)? else {
        return Ok(None);
    };
    Ok(Some(ReadPlan {
        cycle: u64::from(network.open_cycle()),
        sync: u64::from(network.sync()),
        overhead: network.overhead(),
        promised,
        edge,
    }))
}

/// Returns how many bridges the longest path of a stream has; 0 if it has none yet.
fn bridges_on(path: &WantedPath) -> u64 {
    let mut most: u64 = 0;
    if let WantedPath::Along(paths) = path {
        for path in paths {
            most = most.max((path.len() as u64).saturating_sub(1));
        }
    }
    most
}

impl ReadPlan {
    /// Returns the stream with a number, if it has traffic.
    fn stream_at(&self, place: usize) -> Option<PlannedStream> {
        let stream = self.edge.streams.get(place)?;
        let every = match stream.pacing {
            Pacing::Given { every, .. } => every,
            Pacing::InStep => return None,
        };
        let (least, most) = match self.edge.times.get(place)? {
            Some(times) => (u64::from(times.least), u64::from(times.most)),
            None => (0, 0),
        };
        let promised = *self.promised.get(place)?;
        let (octets, traffic, promised) = (stream.octets?, stream.traffic?, promised?);
        let frames = u64::from(traffic.frames());
        let counted = counted(Octets(self.overhead), traffic.size()).0;
        Some(PlannedStream {
            cycle: self.cycle,
            sync: self.sync,
            octets,
            every,
            interval: traffic.interval().0,
            sent: frames.saturating_mul(u64::from(traffic.size().0)),
            counted: frames.saturating_mul(u64::from(counted)),
            jitter: traffic.jitter().0,
            own_jitter: promised.jitter().0,
            offset: promised.offset().0,
            least,
            most,
            deadline: stream.deadline,
            bridges: bridges_on(&stream.path),
        })
    }
}

impl PlannedStream {
    /// Returns what it reserves.
    fn reserved(&self) -> DataRate {
        DataRate {
            octets: u64::from(self.octets),
            nanos: u64::from(self.every).saturating_mul(self.cycle),
        }
    }

    /// Returns what it sends.
    fn sent(&self) -> DataRate {
        DataRate {
            octets: self.sent,
            nanos: self.interval,
        }
    }

    /// Returns what it has to reserve in a cycle if its frames are late by up to `jitter` at its edge bridge, in octets.
    fn needed(&self, jitter: u64) -> u64 {
        let within = self.cycle.saturating_add(jitter);
        let whole = within.checked_div(self.interval).unwrap_or(0);
        let rest = within.checked_rem(self.interval).unwrap_or(0);
        let intervals = whole.saturating_add(u64::from(rest > 0));
        intervals
            .saturating_mul(self.counted)
            .max(u64::from(LEAST_OCTETS))
    }

    /// Returns whether it could have cycles of its own if its talker were in step: all frames of an interval come in one cycle at its edge
    /// bridge, and its interval is a number of cycles that shares a divisor with the 80 after which all cycles repeat.
    fn may_take_turns(&self) -> bool {
        let cycle = self.cycle;
        let first = self.offset.saturating_add(self.least);
        let first = first.checked_rem(cycle).unwrap_or(0);
        let late = self
            .own_jitter
            .saturating_add(self.most.saturating_sub(self.least));
        let last = first.saturating_add(late).saturating_add(self.sync);
        let is_whole = self.interval.checked_rem(cycle) == Some(0);
        let cycles = self.interval.checked_div(cycle).unwrap_or(1);
        self.every == 1
            && is_whole
            && (cycles % 2 == 0 || cycles % 5 == 0)
            && self.sync <= first
            && last < cycle
    }

    /// Returns whether a cycle time twice as long would keep its deadline too: after k bridges a frame is late by k cycles, by what is sent
    /// before it in a cycle, and by less than a guard band, which is shorter than the present cycle.
    fn may_wait_longer(&self) -> bool {
        let cycle = self.cycle;
        if cycle.saturating_mul(2) > u64::from(LONGEST_CYCLE) {
            return false;
        }
        let cycles = self.bridges.saturating_mul(2).saturating_add(3);
        match self.deadline {
            Some(deadline) => cycles.saturating_mul(cycle) <= u64::from(deadline),
            None => true,
        }
    }
}

/// Appends a form that costs less to others.
fn put_form(forms: &mut String, form: &str) -> Result<(), AllocError> {
    forms.push_str(if forms.is_empty() {
        "; to reserve less: "
    } else {
        ", or "
    })?;
    forms.push_str(form)
}

/// Returns what would cost less, in words; an empty text if nothing is known.
fn cheaper_forms(
    alloc: Global,
    item: &WrittenItem<'_>,
    planned: &PlannedStream,
) -> Result<String, AllocError> {
    let mut forms = String::new(alloc);
    let needed = planned.needed(planned.jitter);
    if needed < u64::from(planned.octets) {
        let form = format!(in alloc; "octets = {needed}")?;
        put_form(&mut forms, form.as_str())?;
    }
    let waiting = planned.jitter.saturating_sub(planned.own_jitter);
    if planned.needed(waiting).saturating_mul(2) <= needed {
        put_form(&mut forms, "lower jitter")?;
    }
    if !is_in_step(item) && planned.may_take_turns() {
        put_form(&mut forms, "in-step = true")?;
    }
    if planned.may_wait_longer() {
        put_form(&mut forms, "a longer cycle")?;
    }
    Ok(forms)
}

/// Notes a stream if it reserves much more than it sends.
fn note_stream(
    alloc: Global,
    reported: &mut ReportedLines,
    item: &WrittenItem<'_>,
    planned: &PlannedStream,
) -> Result<(), AllocError> {
    let (reserved, sent) = (planned.reserved(), planned.sent());
    if !reserved.is_above(MOST_TIMES, sent) || reported.is_counted() {
        return Ok(());
    }
    let (place, label) = (item.place_of("interval"), item.label(alloc)?);
    let forms = cheaper_forms(alloc, item, planned)?;
    reported.report(format!(in alloc;
        "{place}: {label} reserves {reserved} for {sent} of traffic{forms}"
    )?)
}

/// Returns notes on the streams of a plan that reserve more than eight times what they send. Each has a line, of the form of
/// [`notes`](crate::notes), which also says what would cost less. `sources` are the files from which the plan was made, and `plan` is its text,
/// read within `limits`.
///
/// # Errors
/// If an allocation fails.
pub fn plan_notes(
    alloc: Global,
    limits: Limits,
    sources: &[NamedFile<'_>],
    plan: &[u8],
) -> Result<Vec<u8>, AllocError>
    ensures { IfOk result (λ text. AreNotes text.items) }
{
    let mut reported = ReportedLines::new(alloc);
    if let Some(read) = read_plan(alloc, limits, plan)? {
        let given = given_of(alloc, "plan", None, &[], limits, sources, "note")?;
        // the plan has the streams of all files in their order
        for (place, item) in given.written.items(KeyOwner::Stream)?.iter().enumerate() {
            if let Some(planned) = read.stream_at(place) {
                note_stream(alloc, &mut reported, item, &planned)?;
            }
        }
    }
    reported.text("note: ")
}
