//! The frames under way: when they are whole at their listeners, while a pass returns the starts of the run.
ghost use Rattle.std.specs.Prelude.{ℕ, ◌≡◌, ◌<◌, ◌^◌, ◌∷◌, [], All, None, length, slice_index_or};
ghost use Rattle.std.specs.Option.{option_and_then};
ghost use Rattle.cqf_model.specs.Domain.{end_of};
ghost use Rattle.cqf_program_plans.specs.Latency.Text.{is_station};
ghost use Rattle.cqf_program_runs.specs.Deliveries.{whole_instant};
ghost use Rattle.cqf_program_runs.specs.Deliveries.UnderWay.{GoesOn, IsInTime, KeepsFirst, KeepsInSlot, NotesAll, WritesInTime, WritesUpTo};
ghost use Rattle.cqf_program_runs.specs.Deliveries.UnderWay.{column_of, row_at, slots_of, whole_in};

use crate::deliveries::made::CompletedRun;
use cqf_instants::Pass;
use cqf_instants_run::EdgeVerdict;
use cqf_model::{Node, Row, Started};
use cqf_topology::Domain;
use cqf_units::{Nanos, Octets, end_of};
use std::collections::VecDeque;

/// The frames under way, from one offer on, with the pass that returns their starts. There are as many slots as frames
/// are under way at once at most. No start of a later frame has been returned.
#[derive(Drop)]
pub struct UnderWay {
    /// It returns the starts of the run, cycle by cycle.
    pub(crate) pass: Pass,
    /// The number of cycles whose starts it has returned.
    pub(crate) reported: u64,
    /// The most cycles after its own for which a frame can be under way.
    pub(crate) hop_number: u8,
    /// For each frame, in order, when it is whole at the listeners of its stream, in the order of the tree, as far as
    /// that is known.
    pub(crate) slots: VecDeque<Vec<Option<Nanos>>>,
}

/// Returns whether a link ends in a station. A link that the domain lacks doesn't.
pub(crate) fn ends_in_station(domain: &Domain, link: u16) -> bool
    ensures { result ≡ is_station (end_of domain.now link) }
{
    if link >= domain.links() {
        return false;
    }
    match domain.link(link).to {
        Node::Station(_) => true,
        Node::Bridge(_) => false,
    }
}

/// Returns the instant at which a frame that starts is whole at the link's end.
fn whole_of(domain: &Domain, start: &Started) -> Nanos
    requires link { start.now.link < length domain.now.links }
    requires in_time { IsInTime domain.now start.now }
    ensures { result ≡ whole_instant domain.now start.now }
{
    let link = domain.link(start.link);
    let end = end_of(start.start, Octets(start.octets), link.rate);
    Nanos(end.0 + u64::from(link.delay))
}

/// Returns the index, from 0, of the listener at the end of a link among those of a row.
fn column_of(domain: &Domain, row: &Row, link: u16) -> Option<usize>
    ensures { result ≡ column_of domain.now row.now link }
{
    row.tree
        .as_slice()
        .iter()
        .filter(|hop| ends_in_station(domain, hop.link))
        .position(|hop| hop.link == link)
}

/// Returns the index of the listener at the end of a link among those of the row by which the offer at an index goes
/// on.
fn column_at(ended: &CompletedRun<'_>, index: usize, link: u16) -> Option<usize>
    ensures { result ≡ option_and_then (λ row. column_of ended.now.domain.now row link) (row_at ended.now.rows.now ended.now.edge_verdicts.now index) }
{
    let row = match ended.edge_verdicts.get(index)? {
        EdgeVerdict::Covered(row) => ended.rows.get(*row)?,
        EdgeVerdict::Dropped(_) => return None,
    };
    column_of(ended.domain, row, link)
}

/// Keeps when a frame is whole at a listener, if nothing is kept of that yet.
fn keep(slot: &mut Vec<Option<Nanos>>, column: usize, whole: Nanos)
    ensures { KeepsFirst slot.old.items slot.new.items column whole }
{
    if column < slot.len() && slot[column].is_none() {
        slot[column] = Some(whole);
    }
}

/// Does the same in the slot at an index.
fn keep_in(slots: &mut VecDeque<Vec<Option<Nanos>>>, following: usize, column: usize, whole: Nanos)
    requires { following < length slots.old.items }
    ensures { KeepsInSlot (slots_of slots.old.items) (slots_of slots.new.items) following column whole }
{
    keep(&mut slots[following], column, whole);
}

/// Notes a start of a frame under way, from the offer at an index on, if the frame reaches a listener by it.
fn note(
    slots: &mut VecDeque<Vec<Option<Nanos>>>,
    ended: &CompletedRun<'_>,
    index: usize,
    start: &Started,
)
    requires { IsInTime ended.now.domain.now start.now }
    ensures { NotesAll ended.now.domain.now ended.now.rows.now ended.now.edge_verdicts.now index (start.now ∷ [])
        (slots_of slots.old.items) (slots_of slots.new.items) }
{
    let frame = start.frame as usize;
    if frame <= index {
        return;
    }
    if !ends_in_station(ended.domain, start.link) {
        return;
    }
    let following = frame - 1 - index;
    if following >= slots.len() {
        return;
    }
    if let Some(column) = column_at(ended, frame - 1, start.link) {
        keep_in(slots, following, column, whole_of(ended.domain, start));
    }
}

/// Notes starts, in their order.
fn note_each(
    slots: &mut VecDeque<Vec<Option<Nanos>>>,
    ended: &CompletedRun<'_>,
    index: usize,
    starts: &[Started],
)
    requires { All (IsInTime ended.now.domain.now) starts.now }
    ensures { NotesAll ended.now.domain.now ended.now.rows.now ended.now.edge_verdicts.now index starts.now
        (slots_of slots.old.items) (slots_of slots.new.items) }
{
    for start in starts {
        note(slots, ended, index, start);
    }
}

/// Empties a slot.
fn empty(slot: &mut Vec<Option<Nanos>>)
    ensures as_many { length slot.new.items ≡ length slot.old.items }
    ensures none { (column : ℕ) → slice_index_or slot.new.items column None ≡ None }
{
    for column in 0..slot.len() {
        slot[column] = None;
    }
}

/// Returns when a frame of a row is whole at the end of a link, by its slot; `None` if that isn't known.
pub(crate) fn whole_in(
    domain: &Domain,
    row: &Row,
    slot: &[Option<Nanos>],
    link: u16,
) -> Option<Nanos>
    ensures { result ≡ whole_in domain.now row.now slot.now link }
{
    let column = column_of(domain, row, link)?;
    match slot.get(column) {
        Some(whole) => *whole,
        None => None,
    }
}

impl UnderWay {
    /// Takes the starts of the cycles up to `last` from the pass, and notes those of frames under way, from the offer
    /// at an index on.
    pub(crate) fn write_up_to(&mut self, ended: &CompletedRun<'_>, index: usize, last: u64)
        requires in_time { WritesInTime ended.now.domain.now self.old.pass.basis }
        requires counted { self.old.reported ≡ self.old.pass.reported }
        requires small { last < 2 ^ 63 }
        ensures { WritesUpTo ended.now.domain.now ended.now.rows.now ended.now.edge_verdicts.now index last self.old self.new }
    {
        while self.reported <= last {
            if !self.pass.next_cycle() {
                return;
            }
            self.reported += 1;
            note_each(&mut self.slots, ended, index, self.pass.starts());
        }
    }

    /// Returns what is kept of the first frame.
    pub(crate) fn first(&self) -> &[Option<Nanos>]
        requires { 0 < length self.now.slots.items }
        ensures { result.now ≡ slice_index_or (slots_of self.now.slots.items) 0 [] }
    {
        self.slots[0].as_slice()
    }

    /// Advances to the next frame: the slot of the first frame is emptied, and becomes that of the frame after the
    /// last.
    pub(crate) fn go_on(&mut self)
        requires { 0 < length self.old.slots.items }
        ensures { GoesOn self.old self.new }
    {
        empty(&mut self.slots[0]);
        self.slots.rotate_left(1);
    }
}
