//! The legs of the frames under way, round by round.
ghost use Rattle.std.specs.Prelude.{◌≡◌, ◌≤◌, ◌+◌, ◌++◌, ◌∷◌, [], AllPairs, IsOk, List, OnOk, length, min, vec_capacity};
ghost use Rattle.cqf_model.specs.declared.frames.Started.{Started as AStart};
ghost use Rattle.cqf_instants.specs.Progress.{AreStartsOf};
ghost use Rattle.cqf_program_summary.specs.Hops.Gathered.{kept_legs};
ghost use Rattle.cqf_program_summary.specs.Hops.Legs.{AreApart, AreByFrame};
ghost use Rattle.cqf_program_summary.specs.Hops.Rounds.{GoesThrough, HasRoom, IsLater, KeepsRoom, Source as ASource, StandsAt, WritesKept};
ghost use Rattle.cqf_program_summary.specs.Hops.Rounds.{dropped_legs, kept_in, legs_after, legs_up_to, no_round, source_of, started_legs, starts_before};

use crate::hops::legs::{Leg, sort_legs};
use crate::hops::rounds::{Round, no_round};
use crate::hops::wanting::FrameFilter;
use cqf_instants::Pass;
use cqf_model::{Dropped, Offer, Started};
use cqf_units::Memory;

/// The source of the legs: the offers, which of their frames are wanted, and the drops by frame.
#[derive(Clone, Copy)]
pub struct HopsRun<'r> {
    pub(crate) offers: &'r [Offer],
    pub(crate) choice: FrameFilter<'r>,
    pub(crate) drops: &'r [Dropped],
}

/// The legs of the frames under way that are kept after a round, with the pass that returns their starts.
#[derive(Drop)]
pub struct LegsUnderWay {
    pub(crate) pass: Pass,
    /// The round.
    pub(crate) at: Round,
    /// The legs of frames that aren't written completely, in the order in which the pass returns them.
    pub(crate) kept: Vec<Leg>,
    /// The legs of the round's own frames.
    pub(crate) here: Vec<Leg>,
}

/// Appends a leg if it is wanted.
fn push_wanted(legs: &mut Vec<Leg>, run: &HopsRun<'_>, leg: Leg) -> Result<(), Memory>
    ensures ok { OnOk result (legs.new.items ≡ legs.old.items ++ kept_legs run.now.offers.now (source_of run.now).wanted (leg ∷ [])) }
    ensures capacity { vec_capacity legs.old ≤ vec_capacity legs.new }
    ensures succeeds { length legs.old.items + length (kept_legs run.now.offers.now (source_of run.now).wanted (leg ∷ [])) ≤ vec_capacity legs.old →
        IsOk result }
{
    if !run.choice.wants(run.offers, leg.frame()) {
        return Ok(());
    }
    legs.push(leg)?;
    Ok(())
}

/// Appends the wanted legs of starts, for frames after the first `frames` ones.
fn push_starts(
    legs: &mut Vec<Leg>,
    run: &HopsRun<'_>,
    frames: usize,
    starts: &[Started],
) -> Result<(), Memory>
    ensures ok { OnOk result (legs.new.items ≡ legs.old.items ++ legs_after frames (started_legs (source_of run.now) starts.now)) }
    ensures capacity { vec_capacity legs.old ≤ vec_capacity legs.new }
    ensures succeeds { length legs.old.items + length (legs_after frames (started_legs (source_of run.now) starts.now)) ≤ vec_capacity legs.old →
        IsOk result }
{
    for started in starts {
        if started.frame as usize > frames {
            push_wanted(legs, run, Leg::Started(*started))?;
        }
    }
    Ok(())
}

/// Appends the wanted legs of drops.
fn push_drops(legs: &mut Vec<Leg>, run: &HopsRun<'_>, drops: &[Dropped]) -> Result<(), Memory>
    ensures ok { OnOk result (legs.new.items ≡ legs.old.items ++ dropped_legs (source_of run.now) drops.now) }
    ensures capacity { vec_capacity legs.old ≤ vec_capacity legs.new }
    ensures succeeds { length legs.old.items + length (dropped_legs (source_of run.now) drops.now) ≤ vec_capacity legs.old → IsOk result }
{
    for dropped in drops {
        push_wanted(legs, run, Leg::Dropped(*dropped))?;
    }
    Ok(())
}

/// Replaces `here` by the legs of the first `frames` frames.
fn take_up_to(here: &mut Vec<Leg>, kept: &[Leg], frames: usize) -> Result<(), Memory>
    ensures ok { OnOk result (here.new.items ≡ legs_up_to frames kept.now) }
    ensures capacity { vec_capacity here.old ≤ vec_capacity here.new }
    ensures succeeds { length (legs_up_to frames kept.now) ≤ vec_capacity here.old → IsOk result }
{
    here.clear();
    for leg in kept {
        if leg.frame() as usize <= frames {
            here.push(*leg)?;
        }
    }
    Ok(())
}

/// Keeps only the legs of later frames.
fn keep_after(kept: &mut Vec<Leg>, frames: usize)
    ensures legs { kept.new.items ≡ legs_after frames kept.old.items }
    ensures capacity { vec_capacity kept.new ≡ vec_capacity kept.old }
{
    kept.retain(|leg| leg.frame() as usize > frames);
}

impl LegsUnderWay {
    /// Returns the state before the first round, with the given room.
    pub(crate) fn at_first(pass: Pass, kept: Vec<Leg>, here: Vec<Leg>) -> LegsUnderWay
        requires { pass.reported ≡ 0 }
        ensures stands { (starts : List AStart) (source : ASource) → AreStartsOf pass.basis starts → StandsAt starts source result }
        ensures first { result.at ≡ no_round }
        ensures same { result.pass ≡ pass }
        ensures kept_room { vec_capacity result.kept ≡ vec_capacity kept }
        ensures here_room { vec_capacity result.here ≡ vec_capacity here }
    {
        let (mut kept, mut here) = (kept, here);
        kept.clear();
        here.clear();
        LegsUnderWay {
            pass,
            at: no_round(),
            kept,
            here,
        }
    }

    /// Takes the starts of the first `cycles` cycles from the pass, and keeps the wanted ones of frames that aren't
    /// written completely.
    fn write_up_to(&mut self, run: &HopsRun<'_>, cycles: u64) -> Result<(), Memory>
        requires reported { self.old.pass.reported ≡ min self.old.at.cycles self.old.pass.basis.cycles }
        requires later { self.old.at.cycles ≤ cycles }
        ensures ok { OnOk result (WritesKept (source_of run.now) cycles self.old self.new) }
        ensures capacity { KeepsRoom self.old self.new }
        ensures succeeds { (starts : List AStart) → StandsAt starts (source_of run.now) self.old →
            length (kept_in (source_of run.now) self.old.at (starts_before cycles starts)) ≤ vec_capacity self.old.kept →
            IsOk result }
    {
        for _cycle in self.at.cycles..cycles {
            if !self.pass.next_cycle() {
                return Ok(());
            }
            push_starts(&mut self.kept, run, self.at.frames, self.pass.starts())?;
        }
        Ok(())
    }

    /// Processes a round: afterwards `here` has the legs that are written in it.
    pub(crate) fn go_through(&mut self, run: &HopsRun<'_>, round: &Round) -> Result<(), Memory>
        requires reported { self.old.pass.reported ≡ min self.old.at.cycles self.old.pass.basis.cycles }
        requires next { IsLater self.old.at round.now }
        requires drops_within { round.now.drops ≤ length run.now.drops.now }
        ensures ok { OnOk result (GoesThrough (source_of run.now) round.now self.old self.new) }
        ensures capacity { KeepsRoom self.old self.new }
        ensures succeeds { (starts : List AStart) → StandsAt starts (source_of run.now) self.old →
            HasRoom starts (source_of run.now) self.old.at round.now (vec_capacity self.old.kept) (vec_capacity self.old.here) → IsOk result }
    {
        let from = self.at.drops;
        self.write_up_to(run, round.cycles)?;
        take_up_to(&mut self.here, self.kept.as_slice(), round.frames)?;
        keep_after(&mut self.kept, round.frames);
        let own = &run.drops[from..round.drops];
        push_drops(&mut self.here, run, own)?;
        self.at = *round;
        Ok(())
    }

    /// Sorts the legs that are written in the round.
    pub(crate) fn sort_here(&mut self)
        requires { AllPairs AreApart self.old.here.items }
        ensures rest { (self.new.pass ≡ self.old.pass) × (self.new.at ≡ self.old.at) × (self.new.kept ≡ self.old.kept) }
        ensures here { AreByFrame self.old.here.items self.new.here.items }
        ensures capacity { vec_capacity self.new.here ≡ vec_capacity self.old.here }
    {
        sort_legs(&mut self.here);
    }
}
