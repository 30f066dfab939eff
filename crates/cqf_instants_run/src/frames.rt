//! The background frames of a run in order of instant.
ghost use Rattle.std.specs.Prelude.{◌≡◌, ◌+◌, ◌^◌, ◌<◌, ◌≤◌, IfOk, filter, length, nat_lt};
ghost use Rattle.cqf_model.specs.Network.{numbered_background};
ghost use Rattle.cqf_instants_run.specs.Frames.{by_instant, is_early};
ghost use Rattle.cqf_model.specs.Limits.{most_offers};

use cqf_model::{Backed, Background};
use cqf_units::{Memory, Nanos};
use std::alloc::Global;

/// Returns the background frame at an index, with its number, from 1.
fn numbered_frame(index: usize, background: &Background) -> Backed
    requires { index + 1 < 2 ^ 32 }
    ensures { result ≡ record { frame = index + 1; background = background.now } }
{
    Backed {
        frame: (index + 1) as u32,
        background: *background,
    }
}

/// Returns whether a background frame arrives before an instant.
fn is_early(frame: &Background, end: Nanos) -> bool
    ensures { result ≡ nat_lt frame.now.at.0 end.0 }
{
    frame.at.0 < end.0
}

/// Returns the background frames that arrive before an instant, in the order of the list.
fn listed_before(
    alloc: Global,
    background: &[Background],
    end: Nanos,
) -> Result<Vec<Backed>, Memory>
    requires { length background.now ≤ most_offers }
    ensures { IfOk result (λ frames. frames.items ≡ filter (is_early end.0) (numbered_background background.now)) }
{
    let mut frames = Vec::new(alloc);
    for (index, frame) in background.iter().enumerate() {
        if is_early(frame, end) {
            frames.push(numbered_frame(index, frame))?;
        }
    }
    Ok(frames)
}

/// Returns the background frames that arrive before an instant, by instant, then index, each with its number among all background frames.
pub(crate) fn frames_before(
    alloc: Global,
    background: &[Background],
    end: Nanos,
) -> Result<Vec<Backed>, Memory>
    requires { length background.now ≤ most_offers }
    ensures { IfOk result (λ frames. frames.items ≡ by_instant background.now end.0) }
{
    let mut frames = listed_before(alloc, background, end)?;
    frames.sort_by_key(|frame| frame.background.at.0)?;
    Ok(frames)
}
