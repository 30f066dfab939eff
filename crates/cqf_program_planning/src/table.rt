//! The table of the candidates for the cycle time.
ghost use Rattle.std.specs.Prelude.{◌≡◌, [], IfOk, string_bytes};
ghost use Rattle.std.specs.List.{join_with_byte};
ghost use Rattle.std.specs.Option.{option_map_or};
ghost use Rattle.cqf_program_plans.specs.Load.Text.{left_text, percentage_text};
ghost use Rattle.cqf_report.specs.Written.{line_of_fields};
ghost use Rattle.cqf_program_planning.specs.Choosing.{candidate_fault_text};
ghost use Rattle.cqf_program_planning.specs.Steps.{held_fields, tight_fields};
ghost use Rattle.cqf_program_planning.specs.TableText.{candidate_fields, slack_text, stream_of_slack, text_of_candidates};

use crate::candidates::{Candidate, CandidateFault, Slack};
use cqf_units::Memory;
use std::alloc::Global;

/// Returns a share in thousandths as a percentage; an empty text if there is none.
fn used_text(alloc: Global, used: Option<u64>) -> Result<String, Memory>
    ensures { IfOk result (λ text. string_bytes text ≡ option_map_or percentage_text used []) }
{
    let Some(share) = used else {
        return Ok(String::new(alloc));
    };
    let (percent, tenths) = (share / 10, share % 10);
    let text = format!(in alloc; "{percent}.{tenths}")?;
    Ok(text)
}

/// Returns what is left of a deadline, below 0 if more is taken.
fn left_text(alloc: Global, deadline: u64, most: u64) -> Result<String, Memory>
    ensures { IfOk result (λ text. string_bytes text ≡ left_text deadline most) }
{
    if most <= deadline {
        let left = deadline - most;
        let text = format!(in alloc; "{left}")?;
        return Ok(text);
    }
    let beyond = most - deadline;
    let text = format!(in alloc; "-{beyond}")?;
    Ok(text)
}

/// Returns what is left of the tightest deadline; an empty text if there is none.
fn slack_text(alloc: Global, tightest: &Option<Slack>) -> Result<String, Memory>
    ensures { IfOk result (λ text. string_bytes text ≡ slack_text tightest.now) }
{
    match tightest {
        Some(slack) => left_text(alloc, u64::from(slack.deadline), slack.most),
        None => Ok(String::new(alloc)),
    }
}

/// Returns the stream of the tightest deadline; an empty text if there is none.
fn stream_of_slack(tightest: &Option<Slack>) -> &str
    ensures { result.now ≡ stream_of_slack tightest.now }
{
    match tightest {
        Some(slack) => slack.stream.as_str(),
        None => "",
    }
}

/// Returns why a candidate isn't good; an empty text if it is good.
fn fault_text(alloc: Global, fault: &Option<CandidateFault>) -> Result<String, Memory>
    ensures { IfOk result (λ text. string_bytes text ≡ option_map_or candidate_fault_text fault.now []) }
{
    let Some(fault) = fault else {
        return Ok(String::new(alloc));
    };
    let text = format!(in alloc; "{fault}")?;
    Ok(text)
}

/// Returns the first half of a candidate's fields: what is placed and held. `streams` is the number of all streams.
fn held_text(alloc: Global, streams: usize, candidate: &Candidate) -> Result<String, Memory>
    ensures { IfOk result (λ text. string_bytes text ≡ join_with_byte 44 (held_fields streams candidate.now)) }
{
    let (cycle_time, placed) = (candidate.cycle_time, candidate.placed);
    let used = used_text(alloc, candidate.used)?;
    let text = format!(in alloc; "{cycle_time},{placed},{streams},{used}")?;
    Ok(text)
}

/// Returns the second half: how tight deadlines are, and why the candidate isn't good.
fn tight_text(alloc: Global, candidate: &Candidate) -> Result<String, Memory>
    ensures { IfOk result (λ text. string_bytes text ≡ join_with_byte 44 (tight_fields candidate.now)) }
{
    let late = candidate.late;
    let stream = stream_of_slack(&candidate.tightest);
    let slack = slack_text(alloc, &candidate.tightest)?;
    let fault = fault_text(alloc, &candidate.fault)?;
    let text = format!(in alloc; "{late},{stream},{slack},{fault}")?;
    Ok(text)
}

/// Returns the line of a candidate. `streams` is the number of all streams.
fn candidate_line(alloc: Global, streams: usize, candidate: &Candidate) -> Result<String, Memory>
    ensures { IfOk result (λ line. string_bytes line ≡ line_of_fields (candidate_fields streams candidate.now)) }
{
    let held = held_text(alloc, streams, candidate)?;
    let tight = tight_text(alloc, candidate)?;
    let line = format!(in alloc; "{held},{tight}\n")?;
    Ok(line)
}

/// Returns the table of some candidates: a header, and a line for each candidate. `streams` is the number of all streams. Returns `Memory`
/// if an allocation fails.
pub(crate) fn text_of_candidates(
    alloc: Global,
    streams: usize,
    reported: &[Candidate],
) -> Result<Vec<u8>, Memory>
    ensures { IfOk result (λ text. text.items ≡ text_of_candidates streams reported.now) }
{
    let mut text = Vec::from_slice(
        alloc,
        b"cycle,placed,streams,used,late,tightest,slack,fault\n",
    )?;
    for candidate in reported {
        let line = candidate_line(alloc, streams, candidate)?;
        text.extend_from_slice(line.as_bytes())?;
    }
    Ok(text)
}
