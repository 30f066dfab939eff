//! Whether the requested stream and frame exist.
ghost use Rattle.std.specs.Prelude.{◌≡◌, None, IfErr, IfOk, bytes_eq, map, option_map, string_bytes};
ghost use Rattle.std.specs.List.{list_any};
ghost use Rattle.cqf_admission.specs.Asking.{asked_paced};
ghost use Rattle.cqf_program_summary.specs.Hops.Gathered.{wanted_by};
ghost use Rattle.cqf_program_summary.specs.Hops.Known.{frame_refusal, is_claimed, is_planned, no_frame_line, stream_refusal};
ghost use Rattle.cqf_program_summary.specs.Hops.Known.{unknown_stream_line, wanted_refusal};
ghost use Rattle.cqf_program_summary.specs.Hops.Reading.{EndsWithThat};

use crate::hops::wanting::FrameFilter;
use cqf_model::Offer;
use cqf_output::{REFUSED, Stop};
use cqf_topology::PacedRequest;
use cqf_units::Name;
use std::alloc::{AllocError, Global};

/// Returns whether a request has a name.
fn has_request(requests: &[PacedRequest], name: &str) -> bool
    ensures { result ≡ list_any (λ request. bytes_eq (string_bytes request.name) name.now) requests.now }
{
    requests.iter().any(|request| request.name.as_str() == name)
}

/// Returns whether a stream of the plan has a name.
fn is_planned(requests: &[PacedRequest], name: &str) -> bool
    ensures { result ≡ is_planned (map asked_paced requests.now) name.now }
{
    has_request(requests, name)
}

/// Returns whether an offer claims a name.
fn is_claimed(offers: &[Offer], name: &str) -> bool
    ensures { result ≡ is_claimed offers.now name.now }
{
    offers.iter().any(|offer| offer.stream.as_str() == name)
}

/// Returns the line about a stream that doesn't exist. It shows the name only if this has the form of a name: otherwise
/// it may be as long as any word, and contain what controls a terminal.
fn unknown_stream_line(alloc: Global, name: &str) -> Result<String, AllocError>
    ensures { IfOk result (λ line. string_bytes line ≡ unknown_stream_line name.now) }
{
    match Name::new(name.as_bytes()) {
        Some(_) => {
            let line = format!(in alloc; "cqf: hops: UnknownStream {name}\n")?;
            Ok(line)
        }
        None => {
            let line = format!(in alloc; "cqf: hops: UnknownStream\n")?;
            Ok(line)
        }
    }
}

/// Returns the line about a frame that doesn't exist.
fn no_frame_line(alloc: Global, frame: u32) -> Result<String, AllocError>
    ensures { IfOk result (λ line. string_bytes line ≡ no_frame_line frame) }
{
    let line = format!(in alloc; "cqf: hops: NoFrame {frame}\n")?;
    Ok(line)
}

/// Checks that the requested stream exists. Otherwise returns the stop with the line that says so.
fn know_stream(
    alloc: Global,
    requests: &[PacedRequest],
    offers: &[Offer],
    stream: Option<&str>,
) -> Result<(), Stop>
    ensures ok { IfOk result (λ _. stream_refusal (map asked_paced requests.now) offers.now (option_map (λ name. name.now) stream.entry) ≡ None) }
    ensures err { IfErr result
        (EndsWithThat (stream_refusal (map asked_paced requests.now) offers.now (option_map (λ name. name.now) stream.entry))) }
{
    let Some(name) = stream else {
        return Ok(());
    };
    if is_planned(requests, name) || is_claimed(offers, name) {
        return Ok(());
    }
    let line = unknown_stream_line(alloc, name);
    Err(Stop::with_text(alloc, REFUSED, line))
}

/// Checks that the requested frame exists. Otherwise returns the stop with the line that says so.
fn know_frame(alloc: Global, offers: &[Offer], frame: Option<u32>) -> Result<(), Stop>
    ensures ok { IfOk result (λ _. frame_refusal offers.now frame ≡ None) }
    ensures err { IfErr result (EndsWithThat (frame_refusal offers.now frame)) }
{
    let Some(frame) = frame else {
        return Ok(());
    };
    if frame as usize <= offers.len() {
        return Ok(());
    }
    Err(Stop::with_text(alloc, REFUSED, no_frame_line(alloc, frame)))
}

/// Checks that the requested stream exists, and then that the requested frame does. Otherwise returns the stop with the
/// line that says so.
pub(crate) fn know(
    alloc: Global,
    requests: &[PacedRequest],
    offers: &[Offer],
    choice: FrameFilter<'_>,
) -> Result<(), Stop>
    ensures ok { IfOk result (λ _. wanted_refusal (map asked_paced requests.now) offers.now (wanted_by choice.entry) ≡ None) }
    ensures err { IfErr result (EndsWithThat (wanted_refusal (map asked_paced requests.now) offers.now (wanted_by choice.entry))) }
{
    match know_stream(alloc, requests, offers, choice.stream) {
        Ok(()) => know_frame(alloc, offers, choice.frame),
        Err(stop) => Err(stop),
    }
}
