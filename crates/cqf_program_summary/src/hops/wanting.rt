//! The wanted frames.
ghost use Rattle.std.specs.Prelude.{◌≡◌, IfOk, option_map, string_bytes};
ghost use Rattle.cqf_program_summary.specs.Hops.Gathered.{wanted_by};
ghost use Rattle.cqf_program_summary.specs.Hops.Legs.{is_frame, is_stream, is_wanted, stream_of};

use cqf_model::Offer;
use cqf_units::Memory;
use std::alloc::Global;
use std::marker::Model;

/// The wanted frames: if a stream is named, those that claim it; if a number is given, only that one; otherwise all.
#[derive(Clone, Copy, Debug)]
pub struct FrameFilter<'c> {
    pub stream: Option<&'c str>,
    /// The number of its offer among the offers, from 1.
    pub frame: Option<u32>,
}

/// The same, with a copy of the stream's name.
#[derive(Debug, Drop)]
pub struct WantedFrames {
    stream: Option<String>,
    frame: Option<u32>,
}

impl Model for WantedFrames {
    ghost use Rattle.std.specs.Prelude.{option_map, string_bytes};
    ghost use Rattle.cqf_program_summary.specs.Hops.Legs.{Wanted};

    ghost Value = { Wanted };

    ghost view = { λ w. record { stream = option_map string_bytes w.stream; frame = w.frame } };
}

/// Returns a copy of a name, if there is one.
fn copy_of(alloc: Global, name: Option<&str>) -> Result<Option<String>, Memory>
    ensures { IfOk result (λ copy. option_map string_bytes copy ≡ option_map (λ name. name.now) name.entry) }
{
    match name {
        Some(name) => Ok(Some(String::from_str(alloc, name)?)),
        None => Ok(None),
    }
}

impl WantedFrames {
    /// Returns a copy of a choice.
    ///
    /// # Errors
    /// `Memory` if an allocation fails.
    pub(crate) fn copy(alloc: Global, choice: FrameFilter<'_>) -> Result<WantedFrames, Memory>
        ensures { IfOk result (λ wanted. wanted ≡ wanted_by choice.entry) }
    {
        Ok(WantedFrames {
            stream: copy_of(alloc, choice.stream)?,
            frame: choice.frame,
        })
    }

    /// Returns the choice.
    pub(crate) fn choice(&self) -> FrameFilter<'_>
        ensures { wanted_by result ≡ self.now }
    {
        FrameFilter {
            stream: match &self.stream {
                Some(name) => Some(name.as_str()),
                None => None,
            },
            frame: self.frame,
        }
    }
}

/// Returns the name of the stream that a frame claims; an empty one if no offer has the number.
pub(crate) fn stream_of(offers: &[Offer], frame: u32) -> &str
    ensures { result.now ≡ stream_of offers.now frame }
{
    match offers.get((frame as usize).saturating_sub(1)) {
        Some(offer) => offer.stream.as_str(),
        None => "",
    }
}

/// Returns whether a name is that of the stream, if one is named.
fn is_stream(stream: Option<&str>, name: &str) -> bool
    ensures { result ≡ is_stream (option_map (λ stream. stream.now) stream.entry) name.now }
{
    match stream {
        Some(stream) => name == stream,
        None => true,
    }
}

/// Returns whether a number is that of the frame, if one is given.
fn is_frame(frame: Option<u32>, number: u32) -> bool
    ensures { result ≡ is_frame frame number }
{
    match frame {
        Some(frame) => number == frame,
        None => true,
    }
}

impl<'c> FrameFilter<'c> {
    /// Returns whether the frame with a number is wanted.
    pub(crate) fn wants(self, offers: &[Offer], frame: u32) -> bool
        ensures { result ≡ is_wanted offers.now (wanted_by self.entry) frame }
    {
        if !is_frame(self.frame, frame) {
            return false;
        }
        is_stream(self.stream, stream_of(offers, frame))
    }
}
