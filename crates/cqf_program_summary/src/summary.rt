//! The command `summary`: what becomes of frames, by stream and listener.

pub(crate) mod command;
pub(crate) mod fares;
pub(crate) mod gathering;
pub(crate) mod lines;
pub(crate) mod listing;
pub(crate) mod outputs;
pub(crate) mod sums;
pub(crate) mod tallies;
