//! The command `latency`: how long the frames of each stream take to each of its listeners.

pub(crate) mod command;
pub(crate) mod costs;
pub(crate) mod latencies;
pub(crate) mod laws;
pub(crate) mod listeners;
pub(crate) mod outputs;
pub(crate) mod reading;
pub(crate) mod writing;
