//! The command `compile`: the gate lists and stream gates of a domain and its streams.

pub(crate) mod command;
pub(crate) mod gated;
pub(crate) mod outputs;
