//! The command `run`: the history and the book of a scenario.

pub(crate) mod command;
pub(crate) mod outputs;
