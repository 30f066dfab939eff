//! The command `line`: the book of the smallest network.

pub(crate) mod command;
pub(crate) mod domain;
pub(crate) mod given;
pub(crate) mod outputs;
