//! The command `port`: the starts of one output port.

pub(crate) mod command;
pub(crate) mod outputs;
