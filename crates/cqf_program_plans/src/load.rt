//! The command `load`: what links hold of the streams, and what they have left.

pub(crate) mod access;
pub(crate) mod command;
pub(crate) mod laws;
pub(crate) mod listing;
pub(crate) mod outputs;
pub(crate) mod reported;
pub(crate) mod shares;
pub(crate) mod streams;
