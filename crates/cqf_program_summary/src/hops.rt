//! The command `hops`: the book by frame.

pub(crate) mod command;
pub(crate) mod known;
pub(crate) mod legs;
pub(crate) mod lines;
pub(crate) mod outputs;
pub(crate) mod preparing;
pub(crate) mod reading;
pub(crate) mod rounds;
pub(crate) mod steps;
pub(crate) mod wanting;
