//! The command `check`: whether all goes well.

pub(crate) mod checked;
pub(crate) mod refused_calls;
