//! The command `report`: what each link carries.

pub(crate) mod carried;
pub(crate) mod command;
