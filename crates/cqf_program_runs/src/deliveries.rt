//! The command `deliveries`: what becomes of each offer at each listener; `check` is made of it.

pub(crate) mod command;
pub(crate) mod deadlines;
pub(crate) mod delivery;
pub(crate) mod few;
pub(crate) mod lines;
pub(crate) mod made;
pub(crate) mod noted;
pub(crate) mod outputs;
pub(crate) mod reading;
pub(crate) mod rooms;
pub(crate) mod under_way;
