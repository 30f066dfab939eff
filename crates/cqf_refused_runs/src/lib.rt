//! Trials of runs on one thread and their texts, of what threads share, of worlds, of workers with their pipes, and of
//! runs on threads. Only the program that makes them uses this crate.
//!
//! A call is made between two marks, and repeated if it was refused for lack of memory. The expected result is given
//! with each, worked out by hand. [`reported_of`] makes the trial with a name, and [`NAMES`] are the names of all of them.
#![tactic(auto)]

mod conducting;
mod cycle_books;
mod desks;
mod full;
mod none;
mod pages;
mod pipes;
mod plain;
mod runs;
mod seats;
mod wires;
mod worlds;
mod written;

pub use runs::{NAMES, reported_of};
