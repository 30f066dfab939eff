//! Trials of calls that take no thread, up to a single bridge, and what all trials of refused allocations share. Only
//! the program that makes them, and the trials of runs, use this crate.
//!
//! A call is made between two marks, and repeated if it was refused for lack of memory. The expected result is given
//! with each call, worked out by hand.
//!
//! - [`reported_of`] makes the trial with a name, and [`NAMES`] are the names of all of them.
//! - [`mark`] is called before and after a call, so that a program that refuses allocations knows when the call begins
//!   and ends.
//! - [`Reported`] is the result of a trial: [`once`] if the call was answered, and [`twice`] if it was refused for lack of
//!   memory and repeated. `trial!` makes the calls and returns the right one of the two; `looked_at!` is for calls that
//!   allocate no memory.
//! - `names_of!` and `reported_by!` find the trials of a list by their names.
//! - [`domain_of`], [`plan_of`], [`line_with`] and [`tables_with`] prepare what calls need.
#![tactic(auto)]

mod admissions;
mod bridges;
mod copies;
mod domains;
mod gates;
mod many;
mod marks;
mod none;
mod numbers;
mod plans;
mod ports;
mod ready;
mod reported;
mod spent;
mod texts;
mod values;

pub use marks::mark;
pub use ready::{
    MOST_ENTRIES, PATH, SEVEN, X, domain_of, fills, granted, is_text, line_with, plan_of,
    tables_of, tables_with, writes,
};
pub use reported::{Reported, once, twice};
pub use values::{NAMES, reported_of};
