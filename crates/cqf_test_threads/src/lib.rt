//! Tests of runs on threads and of what threads share, with values from outside: desks and their seats, cycle books, pipes and Stops,
//! workers that give up, and whole runs, replayed. Runs whose history is always the same are in the stored runs of `runs/`. A crate that
//! has tests is proved twice, so these tests have a crate of their own.
#![tactic(auto)]

#[cfg(test)]
mod asking;
#[cfg(test)]
mod both_begin;
#[cfg(test)]
mod calls_within;
#[cfg(test)]
mod closing;
#[cfg(test)]
mod cycle_book;
#[cfg(test)]
mod failing;
#[cfg(test)]
mod faults;
#[cfg(test)]
mod flags;
#[cfg(test)]
mod halting;
#[cfg(test)]
mod pipes;
#[cfg(test)]
mod refusals;
#[cfg(test)]
mod replays;
#[cfg(test)]
mod running;
#[cfg(test)]
mod sizes;
#[cfg(test)]
mod threads;
#[cfg(test)]
mod words;
