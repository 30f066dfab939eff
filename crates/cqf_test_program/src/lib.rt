//! Tests of tables and words, and of the program over readers and writers that fail, with values from outside. A crate
//! with tests is proved twice, so they have their own crate. The stored runs of `runs/` have what the program writes
//! for its words and input.
#![tactic(auto)]

#[cfg(test)]
mod arrivals;
#[cfg(test)]
mod background;
#[cfg(test)]
mod candidates;
#[cfg(test)]
mod engines;
#[cfg(test)]
mod help;
#[cfg(test)]
mod links;
#[cfg(test)]
mod offers;
#[cfg(test)]
mod signals;
#[cfg(test)]
mod stops;
#[cfg(test)]
mod words;
#[cfg(test)]
mod writers;
