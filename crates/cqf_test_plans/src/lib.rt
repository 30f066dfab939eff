//! Tests with external values: domains and streams read, with their addressing; admission and its scripts; pages and the order of drops;
//! network files read, paths found and plans written; and bounds of access links. A crate with tests is proved twice, so these are in a
//! crate of their own.
#![tactic(auto)]

#[cfg(test)]
mod access;
#[cfg(test)]
mod addressing;
#[cfg(test)]
mod admission;
#[cfg(test)]
mod domains;
#[cfg(test)]
mod edges;
#[cfg(test)]
mod order;
#[cfg(test)]
mod pages;
#[cfg(test)]
mod paths;
#[cfg(test)]
mod reported;
#[cfg(test)]
mod scripts;
#[cfg(test)]
mod streams;
#[cfg(test)]
mod topology;
