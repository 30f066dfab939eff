//! Tests of runs on one thread, with values from outside: by exact instants and by ports and gates, which must give the same book; tables
//! that a run refuses; and worlds whose events come out of turn. The other results of a run are in the stored runs of `runs/`. A crate that
//! has tests is proved twice, so these tests have a crate of their own.
#![tactic(auto)]

#[cfg(test)]
mod acts;
#[cfg(test)]
mod administrations;
#[cfg(test)]
mod backgrounds;
#[cfg(test)]
mod books;
#[cfg(test)]
mod cases;
#[cfg(test)]
mod hop_numbers;
#[cfg(test)]
mod layers;
#[cfg(test)]
mod making;
#[cfg(test)]
mod orders;
#[cfg(test)]
mod paths;
#[cfg(test)]
mod plans;
#[cfg(test)]
mod quiet;
#[cfg(test)]
mod starts;
#[cfg(test)]
mod tables;
#[cfg(test)]
mod ties;
#[cfg(test)]
mod turns;
#[cfg(test)]
mod written;
