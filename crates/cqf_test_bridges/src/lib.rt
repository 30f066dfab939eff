//! Tests of bridges driven one by one, and of units, texts, lanes, gate lists and ports, with concrete values. A crate with tests is proved
//! twice, so these tests have a crate of their own.
#![tactic(auto)]

#[cfg(test)]
mod calls;
#[cfg(test)]
mod gate_texts;
#[cfg(test)]
mod gates;
#[cfg(test)]
mod lanes;
#[cfg(test)]
mod longer;
#[cfg(test)]
mod ports;
#[cfg(test)]
mod runs;
#[cfg(test)]
mod spans;
#[cfg(test)]
mod streams;
#[cfg(test)]
mod tables;
#[cfg(test)]
mod text;
#[cfg(test)]
mod transmission;
#[cfg(test)]
mod turns;
#[cfg(test)]
mod units;
#[cfg(test)]
mod written_gates;
